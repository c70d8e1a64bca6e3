//! Programs: the implementations of traits.

ghost use Rattle.std.specs.Prelude.{◌≡◌, ◌++◌, ◌∷◌, List, [], IsTrue, OnErr, OnOk};
ghost use Rattle.tt_kinds.specs.Kinds.{args_shape};
ghost use Rattle.tt_interner.specs.Owned.{IsOwned};
ghost use Rattle.tt_interner.specs.Stored.{Extends, Terms};
ghost use Rattle.solver.specs.Derivations.{AreArguments};
ghost use Rattle.solver.specs.Program.{argument_trees, impl_in, IsOwnedImpl, IsProgram};
ghost use Rattle.solver.specs.Written.{IsWritten};

use crate::arguments::never_arguments;
use crate::fault::Fault;
use crate::instances::check_written;
use std::alloc::Global;
use std::marker::Model;
use tt_interner::{InternedList, Interner};
use tt_kinds::{GenericArgs, TraitPredicate};
use tt_owned::{Owned, are_owned};

/// An implementation `impl<..> Trait<..> for Type where ..`. Its parameters are types.
#[derive(Debug, Drop)]
pub struct Impl {
    /// How many parameters there are. They have the indices from 0.
    pub params: usize,
    /// That the type implements the trait.
    pub head: TraitPredicate,
    /// What the types in place of the parameters have to implement.
    pub conditions: Vec<TraitPredicate>,
}

impl Impl {
    /// Returns whether each handle in the implementation is of this interner, as [`Program::add`] requires.
    pub fn is_owned(&self, cx: &Interner) -> bool
        ensures { IsTrue result → IsOwnedImpl cx.now self.now }
    {
        self.head.is_owned(cx) && are_owned(cx, self.conditions.as_slice())
    }
}

/// The implementations that are declared, in their order.
#[derive(Drop)]
pub struct Program {
    pub(crate) impls: Vec<Impl>,
}

impl Model for Program {
    ghost use Rattle.std.specs.Prelude.{List};
    ghost use Rattle.solver.specs.declared.program.Impl.{Impl};

    ghost Value = { List Impl };

    ghost view = { λ program. program.impls.items };
}

impl Program {
    /// Returns a program without implementations. Allocates nothing.
    pub fn new(alloc: Global) -> Program
        ensures empty { result ≡ [] }
        ensures program { (terms : Terms) → IsProgram terms result }
    {
        Program {
            impls: Vec::new(alloc),
        }
    }

    /// Returns the implementations in their order.
    pub fn impls(&self) -> &[Impl]
        ensures { result.now ≡ self.now }
    {
        self.impls.as_slice()
    }

    /// Declares an implementation. What was derived stays derived.
    ///
    /// # Errors
    ///
    /// - [`Fault::Unwritten`] if the head or a condition holds an inference variable, a variable of a binder around it,
    ///   or a parameter that isn't a type or whose index isn't below `params`
    /// - [`Fault::Refused`] if memory is short or a table is full
    #[tactic(auto, using(crate::proofs::ProgramLaws::solver_laws))]
    pub fn add(&mut self, cx: &mut Interner, implementation: Impl) -> Result<(), Fault>
        requires program { IsProgram cx.old self.old }
        requires implementation { IsOwnedImpl cx.old implementation }
        ensures extends { Extends cx.old cx.new }
        ensures program { IsProgram cx.new self.new }
        ensures added { OnOk result (self.new ≡ self.old ++ implementation ∷ []) }
        ensures same { OnErr result (self.new ≡ self.old) }
    {
        let args = match never_arguments(cx, implementation.params) {
            Ok(args) => args,
            Err(fault) => return Err(fault),
        };
        let written = check_impl(cx, args, &implementation);
        if written.is_err() {
            return written;
        }
        match self.impls.push(implementation) {
            Ok(()) => Ok(()),
            Err(failed) => Err(Fault::from(failed)),
        }
    }
}

// Succeeds if the implementation could be declared. There is an argument for each parameter.
#[tactic(auto, using(crate::proofs::ProgramLaws::solver_laws))]
fn check_impl(cx: &mut Interner, args: GenericArgs, implementation: &Impl) -> Result<(), Fault>
    requires args { IsOwned args_shape cx.old args }
    requires implementation { IsOwnedImpl cx.old implementation.now }
    ensures extends { Extends cx.old cx.new }
    ensures written { OnOk result (AreArguments implementation.now.params (argument_trees cx.old args)
        → IsWritten (impl_in cx.old implementation.now)) }
{
    // The arguments are the interner's, so their trees stay whatever is built.
    let _arguments = args.as_slice(cx);
    let head = check_written(cx, args, &implementation.head);
    if head.is_err() {
        return head;
    }
    for condition in &implementation.conditions {
        let written = check_written(cx, args, condition);
        if written.is_err() {
            return written;
        }
    }
    Ok(())
}
