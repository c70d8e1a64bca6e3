//! Lists of types as arguments.

ghost use Rattle.std.specs.Prelude.{◌≡◌, IfOk, IsTrue, length};
ghost use Rattle.tt_kinds.specs.Kinds.{arg_shape, args_shape};
ghost use Rattle.tt_interner.specs.Arguments as rows;
ghost use Rattle.tt_interner.specs.Owned.{IsOwned};
ghost use Rattle.tt_interner.specs.Stored.{Extends};
ghost use Rattle.solver.specs.Derivations.{AreArguments, IsTypeArgument};
ghost use Rattle.solver.specs.Program.{argument_trees};

use crate::fault::Fault;
use tt_interner::{InternedList, Interner};
use tt_kinds::{GenericArg, GenericArgs, TyKind};
use tt_visit::TypeVisitableExt;

/// Returns a list of this many arguments, each of which is the type `!`.
#[tactic(auto, using(crate::proofs::ProgramLaws::solver_laws))]
pub fn never_arguments(cx: &mut Interner, count: usize) -> Result<GenericArgs, Fault>
    ensures extends { Extends cx.old cx.new }
    ensures owned { IfOk result (λ args. IsOwned args_shape cx.new args) }
    ensures are { IfOk result (λ args. AreArguments count (argument_trees cx.new args)) }
{
    let never = cx.mk_ty(TyKind::Never)?;
    let mut items = Vec::new(cx.allocator());
    for _ in 0..count {
        items.push(GenericArg::from(never))?;
    }
    let args = cx.mk_args(items.as_slice())?;
    if are_type_arguments(cx, args, count) {
        Ok(args)
    } else {
        Err(Fault::Unverified)
    }
}

/// Returns whether there are this many arguments, and each is a type in which no variable is bound outside of it.
pub fn are_type_arguments(cx: &Interner, args: GenericArgs, count: usize) -> bool
    requires { IsOwned args_shape cx.now args }
    ensures { IsTrue result → AreArguments count (argument_trees cx.now args) }
{
    let items = args.as_slice(cx);
    for index in 0..items.len() {
        if !is_type_argument(cx, items[index]) {
            return false;
        }
    }
    items.len() == count
}

// Returns whether the argument is a type in which no variable is bound outside of it.
fn is_type_argument(cx: &Interner, arg: GenericArg) -> bool
    requires { IsOwned arg_shape cx.now arg }
    ensures { IsTrue result → IsTypeArgument (rows.argument_of cx.now.rows arg) }
{
    // A type's tree is a type.
    cx.are_rows();
    match arg.as_type() {
        Some(ty) => !ty.has_escaping_bound_vars(cx),
        None => false,
    }
}
