//! The table of bindings.

ghost use Rattle.std.specs.Prelude.{◌≡◌, ◌≤◌, ℕ, None, Some, get_or, length, IfErr, IfOk, IfSome, OnErr, OnOk};
ghost use Rattle.tt_kinds.specs.Kinds.{ty_shape};
ghost use Rattle.tt_interner.specs.Owned.{IsOwned};
ghost use Rattle.tt_interner.specs.Stored.{Extends, Terms};
ghost use Rattle.tt_fold.specs.Steps.{tree_in};
ghost use Rattle.unify.specs.Resolver.{IsLinked};
ghost use Rattle.unify.specs.Substitution.{apply, variable_in, Assignment, Solves};
ghost use Rattle.unify.specs.Faults.{IsForRoom};
ghost use Rattle.unify.specs.Bindings.{no_table, stored, substitution, table_at, with_variable, IsTable, KeepsEarlier};

use crate::fault::Fault;
use crate::memo::resolved;
use crate::resolver::{entry_at, last_variable, shallow_resolved};
use crate::undo::{Table, undo_from};
use std::alloc::Global;
use std::marker::Model;
use tt_index::{Idx, Refusal, TyVid};
use tt_interner::Interner;
use tt_kinds::{InferTy, Ty, TyKind};

// The greatest number that a variable may have.
const GREATEST: usize = 4_294_967_040;

/// A table of what each inference variable is bound to.
///
/// Variables are numbered from 0 in the order in which [`Bindings::new_variable`] makes them. A binding may hold bound
/// variables, so a variable is bound by one write; [`Bindings::resolve`] replaces all of them.
#[derive(Drop)]
pub struct Bindings {
    pub(crate) table: Table,
}

impl Model for Bindings {
    ghost use Rattle.unify.specs.Bindings as tables;

    ghost Value = { tables.Table };

    ghost view = { λ b. tables.table_of b.table };
}

/// How far a table of bindings was when it was marked by [`Bindings::snapshot`].
#[derive(Clone, Copy, Debug, PartialEq, Eq, Drop)]
pub struct Snapshot {
    pub(crate) variables: usize,
    // of these variables
    pub(crate) bindings: usize,
}

impl Bindings {
    /// Returns a table without variables. Allocates nothing.
    pub fn new(alloc: Global) -> Bindings
        ensures { result ≡ no_table }
    {
        Bindings {
            table: Table {
                entries: Vec::new(alloc),
                bound: Vec::new(alloc),
            },
        }
    }

    /// Returns the number of variables.
    pub fn len(&self) -> usize
        ensures { result ≡ length self.now.entries }
    {
        self.table.entries.len()
    }

    /// Adds an unbound variable, and returns it as a type. Refused with `Memory`, or with `TableFull` if a table is
    /// full or no number is left.
    pub fn new_variable(&mut self, cx: &mut Interner) -> Result<Ty, Fault>
        requires { IsTable cx.old self.old }
        ensures extends { Extends cx.old cx.new }
        ensures table { IsTable cx.new self.new }
        ensures pushed { OnOk result (self.new ≡ with_variable self.old) }
        ensures owned { IfOk result (λ ty. IsOwned ty_shape cx.new ty) }
        ensures is { IfOk result
            (λ ty. variable_in (tree_in cx.new.rows (ty_shape ty)) ≡ Some (length self.old.entries)) }
        ensures same { OnErr result (self.new ≡ self.old) }
        ensures earlier { KeepsEarlier self.old self.new }
        ensures err { IfErr result IsForRoom }
    {
        let number = self.len();
        if number > GREATEST {
            return Err(Fault::Refused(Refusal::TableFull));
        }
        let variable = TyVid::from_usize(number);
        let ty = cx.mk_ty(TyKind::Infer(InferTy::TyVar(variable)))?;
        self.table.entries.push(None)?;
        Ok(ty)
    }

    /// Returns the type with each bound variable replaced by its binding. Refused with `Memory`, or with `TableFull` if
    /// a table is full.
    pub fn resolve(&self, cx: &mut Interner, ty: Ty) -> Result<Ty, Refusal>
        requires table { IsTable cx.old self.now }
        requires ty { IsOwned ty_shape cx.old ty }
        ensures extends { Extends cx.old cx.new }
        ensures table { IsTable cx.new self.now }
        ensures same { substitution cx.new self.now ≡ substitution cx.old self.now }
        ensures owned { IfOk result (λ new. IsOwned ty_shape cx.new new) }
        ensures plain { IfOk result (λ new. tree_in cx.new.rows (ty_shape new)
            ≡ apply (substitution cx.old self.now) (tree_in cx.old.rows (ty_shape ty))) }
    {
        resolved(cx, self.table.entries.as_slice(), ty)
    }

    /// Returns what the type is known as without a look into it: the end of the chain of bound variables that begins
    /// with the type. Allocates nothing.
    pub fn shallow_resolve(&self, cx: &Interner, ty: Ty) -> Ty
        requires table { IsTable cx.now self.now }
        requires ty { IsOwned ty_shape cx.now ty }
        ensures owned { IsOwned ty_shape cx.now result }
        ensures same { apply (substitution cx.now self.now) (tree_in cx.now.rows (ty_shape result))
            ≡ apply (substitution cx.now self.now) (tree_in cx.now.rows (ty_shape ty)) }
        ensures known { (v : ℕ) → variable_in (tree_in cx.now.rows (ty_shape result)) ≡ Some v
            → substitution cx.now self.now v ≡ None }
    {
        // A variable has no parts.
        cx.are_rows();
        shallow_resolved(cx, self.table.entries.as_slice(), ty)
    }

    /// Returns the end of the chain of variables that begins with this one, each of which is bound to the next one: a
    /// variable that is unbound, or bound to a type that is no variable. Allocates nothing.
    pub fn root(&self, cx: &Interner, variable: TyVid) -> TyVid
        requires { IsTable cx.now self.now }
        ensures same { (ρ : Assignment) → Solves ρ (substitution cx.now self.now) → ρ result ≡ ρ variable }
        ensures chain { IsLinked (stored cx.now self.now.entries) variable result }
        ensures end { IfSome (get_or self.now.entries result None)
            (λ ty. variable_in (tree_in cx.now.rows (ty_shape ty)) ≡ None) }
    {
        last_variable(cx, self.table.entries.as_slice(), variable)
    }

    /// Returns the type to which the variable was bound, if it is bound. The type may hold bound variables.
    pub fn probe(&self, variable: TyVid) -> Option<Ty>
        ensures { result ≡ get_or self.now.entries variable None }
    {
        entry_at(self.table.entries.as_slice(), variable)
    }

    /// Returns a mark of the table as it is now. The mark borrows nothing, and costs nothing to give up.
    pub fn snapshot(&self) -> Snapshot
        ensures variables { result.variables ≡ length self.now.entries }
        ensures bindings { result.bindings ≡ length self.now.bound }
    {
        Snapshot {
            variables: self.table.entries.len(),
            bindings: self.table.bound.len(),
        }
    }

    /// Makes the table what it was at the mark: what was bound since is unbound, and variables that were made since are
    /// gone. Marks that were made later lose their meaning.
    pub fn rollback_to(&mut self, snapshot: Snapshot)
        requires variables { snapshot.variables ≤ length self.old.entries }
        requires bindings { snapshot.bindings ≤ length self.old.bound }
        ensures at { self.new ≡ table_at snapshot.variables snapshot.bindings self.old }
        ensures table { (terms : Terms) → IsTable terms self.old → IsTable terms self.new }
    {
        undo_from(&mut self.table, snapshot.variables, snapshot.bindings);
    }
}
