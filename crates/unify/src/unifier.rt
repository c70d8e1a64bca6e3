//! Unification: a comparison of two types that binds variables, and a search for variables that contain themselves.

ghost use Rattle.std.specs.Prelude.{◌≡◌, ℕ, length, IfErr, IfOk, OnErr, OnOk};
ghost use Rattle.tt_kinds.specs.Kinds.{ty_shape};
ghost use Rattle.tt_fold.specs.Steps.{tree_in};
ghost use Rattle.tt_interner.specs.Owned.{IsOwned};
ghost use Rattle.tt_interner.specs.Stored.{Extends};
ghost use Rattle.unify.specs.Bindings.{stored, substitution, table_of, IsRefined, IsTable, KeepsEarlier};
ghost use Rattle.unify.specs.Faults.{IsEscapes, IsMismatch, IsOccurs};
ghost use Rattle.unify.specs.Search.{Reaches};
ghost use Rattle.unify.specs.Substitution.{apply, HasNoClosedUnifier, HasNoOwnUnifier, HasNoUnifier, IsMostGeneral};
ghost use Rattle.unify.specs.Triangular.{IsChild};
ghost use Rattle.unify.specs.declared.search.Failure.TheVariants.{Cycle};

use crate::bindings::Bindings;
use crate::comparison::compare;
use crate::fault::Fault;
use crate::resolver::entry_at;
use crate::search::{Failure, reached};
use crate::undo::{Table, undo_from};
use tt_index::TyVid;
use tt_interner::Interner;
use tt_kinds::Ty;

// Returns the fault of a search that failed: its variable is bound to a type that holds it, once all bound variables in
// the type are replaced.
fn fault_of(cx: &Interner, entries: &[Option<Ty>], failure: Failure) -> Fault
    requires { (v : ℕ) → failure ≡ Cycle v → Reaches (IsChild (stored cx.now entries.now)) v v }
    ensures occurs { IsOccurs result → (v : ℕ) × Reaches (IsChild (stored cx.now entries.now)) v v }
    ensures mismatch { IsMismatch result → ⊥ }
    ensures escapes { IsEscapes result → ⊥ }
{
    match failure {
        Failure::Cycle(variable) => match entry_at(entries, variable) {
            Some(ty) => Fault::Occurs(variable, ty),
            // Nothing is reached from a variable without a binding.
            None => unreachable!(),
        },
        Failure::Refused(refusal) => Fault::Refused(refusal),
    }
}

// Binds variables so that the two types become equal, and lists them, also where it fails.
fn solve(cx: &Interner, table: &mut Table, left: Ty, right: Ty) -> Result<(), Fault>
    requires table { IsTable cx.now (table_of table.old) }
    requires left { IsOwned ty_shape cx.now left }
    requires right { IsOwned ty_shape cx.now right }
    ensures refined { OnOk result (IsRefined cx.now (table_of table.old) cx.now (table_of table.new)) }
    ensures len { OnOk result (length table.new.entries.items ≡ length table.old.entries.items) }
    ensures unified { OnOk result (
        apply (substitution cx.now (table_of table.new)) (tree_in cx.now.rows (ty_shape left))
        ≡ apply (substitution cx.now (table_of table.new)) (tree_in cx.now.rows (ty_shape right))) }
    ensures general { OnOk result (IsMostGeneral
        (substitution cx.now (table_of table.old))
        (tree_in cx.now.rows (ty_shape left))
        (tree_in cx.now.rows (ty_shape right))
        (substitution cx.now (table_of table.new))) }
    ensures occurs { IfErr result (λ fault. IsOccurs fault → HasNoUnifier
        (substitution cx.now (table_of table.old))
        (tree_in cx.now.rows (ty_shape left))
        (tree_in cx.now.rows (ty_shape right))) }
    ensures mismatch { IfErr result (λ fault. IsMismatch fault → HasNoOwnUnifier
        (length table.old.entries.items)
        (substitution cx.now (table_of table.old))
        (tree_in cx.now.rows (ty_shape left))
        (tree_in cx.now.rows (ty_shape right))) }
    ensures escapes { IfErr result (λ fault. IsEscapes fault → HasNoClosedUnifier
        (substitution cx.now (table_of table.old))
        (tree_in cx.now.rows (ty_shape left))
        (tree_in cx.now.rows (ty_shape right))) }
    ensures earlier { KeepsEarlier (table_of table.old) (table_of table.new) }
{
    cx.are_rows();
    let first = table.bound.len();
    compare(cx, table, left, right)?;
    // The comparison added equations. They are bindings where no variable contains itself.
    match reached(cx, table.entries.as_slice(), &table.bound[first..]) {
        Ok(_order) => Ok(()),
        Err(failure) => Err(fault_of(cx, table.entries.as_slice(), failure)),
    }
}

/// Makes two types equal by binding variables of the table. Types, constants, patterns, lists and the predicates of
/// trait objects are compared by their parts, and regions by equality. Two types are compared once. The bindings are
/// the most general ones: whatever solves the old bindings and makes the two types equal solves the new ones.
///
/// # Errors
///
/// If a call fails, the bindings are as before.
///
/// - [`Fault::Mismatch`] if the types differ where neither is an unbound variable; then no types in place of the
///   table's unbound variables make the two types equal
/// - [`Fault::Occurs`] if a variable would be bound to a type that it occurs in; then nothing that solves the bindings
///   makes the two types equal
/// - [`Fault::Escapes`] if a variable would be bound to a type that holds a bound variable of a binder around it; then
///   no types without such variables, in place of all variables, solve the bindings and make the two types equal
/// - [`Fault::Refused`] if memory is short, or if a loop would take more than `u32::MAX` rounds
pub fn unify(cx: &mut Interner, bindings: &mut Bindings, left: Ty, right: Ty) -> Result<(), Fault>
    requires table { IsTable cx.old bindings.old }
    requires left { IsOwned ty_shape cx.old left }
    requires right { IsOwned ty_shape cx.old right }
    ensures extends { Extends cx.old cx.new }
    ensures refined { IsRefined cx.old bindings.old cx.new bindings.new }
    ensures len { length bindings.new.entries ≡ length bindings.old.entries }
    ensures unified { OnOk result (
        apply (substitution cx.new bindings.new) (tree_in cx.new.rows (ty_shape left))
        ≡ apply (substitution cx.new bindings.new) (tree_in cx.new.rows (ty_shape right))) }
    ensures general { OnOk result (IsMostGeneral
        (substitution cx.old bindings.old)
        (tree_in cx.old.rows (ty_shape left))
        (tree_in cx.old.rows (ty_shape right))
        (substitution cx.new bindings.new)) }
    ensures occurs { IfErr result (λ fault. IsOccurs fault → HasNoUnifier
        (substitution cx.old bindings.old)
        (tree_in cx.old.rows (ty_shape left))
        (tree_in cx.old.rows (ty_shape right))) }
    ensures mismatch { IfErr result (λ fault. IsMismatch fault → HasNoOwnUnifier
        (length bindings.old.entries)
        (substitution cx.old bindings.old)
        (tree_in cx.old.rows (ty_shape left))
        (tree_in cx.old.rows (ty_shape right))) }
    ensures escapes { IfErr result (λ fault. IsEscapes fault → HasNoClosedUnifier
        (substitution cx.old bindings.old)
        (tree_in cx.old.rows (ty_shape left))
        (tree_in cx.old.rows (ty_shape right))) }
    ensures same { OnErr result (bindings.new ≡ bindings.old) }
    ensures earlier { KeepsEarlier bindings.old bindings.new }
{
    let variables = bindings.table.entries.len();
    let bound = bindings.table.bound.len();
    let solved = solve(cx, &mut bindings.table, left, right);
    if solved.is_err() {
        undo_from(&mut bindings.table, variables, bound);
    }
    solved
}
