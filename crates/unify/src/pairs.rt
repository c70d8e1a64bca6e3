//! Pairs of children that are to be made equal, and the pairs of their parts.

ghost use Rattle.std.specs.Prelude.{◌≢◌, ◌<◌, ◌≡◌, IfErr, IsFalse, IsTrue, MatchOption, OnOk};
ghost use Rattle.tt_kinds.specs.declared.table.TermTable.TheVariants as terms_of;
ghost use Rattle.tt_kinds.specs.declared.parts.Child.TheVariants as child_of;
ghost use Rattle.tt_kinds.specs.Handle.{any_handle};
ghost use Rattle.tt_kinds.specs.Kinds.{handle_shape};
ghost use Rattle.tt_kinds.specs.TermTable.{has_items, term_table};
ghost use Rattle.tt_interner.specs.Owned.{AreOwned};
ghost use Rattle.tt_interner.specs.Rows.{size};
ghost use Rattle.tt_fold.specs.Steps.{tree_in};
ghost use Rattle.tt_kinds.specs.Tree.{Depth, Tree};
ghost use Rattle.unify.specs.Comparison.{NoPairs, PendingIn};
ghost use Rattle.unify.specs.Faults.{IsEscapes, IsMismatch, IsOccurs};
ghost use Rattle.unify.specs.Pairs.{pair_shape, EquatesAll, IsNoList};
ghost use Rattle.unify.specs.Substitution.{assign, Assignment, GivesTypes, LeavesRoot, Substitution};
ghost use Rattle.unify.specs.Triangular.{HasParts};

use crate::fault::Fault;
use tt_interner::Interner;
use tt_kinds::{AnyHandle, Child, TermTable, Ty};

/// Two children of terms that are to be made equal.
#[derive(Clone, Copy)]
pub struct Pair {
    pub left: Child,
    pub right: Child,
}

/// Pushes the pairs of the parts of two terms, neither of which is a list of clauses. Fails with [`Fault::Mismatch`] if
/// the terms differ in more than their parts.
pub fn push_parts(
    cx: &Interner,
    pairs: &mut Vec<Pair>,
    left: AnyHandle,
    right: AnyHandle,
) -> Result<(), Fault>
    requires left { left.number < size cx.now.rows (term_table left.table) }
    requires left_kind { IsFalse (has_items left.table) }
    requires right { right.number < size cx.now.rows (term_table right.table) }
    requires right_kind { IsFalse (has_items right.table) }
    requires pairs { AreOwned pair_shape cx.now pairs.old.items }
    ensures owned { OnOk result (AreOwned pair_shape cx.now pairs.new.items) }
    ensures others { OnOk result ((t u : Tree Depth) → PendingIn cx.now pairs.old.items t u
        → PendingIn cx.now pairs.new.items t u) }
    ensures parts { OnOk result ((entries : Substitution) → HasParts
        entries
        (PendingIn cx.now pairs.new.items)
        NoPairs
        (tree_in cx.now.rows (handle_shape left))
        (tree_in cx.now.rows (handle_shape right))) }
    ensures general { OnOk result ((ρ : Assignment)
        → assign ρ (tree_in cx.now.rows (handle_shape left)) ≡ assign ρ (tree_in cx.now.rows (handle_shape right))
        → EquatesAll ρ cx.now pairs.old.items → EquatesAll ρ cx.now pairs.new.items) }
    ensures err { IfErr result (λ fault. IsOccurs fault → ⊥) }
    ensures escapes { IfErr result (λ fault. IsEscapes fault → ⊥) }
    ensures mismatch { IfErr result (λ fault. IsMismatch fault → (ρ : Assignment) → GivesTypes ρ
        → LeavesRoot ρ (tree_in cx.now.rows (handle_shape left))
        → LeavesRoot ρ (tree_in cx.now.rows (handle_shape right))
        → assign ρ (tree_in cx.now.rows (handle_shape left)) ≢ assign ρ (tree_in cx.now.rows (handle_shape right))) }
{
    // Kinds that differ have different trees.
    cx.are_rows();
    let (left, right) = (cx.node_kind(left), cx.node_kind(right));
    let (old, new) = (left.parts(), right.parts());
    // Two kinds that are equal once their parts are.
    if !old.are_like(&new) || left.with_parts(new) != right {
        return Err(Fault::Mismatch);
    }
    pairs.push(Pair {
        left: old.second,
        right: new.second,
    })?;
    pairs.push(Pair {
        left: old.first,
        right: new.first,
    })?;
    Ok(())
}

/// Pushes the pairs of the items of two lists. Fails with [`Fault::Mismatch`] if the lists differ in length or in the
/// sort of their items.
pub fn push_items(
    cx: &Interner,
    pairs: &mut Vec<Pair>,
    left: AnyHandle,
    right: AnyHandle,
) -> Result<(), Fault>
    requires left { left.number < size cx.now.rows (term_table left.table) }
    requires left_items { IsTrue (has_items left.table) }
    requires right { right.number < size cx.now.rows (term_table right.table) }
    requires right_items { IsTrue (has_items right.table) }
    requires pairs { AreOwned pair_shape cx.now pairs.old.items }
    ensures owned { OnOk result (AreOwned pair_shape cx.now pairs.new.items) }
    ensures others { OnOk result ((t u : Tree Depth) → PendingIn cx.now pairs.old.items t u
        → PendingIn cx.now pairs.new.items t u) }
    ensures parts { OnOk result ((entries : Substitution) → HasParts
        entries
        (PendingIn cx.now pairs.new.items)
        NoPairs
        (tree_in cx.now.rows (handle_shape left))
        (tree_in cx.now.rows (handle_shape right))) }
    ensures general { OnOk result ((ρ : Assignment)
        → assign ρ (tree_in cx.now.rows (handle_shape left)) ≡ assign ρ (tree_in cx.now.rows (handle_shape right))
        → EquatesAll ρ cx.now pairs.old.items → EquatesAll ρ cx.now pairs.new.items) }
    ensures err { IfErr result (λ fault. IsOccurs fault → ⊥) }
    ensures escapes { IfErr result (λ fault. IsEscapes fault → ⊥) }
    ensures mismatch { IfErr result (λ fault. IsMismatch fault → (ρ : Assignment)
        → assign ρ (tree_in cx.now.rows (handle_shape left)) ≢ assign ρ (tree_in cx.now.rows (handle_shape right))) }
{
    let (len, other) = (cx.list_len(left), cx.list_len(right));
    if left.table != right.table || len != other {
        return Err(Fault::Mismatch);
    }
    // The first item is pushed last, so it is compared first.
    for place in (0..len).rev() {
        pairs.push(Pair {
            left: cx.list_child(left, place),
            right: cx.list_child(right, place),
        })?;
    }
    Ok(())
}

/// Returns the list that the child is, if it is one. A list of clauses counts as a list.
pub fn as_list(child: Child) -> Option<AnyHandle>
    ensures { MatchOption result (IsNoList child)
        (λ list. (child ≡ child_of.Stored list) × IsTrue (has_items list.table)) }
{
    match child {
        Child::Stored(handle) => {
            if handle.table.has_items() {
                Some(handle)
            } else {
                None
            }
        }
        _ => None,
    }
}

/// Returns the stored term or list that the child is, if it is one.
pub fn as_stored(child: Child) -> Option<AnyHandle>
    ensures { MatchOption result ((handle : AnyHandle) → child ≢ child_of.Stored handle)
        (λ handle. child ≡ child_of.Stored handle) }
{
    match child {
        Child::Stored(handle) => Some(handle),
        _ => None,
    }
}

/// Returns the two types that the terms are, if both are types.
pub fn as_types(left: AnyHandle, right: AnyHandle) -> Option<(Ty, Ty)>
    ensures { MatchOption result ((left.table ≡ terms_of.Types) × (right.table ≡ terms_of.Types) → ⊥)
        (λ types. (left ≡ any_handle terms_of.Types types.0) × (right ≡ any_handle terms_of.Types types.1)) }
{
    match left.table {
        TermTable::Types => match right.table {
            TermTable::Types => Some((left.typed(), right.typed())),
            _ => None,
        },
        _ => None,
    }
}
