//! The comparison of two types, by a stack of pairs that are still to be made equal. It binds variables on the way, and
//! resolves nothing: each binding is an equation, which may make a variable contain itself.

ghost use Rattle.std.specs.Prelude.{◌≡◌, ◌≢◌, ◌<◌, ◌≤◌, ◌⊎◌, ℕ, None, Some, IfErr, IfNone, IfSome, OnErr, OnOk};
ghost use Rattle.std.specs.Prelude.{get_or, length, set};
ghost use Rattle.tt_kinds.specs.Kinds.{ty_shape};
ghost use Rattle.tt_fold.specs.Steps.{tree_in};
ghost use Rattle.tt_interner.specs.Owned.{AreOwned, IsOwned};
ghost use Rattle.unify.specs.Bindings.{stored, table_of, table_shape, KeepsEarlier};
ghost use Rattle.unify.specs.Comparison.{HasCompared, IsGrown, IsSideOf, Takes, types_pair};
ghost use Rattle.unify.specs.Faults.{IsEscapes, IsMismatch, IsOccurs};
ghost use Rattle.unify.specs.Pairs.{pair_shape, Equates, EquatesTypes, HasNoClosedSolution, HasNoOwnSolution, IsNoList};
ghost use Rattle.unify.specs.Resolver.{binding};
ghost use Rattle.unify.specs.Substitution.{variable_in, Assignment, GivesClosed, IsOwn, Solves};
ghost use Rattle.unify.specs.Triangular.{links, IsAcyclic, IsClosed};

use crate::fault::Fault;
use crate::pairs::{Pair, as_list, as_stored, as_types, push_items, push_parts};
use crate::resolver::{shallow_resolved, unbound_variable};
use crate::undo::Table;
use indexmap::IndexSet;
use tt_index::{Idx, Refusal, TyVid};
use tt_interner::Interner;
use tt_kinds::Ty;
use tt_visit::TypeVisitableExt;

// The greatest number of pairs that a call compares.
const MOST_PAIRS: u32 = u32::MAX;

/// Two types that were compared already.
#[derive(Clone, Copy, PartialEq, Eq, Hash)]
pub struct Compared {
    pub left: Ty,
    pub right: Ty,
}

// What a comparison has to do, and what it has done.
#[derive(Drop)]
struct Comparison {
    // the pairs that are still to be made equal
    pairs: Vec<Pair>,
    // the types whose parts are or were among the pairs
    compared: IndexSet<Compared>,
}

// Binds the variable to the type, and lists the variable.
fn bind(cx: &Interner, table: &mut Table, variable: TyVid, ty: Ty) -> Result<(), Fault>
    requires entries { IsOwned table_shape cx.now table.old.entries.items }
    requires links { IsAcyclic (links (stored cx.now table.old.entries.items)) }
    requires ty { IsOwned ty_shape cx.now ty }
    requires unbound { binding (stored cx.now table.old.entries.items) (tree_in cx.now.rows (ty_shape ty)) ≡ None }
    requires other { variable_in (tree_in cx.now.rows (ty_shape ty)) ≢ Some variable }
    requires inside { variable < length table.old.entries.items }
    requires free { get_or table.old.entries.items variable None ≡ None }
    ensures put { OnOk result (table.new.entries.items ≡ set table.old.entries.items variable (Some ty)) }
    ensures grown { OnOk result (IsGrown cx.now (table_of table.old) (table_of table.new)) }
    ensures same { OnErr result (table_of table.new ≡ table_of table.old) }
    ensures occurs { IfErr result (λ fault. IsOccurs fault → ⊥) }
    ensures mismatch { IfErr result (λ fault. IsMismatch fault → ⊥) }
    ensures escapes { IfErr result (λ fault. IsEscapes fault → IsClosed (tree_in cx.now.rows (ty_shape ty)) → ⊥) }
{
    // A variable has no parts.
    cx.are_rows();
    if ty.has_escaping_bound_vars(cx) {
        return Err(Fault::Escapes(variable, ty));
    }
    table.bound.push(variable)?;
    table.entries[variable.as_usize()] = Some(ty);
    Ok(())
}

// Returns an unbound variable that one of the types is, and the other type. Of two variables it is the newer one, so
// that chains of variables stay short.
fn unbound_side(cx: &Interner, entries: &[Option<Ty>], left: Ty, right: Ty) -> Option<(TyVid, Ty)>
    requires left { IsOwned ty_shape cx.now left }
    requires right { IsOwned ty_shape cx.now right }
    ensures side { IfSome result (λ side. IsSideOf cx.now left right side.0 side.1) }
    ensures unbound { IfSome result (λ side. (side.0 < length entries.now) × (get_or entries.now side.0 None ≡ None)) }
    ensures foreign { IfNone result ((v : ℕ) → variable_in (tree_in cx.now.rows (ty_shape left)) ≡ Some v
        → binding (stored cx.now entries.now) (tree_in cx.now.rows (ty_shape left)) ≡ None → length entries.now ≤ v) }
    ensures other { IfNone result ((v : ℕ) → variable_in (tree_in cx.now.rows (ty_shape right)) ≡ Some v
        → binding (stored cx.now entries.now) (tree_in cx.now.rows (ty_shape right)) ≡ None → length entries.now ≤ v) }
{
    let Some(variable) = unbound_variable(cx, entries, left) else {
        return Some((unbound_variable(cx, entries, right)?, left));
    };
    match unbound_variable(cx, entries, right) {
        Some(other) if other > variable => Some((other, left)),
        _ => Some((variable, right)),
    }
}

// Makes two types equal, or notes the pairs of their parts if the two weren't compared before.
fn unify_types(
    cx: &Interner,
    table: &mut Table,
    comparison: &mut Comparison,
    left: Ty,
    right: Ty,
) -> Result<(), Fault>
    requires entries { IsOwned table_shape cx.now table.old.entries.items }
    requires links { IsAcyclic (links (stored cx.now table.old.entries.items)) }
    requires pairs { AreOwned pair_shape cx.now comparison.old.pairs.items }
    requires left { IsOwned ty_shape cx.now left }
    requires right { IsOwned ty_shape cx.now right }
    ensures grown { OnOk result (IsGrown cx.now (table_of table.old) (table_of table.new)) }
    ensures takes { OnOk result (Takes
        cx.now
        table.old.entries.items
        comparison.old.pairs.items
        comparison.old.compared.keys
        (types_pair left right)
        table.new.entries.items
        comparison.new.pairs.items
        comparison.new.compared.keys) }
    ensures same { OnErr result (table_of table.new ≡ table_of table.old) }
    ensures occurs { IfErr result (λ fault. IsOccurs fault → ⊥) }
    ensures mismatch { IfErr result (λ fault. IsMismatch fault → HasNoOwnSolution
        (λ ρ. EquatesTypes ρ cx.now left right)
        cx.now
        table.old.entries.items
        comparison.old.pairs.items) }
    ensures escapes { IfErr result (λ fault. IsEscapes fault → HasNoClosedSolution
        (λ ρ. EquatesTypes ρ cx.now left right)
        cx.now
        table.old.entries.items
        comparison.old.pairs.items) }
{
    let left = shallow_resolved(cx, table.entries.as_slice(), left);
    let right = shallow_resolved(cx, table.entries.as_slice(), right);
    if left == right {
        return Ok(());
    }
    // Handles that differ have different trees, and a variable has no parts.
    cx.are_interned();
    cx.are_rows();
    if let Some((variable, ty)) = unbound_side(cx, table.entries.as_slice(), left, right) {
        return bind(cx, table, variable, ty);
    }
    if !comparison.compared.insert(Compared { left, right })? {
        return Ok(());
    }
    push_parts(cx, &mut comparison.pairs, left.any(), right.any())
}

// Makes two terms that have kinds equal, or notes the pairs of their parts.
fn unify_terms(
    cx: &Interner,
    table: &mut Table,
    comparison: &mut Comparison,
    pair: Pair,
) -> Result<(), Fault>
    requires entries { IsOwned table_shape cx.now table.old.entries.items }
    requires links { IsAcyclic (links (stored cx.now table.old.entries.items)) }
    requires pairs { AreOwned pair_shape cx.now comparison.old.pairs.items }
    requires pair { IsOwned pair_shape cx.now pair }
    requires left { IsNoList pair.left }
    requires right { IsNoList pair.right }
    ensures grown { OnOk result (IsGrown cx.now (table_of table.old) (table_of table.new)) }
    ensures takes { OnOk result (Takes
        cx.now
        table.old.entries.items
        comparison.old.pairs.items
        comparison.old.compared.keys
        pair
        table.new.entries.items
        comparison.new.pairs.items
        comparison.new.compared.keys) }
    ensures same { OnErr result (table_of table.new ≡ table_of table.old) }
    ensures occurs { IfErr result (λ fault. IsOccurs fault → ⊥) }
    ensures mismatch { IfErr result (λ fault. IsMismatch fault → pair.left ≢ pair.right → HasNoOwnSolution
        (λ ρ. Equates ρ cx.now pair)
        cx.now
        table.old.entries.items
        comparison.old.pairs.items) }
    ensures escapes { IfErr result (λ fault. IsEscapes fault → HasNoClosedSolution
        (λ ρ. Equates ρ cx.now pair)
        cx.now
        table.old.entries.items
        comparison.old.pairs.items) }
{
    // A handle's tree tells its table: so children of other sorts don't become equal.
    cx.are_rows();
    let Some(left) = as_stored(pair.left) else {
        return Err(Fault::Mismatch);
    };
    let Some(right) = as_stored(pair.right) else {
        return Err(Fault::Mismatch);
    };
    if let Some(types) = as_types(left, right) {
        return unify_types(cx, table, comparison, types.0, types.1);
    }
    push_parts(cx, &mut comparison.pairs, left, right)
}

// Makes two children equal, or notes the pairs of their parts.
fn unify_pair(
    cx: &Interner,
    table: &mut Table,
    comparison: &mut Comparison,
    pair: Pair,
) -> Result<(), Fault>
    requires entries { IsOwned table_shape cx.now table.old.entries.items }
    requires links { IsAcyclic (links (stored cx.now table.old.entries.items)) }
    requires pairs { AreOwned pair_shape cx.now comparison.old.pairs.items }
    requires pair { IsOwned pair_shape cx.now pair }
    ensures grown { OnOk result (IsGrown cx.now (table_of table.old) (table_of table.new)) }
    ensures takes { OnOk result (Takes
        cx.now
        table.old.entries.items
        comparison.old.pairs.items
        comparison.old.compared.keys
        pair
        table.new.entries.items
        comparison.new.pairs.items
        comparison.new.compared.keys) }
    ensures same { OnErr result (table_of table.new ≡ table_of table.old) }
    ensures occurs { IfErr result (λ fault. IsOccurs fault → ⊥) }
    ensures mismatch { IfErr result (λ fault. IsMismatch fault → HasNoOwnSolution
        (λ ρ. Equates ρ cx.now pair)
        cx.now
        table.old.entries.items
        comparison.old.pairs.items) }
    ensures escapes { IfErr result (λ fault. IsEscapes fault → HasNoClosedSolution
        (λ ρ. Equates ρ cx.now pair)
        cx.now
        table.old.entries.items
        comparison.old.pairs.items) }
{
    if pair.left == pair.right {
        return Ok(());
    }
    // A handle's tree tells its table: so a list and another child don't become equal.
    cx.are_rows();
    match as_list(pair.left) {
        Some(left) => match as_list(pair.right) {
            Some(right) => push_items(cx, &mut comparison.pairs, left, right),
            None => Err(Fault::Mismatch),
        },
        None => match as_list(pair.right) {
            Some(_) => Err(Fault::Mismatch),
            None => unify_terms(cx, table, comparison, pair),
        },
    }
}

/// Binds variables until each pair of parts of the two types is equal under the bindings, or would be if no variable
/// contained itself. Lists the variables that it binds, also where it fails.
pub fn compare(cx: &Interner, table: &mut Table, left: Ty, right: Ty) -> Result<(), Fault>
    requires entries { IsOwned table_shape cx.now table.old.entries.items }
    requires links { IsAcyclic (links (stored cx.now table.old.entries.items)) }
    requires left { IsOwned ty_shape cx.now left }
    requires right { IsOwned ty_shape cx.now right }
    ensures compared { OnOk result (HasCompared cx.now (table_of table.old) left right (table_of table.new)) }
    ensures earlier { KeepsEarlier (table_of table.old) (table_of table.new) }
    ensures occurs { IfErr result (λ fault. IsOccurs fault → ⊥) }
    ensures mismatch { IfErr result (λ fault. IsMismatch fault
        → (ρ : Assignment) → IsOwn (length table.old.entries.items) ρ
        → Solves ρ (stored cx.now table.old.entries.items) → EquatesTypes ρ cx.now left right → ⊥) }
    ensures escapes { IfErr result (λ fault. IsEscapes fault → (ρ : Assignment) → GivesClosed ρ
        → Solves ρ (stored cx.now table.old.entries.items) → EquatesTypes ρ cx.now left right → ⊥) }
{
    let mut comparison = Comparison {
        pairs: Vec::new(cx.allocator()),
        compared: IndexSet::new(cx.allocator()),
    };
    unify_types(cx, table, &mut comparison, left, right)?;
    for _ in 0..MOST_PAIRS {
        let Some(pair) = comparison.pairs.pop() else {
            return Ok(());
        };
        unify_pair(cx, table, &mut comparison, pair)?;
    }
    Err(Fault::Refused(Refusal::TableFull))
}
