//! The inference variables in a type.

ghost use Rattle.std.specs.Prelude.{◌≡◌, ◌<◌, ◌++◌, ◌∷◌, [], ℕ, Contains, IfOk, None, OnOk};
ghost use Rattle.tt_kinds.specs.Handle.{any_handle};
ghost use Rattle.tt_kinds.specs.Kinds.{child_shapes, handle_shape, ty_shape};
ghost use Rattle.tt_kinds.specs.Shape.{AreParts};
ghost use Rattle.tt_kinds.specs.TermTable.{term_table};
ghost use Rattle.tt_kinds.specs.Tree.{Depth, Tree};
ghost use Rattle.tt_kinds.specs.declared.table.TermTable.TheVariants as terms_of;
ghost use Rattle.tt_interner.specs.Owned.{IsOwned};
ghost use Rattle.tt_interner.specs.Rows.{size};
ghost use Rattle.tt_fold.specs.Steps.{tree_in};
ghost use Rattle.unify.specs.Substitution.{variable_in};
ghost use Rattle.unify.specs.Triangular.{Holds};
ghost use Rattle.unify.specs.Variables.{AreStored, ListsAll, PushesChild, PushesParts, Visits};

use crate::resolver::variable_of;
use indexmap::IndexSet;
use tt_index::{Refusal, TyVid};
use tt_interner::Interner;
use tt_kinds::{AnyHandle, Child, TermTable, Ty};
use tt_visit::TypeVisitableExt;

// The greatest number of rows that a search looks at.
const MOST_ROWS: u32 = u32::MAX;

// A search for variables, which takes each type apart once.
#[derive(Drop)]
struct Search {
    // the rows to look at
    pending: Vec<AnyHandle>,
    // the types that were taken apart
    seen: IndexSet<Ty>,
    // the variables
    found: Vec<TyVid>,
}

/// Returns the inference variables in the type. Refused with `Memory`, or with `TableFull` if more than
/// `u32::MAX` rows would be looked at.
pub fn variables_in(cx: &Interner, ty: Ty) -> Result<Vec<TyVid>, Refusal>
    requires { IsOwned ty_shape cx.now ty }
    ensures all { IfOk result (λ found. ListsAll found.items (tree_in cx.now.rows (ty_shape ty))) }
    ensures only { IfOk result
        (λ found. (v : ℕ) → Contains found.items v → Holds v (tree_in cx.now.rows (ty_shape ty))) }
{
    if !ty.has_infer_types(cx) {
        return Ok(Vec::new(cx.allocator()));
    }
    // A variable has no parts.
    cx.are_rows();
    if let Some(variable) = variable_of(cx, ty) {
        return single(cx, variable);
    }
    let mut search = Search {
        pending: Vec::new(cx.allocator()),
        seen: IndexSet::new(cx.allocator()),
        found: Vec::new(cx.allocator()),
    };
    search.pending.push(ty.any())?;
    for _ in 0..MOST_ROWS {
        let Some(handle) = search.pending.pop() else {
            return Ok(search.found);
        };
        visit_row(cx, &mut search, handle)?;
    }
    Err(Refusal::TableFull)
}

// Returns a list of this variable.
fn single(cx: &Interner, variable: TyVid) -> Result<Vec<TyVid>, Refusal>
    ensures { IfOk result (λ found. found.items ≡ variable ∷ []) }
{
    let mut found = Vec::new(cx.allocator());
    found.push(variable)?;
    Ok(found)
}

// Looks at the row, which was taken from the pending ones.
fn visit_row(cx: &Interner, search: &mut Search, handle: AnyHandle) -> Result<(), Refusal>
    requires pending { AreStored cx.now search.old.pending.items }
    requires own { handle.number < size cx.now.rows (term_table handle.table) }
    ensures pending { OnOk result (AreStored cx.now search.new.pending.items) }
    ensures visits { OnOk result ((root : Tree Depth)
        → Visits cx.now root (search.old.pending.items ++ handle ∷ []) search.old.seen.keys search.old.found.items
        → Visits cx.now root search.new.pending.items search.new.seen.keys search.new.found.items) }
{
    // A row's tree tells its table: so only a type is a variable.
    cx.are_rows();
    if handle.table != TermTable::Types {
        return push_parts(cx, &mut search.pending, handle);
    }
    let ty: Ty = handle.typed();
    if !ty.has_infer_types(cx) {
        return Ok(());
    }
    if !search.seen.insert(ty)? {
        return Ok(());
    }
    match variable_of(cx, ty) {
        Some(variable) => {
            search.found.push(variable)?;
            Ok(())
        }
        None => push_parts(cx, &mut search.pending, handle),
    }
}

// Notes the parts of a term, or the items of a list, to be looked at.
fn push_parts(cx: &Interner, pending: &mut Vec<AnyHandle>, handle: AnyHandle) -> Result<(), Refusal>
    requires pending { AreStored cx.now pending.old.items }
    requires own { handle.number < size cx.now.rows (term_table handle.table) }
    requires plain { variable_in (tree_in cx.now.rows (handle_shape handle)) ≡ None }
    ensures { OnOk result (PushesParts
        cx.now
        pending.old.items
        (tree_in cx.now.rows (handle_shape handle))
        pending.new.items) }
{
    if handle.table.has_items() {
        for place in 0..cx.list_len(handle) {
            push_child(cx, pending, cx.list_child(handle, place))?;
        }
        return Ok(());
    }
    let parts = cx.node_kind(handle).parts();
    push_child(cx, pending, parts.second)?;
    push_child(cx, pending, parts.first)?;
    Ok(())
}

// Notes the child, if it is a row.
fn push_child(cx: &Interner, pending: &mut Vec<AnyHandle>, child: Child) -> Result<(), Refusal>
    requires pending { AreStored cx.now pending.old.items }
    requires child { AreParts (size cx.now.rows) (child_shapes child) }
    ensures { OnOk result (PushesChild cx.now pending.old.items child pending.new.items) }
{
    match child {
        Child::Stored(handle) => {
            pending.push(handle)?;
            Ok(())
        }
        _ => Ok(()),
    }
}
