//! The search for the variables in a type, which takes each type apart once.

ghost use Rattle.std.specs.Prelude.{◌≡◌, ◌<◌, ◌++◌, ◌∷◌, [], None, OnOk};
ghost use Rattle.tt_kinds.specs.Kinds.{child_shapes, handle_shape, ty_shape};
ghost use Rattle.tt_kinds.specs.Shape.{AreParts};
ghost use Rattle.tt_kinds.specs.TermTable.{term_table};
ghost use Rattle.tt_interner.specs.Rows.{size};
ghost use Rattle.tt_interner.specs.Owned.{IsOwned, tree_in};
ghost use Rattle.unify.specs.Pairs.{child_trees};
ghost use Rattle.unify.specs.Substitution.{variable_in};
ghost use Rattle.canonical.specs.Canonical.{collect, collect_all};
ghost use Rattle.canonical.specs.Search.{collect_pending, AreGood, AreKnown, Pushes};

use crate::variable::variable_of;
use indexmap::IndexSet;
use tt_index::{Refusal, TyVid};
use tt_interner::Interner;
use tt_kinds::{AnyHandle, Child, TermTable, Ty};
use tt_visit::TypeVisitableExt;

// The greatest number of visits of a search.
const MOST_VISITS: u32 = u32::MAX;

// A visit that is to be made.
#[derive(Clone, Copy)]
pub enum Visit {
    // to look at a row
    Enter(AnyHandle),
    // to note a type, whose parts were visited by then
    Leave(Ty),
}

/// The variables that were found, and the types in which they were looked for.
#[derive(Drop)]
pub struct Search {
    /// The types whose variables were all found.
    pub seen: IndexSet<Ty>,
    /// The variables, in the order in which they were found.
    pub found: IndexSet<TyVid>,
}

/// Adds those variables of the type that weren't found before, in the order in which they first occur. Refused with
/// `Memory`, or with `TableFull` if the search would make `u32::MAX` visits or more.
pub fn search_type(cx: &Interner, search: &mut Search, ty: Ty) -> Result<(), Refusal>
    requires ty { IsOwned ty_shape cx.now ty }
    requires known { AreKnown cx.now.rows search.old.seen.keys search.old.found.keys }
    ensures known { AreKnown cx.now.rows search.new.seen.keys search.new.found.keys }
    ensures found { OnOk result
        (search.new.found.keys ≡ collect (tree_in cx.now.rows (ty_shape ty)) search.old.found.keys) }
{
    let mut pending = Vec::new(cx.allocator());
    pending.push(Visit::Enter(ty.any()))?;
    for _ in 0..MOST_VISITS {
        let Some(visit) = pending.pop() else {
            return Ok(());
        };
        make_visit(cx, search, &mut pending, visit)?;
    }
    Err(Refusal::TableFull)
}

// Makes the visit, which was the last of the pending ones.
fn make_visit(
    cx: &Interner,
    search: &mut Search,
    pending: &mut Vec<Visit>,
    visit: Visit,
) -> Result<(), Refusal>
    requires known { AreKnown cx.now.rows search.old.seen.keys search.old.found.keys }
    requires good { AreGood cx.now (pending.old.items ++ visit ∷ []) search.old.found.keys }
    ensures known { AreKnown cx.now.rows search.new.seen.keys search.new.found.keys }
    ensures good { OnOk result (AreGood cx.now pending.new.items search.new.found.keys) }
    ensures all { OnOk result (collect_pending cx.now pending.new.items search.new.found.keys
        ≡ collect_pending cx.now (pending.old.items ++ visit ∷ []) search.old.found.keys) }
{
    match visit {
        Visit::Enter(handle) => enter(cx, search, pending, handle),
        Visit::Leave(ty) => {
            search.seen.insert(ty)?;
            Ok(())
        }
    }
}

// Looks at the row: notes a variable, and the visits of the parts of another row.
fn enter(
    cx: &Interner,
    search: &mut Search,
    pending: &mut Vec<Visit>,
    handle: AnyHandle,
) -> Result<(), Refusal>
    requires own { handle.number < size cx.now.rows (term_table handle.table) }
    requires known { AreKnown cx.now.rows search.old.seen.keys search.old.found.keys }
    requires good { AreGood
        cx.now
        pending.old.items
        (collect (tree_in cx.now.rows (handle_shape handle)) search.old.found.keys) }
    ensures known { AreKnown cx.now.rows search.new.seen.keys search.new.found.keys }
    ensures good { OnOk result (AreGood cx.now pending.new.items search.new.found.keys) }
    ensures all { OnOk result (collect_pending cx.now pending.new.items search.new.found.keys
        ≡ collect_pending
        cx.now
        pending.old.items
        (collect (tree_in cx.now.rows (handle_shape handle)) search.old.found.keys)) }
{
    // A row's tree tells its table: so only a type is a variable.
    cx.are_rows();
    if handle.table != TermTable::Types {
        return push_parts(cx, pending, handle);
    }
    let ty: Ty = handle.typed();
    if !ty.has_infer_types(cx) {
        return Ok(());
    }
    if search.seen.contains(&ty) {
        return Ok(());
    }
    match variable_of(cx, ty) {
        Some(variable) => {
            search.found.insert(variable)?;
            Ok(())
        }
        None => {
            pending.push(Visit::Leave(ty))?;
            push_parts(cx, pending, handle)
        }
    }
}

// Adds the visits of the parts of a term, or of the items of a list, of which the first is to be made next.
fn push_parts(cx: &Interner, pending: &mut Vec<Visit>, handle: AnyHandle) -> Result<(), Refusal>
    requires own { handle.number < size cx.now.rows (term_table handle.table) }
    requires plain { variable_in (tree_in cx.now.rows (handle_shape handle)) ≡ None }
    ensures { OnOk result (Pushes
        cx.now
        pending.old.items
        (collect (tree_in cx.now.rows (handle_shape handle)))
        pending.new.items) }
{
    if handle.table.has_items() {
        let count = cx.list_len(handle);
        for place in 0..count {
            push_child(cx, pending, cx.list_child(handle, count - place - 1))?;
        }
        return Ok(());
    }
    let parts = cx.node_kind(handle).parts();
    push_child(cx, pending, parts.second)?;
    push_child(cx, pending, parts.first)?;
    Ok(())
}

// Adds the visit of the child, if it is a row.
fn push_child(cx: &Interner, pending: &mut Vec<Visit>, child: Child) -> Result<(), Refusal>
    requires { AreParts (size cx.now.rows) (child_shapes child) }
    ensures { OnOk result (Pushes
        cx.now
        pending.old.items
        (collect_all (child_trees cx.now child))
        pending.new.items) }
{
    match child {
        Child::Stored(handle) => {
            pending.push(Visit::Enter(handle))?;
            Ok(())
        }
        _ => Ok(()),
    }
}
