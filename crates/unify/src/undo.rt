//! A table's entries with the order in which they were bound, and how bindings are undone.

ghost use Rattle.std.specs.Prelude.{◌≡◌, ◌≤◌, length, take};
ghost use Rattle.unify.specs.Undo.{entries_at};

use tt_index::{Idx, TyVid};
use tt_kinds::Ty;

/// The entries of a table, and the variables that were bound.
#[derive(Drop)]
pub struct Table {
    pub entries: Vec<Option<Ty>>,
    // in the order in which they were bound
    pub bound: Vec<TyVid>,
}

/// Makes the table what it was when it had this many variables, of which this many were bound.
pub fn undo_from(table: &mut Table, variables: usize, bindings: usize)
    requires variables { variables ≤ length table.old.entries.items }
    requires bindings { bindings ≤ length table.old.bound.items }
    ensures entries { table.new.entries.items
        ≡ entries_at variables bindings table.old.bound.items table.old.entries.items }
    ensures bound { table.new.bound.items ≡ take bindings table.old.bound.items }
{
    while table.bound.len() > bindings {
        if let Some(variable) = table.bound.pop() {
            let number = variable.as_usize();
            if number < table.entries.len() {
                table.entries[number] = None;
            }
        }
    }
    table.entries.truncate(variables);
}
