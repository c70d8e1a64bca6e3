//! Tests of children, and of the items of lists.

ghost use Rattle.std.specs.Prelude.{◌≡◌, ◌↔◌, IfErr, IsTrue, OnErr, OnOk};
ghost use Rattle.tt_index.specs.declared.refusal.Refusal.TheVariants.{NotAClause};
ghost use Rattle.tt_kinds.specs.Kinds.{child_shapes};
ghost use Rattle.tt_kinds.specs.Parts.{a_stored, child_sort, IsItem};
ghost use Rattle.tt_kinds.specs.TermTable.{term_table};
ghost use Rattle.tt_kinds.specs.declared.table.TermTable.TheVariants as terms_of;
ghost use Rattle.tt_visit.specs.Root.{hooked, table_root};
ghost use Rattle.tt_fold.specs.Parts.{ArePartsOf, child_trees};
ghost use Rattle.tt_fold.specs.Walk.{clause_trees, HasUnwanted, wanted_of};

use tt_index::Refusal;
use tt_interner::{AsClause, Interner};
use tt_kinds::handle::PredicateRow;
use tt_kinds::{Child, TermTable};

// Returns whether folders have a hook for the terms of the table.
#[inline(always)]
pub(crate) fn is_hooked(table: TermTable) -> bool
    ensures { IsTrue result ↔ (table_root (term_table table) ≡ hooked) }
{
    match table {
        TermTable::Types | TermTable::Consts | TermTable::Predicates | TermTable::ClauseLists =>
            true,
        _ => false,
    }
}

// Returns whether the child is absent.
#[inline(always)]
pub(crate) fn is_absent(child: &Child) -> bool
    ensures { IsTrue result ↔ (child.now ≡ Child.Absent) }
{
    match child {
        Child::Absent => true,
        Child::Region(_) | Child::Stored(_) => false,
    }
}

// Returns whether the child is a predicate.
#[inline(always)]
pub(crate) fn is_predicate(child: &Child) -> bool
    ensures { IsTrue result ↔ (child_sort child.now ≡ a_stored terms_of.Predicates) }
{
    match child {
        Child::Stored(handle) => handle.table == TermTable::Predicates,
        _ => false,
    }
}

// Checks that the item may be in a list of this table: an item of a list of clauses has to be a clause.
#[inline(always)]
pub(crate) fn check_item(cx: &Interner, list: TermTable, item: &Child) -> Result<(), Refusal>
    requires item { ArePartsOf cx.now.rows (child_shapes item.now) }
    requires fit { IsItem list (child_sort item.now) }
    ensures ok { OnOk result (HasUnwanted (wanted_of list) (child_trees cx.now.rows item.now) → ⊥) }
    ensures err { OnErr result (HasUnwanted (wanted_of list) (child_trees cx.now.rows item.now)) }
    ensures refusal { IfErr result (λ e. e ≡ NotAClause) }
{
    match list {
        TermTable::ClauseLists => check_clause(cx, item),
        _ => Ok(()),
    }
}

// Checks that the item is a clause.
fn check_clause(cx: &Interner, item: &Child) -> Result<(), Refusal>
    requires item { ArePartsOf cx.now.rows (child_shapes item.now) }
    requires fit { IsItem terms_of.ClauseLists (child_sort item.now) }
    ensures ok { OnOk result (HasUnwanted clause_trees (child_trees cx.now.rows item.now) → ⊥) }
    ensures err { OnErr result (HasUnwanted clause_trees (child_trees cx.now.rows item.now)) }
    ensures refusal { IfErr result (λ e. e ≡ NotAClause) }
{
    match item {
        Child::Stored(handle) => match handle.typed::<PredicateRow>().as_clause(cx) {
            Some(_) => Ok(()),
            None => Err(Refusal::NotAClause),
        },
        _ => unreachable!(),
    }
}
