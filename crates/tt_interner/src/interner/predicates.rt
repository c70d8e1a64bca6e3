//! Predicates, and lists of clauses.

ghost use Rattle.std.specs.Prelude.{◌<◌, ◌↔◌, IsTrue};
ghost use Rattle.tt_kinds.specs.Shape.{HasParts};
ghost use Rattle.tt_kinds.specs.Kinds.{predicate_kind_shape};
ghost use Rattle.tt_interner.specs.Rows.{predicate_row, clauses_row, size, AreClauses};
ghost use Rattle.tt_interner.specs.Stored.{Builds};

use super::Interner;
use crate::flag_computation::{items_info, kind_info};
use crate::handle::{AsPredicate, InternedKind, InternedList};
use crate::tables::{find_or_add, find_or_add_list, find_or_insert, key_at};
use tt_index::Refusal;
use tt_kinds::{Binder, Clause, ClauseKind, Clauses, Kind, Predicate, PredicateKind, Table};

impl Interner {
    /// Returns the predicate of this kind under this binder. Every handle and name in it has to be this interner's;
    /// [`Interner::owns_predicate_kind`] tests it.
    ///
    /// Refused with `TableFull` if the predicate is new and the table has as many rows as it may have, and with
    /// `Memory`.
    pub fn mk_predicate(&mut self, kind: Binder<PredicateKind>) -> Result<Predicate, Refusal>
        requires { HasParts (size self.old.rows) (predicate_kind_shape kind) }
        ensures { Builds result (λ handle. handle.number) self.old self.new (predicate_row kind) }
    {
        let info = kind_info(self, &Kind::Predicate(kind));
        let number = find_or_add(
            &mut self.order,
            self.limit,
            Table::Predicates,
            &mut self.predicates,
            &kind,
            info,
        )?;
        Ok(Predicate::from_number(number))
    }
}

impl Interner {
    /// Returns the list of these clauses, in order. They have to be of this interner, and clauses;
    /// [`Interner::owns_clause`] tests it.
    ///
    /// Refused with `TableFull` if the list is new and the table has as many rows as it may have, and with `Memory`.
    pub fn mk_clauses(&mut self, items: &[Clause]) -> Result<Clauses, Refusal>
        requires { AreClauses self.old.rows items.now }
        ensures { Builds result (λ list. list.number) self.old self.new (clauses_row items.now) }
    {
        let info = items_info(self, items);
        let number = find_or_add_list(
            &mut self.order,
            self.limit,
            Table::ClauseLists,
            &mut self.clause_lists,
            items,
            info,
        )?;
        Ok(Clauses::from_number(number))
    }

    // Returns the list of these items, with one look-up; a new list keeps the vector.
    pub(crate) fn put_clauses(&mut self, items: Vec<Clause>) -> Result<Clauses, Refusal>
        requires { AreClauses self.old.rows items.items }
        ensures { Builds result (λ list. list.number) self.old self.new (clauses_row items.items) }
    {
        let info = items_info(self, items.as_slice());
        let number = find_or_insert(
            &mut self.order,
            self.limit,
            Table::ClauseLists,
            &mut self.clause_lists,
            items,
            info,
        )?;
        Ok(Clauses::from_number(number))
    }

    /// Returns whether each item is a clause of this interner.
    pub fn are_clauses(&self, items: &[Clause]) -> bool
        ensures { IsTrue result ↔ AreClauses self.now.rows items.now }
    {
        for item in items {
            if !self.owns_clause(*item) {
                return false;
            }
        }
        true
    }
}

impl InternedKind for Predicate {
    ghost use Rattle.tt_interner.specs.Rows.{predicate_row};
    ghost use Rattle.tt_kinds.specs.declared.table.Table.TheVariants.{Predicates};

    type Kind = Binder<PredicateKind>;

    ghost handle_number = { λ handle. handle.number };

    ghost handle_table = { Predicates };

    ghost row_of = { predicate_row };

    fn kind<'a>(self, cx: &'a Interner) -> &'a Binder<PredicateKind> {
        key_at(&cx.predicates, self.number())
    }
}

impl InternedList for Clauses {
    ghost use Rattle.tt_interner.specs.Rows.{clauses_row};
    ghost use Rattle.tt_kinds.specs.declared.table.Table.TheVariants.{ClauseLists};

    type Item = Clause;

    ghost list_number = { λ list. list.number };

    ghost list_table = { ClauseLists };

    ghost row_of_items = { clauses_row };

    fn as_slice<'a>(self, cx: &'a Interner) -> &'a [Clause] {
        key_at(&cx.clause_lists, self.number()).as_slice()
    }
}

impl AsPredicate for Clause {
    ghost clause_number = { λ clause. clause.number };

    fn as_predicate(self) -> Predicate {
        Predicate::from_number(self.number())
    }

    fn kind(self, cx: &Interner) -> Binder<ClauseKind> {
        // By the facts about rows, a predicate whose tree is a clause's has the kind of a clause.
        cx.are_rows();
        let predicate = self.as_predicate().kind(cx);
        match predicate.as_ref().skip_binder() {
            PredicateKind::Clause(kind) => Binder::bind_with_vars(*kind, predicate.bound_vars()),
            _ => unreachable!(),
        }
    }
}
