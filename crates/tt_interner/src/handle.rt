//! Access to the rows that handles name. A handle has to be of the interner. [`Interner::owns_ty`],
//! [`Interner::owns_clause`] and the other tests by name test it, and [`Interner::owns`] in generic code. A handle from
//! `Ty::default` or `Handle::from_number` may name no row.

ghost use Rattle.std.specs.Prelude.{◌≡◌, ◌<◌, ℕ, List, MatchOption};
ghost use Rattle.tt_kinds.specs.declared.table.Table.{Table};
ghost use Rattle.tt_kinds.specs.declared.table.Table.TheVariants.{Predicates, Symbols};
ghost use Rattle.tt_interner.specs.Clauses.{clause_predicate};
ghost use Rattle.tt_interner.specs.Rows.{Row, text_row, predicate_row, size, IsClause};
ghost use Rattle.tt_interner.specs.Reads.{Reads};
ghost use Rattle.tt_interner.specs.Stored.{IsAt};

use crate::interner::Interner;
use tt_kinds::{Binder, Clause, ClauseKind, Predicate};

/// A handle of a stored term that has a kind.
pub trait InternedKind: Sized {
    /// The kind of the term.
    type Kind;

    // The number of the handle.
    ghost handle_number: { Self → ℕ };

    ghost handle_table: { Table };
    // The row of a kind.
    ghost row_of: { Self.Kind → Row };

    /// Returns the term's kind, borrowed from the interner. The handle has to be of this interner; [`Interner::owns`]
    /// tests it. The handles in the kind are this interner's too.
    fn kind<'a>(self, cx: &'a Interner) -> &'a Self::Kind
        requires { handle_number self < size cx.now.rows handle_table }
        ensures { Reads cx.now.rows handle_table (handle_number self) (row_of result.now) };
}

/// A handle of a stored list.
pub trait InternedList: Sized {
    /// The type of the list's items.
    type Item;

    // The number of the handle.
    ghost list_number: { Self → ℕ };

    ghost list_table: { Table };
    // The row of a list.
    ghost row_of_items: { List Self.Item → Row };

    /// Returns the items in order, borrowed from the interner. The handle has to be of this interner;
    /// [`Interner::owns`] tests it. The handles in the items are this interner's too.
    fn as_slice<'a>(self, cx: &'a Interner) -> &'a [Self::Item]
        requires { list_number self < size cx.now.rows list_table }
        ensures { Reads cx.now.rows list_table (list_number self) (row_of_items result.now) };
}

/// A clause, which is a predicate too.
pub trait AsPredicate: Sized {
    // The number of the handle.
    ghost clause_number: { Self → ℕ };

    /// Returns the clause as a predicate.
    fn as_predicate(self) -> Predicate
        ensures { result.number ≡ clause_number self };

    /// Returns the clause's kind, under its binder. The clause has to be of this interner; [`Interner::owns_clause`]
    /// tests it. The handles in the kind are this interner's too.
    fn kind(self, cx: &Interner) -> Binder<ClauseKind>
        requires { IsClause cx.now.rows (clause_number self) }
        ensures { Reads cx.now.rows Predicates (clause_number self) (predicate_row (clause_predicate result)) };
}

/// A predicate, which may be a clause.
pub trait AsClause: Sized {
    // The number of the handle.
    ghost predicate_number: { Self → ℕ };

    /// Returns the predicate as a clause, or `None` if it isn't one. The predicate has to be of this interner;
    /// [`Interner::owns_predicate`] tests it.
    fn as_clause(self, cx: &Interner) -> Option<Clause>
        requires { predicate_number self < size cx.now.rows Predicates }
        ensures { MatchOption result (IsClause cx.now.rows (predicate_number self) → ⊥) (λ clause. (clause.number
            ≡ predicate_number self)
            × IsClause cx.now.rows clause.number) };
}

impl AsClause for Predicate {
    ghost predicate_number = { λ predicate. predicate.number };

    fn as_clause(self, cx: &Interner) -> Option<Clause> {
        let clause = Clause::from_number(self.number());
        if cx.owns_clause(clause) {
            Some(clause)
        } else {
            None
        }
    }
}

/// A handle of a text.
pub trait InternedText: Sized {
    // The number of the handle.
    ghost text_number: { Self → ℕ };

    /// Returns the text, borrowed from the interner. The handle has to be of this interner; [`Interner::owns_symbol`]
    /// tests it.
    fn as_str<'a>(self, cx: &'a Interner) -> &'a str
        requires { text_number self < size cx.now.rows Symbols }
        ensures { IsAt cx.now.rows (text_row result.now) (text_number self) };
}
