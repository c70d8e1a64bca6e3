//! The handles that answers hold.

ghost use Rattle.std.specs.Prelude.{◌≡◌, ℕ, MatchOption};
ghost use Rattle.tt_kinds.specs.Shape.{stored};
ghost use Rattle.tt_kinds.specs.declared.table.Table.{Table};
ghost use Rattle.tt_calls.specs.Told.{handle_table, handle_number};
ghost use Rattle.tt_calls.specs.Build.{IsHandle, IsOther};

use crate::answer::Answer;
use tt_interner::Flags;
use tt_kinds::{Clauses, Const, GenericArgs, Pat, Predicate, Table, Ty};

/// A handle that an answer can hold.
pub trait TermHandle: Flags + Copy {
    // The handle's table, and its number in this table.
    ghost table: { Table };

    ghost number: { Self → ℕ };

    /// Returns the answer's handle, or `None` if the answer is not a handle of this table.
    fn from_answer(answer: &Answer) -> Option<Self>
        ensures { MatchOption result (IsOther answer.now table) (λ handle. IsHandle answer.now table (number handle)) };

    /// Returns the handle as an answer.
    fn into_answer(self) -> Answer
        ensures { IsHandle result table (number self) };

    // The trait `Flags` reads the row that the handle names.
    ghost is_flagged: { (handle : Self) → Self.flags_shape handle ≡ stored table (number handle) };
}

impl TermHandle for Ty {
    ghost use Rattle.std.specs.Prelude.{refl};
    ghost use Rattle.tt_kinds.specs.declared.table.Table.TheVariants.{Types};

    ghost table = { Types };

    ghost number = { λ handle. handle.number };

    fn from_answer(answer: &Answer) -> Option<Ty> {
        match answer {
            Answer::Ty(ty) => Some(*ty),
            _ => None,
        }
    }

    fn into_answer(self) -> Answer {
        Answer::Ty(self)
    }

    ghost is_flagged = { λ handle. refl };
}

impl TermHandle for Const {
    ghost use Rattle.std.specs.Prelude.{refl};
    ghost use Rattle.tt_kinds.specs.declared.table.Table.TheVariants.{Consts};

    ghost table = { Consts };

    ghost number = { λ handle. handle.number };

    fn from_answer(answer: &Answer) -> Option<Const> {
        match answer {
            Answer::Const(constant) => Some(*constant),
            _ => None,
        }
    }

    fn into_answer(self) -> Answer {
        Answer::Const(self)
    }

    ghost is_flagged = { λ handle. refl };
}

impl TermHandle for Pat {
    ghost use Rattle.std.specs.Prelude.{refl};
    ghost use Rattle.tt_kinds.specs.declared.table.Table.TheVariants.{Patterns};

    ghost table = { Patterns };

    ghost number = { λ handle. handle.number };

    fn from_answer(answer: &Answer) -> Option<Pat> {
        match answer {
            Answer::Pat(pat) => Some(*pat),
            _ => None,
        }
    }

    fn into_answer(self) -> Answer {
        Answer::Pat(self)
    }

    ghost is_flagged = { λ handle. refl };
}

impl TermHandle for Predicate {
    ghost use Rattle.std.specs.Prelude.{refl};
    ghost use Rattle.tt_kinds.specs.declared.table.Table.TheVariants.{Predicates};

    ghost table = { Predicates };

    ghost number = { λ handle. handle.number };

    fn from_answer(answer: &Answer) -> Option<Predicate> {
        match answer {
            Answer::Predicate(predicate) => Some(*predicate),
            _ => None,
        }
    }

    fn into_answer(self) -> Answer {
        Answer::Predicate(self)
    }

    ghost is_flagged = { λ handle. refl };
}

impl TermHandle for Clauses {
    ghost use Rattle.std.specs.Prelude.{refl};
    ghost use Rattle.tt_kinds.specs.declared.table.Table.TheVariants.{ClauseLists};

    ghost table = { ClauseLists };

    ghost number = { λ handle. handle.number };

    fn from_answer(answer: &Answer) -> Option<Clauses> {
        match answer {
            Answer::Clauses(clauses) => Some(*clauses),
            _ => None,
        }
    }

    fn into_answer(self) -> Answer {
        Answer::Clauses(self)
    }

    ghost is_flagged = { λ handle. refl };
}

impl TermHandle for GenericArgs {
    ghost use Rattle.std.specs.Prelude.{refl};
    ghost use Rattle.tt_kinds.specs.declared.table.Table.TheVariants.{ArgLists};

    ghost table = { ArgLists };

    ghost number = { λ handle. handle.number };

    fn from_answer(answer: &Answer) -> Option<GenericArgs> {
        match answer {
            Answer::Args(args) => Some(*args),
            _ => None,
        }
    }

    fn into_answer(self) -> Answer {
        Answer::Args(self)
    }

    ghost is_flagged = { λ handle. refl };
}

/// Returns the table of the answer's handle, or `None` if the answer is not a handle.
pub fn table_of(answer: &Answer) -> Option<Table>
    ensures { result ≡ handle_table answer.now }
{
    match answer {
        Answer::Ty(_) => Some(Table::Types),
        Answer::Const(_) => Some(Table::Consts),
        Answer::Pat(_) => Some(Table::Patterns),
        Answer::Predicate(_) => Some(Table::Predicates),
        Answer::Clauses(_) => Some(Table::ClauseLists),
        Answer::Args(_) => Some(Table::ArgLists),
        Answer::Id(..)
        | Answer::Truth(_)
        | Answer::Info { .. }
        | Answer::Refused(_)
        | Answer::Bad => None,
    }
}

/// Returns the number of the answer's handle in its table, or 0 if the answer is not a handle.
pub fn number_of(answer: &Answer) -> u32
    ensures { result ≡ handle_number answer.now }
{
    match answer {
        Answer::Ty(ty) => ty.number(),
        Answer::Const(constant) => constant.number(),
        Answer::Pat(pat) => pat.number(),
        Answer::Predicate(predicate) => predicate.number(),
        Answer::Clauses(clauses) => clauses.number(),
        Answer::Args(args) => args.number(),
        Answer::Id(..)
        | Answer::Truth(_)
        | Answer::Info { .. }
        | Answer::Refused(_)
        | Answer::Bad => 0,
    }
}
