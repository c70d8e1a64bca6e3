//! Answers to calls.

use tt_flags::TypeFlags;
use tt_index::{DebruijnIndex, Refusal};
use tt_kinds::{Clauses, Const, DeclarationSort, DefId, GenericArgs, Pat, Predicate, Ty};

/// The answer to a [`Call`](crate::Call).
#[derive(Clone, Copy, Debug, PartialEq, Eq)]
pub enum Answer {
    /// The type that was built, shifted or instantiated, or whose regions were erased.
    Ty(Ty),
    /// The constant that was built, shifted or instantiated, or whose regions were erased.
    Const(Const),
    /// The pattern that was built, shifted or instantiated, or whose regions were erased.
    Pat(Pat),
    /// The predicate that was built, shifted or instantiated, or whose regions were erased.
    Predicate(Predicate),
    /// The list of clauses that was built, shifted or instantiated, or whose regions were erased.
    Clauses(Clauses),
    /// The list of generic arguments that was built, shifted or instantiated, or whose regions were erased.
    Args(GenericArgs),
    /// The id of the declaration that was made, with the declaration's sort.
    Id(DeclarationSort, DefId),
    /// Whether two terms are the same.
    Truth(bool),
    /// The cached information of a term.
    Info {
        /// The union of the flags of all parts of the term.
        flags: TypeFlags,
        /// One more than the greatest index of a bound variable that escapes the term, or 0 if none escapes.
        outer: DebruijnIndex,
    },
    /// The call was refused.
    Refused(Refusal),
    /// The line was not a call.
    Bad,
}
