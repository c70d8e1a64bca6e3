//! Why a call was refused.

ghost use Rattle.std.specs.Prelude.{◌≡◌};
ghost use Rattle.tt_index.specs.declared.refusal.Refusal.TheVariants.{Memory};

use crate::vid::RegionVid;
use std::alloc::{AllocError, AllocFailed};
use thiserror::Error;

/// Why a call was refused. A refused call leaves the meaning of every handle unchanged. If a call could be refused for
/// several causes, it returns one of them.
///
/// A call that adds at most one row, such as `mk_ty` or `declare_trait`, adds nothing if it is refused, and neither
/// does `mk_existentials`. Any other call that builds may leave rows that no result names: `mk_tuple` the list of
/// types, `mk_param` the name, and a fold the terms that it built before it was refused.
#[derive(Clone, Copy, Debug, PartialEq, Eq, Drop, Error)]
pub enum Refusal {
    /// The allocator refused memory during the call, so a list or a table could not grow. A call that first collects
    /// more than eight items, as `mk_existentials` does, needs memory for them even if everything that it would add is
    /// stored already.
    #[error("memory was refused during the call: free some, and call again")]
    Memory,
    /// The term or declaration is new, and its table already holds as many rows as its limit allows.
    #[error("the term or declaration is new, and its table is full: give the interner a higher limit")]
    TableFull,
    /// The result would need a bound variable whose index is the greatest index or above, so that no index is left for
    /// the binder just outside. Or one of the library's own folders would enter more nested binders than the greatest
    /// index counts.
    #[error("the result would need a bound variable above the greatest index: nest fewer binders")]
    GreatestIndex,
    /// The list of arguments is empty, and the value has a parameter to replace.
    #[error("the value has a parameter, and there are no arguments: give one for each parameter")]
    NoArguments,
    /// The list of arguments has items, but none at a parameter's index.
    #[error("there is no argument for the parameter of index {index}: give a longer list")]
    ArgOutOfRange {
        /// The parameter's index, at or above the length of the list.
        index: u32,
    },
    /// The argument at a parameter's index is of another kind than the parameter, such as a region for a type.
    #[error("the argument for the parameter of index {index} is of another kind: give a type, a region or a constant, as it is")]
    ArgKind {
        /// The parameter's index.
        index: u32,
    },
    /// The list of arguments has items, and this region inference variable occurs in the value where the walk reaches
    /// it. The walk doesn't enter a type, a predicate or a list of clauses without parameters.
    #[error("the region variable {0} occurs in the value: resolve it before the value is instantiated")]
    RegionVariable(RegionVid),
    /// A folder returned a predicate that is not a clause where a clause is required.
    #[error("a folder answered a predicate that is no clause where a clause belongs: answer a clause there")]
    NotAClause,
    /// A call of a script names an earlier answer that is absent, was refused or is of the wrong kind.
    #[error("an earlier answer that the call names is absent, was refused or is of another kind: name one that serves")]
    NoSuchAnswer,
}

impl From<AllocError> for Refusal {
    ghost from_gives = { λ _ refusal. refusal ≡ Memory };

    fn from(_: AllocError) -> Refusal {
        Refusal::Memory
    }
}

impl<T: Drop> From<AllocFailed<T>> for Refusal {
    ghost from_gives = { λ _ refusal. refusal ≡ Memory };

    fn from(_: AllocFailed<T>) -> Refusal {
        Refusal::Memory
    }
}
