//! Why a program isn't accepted.

use crate::mistake::Mistake;
use std::alloc::{AllocError, AllocFailed};
use thiserror::Error;
use tt_index::Refusal;

/// Why a program isn't accepted, or isn't checked to its end.
#[derive(Debug, Drop, Error)]
pub enum Failure {
    /// The program is wrong. [`message_of`](crate::message_of) says how.
    #[error("the program is wrong")]
    Wrong(Mistake),
    /// The program isn't well formed: for example, a number is out of range of its list, or an operand doesn't come
    /// before its expression. No source is known that is read as such a program.
    #[error("a number in the program points nowhere")]
    Malformed,
    /// The types that were found don't meet the rules. No program is known that gives this failure, but the proof
    /// doesn't exclude it.
    #[error("the types that were found do not meet the rules")]
    Unverified,
    /// The library refused a call: memory is short ([`Refusal::Memory`]), or a table is full ([`Refusal::TableFull`]).
    /// No program is known that gives another refusal.
    #[error("{0}")]
    Refused(Refusal),
}

impl From<Refusal> for Failure {
    fn from(refusal: Refusal) -> Failure {
        Failure::Refused(refusal)
    }
}

impl From<AllocError> for Failure {
    fn from(error: AllocError) -> Failure {
        Failure::Refused(Refusal::from(error))
    }
}

impl<T: Drop> From<AllocFailed<T>> for Failure {
    fn from(failed: AllocFailed<T>) -> Failure {
        Failure::Refused(Refusal::from(failed))
    }
}
