//! Why goals aren't answered.

use std::alloc::{AllocError, AllocFailed};
use thiserror::Error;
use tt_index::Refusal;

/// Why the goals of a text aren't all answered.
#[derive(Debug, Drop, Error)]
pub enum Failure {
    /// The script isn't well formed: a number is out of range of its list. No source is known that is read as such a
    /// script.
    #[error("a number in the script points nowhere")]
    Malformed,
    /// A call of the solver failed.
    #[error("{0}")]
    Solver(solver::Fault),
}

impl From<solver::Fault> for Failure {
    fn from(fault: solver::Fault) -> Failure {
        Failure::Solver(fault)
    }
}

impl From<Refusal> for Failure {
    fn from(refusal: Refusal) -> Failure {
        Failure::Solver(solver::Fault::Refused(refusal))
    }
}

impl From<AllocError> for Failure {
    fn from(error: AllocError) -> Failure {
        Failure::from(Refusal::from(error))
    }
}

impl<T: Drop> From<AllocFailed<T>> for Failure {
    fn from(failed: AllocFailed<T>) -> Failure {
        Failure::from(Refusal::from(failed))
    }
}
