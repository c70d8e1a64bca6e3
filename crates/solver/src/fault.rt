//! Why a call of the solver fails.

ghost use Rattle.std.specs.Prelude.{◌≡◌};

use std::alloc::{AllocError, AllocFailed};
use thiserror::Error;
use tt_index::Refusal;

/// Why a call of the solver fails.
#[derive(Clone, Copy, Debug, PartialEq, Eq, Drop, Error)]
pub enum Fault {
    /// The implementation can't be declared: its head or one of its conditions holds an inference variable, a variable of
    /// a binder around it, or a parameter that isn't one of its own types.
    #[error("the implementation has a variable or a parameter that is not its own")]
    Unwritten,
    /// What was to be verified doesn't follow.
    #[error("what was to be verified does not follow")]
    Unverified,
    /// The library refused a call: memory is short ([`Refusal::Memory`]), a table is full ([`Refusal::TableFull`]), or
    /// an instance would need an index that is too great ([`Refusal::GreatestIndex`]).
    #[error("{0}")]
    Refused(Refusal),
}

impl From<Refusal> for Fault {
    ghost use Rattle.solver.specs.declared.fault.Fault.TheVariants.{Refused};

    ghost from_gives = { λ refusal fault. fault ≡ Refused refusal };

    fn from(refusal: Refusal) -> Fault {
        Fault::Refused(refusal)
    }
}

impl From<AllocError> for Fault {
    ghost use Rattle.tt_index.specs.declared.refusal.Refusal.TheVariants.{Memory};
    ghost use Rattle.solver.specs.declared.fault.Fault.TheVariants.{Refused};

    ghost from_gives = { λ _ fault. fault ≡ Refused Memory };

    fn from(error: AllocError) -> Fault {
        Fault::Refused(Refusal::from(error))
    }
}

impl<T: Drop> From<AllocFailed<T>> for Fault {
    ghost use Rattle.tt_index.specs.declared.refusal.Refusal.TheVariants.{Memory};
    ghost use Rattle.solver.specs.declared.fault.Fault.TheVariants.{Refused};

    ghost from_gives = { λ _ fault. fault ≡ Refused Memory };

    fn from(failed: AllocFailed<T>) -> Fault {
        Fault::Refused(Refusal::from(failed))
    }
}
