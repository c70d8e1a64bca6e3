//! Why a call of the unifier fails.

ghost use Rattle.std.specs.Prelude.{◌≡◌};

use std::alloc::{AllocError, AllocFailed};
use tt_index::{Refusal, TyVid};
use tt_kinds::Ty;

/// Why a call of the unifier fails.
#[derive(Clone, Copy, Debug, PartialEq, Eq, Drop)]
pub enum Fault {
    /// The two types differ, whatever types the table's unbound variables are bound to.
    Mismatch,
    /// The variable occurs in the type that it would be bound to, once the bound variables in the type are replaced:
    /// the type would have to contain itself.
    Occurs(TyVid, Ty),
    /// The variable would be bound to a type that holds a bound variable of a binder around it. Outside of this binder
    /// the type would mean something else.
    Escapes(TyVid, Ty),
    /// The library refused a call: memory is short ([`Refusal::Memory`]), or a table is full ([`Refusal::TableFull`]).
    /// `TableFull` also means that no number is left for a new variable, or that a loop of the call would
    /// take more than `u32::MAX` rounds.
    Refused(Refusal),
}

impl From<Refusal> for Fault {
    ghost use Rattle.unify.specs.declared.fault.Fault.TheVariants.{Refused};

    ghost from_gives = { λ refusal fault. fault ≡ Refused refusal };

    fn from(refusal: Refusal) -> Fault {
        Fault::Refused(refusal)
    }
}

impl From<AllocError> for Fault {
    ghost use Rattle.tt_index.specs.declared.refusal.Refusal.TheVariants.{Memory};
    ghost use Rattle.unify.specs.declared.fault.Fault.TheVariants.{Refused};

    ghost from_gives = { λ _ fault. fault ≡ Refused Memory };

    fn from(error: AllocError) -> Fault {
        Fault::Refused(Refusal::from(error))
    }
}

impl<T: Drop> From<AllocFailed<T>> for Fault {
    ghost use Rattle.tt_index.specs.declared.refusal.Refusal.TheVariants.{Memory};
    ghost use Rattle.unify.specs.declared.fault.Fault.TheVariants.{Refused};

    ghost from_gives = { λ _ fault. fault ≡ Refused Memory };

    fn from(failed: AllocFailed<T>) -> Fault {
        Fault::Refused(Refusal::from(failed))
    }
}
