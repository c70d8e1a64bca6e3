//! The law of the equality of faults.

ghost use Rattle.tt_index.specs.Equality.{IsSameness};

use crate::fault::Fault;

/// `==` holds of two faults exactly if they are the same. Does nothing: the contract is a law.
pub fn equal_faults_are_same()
    ensures { IsSameness ⟦<Fault as PartialEq>⟧.eq }
{}
