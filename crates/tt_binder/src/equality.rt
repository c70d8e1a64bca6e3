//! The law of the equality of what a validation breaks with.

ghost use Rattle.tt_index.specs.Equality.{IsSameness};

use crate::validate_bound_vars::WrongBoundVar;

/// `==` holds of two values with which validations break, since all are the same. Does nothing: the contract is a law.
pub fn equal_breaks_are_same()
    ensures { IsSameness ⟦<WrongBoundVar as PartialEq>⟧.eq }
{}
