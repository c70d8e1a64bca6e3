//! The law of the equality of contents, and of what a constant's type lacks.

ghost use Rattle.tt_index.specs.Equality.{IsSameness};

use crate::env::ConstTyFault;
use crate::nodes::Contents;

/// `==` holds of the contents of two terms, or of two faults, exactly if they are the same. Does nothing: the contract
/// is a law.
pub fn equal_contents_are_same()
    ensures const_ty_fault { IsSameness ⟦<ConstTyFault as PartialEq>⟧.eq }
    ensures contents { IsSameness ⟦<Contents as PartialEq>⟧.eq }
{}
