//! The law of the equality of flags and of cached information.

ghost use Rattle.tt_index.specs.Equality.{IsSameness};

use crate::flag_computation::FlagComputation;
use crate::type_flags::TypeFlags;

/// `==` holds of two sets of flags, or of the cached information of two terms, exactly if they are the same. Does
/// nothing: the contract is a law.
pub fn equal_flags_are_same()
    ensures type_flags { IsSameness ⟦<TypeFlags as PartialEq>⟧.eq }
    ensures flag_computation { IsSameness ⟦<FlagComputation as PartialEq>⟧.eq }
{}
