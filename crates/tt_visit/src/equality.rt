//! The law of the equality of what a hook answers, and of what the library's visitors break with.

ghost use Rattle.tt_index.specs.Equality.{IsSameness};

use crate::has_escaping_vars::FoundEscapingVars;
use crate::has_type_flags::FoundFlags;
use crate::meets_regions::MetRegion;
use crate::visitor::Next;

/// `==` holds of two answers of hooks, or of two values with which visitors of one type break, exactly if they are the
/// same. Does nothing: the contract is a law.
pub fn equal_outcomes_are_same()
    ensures found_escaping_vars { IsSameness ⟦<FoundEscapingVars as PartialEq>⟧.eq }
    ensures found_flags { IsSameness ⟦<FoundFlags as PartialEq>⟧.eq }
    ensures met_region { IsSameness ⟦<MetRegion as PartialEq>⟧.eq }
    ensures next { IsSameness ⟦<Next as PartialEq>⟧.eq }
{}
