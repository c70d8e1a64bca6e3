//! The law of the equality of what a hook answers.

ghost use Rattle.tt_index.specs.Equality.{IsSameness};

use crate::folder::Step;

/// `==` holds of two answers of hooks exactly if they are the same, if `==` of what a hook returns does so. Does
/// nothing: the contract is a law.
pub fn equal_steps_are_same<T: PartialEq>()
    ensures { IsSameness T.eq → IsSameness ⟦<Step<T> as PartialEq>⟧.eq }
{}
