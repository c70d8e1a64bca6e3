//! The law of the equality of answers, and of what went wrong in a script or a line.

ghost use Rattle.tt_index.specs.Equality.{IsSameness};

use crate::answer::Answer;
use crate::script::fault::Fault;
use crate::script::line::LineError;

/// `==` holds of two answers, or of two faults of one type, exactly if they are the same. Does nothing: the contract is
/// a law.
pub fn equal_answers_are_same()
    ensures answer { IsSameness ⟦<Answer as PartialEq>⟧.eq }
    ensures fault { IsSameness ⟦<Fault as PartialEq>⟧.eq }
    ensures line_error { IsSameness ⟦<LineError as PartialEq>⟧.eq }
{}
