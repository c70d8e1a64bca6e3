//! Messages to the author of a program.

use crate::program::Place;
use crate::syntax_error::SyntaxError;
use std::alloc::AllocError;
use std::fmt;
use std::string::String;

/// What is wrong with a program, and where.
#[derive(Debug, PartialEq, Eq, Drop)]
pub struct Message {
    pub place: Place,
    pub text: String,
}

impl fmt::Display for Message {
    fn fmt<W: fmt::Write>(&self, f: &mut fmt::Formatter<W>) -> fmt::Result {
        let line = self.place.line;
        let column = self.place.column;
        let text = self.text.as_str();
        write!(f, "{line}:{column}: {text}")
    }
}

/// Returns the error with this text at the place, or [`SyntaxError::Memory`] if memory was refused for the text.
pub fn wrong(place: Place, text: Result<String, AllocError>) -> SyntaxError {
    match text {
        Ok(text) => SyntaxError::Wrong(Message { place, text }),
        Err(_) => SyntaxError::Memory,
    }
}
