//! Messages with what helps to understand them.

use checker_syntax::message::Message;
use checker_syntax::program::Place;

/// A message about a wrong program, and the notes that belong to it.
#[derive(Debug, Drop)]
pub struct Report {
    pub message: Message,
    pub extent: Extent,
    pub notes: Vec<Note>,
}

/// What a message is about, which begins at the message's place.
#[derive(Clone, Copy, Debug, PartialEq, Eq)]
pub enum Extent {
    /// The token that begins there.
    Token,
    /// The expression that begins there.
    Expression,
}

/// Something more that is said of a mistake.
#[derive(Debug, Drop)]
pub struct Note {
    /// Where the token is that the note is about, if it is about one.
    pub place: Option<Place>,
    pub text: String,
}
