//! The words of a line, and what a single word says.

use std::alloc::{AllocError, AllocFailed};
use tt_calls::TermCall;
use tt_index::Index;

/// Why a line gave no step.
#[derive(Clone, Copy, Debug, PartialEq, Eq)]
pub enum Unread {
    /// It isn't a step.
    Unknown,
    /// Memory was refused.
    Memory,
}

impl From<AllocError> for Unread {
    fn from(_: AllocError) -> Unread {
        Unread::Memory
    }
}

impl<T: Drop> From<AllocFailed<T>> for Unread {
    fn from(_: AllocFailed<T>) -> Unread {
        Unread::Memory
    }
}

/// The words of a line that are still to be read.
#[derive(Drop)]
pub struct Words<'a> {
    rest: &'a str,
}

impl<'a> Words<'a> {
    /// Returns the words of the line, separated by one space.
    pub fn new(line: &'a str) -> Words<'a> {
        Words { rest: line }
    }

    /// Returns the next word, or an empty one at the end.
    pub fn word(&mut self) -> &'a str {
        let (word, rest) = self.rest.split_once(" ").unwrap_or((self.rest, ""));
        self.rest = rest;
        word
    }

    /// Returns all words that are left, and their spaces.
    pub fn rest(&self) -> &'a str {
        self.rest
    }

    /// Returns all words that are left but the last one, which is then the next.
    pub fn all_but_last(&mut self) -> Words<'a> {
        let (before, last) = self.rest.rsplit_once(" ").unwrap_or(("", self.rest));
        self.rest = last;
        Words::new(before)
    }

    /// Returns the number of the next word.
    pub fn number(&mut self) -> Result<u32, Unread> {
        number(self.word())
    }

    /// Returns the position that the next word names.
    pub fn position(&mut self) -> Result<u32, Unread> {
        position(self.word())
    }

    /// Returns the type or the constant that the next word names.
    pub fn term(&mut self) -> Result<TermCall, Unread> {
        let word = self.word();
        match word.strip_prefix("#") {
            Some(digits) => Ok(TermCall::Const(number(digits)?)),
            None => Ok(TermCall::Ty(position(word)?)),
        }
    }

    /// Returns the index that the next word says, such as a binder's.
    pub fn index<S>(&mut self) -> Result<Index<S>, Unread> {
        index(self.word())
    }
}

/// Returns the word's number.
pub fn number(word: &str) -> Result<u32, Unread> {
    word.parse::<u32>().map_err(|_| Unread::Unknown)
}

/// Returns the index of the word's number.
pub fn index<S>(word: &str) -> Result<Index<S>, Unread> {
    let value = number(word)?;
    if Index::<S>::fits(value) {
        Ok(Index::from_u32(value))
    } else {
        Err(Unread::Unknown)
    }
}

/// Returns the position that a word such as `%1` or `#1` names.
pub fn position(word: &str) -> Result<u32, Unread> {
    match word.strip_prefix("%") {
        Some(digits) => number(digits),
        None => number(word.strip_prefix("#").ok_or(Unread::Unknown)?),
    }
}
