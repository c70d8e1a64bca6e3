//! Lines of scripts.

ghost use Rattle.std.specs.Prelude.{◌≤◌, IfOk};

use crate::call::{ArgCall, Call, Positions};
use crate::script::number::parse_number;
use crate::script::regions::parse_region;
use crate::script::types::parse_ty;
use crate::script::words::Words;
use smallvec::SmallVec;
use std::alloc::{AllocError, AllocFailed, Global};

/// Why no call could be read from a line.
#[derive(Clone, Copy, Debug, PartialEq, Eq)]
pub enum LineError {
    /// The line is not a call.
    Bad,
    /// Memory was refused.
    Memory,
}

impl From<AllocError> for LineError {
    fn from(_: AllocError) -> LineError {
        LineError::Memory
    }
}

impl<T: Drop> From<AllocFailed<T>> for LineError {
    fn from(_: AllocFailed<T>) -> LineError {
        LineError::Memory
    }
}

/// Returns the call on a line, which is given without its line feed. A line without words gives `None` and isn't
/// counted, and a line that is not a call gives [`Call::Bad`].
pub fn parse_line(alloc: Global, line: &[u8]) -> Result<Option<Call>, AllocError> {
    let mut words = Words::new(line);
    let Some(first) = words.next_word() else {
        return Ok(None);
    };
    let call = match parse_call(alloc, first, &mut words) {
        Ok(call) => call,
        Err(LineError::Bad) => Call::Bad,
        Err(LineError::Memory) => return Err(AllocError),
    };
    Ok(Some(call))
}

// Returns the call of this first word and the further words of its line.
fn parse_call(alloc: Global, first: &[u8], words: &mut Words) -> Result<Call, LineError> {
    let call = match first {
        b"shift" => Call::Shift(position(words)?, number(words, u32::MAX)?),
        b"inst" => Call::Instantiate(position(words)?, arguments(alloc, words)?),
        b"erase" => Call::EraseRegions(position(words)?),
        b"equal" => Call::Equal(position(words)?, position(words)?),
        b"info" => Call::Info(position(words)?),
        _ => Call::Ty(parse_ty(alloc, first, words)?),
    };
    match words.next_word() {
        Some(_) => {
            // An explicit drop: with an implicit one, the memory for the call's parts would be cleared at each line.
            drop(call);
            Err(LineError::Bad)
        }
        None => Ok(call),
    }
}

/// Reads the next word as a number, which may be at most `limit`.
pub fn number(words: &mut Words, limit: u32) -> Result<u32, LineError>
    ensures { IfOk result (λ n. n ≤ limit) }
{
    let word = words.next_word().ok_or(LineError::Bad)?;
    parse_number(word, limit).ok_or(LineError::Bad)
}

/// Reads the next word as a position.
#[inline(always)]
pub fn position(words: &mut Words) -> Result<u32, LineError> {
    parse_position(words.next_word().ok_or(LineError::Bad)?)
}

/// Reads all further words as positions.
#[inline(always)]
pub fn positions(alloc: Global, words: &mut Words) -> Result<Positions, LineError> {
    let mut positions = SmallVec::new(alloc);
    while let Some(word) = words.next_word() {
        positions.push(parse_position(word)?)?;
    }
    Ok(positions)
}

// Returns the position that a word names, such as `%1`.
fn parse_position(word: &[u8]) -> Result<u32, LineError> {
    let digits = word.strip_prefix(b"%").ok_or(LineError::Bad)?;
    parse_number(digits, u32::MAX).ok_or(LineError::Bad)
}

// Reads all further words as arguments.
fn arguments(alloc: Global, words: &mut Words) -> Result<Vec<ArgCall>, LineError> {
    let mut arguments = Vec::new(alloc);
    while let Some(word) = words.next_word() {
        arguments.push(parse_argument(alloc, word)?)?;
    }
    Ok(arguments)
}

// Returns the argument that a word names: a position or a region.
fn parse_argument(alloc: Global, word: &[u8]) -> Result<ArgCall, LineError> {
    match word {
        [b'%', ..] => Ok(ArgCall::Type(parse_position(word)?)),
        _ => Ok(ArgCall::Lifetime(parse_region(alloc, word)?)),
    }
}
