//! Words for generic arguments and positions.

use crate::regions::region;
use crate::words::{Unread, Words, number, position};
use smallvec::SmallVec;
use std::alloc::Global;
use tt_calls::{ArgCall, Positions};

/// Returns the arguments of all further words: `%N` is a type, `#N` a constant, and each other word a region.
pub fn arguments(alloc: Global, words: &Words) -> Result<Vec<ArgCall>, Unread> {
    let mut arguments = Vec::new(alloc);
    for word in words.rest().split(" ") {
        if !word.is_empty() {
            arguments.push(argument(alloc, word)?)?;
        }
    }
    Ok(arguments)
}

// Returns the argument of a word.
fn argument(alloc: Global, word: &str) -> Result<ArgCall, Unread> {
    if word.starts_with("%") {
        return Ok(ArgCall::Type(position(word)?));
    }
    match word.strip_prefix("#") {
        Some(digits) => Ok(ArgCall::Const(number(digits)?)),
        None => Ok(ArgCall::Lifetime(region(alloc, word)?)),
    }
}

/// Returns the positions of all further words.
pub fn positions(alloc: Global, words: &Words) -> Result<Positions, Unread> {
    let mut positions = SmallVec::new(alloc);
    for word in words.rest().split(" ") {
        if !word.is_empty() {
            positions.push(position(word)?)?;
        }
    }
    Ok(positions)
}
