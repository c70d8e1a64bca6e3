//! The reading of steps.

use crate::routines::Routine;
use crate::steps::{Change, Container, Derivation, Step};
use case_lines::arguments::{arguments, positions};
use case_lines::declarations::declaration;
use case_lines::predicates::predicate;
use case_lines::terms::{constant, pattern, ty};
use case_lines::words::{Unread, Words};
use std::alloc::Global;
use type_terms::{Call, Refusal, parse_line};

/// Returns the step of a line. It is a line of a script, or begins with a word of its own. What isn't a step is a bad
/// line.
pub fn read_step(alloc: Global, line: &str) -> Result<Step, Refusal> {
    match step(alloc, line) {
        Ok(step) => Ok(step),
        Err(Unread::Memory) => Err(Refusal::Memory),
        Err(Unread::Unknown) => {
            let call = parse_line(alloc, line.as_bytes())?;
            Ok(Step::Call(call.unwrap_or(Call::Bad)))
        }
    }
}

// Returns the step of a line that scripts don't know.
fn step(alloc: Global, line: &str) -> Result<Step, Unread> {
    let mut words = Words::new(line);
    match words.word() {
        "holds" => {
            let routine = Routine::of(words.word()).ok_or(Unread::Unknown)?;
            Ok(Step::Holds(routine))
        }
        "in" => {
            let container = Container::of(words.word()).ok_or(Unread::Unknown)?;
            let change = change(&mut words)?;
            Ok(Step::Changed(container, change, positions(alloc, &words)?))
        }
        "define" => {
            let position = words.position()?;
            Ok(Step::Defined(position, String::from_str(alloc, words.rest())?))
        }
        first => match derivation(first, &mut words)? {
            Some(derivation) => Ok(Step::Derived(derivation)),
            None => Ok(Step::Call(call(alloc, first, &mut words)?)),
        },
    }
}

// Returns what the words want of a type, if this first word says that.
fn derivation(first: &str, words: &mut Words) -> Result<Option<Derivation>, Unread> {
    let derivation = match first {
        "fn_sig" => Derivation::Signature(words.position()?),
        "fields" => Derivation::Fields(words.position()?),
        "opened" => Derivation::Opened(words.position()?, words.position()?),
        "with_self" => Derivation::WithSelf(words.position()?, words.position()?),
        "trait_args" => Derivation::TraitArgs(words.position()?),
        "own_args" => Derivation::OwnArgs(words.position()?),
        _ => return Ok(None),
    };
    Ok(Some(derivation))
}

// Returns the call of this first word, which scripts don't know, and the further words.
fn call(alloc: Global, first: &str, words: &mut Words) -> Result<Call, Unread> {
    match first {
        "declare" => declaration(alloc, words),
        "const" => constant(alloc, words),
        "pattern" => pattern(alloc, words),
        "predicate" => predicate(alloc, words),
        "clauses" => Ok(Call::Clauses(positions(alloc, words)?)),
        "args" => Ok(Call::Args(arguments(alloc, words)?)),
        "instantiate" => {
            let position = words.position()?;
            Ok(Call::Instantiate(position, arguments(alloc, words)?))
        }
        _ => Ok(Call::Ty(ty(alloc, first, words)?)),
    }
}

// Returns the change that the next words name.
fn change(words: &mut Words) -> Result<Change, Unread> {
    match words.word() {
        "shift" => Ok(Change::Shift(words.number()?)),
        "inst" => Ok(Change::Instantiate(words.position()?)),
        "erase" => Ok(Change::EraseRegions),
        "replace" => Ok(Change::Replace(words.position()?, words.position()?)),
        _ => Err(Unread::Unknown),
    }
}
