//! What is wrong with a line, and what was meant.

use crate::words::{Name, Word, is_named};
use std::alloc::{AllocError, AllocFailed, Global};
use strsim::osa_distance;
use type_terms::{Call, parse_line};

/// What is wrong with a line, and where, in characters.
#[derive(Drop)]
pub struct Complaint {
    pub column: usize,
    pub width: usize,
    pub text: String,
}

/// Why a line asks for nothing.
#[derive(Drop)]
pub enum Unread {
    Wrong(Complaint),
    Memory,
}

impl From<AllocError> for Unread {
    fn from(_: AllocError) -> Unread {
        Unread::Memory
    }
}

impl<T: Drop> From<AllocFailed<T>> for Unread {
    fn from(_: AllocFailed<T>) -> Unread {
        Unread::Memory
    }
}

impl Complaint {
    /// Returns the complaint about this word.
    pub fn at(word: &Word, text: String) -> Complaint {
        Complaint {
            column: word.column,
            width: word.text.chars().count(),
            text,
        }
    }
}

// A right line for each first word. The library reads it with a word replaced, which tells whether that word is wrong.
const LINES: [&str; 40] = [
    "bool",
    "char",
    "str",
    "never",
    "i8",
    "i16",
    "i32",
    "i64",
    "i128",
    "isize",
    "u8",
    "u16",
    "u32",
    "u64",
    "u128",
    "usize",
    "param 0",
    "infer 0",
    "error 0",
    "bound 0 0",
    "cbound 0",
    "placeholder 0 0",
    "ref 'static %1",
    "refmut 'static %1",
    "ptr %1",
    "ptrmut %1",
    "slice %1",
    "tuple %1 %2",
    "fn 0 %1 %2",
    "shift %1 1",
    "inst %1 %2",
    "erase %1",
    "equal %1 %2",
    "info %1",
    "show %1",
    "rows",
    "svg %1",
    "dot %1",
    "help",
    "quit",
];

// The longest word whose neighbours are looked for.
const LONGEST: usize = 24;

/// Returns what is wrong with the words of a line, which begin with this one, and what was meant.
pub fn diagnosed(
    alloc: Global,
    names: &[Name],
    first: &Word,
    words: &[Word],
) -> Result<Complaint, AllocError> {
    let mut known = Vec::new(alloc);
    for line in LINES.iter() {
        let pattern: Vec<&str> = line.split(' ').collect(alloc)?;
        match pattern.first() {
            Some(word) if *word == first.text => {
                return misfit(alloc, names, pattern.as_slice(), words, line);
            }
            Some(word) => known.push(*word)?,
            None => {}
        }
    }
    let text = first.text;
    if text.contains('=') {
        let what = String::from_str(alloc, "spaces have to stand around a `=`")?;
        return Ok(Complaint::at(first, what));
    }
    let what = match nearest(alloc, text, known.as_slice())? {
        Some(other) => format!(in alloc; "no line begins with `{text}`: `{other}`?")?,
        None => format!(in alloc; "no line begins with `{text}`: `help` lists the words")?,
    };
    Ok(Complaint::at(first, what))
}

// Returns the complaint about words of which one doesn't fit the pattern, which is this line's, or which end too early.
fn misfit(
    alloc: Global,
    names: &[Name],
    pattern: &[&str],
    words: &[Word],
    line: &str,
) -> Result<Complaint, AllocError> {
    let mut end: usize = 0;
    for (place, word) in words.iter().enumerate() {
        let text = word.text;
        if place > 0 && !fits(alloc, pattern, place, text)? {
            let what = match meant(alloc, names, pattern, place, text)? {
                Some(other) => format!(in alloc; "`{text}` doesn't fit here: `{other}`?")?,
                None => format!(in alloc;
                    "`{text}` doesn't fit here: the line is written like `{line}`"
                )?,
            };
            return Ok(Complaint::at(word, what));
        }
        end = word
            .column
            .saturating_add(text.chars().count())
            .saturating_add(1);
    }
    let text = format!(in alloc; "the line ends too early: it is written like `{line}`")?;
    Ok(Complaint {
        column: end,
        width: 1,
        text,
    })
}

// Returns whether the word may stand at this place of the pattern. The terms of commands are looked up later.
fn fits(alloc: Global, pattern: &[&str], place: usize, word: &str) -> Result<bool, AllocError> {
    let place = match pattern.first().copied() {
        Some("show") => return Ok(place == 1),
        Some("svg" | "dot") => return Ok(true),
        Some("tuple" | "fn" | "inst") => place.min(pattern.len().saturating_sub(1)),
        _ => place,
    };
    let is_name = word.strip_prefix('%').is_some_and(is_named);
    let mut line = String::new(alloc);
    for (index, part) in pattern.iter().enumerate() {
        if index != place {
            line.push_str(part)?;
        } else if is_name {
            line.push_str("%1")?;
        } else {
            line.push_str(word)?;
        }
        line.push(' ')?;
    }
    match parse_line(alloc, line.as_bytes())? {
        Some(Call::Bad) => Ok(false),
        _ => Ok(place < pattern.len()),
    }
}

// Returns a word that was probably meant at this place of the pattern.
fn meant(
    alloc: Global,
    names: &[Name],
    pattern: &[&str],
    place: usize,
    word: &str,
) -> Result<Option<String>, AllocError> {
    let is_line = !is_named(word) || names.iter().any(|name| name.text.as_str() == word);
    for mark in ["%", "'", "'^"].iter() {
        let mark = *mark;
        let other = format!(in alloc; "{mark}{word}")?;
        if (mark != "%" || is_line) && fits(alloc, pattern, place, other.as_str())? {
            return Ok(Some(other));
        }
    }
    Ok(None)
}

/// Returns the word that the fewest edits make of this one, if they are few.
pub fn nearest<'a>(
    alloc: Global,
    word: &str,
    known: &[&'a str],
) -> Result<Option<&'a str>, AllocError> {
    let length = word.chars().count();
    let mut best = length.div_ceil(3).saturating_add(1).min(3);
    let mut found = None;
    if length <= LONGEST {
        for other in known.iter() {
            let edits = osa_distance(alloc, word, *other)?;
            if edits < best {
                best = edits;
                found = Some(*other);
            }
        }
    }
    Ok(found)
}

/// Returns the complaint as a message: the place, what is wrong, and the line with carets below the word.
pub fn message(
    alloc: Global,
    source: &str,
    number: u64,
    line: &str,
    complaint: &Complaint,
) -> Result<String, AllocError> {
    let what = complaint.text.as_str();
    let mut text = format!(in alloc; "{source}:{number}: {what}\n    ")?;
    for letter in line.trim_end().chars() {
        text.push(if letter == '\t' { ' ' } else { letter })?;
    }
    text.push_str("\n    ")?;
    for _ in 0..complaint.column {
        text.push(' ')?;
    }
    for _ in 0..complaint.width {
        text.push('^')?;
    }
    text.push('\n')?;
    Ok(text)
}
