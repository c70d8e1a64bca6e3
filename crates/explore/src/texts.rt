//! The texts of types, flags and answers.
//!
//! A type can have far more parts than rows: each `tuple %1 %1` doubles them. So a long text is cut to the type's own parts,
//! by the numbers of the lines that made them.

use crate::rows::{Form, Row};
use std::alloc::{AllocError, Global};
use tt_calls::script::print::print_answer;
use type_terms::Answer;

/// The most names and marks in the text of a line's type, and in the text of a node of a picture.
pub const MOST_IN_LINE: usize = 60;

pub const MOST_IN_NODE: usize = 11;

// The most names and marks in a text that is cut.
const CUT: usize = 16;

// What is still to be written of a text.
#[derive(Clone, Copy)]
enum Piece {
    Row(usize),
    Mark(&'static str),
}

// The flags that a line can set, as docs/SCRIPT.md names them.
const FLAGS: [(u32, &str); 14] = [
    (0x1, "TY_PARAM"),
    (0x2, "RE_PARAM"),
    (0x8, "TY_INFER"),
    (0x10, "RE_INFER"),
    (0x40, "TY_PLACEHOLDER"),
    (0x200, "FREE_LOCAL_REGIONS"),
    (0x8000, "NON_REGION_ERROR"),
    (0x1_0000, "RE_ERROR"),
    (0x2_0000, "FREE_REGIONS"),
    (0x4_0000, "RE_BOUND"),
    (0x8_0000, "TY_BOUND"),
    (0x20_0000, "RE_ERASED"),
    (0x100_0000, "BINDER_VARS"),
    (0x400_0000, "CANONICAL_BOUND"),
];

/// Returns the text of a row: the whole one if it has at most so many names and marks.
pub fn text_of(
    alloc: Global,
    rows: &[Row],
    answers: &[Answer],
    row: usize,
    most: usize,
) -> Result<String, AllocError> {
    match whole_text(alloc, rows, row, most)? {
        Some(text) => Ok(text),
        None => cut_text(alloc, rows, answers, row),
    }
}

// Returns the whole text of a row, if it has at most so many names and marks.
fn whole_text(
    alloc: Global,
    rows: &[Row],
    row: usize,
    most: usize,
) -> Result<Option<String>, AllocError> {
    let mut text = String::new(alloc);
    let mut pieces = Vec::new(alloc);
    pieces.push(Piece::Row(row))?;
    for _ in 0..most {
        match pieces.pop() {
            None => return Ok(Some(text)),
            Some(Piece::Mark(mark)) => text.push_str(mark)?,
            Some(Piece::Row(row)) => {
                if let Some(row) = rows.get(row) {
                    begin(&mut text, &mut pieces, row)?;
                }
            }
        }
    }
    Ok(if pieces.is_empty() { Some(text) } else { None })
}

// Returns the text of a row with its parts by their lines, or `..` where no line made them.
fn cut_text(
    alloc: Global,
    rows: &[Row],
    answers: &[Answer],
    row: usize,
) -> Result<String, AllocError> {
    let mut text = String::new(alloc);
    let mut pieces = Vec::new(alloc);
    if let Some(row) = rows.get(row) {
        begin(&mut text, &mut pieces, row)?;
    }
    for (count, piece) in pieces.iter().rev().enumerate() {
        if count >= CUT {
            text.push_str("..")?;
            break;
        }
        match *piece {
            Piece::Mark(mark) => text.push_str(mark)?,
            Piece::Row(part) => match line_of(answers, part) {
                Some(line) => write!(text, "%{line}")?,
                None => text.push_str("..")?,
            },
        }
    }
    Ok(text)
}

// Writes the beginning of a row's text, and notes its rest, the last piece first.
fn begin(text: &mut String, pieces: &mut Vec<Piece>, row: &Row) -> Result<(), AllocError> {
    text.push_str(row.opening.as_str())?;
    let parts = row.parts.as_slice();
    match row.form {
        Form::Leaf => Ok(()),
        Form::Prefix => note(pieces, parts, ""),
        Form::Slice => note(pieces, parts, "]"),
        Form::Tuple if parts.len() == 1 => note(pieces, parts, ",)"),
        Form::Tuple => note(pieces, parts, ")"),
        Form::Function => match parts.split_last() {
            None => Ok(()),
            Some((output, inputs)) => {
                pieces.push(Piece::Row(*output))?;
                note(pieces, inputs, ") -> ")
            }
        },
    }
}

// Notes parts and what ends them.
fn note(pieces: &mut Vec<Piece>, parts: &[usize], ending: &'static str) -> Result<(), AllocError> {
    pieces.push(Piece::Mark(ending))?;
    let mut is_last = true;
    for part in parts.iter().rev() {
        if !is_last {
            pieces.push(Piece::Mark(", "))?;
        }
        pieces.push(Piece::Row(*part))?;
        is_last = false;
    }
    Ok(())
}

/// Returns the row of the type that is the answer of this line, if the answer is a type.
pub fn row_of(answers: &[Answer], line: usize) -> Option<usize> {
    match answers.get(line.checked_sub(1)?)? {
        Answer::Ty(ty) => Some(ty.number() as usize),
        _ => None,
    }
}

/// Returns the number of the first line whose answer is this row.
pub fn line_of(answers: &[Answer], row: usize) -> Option<usize> {
    for (count, answer) in answers.iter().enumerate() {
        if let Answer::Ty(ty) = answer {
            if ty.number() as usize == row {
                return Some(count.saturating_add(1));
            }
        }
    }
    None
}

/// Returns what the last line made.
pub fn made_text(alloc: Global, rows: &[Row], answers: &[Answer]) -> Result<String, AllocError> {
    let Some(answer) = answers.last() else {
        return Ok(String::new(alloc));
    };
    match answer {
        Answer::Ty(ty) => {
            let row = ty.number() as usize;
            let mut text = text_of(alloc, rows, answers, row, MOST_IN_LINE)?;
            if let Some(line) = line_of(answers, row) {
                if line < answers.len() {
                    write!(text, "  (the same as %{line})")?;
                }
            }
            Ok(text)
        }
        Answer::Info { flags, outer } => {
            let names = flags_text(alloc, flags.bits())?;
            let outer = outer.as_u32();
            format!(in alloc; "flags {names}, outer {outer}")
        }
        _ => {
            // The words are those of a script's answer.
            let mut line = String::new(alloc);
            print_answer(&mut line, 1, answer)?;
            let words = line.as_str().trim_end().trim_start_matches("1: ");
            match answer {
                Answer::Refused(refusal) => format!(in alloc; "{words}: {refusal}"),
                _ => String::from_str(alloc, words),
            }
        }
    }
}

// Returns the names of flags, or `none`.
fn flags_text(alloc: Global, flags: u32) -> Result<String, AllocError> {
    let mut text = String::new(alloc);
    for (bit, name) in FLAGS.iter() {
        if flags & *bit != 0 {
            if !text.is_empty() {
                text.push(' ')?;
            }
            text.push_str(*name)?;
        }
    }
    if text.is_empty() {
        text.push_str("none")?;
    }
    Ok(text)
}

/// Returns what `show` prints of a row.
pub fn shown_text(
    alloc: Global,
    rows: &[Row],
    answers: &[Answer],
    row: usize,
) -> Result<String, AllocError> {
    let mut text = String::new(alloc);
    let Some(found) = rows.get(row) else {
        return Ok(text);
    };
    let whole = text_of(alloc, rows, answers, row, MOST_IN_LINE)?;
    let flags = flags_text(alloc, found.flags)?;
    let outer = found.outer;
    let meaning = if outer == 0 {
        "no variable escapes"
    } else {
        "a variable escapes by so many binders"
    };
    writeln!(text, "    text   {whole}")?;
    writeln!(text, "    flags  {flags}")?;
    writeln!(text, "    outer  {outer}: {meaning}")?;
    text.push_str("    parts  ")?;
    if found.parts.is_empty() {
        text.push_str("none")?;
    }
    for (place, part) in found.parts.iter().enumerate() {
        if place > 0 {
            text.push_str(", ")?;
        }
        let words = text_of(alloc, rows, answers, *part, MOST_IN_NODE)?;
        text.push_str(words.as_str())?;
        if let Some(line) = line_of(answers, *part) {
            write!(text, " (%{line})")?;
        }
    }
    text.push('\n')?;
    Ok(text)
}
