//! Scripts, with one call on each line.

use crate::run::runner::answer_next;
use bstr::ByteSlice;
use std::alloc::{AllocError, Global};
use std::io::{ErrorKind, Read, Write};
use std::mem;
use tt_calls::script::print::print_answer;
pub use tt_calls::script::{fault, line};
use tt_calls::{Answer, Fault, parse_line};
use tt_interner::Interner;

/// Runs a script: reads `input` to its end, runs the calls on a new interner, and then writes a line for each answer to
/// `output`.
pub fn run_script<R: Read + Drop, W: Write + Drop>(
    alloc: Global,
    mut input: R,
    mut output: W,
) -> Result<(), Fault> {
    match answer_script(alloc, &mut input) {
        Ok(lines) => write_text(&mut output, lines.as_bytes()),
        Err(Fault::Memory) => {
            write_text(&mut output, b"run refused Memory\n")?;
            Err(Fault::Memory)
        }
        Err(fault) => Err(fault),
    }
}

// Returns the lines that answer the script.
fn answer_script<R: Read>(alloc: Global, input: &mut R) -> Result<String, Fault> {
    let pieces = read_script(alloc, input)?;
    let mut cx = Interner::new(alloc).map_err(|_| Fault::Memory)?;
    let answers = answer_lines(&mut cx, pieces);
    drop(cx);
    Ok(print_answers(alloc, answers?.as_slice())?)
}

// The approximate number of bytes of an answer's line.
const LINE: usize = 12;

// The number of bytes that are read at once.
const BLOCK: usize = 65536;

// Once a piece of the script has this many bytes, it ends with the last line that the next block ends.
const PIECE: usize = 2 * BLOCK;

// Returns the input up to its end, in pieces of whole lines, so that each piece can be freed once its calls are
// answered.
fn read_script<R: Read>(alloc: Global, input: &mut R) -> Result<Vec<Vec<u8>>, Fault> {
    let mut pieces = Vec::new(alloc);
    let mut piece = Vec::new(alloc);
    let mut block = vec![in alloc; 0; BLOCK]?;
    for _ in 0..u32::MAX {
        match input.read(block.as_mut_slice()) {
            Ok(0) => {
                pieces.push(piece).map_err(AllocError::from)?;
                return Ok(pieces);
            }
            Ok(count) => keep_block(&mut pieces, &mut piece, &block[..count])?,
            Err(error) => {
                if error.kind() != ErrorKind::Interrupted {
                    return Err(Fault::Input);
                }
            }
        }
    }
    Err(Fault::Input)
}

// Adds a block to the piece. If the piece is long, it ends with the last line that the block ends, and the rest begins
// a new piece.
fn keep_block(
    pieces: &mut Vec<Vec<u8>>,
    piece: &mut Vec<u8>,
    block: &[u8],
) -> Result<(), AllocError> {
    let mut rest = block;
    if piece.len() >= PIECE {
        if let Some(end) = block.rfind_byte(b'\n') {
            piece.extend_from_slice(&block[..=end])?;
            let next = Vec::new(*piece.allocator());
            pieces.push(mem::replace(piece, next))?;
            rest = &block[end + 1..];
        }
    }
    piece.extend_from_slice(rest)
}

// Returns the answers to the calls of the lines. Each call is answered as soon as it is read, so no call is kept.
fn answer_lines(cx: &mut Interner, pieces: Vec<Vec<u8>>) -> Result<Vec<Answer>, Fault> {
    let alloc = cx.allocator();
    let mut answers = Vec::new(alloc);
    for piece in pieces {
        for line in piece.as_slice().lines() {
            if let Some(call) = parse_line(alloc, line)? {
                answer_next(cx, &mut answers, &call).map_err(|_| Fault::Memory)?;
            }
        }
    }
    Ok(answers)
}

// Returns a line for each answer.
fn print_answers(alloc: Global, answers: &[Answer]) -> Result<String, AllocError> {
    let mut lines = String::with_capacity(alloc, answers.len().saturating_mul(LINE))?;
    for (index, answer) in answers.iter().enumerate() {
        print_answer(&mut lines, index + 1, answer)?;
    }
    Ok(lines)
}

// Writes all of the text.
fn write_text<W: Write>(output: &mut W, text: &[u8]) -> Result<(), Fault> {
    output.write_all(text).map_err(|_| Fault::Output)?;
    output.flush().map_err(|_| Fault::Output)
}
