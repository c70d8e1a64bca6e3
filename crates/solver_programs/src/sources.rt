//! Answers to the goals of a source.

use crate::answers::{Wishes, answers_of};
use crate::failure::Failure;
use checker_syntax::message::Message;
use checker_syntax::syntax_error::SyntaxError;
use reports::{Extent, Report, View, rendered};
use solver::Limits;
use solver_syntax::read;
use std::alloc::{AllocError, Global};
use std::io;
use std::io::{Read, Write};
use tt_interner::Interner;

/// How far a search goes where nothing else is said.
pub const LIMITS: Limits = Limits {
    depth: 64,
    steps: 10_000,
};

/// What is said of a source.
#[derive(Debug, Drop)]
pub enum Verdict {
    /// A line for each goal: its place, and its answer.
    Answers(String),
    /// The source is wrong, as the report says.
    Wrong(Report),
    /// Not all goals were answered, for this reason.
    GivenUp(Failure),
}

/// Reads a source, and answers its goals.
pub fn verdict_of(alloc: Global, source: &str, wishes: Wishes<'_>) -> Verdict {
    match verdict_or_failure(alloc, source, wishes) {
        Ok(verdict) => verdict,
        Err(failure) => Verdict::GivenUp(failure),
    }
}

// Returns what is said of the source.
fn verdict_or_failure(alloc: Global, source: &str, wishes: Wishes<'_>) -> Result<Verdict, Failure> {
    match read(alloc, source) {
        Ok(script) => {
            let mut cx = Interner::new(alloc)?;
            let answers = answers_of(&mut cx, &script, wishes);
            drop(cx);
            Ok(Verdict::Answers(answers?))
        }
        Err(SyntaxError::Wrong(message)) => Ok(Verdict::Wrong(report_of(alloc, message))),
        Err(SyntaxError::Memory) => Err(Failure::from(AllocError)),
    }
}

// Returns the message as a report without notes.
fn report_of(alloc: Global, message: Message) -> Report {
    Report {
        message,
        extent: Extent::Token,
        notes: Vec::new(alloc),
    }
}

/// Reads a source from the input, and writes the answers with their reasons to the output, or what is wrong, as the
/// program with `--why` does, and with `--overlap` too if overlaps are asked for. Returns whether all goals were answered.
pub fn run<R: Read + Drop, W: Write + Drop>(
    alloc: Global,
    input: R,
    mut output: W,
    has_overlaps: bool,
) -> io::Result<bool> {
    let source = io::read_to_string(alloc, input)?;
    let wishes = Wishes {
        name: "<stdin>",
        limits: LIMITS,
        has_reasons: true,
        has_overlaps,
    };
    let is_answered = match verdict_of(alloc, source.as_str(), wishes) {
        Verdict::Answers(lines) => {
            output.write_all(lines.as_bytes())?;
            true
        }
        Verdict::Wrong(report) => {
            let view = View {
                name: wishes.name,
                source: source.as_str(),
                is_coloured: false,
            };
            let text = rendered(alloc, view, &[report])?;
            output.write_all(text.as_bytes())?;
            false
        }
        Verdict::GivenUp(failure) => {
            writeln!(output, "not answered: {failure}")?;
            false
        }
    };
    output.flush()?;
    Ok(is_answered)
}
