//! Checking sources.

use crate::failure::Failure;
use crate::programs::{check, mistakes, variables};
use crate::wording::report_of;
use checker_syntax::message::Message;
use checker_syntax::program::Program;
use checker_syntax::read_leniently;
use checker_syntax::syntax_error::SyntaxError;
use reports::{Extent, Report};
use std::alloc::{AllocError, Global};
use std::io;
use std::io::{Read, Write};
use tt_interner::Interner;

/// The verdict on a program.
#[derive(Debug, Drop)]
pub enum Verdict {
    /// The program is accepted. The text has a line for each variable: the place of its `let`, and its type.
    Accepted(String),
    /// The program is wrong, as the reports say. A function's body has one report at most. Reports about what is
    /// written come first, then those about types.
    Wrong(Vec<Report>),
    /// The program wasn't checked to its end, for this reason.
    GivenUp(Failure),
}

/// Reads the source of a program, and checks it.
pub fn verdict_of(alloc: Global, source: &str) -> Verdict {
    match verdict_or_failure(alloc, source) {
        Ok(verdict) => verdict,
        Err(failure) => Verdict::GivenUp(failure),
    }
}

// Returns the verdict on the program of the source.
fn verdict_or_failure(alloc: Global, source: &str) -> Result<Verdict, Failure> {
    let mut messages = Vec::new(alloc);
    match read_leniently(alloc, source, &mut messages) {
        Ok(program) => {
            let mut cx = Interner::new(alloc)?;
            let found = checked(&mut cx, &program, messages);
            drop(cx);
            found
        }
        Err(SyntaxError::Wrong(message)) => {
            messages.push(message)?;
            Ok(Verdict::Wrong(plain_reports(alloc, messages)?))
        }
        Err(SyntaxError::Memory) => Err(Failure::from(AllocError)),
    }
}

// Returns the messages about what is written, which have no notes.
fn plain_reports(alloc: Global, messages: Vec<Message>) -> Result<Vec<Report>, AllocError> {
    let mut reports = Vec::new(alloc);
    for message in messages {
        reports.push(Report {
            message,
            extent: Extent::Token,
            notes: Vec::new(alloc),
        })?;
    }
    Ok(reports)
}

// Returns the verdict on the program, of which the messages were read.
fn checked(
    cx: &mut Interner,
    program: &Program,
    messages: Vec<Message>,
) -> Result<Verdict, Failure> {
    if messages.is_empty() {
        match check(cx, program) {
            Ok(checked) => {
                let lines = variables(cx, program, checked.bodies.as_slice())?;
                return Ok(Verdict::Accepted(lines));
            }
            Err(Failure::Wrong(_)) => {}
            Err(failure) => return Err(failure),
        }
    }
    let mut reports = plain_reports(cx.allocator(), messages)?;
    for mistake in mistakes(cx, program)? {
        reports.push(report_of(cx, program, &mistake)?)?;
    }
    if reports.is_empty() {
        return Err(Failure::Unverified);
    }
    Ok(Verdict::Wrong(reports))
}

/// Reads a program from the input, writes the verdict to the output, and returns whether the program is accepted. An
/// input that isn't UTF-8 isn't checked, as the output then says.
pub fn run<R: Read + Drop, W: Write + Drop>(
    alloc: Global,
    input: R,
    mut output: W,
) -> io::Result<bool> {
    let source = match io::read_to_string(alloc, input) {
        Ok(source) => source,
        Err(error) => {
            if error.kind() != io::ErrorKind::InvalidData {
                return Err(error);
            }
            output.write_all(b"not checked: the input isn't UTF-8\n")?;
            output.flush()?;
            return Ok(false);
        }
    };
    let is_accepted = match verdict_of(alloc, source.as_str()) {
        Verdict::Accepted(lines) => {
            output.write_all(lines.as_bytes())?;
            output.write_all(b"accepted\n")?;
            true
        }
        Verdict::Wrong(reports) => {
            for report in reports.iter() {
                writeln!(output, "{}", report.message)?;
            }
            false
        }
        Verdict::GivenUp(failure) => {
            writeln!(output, "not checked: {failure}")?;
            false
        }
    };
    output.flush()?;
    Ok(is_accepted)
}
