//! Runs the cases on standard input, and prints the answers of each.
//!
//! A case asks the library something, and asks again if memory is refused. So the answers are the same whichever
//! request for memory is refused.
#![tactic(auto)]

mod answers;
mod attempt;
mod case;
mod containers;
mod definitions;
mod derived;
mod reader;
mod routines;
mod scripts;
mod steps;
mod tolerance;

use attempt::answer_case;
use case::Case;
use std::alloc::{AllocError, Global};
use std::io::{self, Read, Write};
use std::process::ExitCode;
use tolerance::Tolerance;

fn main(rt: HostRuntime) -> ExitCode {
    match run(rt.alloc(), rt.stdin(), rt.stdout()) {
        Ok(()) => ExitCode::SUCCESS,
        Err(_) => ExitCode::FAILURE,
    }
}

// Reads the cases to the end of the input, and writes the answers of each.
fn run<R: Read + Drop, W: Write + Drop>(
    alloc: Global,
    mut input: R,
    mut output: W,
) -> io::Result<()> {
    let mut text = String::new(alloc);
    let _count = input.read_to_string(&mut text)?;
    let mut tolerance = Tolerance::new();
    let cases = after_requests(alloc, text.as_str());
    for paragraph in cases.split("\n\n") {
        if let Some(case) = Case::of(paragraph) {
            match answer_case(alloc, case, &mut tolerance) {
                Ok(answers) => output.write_all(answers.as_bytes())?,
                Err(_) => {
                    output.write_all(case.name.as_bytes())?;
                    output.write_all(b"\nrefused\n")?;
                }
            }
        }
    }
    if cases.len() < text.len() {
        output.write_all(tolerance.word().as_bytes())?;
    }
    output.flush()
}

// Returns the cases after a first line `after N requests`, once memory was requested so often. It leaves the Nth
// request from now on to be the program's first.
fn after_requests(alloc: Global, text: &str) -> &str {
    let Some((count, cases)) = requests(text) else {
        return text;
    };
    for _ in 0..count {
        let _request = Box::new(alloc, 0u8);
    }
    cases
}

// Returns the number of a first line `after N requests`, and the text after the line.
fn requests(text: &str) -> Option<(u32, &str)> {
    let (first, rest) = text.split_once("\n")?;
    let count = first.strip_prefix("after ")?.strip_suffix(" requests")?;
    let count = count.parse::<u32>().ok()?;
    Some((count, rest))
}
