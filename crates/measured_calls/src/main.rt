//! Makes the calls, or makes the two types equal, that each line of standard input asks for, and prints what came out.
//! `bin/bench-calls` and `bin/bench-unify` measure it.
//!
//! A line is `CALL SIZE ROWS TIMES`, as the module `calls` says, or `pairs N`, `chain N` or `links N`, where N is the
//! number of levels.
#![tactic(auto)]

mod calls;
mod unification;

use anyhow::{Context, Result, anyhow};
use calls::{Asked, sum_anew};
use std::alloc::Global;
use std::io::{Read, Write};
use unification::{Workload, outcome_anew};

fn main(rt: HostRuntime) -> Result<()> {
    run(rt.alloc(), rt.stdin(), rt.stdout())
}

// Reads the lines to the end of the input, and writes the answer to each.
fn run<R: Read + Drop, W: Write + Drop>(alloc: Global, mut input: R, mut output: W) -> Result<()> {
    let mut text = String::new(alloc);
    let _count = input.read_to_string(&mut text)?;
    for line in text.lines() {
        let printed = answer(alloc, line)?;
        output.write_all(printed.as_bytes())?;
    }
    output.flush()?;
    Ok(())
}

// Returns what is printed for the line.
fn answer(alloc: Global, line: &str) -> Result<String> {
    match Workload::of(line) {
        Some(workload) => made_equal(alloc, line, workload),
        None => {
            let asked = Asked::of(line).context(
                "a line is `pairs N`, `chain N`, `links N` or `CALL SIZE ROWS TIMES`",
            )?;
            called(alloc, line, asked)
        }
    }
}

// Makes the calls of the line, and returns what is printed for it.
fn called(alloc: Global, line: &str, asked: Asked) -> Result<String> {
    match sum_anew(alloc, asked) {
        Ok(sum) => Ok(format!(in alloc; "{line}: {sum}\n")?),
        Err(refusal) => Err(anyhow!("{line}: {refusal:?}")),
    }
}

// Makes the types of the line equal, and returns what is printed for it.
fn made_equal(alloc: Global, line: &str, workload: Workload) -> Result<String> {
    match outcome_anew(alloc, workload) {
        Ok(outcome) => {
            let types = outcome.types;
            let count = if outcome.is_one { "one" } else { "two" };
            Ok(format!(in alloc; "{line}: {types} types, {count} when resolved\n")?)
        }
        Err(fault) => Err(anyhow!("{line}: {fault:?}")),
    }
}
