//! Answers the goals of a text from a file or from the input.
#![tactic(auto)]

mod command_line;

use clap::ArgMatches;
use command_line::command;
use reports::{View, rendered};
use solver_programs::{LIMITS, Verdict, Wishes, verdict_of};
use std::io::{self, IsTerminal};
use std::process::ExitCode;
use std::{env, fs};

// The exit status where not all goals were answered.
const NOT_ANSWERED: u8 = 2;

fn main(rt: HostRuntime) -> ExitCode {
    match run(&rt) {
        Ok(code) => code,
        Err(error) => {
            let _ = eprintln!(rt; "solver: {error}");
            ExitCode::from(NOT_ANSWERED)
        }
    }
}

// Reads the command line, and does what it asks for.
fn run(rt: &HostRuntime) -> io::Result<ExitCode> {
    let alloc = rt.alloc();
    let words: Vec<String> = env::args(rt)?.collect(alloc)?;
    match command(alloc)?.try_get_matches_from(words.as_slice()) {
        Ok(matches) => started(rt, &matches),
        Err(error) => {
            error.print(rt)?;
            Ok(if error.use_stderr() {
                ExitCode::from(NOT_ANSWERED)
            } else {
                ExitCode::SUCCESS
            })
        }
    }
}

// Reads the text from the file or from the input, and answers its goals.
fn started(rt: &HostRuntime, matches: &ArgMatches) -> io::Result<ExitCode> {
    let path = matches.get_str("file").unwrap_or("-");
    let (called, source) = if path == "-" {
        ("<stdin>", io::read_to_string(rt.alloc(), rt.stdin()))
    } else {
        (path, fs::read_to_string(rt, path))
    };
    let name = matches.get_str("name").unwrap_or(called);
    let wishes = Wishes {
        name,
        limits: LIMITS,
        has_reasons: matches.get_flag("why"),
        has_overlaps: matches.get_flag("overlap"),
    };
    match source {
        Ok(source) => answered(rt, source.as_str(), wishes),
        Err(error) => {
            eprintln!(rt; "solver: {called}: {error}")?;
            Ok(ExitCode::from(NOT_ANSWERED))
        }
    }
}

// Answers the goals, and prints the answers or what is wrong.
fn answered(rt: &HostRuntime, source: &str, wishes: Wishes<'_>) -> io::Result<ExitCode> {
    let name = wishes.name;
    match verdict_of(rt.alloc(), source, wishes) {
        Verdict::Answers(lines) => {
            print!(rt; "{lines}")?;
            Ok(ExitCode::SUCCESS)
        }
        Verdict::Wrong(report) => {
            let view = View {
                name,
                source,
                is_coloured: rt.stdout().is_terminal() && env::var(rt, "NO_COLOR").is_err(),
            };
            let text = rendered(rt.alloc(), view, &[report])?;
            print!(rt; "{text}")?;
            Ok(ExitCode::FAILURE)
        }
        Verdict::GivenUp(failure) => {
            eprintln!(rt; "solver: {name}: not answered: {failure}")?;
            Ok(ExitCode::from(NOT_ANSWERED))
        }
    }
}
