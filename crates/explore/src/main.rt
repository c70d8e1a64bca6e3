//! A program for people: it builds type terms from the lines of a script, and shows them.
//!
//! The calls of the library do what their contracts say. What is around them here, the reading of lines, texts and pictures, is
//! proved to be safe and to end, and nothing more.
#![tactic(auto)]

mod command_line;
mod complaint;
mod dot;
mod graph;
mod rows;
mod session;
mod svg;
mod talk;
mod texts;
mod words;

use clap::ArgMatches;
use command_line::command;
use std::io::{self, BufReader, IsTerminal};
use std::process::ExitCode;
use std::{env, fs};
use talk::{Manner, Wanted, converse};

fn main(rt: HostRuntime) -> ExitCode {
    match run(&rt) {
        Ok(code) => code,
        Err(error) => {
            let _ = eprintln!(rt; "explore: {error}");
            ExitCode::FAILURE
        }
    }
}

// Reads the command line, and does what it asks for.
fn run(rt: &HostRuntime) -> io::Result<ExitCode> {
    let alloc = rt.alloc();
    let words: Vec<String> = env::args(rt)?.collect(alloc)?;
    match command(alloc)?.try_get_matches_from(words.as_slice()) {
        Ok(matches) => started(rt, &matches),
        Err(error) => {
            error.print(rt)?;
            Ok(if error.use_stderr() {
                ExitCode::from(2)
            } else {
                ExitCode::SUCCESS
            })
        }
    }
}

// Reads the lines of the file or of the input.
fn started(rt: &HostRuntime, matches: &ArgMatches) -> io::Result<ExitCode> {
    let alloc = rt.alloc();
    let wanted = wanted_in(matches);
    let file = matches.get_str("file");
    let has_colours = env::var(rt, "NO_COLOR").is_err();
    let manner = Manner {
        source: file.unwrap_or("input"),
        is_prompting: file.is_none() && wanted.is_none() && rt.stdin().is_terminal(),
        is_coloured: has_colours && rt.stdout().is_terminal(),
        has_coloured_messages: has_colours && rt.stderr().is_terminal(),
        wanted,
    };
    if manner.is_prompting {
        println!(rt;
            "explore builds type terms, a line for each call. `help` lists the lines; `quit` or Ctrl-D ends it."
        )?;
    }
    let Some(path) = file else {
        let input = BufReader::new(alloc, rt.stdin())?;
        let is_right = converse(alloc, input, rt.stdout(), rt.stderr(), &manner)?;
        return Ok(code_of(is_right));
    };
    match fs::open(rt, path) {
        Ok(lines) => {
            let input = BufReader::new(alloc, lines)?;
            let is_right = converse(alloc, input, rt.stdout(), rt.stderr(), &manner)?;
            Ok(code_of(is_right))
        }
        Err(error) => {
            eprintln!(rt; "explore: {path}: {error}")?;
            Ok(ExitCode::FAILURE)
        }
    }
}

// Returns the picture that the command line wants.
fn wanted_in<'a>(matches: &'a ArgMatches) -> Option<Wanted<'a>> {
    match (matches.get_str("svg"), matches.get_str("dot")) {
        (Some(terms), _) => Some(Wanted {
            terms,
            is_svg: true,
        }),
        (_, Some(terms)) => Some(Wanted {
            terms,
            is_svg: false,
        }),
        _ => None,
    }
}

// Returns the exit status where each line was right, or one was wrong.
fn code_of(is_right: bool) -> ExitCode {
    if is_right {
        ExitCode::SUCCESS
    } else {
        ExitCode::FAILURE
    }
}
