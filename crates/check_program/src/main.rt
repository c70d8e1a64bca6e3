//! Checks a program from a file or from the input, and writes the types of its variables, or what is wrong.
#![tactic(auto)]

mod command_line;

use checker::{Report, Verdict, View, rendered, verdict_of};
use clap::ArgMatches;
use command_line::command;
use std::io::{self, IsTerminal};
use std::process::ExitCode;
use std::{env, fs};

// The exit status where the program wasn't checked to its end.
const NOT_CHECKED: u8 = 2;

fn main(rt: HostRuntime) -> ExitCode {
    match run(&rt) {
        Ok(code) => code,
        Err(error) => {
            let _ = eprintln!(rt; "checker: {error}");
            ExitCode::from(NOT_CHECKED)
        }
    }
}

// Reads the command line, and does what it asks for.
fn run(rt: &HostRuntime) -> io::Result<ExitCode> {
    let alloc = rt.alloc();
    let words: Vec<String> = env::args(rt)?.collect(alloc)?;
    match command(alloc)?.try_get_matches_from(words.as_slice()) {
        Ok(matches) => started(rt, &matches),
        Err(error) => {
            error.print(rt)?;
            Ok(if error.use_stderr() {
                ExitCode::from(NOT_CHECKED)
            } else {
                ExitCode::SUCCESS
            })
        }
    }
}

// Reads the program from the file or from the input, and checks it.
fn started(rt: &HostRuntime, matches: &ArgMatches) -> io::Result<ExitCode> {
    let path = matches.get_str("file").unwrap_or("-");
    let (called, source) = if path == "-" {
        ("<stdin>", io::read_to_string(rt.alloc(), rt.stdin()))
    } else {
        (path, fs::read_to_string(rt, path))
    };
    let name = matches.get_str("name").unwrap_or(called);
    match source {
        Ok(source) => {
            let view = View {
                name,
                source: source.as_str(),
                is_coloured: rt.stdout().is_terminal() && env::var(rt, "NO_COLOR").is_err(),
            };
            checked(rt, view, matches.get_flag("short"))
        }
        Err(error) => {
            eprintln!(rt; "checker: {called}: {error}")?;
            Ok(ExitCode::from(NOT_CHECKED))
        }
    }
}

// Checks the program, and prints the verdict.
fn checked(rt: &HostRuntime, view: View<'_>, is_short: bool) -> io::Result<ExitCode> {
    match verdict_of(rt.alloc(), view.source) {
        Verdict::Accepted(lines) => {
            print!(rt; "{lines}accepted\n")?;
            Ok(ExitCode::SUCCESS)
        }
        Verdict::Wrong(reports) => {
            print_reports(rt, view, reports.as_slice(), is_short)?;
            Ok(ExitCode::FAILURE)
        }
        Verdict::GivenUp(failure) => {
            let name = view.name;
            eprintln!(rt; "checker: {name}: not checked: {failure}")?;
            Ok(ExitCode::from(NOT_CHECKED))
        }
    }
}

// Prints what is wrong with the program.
fn print_reports(
    rt: &HostRuntime,
    view: View<'_>,
    reports: &[Report],
    is_short: bool,
) -> io::Result<()> {
    if !is_short {
        let text = rendered(rt.alloc(), view, reports)?;
        return print!(rt; "{text}");
    }
    for report in reports {
        println!(rt; "{}", report.message)?;
    }
    Ok(())
}
