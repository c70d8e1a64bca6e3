//! Runs a script of calls from standard input and prints their answers.
#![tactic(auto)]

use std::process::ExitCode;
use type_terms::run_script;

fn main(rt: HostRuntime) -> ExitCode {
    match run_script(rt.alloc(), rt.stdin(), rt.stdout()) {
        Ok(()) => ExitCode::SUCCESS,
        Err(_) => ExitCode::FAILURE,
    }
}
