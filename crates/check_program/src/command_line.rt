//! The program's command line.

use clap::{Arg, ArgAction, Command};
use std::alloc::{AllocError, Global};

const ABOUT: &str =
    "Checks a program in a small language with generics, and prints the types of its variables, or what is wrong.";

const AFTER: &str = "\
Without FILE, or with `-`, the program is read from the input.

Example:
  $ printf 'fn main() -> bool {\\n    let pair = (true, 1);\\n    pair.1\\n}\\n' | checker
  error: expected `bool`, found `i32`
   --> <stdin>:3:10
    |
  3 |     pair.1
    |          ^
  note: it is the result of `main`, which is declared here
   --> <stdin>:1:4
    |
  1 | fn main() -> bool {
    |    ^^^^

  not accepted: 1 error

The exit status is 0 where the program is accepted, 1 where it is wrong, and 2 where it wasn't checked: the command
line was wrong, the input couldn't be read, the output couldn't be written, or memory was short.";

/// Returns the command line that the program takes.
pub fn command<'a>(alloc: Global) -> Result<Command<'a>, AllocError> {
    let file = Arg::new(alloc, "file")
        .value_name("FILE")
        .help("The program to check");
    let short = Arg::new(alloc, "short")
        .long("short")
        .action(ArgAction::SetTrue)
        .help("Prints a line `LINE:COLUMN: MESSAGE` for each error, and nothing else of it");
    let name = Arg::new(alloc, "name")
        .long("name")
        .value_name("NAME")
        .help("What messages call the program, in place of FILE");
    Command::new(alloc, "checker")
        .bin_name("checker")?
        .version("0.1.0")
        .about(ABOUT)
        .after_help(AFTER)
        .arg(file)?
        .arg(short)?
        .arg(name)
}
