//! The program's command line.

use clap::{Arg, ArgAction, Command};
use std::alloc::{AllocError, Global};

const ABOUT: &str =
    "Answers which types implement which traits, by the implementations and assumptions in a text.";

const AFTER: &str = "\
Without FILE, or with `-`, the text is read from the input.

Example:
  $ cat clone.goals
  struct Vec<T>;
  trait Clone;
  impl Clone for i32;
  impl<T> Clone for Vec<T> where T: Clone;
  goals<T> where T: Clone {
      Vec<i32>: Clone;
      Vec<T>: Clone;
      bool: Clone;
  }
  $ solver --why clone.goals
  clone.goals:6:5: yes
    Vec<i32>: Clone, by the `impl` in line 4
      i32: Clone, by the `impl` in line 3
  clone.goals:7:5: yes
    Vec<T>: Clone, by the `impl` in line 4
      T: Clone, by the assumption in line 5
  clone.goals:8:5: no
    nothing applies to bool: Clone

A yes has a derivation, and a no has none. The answer is `unknown` where nothing applies as far as the search saw,
`ambiguous` where several implementations or assumptions may apply, and `overflow` where the search reached a limit:
goals nest 64 deep, or 10000 candidates were tried.

The exit status is 0 where all goals are answered, 1 where the text is wrong, and 2 where not all are answered: the
command line was wrong, the input couldn't be read, the output couldn't be written, or memory was short.";

/// Returns the command line that the program takes.
pub fn command<'a>(alloc: Global) -> Result<Command<'a>, AllocError> {
    let file = Arg::new(alloc, "file")
        .value_name("FILE")
        .help("The text with the goals");
    let why = Arg::new(alloc, "why")
        .long("why")
        .action(ArgAction::SetTrue)
        .help("Prints the derivation of each yes, and why each no has none");
    let overlap = Arg::new(alloc, "overlap")
        .long("overlap")
        .action(ArgAction::SetTrue)
        .help("Prints first which two implementations both apply to a goal, or that no two do");
    let name = Arg::new(alloc, "name").long("name").value_name("NAME").help(
        "What messages and answers call the text, in place of FILE",
    );
    Command::new(alloc, "solver")
        .bin_name("solver")?
        .version("0.1.0")
        .about(ABOUT)
        .after_help(AFTER)
        .arg(file)?
        .arg(why)?
        .arg(overlap)?
        .arg(name)
}
