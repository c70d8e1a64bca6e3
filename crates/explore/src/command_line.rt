//! The program's command line.

use clap::{Arg, Command};
use std::alloc::{AllocError, Global};

const ABOUT: &str =
    "Builds type terms from lines, and shows what each line made, and pictures of how terms share their parts.";

const AFTER: &str = "\
Without FILE the lines are read from the input, where `help` lists them.

Example:
  $ printf 'i32\\ntuple %1 %1\\nshow %2\\n' | explore
  1: i32                                 i32
  2: tuple %1 %1                         (i32, i32)
  show %2
      text   (i32, i32)
      flags  none
      outer  0: no variable escapes
      parts  i32 (%1), i32 (%1)

The exit status is 0, or 1 where a line was wrong or the input or the output failed, or 2 where the command line was wrong.";

/// Returns the command line that the program takes.
pub fn command<'a>(alloc: Global) -> Result<Command<'a>, AllocError> {
    let file = Arg::new(alloc, "file")
        .value_name("FILE")
        .help("The lines to read");
    let svg = Arg::new(alloc, "svg").long("svg").value_name("TERMS").help(
        "Prints only a picture of these terms, such as `a,b` or `1`, as SVG",
    );
    let dot = Arg::new(alloc, "dot")
        .long("dot")
        .value_name("TERMS")
        .help("Prints only their picture for Graphviz")
        .conflicts_with("svg")?;
    Command::new(alloc, "explore")
        .version("0.1.0")
        .about(ABOUT)
        .after_help(AFTER)
        .arg(file)?
        .arg(svg)?
        .arg(dot)
}
