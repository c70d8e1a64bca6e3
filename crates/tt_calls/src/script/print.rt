//! The printed lines of answers.

use crate::answer::Answer;
use itoa::Buffer;
use std::alloc::AllocError;
use tt_index::Refusal;

/// Appends the line of an answer, which begins with the number of the answered call.
pub fn print_answer(output: &mut String, number: usize, answer: &Answer) -> Result<(), AllocError> {
    // The formatter would take as long as all other work on a short line.
    output.push_str(Buffer::new().format(number))?;
    match answer {
        Answer::Ty(_)
        | Answer::Const(_)
        | Answer::Pat(_)
        | Answer::Predicate(_)
        | Answer::Clauses(_)
        | Answer::Args(_)
        | Answer::Id(..) => output.push_str(": ok\n"),
        Answer::Truth(true) => output.push_str(": yes\n"),
        Answer::Truth(false) => output.push_str(": no\n"),
        Answer::Info { flags, outer } => {
            let bits = flags.bits();
            let outer = outer.as_u32();
            writeln!(output, ": flags {bits:08X} outer {outer}")
        }
        Answer::Refused(refusal) => {
            output.push_str(": refused ")?;
            output.push_str(refusal_name(refusal))?;
            output.push_str("\n")
        }
        Answer::Bad => output.push_str(": bad line\n"),
    }
}

// Returns the name of the refusal, without its number.
fn refusal_name(refusal: &Refusal) -> &'static str {
    match refusal {
        Refusal::Memory => "Memory",
        Refusal::TableFull => "TableFull",
        Refusal::GreatestIndex => "GreatestIndex",
        Refusal::NoArguments => "NoArguments",
        Refusal::ArgOutOfRange { .. } => "ArgOutOfRange",
        Refusal::ArgKind { .. } => "ArgKind",
        Refusal::RegionVariable(_) => "RegionVariable",
        Refusal::NotAClause => "NotAClause",
        Refusal::NoSuchAnswer => "NoSuchAnswer",
    }
}
