//! Implementations that apply to one goal, as text.

ghost use Rattle.tt_interner.specs.Stored.{Extends};
ghost use Rattle.solver.specs.Program.{IsProgram};

use crate::answers::Wishes;
use crate::failure::Failure;
use crate::texts::{Variables, write_goal};
use solver::{Overlap, Program, first_overlap};
use solver_syntax::script::Script;
use tt_interner::Interner;

/// Writes which two implementations both apply to a goal, or that no two do, if this is asked for.
#[tactic(auto, using(crate::proofs::GrowthLaws::growth_laws))]
pub fn write_overlap(
    cx: &mut Interner,
    text: &mut String,
    script: &Script,
    program: &Program,
    wishes: Wishes<'_>,
) -> Result<(), Failure>
    requires { IsProgram cx.old program.now }
    ensures { Extends cx.old cx.new }
{
    if !wishes.has_overlaps {
        return Ok(());
    }
    match first_overlap(cx, program) {
        Ok(found) => write_found(cx, text, script, wishes.name, found),
        Err(fault) => Err(Failure::Solver(fault)),
    }
}

// Writes the line on the overlap that was found, or that none was.
fn write_found(
    cx: &Interner,
    text: &mut String,
    script: &Script,
    name: &str,
    found: Option<Overlap>,
) -> Result<(), Failure> {
    let Some(overlap) = found else {
        writeln!(text, "{name}: no two `impl`s apply to one goal")?;
        return Ok(());
    };
    let mut variables = Variables {
        names: Vec::new(cx.allocator()),
        others: Vec::new(cx.allocator()),
    };
    write_both(cx, text, &mut variables, script, name, overlap)
}

// Writes the lines of the two implementations, and the goal to which both apply.
fn write_both(
    cx: &Interner,
    text: &mut String,
    variables: &mut Variables<'_>,
    script: &Script,
    name: &str,
    overlap: Overlap,
) -> Result<(), Failure> {
    let Some(first) = script.implementations.get(overlap.first) else {
        return Err(Failure::Malformed);
    };
    let Some(second) = script.implementations.get(overlap.second) else {
        return Err(Failure::Malformed);
    };
    let (first, second) = (first.head.place.line, second.head.place.line);
    write!(
        text,
        "{name}: the `impl`s in lines {first} and {second} both apply to "
    )?;
    write_goal(cx, text, variables, overlap.goal)?;
    text.push('\n')?;
    Ok(())
}
