//! Refutations as text.

ghost use Rattle.tt_interner.specs.Stored.{Extends};

use crate::derivations::write_place;
use crate::failure::Failure;
use crate::texts::{Variables, write_goal};
use solver::{Need, Program, needs_of};
use solver_syntax::script::Script;
use tt_interner::Interner;
use tt_kinds::TraitPredicate;

/// Writes a refutation: a line for each implementation that applies to one of the goals, with the goal that is needed, and one
/// for each goal to which none applies.
#[tactic(auto, using(crate::proofs::GrowthLaws::growth_laws))]
pub fn write_refutation(
    cx: &mut Interner,
    text: &mut String,
    variables: &mut Variables<'_>,
    script: &Script,
    program: &Program,
    goals: &[TraitPredicate],
) -> Result<(), Failure>
    ensures { Extends cx.old cx.new }
{
    for index in 0..goals.len() {
        let written = write_refuted(cx, text, variables, script, program, goals, goals[index]);
        if written.is_err() {
            return written;
        }
    }
    Ok(())
}

// Writes the lines for one of the goals.
#[tactic(auto, using(crate::proofs::GrowthLaws::growth_laws))]
fn write_refuted(
    cx: &mut Interner,
    text: &mut String,
    variables: &mut Variables<'_>,
    script: &Script,
    program: &Program,
    goals: &[TraitPredicate],
    goal: TraitPredicate,
) -> Result<(), Failure>
    ensures { Extends cx.old cx.new }
{
    let needs = needs_of(cx, program, goals, goal)?;
    if needs.is_empty() {
        text.push_str("  nothing applies to ")?;
        write_goal(cx, text, variables, goal)?;
        text.push('\n')?;
    }
    write_needs(cx, text, variables, script, goals, goal, needs.as_slice())
}

// Writes a line for each goal that the goal needs.
fn write_needs(
    cx: &Interner,
    text: &mut String,
    variables: &mut Variables<'_>,
    script: &Script,
    goals: &[TraitPredicate],
    goal: TraitPredicate,
    needs: &[Need],
) -> Result<(), Failure> {
    for need in needs {
        let Some(needed) = goals.get(need.goal) else {
            return Err(Failure::Malformed);
        };
        let Some(implementation) = script.implementations.get(need.implementation) else {
            return Err(Failure::Malformed);
        };
        text.push_str("  ")?;
        write_goal(cx, text, variables, goal)?;
        text.push_str(" needs ")?;
        write_goal(cx, text, variables, *needed)?;
        write_place(text, "the `impl`", implementation.head.place)?;
    }
    Ok(())
}
