//! Derivations as text.

use crate::failure::Failure;
use crate::texts::{Variables, write_goal};
use checker_syntax::program::Place;
use solver::{Line, Reason};
use solver_syntax::script::{Group, Script};
use tt_interner::Interner;

// A line of a log that is still to be written, and how far it is moved in.
#[derive(Clone, Copy)]
struct Step {
    line: usize,
    indent: usize,
}

/// Writes the derivation of the last line of a log, each goal above its conditions. What a goal is derived from is
/// written once.
pub fn write_derivation(
    cx: &Interner,
    text: &mut String,
    variables: &mut Variables<'_>,
    script: &Script,
    group: &Group,
    log: &[Line],
) -> Result<(), Failure> {
    let Some(last) = log.len().checked_sub(1) else {
        return Ok(());
    };
    let mut written = Vec::new(cx.allocator());
    let mut steps = Vec::new(cx.allocator());
    steps.push(Step {
        line: last,
        indent: 1,
    })?;
    for _ in 0..most_steps(log) {
        let Some(step) = steps.pop() else {
            break;
        };
        let Some(line) = log.get(step.line) else {
            return Err(Failure::Malformed);
        };
        write_indent(text, step.indent)?;
        write_goal(cx, text, variables, line.goal)?;
        if written.contains(&step.line) {
            text.push_str(", as above\n")?;
            continue;
        }
        written.push(step.line)?;
        write_reason(text, script, group, &line.reason)?;
        note_conditions(&mut steps, step, &line.reason)?;
    }
    Ok(())
}

// Returns how many lines a derivation takes at most, if each line of the log is taken apart once.
fn most_steps(log: &[Line]) -> usize {
    let mut count: usize = 1;
    for line in log {
        if let Reason::Implemented { conditions, .. } = &line.reason {
            count = count.saturating_add(conditions.len());
        }
    }
    count
}

// Notes the conditions of a line, the last one first.
fn note_conditions(steps: &mut Vec<Step>, step: Step, reason: &Reason) -> Result<(), Failure> {
    if let Reason::Implemented { conditions, .. } = reason {
        for line in conditions.iter().rev() {
            steps.push(Step {
                line: *line,
                indent: step.indent.saturating_add(1),
            })?;
        }
    }
    Ok(())
}

// Writes what a goal is derived from.
fn write_reason(
    text: &mut String,
    script: &Script,
    group: &Group,
    reason: &Reason,
) -> Result<(), Failure> {
    match reason {
        Reason::Assumed(number) => {
            let Some(bound) = group.assumptions.get(*number) else {
                return Err(Failure::Malformed);
            };
            write_place(text, "the assumption", bound.place)
        }
        Reason::Implemented { number, .. } => {
            let Some(implementation) = script.implementations.get(*number) else {
                return Err(Failure::Malformed);
            };
            write_place(text, "the `impl`", implementation.head.place)
        }
    }
}

/// Writes what is at this place, which a goal is derived or needed by.
pub fn write_place(text: &mut String, what: &str, place: Place) -> Result<(), Failure> {
    let line = place.line;
    writeln!(text, ", by {what} in line {line}")?;
    Ok(())
}

// Moves a line in.
fn write_indent(text: &mut String, indent: usize) -> Result<(), Failure> {
    for _ in 0..indent {
        text.push_str("  ")?;
    }
    Ok(())
}
