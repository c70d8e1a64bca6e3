//! The answering of a case.

use crate::answers::{Printer, owns_answers};
use crate::case::Case;
use crate::containers::changed;
use crate::definitions::defined;
use crate::derived::derived;
use crate::reader::read_step;
use crate::scripts::run_whole;
use crate::steps::Step;
use crate::tolerance::Tolerance;
use std::alloc::Global;
use test_terms::NOT_OWNED;
use type_terms::{Answer, Interner, Refusal, answer_next};

/// Returns what a case prints: its name, and a line for the answer to each step. If memory is refused outside of a
/// step, all is done again.
pub fn answer_case(
    alloc: Global,
    case: Case,
    tolerance: &mut Tolerance,
) -> Result<String, Refusal> {
    match attempt(alloc, case, tolerance) {
        Ok(answers) => Ok(answers),
        Err(refusal) => {
            if matches!(refusal, Refusal::Memory) && tolerance.takes() {
                attempt(alloc, case, tolerance)
            } else {
                Err(refusal)
            }
        }
    }
}

// Does the same once.
fn attempt(alloc: Global, case: Case, tolerance: &mut Tolerance) -> Result<String, Refusal> {
    let mut out = String::new(alloc);
    let name = case.name;
    writeln!(out, "{name}")?;
    let mut cx = Interner::with_limit(alloc, case.limit)?;
    let outcome = answer_steps(&mut cx, case, tolerance, &mut out);
    drop(cx);
    outcome?;
    if case.is_script {
        run_whole(alloc, case.steps, tolerance, &mut out)?;
    }
    Ok(out)
}

// A step that was taken, its answer, and the answer's line.
#[derive(Drop)]
struct Taken {
    step: Step,
    answer: Answer,
    line: String,
}

// Takes the steps of the case in order.
fn answer_steps(
    cx: &mut Interner,
    case: Case,
    tolerance: &mut Tolerance,
    out: &mut String,
) -> Result<(), Refusal> {
    let alloc = cx.allocator();
    let mut printer = Printer {
        has_texts: case.has_texts,
        tolerance,
    };
    let mut taken: Vec<Taken> = Vec::new(alloc);
    let mut answers = Vec::new(alloc);
    for text in case.steps.lines() {
        let step = read_step(alloc, text)?;
        let answer = match ask(cx, &mut answers, &step) {
            Ok(answer) => answer,
            Err(refusal) => {
                if !matches!(refusal, Refusal::Memory) || !printer.tolerance.takes() {
                    return Err(refusal);
                }
                check(cx, taken.as_slice(), &mut printer, out)?;
                ask(cx, &mut answers, &step)?
            }
        };
        answers.push(answer)?;
        let line = printer.line(cx, &answer)?;
        let number = answers.len();
        writeln!(out, "{number}: {line}")?;
        taken.push(Taken { step, answer, line })?;
    }
    check(cx, taken.as_slice(), &mut printer, out)
}

// Returns the answer to the step after these answers, which stay as they were.
fn ask(cx: &mut Interner, answers: &mut Vec<Answer>, step: &Step) -> Result<Answer, Refusal> {
    if !owns_answers(cx, answers.as_slice()) {
        return Err(NOT_OWNED);
    }
    let answer = match step {
        Step::Call(call) => {
            // There is room for the answer: a call that is made again has done nothing before.
            answers.reserve(1)?;
            answer_next(cx, answers, call)?;
            answers.pop().ok_or(NOT_OWNED)?
        }
        Step::Changed(container, change, positions) => answer_of(changed(
            cx,
            answers.as_slice(),
            *container,
            *change,
            positions.as_slice(),
        )),
        Step::Derived(derivation) => answer_of(derived(cx, answers.as_slice(), *derivation)),
        Step::Defined(position, variants) => answer_of(defined(
            cx,
            answers.as_slice(),
            *position,
            variants.as_str(),
        ).map(Answer::Truth)),
        Step::Holds(routine) => answer_of(routine.holds(cx).map(Answer::Truth)),
    };
    match answer {
        Answer::Refused(Refusal::Memory) => Err(Refusal::Memory),
        _ => Ok(answer),
    }
}

// Returns the answer of an outcome.
fn answer_of(outcome: Result<Answer, Refusal>) -> Answer {
    match outcome {
        Ok(answer) => answer,
        Err(refusal) => Answer::Refused(refusal),
    }
}

// Checks that each answer is what it was: its term has the same text, flags and outer exclusive binder, and its step,
// taken again, has the same answer. Each difference is printed.
fn check(
    cx: &mut Interner,
    taken: &[Taken],
    printer: &mut Printer,
    out: &mut String,
) -> Result<(), Refusal> {
    let mut earlier = Vec::with_capacity(cx.allocator(), taken.len())?;
    for one in taken {
        let line = printer.line(cx, &one.answer)?;
        if line != one.line {
            writeln!(out, "  not kept: {line}")?;
        }
        if !one.step.declares() {
            let again = match ask(cx, &mut earlier, &one.step) {
                Ok(again) => again,
                Err(refusal) => {
                    let is_memory = matches!(refusal, Refusal::Memory);
                    if one.step.is_found() || !is_memory || !printer.tolerance.takes() {
                        return Err(refusal);
                    }
                    ask(cx, &mut earlier, &one.step)?
                }
            };
            if again != one.answer {
                writeln!(out, "  not the same again: {line}")?;
            }
        }
        earlier.push(one.answer)?;
    }
    Ok(())
}
