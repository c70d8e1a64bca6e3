//! Answers to goals as text.

ghost use Rattle.tt_interner.specs.Stored.{Extends};
ghost use Rattle.solver.specs.Program.{IsProgram};
ghost use Rattle.unify.specs.Bindings.{IsTable};

use crate::declared::{Declared, declare, name_of, program_of};
use crate::derivations::write_derivation;
use crate::failure::Failure;
use crate::goals::{goal_of, goals_of};
use crate::overlaps::write_overlap;
use crate::refutations::write_refutation;
use crate::texts::{Variables, write_type};
use solver::{Answer, Limits, Program, solve};
use solver_syntax::script::{Goal, Group, Script};
use std::alloc::AllocError;
use tt_interner::Interner;
use tt_kinds::{TraitPredicate, Ty};
use tt_owned::{Owned, are_owned};
use unify::Bindings;

/// What is asked for.
#[derive(Clone, Copy)]
pub struct Wishes<'a> {
    /// What the source is called.
    pub name: &'a str,
    /// How far to search.
    pub limits: Limits,
    /// Whether derivations and refutations are written.
    pub has_reasons: bool,
    /// Whether it is written which two implementations both apply to a goal.
    pub has_overlaps: bool,
}

// What goals are asked in.
#[derive(Clone, Copy)]
struct Question<'a> {
    script: &'a Script,
    declared: &'a Declared,
    program: &'a Program,
    wishes: Wishes<'a>,
}

/// Returns a line for each goal of the script: its place, and its answer. Before them is one on overlaps if it is asked for.
#[tactic(auto, using(crate::proofs::GrowthLaws::growth_laws))]
pub fn answers_of(
    cx: &mut Interner,
    script: &Script,
    wishes: Wishes<'_>,
) -> Result<String, Failure> {
    let declared = declare(cx, script)?;
    let program = program_of(cx, script, &declared)?;
    let mut text = String::new(cx.allocator());
    write_overlap(cx, &mut text, script, &program, wishes)?;
    write_groups(cx, &mut text, script, &declared, &program, wishes)?;
    Ok(text)
}

// Writes the answers to the goals of all groups.
#[tactic(auto, using(crate::proofs::GrowthLaws::growth_laws))]
fn write_groups(
    cx: &mut Interner,
    text: &mut String,
    script: &Script,
    declared: &Declared,
    program: &Program,
    wishes: Wishes<'_>,
) -> Result<(), Failure>
    requires { IsProgram cx.old program.now }
{
    let question = Question {
        script,
        declared,
        program,
        wishes,
    };
    for number in 0..script.groups.len() {
        let written = write_group(cx, text, question, &script.groups[number]);
        if written.is_err() {
            return written;
        }
    }
    Ok(())
}

// Writes the answers to the goals of a group.
#[tactic(auto, using(crate::proofs::GrowthLaws::growth_laws))]
fn write_group(
    cx: &mut Interner,
    text: &mut String,
    question: Question<'_>,
    group: &Group,
) -> Result<(), Failure>
    requires { IsProgram cx.old question.program.now }
    ensures { Extends cx.old cx.new }
{
    let assumptions = goals_of(
        cx,
        question.script,
        question.declared,
        group.assumptions.as_slice(),
    )?;
    for number in 0..group.goals.len() {
        write_answer(
            cx,
            text,
            question,
            group,
            assumptions.as_slice(),
            &group.goals[number],
        )?;
    }
    Ok(())
}

// Writes the answer to a goal, and the reason if it is asked for.
#[tactic(auto, using(crate::proofs::GrowthLaws::growth_laws))]
fn write_answer(
    cx: &mut Interner,
    text: &mut String,
    question: Question<'_>,
    group: &Group,
    assumptions: &[TraitPredicate],
    goal: &Goal,
) -> Result<(), Failure>
    requires { IsProgram cx.old question.program.now }
    ensures { Extends cx.old cx.new }
{
    let asked = goal_of(cx, question.script, question.declared, goal.bound)?;
    let mut bindings = Bindings::new(cx.allocator());
    let variables = make_variables(cx, &mut bindings, goal.variables.len())?;
    let answer = answer_to(cx, question, assumptions, &mut bindings, asked)?;
    let bound = resolved(cx, &bindings, variables.as_slice())?;
    let mut names = names_of(cx, question.script, goal)?;
    let place = goal.bound.place;
    let name = question.wishes.name;
    write!(
        text,
        "{name}:{}:{}: {}",
        place.line,
        place.column,
        word_of(&answer)
    )?;
    write_bindings(cx, text, &mut names, variables.as_slice(), bound.as_slice())?;
    write_reason(cx, text, &mut names, question, group, &answer)
}

// Writes the derivation below a yes, and the refutation below a no, if these are asked for.
fn write_reason(
    cx: &mut Interner,
    text: &mut String,
    names: &mut Variables<'_>,
    question: Question<'_>,
    group: &Group,
    answer: &Answer,
) -> Result<(), Failure>
    ensures { Extends cx.old cx.new }
{
    if !question.wishes.has_reasons {
        return Ok(());
    }
    let script = question.script;
    match answer {
        Answer::Yes(log) => write_derivation(cx, text, names, script, group, log.as_slice()),
        Answer::No(goals) => {
            let goals = goals.as_slice();
            write_refutation(cx, text, names, script, question.program, goals)
        }
        _ => Ok(()),
    }
}

// Returns the goal's answer.
#[tactic(auto, using(crate::proofs::GrowthLaws::growth_laws))]
fn answer_to(
    cx: &mut Interner,
    question: Question<'_>,
    assumptions: &[TraitPredicate],
    bindings: &mut Bindings,
    goal: TraitPredicate,
) -> Result<Answer, Failure>
    requires program { IsProgram cx.old question.program.now }
    requires table { IsTable cx.old bindings.old }
    ensures extends { Extends cx.old cx.new }
    ensures table { IsTable cx.new bindings.new }
{
    // What was built in this interner is of this interner.
    if !are_owned(cx, assumptions) || !goal.is_owned(cx) {
        return Err(Failure::Malformed);
    }
    let limits = question.wishes.limits;
    match solve(cx, question.program, assumptions, bindings, goal, limits) {
        Ok(answer) => Ok(answer),
        Err(fault) => Err(Failure::Solver(fault)),
    }
}

// Makes this many variables, which have the numbers from 0.
#[tactic(auto, using(crate::proofs::GrowthLaws::growth_laws))]
fn make_variables(
    cx: &mut Interner,
    bindings: &mut Bindings,
    count: usize,
) -> Result<Vec<Ty>, Failure>
    requires { IsTable cx.old bindings.old }
    ensures extends { Extends cx.old cx.new }
    ensures table { IsTable cx.new bindings.new }
{
    let mut variables = Vec::new(cx.allocator());
    for _ in 0..count {
        match bindings.new_variable(cx) {
            Ok(variable) => variables.push(variable)?,
            Err(unify::Fault::Refused(refusal)) => return Err(Failure::from(refusal)),
            // A new variable is refused for room alone.
            Err(_) => return Err(Failure::Malformed),
        }
    }
    Ok(variables)
}

// Returns the types with each bound variable in them replaced by its binding.
#[tactic(auto, using(crate::proofs::GrowthLaws::growth_laws))]
fn resolved(cx: &mut Interner, bindings: &Bindings, types: &[Ty]) -> Result<Vec<Ty>, Failure>
    requires { IsTable cx.old bindings.now }
    ensures { Extends cx.old cx.new }
{
    let mut found = Vec::new(cx.allocator());
    for index in 0..types.len() {
        let ty = types[index];
        // What was built in this interner is of this interner.
        if !cx.owns_ty(ty) {
            return Err(Failure::Malformed);
        }
        let ty = bindings.resolve(cx, ty)?;
        found.push(ty)?;
    }
    Ok(found)
}

// Returns what the inference variables of the goal are called.
fn names_of<'a>(cx: &Interner, script: &'a Script, goal: &Goal) -> Result<Variables<'a>, Failure> {
    let mut names = Vec::new(cx.allocator());
    for name in goal.variables.iter() {
        names.push(name_of(script, *name)?)?;
    }
    Ok(Variables {
        names,
        others: Vec::new(cx.allocator()),
    })
}

// Returns what an answer is called.
fn word_of(answer: &Answer) -> &'static str {
    match answer {
        Answer::Yes(_) => "yes",
        Answer::No(_) => "no",
        Answer::Unknown => "unknown",
        Answer::Ambiguous => "ambiguous",
        Answer::Overflow => "overflow",
    }
}

// Writes the variables with the types that they are bound to.
fn write_bindings(
    cx: &Interner,
    text: &mut String,
    names: &mut Variables<'_>,
    variables: &[Ty],
    bound: &[Ty],
) -> Result<(), AllocError> {
    let mut is_first = true;
    for (variable, ty) in variables.iter().zip(bound.iter()) {
        if variable != ty {
            text.push_str(if is_first { " where " } else { ", " })?;
            write_type(cx, text, names, *variable)?;
            text.push_str(" = ")?;
            write_type(cx, text, names, *ty)?;
            is_first = false;
        }
    }
    text.push('\n')?;
    Ok(())
}
