//! The check of a log.

ghost use Rattle.std.specs.Prelude.{◌≡◌, ℕ, OnOk};
ghost use Rattle.tt_kinds.specs.Kinds.{args_shape};
ghost use Rattle.tt_kinds.specs.Values.{trait_predicate_shape};
ghost use Rattle.tt_interner.specs.Owned.{AreOwned, IsOwned};
ghost use Rattle.tt_interner.specs.Stored.{Extends};
ghost use Rattle.solver.specs.Derivations.{Derives};
ghost use Rattle.solver.specs.Log.{AreDerived, AreMet, AreOwnedLines, IsOwnedReason};
ghost use Rattle.solver.specs.Program.{argument_trees, goal_in, goals_in, impls_in, IsProgram};

use crate::arguments::are_type_arguments;
use crate::fault::Fault;
use crate::instances::check_instance;
use crate::log::{Line, Reason};
use crate::program::{Impl, Program};
use tt_interner::{InternedList, Interner};
use tt_kinds::{GenericArgs, TraitPredicate};

/// Checks a log: each line has to be an assumption, or an instance of the head of an implementation whose conditions are
/// earlier lines.
///
/// # Errors
///
/// - [`Fault::Unverified`] if a line doesn't follow
/// - [`Fault::Refused`] if memory is short or a table is full, or if an instance would need an index that is too great
#[tactic(auto, using(crate::proofs::ProgramLaws::solver_laws))]
pub fn verify(
    cx: &mut Interner,
    program: &Program,
    assumptions: &[TraitPredicate],
    lines: &[Line],
) -> Result<(), Fault>
    requires program { IsProgram cx.old program.now }
    requires assumptions { AreOwned trait_predicate_shape cx.old assumptions.now }
    requires lines { AreOwnedLines cx.old lines.now }
    ensures extends { Extends cx.old cx.new }
    ensures derived { OnOk result (AreDerived cx.old program.now assumptions.now lines.now) }
{
    for number in 0..lines.len() {
        let checked = check_line(cx, program, assumptions, &lines[..number], &lines[number]);
        if checked.is_err() {
            return checked;
        }
    }
    Ok(())
}

// Checks a line that comes after the given ones.
#[tactic(auto, using(crate::proofs::ProgramLaws::solver_laws))]
fn check_line(
    cx: &mut Interner,
    program: &Program,
    assumptions: &[TraitPredicate],
    earlier: &[Line],
    line: &Line,
) -> Result<(), Fault>
    requires program { IsProgram cx.old program.now }
    requires assumptions { AreOwned trait_predicate_shape cx.old assumptions.now }
    requires earlier { AreOwnedLines cx.old earlier.now }
    requires derived { AreDerived cx.old program.now assumptions.now earlier.now }
    requires goal { IsOwned trait_predicate_shape cx.old line.now.goal }
    requires reason { IsOwnedReason cx.old line.now.reason }
    ensures extends { Extends cx.old cx.new }
    ensures derived { OnOk result (Derives
        (impls_in cx.old program.now)
        (goals_in cx.old assumptions.now)
        (goal_in cx.old line.now.goal)) }
{
    match &line.reason {
        Reason::Assumed(number) => match assumptions.get(*number) {
            Some(assumption) if *assumption == line.goal => Ok(()),
            _ => Err(Fault::Unverified),
        },
        Reason::Implemented {
            number,
            args,
            conditions,
        } => {
            let Some(implementation) = program.impls.get(*number) else {
                return Err(Fault::Unverified);
            };
            if !are_type_arguments(cx, *args, implementation.params) {
                return Err(Fault::Unverified);
            }
            // The arguments are the interner's, so their trees stay whatever is built.
            let _arguments = args.as_slice(cx);
            let head = check_instance(cx, *args, &implementation.head, line.goal);
            if head.is_err() {
                return head;
            }
            check_conditions(
                cx,
                implementation.conditions.as_slice(),
                *args,
                conditions.as_slice(),
                earlier,
            )
        }
    }
}

// Checks that the instances of the conditions are the goals of the lines of these numbers.
#[tactic(auto, using(crate::proofs::ProgramLaws::solver_laws))]
fn check_conditions(
    cx: &mut Interner,
    conditions: &[TraitPredicate],
    args: GenericArgs,
    numbers: &[usize],
    lines: &[Line],
) -> Result<(), Fault>
    requires conditions { AreOwned trait_predicate_shape cx.old conditions.now }
    requires args { IsOwned args_shape cx.old args }
    requires lines { AreOwnedLines cx.old lines.now }
    ensures extends { Extends cx.old cx.new }
    ensures met { OnOk result (AreMet cx.old conditions.now args lines.now) }
{
    if conditions.len() != numbers.len() {
        return Err(Fault::Unverified);
    }
    // The arguments are the interner's, so their trees stay whatever is built.
    let _arguments = args.as_slice(cx);
    for index in 0..conditions.len() {
        let Some(line) = lines.get(numbers[index]) else {
            return Err(Fault::Unverified);
        };
        let met = check_instance(cx, args, &conditions[index], line.goal);
        if met.is_err() {
            return met;
        }
    }
    Ok(())
}
