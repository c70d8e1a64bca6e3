//! The check of a refutation: of goals each of which needs one of them wherever an implementation applies.

ghost use Rattle.std.specs.Prelude.{◌≡◌, ℕ, IfOk, IfSome, IsTrue, None, OnOk, Some, slice_get};
ghost use Rattle.tt_kinds.specs.Kinds.{args_shape};
ghost use Rattle.tt_kinds.specs.Values.{trait_predicate_shape};
ghost use Rattle.tt_kinds.specs.declared.predicate.TraitPredicate.{TraitPredicate};
ghost use Rattle.tt_interner.specs.Arguments.{args_at};
ghost use Rattle.tt_interner.specs.Owned.{AreOwned, IsOwned};
ghost use Rattle.tt_interner.specs.Stored.{Extends};
ghost use Rattle.unify.specs.Bindings.{IsTable, substitution};
ghost use Rattle.solver.specs.Program.{argument_trees, goal_in, goals_in, impl_in, impls_in, IsOwnedImpl, IsProgram};
ghost use Rattle.solver.specs.Refutation.{
  AreRefuted,
  BecomesOneOf,
  AreTypes,
  IsUnfounded,
  NeedsOneOf,
  OneBecomesOneOf,
};
ghost use Rattle.solver.specs.Written.{IsGround, IsWritten};

use crate::fault::Fault;
use crate::goals::{fresh_args, instance, resolved_goal, unify_goals};
use crate::program::{Impl, Program};
use tt_index::Refusal;
use tt_interner::{InternedList, Interner};
use tt_kinds::{GenericArgs, TraitPredicate};
use tt_visit::TypeVisitableExt;
use unify::Bindings;

/// Checks a refutation: a list of goals, each of which is no assumption, and needs a goal of the list as a condition of
/// each implementation that applies. So none of them has a finite derivation.
///
/// # Errors
///
/// - [`Fault::Unverified`] if a goal may be derived, if a goal or an assumption holds an inference variable, or if an
///   argument of a goal isn't a type
/// - [`Fault::Refused`] if memory is short or a table is full, or if an instance would need an index that is too great
#[tactic(auto, using(crate::proofs::ProgramLaws::solver_laws))]
pub fn refute(
    cx: &mut Interner,
    program: &Program,
    assumptions: &[TraitPredicate],
    goals: &[TraitPredicate],
) -> Result<(), Fault>
    requires program { IsProgram cx.old program.now }
    requires assumptions { AreOwned trait_predicate_shape cx.old assumptions.now }
    requires goals { AreOwned trait_predicate_shape cx.old goals.now }
    ensures extends { Extends cx.old cx.new }
    ensures refuted { OnOk result (AreRefuted cx.old program.now assumptions.now goals.now) }
{
    if !are_ground(cx, assumptions) {
        return Err(Fault::Unverified);
    }
    if !are_ground(cx, goals) {
        return Err(Fault::Unverified);
    }
    for index in 0..goals.len() {
        let checked = check_goal(cx, program, assumptions, goals, goals[index]);
        if checked.is_err() {
            return checked;
        }
    }
    Ok(())
}

// Returns whether no goal holds an inference variable.
fn are_ground(cx: &Interner, goals: &[TraitPredicate]) -> bool
    requires { AreOwned trait_predicate_shape cx.now goals.now }
    ensures { IsTrue result → (k : ℕ) (goal : TraitPredicate) → slice_get goals.now k ≡ Some goal
        → IsGround (goal_in cx.now goal) }
{
    for index in 0..goals.len() {
        if goals[index].has_infer(cx) {
            return false;
        }
    }
    true
}

// Checks one of the goals.
#[tactic(auto, using(crate::proofs::ProgramLaws::solver_laws))]
fn check_goal(
    cx: &mut Interner,
    program: &Program,
    assumptions: &[TraitPredicate],
    goals: &[TraitPredicate],
    goal: TraitPredicate,
) -> Result<(), Fault>
    requires program { IsProgram cx.old program.now }
    requires assumptions { AreOwned trait_predicate_shape cx.old assumptions.now }
    requires goals { AreOwned trait_predicate_shape cx.old goals.now }
    requires goal { IsOwned trait_predicate_shape cx.old goal }
    requires ground { IsGround (goal_in cx.old goal) }
    ensures extends { Extends cx.old cx.new }
    ensures unfounded { OnOk result (IsUnfounded
        (impls_in cx.old program.now)
        (goals_in cx.old assumptions.now)
        (goals_in cx.old goals.now)
        (goal_in cx.old goal)) }
{
    if place_of(cx, assumptions, goal).is_some() {
        return Err(Fault::Unverified);
    }
    for number in 0..program.impls.len() {
        let Some(implementation) = program.impls.get(number) else {
            return Err(Fault::Unverified);
        };
        let checked = check_implementation(cx, implementation, goals, goal);
        if checked.is_err() {
            return checked;
        }
    }
    Ok(())
}

/// Returns where the goal is in the list.
pub fn place_of(cx: &Interner, goals: &[TraitPredicate], goal: TraitPredicate) -> Option<usize>
    requires goals { AreOwned trait_predicate_shape cx.now goals.now }
    requires goal { IsOwned trait_predicate_shape cx.now goal }
    ensures found { IfSome result (λ k. slice_get goals.now k ≡ Some goal) }
    ensures missing { result ≡ None → (k : ℕ) (other : TraitPredicate) → slice_get goals.now k ≡ Some other
        → goal_in cx.now goal ≡ goal_in cx.now other → ⊥ }
{
    // Two goals of one tree are one.
    cx.are_rows();
    for index in 0..goals.len() {
        if goals[index] == goal {
            return Some(index);
        }
    }
    None
}

// Succeeds if the goal needs one of the goals wherever the implementation applies.
#[tactic(auto, using(crate::proofs::ProgramLaws::solver_laws))]
fn check_implementation(
    cx: &mut Interner,
    implementation: &Impl,
    goals: &[TraitPredicate],
    goal: TraitPredicate,
) -> Result<(), Fault>
    requires implementation { IsOwnedImpl cx.old implementation.now }
    requires written { IsWritten (impl_in cx.old implementation.now) }
    requires goals { AreOwned trait_predicate_shape cx.old goals.now }
    requires goal { IsOwned trait_predicate_shape cx.old goal }
    requires ground { IsGround (goal_in cx.old goal) }
    ensures extends { Extends cx.old cx.new }
    ensures needs { OnOk result (NeedsOneOf
        (goals_in cx.old goals.now)
        (goal_in cx.old goal)
        (impl_in cx.old implementation.now)) }
{
    if implementation.head.trait_ref.def_id != goal.trait_ref.def_id {
        return Ok(());
    }
    let mut bindings = Bindings::new(cx.allocator());
    let args = fresh_args(cx, &mut bindings, implementation.params)?;
    // The arguments are the interner's, so their trees stay whatever is built.
    let _arguments = args.as_slice(cx);
    let head = instance(cx, args, implementation.head)?;
    if !are_types(cx, goal.trait_ref.args) {
        return Err(Fault::Unverified);
    }
    if !are_types(cx, head.trait_ref.args) {
        return Err(Fault::Unverified);
    }
    if unify_goals(cx, &mut bindings, goal, head)? {
        let conditions = implementation.conditions.as_slice();
        check_needed(cx, &bindings, args, conditions, goals)
    } else {
        Ok(())
    }
}

/// Returns whether each argument is a type.
pub fn are_types(cx: &Interner, args: GenericArgs) -> bool
    requires { IsOwned args_shape cx.now args }
    ensures { IsTrue result → AreTypes (args_at cx.now.rows args) }
{
    let items = args.as_slice(cx);
    for index in 0..items.len() {
        if items[index].as_type().is_none() {
            return false;
        }
    }
    true
}

// Succeeds if the instance of one of the conditions is one of the goals under the bindings.
#[tactic(auto, using(crate::proofs::ProgramLaws::solver_laws))]
fn check_needed(
    cx: &mut Interner,
    bindings: &Bindings,
    args: GenericArgs,
    conditions: &[TraitPredicate],
    goals: &[TraitPredicate],
) -> Result<(), Fault>
    requires table { IsTable cx.old bindings.now }
    requires args { IsOwned args_shape cx.old args }
    requires conditions { AreOwned trait_predicate_shape cx.old conditions.now }
    requires goals { AreOwned trait_predicate_shape cx.old goals.now }
    ensures extends { Extends cx.old cx.new }
    ensures needed { OnOk result (OneBecomesOneOf
        cx.old
        (substitution cx.old bindings.now)
        (argument_trees cx.old args)
        conditions.now
        goals.now) }
{
    // The arguments are the interner's, so their trees stay whatever is built.
    let _arguments = args.as_slice(cx);
    for index in 0..conditions.len() {
        if is_needed(cx, bindings, args, conditions[index], goals)? {
            return Ok(());
        }
    }
    Err(Fault::Unverified)
}

// Returns whether the instance of the condition is one of the goals under the bindings.
#[tactic(auto, using(crate::proofs::ProgramLaws::solver_laws))]
fn is_needed(
    cx: &mut Interner,
    bindings: &Bindings,
    args: GenericArgs,
    condition: TraitPredicate,
    goals: &[TraitPredicate],
) -> Result<bool, Refusal>
    requires table { IsTable cx.old bindings.now }
    requires args { IsOwned args_shape cx.old args }
    requires condition { IsOwned trait_predicate_shape cx.old condition }
    requires goals { AreOwned trait_predicate_shape cx.old goals.now }
    ensures extends { Extends cx.old cx.new }
    ensures needed { IfOk result (λ found. IsTrue found → BecomesOneOf
        cx.old
        (substitution cx.old bindings.now)
        (argument_trees cx.old args)
        condition
        goals.now) }
{
    let made = instance(cx, args, condition)?;
    let Some(needed) = resolved_goal(cx, bindings, made)? else {
        return Ok(false);
    };
    if needed.has_infer(cx) {
        return Ok(false);
    }
    Ok(place_of(cx, goals, needed).is_some())
}
