//! Instances of the goals of an implementation.

ghost use Rattle.std.specs.Prelude.{◌≡◌, ℕ, OnOk};
ghost use Rattle.tt_kinds.specs.Kinds.{args_shape};
ghost use Rattle.tt_kinds.specs.Values.{trait_predicate_shape};
ghost use Rattle.tt_interner.specs.Owned.{IsOwned};
ghost use Rattle.tt_interner.specs.Stored.{Extends};
ghost use Rattle.solver.specs.Derivations.{AreArguments, instance_of};
ghost use Rattle.solver.specs.Program.{argument_trees, goal_in};
ghost use Rattle.solver.specs.Written.{IsWrittenGoal};

use crate::fault::Fault;
use tt_binder::Instantiate;
use tt_index::Refusal;
use tt_interner::Interner;
use tt_kinds::{EarlyBinder, GenericArgs, TraitPredicate};
use tt_visit::TypeVisitableExt;

/// Succeeds if no inference variable is in the goal, no variable is bound outside of it, and each of its parameters is a
/// type that has an argument.
#[tactic(auto, using(crate::proofs::ProgramLaws::solver_laws))]
pub fn check_written(
    cx: &mut Interner,
    args: GenericArgs,
    goal: &TraitPredicate,
) -> Result<(), Fault>
    requires args { IsOwned args_shape cx.old args }
    requires goal { IsOwned trait_predicate_shape cx.old goal.now }
    ensures extends { Extends cx.old cx.new }
    ensures written { OnOk result ((n : ℕ) → AreArguments n (argument_trees cx.old args)
        → IsWrittenGoal n (goal_in cx.old goal.now)) }
{
    if goal.has_infer(cx) || goal.has_escaping_bound_vars(cx) {
        return Err(Fault::Unwritten);
    }
    match EarlyBinder::bind(*goal).instantiate(cx, args) {
        Ok(_) => Ok(()),
        Err(refusal) => Err(fault_of(refusal)),
    }
}

// Returns why an implementation can't be declared: an instance at arguments for all of its parameters was refused.
fn fault_of(refusal: Refusal) -> Fault {
    match refusal {
        Refusal::NoArguments | Refusal::ArgOutOfRange { .. } | Refusal::ArgKind { .. } =>
            Fault::Unwritten,
        _ => Fault::Refused(refusal),
    }
}

/// Succeeds if the goal is the declared one's instance at the arguments.
#[tactic(auto, using(crate::proofs::ProgramLaws::solver_laws))]
pub fn check_instance(
    cx: &mut Interner,
    args: GenericArgs,
    declared: &TraitPredicate,
    goal: TraitPredicate,
) -> Result<(), Fault>
    requires args { IsOwned args_shape cx.old args }
    requires declared { IsOwned trait_predicate_shape cx.old declared.now }
    requires goal { IsOwned trait_predicate_shape cx.old goal }
    ensures extends { Extends cx.old cx.new }
    ensures is { OnOk result (goal_in cx.old goal
        ≡ instance_of (argument_trees cx.old args) (goal_in cx.old declared.now)) }
{
    let instance = EarlyBinder::bind(*declared).instantiate(cx, args)?;
    if instance.skip_norm_wip() == goal {
        Ok(())
    } else {
        Err(Fault::Unverified)
    }
}
