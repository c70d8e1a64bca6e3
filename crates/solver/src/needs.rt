//! What goals need.

ghost use Rattle.tt_kinds.specs.Kinds.{args_shape};
ghost use Rattle.tt_interner.specs.Owned.{IsOwned};
ghost use Rattle.tt_interner.specs.Stored.{Extends};
ghost use Rattle.unify.specs.Bindings.{IsTable};

use crate::candidates::{Candidate, Known, head_of};
use crate::goals::{instance, resolved_goal, unify_goals};
use crate::program::Program;
use tt_index::Refusal;
use tt_interner::Interner;
use tt_kinds::{GenericArgs, TraitPredicate};
use tt_owned::Owned;
use tt_visit::TypeVisitableExt;
use unify::Bindings;

/// A goal that another one needs, since it is a condition of an implementation.
#[derive(Clone, Copy, Debug, PartialEq, Eq, Drop)]
pub struct Need {
    /// The implementation's number.
    pub implementation: usize,
    /// The number of the goal that is needed.
    pub goal: usize,
}

/// Returns which of the goals one goal needs: for each implementation that applies, the first condition that is one of them.
/// This explains a refutation, and nothing is proved of what is listed.
///
/// # Errors
///
/// If memory is short, a table is full, or an instance would need an index that is too great.
#[tactic(auto, using(crate::proofs::SearchLaws::search_laws))]
pub fn needs_of(
    cx: &mut Interner,
    program: &Program,
    goals: &[TraitPredicate],
    goal: TraitPredicate,
) -> Result<Vec<Need>, Refusal>
    ensures { Extends cx.old cx.new }
{
    let known = Known {
        program,
        assumptions: &[],
    };
    let mut needs = Vec::new(cx.allocator());
    for implementation in 0..program.impls().len() {
        let Some(conditions) = conditions_of(cx, known, goal, implementation)? else {
            continue;
        };
        if let Some(goal) = first_of(conditions.as_slice(), goals) {
            needs.push(Need {
                implementation,
                goal,
            })?;
        }
    }
    Ok(needs)
}

/// Returns where the first of the conditions that is one of the goals is among these.
pub fn first_of(conditions: &[TraitPredicate], goals: &[TraitPredicate]) -> Option<usize> {
    for condition in conditions {
        for (number, goal) in goals.iter().enumerate() {
            if goal == condition {
                return Some(number);
            }
        }
    }
    None
}

/// Returns the conditions of the implementation at the goal, but for those with inference variables. Returns `None` if the
/// implementation doesn't apply.
#[tactic(auto, using(crate::proofs::SearchLaws::search_laws))]
pub fn conditions_of(
    cx: &mut Interner,
    known: Known<'_>,
    goal: TraitPredicate,
    number: usize,
) -> Result<Option<Vec<TraitPredicate>>, Refusal>
    ensures { Extends cx.old cx.new }
{
    let mut bindings = Bindings::new(cx.allocator());
    let candidate = Candidate::Implementation(number);
    let Some(head) = head_of(cx, known, &mut bindings, goal, candidate)? else {
        return Ok(None);
    };
    // What was made in this interner is still of this interner.
    if !goal.is_owned(cx) || !unify_goals(cx, &mut bindings, goal, head.goal)? {
        return Ok(None);
    }
    let Some(implementation) = known.implementation(number) else {
        return Ok(None);
    };
    let declared = implementation.conditions.as_slice();
    let conditions = ground_instances(cx, &bindings, head.args, declared)?;
    Ok(Some(conditions))
}

// Returns the instances of the conditions under the bindings, but for those with inference variables.
#[tactic(auto, using(crate::proofs::SearchLaws::search_laws))]
fn ground_instances(
    cx: &mut Interner,
    bindings: &Bindings,
    args: GenericArgs,
    conditions: &[TraitPredicate],
) -> Result<Vec<TraitPredicate>, Refusal>
    requires table { IsTable cx.old bindings.now }
    requires args { IsOwned args_shape cx.old args }
    ensures { Extends cx.old cx.new }
{
    let mut found = Vec::new(cx.allocator());
    for index in 0..conditions.len() {
        if let Some(goal) = ground_instance(cx, bindings, args, conditions[index])? {
            found.push(goal)?;
        }
    }
    Ok(found)
}

// Returns the instance of the condition under the bindings, unless it holds inference variables.
#[tactic(auto, using(crate::proofs::SearchLaws::search_laws))]
fn ground_instance(
    cx: &mut Interner,
    bindings: &Bindings,
    args: GenericArgs,
    condition: TraitPredicate,
) -> Result<Option<TraitPredicate>, Refusal>
    requires table { IsTable cx.old bindings.now }
    requires args { IsOwned args_shape cx.old args }
    ensures { Extends cx.old cx.new }
{
    // What was declared in this interner is still of this interner.
    if !condition.is_owned(cx) {
        return Ok(None);
    }
    let goal = instance(cx, args, condition)?;
    match resolved_goal(cx, bindings, goal)? {
        Some(goal) if !goal.has_infer(cx) => Ok(Some(goal)),
        _ => Ok(None),
    }
}
