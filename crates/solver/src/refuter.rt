//! The search for a refutation.

ghost use Rattle.unify.specs.Bindings.{IsTable};
ghost use Rattle.solver.specs.Search.{Continues};

use crate::candidates::Known;
use crate::needs::{conditions_of, first_of};
use crate::search::{Search, Verdict};
use tt_index::Refusal;
use tt_interner::Interner;
use tt_kinds::TraitPredicate;

// How many goals a refutation has, at most.
const MOST_GOALS: usize = 1_000;

/// Returns goals that refute one another, the given one first, if they are found. None of them holds an inference variable
/// if the given one doesn't.
#[tactic(auto, using(crate::proofs::SearchLaws::search_laws))]
pub fn refutation_of(
    cx: &mut Interner,
    known: Known<'_>,
    search: &mut Search,
    goal: TraitPredicate,
    depth: u32,
) -> Result<Option<Vec<TraitPredicate>>, Refusal>
    requires { IsTable cx.old search.old.bindings }
    ensures { Continues cx.old search.old.bindings cx.new search.new.bindings }
{
    let mut goals = Vec::new(cx.allocator());
    goals.push(goal)?;
    for index in 0..MOST_GOALS {
        if index >= goals.len() {
            return Ok(Some(goals));
        }
        let goal = goals[index];
        if !refute_goal(cx, known, search, &mut goals, goal, depth)? {
            return Ok(None);
        }
    }
    Ok(None)
}

// Returns whether the goal is no assumption, and the goals have a condition of each implementation that applies, after what is
// lacking was added to them.
#[tactic(auto, using(crate::proofs::SearchLaws::search_laws))]
fn refute_goal(
    cx: &mut Interner,
    known: Known<'_>,
    search: &mut Search,
    goals: &mut Vec<TraitPredicate>,
    goal: TraitPredicate,
    depth: u32,
) -> Result<bool, Refusal>
    requires { IsTable cx.old search.old.bindings }
    ensures { Continues cx.old search.old.bindings cx.new search.new.bindings }
{
    if known.assumptions.contains(&goal) {
        return Ok(false);
    }
    for number in 0..known.program.impls().len() {
        let Some(conditions) = conditions_of(cx, known, goal, number)? else {
            continue;
        };
        if !refute_one(cx, known, search, goals, conditions.as_slice(), depth)? {
            return Ok(false);
        }
    }
    Ok(true)
}

// Adds the first condition for which the search finds no candidate to the goals, unless they have one of the conditions. An only
// condition is added in any case. Returns whether they have one then.
#[tactic(auto, using(crate::proofs::SearchLaws::search_laws))]
fn refute_one(
    cx: &mut Interner,
    known: Known<'_>,
    search: &mut Search,
    goals: &mut Vec<TraitPredicate>,
    conditions: &[TraitPredicate],
    depth: u32,
) -> Result<bool, Refusal>
    requires { IsTable cx.old search.old.bindings }
    ensures { Continues cx.old search.old.bindings cx.new search.new.bindings }
{
    if first_of(conditions, goals.as_slice()).is_some() {
        return Ok(true);
    }
    // An only condition leaves no choice, so a long chain is searched once.
    if conditions.len() == 1 {
        goals.push(conditions[0])?;
        return Ok(true);
    }
    for index in 0..conditions.len() {
        let condition = conditions[index];
        if search.solve_goal(cx, known, condition, depth)? == Verdict::No {
            goals.push(condition)?;
            return Ok(true);
        }
    }
    Ok(false)
}
