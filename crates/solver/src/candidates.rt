//! What may derive a goal.

ghost use Rattle.std.specs.Prelude.{IfOk, IfSome};
ghost use Rattle.tt_kinds.specs.Kinds.{args_shape};
ghost use Rattle.tt_kinds.specs.Values.{trait_predicate_shape};
ghost use Rattle.tt_interner.specs.Owned.{IsOwned};
ghost use Rattle.unify.specs.Bindings.{IsTable};
ghost use Rattle.solver.specs.Search.{Continues, IsOwnedHead};

use crate::goals::{fresh_args, instance, resolved_goal, unify_goals};
use crate::program::{Impl, Program};
use tt_index::Refusal;
use tt_interner::Interner;
use tt_kinds::{GenericArgs, TraitPredicate};
use tt_owned::Owned;
use tt_visit::TypeVisitableExt;
use unify::Bindings;

/// What goals may be derived from.
#[derive(Clone, Copy)]
pub struct Known<'a> {
    pub program: &'a Program,
    pub assumptions: &'a [TraitPredicate],
}

impl<'a> Known<'a> {
    /// Returns the implementation of this number.
    pub fn implementation(&self, number: usize) -> Option<&'a Impl> {
        self.program.impls().get(number)
    }
}

/// What may derive a goal: the assumption or the implementation of a number.
#[derive(Clone, Copy, Debug, PartialEq, Eq, Drop)]
pub enum Candidate {
    Assumption(usize),
    Implementation(usize),
}

/// The head of a candidate, with new variables in place of its parameters.
#[derive(Clone, Copy)]
pub struct Head {
    pub goal: TraitPredicate,
    pub args: GenericArgs,
}

/// Returns the candidate's head, if there is one that is about the goal's trait.
#[tactic(auto, using(crate::proofs::SearchLaws::search_laws))]
pub fn head_of(
    cx: &mut Interner,
    known: Known<'_>,
    bindings: &mut Bindings,
    goal: TraitPredicate,
    candidate: Candidate,
) -> Result<Option<Head>, Refusal>
    requires { IsTable cx.old bindings.old }
    ensures continues { Continues cx.old bindings.old cx.new bindings.new }
    ensures owned { IfOk result (λ found. IfSome found (IsOwnedHead cx.new)) }
{
    let (declared, params) = match candidate {
        Candidate::Assumption(number) => match known.assumptions.get(number) {
            Some(assumption) => (*assumption, 0),
            None => return Ok(None),
        },
        Candidate::Implementation(number) => match known.implementation(number) {
            Some(implementation) => (implementation.head, implementation.params),
            None => return Ok(None),
        },
    };
    // What was declared in this interner is still of this interner.
    if declared.trait_ref.def_id != goal.trait_ref.def_id || !declared.is_owned(cx) {
        return Ok(None);
    }
    let args = fresh_args(cx, bindings, params)?;
    let goal = match candidate {
        Candidate::Assumption(_) => declared,
        Candidate::Implementation(_) => instance(cx, args, declared)?,
    };
    Ok(Some(Head { goal, args }))
}

// How a candidate's head fits a goal.
#[derive(Clone, Copy, Debug, PartialEq, Eq, Drop)]
enum Fit {
    // the head and the goal are equal as soon as the head's own variables are bound
    Exact,
    // the goal's variables have to be bound, too
    Binding,
}

// Returns how the candidate's head fits the goal, if they can be made equal. The bindings are as before.
#[tactic(auto, using(crate::proofs::SearchLaws::search_laws))]
fn fit_of(
    cx: &mut Interner,
    known: Known<'_>,
    bindings: &mut Bindings,
    goal: TraitPredicate,
    candidate: Candidate,
) -> Result<Option<Fit>, Refusal>
    requires table { IsTable cx.old bindings.old }
    requires goal { IsOwned trait_predicate_shape cx.old goal }
    ensures { Continues cx.old bindings.old cx.new bindings.new }
{
    let mark = bindings.snapshot();
    let Some(head) = head_of(cx, known, bindings, goal, candidate)? else {
        return Ok(None);
    };
    let is_equal = unify_goals(cx, bindings, goal, head.goal)?;
    let resolved = resolved_goal(cx, bindings, goal)?;
    bindings.rollback_to(mark);
    if !is_equal {
        return Ok(None);
    }
    match resolved {
        Some(resolved) if resolved == goal => Ok(Some(Fit::Exact)),
        _ => Ok(Some(Fit::Binding)),
    }
}

// Returns the candidates, the assumptions first.
fn all(cx: &Interner, known: Known<'_>) -> Result<Vec<Candidate>, Refusal> {
    let mut candidates = Vec::new(cx.allocator());
    for number in 0..known.assumptions.len() {
        candidates.push(Candidate::Assumption(number))?;
    }
    for number in 0..known.program.impls().len() {
        candidates.push(Candidate::Implementation(number))?;
    }
    Ok(candidates)
}

/// Returns the candidates whose heads can be made equal to the goal. Those that bind no variable of the goal come first.
#[tactic(auto, using(crate::proofs::SearchLaws::search_laws))]
pub fn matching(
    cx: &mut Interner,
    known: Known<'_>,
    bindings: &mut Bindings,
    goal: TraitPredicate,
) -> Result<Vec<Candidate>, Refusal>
    requires table { IsTable cx.old bindings.old }
    requires goal { IsOwned trait_predicate_shape cx.old goal }
    ensures { Continues cx.old bindings.old cx.new bindings.new }
{
    let candidates = all(cx, known)?;
    let mut found = Vec::new(cx.allocator());
    let mut binding = Vec::new(cx.allocator());
    for index in 0..candidates.len() {
        match fit_of(cx, known, bindings, goal, candidates[index])? {
            Some(Fit::Exact) => found.push(candidates[index])?,
            Some(Fit::Binding) => binding.push(candidates[index])?,
            None => {}
        }
    }
    found.extend_from_slice(binding.as_slice())?;
    Ok(found)
}
