//! Answers to goals.

ghost use Rattle.std.specs.Prelude.{◌≡◌, IfOk, OnErr, OnOk};
ghost use Rattle.tt_kinds.specs.Values.{trait_predicate_shape};
ghost use Rattle.tt_interner.specs.Owned.{AreOwned, IsOwned};
ghost use Rattle.tt_interner.specs.Stored.{Extends};
ghost use Rattle.unify.specs.Bindings.{IsRefined, IsTable, KeepsEarlier};
ghost use Rattle.solver.specs.Answers.{IsNo, IsYes};
ghost use Rattle.solver.specs.Derivations.{Derives};
ghost use Rattle.solver.specs.Program.{goals_in, impls_in, IsProgram};
ghost use Rattle.solver.specs.Search.{Continues, IsNoAnswer, IsYesAnswer, goal_under};

use crate::candidates::Known;
use crate::fault::Fault;
use crate::goals::resolved_goal;
use crate::log::{Line, are_owned_lines};
use crate::program::Program;
use crate::refutation::{place_of, refute};
use crate::refuter::refutation_of;
use crate::resolved::resolved_lines;
use crate::search::{Search, Verdict};
use crate::verifier::verify;
use std::mem;
use tt_interner::Interner;
use tt_kinds::TraitPredicate;
use tt_owned::are_owned;
use tt_visit::TypeVisitableExt;
use unify::Bindings;

/// How deep goals may nest, at most: a goal in a call of [`solve`] has depth 1, and its conditions depth 2. Each level
/// takes less than two kilobytes of the machine's stack.
pub const MOST_DEPTH: u32 = 256;

/// How far to search.
#[derive(Clone, Copy, Debug, PartialEq, Eq, Drop)]
pub struct Limits {
    /// How deep goals may nest, up to [`MOST_DEPTH`].
    pub depth: u32,
    /// How many assumptions and implementations may be tried in all.
    pub steps: u32,
}

/// What is known of a goal.
#[derive(Debug, Drop)]
pub enum Answer {
    /// The goal is derived, whatever types the variables become that are not bound. The log derives the goal in its last
    /// line.
    Yes(Vec<Line>),
    /// The goal has no derivation, whatever types the variables become that are not bound. The list is a refutation, the
    /// goal first: none of its goals is derived, since each needs one of them wherever an implementation applies.
    No(Vec<TraitPredicate>),
    /// No assumption and no implementation applies, as far as the search saw, and no refutation was found. Nothing is proved
    /// of this answer.
    Unknown,
    /// Several assumptions or implementations may apply, or the types are not known well enough.
    Ambiguous,
    /// The search reached a limit.
    Overflow,
}

// Returns the log of a search that derived the goal.
#[tactic(auto, using(crate::proofs::SearchLaws::search_laws))]
fn log_of(
    cx: &mut Interner,
    known: Known<'_>,
    search: &Search,
    goal: TraitPredicate,
) -> Result<Vec<Line>, Fault>
    requires program { IsProgram cx.old known.program.now }
    requires assumptions { AreOwned trait_predicate_shape cx.old known.assumptions.now }
    requires table { IsTable cx.old search.now.bindings }
    requires goal { IsOwned trait_predicate_shape cx.old goal }
    ensures extends { Extends cx.old cx.new }
    ensures derived { OnOk result (Derives
        (impls_in cx.old known.entry.program.now)
        (goals_in cx.old known.entry.assumptions.now)
        (goal_under cx.old search.now.bindings cx.old goal)) }
{
    let resolved = resolved_goal(cx, &search.bindings, goal)?;
    let lines = resolved_lines(cx, &search.bindings, search.lines.as_slice(), 0)?;
    // What was resolved in this interner is of this interner.
    if !are_owned_lines(cx, lines.as_slice()) {
        return Err(Fault::Unverified);
    }
    let verified = verify(cx, known.program, known.assumptions, lines.as_slice());
    match verified {
        Ok(()) => {}
        Err(fault) => return Err(fault),
    }
    match lines.last() {
        Some(line) if Some(line.goal) == resolved => Ok(lines),
        _ => Err(Fault::Unverified),
    }
}

// Returns the answer to a goal for which the search finds no candidate: no if the search finds a refutation, too.
#[tactic(auto, using(crate::proofs::SearchLaws::search_laws))]
fn no_of(
    cx: &mut Interner,
    known: Known<'_>,
    search: &mut Search,
    goal: TraitPredicate,
    depth: u32,
) -> Result<Answer, Fault>
    requires program { IsProgram cx.old known.program.now }
    requires assumptions { AreOwned trait_predicate_shape cx.old known.assumptions.now }
    requires table { IsTable cx.old search.old.bindings }
    requires goal { IsOwned trait_predicate_shape cx.old goal }
    ensures continues { Continues cx.old search.old.bindings cx.new search.new.bindings }
    ensures no { IfOk result (λ answer. IsNoAnswer answer → IsNo
        (impls_in cx.old known.entry.program.now)
        (goals_in cx.old known.entry.assumptions.now)
        (goal_under cx.old search.old.bindings cx.old goal)) }
    ensures unproved { IfOk result (λ answer. IsYesAnswer answer → ⊥) }
{
    let Some(resolved) = resolved_goal(cx, &search.bindings, goal)? else {
        return Ok(Answer::Unknown);
    };
    if resolved.has_infer(cx) {
        return Ok(Answer::Unknown);
    }
    let Some(goals) = refutation_of(cx, known, search, resolved, depth)? else {
        return Ok(Answer::Unknown);
    };
    // What was made in this interner is of this interner.
    if !are_owned(cx, goals.as_slice()) {
        return Ok(Answer::Unknown);
    }
    let Some(_place) = place_of(cx, goals.as_slice(), resolved) else {
        return Ok(Answer::Unknown);
    };
    match refute(cx, known.program, known.assumptions, goals.as_slice()) {
        Ok(()) => Ok(Answer::No(goals)),
        Err(Fault::Refused(refusal)) => Err(Fault::Refused(refusal)),
        Err(_) => Ok(Answer::Unknown),
    }
}

// Returns the answer to a goal on which the verdict is neither yes nor no.
fn unproved(verdict: Verdict) -> Answer
    ensures yes { IsYesAnswer result → ⊥ }
    ensures no { IsNoAnswer result → ⊥ }
{
    match verdict {
        Verdict::Overflow => Answer::Overflow,
        _ => Answer::Ambiguous,
    }
}

// Searches for a derivation of the goal, and for a refutation if no candidate applies.
#[tactic(auto, using(crate::proofs::SearchLaws::search_laws))]
fn answer_of(
    cx: &mut Interner,
    known: Known<'_>,
    search: &mut Search,
    goal: TraitPredicate,
    depth: u32,
) -> Result<Answer, Fault>
    requires program { IsProgram cx.old known.program.now }
    requires assumptions { AreOwned trait_predicate_shape cx.old known.assumptions.now }
    requires table { IsTable cx.old search.old.bindings }
    requires goal { IsOwned trait_predicate_shape cx.old goal }
    ensures continues { Continues cx.old search.old.bindings cx.new search.new.bindings }
    ensures yes { IfOk result (λ answer. IsYesAnswer answer → Derives
        (impls_in cx.old known.entry.program.now)
        (goals_in cx.old known.entry.assumptions.now)
        (goal_under cx.new search.new.bindings cx.old goal)) }
    ensures no { IfOk result (λ answer. IsNoAnswer answer → IsNo
        (impls_in cx.old known.entry.program.now)
        (goals_in cx.old known.entry.assumptions.now)
        (goal_under cx.old search.old.bindings cx.old goal)) }
{
    let begin = search.bindings.snapshot();
    match search.solve_goal(cx, known, goal, depth) {
        Ok(Verdict::Yes(_)) => match log_of(cx, known, search, goal) {
            Ok(log) => Ok(Answer::Yes(log)),
            Err(fault) => Err(fault),
        },
        Ok(Verdict::No) => {
            // The answer is about the bindings from before the search.
            search.bindings.rollback_to(begin);
            no_of(cx, known, search, goal, depth)
        }
        Ok(verdict) => Ok(unproved(verdict)),
        Err(refusal) => Err(Fault::Refused(refusal)),
    }
}

/// Searches for a derivation of a goal from a program and assumptions. A goal may hold inference variables, which the
/// answer binds: if one candidate applies, the variables that its derivation needs, and no others.
///
/// The assumptions come before the implementations. A candidate that binds no variable of the goal is taken at once.
/// Otherwise the answer is yes if one candidate applies and no other may. A goal that is a condition of itself is not
/// derived from itself. A goal with a constant that holds an inference variable is ambiguous, and so is a goal to which an
/// assumption with an inference variable may apply.
///
/// If no candidate applies, the answer is no where a refutation is found that [`refute`](crate::refute) accepts. Otherwise it
/// is unknown, as for goals and assumptions with inference variables, and for arguments that aren't types.
///
/// # Errors
///
/// If a call fails, or the answer isn't [`Answer::Yes`], the bindings are as before.
///
/// - [`Fault::Refused`] if memory is short, a table is full, or an instance would need an index that is too great
/// - [`Fault::Unverified`] never comes: it would mean that the search lists a line that doesn't follow
#[tactic(auto, using(crate::proofs::SearchLaws::search_laws))]
pub fn solve(
    cx: &mut Interner,
    program: &Program,
    assumptions: &[TraitPredicate],
    bindings: &mut Bindings,
    goal: TraitPredicate,
    limits: Limits,
) -> Result<Answer, Fault>
    requires program { IsProgram cx.old program.now }
    requires assumptions { AreOwned trait_predicate_shape cx.old assumptions.now }
    requires table { IsTable cx.old bindings.old }
    requires goal { IsOwned trait_predicate_shape cx.old goal }
    ensures extends { Extends cx.old cx.new }
    ensures refined { IsRefined cx.old bindings.old cx.new bindings.new }
    ensures earlier { KeepsEarlier bindings.old bindings.new }
    ensures yes { IfOk result (λ answer. IsYesAnswer answer → IsYes
        (impls_in cx.old program.now)
        (goals_in cx.old assumptions.now)
        (goal_under cx.new bindings.new cx.old goal)) }
    ensures no { IfOk result (λ answer. IsNoAnswer answer → IsNo
        (impls_in cx.old program.now)
        (goals_in cx.old assumptions.now)
        (goal_under cx.old bindings.old cx.old goal)) }
    ensures same { IfOk result (λ answer. (IsYesAnswer answer → ⊥) → bindings.new ≡ bindings.old) }
    ensures undone { OnErr result (bindings.new ≡ bindings.old) }
{
    let depth = if limits.depth < MOST_DEPTH {
        limits.depth
    } else {
        MOST_DEPTH
    };
    let known = Known {
        program,
        assumptions,
    };
    let mark = bindings.snapshot();
    let taken = mem::replace(bindings, Bindings::new(cx.allocator()));
    let mut search = Search::new(cx, taken, limits.steps);
    let answer = answer_of(cx, known, &mut search, goal, depth);
    if let Ok(Answer::Yes(_)) = &answer {
        *bindings = search.bindings;
        return answer;
    }
    search.bindings.rollback_to(mark);
    *bindings = search.bindings;
    answer
}
