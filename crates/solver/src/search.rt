//! The search for a derivation.

ghost use Rattle.std.specs.Prelude.{◌≡◌};
ghost use Rattle.tt_kinds.specs.Kinds.{args_shape};
ghost use Rattle.tt_kinds.specs.Values.{trait_predicate_shape};
ghost use Rattle.tt_interner.specs.Owned.{IsOwned};
ghost use Rattle.tt_interner.specs.Stored.{Extends};
ghost use Rattle.unify.specs.Bindings.{IsTable};
ghost use Rattle.solver.specs.Search.{Continues};

use crate::candidates::{Candidate, Known, head_of, matching};
use crate::goals::{instance, make_variables, resolved_goal, unify_goals};
use crate::log::{Line, Reason};
use crate::resolved::resolved_lines;
use tt_index::Refusal;
use tt_interner::Interner;
use tt_kinds::{GenericArgs, TraitPredicate};
use tt_owned::Owned;
use tt_visit::TypeVisitableExt;
use unify::Bindings;

/// What a search knows of a goal.
#[derive(Clone, Copy, Debug, PartialEq, Eq, Drop)]
pub enum Verdict {
    /// The line of this number derives the goal.
    Yes(usize),
    /// No candidate applies.
    No,
    /// More than one candidate may apply, or the types are not known well enough.
    Ambiguous,
    /// The search reached a limit.
    Overflow,
}

/// A search: the lines that it found, and what it is looking for.
#[derive(Drop)]
pub struct Search {
    /// What is bound.
    pub bindings: Bindings,
    /// What is derived under these bindings.
    pub lines: Vec<Line>,
    // the goals that are being searched for, each of which has the next one as a condition
    open: Vec<TraitPredicate>,
    // how many more candidates may be tried
    steps: u32,
}

// An answer to a goal that one candidate gives, and the lines that derive it.
#[derive(Drop)]
struct Found {
    goal: TraitPredicate,
    lines: Vec<Line>,
    // how many variables the table had then
    variables: usize,
}

// What a candidate gives.
#[derive(Drop)]
enum Outcome {
    // the line of this number derives the goal, and no variable in the goal was bound
    Derived(usize),
    // the goal is derived if variables in it are bound
    Bound(Found),
    Rest(Verdict),
}

// A condition, and the number of the line that derives it, if there is one yet.
#[derive(Clone, Copy, Drop)]
struct Condition {
    goal: TraitPredicate,
    line: Option<usize>,
}

// What a round over conditions gives.
#[derive(Clone, Copy, Drop)]
struct Round {
    // whether a further condition was derived
    has_gained: bool,
    // the verdict on those that aren't derived, if there are any
    rest: Option<Verdict>,
}

// Returns the verdict on a goal of whose candidates none is taken, by the verdicts on two of them.
fn of_either(first: Verdict, second: Verdict) -> Verdict {
    match (first, second) {
        (Verdict::Overflow, _) | (_, Verdict::Overflow) => Verdict::Overflow,
        (Verdict::Ambiguous, _) | (_, Verdict::Ambiguous) => Verdict::Ambiguous,
        _ => second,
    }
}

// Returns the verdict on several conditions, by one on those before and one on a further condition that isn't derived.
fn of_both(rest: Option<Verdict>, verdict: Verdict) -> Verdict {
    match (rest, verdict) {
        (Some(Verdict::No), _) | (_, Verdict::No) => Verdict::No,
        (Some(Verdict::Overflow), _) => Verdict::Overflow,
        _ => verdict,
    }
}

// Returns whether two answers bind the variables of a goal alike.
fn are_equal(first: &Found, second: &Found) -> bool {
    first.goal == second.goal
}

// Returns the verdict on a goal that is a condition of itself: derivations are finite, but variables may yet be bound.
fn verdict_of_cycle(cx: &Interner, goal: TraitPredicate) -> Verdict
    requires { IsOwned trait_predicate_shape cx.now goal }
{
    if goal.has_infer(cx) {
        Verdict::Ambiguous
    } else {
        Verdict::No
    }
}

// Returns the goals' instances at the arguments as conditions that aren't derived yet.
#[tactic(auto, using(crate::proofs::SearchLaws::search_laws))]
fn instances(
    cx: &mut Interner,
    args: GenericArgs,
    goals: &[TraitPredicate],
) -> Result<Vec<Condition>, Refusal>
    requires { IsOwned args_shape cx.old args }
    ensures { Extends cx.old cx.new }
{
    let mut found = Vec::new(cx.allocator());
    for index in 0..goals.len() {
        // What was declared in this interner is still of this interner.
        if goals[index].is_owned(cx) {
            let goal = instance(cx, args, goals[index])?;
            found.push(Condition { goal, line: None })?;
        }
    }
    Ok(found)
}

// Returns the numbers of the lines that derive the conditions, if each condition is derived.
fn lines_of(cx: &Interner, conditions: &[Condition]) -> Result<Option<Vec<usize>>, Refusal> {
    let mut numbers = Vec::new(cx.allocator());
    for condition in conditions {
        match condition.line {
            Some(line) => numbers.push(line)?,
            None => return Ok(None),
        }
    }
    Ok(Some(numbers))
}

impl Search {
    /// Returns a search that may try this many candidates.
    pub fn new(cx: &Interner, bindings: Bindings, steps: u32) -> Search
        ensures { result.bindings ≡ bindings }
    {
        Search {
            bindings,
            lines: Vec::new(cx.allocator()),
            open: Vec::new(cx.allocator()),
            steps,
        }
    }

    // Returns the number of a line that derives the goal.
    fn line_of(&self, goal: TraitPredicate) -> Option<usize> {
        for (number, line) in self.lines.iter().enumerate() {
            if line.goal == goal {
                return Some(number);
            }
        }
        None
    }

    // Adds a line.
    fn push_line(&mut self, goal: TraitPredicate, reason: Reason) -> Result<Verdict, Refusal>
        ensures { self.new.bindings ≡ self.old.bindings }
    {
        let number = self.lines.len();
        self.lines.push(Line { goal, reason })?;
        Ok(Verdict::Yes(number))
    }

    /// Searches for a derivation of the goal. Binds variables if there is one and no other one may be, and none otherwise.
    #[cycle(search)]
    #[tactic(auto, using(crate::proofs::SearchLaws::search_laws))]
    pub fn solve_goal(
        &mut self,
        cx: &mut Interner,
        known: Known<'_>,
        goal: TraitPredicate,
        depth: u32,
    ) -> Result<Verdict, Refusal>
        requires { IsTable cx.old self.old.bindings }
        ensures { Continues cx.old self.old.bindings cx.new self.new.bindings }
    {
        // An instance that was made in this interner is still of this interner.
        if !goal.is_owned(cx) {
            return Ok(Verdict::Ambiguous);
        }
        let Some(goal) = resolved_goal(cx, &self.bindings, goal)? else {
            return Ok(Verdict::Ambiguous);
        };
        if let Some(line) = self.line_of(goal) {
            return Ok(Verdict::Yes(line));
        }
        if self.open.contains(&goal) {
            return Ok(verdict_of_cycle(cx, goal));
        }
        if depth == 0 {
            return Ok(Verdict::Overflow);
        }
        let candidates = matching(cx, known, &mut self.bindings, goal)?;
        self.open.push(goal)?;
        let verdict = self.choose(cx, known, goal, candidates.as_slice(), depth - 1);
        self.open.pop();
        verdict
    }

    // Takes the one candidate that applies, or one that binds nothing.
    #[cycle(search)]
    #[tactic(auto, using(crate::proofs::SearchLaws::search_laws))]
    fn choose(
        &mut self,
        cx: &mut Interner,
        known: Known<'_>,
        goal: TraitPredicate,
        candidates: &[Candidate],
        depth: u32,
    ) -> Result<Verdict, Refusal>
        requires table { IsTable cx.old self.old.bindings }
        requires goal { IsOwned trait_predicate_shape cx.old goal }
        ensures { Continues cx.old self.old.bindings cx.new self.new.bindings }
    {
        if candidates.len() == 1 {
            return self.attempt(cx, known, goal, candidates[0], depth);
        }
        let mut found = None;
        let mut rest = Verdict::No;
        for index in 0..candidates.len() {
            match self.alternative(cx, known, goal, candidates[index], depth)? {
                Outcome::Derived(line) => return Ok(Verdict::Yes(line)),
                Outcome::Bound(answer) => match &found {
                    None => found = Some(answer),
                    Some(other) if are_equal(other, &answer) => {}
                    // Candidates that bind nothing came first.
                    Some(_) => return Ok(Verdict::Ambiguous),
                },
                Outcome::Rest(verdict) => rest = of_either(rest, verdict),
            }
        }
        match found {
            Some(answer) if rest == Verdict::No => self.accept(cx, goal, answer),
            Some(_) => Ok(Verdict::Ambiguous),
            None => Ok(rest),
        }
    }

    // Tries a candidate beside others. Unless no variable in the goal has to be bound, the bindings are as before.
    #[cycle(search)]
    #[tactic(auto, using(crate::proofs::SearchLaws::search_laws))]
    fn alternative(
        &mut self,
        cx: &mut Interner,
        known: Known<'_>,
        goal: TraitPredicate,
        candidate: Candidate,
        depth: u32,
    ) -> Result<Outcome, Refusal>
        requires table { IsTable cx.old self.old.bindings }
        requires goal { IsOwned trait_predicate_shape cx.old goal }
        ensures { Continues cx.old self.old.bindings cx.new self.new.bindings }
    {
        let mark = self.bindings.snapshot();
        let count = self.lines.len();
        let verdict = self.attempt(cx, known, goal, candidate, depth)?;
        let Verdict::Yes(line) = verdict else {
            return Ok(Outcome::Rest(verdict));
        };
        let answer = resolved_goal(cx, &self.bindings, goal)?;
        if answer == Some(goal) {
            return Ok(Outcome::Derived(line));
        }
        let lines = resolved_lines(cx, &self.bindings, self.lines.as_slice(), count)?;
        let variables = self.bindings.len();
        self.bindings.rollback_to(mark);
        self.lines.truncate(count);
        match answer {
            Some(goal) => Ok(Outcome::Bound(Found {
                goal,
                lines,
                variables,
            })),
            None => Ok(Outcome::Rest(Verdict::Ambiguous)),
        }
    }

    // Tries a candidate. Unless the goal is derived, the bindings are as before.
    #[cycle(search)]
    #[tactic(auto, using(crate::proofs::SearchLaws::search_laws))]
    fn attempt(
        &mut self,
        cx: &mut Interner,
        known: Known<'_>,
        goal: TraitPredicate,
        candidate: Candidate,
        depth: u32,
    ) -> Result<Verdict, Refusal>
        requires table { IsTable cx.old self.old.bindings }
        requires goal { IsOwned trait_predicate_shape cx.old goal }
        ensures { Continues cx.old self.old.bindings cx.new self.new.bindings }
    {
        let mark = self.bindings.snapshot();
        let count = self.lines.len();
        let verdict = self.apply(cx, known, goal, candidate, depth)?;
        let Verdict::Yes(_) = verdict else {
            self.bindings.rollback_to(mark);
            self.lines.truncate(count);
            return Ok(verdict);
        };
        Ok(verdict)
    }

    // Makes the candidate's head equal to the goal, and searches for its conditions.
    #[cycle(search)]
    #[tactic(auto, using(crate::proofs::SearchLaws::search_laws))]
    fn apply(
        &mut self,
        cx: &mut Interner,
        known: Known<'_>,
        goal: TraitPredicate,
        candidate: Candidate,
        depth: u32,
    ) -> Result<Verdict, Refusal>
        requires table { IsTable cx.old self.old.bindings }
        requires goal { IsOwned trait_predicate_shape cx.old goal }
        ensures { Continues cx.old self.old.bindings cx.new self.new.bindings }
    {
        if self.steps == 0 {
            return Ok(Verdict::Overflow);
        }
        self.steps -= 1;
        let Some(head) = head_of(cx, known, &mut self.bindings, goal, candidate)? else {
            return Ok(Verdict::No);
        };
        if !unify_goals(cx, &mut self.bindings, goal, head.goal)? {
            return Ok(Verdict::No);
        }
        match candidate {
            // Which types an assumption's variables are isn't known.
            Candidate::Assumption(_) if head.goal.has_infer(cx) => Ok(Verdict::Ambiguous),
            Candidate::Assumption(number) => self.push_line(goal, Reason::Assumed(number)),
            Candidate::Implementation(number) => self.implement(
                cx, known, goal, number, head.args, depth,
            ),
        }
    }

    // Searches for the conditions of the implementation.
    #[cycle(search)]
    #[tactic(auto, using(crate::proofs::SearchLaws::search_laws))]
    fn implement(
        &mut self,
        cx: &mut Interner,
        known: Known<'_>,
        goal: TraitPredicate,
        number: usize,
        args: GenericArgs,
        depth: u32,
    ) -> Result<Verdict, Refusal>
        requires table { IsTable cx.old self.old.bindings }
        requires args { IsOwned args_shape cx.old args }
        ensures { Continues cx.old self.old.bindings cx.new self.new.bindings }
    {
        let Some(implementation) = known.implementation(number) else {
            return Ok(Verdict::No);
        };
        let mut conditions = instances(cx, args, implementation.conditions.as_slice())?;
        if let Some(verdict) = self.solve_rounds(cx, known, &mut conditions, depth)? {
            return Ok(verdict);
        }
        match lines_of(cx, conditions.as_slice())? {
            Some(conditions) => self.push_line(
                goal,
                Reason::Implemented {
                    number,
                    args,
                    conditions,
                },
            ),
            None => Ok(Verdict::Ambiguous),
        }
    }

    // Searches for the conditions, in rounds while a further one is derived: what one binds may decide another. Returns
    // the verdict on the rest, if not all are derived.
    #[cycle(search)]
    #[tactic(auto, using(crate::proofs::SearchLaws::search_laws))]
    fn solve_rounds(
        &mut self,
        cx: &mut Interner,
        known: Known<'_>,
        conditions: &mut Vec<Condition>,
        depth: u32,
    ) -> Result<Option<Verdict>, Refusal>
        requires { IsTable cx.old self.old.bindings }
        ensures { Continues cx.old self.old.bindings cx.new self.new.bindings }
    {
        for _ in 0..conditions.len() {
            let round = self.solve_round(cx, known, conditions, depth)?;
            match round.rest {
                Some(verdict) if verdict == Verdict::No || !round.has_gained => {
                    return Ok(Some(verdict));
                }
                Some(_) => {}
                None => return Ok(None),
            }
        }
        Ok(None)
    }

    // Searches for each condition that isn't derived yet.
    #[cycle(search)]
    #[tactic(auto, using(crate::proofs::SearchLaws::search_laws))]
    fn solve_round(
        &mut self,
        cx: &mut Interner,
        known: Known<'_>,
        conditions: &mut Vec<Condition>,
        depth: u32,
    ) -> Result<Round, Refusal>
        requires { IsTable cx.old self.old.bindings }
        ensures { Continues cx.old self.old.bindings cx.new self.new.bindings }
    {
        let mut has_gained = false;
        let mut rest = None;
        for index in 0..conditions.len() {
            let Condition { goal, line: None } = conditions[index] else {
                continue;
            };
            match self.solve_goal(cx, known, goal, depth)? {
                Verdict::Yes(line) => {
                    conditions[index].line = Some(line);
                    has_gained = true;
                }
                verdict => rest = Some(of_both(rest, verdict)),
            }
        }
        Ok(Round { has_gained, rest })
    }

    // Takes the answer that was found: binds the variables, and adds the lines.
    #[tactic(auto, using(crate::proofs::SearchLaws::search_laws))]
    fn accept(
        &mut self,
        cx: &mut Interner,
        goal: TraitPredicate,
        answer: Found,
    ) -> Result<Verdict, Refusal>
        requires table { IsTable cx.old self.old.bindings }
        requires goal { IsOwned trait_predicate_shape cx.old goal }
        ensures { Continues cx.old self.old.bindings cx.new self.new.bindings }
    {
        let Found {
            goal: found,
            lines,
            variables,
        } = answer;
        // What was resolved in this interner is still of this interner.
        if !found.is_owned(cx) {
            return Ok(Verdict::Ambiguous);
        }
        make_variables(cx, &mut self.bindings, variables)?;
        if !unify_goals(cx, &mut self.bindings, goal, found)? {
            return Ok(Verdict::Ambiguous);
        }
        for line in lines {
            self.lines.push(line)?;
        }
        match self.lines.len().checked_sub(1) {
            Some(last) => Ok(Verdict::Yes(last)),
            None => Ok(Verdict::Ambiguous),
        }
    }
}
