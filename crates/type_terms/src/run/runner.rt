//! Running calls.

ghost use Rattle.std.specs.Prelude.{◌≡◌, ◌<◌, ◌∷◌, ◌++◌, IsOk, IfOk, IfErr, OnOk, OnErr, MatchResult, List, []};
ghost use Rattle.std.specs.Vec.{vec_len, vec_capacity};
ghost use Rattle.tt_calls.specs.declared.call.Call.{Call};
ghost use Rattle.tt_interner.specs.Stored.{Terms, Extends};
ghost use Rattle.tt_calls.specs.Told.{told, told_all, setting, IsOwnedAnswer, AreOwnedAnswers};
ghost use Rattle.tt_calls.specs.Means.{id_positions, AreTerms, IsAllowed, Means};
ghost use Rattle.type_terms.specs.Runner.{AddsAnswer, AnswersInTurn};

use crate::run::answers::folds::{erase_at, instantiate_at, shift_at};
use tt_calls::answers::ids::call_is_declared;
use tt_calls::answers::queries::{equal_at, info_at};
use tt_calls::build::clauses::build_clauses;
use tt_calls::build::consts::{build_args_answer, build_const};
use tt_calls::build::declarations::declare_at;
use tt_calls::build::patterns::build_pat;
use tt_calls::build::predicates::build_predicate;
use tt_calls::build::types::build_ty;
use tt_calls::{Answer, Call};
use tt_index::Refusal;
use tt_interner::Interner;

/// Answers each call in order. The positions in a call name answers to earlier calls.
///
/// Refused with `Memory` if there is no memory for the list of answers, and never otherwise. If a call is refused, the
/// calls after it are still answered.
///
/// Each answer is one that its call may have in the interner as the earlier calls left it. In particular, these calls
/// are refused with neither `Memory` nor `TableFull`:
///
/// - a call that builds a term which is stored already, even if only as a part of another term, unless the term has a
///   list of more than eight items (terms, arguments, existential predicates or variables of a binder). Such a list is
///   collected in memory before it is looked up;
/// - a shift by 0, or of a term that no variable escapes;
/// - an erasing of the regions of a term in which each region is canonical or bound by one of the term's own binders;
/// - an instantiation of a type or a constant that is itself a parameter;
/// - an instantiation of a term without parameters, if there are no arguments, or if no region variable occurs in the
///   term outside of types, predicates and lists of clauses;
/// - `Equal`, `Info` and `Bad`.
pub fn run_calls(cx: &mut Interner, calls: &[Call]) -> Result<Vec<Answer>, Refusal>
    ensures extends { Extends cx.old cx.new }
    ensures owned { IfOk result (λ answers. AreOwnedAnswers cx.new.rows answers.items) }
    ensures means { IfOk result (λ answers. Means
        (setting cx.old cx.new)
        []
        calls.now
        (told_all cx.new.rows answers.items)) }
    ensures in_turn { IfOk result (λ answers. AnswersInTurn cx.old cx.new [] calls.now answers.items) }
    ensures cause { IfErr result (λ e. e ≡ Refusal.Memory) }
{
    let mut answers = Vec::with_capacity(cx.allocator(), calls.len())?;
    for call in calls {
        answer_next(cx, &mut answers, call)?;
    }
    Ok(answers)
}

/// Answers a call that comes after these answers, and appends its answer to them. With it you can answer calls one at a
/// time: if `answers` has the answers to the calls before this one, it then has the answers to all of the calls.
///
/// Refused with `Memory` if the list of answers is full and cannot grow, and never otherwise. Then the answers are
/// unchanged. The appended answer itself is a refusal with `Memory` only where an answer of [`run_calls`] may be one.
pub fn answer_next(cx: &mut Interner, answers: &mut Vec<Answer>, call: &Call) -> Result<(), Refusal>
    requires { AreOwnedAnswers cx.old.rows answers.old.items }
    // In each case:
    ensures extends { Extends cx.old cx.new }
    ensures owned { AreOwnedAnswers cx.new.rows answers.new.items }
    // On success:
    ensures allowed { OnOk result (AddsAnswer cx.old cx.new answers.old.items call.now answers.new.items) }
    ensures means { OnOk result ((first : Terms) (before : List Call) → Extends first cx.old →
        Means (setting first cx.old) [] before (told_all cx.old.rows answers.old.items) →
        Means (setting first cx.new) [] (before ++ call.now ∷ []) (told_all cx.new.rows answers.new.items)) }
    // On a refusal:
    ensures cause { IfErr result (λ e. e ≡ Refusal.Memory) }
    ensures stay { OnErr result (answers.new.items ≡ answers.old.items) }
    // Where there is room for the answer:
    ensures room { vec_len answers.old < vec_capacity answers.old → IsOk result }
{
    let answer = answer_call(cx, answers.as_slice(), call);
    answers.push(answer)?;
    Ok(())
}

// Returns the answer to a call after these answers.
fn answer_call(cx: &mut Interner, earlier: &[Answer], call: &Call) -> Answer
    requires { AreOwnedAnswers cx.old.rows earlier.now }
    ensures extends { Extends cx.old cx.new }
    ensures owned { IsOwnedAnswer cx.new.rows result }
    ensures allowed { IsAllowed
        (setting cx.old cx.new)
        (told_all cx.old.rows earlier.now)
        call.now
        (told cx.new.rows result) }
{
    if call_is_declared(earlier, call) {
        answer_named(cx, earlier, call)
    } else {
        Answer::Refused(Refusal::NoSuchAnswer)
    }
}

// Returns the answer to a call if the ids that it names are there.
#[inline(always)]
fn answer_named(cx: &mut Interner, earlier: &[Answer], call: &Call) -> Answer
    requires owned { AreOwnedAnswers cx.old.rows earlier.now }
    requires named { AreTerms (told_all cx.old.rows earlier.now) (id_positions call.now) }
    ensures extends { Extends cx.old cx.new }
    ensures owned { IsOwnedAnswer cx.new.rows result }
    ensures allowed { IsAllowed
        (setting cx.old cx.new)
        (told_all cx.old.rows earlier.now)
        call.now
        (told cx.new.rows result) }
{
    match call {
        Call::Ty(kind) => outcome_answer(build_ty(cx, earlier, kind)),
        Call::Const(kind) => outcome_answer(build_const(cx, earlier, kind)),
        Call::Pat(kind) => outcome_answer(build_pat(cx, earlier, kind)),
        Call::Predicate(kind) => outcome_answer(build_predicate(cx, earlier, kind)),
        Call::Clauses(positions) => {
            outcome_answer(build_clauses(cx, earlier, positions.as_slice()))
        }
        Call::Args(args) => outcome_answer(build_args_answer(cx, earlier, args.as_slice())),
        Call::Declare(declaration) => outcome_answer(declare_at(cx, earlier, declaration)),
        Call::Shift(position, amount) => {
            outcome_answer(shift_at(cx, earlier, *position, *amount))
        }
        Call::Instantiate(position, args) => outcome_answer(instantiate_at(
            cx,
            earlier,
            *position,
            args.as_slice(),
        )),
        Call::EraseRegions(position) => outcome_answer(erase_at(cx, earlier, *position)),
        Call::Equal(first, second) => equal_at(cx, earlier, *first, *second),
        Call::Info(position) => info_at(cx, earlier, *position),
        Call::Bad => Answer::Bad,
    }
}

// Returns the outcome of a call that builds, declares or folds, as its answer.
fn outcome_answer(outcome: Result<Answer, Refusal>) -> Answer
    ensures { MatchResult outcome (λ answer. result ≡ answer) (λ e. result ≡ Answer.Refused e) }
{
    match outcome {
        Ok(answer) => answer,
        Err(refusal) => Answer::Refused(refusal),
    }
}
