//! Queries of terms.

ghost use Rattle.std.specs.Prelude.{◌<◌, ◌↔◌, IsTrue};
ghost use Rattle.tt_interner.specs.Rows.{size, meaning};
ghost use Rattle.tt_calls.specs.declared.call.Call.TheVariants.{Equal as AsksEqual, Info as AsksInfo};
ghost use Rattle.tt_calls.specs.Told.{told, told_all, AreOwnedAnswers, setting};
ghost use Rattle.tt_calls.specs.Means.{IsAllowed};
ghost use Rattle.tt_calls.specs.Build.{AreOfOneTable, IsInfoOf};

use crate::answer::Answer;
use crate::answers::lookup::answer_at;
use crate::answers::term_handle::{TermHandle, number_of, table_of};
use tt_index::Refusal;
use tt_interner::Interner;

/// Returns whether the terms at two positions are the same, as an answer. Refused with `NoSuchAnswer` unless two terms
/// of the same table are there.
pub fn equal_at(cx: &Interner, earlier: &[Answer], first: u32, second: u32) -> Answer
    requires { AreOwnedAnswers cx.now.rows earlier.now }
    ensures { IsAllowed
        (setting cx.now cx.now)
        (told_all cx.now.rows earlier.now)
        (AsksEqual first second)
        (told cx.now.rows result) }
{
    let Ok(first) = answer_at(earlier, first) else {
        return Answer::Refused(Refusal::NoSuchAnswer);
    };
    let Ok(second) = answer_at(earlier, second) else {
        return Answer::Refused(Refusal::NoSuchAnswer);
    };
    if !are_alike(first, second) {
        return Answer::Refused(Refusal::NoSuchAnswer);
    }
    cx.are_interned();
    Answer::Truth(number_of(first) == number_of(second))
}

// Returns whether both answers are handles of the same table.
fn are_alike(first: &Answer, second: &Answer) -> bool
    ensures { IsTrue result ↔ AreOfOneTable first.now second.now }
{
    match (table_of(first), table_of(second)) {
        (Some(first), Some(second)) => first == second,
        _ => false,
    }
}

/// Returns the flags and the outer exclusive binder of the term at the position, as an answer. Refused with
/// `NoSuchAnswer` if there is no term, or a list of generic arguments.
pub fn info_at(cx: &Interner, earlier: &[Answer], position: u32) -> Answer
    requires { AreOwnedAnswers cx.now.rows earlier.now }
    ensures { IsAllowed
        (setting cx.now cx.now)
        (told_all cx.now.rows earlier.now)
        (AsksInfo position)
        (told cx.now.rows result) }
{
    let Ok(answer) = answer_at(earlier, position) else {
        return Answer::Refused(Refusal::NoSuchAnswer);
    };
    match answer {
        Answer::Ty(ty) => info(cx, *ty),
        Answer::Const(constant) => info(cx, *constant),
        Answer::Pat(pat) => info(cx, *pat),
        Answer::Predicate(predicate) => info(cx, *predicate),
        Answer::Clauses(clauses) => info(cx, *clauses),
        _ => Answer::Refused(Refusal::NoSuchAnswer),
    }
}

// Returns the flags and the outer exclusive binder of the term.
fn info<T: TermHandle>(cx: &Interner, term: T) -> Answer
    requires { T.number term < size cx.now.rows T.table }
    ensures { IsInfoOf (meaning cx.now.rows T.table (T.number term)) result }
{
    Answer::Info {
        flags: term.flags(cx),
        outer: term.outer_exclusive_binder(cx),
    }
}
