//! Earlier answers, by their positions.

ghost use Rattle.std.specs.Prelude.{◌≡◌, ◌≤◌, IfOk, IfErr, None, List, take, length};
ghost use Rattle.tt_index.specs.declared.refusal.Refusal.TheVariants.{NoSuchAnswer};
ghost use Rattle.tt_kinds.specs.Shape.{stored};
ghost use Rattle.tt_interner.specs.Rows.{Row};
ghost use Rattle.tt_interner.specs.Stored.{Terms};
ghost use Rattle.tt_calls.specs.CallForm.{one, a_term, terms_at};
ghost use Rattle.tt_calls.specs.Told.{told_all, AreOwnedAnswers};
ghost use Rattle.tt_calls.specs.Means.{term_at, id_at};
ghost use Rattle.tt_calls.specs.Build.{IsAnswerAt, IsIdAt, HasNoId, GivesPart, GivesItems, FillsItems};

use crate::answer::Answer;
use crate::answers::term_handle::TermHandle;
use std::alloc::Global;
use tt_index::Refusal;
use tt_kinds::{DeclarationSort, DefId};

/// Returns the answer at the position, counted from 1. Refused with `NoSuchAnswer` if there is none.
pub fn answer_at<'a>(earlier: &'a [Answer], position: u32) -> Result<&'a Answer, Refusal>
    ensures ok { IfOk result (λ answer. IsAnswerAt earlier.now position answer.now) }
    ensures cause { IfErr result (λ e. e ≡ NoSuchAnswer) }
    ensures absent { IfErr result (λ e. (rows : List Row) → term_at (told_all rows earlier.now) position ≡ None) }
    ensures no_id { IfErr result (λ e. (rows : List Row) → id_at (told_all rows earlier.now) position ≡ None) }
{
    if position == 0 {
        return Err(Refusal::NoSuchAnswer);
    }
    match earlier.get(position as usize - 1) {
        Some(answer) => Ok(answer),
        None => Err(Refusal::NoSuchAnswer),
    }
}

/// Returns the id at the position. Refused with `NoSuchAnswer` if the answer there is absent or not an id of this sort.
pub fn declared_at(
    earlier: &[Answer],
    position: u32,
    sort: DeclarationSort,
) -> Result<DefId, Refusal>
    ensures ok { IfOk result (λ id. IsIdAt earlier.now position sort id.number) }
    ensures cause { IfErr result (λ e. e ≡ NoSuchAnswer) }
    ensures absent { IfErr result (λ e. HasNoId earlier.now position sort) }
{
    let answer = answer_at(earlier, position)?;
    match answer {
        Answer::Id(found, id) => {
            if *found == sort {
                Ok(*id)
            } else {
                Err(Refusal::NoSuchAnswer)
            }
        }
        _ => Err(Refusal::NoSuchAnswer),
    }
}

/// Returns the handle at the position. Refused with `NoSuchAnswer` if the answer there is absent or not a handle of
/// `T`'s table.
pub fn handle_at<T: TermHandle>(earlier: &[Answer], position: u32) -> Result<T, Refusal>
    ensures cause { IfErr result (λ e. e ≡ NoSuchAnswer) }
    ensures part { (terms : Terms) → AreOwnedAnswers terms.rows earlier.now
        → GivesPart terms
        (told_all terms.rows earlier.now)
        (one (a_term T.table position))
        (λ handle. stored T.table (T.number handle))
        result }
{
    let answer = answer_at(earlier, position)?;
    match T::from_answer(answer) {
        Some(handle) => Ok(handle),
        None => Err(Refusal::NoSuchAnswer),
    }
}

/// Writes the handles at the positions to the first places. Refused as [`handle_at`] is.
pub fn fill_handles<T: TermHandle>(
    earlier: &[Answer],
    positions: &[u32],
    places: &mut [T],
) -> Result<(), Refusal>
    requires { length positions.now ≤ length places.old }
    ensures cause { IfErr result (λ e. e ≡ NoSuchAnswer) }
    ensures items { (terms : Terms) → AreOwnedAnswers terms.rows earlier.now
        → FillsItems terms
        (told_all terms.rows earlier.now)
        (terms_at T.table positions.now)
        (λ handle. stored T.table (T.number handle))
        (take (length positions.now) places.new)
        result }
{
    for (i, position) in positions.iter().enumerate() {
        places[i] = handle_at(earlier, *position)?;
    }
    Ok(())
}

/// Returns the handles at the positions. Refused as [`handle_at`] is, and with `Memory`.
pub fn handles_at<T: TermHandle>(
    alloc: Global,
    earlier: &[Answer],
    positions: &[u32],
) -> Result<Vec<T>, Refusal>
    ensures { (terms : Terms) → AreOwnedAnswers terms.rows earlier.now
        → GivesItems terms
        (told_all terms.rows earlier.now)
        (terms_at T.table positions.now)
        (λ handle. stored T.table (T.number handle))
        result }
{
    let mut handles = Vec::with_capacity(alloc, positions.len())?;
    for position in positions {
        let handle = handle_at(earlier, *position)?;
        handles.push(handle)?;
    }
    Ok(handles)
}
