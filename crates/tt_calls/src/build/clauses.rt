//! Building lists of clauses.

ghost use Rattle.std.specs.Prelude.{◌≡◌, ◌≤◌, ℕ, take, length, IfOk, IfErr, OnOk};
ghost use Rattle.std.specs.declared.alloc.Global.{Global};
ghost use Rattle.smallvec.specs.declared.small_vec.SmallVec.{SmallVec};
ghost use Rattle.tt_index.specs.declared.refusal.Refusal.TheVariants.{NoSuchAnswer};
ghost use Rattle.tt_kinds.specs.Kinds.{clause_shape, clauses_shape};
ghost use Rattle.tt_interner.specs.Rows.{IsClause};
ghost use Rattle.tt_interner.specs.Stored.{Extends};
ghost use Rattle.tt_calls.specs.declared.call.Call.TheVariants.{Clauses as BuildsClauses};
ghost use Rattle.tt_calls.specs.CallForm.{
  a_clause,
  AreItemsTooDeep,
  clause_items,
  clauses_tree,
  items_positions,
  one,
};
ghost use Rattle.tt_calls.specs.Told.{told_all, AreOwnedAnswers, HasFullTable};
ghost use Rattle.tt_calls.specs.Means.{number_at, tree_at};
ghost use Rattle.tt_calls.specs.Build.{IsUnbuiltPart, AreClausesAt, GivesPart, GivesPlaced, MayAnswerCall};
ghost use Rattle.tt_calls.specs.Room.{ClausesNeedRoom};

use crate::answer::Answer;
use crate::answers::lookup::handle_at;
use crate::build::lists::MOST_IN_PLACE;
use tt_index::Refusal;
use tt_interner::{AsClause, Interner};
use tt_kinds::{Clause, Clauses, Predicate};

/// Returns the list of the clauses at the positions. Refused with `NoSuchAnswer` if the answer at one of them is not a
/// clause.
pub fn build_clauses(
    cx: &mut Interner,
    earlier: &[Answer],
    positions: &[u32],
) -> Result<Answer, Refusal>
    requires { AreOwnedAnswers cx.old.rows earlier.now }
    ensures extends { Extends cx.old cx.new }
    ensures answers { (list : SmallVec ℕ 4 Global) → list.items ≡ positions.now
        → MayAnswerCall cx.old cx.new (told_all cx.old.rows earlier.now) (BuildsClauses list) result }
{
    match clause_list(cx, earlier, positions) {
        Ok(list) => Ok(Answer::Clauses(list)),
        Err(refusal) => {
            // Each row is added once, so a list that is stored is found.
            cx.are_rows();
            Err(refusal)
        }
    }
}

// Returns the list of the clauses at the positions.
fn clause_list(cx: &mut Interner, earlier: &[Answer], positions: &[u32]) -> Result<Clauses, Refusal>
    requires { AreOwnedAnswers cx.old.rows earlier.now }
    ensures extends { Extends cx.old cx.new }
    ensures list { let e = told_all cx.old.rows earlier.now in
        GivesPlaced cx.new e
        (clauses_tree (number_at e) (tree_at e) positions.now)
        (items_positions (clause_items positions.now))
        (AreItemsTooDeep (clause_items positions.now))
        clauses_shape
        result }
    ensures room { IfErr result (ClausesNeedRoom cx.new.rows (told_all cx.old.rows earlier.now) positions.now) }
{
    if positions.len() <= MOST_IN_PLACE {
        let mut places = [Clause::from_number(0); MOST_IN_PLACE];
        fill_clauses(cx, earlier, positions, &mut places)?;
        return cx.mk_clauses(&places[..positions.len()]);
    }
    let clauses = clauses_at(cx, earlier, positions)?;
    cx.mk_clauses(clauses.as_slice())
}

// Writes the clauses at the positions to the first places.
fn fill_clauses(
    cx: &Interner,
    earlier: &[Answer],
    positions: &[u32],
    places: &mut [Clause],
) -> Result<(), Refusal>
    requires owned { AreOwnedAnswers cx.now.rows earlier.now }
    requires few { length positions.now ≤ length places.old }
    ensures ok { OnOk result (AreClausesAt cx.now
        (told_all cx.now.rows earlier.now)
        positions.now
        (take (length positions.now) places.new)) }
    ensures err { IfErr result (IsUnbuiltPart
        (HasFullTable cx.now)
        (told_all cx.now.rows earlier.now)
        (items_positions (clause_items positions.now))
        (AreItemsTooDeep (clause_items positions.now))) }
    ensures cause { IfErr result (λ e. e ≡ NoSuchAnswer) }
{
    for (i, position) in positions.iter().enumerate() {
        places[i] = clause_at(cx, earlier, *position)?;
    }
    Ok(())
}

// Returns the clauses at the positions.
fn clauses_at(cx: &Interner, earlier: &[Answer], positions: &[u32]) -> Result<Vec<Clause>, Refusal>
    requires { AreOwnedAnswers cx.now.rows earlier.now }
    ensures ok { IfOk result (λ clauses. AreClausesAt cx.now
        (told_all cx.now.rows earlier.now)
        positions.now
        clauses.items) }
    ensures err { IfErr result (IsUnbuiltPart
        (HasFullTable cx.now)
        (told_all cx.now.rows earlier.now)
        (items_positions (clause_items positions.now))
        (AreItemsTooDeep (clause_items positions.now))) }
{
    let mut clauses = Vec::with_capacity(cx.allocator(), positions.len())?;
    for position in positions {
        let clause = clause_at(cx, earlier, *position)?;
        clauses.push(clause)?;
    }
    Ok(clauses)
}

// Returns the clause at the position.
fn clause_at(cx: &Interner, earlier: &[Answer], position: u32) -> Result<Clause, Refusal>
    requires { AreOwnedAnswers cx.now.rows earlier.now }
    ensures part { GivesPart cx.now (told_all cx.now.rows earlier.now) (one (a_clause position)) clause_shape result }
    ensures clause { IfOk result (λ clause. IsClause cx.now.rows clause.number) }
    ensures cause { IfErr result (λ e. e ≡ NoSuchAnswer) }
{
    let predicate = handle_at::<Predicate>(earlier, position)?;
    match predicate.as_clause(cx) {
        Some(clause) => Ok(clause),
        None => Err(Refusal::NoSuchAnswer),
    }
}
