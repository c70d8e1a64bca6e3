//! Resolved bindings, which are found once for a call.

ghost use Rattle.std.specs.Prelude.{◌≡◌, ℕ, IfOk, OnOk};
ghost use Rattle.tt_kinds.specs.Kinds.{ty_shape};
ghost use Rattle.tt_interner.specs.Owned.{IsOwned};
ghost use Rattle.tt_interner.specs.Stored.{Extends};
ghost use Rattle.tt_fold.specs.Steps.{tree_in};
ghost use Rattle.unify.specs.Bindings.{stored, values, AreEntries};
ghost use Rattle.unify.specs.Memo.{entries_in, AreSettled, IsReadyAt, IsSettledTo, Settles};
ghost use Rattle.unify.specs.Search.{IsOrder};
ghost use Rattle.unify.specs.Substitution.{apply};
ghost use Rattle.unify.specs.Triangular.{IsChild};
ghost use Rattle.unify.specs.declared.search.Failure.TheVariants.{Cycle};

use crate::resolver::{entry_at, replaced, shallow_resolved};
use crate::search::{Failure, reached};
use crate::variables::variables_in;
use indexmap::IndexMap;
use tt_index::{Refusal, TyVid};
use tt_interner::Interner;
use tt_kinds::Ty;
use tt_visit::TypeVisitableExt;

// Puts the variable's binding into the memo, with all bound variables replaced, if the variable has a binding. The memo
// has those of the variables in it.
#[tactic(auto, using(crate::proofs::BindingsLaws::extends_further))]
fn settle(
    cx: &mut Interner,
    entries: &[Option<Ty>],
    memo: &mut IndexMap<TyVid, Ty>,
    variable: TyVid,
) -> Result<(), Refusal>
    requires table { AreEntries cx.old entries.now }
    requires settles { Settles cx.old entries.now (entries_in memo.old.entries) }
    requires ready { IsReadyAt cx.old entries.now (entries_in memo.old.entries) variable }
    ensures extends { Extends cx.old cx.new }
    ensures settled { OnOk result (IsSettledTo
        cx.old
        cx.new
        entries.now
        (entries_in memo.old.entries)
        (entries_in memo.new.entries)
        variable) }
{
    let Some(ty) = entry_at(entries, variable) else {
        return Ok(());
    };
    let binding = replaced(cx, memo, ty)?;
    memo.insert(variable, binding)?;
    Ok(())
}

// Returns the bindings of those variables in the order that have one, each with all bound variables replaced.
#[tactic(auto, using(crate::proofs::BindingsLaws::extends_further))]
fn settled(
    cx: &mut Interner,
    entries: &[Option<Ty>],
    order: &[TyVid],
) -> Result<IndexMap<TyVid, Ty>, Refusal>
    requires table { AreEntries cx.old entries.now }
    requires order { IsOrder (IsChild (stored cx.old entries.now)) order.now }
    ensures extends { Extends cx.old cx.new }
    ensures settles { IfOk result (λ memo. Settles cx.new entries.now (entries_in memo.entries)) }
    ensures all { IfOk result (λ memo. AreSettled cx.new entries.now (entries_in memo.entries) order.now) }
{
    let mut memo = IndexMap::new(cx.allocator());
    for place in 0..order.len() {
        settle(cx, entries, &mut memo, order[place])?;
    }
    Ok(memo)
}

// Returns the refusal of a search that found no variable within itself.
fn refusal_of(failure: Failure) -> Refusal
    requires { (v : ℕ) → failure ≡ Cycle v → ⊥ }
{
    match failure {
        Failure::Refused(refusal) => refusal,
        Failure::Cycle(_) => unreachable!(),
    }
}

/// Returns the type with each bound variable replaced by its binding, until no bound variable is left. Refused with
/// `Memory`, or with `TableFull` if a table is full or the type holds more than `u32::MAX` rows or variables.
#[tactic(auto, using(crate::proofs::BindingsLaws::extends_further))]
pub fn resolved(cx: &mut Interner, entries: &[Option<Ty>], ty: Ty) -> Result<Ty, Refusal>
    requires table { AreEntries cx.old entries.now }
    requires ty { IsOwned ty_shape cx.old ty }
    ensures extends { Extends cx.old cx.new }
    ensures owned { IfOk result (λ new. IsOwned ty_shape cx.new new) }
    ensures plain { IfOk result (λ new. tree_in cx.new.rows (ty_shape new)
        ≡ apply (values cx.old entries.now) (tree_in cx.old.rows (ty_shape ty))) }
{
    // A variable has no parts.
    cx.are_rows();
    let ty = shallow_resolved(cx, entries, ty);
    if !ty.has_infer_types(cx) {
        return Ok(ty);
    }
    let starts = variables_in(cx, ty)?;
    let order = match reached(cx, entries, starts.as_slice()) {
        Ok(order) => order,
        Err(failure) => return Err(refusal_of(failure)),
    };
    let memo = settled(cx, entries, order.as_slice())?;
    replaced(cx, &memo, ty)
}
