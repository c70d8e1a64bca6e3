//! Types that are shifted more than once, and binders that are shifted.

ghost use Rattle.std.specs.Prelude.{◌≡◌, ◌+◌, ◌*◌, IfOk, IfSome, IsTrue, []};
ghost use Rattle.tt_kinds.specs.Kinds.{ty_shape};
ghost use Rattle.tt_kinds.specs.Matched.{MatchedUnder};
ghost use Rattle.tt_kinds.specs.Plain.{shift_tree};
ghost use Rattle.tt_kinds.specs.Reading.{move, read};
ghost use Rattle.tt_interner.specs.Owned.{IsOwned, tree_in};
ghost use Rattle.tt_interner.specs.Stored.{Extends};

use crate::NOT_OWNED;
use crate::equality::is_same_tree;
use type_terms::{
    Binder, Flags, Interner, Owned, Refusal, Ty, move_keeps_matched, moves_add_up,
    moves_tell_readings, readings_tell_trees, shift_by_zero_keeps_trees, shift_keeps_low_trees,
    shift_vars, shifts_add_up, shifts_keep_apart, shifts_read_as_moved,
};

/// Returns the type, shifted so many times by one amount: its tree is the one of a single shift by the product.
pub fn shifted_times(cx: &mut Interner, ty: Ty, amount: u32, times: u32) -> Result<Ty, Refusal>
    requires { IsOwned ty_shape cx.old ty }
    ensures extends { Extends cx.old cx.new }
    ensures owned { IfOk result (λ shifted. IsOwned ty_shape cx.new shifted) }
    ensures tree { IfOk result (λ shifted. tree_in cx.new.rows (ty_shape shifted)
        ≡ shift_tree 0 (times * amount) (tree_in cx.old.rows (ty_shape ty))) }
{
    shift_by_zero_keeps_trees();
    shifts_add_up();
    let mut shifted = ty;
    for _ in 0..times {
        shifted = shift_vars(cx, shifted, amount)?;
    }
    Ok(shifted)
}

/// Returns the type, shifted so many times by one amount: it reads as moved once by the product.
pub fn read_after_shifts(cx: &mut Interner, ty: Ty, amount: u32, times: u32) -> Result<Ty, Refusal>
    ensures { IfOk result (λ shifted. read 0 (tree_in cx.new.rows (ty_shape shifted))
        ≡ move (times * amount) (read 0 (tree_in cx.old.rows (ty_shape ty)))) }
{
    if !ty.is_owned(cx) {
        return Err(NOT_OWNED);
    }
    shifts_read_as_moved();
    shifted_times(cx, ty, amount, times)
}

/// Returns whether two types become one when both are shifted so many times: then they were one before.
#[tactic(auto, using(tt_interner::proofs::OwnedLaws::owned_laws))]
pub fn become_one(
    cx: &mut Interner,
    one: Ty,
    other: Ty,
    amount: u32,
    times: u32,
) -> Result<bool, Refusal>
    ensures { IfOk result (λ is_one. IsTrue is_one
        → tree_in cx.old.rows (ty_shape one) ≡ tree_in cx.old.rows (ty_shape other)) }
{
    if !one.is_owned(cx) {
        return Err(NOT_OWNED);
    }
    if !other.is_owned(cx) {
        return Err(NOT_OWNED);
    }
    shifts_keep_apart();
    let first = shifted_times(cx, one, amount, times)?;
    let second = shifted_times(cx, other, amount, times)?;
    Ok(is_same_tree(cx, first, second))
}

/// Returns the type, shifted by two amounts in turn: it reads as moved by the sum.
pub fn moved_twice(cx: &mut Interner, ty: Ty, first: u32, second: u32) -> Result<Ty, Refusal>
    requires { IsOwned ty_shape cx.old ty }
    ensures extends { Extends cx.old cx.new }
    ensures owned { IfOk result (λ moved. IsOwned ty_shape cx.new moved) }
    ensures reading { IfOk result (λ moved. read 0 (tree_in cx.new.rows (ty_shape moved))
        ≡ move (second + first) (read 0 (tree_in cx.old.rows (ty_shape ty)))) }
{
    moves_add_up();
    let moved = shift_vars(cx, ty, first)?;
    shift_vars(cx, moved, second)
}

/// Returns whether two types become one when both are shifted by two amounts in turn: then they were one before.
#[tactic(auto, using(tt_interner::proofs::OwnedLaws::owned_laws))]
pub fn were_one(
    cx: &mut Interner,
    one: Ty,
    other: Ty,
    first: u32,
    second: u32,
) -> Result<bool, Refusal>
    ensures { IfOk result (λ is_one. IsTrue is_one
        → tree_in cx.old.rows (ty_shape one) ≡ tree_in cx.old.rows (ty_shape other)) }
{
    if !one.is_owned(cx) {
        return Err(NOT_OWNED);
    }
    if !other.is_owned(cx) {
        return Err(NOT_OWNED);
    }
    moves_tell_readings();
    readings_tell_trees();
    let moved_one = moved_twice(cx, one, first, second)?;
    let moved_other = moved_twice(cx, other, first, second)?;
    Ok(is_same_tree(cx, moved_one, moved_other))
}

/// Returns the type, shifted by two amounts in turn: its variables match the lists of its binders if they did before,
/// which no call tests.
pub fn matched_twice(cx: &mut Interner, ty: Ty, first: u32, second: u32) -> Result<Ty, Refusal>
    requires { MatchedUnder [] (read 0 (tree_in cx.old.rows (ty_shape ty))) }
    ensures { IfOk result (λ moved. MatchedUnder [] (read 0 (tree_in cx.new.rows (ty_shape moved)))) }
{
    if !ty.is_owned(cx) {
        return Err(NOT_OWNED);
    }
    move_keeps_matched();
    moved_twice(cx, ty, first, second)
}

/// Returns the type under a binder, shifted. If no variable of a binder further out is in it, its tree stays, as it is
/// read under the binder.
pub fn shifted_contents(
    cx: &mut Interner,
    binder: Binder<Ty>,
    amount: u32,
) -> Result<Option<Ty>, Refusal>
    ensures { IfOk result (λ kept. IfSome kept (λ shifted. tree_in cx.new.rows (ty_shape shifted)
        ≡ tree_in cx.old.rows (ty_shape binder.value))) }
{
    if !binder.is_owned(cx) {
        return Err(NOT_OWNED);
    }
    let contents = binder.skip_binder();
    if contents.outer_exclusive_binder(cx).as_u32() > 1 {
        return Ok(None);
    }
    shift_keeps_low_trees();
    let shifted = shift_vars(cx, binder, amount)?;
    Ok(Some(shifted.skip_binder()))
}
