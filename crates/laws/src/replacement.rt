//! Types whose parameters are replaced more than once, or shifted as well.

ghost use Rattle.std.specs.Prelude.{◌≡◌, [], IfOk, OnOk, false};
ghost use Rattle.tt_kinds.specs.Argument.{change_values, put, readings};
ghost use Rattle.tt_kinds.specs.Kinds.{ty_shape};
ghost use Rattle.tt_kinds.specs.Matched.{ArgumentsMatched, MatchedUnder};
ghost use Rattle.tt_kinds.specs.Param.{IsAnswered, holds_param};
ghost use Rattle.tt_kinds.specs.Plain.{inst_tree};
ghost use Rattle.tt_kinds.specs.Reading.{move, read};
ghost use Rattle.tt_interner.specs.Arguments.{AreArguments, arguments};
ghost use Rattle.tt_interner.specs.Owned.{IsOwned, tree_in};
ghost use Rattle.tt_interner.specs.Stored.{Extends};
ghost use Rattle.tt_binder.specs.Instance.{IsPlain};

use crate::NOT_OWNED;
use type_terms::{
    EarlyBinder, GenericArg, Instantiate, Interner, Owned, Refusal, Ty, TypeVisitableExt,
    are_owned, instances_read_as_replaced, moves_commute_with_replacement, readings_tell_trees,
    replacement_keeps_matched, replacement_leaves_no_parameter, replacements_compose, shift_vars,
};

/// Returns the type with its parameters replaced by the arguments. The contract says no more of the result than how it
/// reads, so what the functions below say of it comes from the laws.
pub fn instance(cx: &mut Interner, ty: Ty, args: &[GenericArg]) -> Result<Ty, Refusal>
    requires ty { IsOwned ty_shape cx.old ty }
    requires args { AreArguments cx.old.rows args.now }
    ensures extends { Extends cx.old cx.new }
    ensures owned { IfOk result (λ made. IsOwned ty_shape cx.new made) }
    ensures plain { IfOk result (λ made. IsPlain (arguments cx.old.rows args.now)
        (tree_in cx.old.rows (ty_shape ty)) (tree_in cx.new.rows (ty_shape made))) }
    ensures answered { OnOk result (IsAnswered (arguments cx.old.rows args.now) (tree_in cx.old.rows (ty_shape ty))) }
{
    let made = EarlyBinder::bind(ty).instantiate(cx, args)?;
    Ok(made.skip_norm_wip())
}

/// Returns the type with its parameters replaced twice: by the arguments, and in the result by the later ones. It
/// reads as after one replacement, by the arguments in which the later replacement was made.
#[tactic(auto, using(tt_interner::proofs::OwnedLaws::owned_laws))]
pub fn instance_twice(
    cx: &mut Interner,
    ty: Ty,
    args: &[GenericArg],
    later: &[GenericArg],
) -> Result<Ty, Refusal>
    ensures { IfOk result (λ made. read 0 (tree_in cx.new.rows (ty_shape made))
        ≡ put
        (change_values (put (readings (arguments cx.old.rows later.now))) (readings (arguments cx.old.rows args.now)))
        (read 0 (tree_in cx.old.rows (ty_shape ty)))) }
{
    if !ty.is_owned(cx) {
        return Err(NOT_OWNED);
    }
    if !are_owned(cx, args) {
        return Err(NOT_OWNED);
    }
    if !are_owned(cx, later) {
        return Err(NOT_OWNED);
    }
    replacements_compose();
    let made = instance(cx, ty, args)?;
    instance(cx, made, later)
}

/// Returns the type with its parameters replaced, shifted: it reads as the moved type with moved arguments.
pub fn shifted_instance(
    cx: &mut Interner,
    ty: Ty,
    args: &[GenericArg],
    amount: u32,
) -> Result<Ty, Refusal>
    ensures { IfOk result (λ shifted. read 0 (tree_in cx.new.rows (ty_shape shifted))
        ≡ put (change_values (move amount) (readings (arguments cx.old.rows args.now)))
        (move amount (read 0 (tree_in cx.old.rows (ty_shape ty))))) }
{
    if !(ty.is_owned(cx) && are_owned(cx, args)) {
        return Err(NOT_OWNED);
    }
    moves_commute_with_replacement();
    let made = instance(cx, ty, args)?;
    shift_vars(cx, made, amount)
}

/// Returns the type with its parameters replaced: its tree is what the walk on trees computes.
pub fn instance_tree(cx: &mut Interner, ty: Ty, args: &[GenericArg]) -> Result<Ty, Refusal>
    ensures { IfOk result (λ made. tree_in cx.new.rows (ty_shape made)
        ≡ inst_tree 0 (arguments cx.old.rows args.now) (tree_in cx.old.rows (ty_shape ty))) }
{
    if !(ty.is_owned(cx) && are_owned(cx, args)) {
        return Err(NOT_OWNED);
    }
    instances_read_as_replaced();
    readings_tell_trees();
    instance(cx, ty, args)
}

/// Returns the type with its parameters replaced: its variables match the lists of its binders, if they did in the
/// type and in the arguments, which no call tests.
pub fn matched_instance(cx: &mut Interner, ty: Ty, args: &[GenericArg]) -> Result<Ty, Refusal>
    requires ty { MatchedUnder [] (read 0 (tree_in cx.old.rows (ty_shape ty))) }
    requires args { ArgumentsMatched (readings (arguments cx.old.rows args.now)) }
    ensures { IfOk result (λ made. MatchedUnder [] (read 0 (tree_in cx.new.rows (ty_shape made)))) }
{
    if !(ty.is_owned(cx) && are_owned(cx, args)) {
        return Err(NOT_OWNED);
    }
    replacement_keeps_matched();
    instance(cx, ty, args)
}

/// Returns the type with its first parameter replaced by a type without parameters: none is left. Refused with
/// [`NOT_OWNED`] if the argument has a parameter.
pub fn closed_instance(cx: &mut Interner, ty: Ty, argument: Ty) -> Result<Ty, Refusal>
    ensures { IfOk result (λ made. holds_param (read 0 (tree_in cx.new.rows (ty_shape made))) ≡ false) }
{
    if !(ty.is_owned(cx) && argument.is_owned(cx)) {
        return Err(NOT_OWNED);
    }
    if argument.has_param(cx) {
        return Err(NOT_OWNED);
    }
    replacement_leaves_no_parameter();
    let args = [GenericArg::from(argument)];
    instance(cx, ty, args.as_slice())
}
