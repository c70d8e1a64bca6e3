//! The parts of kinds: lists of terms, and generic arguments.

ghost use Rattle.std.specs.Prelude.{◌≡◌, ◌≤◌, take, length, [], IsOk, IfErr, OnOk};
ghost use Rattle.tt_index.specs.declared.refusal.Refusal.TheVariants.{GreatestIndex};
ghost use Rattle.tt_kinds.specs.Kinds.{tys_shape, consts_shape, pats_shape, arg_shape, args_shape};
ghost use Rattle.tt_interner.specs.Stored.{Extends};
ghost use Rattle.tt_calls.specs.CallForm.{
  a_list,
  arg_item,
  arg_items,
  args_part,
  item_positions,
  items_positions,
  one,
  terms_at,
  AreItemsTooDeep,
  IsItemTooDeep,
  IsRegionTooDeep,
};
ghost use Rattle.tt_calls.specs.Told.{told_all, AreOwnedAnswers};
ghost use Rattle.tt_calls.specs.Build.{GivesPart, GivesArgument, GivesArguments, IsUnusable, IsUsable, FillsItems};
ghost use Rattle.tt_calls.specs.Room.{PartNeedsRoom};

use crate::answer::Answer;
use crate::answers::lookup::{fill_handles, handle_at, handles_at};
use crate::build::regions::build_region;
use crate::call::{ArgCall, RegionCall};
use tt_index::Refusal;
use tt_interner::Interner;
use tt_kinds::{
    BoundRegion, BoundRegionKind, Const, Consts, GenericArg, GenericArgs, Pat, PatList, Region,
    RegionKind, Table, Ty, Tys,
};

/// The greatest number of items of a list that are collected without an allocation.
pub const MOST_IN_PLACE: usize = 8;

/// Returns the list of the types at the positions.
#[inline(always)]
pub fn build_tys(cx: &mut Interner, earlier: &[Answer], positions: &[u32]) -> Result<Tys, Refusal>
    requires { AreOwnedAnswers cx.old.rows earlier.now }
    ensures extends { Extends cx.old cx.new }
    ensures list { GivesPart cx.new
        (told_all cx.old.rows earlier.now)
        (a_list Table.TypeLists (terms_at Table.Types positions.now))
        tys_shape
        result }
    ensures room { IfErr result
        (PartNeedsRoom cx.new.rows
        (told_all cx.old.rows earlier.now)
        (a_list Table.TypeLists (terms_at Table.Types positions.now))) }
{
    if positions.len() <= MOST_IN_PLACE {
        let mut places = [Ty::from_number(0); MOST_IN_PLACE];
        fill_handles(earlier, positions, &mut places)?;
        return cx.mk_tys(&places[..positions.len()]);
    }
    let tys = handles_at::<Ty>(cx.allocator(), earlier, positions)?;
    cx.mk_tys(tys.as_slice())
}

/// Returns the list of the constants at the positions.
pub fn build_consts(
    cx: &mut Interner,
    earlier: &[Answer],
    positions: &[u32],
) -> Result<Consts, Refusal>
    requires { AreOwnedAnswers cx.old.rows earlier.now }
    ensures extends { Extends cx.old cx.new }
    ensures list { GivesPart cx.new
        (told_all cx.old.rows earlier.now)
        (a_list Table.ConstLists (terms_at Table.Consts positions.now))
        consts_shape
        result }
    ensures room { IfErr result
        (PartNeedsRoom cx.new.rows
        (told_all cx.old.rows earlier.now)
        (a_list Table.ConstLists (terms_at Table.Consts positions.now))) }
{
    if positions.len() <= MOST_IN_PLACE {
        let mut places = [Const::from_number(0); MOST_IN_PLACE];
        fill_handles(earlier, positions, &mut places)?;
        return cx.mk_consts(&places[..positions.len()]);
    }
    let consts = handles_at::<Const>(cx.allocator(), earlier, positions)?;
    cx.mk_consts(consts.as_slice())
}

/// Returns the list of the patterns at the positions.
pub fn build_pats(
    cx: &mut Interner,
    earlier: &[Answer],
    positions: &[u32],
) -> Result<PatList, Refusal>
    requires { AreOwnedAnswers cx.old.rows earlier.now }
    ensures extends { Extends cx.old cx.new }
    ensures list { GivesPart cx.new
        (told_all cx.old.rows earlier.now)
        (a_list Table.PatternLists (terms_at Table.Patterns positions.now))
        pats_shape
        result }
    ensures room { IfErr result
        (PartNeedsRoom cx.new.rows
        (told_all cx.old.rows earlier.now)
        (a_list Table.PatternLists (terms_at Table.Patterns positions.now))) }
{
    if positions.len() <= MOST_IN_PLACE {
        let mut places = [Pat::from_number(0); MOST_IN_PLACE];
        fill_handles(earlier, positions, &mut places)?;
        return cx.mk_pat_list(&places[..positions.len()]);
    }
    let pats = handles_at::<Pat>(cx.allocator(), earlier, positions)?;
    cx.mk_pat_list(pats.as_slice())
}

/// Returns the list of the arguments that a call names.
pub fn build_arg_list(
    cx: &mut Interner,
    earlier: &[Answer],
    args: &[ArgCall],
) -> Result<GenericArgs, Refusal>
    requires { AreOwnedAnswers cx.old.rows earlier.now }
    ensures extends { Extends cx.old cx.new }
    ensures list { GivesPart cx.new (told_all cx.old.rows earlier.now) (args_part args.now) args_shape result }
    ensures room { IfErr result
        (PartNeedsRoom cx.new.rows (told_all cx.old.rows earlier.now) (args_part args.now)) }
{
    if args.len() <= MOST_IN_PLACE {
        let mut places = [GenericArg::from(Ty::from_number(0)); MOST_IN_PLACE];
        fill_args(cx, earlier, args, &mut places)?;
        return cx.mk_args(&places[..args.len()]);
    }
    let args = build_args(cx, earlier, args)?;
    cx.mk_args(args.as_slice())
}

// Writes the arguments that a call names to the first places.
fn fill_args(
    cx: &mut Interner,
    earlier: &[Answer],
    args: &[ArgCall],
    places: &mut [GenericArg],
) -> Result<(), Refusal>
    requires owned { AreOwnedAnswers cx.old.rows earlier.now }
    requires few { length args.now ≤ length places.old }
    ensures extends { Extends cx.old cx.new }
    ensures args { FillsItems cx.new
        (told_all cx.old.rows earlier.now)
        (arg_items args.now)
        arg_shape
        (take (length args.now) places.new)
        result }
    ensures room { IfErr result
        (PartNeedsRoom cx.new.rows (told_all cx.old.rows earlier.now) (args_part args.now)) }
{
    for (i, arg) in args.iter().enumerate() {
        places[i] = build_arg(cx, earlier, arg)?;
    }
    Ok(())
}

/// Returns the arguments that a call names.
pub fn build_args(
    cx: &mut Interner,
    earlier: &[Answer],
    args: &[ArgCall],
) -> Result<Vec<GenericArg>, Refusal>
    requires { AreOwnedAnswers cx.old.rows earlier.now }
    ensures extends { Extends cx.old cx.new }
    ensures args { GivesArguments cx.new (told_all cx.old.rows earlier.now) args.now result }
    ensures none { args.now ≡ [] → IsOk result }
{
    let mut built = Vec::with_capacity(cx.allocator(), args.len())?;
    for arg in args {
        let arg = build_arg(cx, earlier, arg)?;
        built.push(arg)?;
    }
    Ok(built)
}

// Returns the argument that a call names.
fn build_arg(cx: &mut Interner, earlier: &[Answer], arg: &ArgCall) -> Result<GenericArg, Refusal>
    requires { AreOwnedAnswers cx.old.rows earlier.now }
    ensures extends { Extends cx.old cx.new }
    ensures arg { GivesArgument cx.new (told_all cx.old.rows earlier.now) arg.now result }
    ensures room { IfErr result
        (PartNeedsRoom cx.new.rows (told_all cx.old.rows earlier.now) (one (arg_item arg.now))) }
{
    match arg {
        ArgCall::Type(position) => Ok(GenericArg::from(handle_at::<Ty>(earlier, *position)?)),
        ArgCall::Const(position) => Ok(GenericArg::from(handle_at::<Const>(earlier, *position)?)),
        ArgCall::Lifetime(region) => Ok(GenericArg::from(build_region(cx, earlier, region)?)),
    }
}

/// Checks the positions and the indices of the arguments that a call names, without building the arguments. Refused
/// with `NoSuchAnswer` if a position names no term of the argument's table, and with `GreatestIndex` if a bound region
/// has that index.
pub fn check_args(cx: &Interner, earlier: &[Answer], args: &[ArgCall]) -> Result<(), Refusal>
    requires { AreOwnedAnswers cx.now.rows earlier.now }
    ensures ok { OnOk
        result
        (IsUsable
        (told_all cx.now.rows earlier.now)
        (items_positions (arg_items args.now))
        (AreItemsTooDeep (arg_items args.now))) }
    ensures err { IfErr
        result
        (IsUnusable
        (told_all cx.now.rows earlier.now)
        (items_positions (arg_items args.now))
        (AreItemsTooDeep (arg_items args.now))) }
{
    for arg in args {
        check_arg(cx, earlier, arg)?;
    }
    Ok(())
}

// Checks the argument's position, or the index of its region.
fn check_arg(cx: &Interner, earlier: &[Answer], arg: &ArgCall) -> Result<(), Refusal>
    requires { AreOwnedAnswers cx.now.rows earlier.now }
    ensures ok { OnOk
        result
        (IsUsable
        (told_all cx.now.rows earlier.now)
        (item_positions (arg_item arg.now))
        (IsItemTooDeep (arg_item arg.now))) }
    ensures err { IfErr
        result
        (IsUnusable
        (told_all cx.now.rows earlier.now)
        (item_positions (arg_item arg.now))
        (IsItemTooDeep (arg_item arg.now))) }
{
    match arg {
        ArgCall::Type(position) => {
            handle_at::<Ty>(earlier, *position)?;
            Ok(())
        }
        ArgCall::Const(position) => {
            handle_at::<Const>(earlier, *position)?;
            Ok(())
        }
        ArgCall::Lifetime(region) => check_region(region),
    }
}

// Checks that the region's index, if the region is bound, is below the greatest.
fn check_region(region: &RegionCall) -> Result<(), Refusal>
    ensures ok { OnOk result (IsRegionTooDeep region.now → ⊥) }
    ensures err { IfErr result (λ e. (e ≡ GreatestIndex) × IsRegionTooDeep region.now) }
{
    match region {
        RegionCall::ReBound(index, var, _) => {
            let kind = BoundRegionKind::Anon;
            Region::new(RegionKind::ReBound(*index, BoundRegion { var: *var, kind }))?;
            Ok(())
        }
        _ => Ok(()),
    }
}
