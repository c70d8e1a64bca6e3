//! Users' functions whose contracts exclude a refusal with the greatest index, and say that an instance is what a walk over
//! the whole of the type gives.

ghost use Rattle.std.specs.Prelude.{◌≡◌, ◌≢◌, ◌⊎◌, ◌≤◌, ◌∷◌, [], false, IfErr, IfOk};
ghost use Rattle.tt_kinds.specs.Kinds.{ty_shape};
ghost use Rattle.tt_kinds.specs.Label.{type_sort};
ghost use Rattle.tt_kinds.specs.Reading.{outer_binder};
ghost use Rattle.tt_interner.specs.Fitting.{nesting_bound};
ghost use Rattle.tt_interner.specs.Owned.{IsOwned};
ghost use Rattle.tt_fold.specs.Steps.{tree_in};
ghost use Rattle.tt_binder.specs.Unpruned.{GivesUnpruned, HoldsNoRegionVar};

use super::holds_anew;
use super::sharing::bound_ref;
use type_terms::{
    EarlyBinder, Flags, GenericArg, Instantiate, Interner, Refusal, Ty, TyKind, TypeVisitableExt,
    few_rows_fit, instances_fit, moved_trees_fit, pruning_is_unseen, shift_vars,
    stored_indices_fit,
};

// An interner whose nesting bound is at most this nests no binder too deep.
const MOST_NESTED: u64 = 300_000_000;

// A type whose outer exclusive binder is at most this has room to be moved.
const MOST_BINDERS: u32 = 1_000_000;

// Returns the type, moved into one new binder. It is never refused with the greatest index.
fn in_a_binder(cx: &mut Interner, ty: Ty) -> Result<Ty, Refusal>
    requires ty { IsOwned ty_shape cx.old ty }
    requires few { nesting_bound cx.old.rows ≤ 300000000 }
    requires low { outer_binder (tree_in cx.old.rows (ty_shape ty)) ≤ 1000000 }
    ensures { IfErr result (λ e. (e ≡ Refusal.Memory) ⊎ (e ≡ Refusal.TableFull)) }
{
    cx.are_rows();
    few_rows_fit();
    moved_trees_fit();
    shift_vars(cx, ty, 1)
}

// A reference moved into one binder has a region whose index is one more.
fn a_type_is_moved_holds(cx: &mut Interner) -> Result<bool, Refusal> {
    let near = bound_ref(cx, 0)?;
    let far = bound_ref(cx, 1)?;
    if cx.nesting_bound() > MOST_NESTED || !cx.owns(near) {
        return Ok(false);
    }
    if near.outer_exclusive_binder(cx).as_u32() > MOST_BINDERS {
        return Ok(false);
    }
    let moved = in_a_binder(cx, near)?;
    Ok(moved == far)
}

#[test]
fn a_type_is_moved(rt: HostRuntime) {
    holds_anew(&rt, rt.alloc(), a_type_is_moved_holds);
}

// Returns the type with the argument for its first parameter. The result is what a walk gives that skips nothing and uses
// no flag, and the call is never refused with the greatest index.
fn walked(cx: &mut Interner, ty: Ty, argument: Ty) -> Result<Ty, Refusal>
    requires ty { IsOwned ty_shape cx.old ty }
    requires argument { IsOwned ty_shape cx.old argument }
    requires few { nesting_bound cx.old.rows ≤ 300000000 }
    requires low { outer_binder (tree_in cx.old.rows (ty_shape argument)) ≤ 1000000 }
    requires lacks { HoldsNoRegionVar (tree_in cx.old.rows (ty_shape ty)) }
    ensures whole { IfOk result (λ instance. GivesUnpruned (λ e. false)
        (record { sort = type_sort; value = tree_in cx.old.rows (ty_shape argument) } ∷ [])
        (tree_in cx.old.rows (ty_shape ty))
        (tree_in cx.new.rows (ty_shape instance))) }
    ensures fits { IfErr result (λ e. e ≢ Refusal.GreatestIndex) }
{
    cx.are_rows();
    stored_indices_fit();
    few_rows_fit();
    instances_fit();
    pruning_is_unseen();
    let args = [GenericArg::from(argument)];
    let instance = EarlyBinder::bind(ty).instantiate(cx, args.as_slice())?;
    Ok(instance.skip_norm_wip())
}

// `[T]` becomes `[bool]`.
fn a_slice_is_walked_holds(cx: &mut Interner) -> Result<bool, Refusal> {
    let parameter = cx.mk_param(0, "T")?;
    let slice = cx.mk_ty(TyKind::Slice(parameter))?;
    let argument = cx.mk_ty(TyKind::Bool)?;
    let wanted = cx.mk_ty(TyKind::Slice(argument))?;
    let binders = argument.outer_exclusive_binder(cx).as_u32();
    if cx.nesting_bound() > MOST_NESTED || binders > MOST_BINDERS {
        return Ok(false);
    }
    if slice.has_infer_regions(cx) {
        return Ok(false);
    }
    let instance = walked(cx, slice, argument)?;
    Ok(instance == wanted)
}

#[test]
fn a_slice_is_walked(rt: HostRuntime) {
    holds_anew(&rt, rt.alloc(), a_slice_is_walked_holds);
}
