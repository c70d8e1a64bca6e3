//! Types that can't be made equal, each with its fault.

use super::{answer, fail_with, holds_anew, holds_within, unify_alone, variable};
use test_terms::{bound_ty, param_region, pointer, ref_ty, tuple, ty, u32_ty};
use type_terms::{Interner, Refusal, Region, RegionKind, TyKind, TyVid};
use unify::Fault;

// `(?0, u32)` and `(bool, bool)`: the first items can be made equal and the second can't, so ?0 stays unbound.
fn a_mismatch_unbinds_holds(cx: &mut Interner) -> Result<bool, Refusal> {
    let zero = variable(cx, 0)?;
    let number = u32_ty(cx)?;
    let truth = ty(cx, TyKind::Bool)?;
    let left = tuple(cx, &[zero, number])?;
    let right = tuple(cx, &[truth, truth])?;
    Ok(answer(fail_with(cx, left, right, Fault::Mismatch)))
}

#[test]
fn a_mismatch_unbinds(rt: HostRuntime) {
    holds_anew(&rt, rt.alloc(), a_mismatch_unbinds_holds);
}

// Tuples of other lengths, other kinds, other regions, and a variable that the table doesn't have.
fn heads_differ_holds(cx: &mut Interner) -> Result<bool, Refusal> {
    let number = u32_ty(cx)?;
    let zero = variable(cx, 0)?;
    let far = variable(cx, 100)?;
    let one_item = tuple(cx, &[zero])?;
    let two_items = tuple(cx, &[zero, zero])?;
    let slice = ty(cx, TyKind::Slice(zero))?;
    let erased = ref_ty(cx, Region::new(RegionKind::ReErased)?, zero)?;
    let region = param_region(cx, 0)?;
    let named = ref_ty(cx, region, zero)?;
    Ok(
        answer(fail_with(cx, one_item, two_items, Fault::Mismatch))
            && answer(fail_with(cx, one_item, slice, Fault::Mismatch))
            && answer(fail_with(cx, erased, named, Fault::Mismatch))
            && answer(fail_with(cx, far, number, Fault::Mismatch)),
    )
}

#[test]
fn heads_differ(rt: HostRuntime) {
    holds_anew(&rt, rt.alloc(), heads_differ_holds);
}

// ?0 isn't `(?0, u32)`, and `(?0, ?1)` isn't `((?1,), (?0,))`.
fn a_type_has_no_place_in_itself_holds(cx: &mut Interner) -> Result<bool, Refusal> {
    let (zero, one) = (variable(cx, 0)?, variable(cx, 1)?);
    let number = u32_ty(cx)?;
    let around = tuple(cx, &[zero, number])?;
    let of_zero = tuple(cx, &[zero])?;
    let of_one = tuple(cx, &[one])?;
    let left = tuple(cx, &[zero, one])?;
    let right = tuple(cx, &[of_one, of_zero])?;
    let first = Fault::Occurs(TyVid::from_u32(0), around);
    let second = Fault::Occurs(TyVid::from_u32(1), of_zero);
    Ok(answer(fail_with(cx, zero, around, first)) && answer(fail_with(cx, left, right, second)))
}

#[test]
fn a_type_has_no_place_in_itself(rt: HostRuntime) {
    holds_anew(&rt, rt.alloc(), a_type_has_no_place_in_itself_holds);
}

// A variable outside of a binder isn't the binder's own variable.
fn bound_variables_stay_inside_holds(cx: &mut Interner) -> Result<bool, Refusal> {
    let zero = variable(cx, 0)?;
    let near = bound_ty(cx, 0)?;
    let left = pointer(cx, &[zero])?;
    let right = pointer(cx, &[near])?;
    let fault = Fault::Escapes(TyVid::from_u32(0), near);
    Ok(answer(fail_with(cx, left, right, fault)))
}

#[test]
fn bound_variables_stay_inside(rt: HostRuntime) {
    holds_anew(&rt, rt.alloc(), bound_variables_stay_inside_holds);
}

// `(?0, ?1)` and `(u32, [?0])`: unifying builds no type, and resolving has no room for `[u32]`.
fn a_full_table_unifies_holds(cx: &mut Interner) -> Result<bool, Refusal> {
    let (zero, one) = (variable(cx, 0)?, variable(cx, 1)?);
    let number = u32_ty(cx)?;
    let slice = ty(cx, TyKind::Slice(zero))?;
    let left = tuple(cx, &[zero, one])?;
    let right = tuple(cx, &[number, slice])?;
    Ok(answer(unify_alone(cx, left, right)))
}

#[test]
fn a_full_table_unifies(rt: HostRuntime) {
    holds_within(&rt, rt.alloc(), 6, a_full_table_unifies_holds);
}
