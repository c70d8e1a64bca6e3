//! Types that can be made equal.

use super::{
    answer, become_one, holds_anew, match_resolved, resolved, table_of, unified, variable,
};
use test_terms::{args, bound_ty, pointer, ref_ty, tuple, ty, u32_ty};
use type_terms::{AdtId, GenericArg, Interner, Refusal, Region, RegionKind, Ty, TyKind};
use unify::Fault;

fn erased() -> Result<Region, Refusal> {
    Region::new(RegionKind::ReErased)
}

// A variable becomes the other type, on either side.
fn a_variable_is_bound_holds(cx: &mut Interner) -> Result<bool, Refusal> {
    let zero = variable(cx, 0)?;
    let number = u32_ty(cx)?;
    Ok(answer(become_one(cx, zero, number, number)) && answer(become_one(cx, number, zero, number)))
}

#[test]
fn a_variable_is_bound(rt: HostRuntime) {
    holds_anew(&rt, rt.alloc(), a_variable_is_bound_holds);
}

// `(?0, bool)` and `(u32, ?1)` become `(u32, bool)`.
fn tuples_are_unified_holds(cx: &mut Interner) -> Result<bool, Refusal> {
    let (zero, one) = (variable(cx, 0)?, variable(cx, 1)?);
    let number = u32_ty(cx)?;
    let truth = ty(cx, TyKind::Bool)?;
    let left = tuple(cx, &[zero, truth])?;
    let right = tuple(cx, &[number, one])?;
    let both = tuple(cx, &[number, truth])?;
    Ok(answer(become_one(cx, left, right, both)))
}

#[test]
fn tuples_are_unified(rt: HostRuntime) {
    holds_anew(&rt, rt.alloc(), tuples_are_unified_holds);
}

// `(?0, ?1)` is equal already to what it resolves to, `(u32, ?1)`.
fn a_type_matches_what_it_resolves_to_holds(cx: &mut Interner) -> Result<bool, Refusal> {
    let (zero, one) = (variable(cx, 0)?, variable(cx, 1)?);
    let number = u32_ty(cx)?;
    let left = tuple(cx, &[zero, one])?;
    let right = tuple(cx, &[number, one])?;
    Ok(answer(match_resolved(cx, left, right)))
}

#[test]
fn a_type_matches_what_it_resolves_to(rt: HostRuntime) {
    holds_anew(&rt, rt.alloc(), a_type_matches_what_it_resolves_to_holds);
}

// `(?0, ?1, ?2)` and `(?1, ?2, u32)` become `(u32, u32, u32)`: what was bound first becomes what is bound last.
fn variables_are_chained_holds(cx: &mut Interner) -> Result<bool, Refusal> {
    let (zero, one, two) = (variable(cx, 0)?, variable(cx, 1)?, variable(cx, 2)?);
    let number = u32_ty(cx)?;
    let left = tuple(cx, &[zero, one, two])?;
    let right = tuple(cx, &[one, two, number])?;
    let both = tuple(cx, &[number, number, number])?;
    Ok(answer(become_one(cx, left, right, both)))
}

#[test]
fn variables_are_chained(rt: HostRuntime) {
    holds_anew(&rt, rt.alloc(), variables_are_chained_holds);
}

// References, arguments of data types, and pointers to functions, whose bound variables are compared as they are.
fn kinds_are_taken_apart_holds(cx: &mut Interner) -> Result<bool, Refusal> {
    let zero = variable(cx, 0)?;
    let number = u32_ty(cx)?;
    let near = bound_ty(cx, 0)?;
    let variable_behind = ref_ty(cx, erased()?, zero)?;
    let number_behind = ref_ty(cx, erased()?, number)?;
    let left_args = args(
        cx,
        &[
            GenericArg::from(erased()?),
            GenericArg::from(variable_behind),
        ],
    )?;
    let right_args = args(
        cx,
        &[GenericArg::from(erased()?), GenericArg::from(number_behind)],
    )?;
    let left_data = ty(cx, TyKind::Adt(AdtId::from_number(0), left_args))?;
    let right_data = ty(cx, TyKind::Adt(AdtId::from_number(0), right_args))?;
    let left = pointer(cx, &[near, zero, left_data])?;
    let right = pointer(cx, &[near, number, right_data])?;
    Ok(answer(become_one(cx, left, right, right)))
}

#[test]
fn kinds_are_taken_apart(rt: HostRuntime) {
    holds_anew(&rt, rt.alloc(), kinds_are_taken_apart_holds);
}

// A variable is equal to itself, and stays unbound; so does a variable that the table doesn't have.
fn a_variable_is_itself_holds(cx: &mut Interner) -> Result<bool, Refusal> {
    let (zero, far) = (variable(cx, 0)?, variable(cx, 100)?);
    Ok(answer(become_one(cx, zero, zero, zero)) && answer(become_one(cx, far, far, far)))
}

#[test]
fn a_variable_is_itself(rt: HostRuntime) {
    holds_anew(&rt, rt.alloc(), a_variable_is_itself_holds);
}

// Returns pairs of pairs, this many levels of them, with the type at the bottom.
fn nested(cx: &mut Interner, inner: Ty, levels: u32) -> Result<Ty, Refusal> {
    let mut outer = inner;
    for _ in 0..levels {
        outer = tuple(cx, &[outer, outer])?;
    }
    Ok(outer)
}

// A hundred levels of pairs have as many places as no machine could visit: each pair of types is compared once.
fn shared_types_are_compared_once_holds(cx: &mut Interner) -> Result<bool, Refusal> {
    let zero = variable(cx, 0)?;
    let number = u32_ty(cx)?;
    let left = nested(cx, zero, 100)?;
    let right = nested(cx, number, 100)?;
    Ok(answer(become_one(cx, left, right, right)))
}

#[test]
fn shared_types_are_compared_once(rt: HostRuntime) {
    holds_anew(&rt, rt.alloc(), shared_types_are_compared_once_holds);
}

// Two calls: what the first one bound is taken as bound by the second.
fn calls_build_on_another(cx: &mut Interner, types: &[Ty; 5]) -> Result<bool, Fault> {
    let [zero, one, slice_of_one, number, slice] = *types;
    let mut bindings = table_of(cx, 2)?;
    unified(cx, &mut bindings, zero, slice_of_one)?;
    let before = resolved(cx, &bindings, zero)?;
    unified(cx, &mut bindings, one, number)?;
    let after = resolved(cx, &bindings, zero)?;
    Ok(before == slice_of_one && after == slice && bindings.len() == 2)
}

fn a_second_call_builds_on_the_first_holds(cx: &mut Interner) -> Result<bool, Refusal> {
    let (zero, one) = (variable(cx, 0)?, variable(cx, 1)?);
    let number = u32_ty(cx)?;
    let slice_of_one = ty(cx, TyKind::Slice(one))?;
    let slice = ty(cx, TyKind::Slice(number))?;
    Ok(answer(calls_build_on_another(cx, &[zero, one, slice_of_one, number, slice])))
}

#[test]
fn a_second_call_builds_on_the_first(rt: HostRuntime) {
    holds_anew(&rt, rt.alloc(), a_second_call_builds_on_the_first_holds);
}
