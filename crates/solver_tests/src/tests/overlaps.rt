//! Programs of which two implementations apply to one goal, or no two do.

use super::{declare_all, holds_anew, slice};
use solver::{Fault, Impl, Overlap, Program, first_overlap};
use test_terms::{args, bound_region, param_ty, pointer, ref_ty, tuple, ty, u32_ty};
use type_terms::{
    GenericArg, InferTy, Interner, Refusal, Region, TraitId, TraitPredicate, TraitRef, Ty, TyKind,
    TyVid,
};

// Returns that the type implements the trait of this number at the further argument.
fn goal(
    cx: &mut Interner,
    number: u32,
    ty: Ty,
    further: Option<GenericArg>,
) -> Result<TraitPredicate, Refusal> {
    let own = GenericArg::from(ty);
    let args = match further {
        Some(further) => args(cx, &[own, further])?,
        None => args(cx, &[own])?,
    };
    Ok(TraitPredicate {
        trait_ref: TraitRef {
            def_id: TraitId::from_number(number),
            args,
        },
    })
}

// Returns that the type implements trait 0.
fn implements(cx: &mut Interner, ty: Ty) -> Result<TraitPredicate, Refusal> {
    goal(cx, 0, ty, None)
}

// Returns that the type implements trait 0 at the further type.
fn converts(cx: &mut Interner, ty: Ty, further: Ty) -> Result<TraitPredicate, Refusal> {
    goal(cx, 0, ty, Some(GenericArg::from(further)))
}

// Returns the implementations with these heads, each with two parameters and these conditions.
fn impls(
    cx: &mut Interner,
    heads: &[TraitPredicate],
    conditions: &[TraitPredicate],
) -> Result<Vec<Impl>, Refusal> {
    let mut impls = Vec::new(cx.allocator());
    for index in 0..heads.len() {
        impls.push(Impl {
            params: 2,
            head: heads[index],
            conditions: Vec::from_slice(cx.allocator(), conditions)?,
        })?;
    }
    Ok(impls)
}

// Returns the first overlap of the implementations.
fn overlap_in(cx: &mut Interner, impls: Vec<Impl>) -> Result<Option<Overlap>, Fault> {
    let mut program = Program::new(cx.allocator());
    let declared = declare_all(cx, &mut program, impls);
    if let Err(fault) = declared {
        return Err(fault);
    }
    first_overlap(cx, &program)
}

// Returns whether the implementations with these heads have no overlap.
fn are_coherent(cx: &mut Interner, heads: &[TraitPredicate]) -> Result<bool, Refusal> {
    let impls = impls(cx, heads, &[])?;
    match overlap_in(cx, impls) {
        Ok(found) => Ok(found.is_none()),
        Err(Fault::Refused(refusal)) => Err(refusal),
        Err(_) => Ok(false),
    }
}

// Returns whether the first overlap of the implementations with these heads is the one of these numbers, at this goal.
fn overlaps_at(
    cx: &mut Interner,
    heads: &[TraitPredicate],
    (first, second): (usize, usize),
    goal: TraitPredicate,
) -> Result<bool, Refusal> {
    let impls = impls(cx, heads, &[])?;
    let expected = Overlap {
        first,
        second,
        goal,
    };
    match overlap_in(cx, impls) {
        Ok(found) => Ok(found == Some(expected)),
        Err(Fault::Refused(refusal)) => Err(refusal),
        Err(_) => Ok(false),
    }
}

// A program without implementations has no overlap, nor has one with a single implementation, which isn't compared with
// itself.
fn one_is_no_overlap_holds(cx: &mut Interner) -> Result<bool, Refusal> {
    let (param, number) = (param_ty(cx, 0)?, u32_ty(cx)?);
    let (of_param, of_number) = (implements(cx, param)?, implements(cx, number)?);
    Ok(are_coherent(cx, &[])? && are_coherent(cx, &[of_param])? && are_coherent(cx, &[of_number])?)
}

#[test]
fn one_is_no_overlap(rt: HostRuntime) {
    holds_anew(&rt, rt.alloc(), one_is_no_overlap_holds);
}

// u32 twice; T and u32 in both orders; [T] and any type, at [?0].
fn heads_overlap_holds(cx: &mut Interner) -> Result<bool, Refusal> {
    let (param, number) = (param_ty(cx, 0)?, u32_ty(cx)?);
    let variable = ty(cx, TyKind::Infer(InferTy::TyVar(TyVid::from_u32(0))))?;
    let (params, variables) = (slice(cx, param)?, slice(cx, variable)?);
    let (of_param, of_number) = (implements(cx, param)?, implements(cx, number)?);
    let (of_params, of_variables) = (implements(cx, params)?, implements(cx, variables)?);
    Ok(
        overlaps_at(cx, &[of_number, of_number], (0, 1), of_number)?
            && overlaps_at(cx, &[of_param, of_number], (0, 1), of_number)?
            && overlaps_at(cx, &[of_number, of_param], (0, 1), of_number)?
            && overlaps_at(cx, &[of_params, of_param], (0, 1), of_variables)?,
    )
}

#[test]
fn heads_overlap(rt: HostRuntime) {
    holds_anew(&rt, rt.alloc(), heads_overlap_holds);
}

// (T, u32) and (bool, U) have (bool, u32) in common, and Trait0<U> for (T, [U]) and Trait0<T> for (u32, [u32]) have
// Trait0<u32> for (u32, [u32]).
fn parameters_become_types_holds(cx: &mut Interner) -> Result<bool, Refusal> {
    let (left, right) = (param_ty(cx, 0)?, param_ty(cx, 1)?);
    let (number, truth) = (u32_ty(cx)?, ty(cx, TyKind::Bool)?);
    let with_number = tuple(cx, &[left, number])?;
    let with_truth = tuple(cx, &[truth, right])?;
    let both = tuple(cx, &[truth, number])?;
    let heads = [implements(cx, with_number)?, implements(cx, with_truth)?];
    let shared = implements(cx, both)?;
    let (rights, numbers) = (slice(cx, right)?, slice(cx, number)?);
    let of_slice = tuple(cx, &[left, rights])?;
    let of_numbers = tuple(cx, &[number, numbers])?;
    let conversions = [
        converts(cx, of_slice, right)?,
        converts(cx, of_numbers, left)?,
    ];
    let conversion = converts(cx, of_numbers, number)?;
    Ok(
        overlaps_at(cx, &heads, (0, 1), shared)?
            && overlaps_at(cx, &[heads[1], heads[0]], (0, 1), shared)?
            && overlaps_at(cx, &conversions, (0, 1), conversion)?,
    )
}

#[test]
fn parameters_become_types(rt: HostRuntime) {
    holds_anew(&rt, rt.alloc(), parameters_become_types_holds);
}

// Heads of different traits, of different types, of tuples of different lengths, and of one trait at different further
// types.
fn different_heads_are_apart_holds(cx: &mut Interner) -> Result<bool, Refusal> {
    let (param, number) = (param_ty(cx, 0)?, u32_ty(cx)?);
    let truth = ty(cx, TyKind::Bool)?;
    let (params, pair) = (slice(cx, param)?, tuple(cx, &[param, param])?);
    let single = tuple(cx, &[param])?;
    let (of_number, of_truth) = (implements(cx, number)?, implements(cx, truth)?);
    let (of_params, of_pair) = (implements(cx, params)?, implements(cx, pair)?);
    let of_single = implements(cx, single)?;
    let of_other = goal(cx, 1, number, None)?;
    let to_number = converts(cx, param, number)?;
    let to_truth = converts(cx, param, truth)?;
    Ok(
        are_coherent(cx, &[of_number, of_other])?
            && are_coherent(cx, &[of_number, of_truth, of_params, of_pair, of_single])?
            && are_coherent(cx, &[to_number, to_truth])?,
    )
}

#[test]
fn different_heads_are_apart(rt: HostRuntime) {
    holds_anew(&rt, rt.alloc(), different_heads_are_apart_holds);
}

// (T, T) and (U, [U]) have no instance in common: no type is a slice type of itself. Nor have fn(T) and fn(&'a u32),
// whose region is bound by the pointer itself. &'static T and &'static u32 have one.
fn parameters_do_not_become_all_types_holds(cx: &mut Interner) -> Result<bool, Refusal> {
    let (param, number) = (param_ty(cx, 0)?, u32_ty(cx)?);
    let params = slice(cx, param)?;
    let (equal, nested) = (tuple(cx, &[param, param])?, tuple(cx, &[param, params])?);
    let of_tuples = [implements(cx, equal)?, implements(cx, nested)?];
    let region = bound_region(0)?;
    let bound = ref_ty(cx, region, number)?;
    let of_param = pointer(cx, &[param, number])?;
    let of_bound = pointer(cx, &[bound, number])?;
    let of_pointers = [implements(cx, of_param)?, implements(cx, of_bound)?];
    let to_param = ref_ty(cx, Region::new_static(), param)?;
    let to_number = ref_ty(cx, Region::new_static(), number)?;
    let of_references = [implements(cx, to_param)?, implements(cx, to_number)?];
    Ok(
        are_coherent(cx, &of_tuples)?
            && are_coherent(cx, &of_pointers)?
            && overlaps_at(cx, &of_references, (0, 1), of_references[1])?,
    )
}

#[test]
fn parameters_do_not_become_all_types(rt: HostRuntime) {
    holds_anew(&rt, rt.alloc(), parameters_do_not_become_all_types_holds);
}

// u32, bool, [T], bool, u32: bool is the second one before u32 is. bool, u32, T: T is the second one of both, and bool
// the first of them.
fn first_overlap_is_found_holds(cx: &mut Interner) -> Result<bool, Refusal> {
    let (param, number) = (param_ty(cx, 0)?, u32_ty(cx)?);
    let truth = ty(cx, TyKind::Bool)?;
    let params = slice(cx, param)?;
    let (of_number, of_truth) = (implements(cx, number)?, implements(cx, truth)?);
    let (of_param, of_params) = (implements(cx, param)?, implements(cx, params)?);
    let nested = [of_number, of_truth, of_params, of_truth, of_number];
    Ok(
        overlaps_at(cx, &nested, (1, 3), of_truth)?
            && overlaps_at(cx, &[of_truth, of_number, of_param], (0, 2), of_truth)?
            && overlaps_at(
                cx,
                &[of_truth, of_params, of_number, of_number],
                (2, 3),
                of_number,
            )?,
    )
}

#[test]
fn first_overlap_is_found(rt: HostRuntime) {
    holds_anew(&rt, rt.alloc(), first_overlap_is_found_holds);
}

// `impl<T, U> Trait0 for T where bool: Trait1` and `impl<T, U> Trait0 for u32 where bool: Trait1` overlap, though
// nothing implements trait 1.
fn conditions_do_not_count_holds(cx: &mut Interner) -> Result<bool, Refusal> {
    let (param, number) = (param_ty(cx, 0)?, u32_ty(cx)?);
    let truth = ty(cx, TyKind::Bool)?;
    let (of_param, of_number) = (implements(cx, param)?, implements(cx, number)?);
    let condition = goal(cx, 1, truth, None)?;
    let impls = impls(cx, &[of_param, of_number], &[condition])?;
    let expected = Overlap {
        first: 0,
        second: 1,
        goal: of_number,
    };
    Ok(overlap_in(cx, impls) == Ok(Some(expected)))
}

#[test]
fn conditions_do_not_count(rt: HostRuntime) {
    holds_anew(&rt, rt.alloc(), conditions_do_not_count_holds);
}

// Returns whether the implementations with these heads are compared at an argument that isn't a type.
fn is_unverified(cx: &mut Interner, heads: &[TraitPredicate]) -> Result<bool, Refusal> {
    let impls = impls(cx, heads, &[])?;
    Ok(overlap_in(cx, impls) == Err(Fault::Unverified))
}

// Trait0<'static> for T isn't compared with Trait0<bool> for u32, nor with itself twice. Alone it has no overlap, nor
// beside an implementation of another trait.
fn other_arguments_are_not_compared_holds(cx: &mut Interner) -> Result<bool, Refusal> {
    let (param, number) = (param_ty(cx, 0)?, u32_ty(cx)?);
    let truth = ty(cx, TyKind::Bool)?;
    let region = GenericArg::from(Region::new_static());
    let of_region = goal(cx, 0, param, Some(region))?;
    let of_type = converts(cx, number, truth)?;
    let of_other = goal(cx, 1, number, None)?;
    Ok(
        is_unverified(cx, &[of_region, of_type])?
            && is_unverified(cx, &[of_type, of_region])?
            && is_unverified(cx, &[of_region, of_region])?
            && are_coherent(cx, &[of_region])?
            && are_coherent(cx, &[of_region, of_other])?,
    )
}

#[test]
fn other_arguments_are_not_compared(rt: HostRuntime) {
    holds_anew(&rt, rt.alloc(), other_arguments_are_not_compared_holds);
}
