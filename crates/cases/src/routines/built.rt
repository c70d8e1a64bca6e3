//! Terms that calls of their own build, and terms that hold other terms in several ways.

use test_terms::{
    NOT_OWNED, bound_region, bound_ty, instance, param_region, param_ty, ref_ty, shifted, tuple,
    tys,
};
use type_terms::{
    GenericArg, Interner, Mutability, OutlivesPredicate, Refusal, Region, RegionAssumptions, Ty,
    TyKind, Tys, are_owned,
};

// Returns `&'r T`, by the call for references.
fn reference(cx: &mut Interner, region: Region, referent: Ty) -> Result<Ty, Refusal> {
    if cx.owns_kind(&TyKind::Ref(region, referent, Mutability::Not)) {
        cx.mk_ref(region, referent, Mutability::Not)
    } else {
        Err(NOT_OWNED)
    }
}

// Returns the tuple of these types, by the call for tuples.
fn tuple_of(cx: &mut Interner, types: &[Ty]) -> Result<Ty, Refusal> {
    if are_owned(cx, types) {
        cx.mk_tuple(types)
    } else {
        Err(NOT_OWNED)
    }
}

/// A parameter, a reference and a tuple are what the call for all types builds.
pub fn types_are_built(cx: &mut Interner) -> Result<bool, Refusal> {
    let region = bound_region(0)?;
    let parameter = cx.mk_param(0, "T")?;
    let borrowed = reference(cx, region, parameter)?;
    let pair = tuple_of(cx, &[parameter, borrowed])?;
    let same_parameter = param_ty(cx, 0)?;
    let same_borrowed = ref_ty(cx, region, same_parameter)?;
    let same_pair = tuple(cx, &[same_parameter, same_borrowed])?;
    Ok(parameter == same_parameter && borrowed == same_borrowed && pair == same_pair)
}

// Returns the list of the assumption that the type outlives the region.
fn assumption(cx: &mut Interner, ty: Ty, region: Region) -> Result<RegionAssumptions, Refusal> {
    let items = [OutlivesPredicate(GenericArg::from(ty), region)];
    if are_owned(cx, &items) {
        cx.mk_assumptions(&items)
    } else {
        Err(NOT_OWNED)
    }
}

/// A list of assumptions is instantiated and moved into binders as its type and its region are.
pub fn assumptions_are_folded(cx: &mut Interner) -> Result<bool, Refusal> {
    let (near, far) = (bound_region(1)?, bound_region(3)?);
    let parameter = param_ty(cx, 0)?;
    let variable = bound_ty(cx, 0)?;
    let declared = assumption(cx, parameter, near)?;
    let used = instance(cx, declared, &[GenericArg::from(variable)])?;
    let moved = shifted(cx, used, 2)?;
    let outer = bound_ty(cx, 2)?;
    Ok(used == assumption(cx, variable, near)? && moved == assumption(cx, outer, far)?)
}

// Returns whether a triple and both sorts of results are moved into two more binders.
fn are_moved(cx: &mut Interner) -> Result<bool, Refusal> {
    let (near, far) = (bound_region(0)?, bound_region(2)?);
    let variable = bound_ty(cx, 0)?;
    let list = tys(cx, &[variable])?;
    let good: Result<Ty, Tys> = Ok(variable);
    let bad: Result<Ty, Tys> = Err(list);
    let triple = shifted(cx, (variable, near, list), 2)?;
    let good = shifted(cx, good, 2)?;
    let bad = shifted(cx, bad, 2)?;
    let outer = bound_ty(cx, 2)?;
    let outer_list = tys(cx, &[outer])?;
    Ok(triple == (outer, far, outer_list) && good == Ok(outer) && bad == Err(outer_list))
}

// Returns whether the same are instantiated.
fn are_instantiated(cx: &mut Interner) -> Result<bool, Refusal> {
    let region = bound_region(0)?;
    let parameter = param_ty(cx, 0)?;
    let lifetime = param_region(cx, 1)?;
    let list = tys(cx, &[parameter])?;
    let good: Result<Ty, Tys> = Ok(parameter);
    let bad: Result<Ty, Tys> = Err(list);
    let argument = bound_ty(cx, 3)?;
    let given = [GenericArg::from(argument), GenericArg::from(region)];
    let triple = instance(cx, (parameter, lifetime, list), &given)?;
    let good = instance(cx, good, &given)?;
    let bad = instance(cx, bad, &given)?;
    let wanted = tys(cx, &[argument])?;
    Ok(triple == (argument, region, wanted) && good == Ok(argument) && bad == Err(wanted))
}

/// Each part of a triple is moved into binders and instantiated, and so is the value or the error of a result.
pub fn values_are_moved(cx: &mut Interner) -> Result<bool, Refusal> {
    Ok(are_moved(cx)? && are_instantiated(cx)?)
}
