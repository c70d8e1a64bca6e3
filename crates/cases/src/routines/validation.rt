//! Values under binders, whose variables agree with the binders' lists or don't.

use std::ops::ControlFlow;
use test_terms::{NOT_OWNED, bound_region, bound_ty, one_region, ref_ty, tuple, u32_ty};
use type_terms::{
    Binder, BoundTyKind, BoundVarKinds, BoundVariableKind, Interner, Owned, Refusal,
    ValidateBoundVars, WrongBoundVar,
};

// Returns whether the variables of the binder just outside of the value agree with this list.
fn agrees<T: Owned>(cx: &Interner, value: &T, vars: BoundVarKinds) -> Result<bool, Refusal> {
    if !value.is_owned(cx) || !cx.owns_bound_vars(vars) {
        return Err(NOT_OWNED);
    }
    let mut visitor = ValidateBoundVars::new(cx.allocator(), vars);
    match value.visit_with(cx, &mut visitor) {
        ControlFlow::Continue(()) => Ok(true),
        ControlFlow::Break(WrongBoundVar) => Ok(false),
    }
}

/// A type variable agrees with a list of one type, and a region doesn't; a variable of the outer binder is found after
/// a type that occurs twice, and under a binder.
pub fn variables_are_validated(cx: &mut Interner) -> Result<bool, Refusal> {
    let variable = bound_ty(cx, 0)?;
    let number = u32_ty(cx)?;
    let near = bound_region(0)?;
    let reference = ref_ty(cx, bound_region(1)?, number)?;
    let outer = bound_ty(cx, 1)?;
    let twice = tuple(cx, &[reference, reference, outer])?;
    let region = one_region(cx)?;
    let one_type = cx.mk_bound_vars(&[BoundVariableKind::Ty(BoundTyKind::Anon)])?;
    let none = BoundVarKinds::default();
    let under = Binder::bind_with_vars(twice, region);
    let single = Binder::bind_with_vars(reference, region);
    Ok(
        agrees(cx, &variable, one_type)?
            && !agrees(cx, &near, one_type)?
            && agrees(cx, &near, region)?
            && agrees(cx, &single, region)?
            && !agrees(cx, &single, none)?
            && !agrees(cx, &under, region)?,
    )
}
