//! Instantiation with a view of stored arguments, such as the own arguments of an associated type.

use super::holds_anew;
use test_terms::{NOT_OWNED, args, param_ty, ty, u32_ty};
use type_terms::{
    EarlyBinder, GenericArg, GenericArgsSlice, Instantiate, Interner, Owned, Refusal, SliceLike,
    TyKind, TypeFoldable,
};

// Returns the value with its parameters replaced by the view's arguments.
fn instance<T: Owned + TypeFoldable>(
    cx: &mut Interner,
    value: T,
    own: GenericArgsSlice,
) -> Result<T, Refusal> {
    if value.is_owned(cx) && own.is_owned(cx) {
        let instance = EarlyBinder::bind(value).instantiate(cx, own)?;
        Ok(instance.skip_norm_wip())
    } else {
        Err(NOT_OWNED)
    }
}

// Returns the number of the view's arguments, whether it is empty, and the argument at a place.
fn viewed_at(
    cx: &Interner,
    own: GenericArgsSlice,
    place: usize,
) -> Option<(usize, bool, Option<GenericArg>)> {
    if own.is_owned(cx) {
        Some((own.len(cx), own.is_empty(cx), own.get(cx, place)))
    } else {
        None
    }
}

// The parameter of index 0 is the view's first argument, and not the list's. A view beyond its list is shorter.
fn views_are_arguments_holds(cx: &mut Interner) -> Result<bool, Refusal> {
    let (number, truth) = (u32_ty(cx)?, ty(cx, TyKind::Bool)?);
    let (zero, one, two) = (param_ty(cx, 0)?, param_ty(cx, 1)?, param_ty(cx, 2)?);
    let (first, second) = (GenericArg::from(number), GenericArg::from(truth));
    let list = args(cx, &[first, second, first])?;
    let own = GenericArgsSlice::from_parts(list, 1, 2);
    let none = GenericArgsSlice::from_parts(list, 3, 2);
    Ok(
        instance(cx, (zero, one), own) == Ok((truth, number))
            && instance(cx, two, own) == Err(Refusal::ArgOutOfRange { index: 2 })
            && instance(cx, zero, none) == Err(Refusal::NoArguments)
            && viewed_at(cx, own, 1) == Some((2, false, Some(first)))
            && viewed_at(cx, none, 0) == Some((0, true, None)),
    )
}

#[test]
fn views_are_arguments(rt: HostRuntime) {
    holds_anew(&rt, rt.alloc(), views_are_arguments_holds);
}
