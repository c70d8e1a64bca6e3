//! Values in which one type occurs at many places: how often a type is taken apart, and which rows are added.

use super::holds_anew;
use test_terms::{bound_region, instance, param_ty, pointer, ref_ty, shifted, tuple, ty};
use type_terms::{GenericArg, IntTy, InternedKind, Interner, Refusal, Ty, TyKind, UintTy};

// `&'^D.0 i32`, of the binder of this index.
pub fn bound_ref(cx: &mut Interner, binder: u32) -> Result<Ty, Refusal> {
    let region = bound_region(binder)?;
    let number = ty(cx, TyKind::Int(IntTy::I32))?;
    ref_ty(cx, region, number)
}

// Returns the type paired with itself, and each pair again, `times` times.
pub fn paired(cx: &mut Interner, single: Ty, times: u32) -> Result<Ty, Refusal> {
    let mut pair = single;
    for _ in 0..times {
        pair = tuple(cx, &[pair, pair])?;
    }
    Ok(pair)
}

// `(P, P, fn(Q))`, where P and Q are the tuples of these types.
fn twice_and_under(cx: &mut Interner, item: Ty, item_under: Ty) -> Result<Ty, Refusal> {
    let unit = tuple(cx, &[])?;
    let first = tuple(cx, &[item])?;
    let second = tuple(cx, &[item_under])?;
    let function = pointer(cx, &[second, unit])?;
    tuple(cx, &[first, first, function])
}

// A type that occurs again under as many binders is taken apart once: of `(P, P, fn(P))` four types are, and of 2^64
// places 65.
fn shared_types_are_taken_apart_once_holds(cx: &mut Interner) -> Result<bool, Refusal> {
    let parameter = param_ty(cx, 0)?;
    let (near, far) = (bound_ref(cx, 0)?, bound_ref(cx, 1)?);
    let value = twice_and_under(cx, parameter, parameter)?;
    let wanted = twice_and_under(cx, near, far)?;
    let used = instance(cx, value, &[GenericArg::from(near)])?;
    let descents = cx.descents();
    let tower = paired(cx, near, 64)?;
    let wanted_tower = paired(cx, far, 64)?;
    let before = cx.shift_descents();
    let moved = shifted(cx, tower, 1)?;
    let between = cx.shift_descents();
    let used_tower = instance(cx, value, &[GenericArg::from(tower)])?;
    let wanted_towers = twice_and_under(cx, tower, wanted_tower)?;
    Ok(
        used == wanted
            && descents == 4
            && moved == wanted_tower
            && between.saturating_sub(before) == 65
            && used_tower == wanted_towers
            && cx.shift_descents().saturating_sub(between) == 65,
    )
}

#[test]
fn shared_types_are_taken_apart_once(rt: HostRuntime) {
    holds_anew(&rt, rt.alloc(), shared_types_are_taken_apart_once_holds);
}

// Returns whether the value's instance is a new type, and so many types were new in all.
fn adds(
    cx: &mut Interner,
    value: Ty,
    args: &[GenericArg],
    newest: Ty,
    count: u32,
) -> Result<bool, Refusal> {
    let used = instance(cx, value, args)?;
    Ok(used.number() == newest.number().saturating_add(count))
}

// `(T, fn(U))` with `&'^0.0 i32` and `u8` adds a pointer and a tuple, and not `&'^1.0 i32`, which `(T, fn(T))` needs.
fn needed_types_alone_are_added_holds(cx: &mut Interner) -> Result<bool, Refusal> {
    let unit = tuple(cx, &[])?;
    let (first, second) = (param_ty(cx, 0)?, param_ty(cx, 1)?);
    let (of_first, of_second) = (pointer(cx, &[first, unit])?, pointer(cx, &[second, unit])?);
    let beside_second = tuple(cx, &[first, of_second])?;
    let beside_first = tuple(cx, &[first, of_first])?;
    let reference = GenericArg::from(bound_ref(cx, 0)?);
    let byte = ty(cx, TyKind::Uint(UintTy::U8))?;
    let without = adds(
        cx,
        beside_second,
        &[reference, GenericArg::from(byte)],
        byte,
        2,
    )?;
    let newest = ty(cx, TyKind::Never)?;
    Ok(without && adds(cx, beside_first, &[reference], newest, 3)?)
}

#[test]
fn needed_types_alone_are_added(rt: HostRuntime) {
    holds_anew(&rt, rt.alloc(), needed_types_alone_are_added_holds);
}
