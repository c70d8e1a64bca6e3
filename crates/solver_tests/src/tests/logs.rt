//! Logs of the program `impl Trait for u32` and `impl<T> Trait for [T] where T: Trait`.

use super::{assumed, follows, holds_anew, number_line, slice, slice_line};
use test_terms::{param_ty, ty, u32_ty};
use type_terms::{InferTy, Interner, Refusal, TyKind, TyVid};

// u32, so [u32], so [[u32]]: each line follows from the one before.
fn slices_of_numbers_follow_holds(cx: &mut Interner) -> Result<bool, Refusal> {
    let (param, number) = (param_ty(cx, 0)?, u32_ty(cx)?);
    let numbers = slice(cx, number)?;
    let lines = [
        number_line(cx)?,
        slice_line(cx, number, &[0])?,
        slice_line(cx, numbers, &[1])?,
    ];
    follows(cx, param, param, &lines)
}

#[test]
fn slices_of_numbers_follow(rt: HostRuntime) {
    holds_anew(&rt, rt.alloc(), slices_of_numbers_follow_holds);
}

// If T is assumed, [T] follows; if ?0 is, [?0] does. bool isn't assumed.
fn assumptions_are_used_holds(cx: &mut Interner) -> Result<bool, Refusal> {
    let param = param_ty(cx, 0)?;
    let variable = ty(cx, TyKind::Infer(InferTy::TyVar(TyVid::from_u32(0))))?;
    let truth = ty(cx, TyKind::Bool)?;
    let of_param = [assumed(cx, param, 0)?, slice_line(cx, param, &[0])?];
    let of_variable = [assumed(cx, variable, 0)?, slice_line(cx, variable, &[0])?];
    let other = [assumed(cx, truth, 0)?];
    let none = [assumed(cx, param, 1)?];
    Ok(
        follows(cx, param, param, &of_param)?
            && follows(cx, param, variable, &of_variable)?
            && !follows(cx, param, param, &other)?
            && !follows(cx, param, param, &none)?,
    )
}

#[test]
fn assumptions_are_used(rt: HostRuntime) {
    holds_anew(&rt, rt.alloc(), assumptions_are_used_holds);
}

// [u32] doesn't follow from itself, from a later line, from no line, from two lines, or from a line on bool.
fn conditions_are_earlier_lines_holds(cx: &mut Interner) -> Result<bool, Refusal> {
    let (param, number) = (param_ty(cx, 0)?, u32_ty(cx)?);
    let truth = ty(cx, TyKind::Bool)?;
    let itself = [slice_line(cx, number, &[0])?];
    let later = [slice_line(cx, number, &[1])?, number_line(cx)?];
    let missing = [number_line(cx)?, slice_line(cx, number, &[])?];
    let twice = [number_line(cx)?, slice_line(cx, number, &[0, 0])?];
    let wrong = [assumed(cx, truth, 0)?, slice_line(cx, number, &[0])?];
    Ok(
        !follows(cx, param, param, &itself)?
            && !follows(cx, param, param, &later)?
            && !follows(cx, param, param, &missing)?
            && !follows(cx, param, param, &twice)?
            && !follows(cx, param, truth, &wrong)?,
    )
}

#[test]
fn conditions_are_earlier_lines(rt: HostRuntime) {
    holds_anew(&rt, rt.alloc(), conditions_are_earlier_lines_holds);
}
