//! Which implementations can be declared.

use super::{declare, holds_anew, implements, number_implements, slice_implements};
use solver::{Fault, Impl, Program};
use test_terms::{bound_ty, param_region, param_ty, ref_ty, ty, u32_ty};
use type_terms::{InferTy, Interner, Refusal, Ty, TyKind, TyVid};

// Returns what the declaration of the implementation gives in a new program.
fn outcome(cx: &mut Interner, implementation: Impl) -> Result<(), Fault> {
    let mut program = Program::new(cx.allocator());
    declare(cx, &mut program, implementation)
}

// Returns whether `impl<T> Trait for u32 where .. : Trait` can't be declared for this type in the condition.
fn is_unwritten(cx: &mut Interner, ty: Ty) -> Result<bool, Refusal> {
    let number = u32_ty(cx)?;
    let condition = implements(cx, ty)?;
    let implementation = Impl {
        params: 1,
        head: implements(cx, number)?,
        conditions: Vec::from_slice(cx.allocator(), &[condition])?,
    };
    let of_head = Impl {
        params: 1,
        head: condition,
        conditions: Vec::new(cx.allocator()),
    };
    Ok(
        outcome(cx, implementation) == Err(Fault::Unwritten)
            && outcome(cx, of_head) == Err(Fault::Unwritten),
    )
}

// Both implementations of the logs' program can be declared.
fn own_parameters_are_written_holds(cx: &mut Interner) -> Result<bool, Refusal> {
    let param = param_ty(cx, 0)?;
    let first = number_implements(cx)?;
    let second = slice_implements(cx, param)?;
    Ok(outcome(cx, first) == Ok(()) && outcome(cx, second) == Ok(()))
}

#[test]
fn own_parameters_are_written(rt: HostRuntime) {
    holds_anew(&rt, rt.alloc(), own_parameters_are_written_holds);
}

// An inference variable, a variable of a binder outside, a parameter of the next index, and a region parameter.
fn others_are_unwritten_holds(cx: &mut Interner) -> Result<bool, Refusal> {
    let variable = ty(cx, TyKind::Infer(InferTy::TyVar(TyVid::from_u32(0))))?;
    let bound = bound_ty(cx, 0)?;
    let next = param_ty(cx, 1)?;
    let region = param_region(cx, 0)?;
    let number = u32_ty(cx)?;
    let reference = ref_ty(cx, region, number)?;
    Ok(
        is_unwritten(cx, variable)?
            && is_unwritten(cx, bound)?
            && is_unwritten(cx, next)?
            && is_unwritten(cx, reference)?,
    )
}

#[test]
fn others_are_unwritten(rt: HostRuntime) {
    holds_anew(&rt, rt.alloc(), others_are_unwritten_holds);
}
