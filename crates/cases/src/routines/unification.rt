//! Types with variables, made equal by the client `unify`.

ghost use Rattle.unify.specs.Bindings.{IsTable};

use test_terms::{NOT_OWNED, tuple, ty, u32_ty};
use type_terms::{InferTy, Interner, Owned, Refusal, Ty, TyKind, TyVid};
use unify::{Bindings, Fault, unify};

// Returns the variable of this number, below 1,000.
fn variable(cx: &mut Interner, number: u32) -> Result<Ty, Refusal> {
    let number = number % 1_000;
    ty(cx, TyKind::Infer(InferTy::TyVar(TyVid::from_u32(number))))
}

// Makes two variables.
fn add_two(cx: &mut Interner, bindings: &mut Bindings) -> Result<(), Fault>
    requires { IsTable cx.old bindings.old }
    ensures { IsTable cx.new bindings.new }
{
    // Here the checker learns which module holds the refusal in a fault.
    let _named: Option<Refusal> = None;
    bindings.new_variable(cx)?;
    bindings.new_variable(cx)?;
    Ok(())
}

// Returns whether the two types become the type `both`.
fn become_one(
    cx: &mut Interner,
    bindings: &mut Bindings,
    left: Ty,
    right: Ty,
    both: Ty,
) -> Result<bool, Fault>
    requires { IsTable cx.old bindings.old }
{
    if !left.is_owned(cx) || !right.is_owned(cx) {
        return Err(Fault::Refused(NOT_OWNED));
    }
    unify(cx, bindings, left, right)?;
    if !left.is_owned(cx) {
        return Err(Fault::Refused(NOT_OWNED));
    }
    Ok(bindings.resolve(cx, left)? == both)
}

// Returns the same with a new table of two variables.
fn become_one_anew(cx: &mut Interner, left: Ty, right: Ty, both: Ty) -> Result<bool, Fault> {
    let _named: Option<Refusal> = None;
    let mut bindings = Bindings::new(cx.allocator());
    add_two(cx, &mut bindings)?;
    become_one(cx, &mut bindings, left, right, both)
}

/// `(?0, ?1)` and `(u32, [?0])` become `(u32, [u32])`.
pub fn types_are_unified(cx: &mut Interner) -> Result<bool, Refusal> {
    let (zero, one) = (variable(cx, 0)?, variable(cx, 1)?);
    let number = u32_ty(cx)?;
    let slice_of_zero = ty(cx, TyKind::Slice(zero))?;
    let slice = ty(cx, TyKind::Slice(number))?;
    let left = tuple(cx, &[zero, one])?;
    let right = tuple(cx, &[number, slice_of_zero])?;
    let both = tuple(cx, &[number, slice])?;
    match become_one_anew(cx, left, right, both) {
        Ok(answer) => Ok(answer),
        Err(Fault::Refused(refusal)) => Err(refusal),
        Err(_) => Ok(false),
    }
}
