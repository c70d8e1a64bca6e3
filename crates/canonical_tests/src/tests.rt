//! Values get their canonical forms, and only renamed values get the same one.

mod forms;

ghost use Rattle.std.specs.Prelude.{IfOk};
ghost use Rattle.tt_interner.specs.Owned.{IsPartBy};
ghost use Rattle.tt_interner.specs.Stored.{Extends};

use canonical::{Canonical, canonicalize};
use std::alloc::Global;
use std::process::Abort;
use test_terms::{NOT_OWNED, answer_anew, ty};
use type_terms::{InferTy, Interner, Owned, Refusal, Ty, TyKind, TyVid, TypeFoldable};

// Asserts that the check returns `Ok(true)` on a new interner.
fn holds_anew<F: FnOnce(&mut Interner) -> Result<bool, Refusal> + Drop>(
    rt: &impl Abort,
    alloc: Global,
    check: F,
)
    requires { F.IsAlwaysCallable check }
{
    assert_eq!(rt; answer_anew(alloc, check), Ok(true));
}

// Returns the variable of this number, below 1,000.
fn variable(cx: &mut Interner, number: u32) -> Result<Ty, Refusal> {
    let number = number % 1_000;
    ty(cx, TyKind::Infer(InferTy::TyVar(TyVid::from_u32(number))))
}

// Returns the canonical form of the value.
fn form<T: Owned + TypeFoldable>(cx: &mut Interner, value: T) -> Result<Canonical<T>, Refusal> {
    if !value.is_owned(cx) {
        return Err(NOT_OWNED);
    }
    canonicalize(cx, value)
}

// Returns whether the value becomes `wanted`, with numbers in place of these variables.
fn becomes<T: Owned + TypeFoldable + PartialEq>(
    cx: &mut Interner,
    value: T,
    wanted: T,
    variables: &[u32],
) -> Result<bool, Refusal> {
    let form = form(cx, value)?;
    let mut listed = form.variables.len() == variables.len();
    for (variable, &number) in form.variables.as_slice().iter().zip(variables.iter()) {
        listed = listed && variable.as_u32() == number;
    }
    Ok(listed && form.value == wanted)
}
