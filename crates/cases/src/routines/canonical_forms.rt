//! Canonical forms by the client `canonical`.

use canonical::canonicalize;
use test_terms::{NOT_OWNED, tuple, ty};
use type_terms::{InferTy, Interner, Owned, Refusal, Ty, TyKind, TyVid};

// Returns the variable of this number, below 1,000.
fn variable(cx: &mut Interner, number: u32) -> Result<Ty, Refusal> {
    let number = number % 1_000;
    ty(cx, TyKind::Infer(InferTy::TyVar(TyVid::from_u32(number))))
}

// Returns the canonical form of `(first, [second], third)`, with the variables of these numbers.
fn form(cx: &mut Interner, first: u32, second: u32, third: u32) -> Result<Ty, Refusal> {
    let second = variable(cx, second)?;
    let slice = ty(cx, TyKind::Slice(second))?;
    let (first, third) = (variable(cx, first)?, variable(cx, third)?);
    let whole = tuple(cx, &[first, slice, third])?;
    if !whole.is_owned(cx) {
        return Err(NOT_OWNED);
    }
    let form = canonicalize(cx, whole)?;
    Ok(form.value)
}

/// `(?5, [?3], ?5)` and `(?2, [?7], ?2)` have one canonical form, and `(?5, [?3], ?3)` has another one.
pub fn canonical_forms_are_exact(cx: &mut Interner) -> Result<bool, Refusal> {
    let first = form(cx, 5, 3, 5)?;
    let renamed = form(cx, 2, 7, 2)?;
    let other = form(cx, 5, 3, 3)?;
    Ok(first == renamed && first != other)
}
