//! The library's example, as README.md has it.

use super::holds_anew;
use test_terms::ty;
use type_terms::prelude::*;

// Returns `T` with `bool` for `T`.
pub fn replaced(cx: &mut Interner) -> Result<Ty, Refusal> {
    let parameter = cx.mk_param(0, "T")?;
    let argument = cx.mk_ty(TyKind::Bool)?;
    let args = [GenericArg::from(argument)];
    let answer = EarlyBinder::bind(parameter).instantiate(cx, args.as_slice())?;
    Ok(answer.skip_norm_wip())
}

// `T` with `bool` for `T` is `bool`.
fn is_bool_in_place_of_t(cx: &mut Interner) -> Result<bool, Refusal> {
    let answer = replaced(cx)?;
    Ok(answer == ty(cx, TyKind::Bool)?)
}

#[test]
fn example_of_the_library(rt: HostRuntime) {
    holds_anew(&rt, rt.alloc(), is_bool_in_place_of_t);
}
