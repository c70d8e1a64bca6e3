//! The names of the prelude are enough for a first function.

use super::holds_anew;
use type_terms::prelude::*;

// `[T]` with `bool` for T is `[bool]`, which has no parameter.
fn is_instance_written(cx: &mut Interner) -> Result<bool, Refusal> {
    let param = cx.mk_param(0, "T")?;
    let slice = cx.mk_ty(TyKind::Slice(param))?;
    let args = [GenericArg::from(cx.mk_ty(TyKind::Bool)?)];
    let instance = EarlyBinder::bind(slice).instantiate(cx, args.as_slice())?;
    let ty = instance.skip_norm_wip();
    let mut text = String::new(cx.allocator());
    ty.print(cx, &mut text)?;
    Ok(text.as_str() == "[bool]" && slice.has_param(cx) && !ty.has_param(cx))
}

#[test]
fn names_of_the_prelude(rt: HostRuntime) {
    holds_anew(&rt, rt.alloc(), is_instance_written);
}
