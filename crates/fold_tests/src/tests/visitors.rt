//! Visitors with one hook: one that breaks with a handle, and one that asks a question.

ghost use Rattle.std.specs.Prelude.{⊤};
ghost use Rattle.tt_kinds.specs.Kinds.{ty_shape};
ghost use Rattle.tt_visit.specs.Types.{breaks_at};

use super::holds_anew;
use std::ops::ControlFlow;
use test_terms::{NOT_OWNED, bound_region, occurs, ref_ty, u32_ty};
use type_terms::{
    InternedKind, Interner, Next, Owned, Refusal, Region, Ty, TyKind, TypeInspector, inspect_types,
};

// Breaks with the first reference to the type.
#[derive(Drop)]
struct ReferenceTo(Ty);

impl TypeInspector for ReferenceTo {
    type Break = Ty;

    ghost shape = { λ s. ty_shape s.0 };

    ghost break_shape = { ty_shape };

    ghost hooks = { breaks_at (λ s t. ⊤) };

    fn inspect_ty(&mut self, cx: &Interner, ty: Ty) -> ControlFlow<Ty, Next> {
        match *ty.kind(cx) {
            TyKind::Ref(_, referent, _) if referent == self.0 => ControlFlow::Break(ty),
            _ => ControlFlow::Continue(Next::Descend),
        }
    }
}

// Returns the region of the first reference to the type in the value.
fn region_of_reference<T: Owned>(
    cx: &Interner,
    value: &T,
    to: Ty,
) -> Result<Option<Region>, Refusal> {
    if !value.is_owned(cx) || !to.is_owned(cx) {
        return Err(NOT_OWNED);
    }
    let ControlFlow::Break(reference) = inspect_types(cx, value, &mut ReferenceTo(to)) else {
        return Ok(None);
    };
    match *reference.kind(cx) {
        TyKind::Ref(region, _, _) => Ok(Some(region)),
        _ => Ok(None),
    }
}

// The break value of the visit is the interner's. A type occurs in itself, and not in its parts.
fn references_are_found_holds(cx: &mut Interner) -> Result<bool, Refusal> {
    let number = u32_ty(cx)?;
    let (near, far) = (bound_region(0)?, bound_region(1)?);
    let one = ref_ty(cx, far, number)?;
    let two = ref_ty(cx, near, one)?;
    Ok(
        region_of_reference(cx, &(number, two), number) == Ok(Some(far))
            && region_of_reference(cx, &two, one) == Ok(Some(near))
            && region_of_reference(cx, &two, two) == Ok(None)
            && occurs(cx, &(near, two), two) == Ok(true)
            && occurs(cx, &one, two) == Ok(false),
    )
}

#[test]
fn references_are_found(rt: HostRuntime) {
    holds_anew(&rt, rt.alloc(), references_are_found_holds);
}
