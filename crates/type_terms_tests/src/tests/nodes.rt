//! Terms and lists that are stored by their parts, and the library's visitors.

use super::holds_anew;
use test_terms::{NOT_OWNED, bound_region, one_region, param_ty, ref_ty, ty, tys, u32_ty};
use type_terms::{
    AnyHandle, Binder, Child, DebruijnIndex, GREATEST_INDEX, HasEscapingVarsVisitor,
    HasTypeFlagsVisitor, Interner, Kind, MeetsRegionsVisitor, Owned, Parts, Refusal, TermTable, Ty,
    TyKind, TypeFlags, TypeVisitable,
};

// Returns the stored type of this kind.
fn stored(cx: &mut Interner, kind: TyKind) -> Result<AnyHandle, Refusal> {
    if cx.owns_kind(&kind) {
        cx.store(Kind::Ty(kind))
    } else {
        Err(NOT_OWNED)
    }
}

// Returns the type like this one around another type.
fn stored_like(cx: &mut Interner, like: Ty, inside: Ty) -> Result<AnyHandle, Refusal> {
    let node = like.any();
    if !cx.owns_ty(like) || !cx.owns_ty(inside) {
        return Err(NOT_OWNED);
    }
    let parts = Parts::one(inside.child());
    if !cx.node_parts(node).parts.are_like(&parts) {
        return Err(NOT_OWNED);
    }
    cx.store_like(node, parts)
}

// Returns the list of this type, as a list of children.
fn stored_list(cx: &mut Interner, item: Ty) -> Result<AnyHandle, Refusal> {
    if cx.owns_ty(item) {
        cx.store_list(TermTable::TypeLists, &[item.child()])
    } else {
        Err(NOT_OWNED)
    }
}

// A term is the same by its kind, by its parts and by its own call.
fn nodes_hold(cx: &mut Interner) -> Result<bool, Refusal> {
    let (number, truth) = (u32_ty(cx)?, ty(cx, TyKind::Bool)?);
    let slice = ty(cx, TyKind::Slice(number))?;
    let other = ty(cx, TyKind::Slice(truth))?;
    let list = tys(cx, &[truth])?;
    Ok(
        stored(cx, TyKind::Slice(truth))? == other.any()
            && stored_like(cx, slice, truth)? == other.any()
            && stored_like(cx, number, truth) == Err(NOT_OWNED)
            && stored_list(cx, truth)? == list.any(),
    )
}

// The visitors of the queries, by themselves: on `&'^1.0 T`, and on that under a binder.
fn visitors_hold(cx: &mut Interner) -> Result<bool, Refusal> {
    let param = param_ty(cx, 0)?;
    let reference = ref_ty(cx, bound_region(1)?, param)?;
    let bound = Binder::bind_with_vars(reference, one_region(cx)?);
    if !reference.is_owned(cx) || !bound.is_owned(cx) {
        return Err(NOT_OWNED);
    }
    let mut params = HasTypeFlagsVisitor::new(TypeFlags::HAS_TY_PARAM);
    let mut variables = HasTypeFlagsVisitor::new(TypeFlags::HAS_TY_BOUND);
    let mut near = HasEscapingVarsVisitor::new(DebruijnIndex::from_u32(0));
    let mut far = HasEscapingVarsVisitor::new(DebruijnIndex::from_u32(1));
    let mut farthest = HasEscapingVarsVisitor::new(DebruijnIndex::from_u32(GREATEST_INDEX));
    let mut meets = MeetsRegionsVisitor::new();
    Ok(
        reference.visit_with(cx, &mut params).is_break()
            && reference.visit_with(cx, &mut variables).is_continue()
            && bound.visit_with(cx, &mut near).is_break()
            && bound.visit_with(cx, &mut far).is_continue()
            && bound.visit_with(cx, &mut farthest).is_continue()
            && bound.visit_with(cx, &mut meets).is_break()
            && !far.has_skipped()
            && farthest.has_skipped()
            && !meets.has_skipped(),
    )
}

#[test]
fn parts_and_visitors(rt: HostRuntime) {
    holds_anew(&rt, rt.alloc(), nodes_hold);
    holds_anew(&rt, rt.alloc(), visitors_hold);
}
