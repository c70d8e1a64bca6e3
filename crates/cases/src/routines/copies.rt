//! Copies of values, and visits of lists that can't be folded.

use indexmap::IndexSet;
use smallvec::SmallVec;
use test_terms::{NOT_OWNED, bound_region, bound_ty, ty};
use type_terms::{
    ClonesTree, FieldIdx, IndexVec, Interner, OutlivesPredicate, Refusal, Region, Ty, TyKind,
    TypeVisitableExt, are_owned,
};

// Returns whether a copy of the value is equal to it.
fn is_copied<T: ClonesTree + PartialEq>(value: &T) -> Result<bool, Refusal> {
    let copy = value.clone()?;
    Ok(copy == *value)
}

// Returns whether copies of lists are equal to them.
fn lists_are_copied(cx: &Interner, first: Ty, second: Ty) -> Result<bool, Refusal> {
    let list = vec![in cx.allocator(); first, second]?;
    let slice = vec![in cx.allocator(); first, second]?.into_boxed_slice();
    let same_list = is_copied(&list)?;
    let same_slice = is_copied(&slice)?;
    let fields: IndexVec<FieldIdx, Ty> = IndexVec::from_raw(list);
    let copy = fields.clone()?;
    Ok(same_list && same_slice && copy.raw() == [first, second].as_slice())
}

/// Copies of lists, boxes, results, pairs and records are equal to them.
pub fn values_are_copied(cx: &mut Interner) -> Result<bool, Refusal> {
    let own = bound_ty(cx, 0)?;
    let outer = bound_ty(cx, 1)?;
    let region = bound_region(1)?;
    let good: Result<Ty, Region> = Ok(own);
    let bad: Result<Ty, Region> = Err(region);
    let boxed = Box::new(cx.allocator(), own)?;
    let same_box = is_copied(&boxed)?;
    Ok(
        same_box
            && lists_are_copied(cx, own, outer)?
            && is_copied(&good)?
            && is_copied(&bad)?
            && is_copied(&(own, region, Some(7u32)))?
            && is_copied(&OutlivesPredicate(own, region))?,
    )
}

// Returns whether a variable escapes from a small vector of the type, and from a set of it.
fn escapes(cx: &Interner, ty: Ty) -> Result<(bool, bool), Refusal> {
    let mut few: SmallVec<Option<Ty>, 4> = SmallVec::new(cx.allocator());
    few.push(Some(ty))?;
    let mut set: IndexSet<Ty> = IndexSet::new(cx.allocator());
    let _added = set.insert(ty)?;
    if are_owned(cx, few.as_slice()) && are_owned(cx, set.as_slice()) {
        Ok((
            few.has_escaping_bound_vars(cx),
            set.has_escaping_bound_vars(cx),
        ))
    } else {
        Err(NOT_OWNED)
    }
}

/// A variable escapes from a small vector and from a set if it escapes from an item.
pub fn items_are_visited(cx: &mut Interner) -> Result<bool, Refusal> {
    let own = bound_ty(cx, 0)?;
    let closed = cx.mk_tys(&[])?;
    let unit = ty(cx, TyKind::Tuple(closed))?;
    Ok(escapes(cx, own)? == (true, true) && escapes(cx, unit)? == (false, false))
}
