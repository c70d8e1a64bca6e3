//! Lists: of assumptions on regions, of stored arguments, and by index.

use super::{holds, holds_anew};
use std::alloc::Global;
use test_terms::{
    NOT_OWNED, args, bound_region, bound_ty, is_instance, is_shifted, param_ty, ty, u32_ty,
};
use type_terms::{
    EarlyBinder, GenericArg, IndexVec, Instantiate, InternedList, Interner, OutlivesPredicate,
    Refusal, Region, RegionAssumptions, Ty, TyKind, VariantIdx, are_owned, shift_region,
};

// Returns the list of the assumption that the type outlives the region.
fn assumptions(cx: &mut Interner, ty: Ty, region: Region) -> Result<RegionAssumptions, Refusal> {
    let items = [OutlivesPredicate(GenericArg::from(ty), region)];
    if are_owned(cx, &items) {
        cx.mk_assumptions(&items)
    } else {
        Err(NOT_OWNED)
    }
}

// A list of assumptions is read back, moved into binders and instantiated.
fn assumptions_holds(cx: &mut Interner) -> Result<bool, Refusal> {
    let near = bound_region(1)?;
    let far = bound_region(3)?;
    let variable = bound_ty(cx, 0)?;
    let moved = bound_ty(cx, 2)?;
    let parameter = param_ty(cx, 0)?;
    let given = [GenericArg::from(variable)];
    let declared = assumptions(cx, parameter, near)?;
    let used = assumptions(cx, variable, near)?;
    let shifted = assumptions(cx, moved, far)?;
    Ok(
        is_instance(cx, declared, &given, used)
            && is_shifted(cx, used, 2, shifted)
            && shift_region(near, 2) == Ok(far)
            && cx.owns(shifted)
            && shifted.as_slice(cx).first()
                == Some(&OutlivesPredicate(GenericArg::from(moved), far)),
    )
}

// A stored list of arguments serves as a borrowed one does. Only a type that holds a parameter is taken apart.
fn stored_arguments_holds(cx: &mut Interner) -> Result<bool, Refusal> {
    let parameter = param_ty(cx, 0)?;
    let number = u32_ty(cx)?;
    let declared = ty(cx, TyKind::Slice(parameter))?;
    let used = ty(cx, TyKind::Slice(number))?;
    let stored = args(cx, &[GenericArg::from(number)])?;
    if !cx.owns(declared) || !cx.owns(used) || !cx.owns(stored) {
        return Err(NOT_OWNED);
    }
    let instance = EarlyBinder::bind((declared, used)).instantiate(cx, stored)?;
    Ok(instance.skip_norm_wip() == (used, used) && cx.descents() == 1)
}

#[test]
fn stored_lists(rt: HostRuntime) {
    holds_anew(&rt, rt.alloc(), assumptions_holds);
    holds_anew(&rt, rt.alloc(), stored_arguments_holds);
}

// Returns the item at the end of the list, with its index.
fn pushed(list: &mut IndexVec<VariantIdx, u32>, item: u32) -> Result<VariantIdx, Refusal> {
    if list.has_next_index() {
        list.push(item)
    } else {
        Err(Refusal::TableFull)
    }
}

// A list by index takes a next item, finds each by its index and none past its end, and gives back its vector.
fn index_vec_holds(alloc: Global) -> Result<bool, Refusal> {
    let mut raw = Vec::new(alloc);
    raw.push(7)?;
    let mut list = IndexVec::<VariantIdx, u32>::from_raw(raw);
    let second = pushed(&mut list, 8)?;
    if second.as_usize() >= list.len() {
        return Ok(false);
    }
    list.set(second, 9);
    Ok(
        second.as_u32() == 1
            && list.len() == 2
            && list.get(second) == Some(&9)
            && list.get(VariantIdx::from_u32(2)) == None
            && list.iter().copied().last() == Some(9)
            && list.raw() == [7, 9].as_slice()
            && list.into_raw().as_slice() == [7, 9].as_slice()
            && IndexVec::<VariantIdx, u32>::new(alloc).is_empty(),
    )
}

#[test]
fn index_vec(rt: HostRuntime) {
    holds(&rt, index_vec_holds(rt.alloc()));
}
