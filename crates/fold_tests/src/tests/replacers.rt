//! Folders with one hook.

ghost use Rattle.std.specs.Prelude.{◌≡◌, ◌⊎◌};
ghost use Rattle.tt_kinds.specs.Kinds.{region_shape, ty_shape};
ghost use Rattle.tt_kinds.specs.Label.{erased_region};
ghost use Rattle.tt_kinds.specs.Tree.{region};
ghost use Rattle.tt_fold.specs.Regions.{never_fails as regions_never_fail};
ghost use Rattle.tt_fold.specs.Types.{never_fails as types_never_fail};
ghost use Rattle.tt_fold.specs.Walk.{replace, descend};

use super::holds_anew;
use super::sharing::paired;
use test_terms::{NOT_OWNED, bound_region, one_region, ref_ty, ty, u32_ty};
use type_terms::{
    Binder, InternedKind, Interner, Owned, Refusal, Region, RegionKind, RegionReplacer, Step, Ty,
    TyKind, TypeFoldable, TypeReplacer, UintTy, replace_regions, replace_types, replace_types_once,
};

// Replaces each region by one.
#[derive(Drop)]
struct OneForAll {
    region: Region,
}

impl RegionReplacer for OneForAll {
    type Error = Refusal;

    ghost shape = { λ s. region_shape s.region };

    ghost hooks = { regions_never_fail (λ s t r. r ≡ s.state) };

    fn replace_region(&mut self, _cx: &mut Interner, _region: Region) -> Result<Region, Refusal> {
        Ok(self.region)
    }
}

// Returns the value with each of its regions replaced by one.
fn with_region<T: Owned + TypeFoldable>(
    cx: &mut Interner,
    value: T,
    region: Region,
) -> Result<T, Refusal> {
    if value.is_owned(cx) && region.is_owned(cx) {
        replace_regions(cx, value, &mut OneForAll { region })
    } else {
        Err(NOT_OWNED)
    }
}

// Each region is replaced, at any depth, under a binder and by itself.
fn regions_are_replaced_holds(cx: &mut Interner) -> Result<bool, Refusal> {
    let number = u32_ty(cx)?;
    let region = bound_region(0)?;
    let fixed = Region::new(RegionKind::ReStatic)?;
    let one = ref_ty(cx, region, number)?;
    let two = ref_ty(cx, region, one)?;
    let fixed_one = ref_ty(cx, fixed, number)?;
    let fixed_two = ref_ty(cx, fixed, fixed_one)?;
    let vars = one_region(cx)?;
    Ok(
        with_region(cx, (two, region), fixed) == Ok((fixed_two, fixed))
            && with_region(cx, Binder::bind_with_vars(one, vars), fixed)
                == Ok(Binder::bind_with_vars(fixed_one, vars)),
    )
}

#[test]
fn regions_are_replaced(rt: HostRuntime) {
    holds_anew(&rt, rt.alloc(), regions_are_replaced_holds);
}

// Erases each region.
#[derive(Drop)]
struct Eraser;

impl RegionReplacer for Eraser {
    type Error = Refusal;

    ghost hooks = { regions_never_fail (λ s t r. r ≡ region erased_region) };

    #[tactic(auto, unfolding(tt_kinds::specs::Shape::fill))]
    fn replace_region(&mut self, _cx: &mut Interner, _region: Region) -> Result<Region, Refusal> {
        Region::new(RegionKind::ReErased)
    }
}

// Returns the value with its regions erased.
fn erased<T: Owned + TypeFoldable>(cx: &mut Interner, value: T) -> Result<T, Refusal> {
    if value.is_owned(cx) {
        replace_regions(cx, value, &mut Eraser)
    } else {
        Err(NOT_OWNED)
    }
}

// Regions that are bound in the value are erased too.
fn regions_are_erased_holds(cx: &mut Interner) -> Result<bool, Refusal> {
    let number = u32_ty(cx)?;
    let region = bound_region(0)?;
    let nothing = Region::new(RegionKind::ReErased)?;
    let one = ref_ty(cx, region, number)?;
    let erased_one = ref_ty(cx, nothing, number)?;
    let vars = one_region(cx)?;
    Ok(
        erased(cx, (one, region)) == Ok((erased_one, nothing))
            && erased(cx, Binder::bind_with_vars(one, vars))
                == Ok(Binder::bind_with_vars(erased_one, vars))
            && erased(cx, number) == Ok(number),
    )
}

#[test]
fn regions_are_erased(rt: HostRuntime) {
    holds_anew(&rt, rt.alloc(), regions_are_erased_holds);
}

// Replaces one type by another.
#[derive(Drop)]
struct InPlaceOf {
    from: Ty,
    to: Ty,
}

impl TypeReplacer for InPlaceOf {
    type Error = Refusal;

    ghost shape = { λ s. ty_shape s.to };

    ghost hooks = { types_never_fail (λ s t a. (a ≡ replace s.state) ⊎ (a ≡ descend)) };

    fn replace_ty(&mut self, _cx: &mut Interner, ty: Ty) -> Result<Step<Ty>, Refusal> {
        if ty == self.from {
            Ok(Step::Replace(self.to))
        } else {
            Ok(Step::Descend)
        }
    }
}

// Returns the value with one type replaced by another.
fn with_type<T: Owned + TypeFoldable>(
    cx: &mut Interner,
    value: T,
    from: Ty,
    to: Ty,
) -> Result<T, Refusal> {
    if value.is_owned(cx) && to.is_owned(cx) {
        replace_types(cx, value, &mut InPlaceOf { from, to })
    } else {
        Err(NOT_OWNED)
    }
}

// One type is replaced at any depth and under a binder, and each region stays.
fn types_alone_are_replaced_holds(cx: &mut Interner) -> Result<bool, Refusal> {
    let number = u32_ty(cx)?;
    let truth = ty(cx, TyKind::Bool)?;
    let region = bound_region(0)?;
    let one = ref_ty(cx, region, number)?;
    let two = ref_ty(cx, region, one)?;
    let other_one = ref_ty(cx, region, truth)?;
    let other_two = ref_ty(cx, region, other_one)?;
    let vars = one_region(cx)?;
    Ok(
        with_type(cx, (two, region), number, truth) == Ok((other_two, region))
            && with_type(cx, Binder::bind_with_vars(one, vars), number, truth)
                == Ok(Binder::bind_with_vars(other_one, vars)),
    )
}

#[test]
fn types_alone_are_replaced(rt: HostRuntime) {
    holds_anew(&rt, rt.alloc(), types_alone_are_replaced_holds);
}

// Returns the value with one type replaced by another, by a fold that remembers the results of types.
fn with_type_once<T: Owned + TypeFoldable>(
    cx: &mut Interner,
    value: T,
    from: Ty,
    to: Ty,
) -> Result<T, Refusal> {
    if value.is_owned(cx) && to.is_owned(cx) {
        replace_types_once(cx, value, InPlaceOf { from, to })
    } else {
        Err(NOT_OWNED)
    }
}

// A pair of 2^64 places is replaced as the fold without memory replaces a small one.
fn a_shared_type_is_replaced_once_holds(cx: &mut Interner) -> Result<bool, Refusal> {
    let number = u32_ty(cx)?;
    let truth = ty(cx, TyKind::Bool)?;
    let before = paired(cx, number, 64)?;
    let after = paired(cx, truth, 64)?;
    let small = paired(cx, number, 3)?;
    let small_after = paired(cx, truth, 3)?;
    Ok(
        with_type_once(cx, (before, before), number, truth) == Ok((after, after))
            && with_type_once(cx, small, number, truth) == Ok(small_after)
            && with_type(cx, small, number, truth) == Ok(small_after),
    )
}

#[test]
fn a_shared_type_is_replaced_once(rt: HostRuntime) {
    holds_anew(&rt, rt.alloc(), a_shared_type_is_replaced_once_holds);
}

// Replaces each `bool` by `u8`. It holds no handles and promises nothing of its hook.
#[derive(Drop)]
struct Bytes;

impl TypeReplacer for Bytes {
    type Error = Refusal;

    fn replace_ty(&mut self, cx: &mut Interner, ty: Ty) -> Result<Step<Ty>, Refusal> {
        match *ty.kind(cx) {
            TyKind::Bool => Ok(Step::Replace(cx.mk_ty(TyKind::Uint(UintTy::U8))?)),
            _ => Ok(Step::Descend),
        }
    }
}

// Returns the value with `u8` for `bool`, by a fold that remembers the results of types.
fn with_bytes<T: Owned + TypeFoldable>(cx: &mut Interner, value: T) -> Result<T, Refusal> {
    if value.is_owned(cx) {
        replace_types_once(cx, value, Bytes)
    } else {
        Err(NOT_OWNED)
    }
}

// A folder that promises nothing of its hook takes the type of 2^64 places too.
fn a_folder_without_promises_remembers_holds(cx: &mut Interner) -> Result<bool, Refusal> {
    let truth = ty(cx, TyKind::Bool)?;
    let byte = ty(cx, TyKind::Uint(UintTy::U8))?;
    let before = paired(cx, truth, 64)?;
    let after = paired(cx, byte, 64)?;
    Ok(with_bytes(cx, (before, truth)) == Ok((after, byte)))
}

#[test]
fn a_folder_without_promises_remembers(rt: HostRuntime) {
    holds_anew(&rt, rt.alloc(), a_folder_without_promises_remembers_holds);
}
