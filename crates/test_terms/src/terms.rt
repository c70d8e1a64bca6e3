//! Types, regions and their lists.

use type_terms::{
    Binder, BoundRegion, BoundRegionKind, BoundTy, BoundTyKind, BoundVar, BoundVarIndexKind,
    BoundVarKinds, BoundVariableKind, DebruijnIndex, EarlyParamRegion, FnHeader, FnSigKind,
    FnSigTys, GenericArg, GenericArgs, Interner, Mutability, ParamTy, Refusal, Region, RegionKind,
    RegionVid, Ty, TyKind, Tys, UintTy, are_owned,
};

// The refusal of a helper whose condition doesn't hold. The library never returns it.
pub const NOT_OWNED: Refusal = Refusal::NoSuchAnswer;

// Returns the type of this kind.
pub fn ty(cx: &mut Interner, kind: TyKind) -> Result<Ty, Refusal> {
    if cx.owns_kind(&kind) {
        cx.mk_ty(kind)
    } else {
        Err(NOT_OWNED)
    }
}

// Returns the list of these types.
pub fn tys(cx: &mut Interner, items: &[Ty]) -> Result<Tys, Refusal> {
    if are_owned(cx, items) {
        cx.mk_tys(items)
    } else {
        Err(NOT_OWNED)
    }
}

// Returns the list of these arguments.
pub fn args(cx: &mut Interner, items: &[GenericArg]) -> Result<GenericArgs, Refusal> {
    if are_owned(cx, items) {
        cx.mk_args(items)
    } else {
        Err(NOT_OWNED)
    }
}

// Returns the list of these types, by an iterator of them.
pub fn tys_from_iter(cx: &mut Interner, items: &[Ty]) -> Result<Tys, Refusal> {
    if are_owned(cx, items) {
        cx.mk_type_list_from_iter(items.iter().copied())
    } else {
        Err(NOT_OWNED)
    }
}

// Returns the list of these arguments, by an iterator of them.
pub fn args_from_iter(cx: &mut Interner, items: &[GenericArg]) -> Result<GenericArgs, Refusal> {
    if are_owned(cx, items) {
        cx.mk_args_from_iter(items.iter().copied())
    } else {
        Err(NOT_OWNED)
    }
}

// Returns `u32`.
pub fn u32_ty(cx: &mut Interner) -> Result<Ty, Refusal> {
    ty(cx, TyKind::Uint(UintTy::U32))
}

// Returns the type parameter of this index.
pub fn param_ty(cx: &mut Interner, index: u32) -> Result<Ty, Refusal> {
    let name = cx.symbol("T")?;
    ty(cx, TyKind::Param(ParamTy { index, name }))
}

// Returns the region parameter of this index.
pub fn param_region(cx: &mut Interner, index: u32) -> Result<Region, Refusal> {
    let name = cx.symbol("'a")?;
    Region::new(RegionKind::ReEarlyParam(EarlyParamRegion { index, name }))
}

// Returns the index of a binder.
pub fn binder_index(value: u32) -> Result<DebruijnIndex, Refusal> {
    if DebruijnIndex::fits(value) {
        Ok(DebruijnIndex::from_u32(value))
    } else {
        Err(Refusal::GreatestIndex)
    }
}

// Returns the type that is the first variable of the binder of this index.
pub fn bound_ty(cx: &mut Interner, binder: u32) -> Result<Ty, Refusal> {
    let index = binder_index(binder)?;
    let bound_ty = BoundTy {
        var: BoundVar::from_u32(0),
        kind: BoundTyKind::Anon,
    };
    ty(cx, TyKind::Bound(BoundVarIndexKind::Bound(index), bound_ty))
}

// Returns the region that is the first variable of the binder of this index.
pub fn bound_region(binder: u32) -> Result<Region, Refusal> {
    let bound_region = BoundRegion {
        var: BoundVar::from_u32(0),
        kind: BoundRegionKind::Anon,
    };
    Region::new_bound(binder_index(binder)?, bound_region)
}

// Returns the region inference variable of number 0.
pub fn region_variable() -> Result<Region, Refusal> {
    Region::new(RegionKind::ReVar(RegionVid::from_u32(0)))
}

// Returns a binder's list of one region.
pub fn one_region(cx: &mut Interner) -> Result<BoundVarKinds, Refusal> {
    cx.mk_bound_vars(&[BoundVariableKind::Region(BoundRegionKind::Anon)])
}

// Returns `&'r T`.
pub fn ref_ty(cx: &mut Interner, region: Region, referent: Ty) -> Result<Ty, Refusal> {
    ty(cx, TyKind::Ref(region, referent, Mutability::Not))
}

// Returns the tuple of these types.
pub fn tuple(cx: &mut Interner, types: &[Ty]) -> Result<Ty, Refusal> {
    let items = tys(cx, types)?;
    ty(cx, TyKind::Tuple(items))
}

// Returns the pointer to a function of these types, the last of which is its output, under a binder of no variables.
pub fn pointer(cx: &mut Interner, types: &[Ty]) -> Result<Ty, Refusal> {
    let inputs_and_output = tys(cx, types)?;
    let signature = FnSigTys { inputs_and_output };
    let fn_sig_kind = FnSigKind::default();
    let bound = Binder::bind_with_vars(signature, BoundVarKinds::default());
    ty(cx, TyKind::FnPtr(bound, FnHeader { fn_sig_kind }))
}
