//! The queries: which of them hold of each term that one looks for, and which don't.

use super::holds_anew;
use test_terms::{
    NOT_OWNED, args, binder_index, bound_region, bound_ty, constant, one_region, param_region,
    param_ty, ref_ty, region_variable, ty, tys, u32_ty,
};
use type_terms::{
    AliasTy, AliasTyKind, Binder, BoundConst, BoundVar, BoundVarIndexKind, ConstKind, ConstVid,
    CoroutineId, ErrorGuaranteed, FnHeader, FnSigTys, GREATEST_INDEX, GenericArg, GenericArgs,
    InferConst, InferTy, Interner, OpaqueTyId, Owned, ParamConst, PlaceholderConst,
    PlaceholderRegion, PlaceholderType, Refusal, Region, RegionKind, TraitAssocTyId, Ty, TyKind,
    TyVid, TypeFlags, TypeVisitableExt, UniverseIndex,
};

// A term, and the queries that hold of it.
type Row = (GenericArg, u32);

// The queries.
const PARAM: u32 = 0x1;

const ALIAS: u32 = 0x2;

const OPAQUE: u32 = 0x4;

const COROUTINE: u32 = 0x8;

const ERROR: u32 = 0x10;

const INFER: u32 = 0x20;

const INFER_TYPE: u32 = 0x40;

const INFER_REGION: u32 = 0x80;

const PLACEHOLDER: u32 = 0x100;

const BOUND: u32 = 0x200;

const BOUND_REGION: u32 = 0x400;

const ESCAPING: u32 = 0x800;

const SPECIALIZABLE: u32 = 0x1000;

const GLOBAL: u32 = 0x2000;

const REGION: u32 = 0x4000;

const FREE_REGION: u32 = 0x8000;

const ERASABLE: u32 = 0x10000;

const ERASED: u32 = 0x20000;

const MEETS: u32 = 0x40000;

// The same of types and constants alone.
const TERM_PARAM: u32 = 0x80000;

const TERM_ERROR: u32 = 0x100000;

const TERM_INFER: u32 = 0x200000;

const TERM_PLACEHOLDER: u32 = 0x400000;

const TERM_BOUND: u32 = 0x800000;

// The queries that hold of each free region.
const FREE: u32 = 0x5C000;

// All queries but the one for global values.
const ALL: u32 = 0xFFDFFF;

// Returns the queries that hold of the value.
fn said<T: Owned>(cx: &Interner, value: &T) -> Result<u32, Refusal> {
    if !value.is_owned(cx) {
        return Err(NOT_OWNED);
    }
    let mut found = 0;
    for (holds, query) in [
        (value.has_param(cx), PARAM),
        (value.has_aliases(cx), ALIAS),
        (value.has_opaque_types(cx), OPAQUE),
        (value.has_coroutines(cx), COROUTINE),
        (value.references_error(cx), ERROR),
        (value.has_infer(cx), INFER),
        (value.has_infer_types(cx), INFER_TYPE),
        (value.has_infer_regions(cx), INFER_REGION),
        (value.has_placeholders(cx), PLACEHOLDER),
        (value.has_bound_vars(cx), BOUND),
        (value.has_bound_regions(cx), BOUND_REGION),
        (value.has_escaping_bound_vars(cx), ESCAPING),
        (value.still_further_specializable(cx), SPECIALIZABLE),
        (value.is_global(cx), GLOBAL),
        (value.has_regions(cx), REGION),
        (value.has_free_regions(cx), FREE_REGION),
        (value.has_erasable_regions(cx), ERASABLE),
        (value.has_erased_regions(cx), ERASED),
        (value.meets_regions(cx), MEETS),
        (value.has_non_region_param(cx), TERM_PARAM),
        (value.has_non_region_error(cx), TERM_ERROR),
        (value.has_non_region_infer(cx), TERM_INFER),
        (value.has_non_region_placeholders(cx), TERM_PLACEHOLDER),
        (value.has_non_region_bound_vars(cx), TERM_BOUND),
    ] {
        if holds {
            found |= query;
        }
    }
    Ok(found)
}

// Returns the row of the type of this kind.
fn row(cx: &mut Interner, kind: TyKind, queries: u32) -> Result<Row, Refusal> {
    Ok((GenericArg::from(ty(cx, kind)?), queries))
}

// Returns an alias without arguments.
fn alias(kind: AliasTyKind) -> TyKind {
    let args = GenericArgs::default();
    TyKind::Alias(AliasTy { args, kind })
}

// Returns `for<'a> fn(&'a u32)`, without an output.
fn pointer(cx: &mut Interner) -> Result<Ty, Refusal> {
    let number = u32_ty(cx)?;
    let reference = ref_ty(cx, bound_region(0)?, number)?;
    let inputs_and_output = tys(cx, &[reference])?;
    let types = Binder::bind_with_vars(FnSigTys { inputs_and_output }, one_region(cx)?);
    ty(cx, TyKind::FnPtr(types, FnHeader::dummy()))
}

// Types, each with something that a query looks for.
fn types(cx: &mut Interner) -> Result<[Row; 11], Refusal> {
    let opaque = AliasTyKind::Opaque {
        def_id: OpaqueTyId::from_number(0),
    };
    let projection = AliasTyKind::Projection {
        def_id: TraitAssocTyId::from_number(0),
    };
    let coroutine = TyKind::Coroutine(CoroutineId::from_number(0), GenericArgs::default());
    let anon = PlaceholderType::new_anon(UniverseIndex::from_u32(1), BoundVar::from_u32(0));
    let infer = TyKind::Infer(InferTy::TyVar(TyVid::from_u32(0)));
    let fresh = TyKind::Infer(InferTy::FreshTy(0));
    let infers = INFER | INFER_TYPE | TERM_INFER | SPECIALIZABLE;
    let held = PLACEHOLDER | TERM_PLACEHOLDER | SPECIALIZABLE;
    let param = GenericArg::from(param_ty(cx, 0)?);
    let outer = GenericArg::from(bound_ty(cx, 2)?);
    let pointer = GenericArg::from(pointer(cx)?);
    Ok([
        row(cx, TyKind::Bool, GLOBAL)?,
        row(cx, alias(opaque), ALIAS | OPAQUE | GLOBAL)?,
        row(cx, alias(projection), ALIAS | GLOBAL)?,
        row(cx, coroutine, COROUTINE | GLOBAL)?,
        row(
            cx,
            TyKind::Error(ErrorGuaranteed(3)),
            ERROR | TERM_ERROR | GLOBAL,
        )?,
        row(cx, infer, infers)?,
        row(cx, fresh, 0)?,
        row(cx, TyKind::Placeholder(anon), held)?,
        (param, PARAM | TERM_PARAM | SPECIALIZABLE),
        (outer, BOUND | TERM_BOUND | ESCAPING | GLOBAL),
        (pointer, BOUND | BOUND_REGION | REGION | GLOBAL),
    ])
}

// Constants, of which an inference variable is none for a type.
fn consts(cx: &mut Interner) -> Result<[Row; 4], Refusal> {
    let name = cx.symbol("N")?;
    let param = ConstKind::Param(ParamConst { index: 0, name });
    let infer = ConstKind::Infer(InferConst::Var(ConstVid::from_u32(0)));
    let anon = PlaceholderConst::new_anon(UniverseIndex::from_u32(1), BoundVar::from_u32(0));
    let bound = ConstKind::Bound(
        BoundVarIndexKind::Bound(binder_index(0)?),
        BoundConst::new(BoundVar::from_u32(0)),
    );
    Ok([
        (
            GenericArg::from(constant(cx, param)?),
            PARAM | TERM_PARAM | SPECIALIZABLE,
        ),
        (
            GenericArg::from(constant(cx, infer)?),
            INFER | TERM_INFER | SPECIALIZABLE,
        ),
        (
            GenericArg::from(constant(cx, ConstKind::Placeholder(anon))?),
            PLACEHOLDER | TERM_PLACEHOLDER | SPECIALIZABLE,
        ),
        (
            GenericArg::from(constant(cx, bound)?),
            BOUND | TERM_BOUND | ESCAPING | GLOBAL,
        ),
    ])
}

// Regions, the one of an error first.
fn regions(cx: &mut Interner) -> Result<[Row; 7], Refusal> {
    let error = Region::new(RegionKind::ReError(ErrorGuaranteed(7)))?;
    let anon = PlaceholderRegion::new_anon(UniverseIndex::from_u32(1), BoundVar::from_u32(0));
    let placeholder = Region::new(RegionKind::RePlaceholder(anon))?;
    let bound = BOUND | BOUND_REGION | ESCAPING | REGION | MEETS | GLOBAL;
    Ok([
        (GenericArg::from(error), ERROR | FREE | GLOBAL),
        (GenericArg::from(Region::new_static()), FREE | GLOBAL),
        (
            GenericArg::from(region_variable()?),
            INFER | INFER_REGION | FREE,
        ),
        (GenericArg::from(param_region(cx, 0)?), PARAM | FREE),
        (GenericArg::from(placeholder), PLACEHOLDER | FREE),
        (
            GenericArg::from(Region::new_erased()),
            ERASED | REGION | MEETS,
        ),
        (GenericArg::from(bound_region(0)?), bound),
    ])
}

// Returns the list of the rows' terms, if the queries say of each what its row does.
fn listed(cx: &mut Interner, rows: &[Row]) -> Result<Option<GenericArgs>, Refusal> {
    let mut items = Vec::new(cx.allocator());
    for (term, wanted) in rows {
        if said(cx, term)? != *wanted {
            return Ok(None);
        }
        items.push(*term)?;
    }
    Ok(Some(args(cx, items.as_slice())?))
}

// Of all terms together each query holds but the one for global values. The first error is the region's. A variable is
// bound by the binder of index 2, and none further out.
fn queries_hold(cx: &mut Interner) -> Result<bool, Refusal> {
    let (types, consts, regions) = (types(cx)?, consts(cx)?, regions(cx)?);
    let (Some(types), Some(_), Some(regions)) = (
        listed(cx, types.as_slice())?,
        listed(cx, consts.as_slice())?,
        listed(cx, regions.as_slice())?,
    ) else {
        return Ok(false);
    };
    let (value, plain) = ((regions, types), u32_ty(cx)?);
    let of_all = said(cx, &value)?;
    if !value.is_owned(cx) || !plain.is_owned(cx) {
        return Err(NOT_OWNED);
    }
    let first = Err(ErrorGuaranteed(7));
    let (near, far) = (binder_index(1)?, binder_index(2)?);
    let farthest = binder_index(GREATEST_INDEX)?;
    Ok(
        of_all == ALL
            && value.has_type_flags(cx, TypeFlags::HAS_INFER)
            && !plain.has_type_flags(cx, TypeFlags::HAS_INFER)
            && value.error_reported(cx) == first
            && value.non_region_error_reported(cx) == first
            && plain.error_reported(cx) == Ok(())
            && plain.non_region_error_reported(cx) == Ok(())
            && value.has_vars_bound_at_or_above(cx, far)
            && value.has_vars_bound_above(cx, near)
            && !value.has_vars_bound_above(cx, far)
            && !value.has_vars_bound_above(cx, farthest),
    )
}

#[test]
fn queries(rt: HostRuntime) {
    holds_anew(&rt, rt.alloc(), queries_hold);
}
