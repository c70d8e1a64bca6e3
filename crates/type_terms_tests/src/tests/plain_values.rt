//! The folds of values without terms that a term or a declaration is made of, and of fields and variants of data types.
//!
//! Each is folded beside a type, which is moved into one more binder. The value itself stays as it is.

use super::holds_anew;
use test_terms::{bound_ty, is_shifted, shifted};
use type_terms::{
    AliasTyKind, AnonConstKind, BoundConst, BoundConstness, BoundRegion, BoundRegionKind, BoundTy,
    BoundTyKind, BoundVar, BoundVariableKind, ConstVid, DefId, EarlyParamRegion, FieldDef,
    FieldIdx, FieldInfo, FloatTy, FloatVarValue, FnHeader, FnSigKind, InferConst, InferTy, IntTy,
    IntVarValue, Interner, LateParamRegion, OpaqueTyId, ParamConst, ParamTy, Refusal, ScalarInt,
    Symbol, TraitId, Ty, TyVid, VariantDef, VariantIdx,
};

// Returns names, ids and parameters.
fn parameters(
    name: Symbol,
) -> (
    (Symbol, DefId, TraitId),
    (ParamTy, ParamConst, EarlyParamRegion),
    (LateParamRegion, BoundRegionKind, BoundTyKind),
) {
    let item = DefId::from_number(7);
    let kind = BoundRegionKind::NamedForPrinting(name);
    (
        (name, item, TraitId::from_number(7)),
        (
            ParamTy { index: 7, name },
            ParamConst { index: 7, name },
            EarlyParamRegion { index: 7, name },
        ),
        (
            LateParamRegion { scope: item, kind },
            kind,
            BoundTyKind::Param(item),
        ),
    )
}

// Returns variables.
fn variables(
    name: Symbol,
) -> (
    (BoundRegion, BoundTy, BoundConst),
    (InferTy, InferConst, BoundVariableKind),
) {
    let var = BoundVar::from_u32(7);
    let kind = BoundRegionKind::NamedForPrinting(name);
    (
        (
            BoundRegion { var, kind },
            BoundTy {
                var,
                kind: BoundTyKind::Anon,
            },
            BoundConst::new(var),
        ),
        (
            InferTy::TyVar(TyVid::from_u32(7)),
            InferConst::Var(ConstVid::from_u32(7)),
            BoundVariableKind::Region(kind),
        ),
    )
}

// Returns parts of kinds.
fn parts() -> (
    (AliasTyKind, AnonConstKind, BoundConstness),
    (FnHeader, FnSigKind, ScalarInt),
    (IntVarValue, FloatVarValue),
) {
    (
        (
            AliasTyKind::Opaque {
                def_id: OpaqueTyId::from_number(7),
            },
            AnonConstKind::MCG,
            BoundConstness::Maybe,
        ),
        (
            FnHeader::dummy(),
            FnSigKind::default(),
            ScalarInt { bits: 7, size: 4 },
        ),
        (
            IntVarValue::IntType(IntTy::I64),
            FloatVarValue::Known(FloatTy::F32),
        ),
    )
}

// Returns a field of this type, and what is known of it.
fn field(name: Symbol, ty: Ty) -> (FieldDef, FieldInfo) {
    let info = FieldInfo {
        base: ty,
        ty,
        variant: Some(name),
        variant_idx: VariantIdx::from_u32(7),
        name,
        field_idx: FieldIdx::from_u32(7),
    };
    (FieldDef { name, ty }, info)
}

// Returns whether the type of a variant's one field is moved, and the names stay.
fn is_variant_moved(cx: &mut Interner, name: Symbol, near: Ty, far: Ty) -> Result<bool, Refusal> {
    let fields = Vec::from_slice(cx.allocator(), &[FieldDef { name, ty: near }])?;
    let declared = VariantDef {
        name: Some(name),
        fields,
    };
    let moved = shifted(cx, declared, 1)?;
    let wanted = FieldDef { name, ty: far };
    Ok(
        moved.name == Some(name)
            && moved.fields.len() == 1
            && moved.fields.as_slice().first() == Some(&wanted),
    )
}

// Values without terms stay, and the types of fields are moved.
fn plain_values_stay_holds(cx: &mut Interner) -> Result<bool, Refusal> {
    let name = cx.symbol("name")?;
    let (near, far) = (bound_ty(cx, 1)?, bound_ty(cx, 2)?);
    let is_moved = is_variant_moved(cx, name, near, far)?;
    Ok(
        is_moved
            && is_shifted(cx, (parameters(name), near), 1, (parameters(name), far))
            && is_shifted(cx, (variables(name), near), 1, (variables(name), far))
            && is_shifted(cx, (parts(), near), 1, (parts(), far))
            && is_shifted(cx, field(name, near), 1, field(name, far)),
    )
}

#[test]
fn plain_values_stay(rt: HostRuntime) {
    holds_anew(&rt, rt.alloc(), plain_values_stay_holds);
}
