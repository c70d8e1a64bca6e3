//! The test of names, ids, variables and other values without terms, and of fields and variants of data types.

use crate::owned::Owned;
use tt_interner::Interner;
use tt_kinds::{
    AliasTyKind, AnonConstKind, BoundConst, BoundConstness, BoundRegion, BoundRegionKind, BoundTy,
    BoundTyKind, BoundVariableKind, DefId, EarlyParamRegion, FieldDef, FieldInfo, FloatVarValue,
    FnHeader, FnSigKind, Id, InferConst, InferTy, IntVarValue, LateParamRegion, ParamConst,
    ParamTy, ScalarInt, Symbol, ValTreeKind, VariantDef,
};

impl Owned for Symbol {
    fn is_owned(&self, cx: &Interner) -> bool {
        cx.owns(*self)
    }
}

impl Owned for ParamTy {
    fn is_owned(&self, cx: &Interner) -> bool {
        cx.owns(self.name)
    }
}

impl Owned for ParamConst {
    fn is_owned(&self, cx: &Interner) -> bool {
        cx.owns(self.name)
    }
}

impl Owned for EarlyParamRegion {
    fn is_owned(&self, cx: &Interner) -> bool {
        cx.owns(self.name)
    }
}

impl Owned for LateParamRegion {
    fn is_owned(&self, cx: &Interner) -> bool {
        cx.owns_region_name(&self.kind)
    }
}

impl Owned for BoundRegion {
    fn is_owned(&self, cx: &Interner) -> bool {
        cx.owns_region_name(&self.kind)
    }
}

impl Owned for BoundRegionKind {
    fn is_owned(&self, cx: &Interner) -> bool {
        cx.owns_region_name(self)
    }
}

impl Owned for BoundVariableKind {
    fn is_owned(&self, cx: &Interner) -> bool {
        cx.owns_bound_var(self)
    }
}

impl Owned for ValTreeKind {
    fn is_owned(&self, cx: &Interner) -> bool {
        match self {
            ValTreeKind::Leaf(_) => true,
            ValTreeKind::Branch(values) => values.is_owned(cx),
        }
    }
}

impl Owned for FieldDef {
    fn is_owned(&self, cx: &Interner) -> bool {
        self.name.is_owned(cx) && self.ty.is_owned(cx)
    }
}

impl Owned for VariantDef {
    fn is_owned(&self, cx: &Interner) -> bool {
        self.name.is_owned(cx) && self.fields.is_owned(cx)
    }
}

impl Owned for FieldInfo {
    fn is_owned(&self, cx: &Interner) -> bool {
        let types = (self.base, self.ty);
        types.is_owned(cx) && self.variant.is_owned(cx) && self.name.is_owned(cx)
    }
}

impl Owned for BoundConstness {
    fn is_owned(&self, _cx: &Interner) -> bool {
        true
    }
}

impl Owned for AnonConstKind {
    fn is_owned(&self, _cx: &Interner) -> bool {
        true
    }
}

impl Owned for IntVarValue {
    fn is_owned(&self, _cx: &Interner) -> bool {
        true
    }
}

impl Owned for FloatVarValue {
    fn is_owned(&self, _cx: &Interner) -> bool {
        true
    }
}

impl Owned for FnSigKind {
    fn is_owned(&self, _cx: &Interner) -> bool {
        true
    }
}

impl Owned for FnHeader {
    fn is_owned(&self, _cx: &Interner) -> bool {
        true
    }
}

impl Owned for AliasTyKind {
    fn is_owned(&self, _cx: &Interner) -> bool {
        true
    }
}

impl Owned for ScalarInt {
    fn is_owned(&self, _cx: &Interner) -> bool {
        true
    }
}

impl Owned for DefId {
    fn is_owned(&self, _cx: &Interner) -> bool {
        true
    }
}

impl<S> Owned for Id<S> {
    fn is_owned(&self, _cx: &Interner) -> bool {
        true
    }
}

impl Owned for InferTy {
    fn is_owned(&self, _cx: &Interner) -> bool {
        true
    }
}

impl Owned for InferConst {
    fn is_owned(&self, _cx: &Interner) -> bool {
        true
    }
}

impl Owned for BoundTy {
    fn is_owned(&self, _cx: &Interner) -> bool {
        true
    }
}

impl Owned for BoundConst {
    fn is_owned(&self, _cx: &Interner) -> bool {
        true
    }
}

impl Owned for BoundTyKind {
    fn is_owned(&self, _cx: &Interner) -> bool {
        true
    }
}
