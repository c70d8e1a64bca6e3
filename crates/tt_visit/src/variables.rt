//! The visits of names, parameters and variables by themselves, which have no terms, and of placeholders.

use crate::data::visit_data;
use crate::visitable::TypeVisitable;
use crate::visitor::TypeVisitor;
use std::ops::ControlFlow;
use tt_interner::Interner;
use tt_kinds::{
    BoundConst, BoundRegion, BoundRegionKind, BoundTy, BoundTyKind, BoundVarKinds,
    BoundVariableKind, EarlyParamRegion, InferConst, InferTy, LateParamRegion, ParamConst, ParamTy,
    Placeholder, Symbol,
};

impl TypeVisitable for Symbol {
    ghost use Rattle.tt_visit.specs.Data.{name_shape};

    ghost shape = { name_shape };

    fn visit_with<V: TypeVisitor>(
        &self,
        cx: &Interner,
        visitor: &mut V,
    ) -> ControlFlow<V::Break, ()> {
        visit_data(cx, visitor)
    }
}

impl TypeVisitable for ParamTy {
    ghost use Rattle.tt_visit.specs.Data.{param_ty_shape};

    ghost shape = { param_ty_shape };

    fn visit_with<V: TypeVisitor>(
        &self,
        cx: &Interner,
        visitor: &mut V,
    ) -> ControlFlow<V::Break, ()> {
        visit_data(cx, visitor)
    }
}

impl TypeVisitable for ParamConst {
    ghost use Rattle.tt_visit.specs.Data.{param_const_shape};

    ghost shape = { param_const_shape };

    fn visit_with<V: TypeVisitor>(
        &self,
        cx: &Interner,
        visitor: &mut V,
    ) -> ControlFlow<V::Break, ()> {
        visit_data(cx, visitor)
    }
}

impl TypeVisitable for EarlyParamRegion {
    ghost use Rattle.tt_visit.specs.Data.{data_shape, early_param_data};

    ghost shape = { λ param. data_shape (early_param_data param) };

    fn visit_with<V: TypeVisitor>(
        &self,
        cx: &Interner,
        visitor: &mut V,
    ) -> ControlFlow<V::Break, ()> {
        visit_data(cx, visitor)
    }
}

impl TypeVisitable for LateParamRegion {
    ghost use Rattle.tt_visit.specs.Data.{data_shape, late_param_data};

    ghost shape = { λ param. data_shape (late_param_data param) };

    fn visit_with<V: TypeVisitor>(
        &self,
        cx: &Interner,
        visitor: &mut V,
    ) -> ControlFlow<V::Break, ()> {
        visit_data(cx, visitor)
    }
}

impl TypeVisitable for InferTy {
    ghost use Rattle.tt_visit.specs.Data.{infer_ty_shape};

    ghost shape = { infer_ty_shape };

    fn visit_with<V: TypeVisitor>(
        &self,
        cx: &Interner,
        visitor: &mut V,
    ) -> ControlFlow<V::Break, ()> {
        visit_data(cx, visitor)
    }
}

impl TypeVisitable for InferConst {
    ghost use Rattle.tt_visit.specs.Data.{infer_const_shape};

    ghost shape = { infer_const_shape };

    fn visit_with<V: TypeVisitor>(
        &self,
        cx: &Interner,
        visitor: &mut V,
    ) -> ControlFlow<V::Break, ()> {
        visit_data(cx, visitor)
    }
}

impl TypeVisitable for BoundRegion {
    ghost use Rattle.tt_visit.specs.Data.{data_shape, bound_region_data};

    ghost shape = { λ bound. data_shape (bound_region_data bound) };

    fn visit_with<V: TypeVisitor>(
        &self,
        cx: &Interner,
        visitor: &mut V,
    ) -> ControlFlow<V::Break, ()> {
        visit_data(cx, visitor)
    }
}

impl TypeVisitable for BoundTy {
    ghost use Rattle.tt_visit.specs.Data.{data_shape, bound_ty_data};

    ghost shape = { λ bound. data_shape (bound_ty_data bound) };

    fn visit_with<V: TypeVisitor>(
        &self,
        cx: &Interner,
        visitor: &mut V,
    ) -> ControlFlow<V::Break, ()> {
        visit_data(cx, visitor)
    }
}

impl TypeVisitable for BoundConst {
    ghost use Rattle.tt_visit.specs.Data.{data_shape, bound_const_data};

    ghost shape = { λ bound. data_shape (bound_const_data bound) };

    fn visit_with<V: TypeVisitor>(
        &self,
        cx: &Interner,
        visitor: &mut V,
    ) -> ControlFlow<V::Break, ()> {
        visit_data(cx, visitor)
    }
}

impl TypeVisitable for BoundRegionKind {
    ghost use Rattle.tt_visit.specs.Data.{data_shape, region_name_data};

    ghost shape = { λ kind. data_shape (region_name_data kind) };

    fn visit_with<V: TypeVisitor>(
        &self,
        cx: &Interner,
        visitor: &mut V,
    ) -> ControlFlow<V::Break, ()> {
        visit_data(cx, visitor)
    }
}

impl TypeVisitable for BoundTyKind {
    ghost use Rattle.tt_visit.specs.Data.{data_shape, ty_name_data};

    ghost shape = { λ kind. data_shape (ty_name_data kind) };

    fn visit_with<V: TypeVisitor>(
        &self,
        cx: &Interner,
        visitor: &mut V,
    ) -> ControlFlow<V::Break, ()> {
        visit_data(cx, visitor)
    }
}

impl TypeVisitable for BoundVariableKind {
    ghost use Rattle.tt_visit.specs.Data.{data_shape, entry_data};

    ghost shape = { λ kind. data_shape (entry_data kind) };

    fn visit_with<V: TypeVisitor>(
        &self,
        cx: &Interner,
        visitor: &mut V,
    ) -> ControlFlow<V::Break, ()> {
        visit_data(cx, visitor)
    }
}

impl TypeVisitable for BoundVarKinds {
    ghost use Rattle.tt_visit.specs.Data.{data_shape, var_list_data};

    ghost shape = { λ vars. data_shape (var_list_data vars) };

    fn visit_with<V: TypeVisitor>(
        &self,
        cx: &Interner,
        visitor: &mut V,
    ) -> ControlFlow<V::Break, ()> {
        visit_data(cx, visitor)
    }
}

impl<T: TypeVisitable> TypeVisitable for Placeholder<T> {
    ghost use Rattle.tt_visit.specs.Data.{placeholder_shape};

    ghost shape = { placeholder_shape T.shape };

    #[tactic(auto, unfolding(tt_kinds::specs::Shape::fill))]
    fn visit_with<V: TypeVisitor>(
        &self,
        cx: &Interner,
        visitor: &mut V,
    ) -> ControlFlow<V::Break, ()> {
        self.bound.visit_with(cx, visitor)
    }
}
