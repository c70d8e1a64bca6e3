//! The visits of fields and variants of data types by themselves.

use crate::visitable::TypeVisitable;
use crate::visitor::TypeVisitor;
use std::ops::ControlFlow;
use tt_interner::Interner;
use tt_kinds::{FieldDef, FieldInfo, VariantDef};

impl TypeVisitable for FieldDef {
    ghost use Rattle.tt_visit.specs.Data.{named_field_shape};

    ghost shape = { named_field_shape };

    fn visit_with<V: TypeVisitor>(
        &self,
        cx: &Interner,
        visitor: &mut V,
    ) -> ControlFlow<V::Break, ()> {
        (self.name, self.ty).visit_with(cx, visitor)
    }
}

impl TypeVisitable for VariantDef {
    ghost use Rattle.tt_kinds.specs.Variant.{variant_of};
    ghost use Rattle.tt_visit.specs.Data.{named_variant_shape};

    ghost shape = { λ variant. named_variant_shape (variant_of variant) };

    fn visit_with<V: TypeVisitor>(
        &self,
        cx: &Interner,
        visitor: &mut V,
    ) -> ControlFlow<V::Break, ()> {
        (&self.name, &self.fields).visit_with(cx, visitor)
    }
}

impl TypeVisitable for FieldInfo {
    ghost use Rattle.tt_visit.specs.Data.{field_info_shape};

    ghost shape = { field_info_shape };

    fn visit_with<V: TypeVisitor>(
        &self,
        cx: &Interner,
        visitor: &mut V,
    ) -> ControlFlow<V::Break, ()> {
        let types = (self.base, self.ty);
        let variant = (self.variant, self.variant_idx);
        let field = (self.name, self.field_idx);
        (types, variant, field).visit_with(cx, visitor)
    }
}
