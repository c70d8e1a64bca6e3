//! The visits of kinds that aren't stored, of their contents, and of tokens of errors by themselves.

use crate::stored::{visit_kind, visit_parts};
use crate::visitable::TypeVisitable;
use crate::visitor::TypeVisitor;
use std::ops::ControlFlow;
use tt_interner::Interner;
use tt_kinds::{
    ConstKind, ErrorGuaranteed, ExprConst, Kind, PatternKind, TyKind, UnevaluatedConst, ValTree,
    ValTreeKind, ValueConst,
};

impl TypeVisitable for TyKind {
    ghost use Rattle.tt_kinds.specs.Bare.{bare_ty_shape};

    ghost shape = { bare_ty_shape };

    fn visit_with<V: TypeVisitor>(
        &self,
        cx: &Interner,
        visitor: &mut V,
    ) -> ControlFlow<V::Break, ()> {
        visit_kind(cx, visitor, &Kind::Ty(*self))
    }
}

impl TypeVisitable for ConstKind {
    ghost use Rattle.tt_kinds.specs.Bare.{bare_const_shape};

    ghost shape = { bare_const_shape };

    fn visit_with<V: TypeVisitor>(
        &self,
        cx: &Interner,
        visitor: &mut V,
    ) -> ControlFlow<V::Break, ()> {
        visit_kind(cx, visitor, &Kind::Const(*self))
    }
}

impl TypeVisitable for PatternKind {
    ghost use Rattle.tt_kinds.specs.Bare.{bare_pattern_shape};

    ghost shape = { bare_pattern_shape };

    #[tactic(auto, unfolding(tt_kinds::specs::Shape::fill))]
    fn visit_with<V: TypeVisitor>(
        &self,
        cx: &Interner,
        visitor: &mut V,
    ) -> ControlFlow<V::Break, ()> {
        visit_parts(cx, visitor, self.parts())
    }
}

impl TypeVisitable for ErrorGuaranteed {
    ghost use Rattle.tt_kinds.specs.Bare.{token_shape};

    ghost shape = { λ error. token_shape error.0 };

    #[tactic(auto, unfolding(tt_kinds::specs::Shape::fill))]
    fn visit_with<V: TypeVisitor>(
        &self,
        cx: &Interner,
        visitor: &mut V,
    ) -> ControlFlow<V::Break, ()> {
        visitor.visit_error(cx, *self)
    }
}

impl TypeVisitable for UnevaluatedConst {
    ghost use Rattle.tt_kinds.specs.Bare.{unevaluated_shape};

    ghost shape = { unevaluated_shape };

    #[tactic(auto, unfolding(tt_kinds::specs::Shape::fill))]
    fn visit_with<V: TypeVisitor>(
        &self,
        cx: &Interner,
        visitor: &mut V,
    ) -> ControlFlow<V::Break, ()> {
        self.args.visit_with(cx, visitor)
    }
}

impl TypeVisitable for ExprConst {
    ghost use Rattle.tt_kinds.specs.Bare.{expression_shape};

    ghost shape = { expression_shape };

    #[tactic(auto, unfolding(tt_kinds::specs::Shape::fill))]
    fn visit_with<V: TypeVisitor>(
        &self,
        cx: &Interner,
        visitor: &mut V,
    ) -> ControlFlow<V::Break, ()> {
        self.args.visit_with(cx, visitor)
    }
}

impl TypeVisitable for ValueConst {
    ghost use Rattle.tt_kinds.specs.Bare.{value_shape};

    ghost shape = { value_shape };

    fn visit_with<V: TypeVisitor>(
        &self,
        cx: &Interner,
        visitor: &mut V,
    ) -> ControlFlow<V::Break, ()> {
        ConstKind::Value(*self).visit_with(cx, visitor)
    }
}

impl TypeVisitable for ValTreeKind {
    ghost use Rattle.tt_kinds.specs.Bare.{valtree_kind_shape};

    ghost shape = { valtree_kind_shape };

    #[tactic(auto, unfolding(tt_kinds::specs::Shape::fill))]
    fn visit_with<V: TypeVisitor>(
        &self,
        cx: &Interner,
        visitor: &mut V,
    ) -> ControlFlow<V::Break, ()> {
        match self {
            ValTreeKind::Leaf(_) => ControlFlow::Continue(()),
            ValTreeKind::Branch(values) => values.visit_with(cx, visitor),
        }
    }
}

impl TypeVisitable for ValTree {
    ghost use Rattle.tt_kinds.specs.Bare.{valtree_shape};

    ghost shape = { valtree_shape };

    fn visit_with<V: TypeVisitor>(
        &self,
        cx: &Interner,
        visitor: &mut V,
    ) -> ControlFlow<V::Break, ()> {
        let kind = self.kind();
        kind.visit_with(cx, visitor)
    }
}
