//! The visits of handles, and of the small values around them.

ghost use Rattle.std.specs.Prelude.{◌≡◌, refl, IsTrue};
ghost use Rattle.tt_kinds.specs.TermTable.{is_term};
ghost use Rattle.tt_visit.specs.Root.{hooked, table_root};

use crate::stored::{visit_inside, visit_stored};
use crate::visitable::{TypeSuperVisitable, TypeVisitable, visit_values};
use crate::visitor::TypeVisitor;
use std::ops::ControlFlow;
use tt_interner::{InternedList, Interner};
use tt_kinds::handle::{
    ArgListRow, ClauseListRow, ConstListRow, ConstRow, ExistentialListRow, ExistentialRow,
    PatternListRow, PatternRow, PredicateRow, TypeListRow, TypeRow,
};
use tt_kinds::{
    Clause, GenericArg, GenericArgKind, Handle, IsStored, IsTermRow, Region, RegionAssumptions,
    Term, TermKind,
};

/// The trait of the marks of terms and of lists of terms, whose handles visits follow as they are.
pub trait IsWalked: IsTermRow {}

impl IsWalked for TypeRow {}

impl IsWalked for ConstRow {}

impl IsWalked for PatternRow {}

impl IsWalked for PredicateRow {}

impl IsWalked for ExistentialRow {}

impl IsWalked for ClauseListRow {}

impl IsWalked for TypeListRow {}

impl IsWalked for ConstListRow {}

impl IsWalked for ArgListRow {}

impl IsWalked for PatternListRow {}

impl IsWalked for ExistentialListRow {}

/// The trait of the marks of terms that visitors have a hook for.
pub trait HasHook: IsWalked {
    // Visitors have a hook for the terms of the table.
    ghost has_hook: { table_root Self.IsStored.TABLE ≡ hooked };

    ghost term: { IsTrue (is_term Self.IsTermRow.TERM_TABLE) };
}

impl HasHook for TypeRow {
    ghost has_hook = { refl };

    ghost term = { refl };
}

impl HasHook for ConstRow {
    ghost has_hook = { refl };

    ghost term = { refl };
}

impl HasHook for PredicateRow {
    ghost has_hook = { refl };

    ghost term = { refl };
}

impl HasHook for ClauseListRow {
    ghost has_hook = { refl };

    ghost term = { refl };
}

impl<K: IsWalked> TypeVisitable for Handle<K> {
    ghost use Rattle.tt_kinds.specs.Shape.Shape.{stored};

    ghost shape = { λ handle. stored K.IsStored.TABLE handle.number };

    #[tactic(auto, unfolding(tt_kinds::specs::Shape::fill))]
    fn visit_with<V: TypeVisitor>(
        &self,
        cx: &Interner,
        visitor: &mut V,
    ) -> ControlFlow<V::Break, ()> {
        visit_stored(cx, visitor, self.any())
    }
}

impl<K: HasHook> TypeSuperVisitable for Handle<K> {
    #[tactic(auto, unfolding(tt_kinds::specs::Shape::fill))]
    fn super_visit_with<V: TypeVisitor>(
        &self,
        cx: &Interner,
        visitor: &mut V,
    ) -> ControlFlow<V::Break, ()> {
        visit_inside(cx, visitor, self.any())
    }
}

impl TypeVisitable for Clause {
    ghost use Rattle.tt_kinds.specs.Values.{one_clause_shape};

    ghost shape = { one_clause_shape };

    #[tactic(auto, unfolding(tt_kinds::specs::Shape::fill))]
    fn visit_with<V: TypeVisitor>(
        &self,
        cx: &Interner,
        visitor: &mut V,
    ) -> ControlFlow<V::Break, ()> {
        visit_stored(cx, visitor, self.any())
    }
}

impl TypeVisitable for RegionAssumptions {
    ghost use Rattle.tt_kinds.specs.Values.{assumptions_shape};

    ghost shape = { assumptions_shape };

    #[tactic(auto, unfolding(tt_kinds::specs::Shape::fill))]
    fn visit_with<V: TypeVisitor>(
        &self,
        cx: &Interner,
        visitor: &mut V,
    ) -> ControlFlow<V::Break, ()> {
        cx.are_rows();
        visit_values(cx, visitor, self.as_slice(cx))
    }
}

impl TypeVisitable for Region {
    ghost use Rattle.tt_kinds.specs.Kinds.{region_shape};

    ghost shape = { region_shape };

    #[tactic(auto, unfolding(tt_kinds::specs::Shape::fill))]
    fn visit_with<V: TypeVisitor>(
        &self,
        cx: &Interner,
        visitor: &mut V,
    ) -> ControlFlow<V::Break, ()> {
        visitor.visit_region(cx, *self)
    }
}

impl TypeVisitable for GenericArgKind {
    ghost use Rattle.tt_kinds.specs.Kinds.{arg_shape};

    ghost shape = { arg_shape };

    #[tactic(auto, unfolding(tt_kinds::specs::Shape::fill))]
    fn visit_with<V: TypeVisitor>(
        &self,
        cx: &Interner,
        visitor: &mut V,
    ) -> ControlFlow<V::Break, ()> {
        match self {
            GenericArgKind::Lifetime(region) => region.visit_with(cx, visitor),
            GenericArgKind::Type(ty) => ty.visit_with(cx, visitor),
            GenericArgKind::Const(constant) => constant.visit_with(cx, visitor),
        }
    }
}

impl TypeVisitable for GenericArg {
    ghost use Rattle.tt_kinds.specs.Kinds.{arg_shape};

    ghost shape = { arg_shape };

    fn visit_with<V: TypeVisitor>(
        &self,
        cx: &Interner,
        visitor: &mut V,
    ) -> ControlFlow<V::Break, ()> {
        let kind = self.kind();
        kind.visit_with(cx, visitor)
    }
}

impl TypeVisitable for TermKind {
    ghost use Rattle.tt_kinds.specs.Kinds.{term_kind_shape};

    ghost shape = { term_kind_shape };

    #[tactic(auto, unfolding(tt_kinds::specs::Shape::fill))]
    fn visit_with<V: TypeVisitor>(
        &self,
        cx: &Interner,
        visitor: &mut V,
    ) -> ControlFlow<V::Break, ()> {
        match self {
            TermKind::Ty(ty) => ty.visit_with(cx, visitor),
            TermKind::Const(constant) => constant.visit_with(cx, visitor),
        }
    }
}

impl TypeVisitable for Term {
    ghost use Rattle.tt_kinds.specs.Kinds.{term_shape};

    ghost shape = { term_shape };

    fn visit_with<V: TypeVisitor>(
        &self,
        cx: &Interner,
        visitor: &mut V,
    ) -> ControlFlow<V::Break, ()> {
        let kind = self.kind();
        kind.visit_with(cx, visitor)
    }
}
