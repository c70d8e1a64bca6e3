//! Values that a visitor can visit.

ghost use Rattle.tt_kinds.specs.Shape.{AreParts, Shape, fill, fill_all, item_shapes};
ghost use Rattle.tt_interner.specs.Owned.{IsPartBy, tree_by};
ghost use Rattle.tt_interner.specs.Rows.{meaning, size};
ghost use Rattle.tt_visit.specs.Steps.{Ends, OwnsBreak};
ghost use Rattle.tt_visit.specs.Visit.{Breaks, BreaksAll, BreaksInside, GoesInside, GoesOver, GoesOverAll};

use crate::visitor::{Next, TypeVisitor};
use std::ops::ControlFlow;
use tt_interner::Interner;
use tt_kinds::Binder;

/// A value that has a tree, and that a visitor can visit.
pub trait TypeVisitable {
    // The contents of the value.
    ghost shape: { Self → Shape };

    /// Visits the value: the visitor is called at its regions, terms and binders in order, until a hook breaks. The
    /// value's handles have to be of this interner; `Owned::is_owned` tests it.
    fn visit_with<V: TypeVisitor>(
        &self,
        cx: &Interner,
        visitor: &mut V,
    ) -> ControlFlow<V::Break, ()>
        requires owned { V.owned cx.now.rows visitor.old }
        requires value { IsPartBy shape cx.now.rows self.now }
        ensures owned { V.owned cx.now.rows visitor.new }
        ensures broke { OwnsBreak V.break_owned cx.now.rows result }
        ensures result { Ends V.meaning (GoesOver V.hooks) (Breaks V.hooks)
            cx.now.rows visitor.old (tree_by shape cx.now.rows self.now) result visitor.new };
}

/// A value that has a hook of its own.
pub trait TypeSuperVisitable: TypeVisitable {
    /// Visits the value's contents, without its own hook. The value's handles have to be of this interner;
    /// `Owned::is_owned` tests it.
    fn super_visit_with<V: TypeVisitor>(
        &self,
        cx: &Interner,
        visitor: &mut V,
    ) -> ControlFlow<V::Break, ()>
        requires owned { V.owned cx.now.rows visitor.old }
        requires value { IsPartBy Self.shape cx.now.rows self.now }
        ensures owned { V.owned cx.now.rows visitor.new }
        ensures broke { OwnsBreak V.break_owned cx.now.rows result }
        ensures result { Ends V.meaning (GoesInside V.hooks) (BreaksInside V.hooks)
            cx.now.rows visitor.old (tree_by Self.shape cx.now.rows self.now) result visitor.new };
}

impl<T: TypeVisitable> TypeVisitable for Binder<T> {
    ghost use Rattle.tt_kinds.specs.Kinds.{binder_shape};

    ghost shape = { binder_shape T.shape };

    #[tactic(auto, unfolding(tt_kinds::specs::Shape::fill))]
    fn visit_with<V: TypeVisitor>(
        &self,
        cx: &Interner,
        visitor: &mut V,
    ) -> ControlFlow<V::Break, ()> {
        match visitor.visit_binder(cx, self.bound_vars()) {
            ControlFlow::Break(b) => ControlFlow::Break(b),
            ControlFlow::Continue(Next::Skip) => ControlFlow::Continue(()),
            ControlFlow::Continue(Next::Descend) => {
                let outcome = self.super_visit_with(cx, visitor);
                visitor.leave_binder(cx, self.bound_vars());
                outcome
            }
        }
    }
}

impl<T: TypeVisitable> TypeSuperVisitable for Binder<T> {
    #[tactic(auto, unfolding(tt_kinds::specs::Shape::fill))]
    fn super_visit_with<V: TypeVisitor>(
        &self,
        cx: &Interner,
        visitor: &mut V,
    ) -> ControlFlow<V::Break, ()> {
        self.as_ref().skip_binder().visit_with(cx, visitor)
    }
}

impl<A: TypeVisitable, B: TypeVisitable> TypeVisitable for (A, B) {
    ghost use Rattle.tt_kinds.specs.Values.{tuple_shape};

    ghost shape = { tuple_shape A.shape B.shape };

    #[tactic(auto, unfolding(tt_kinds::specs::Shape::fill))]
    fn visit_with<V: TypeVisitor>(
        &self,
        cx: &Interner,
        visitor: &mut V,
    ) -> ControlFlow<V::Break, ()> {
        match self.0.visit_with(cx, visitor) {
            ControlFlow::Break(b) => ControlFlow::Break(b),
            ControlFlow::Continue(_) => self.1.visit_with(cx, visitor),
        }
    }
}

impl<A: TypeVisitable, B: TypeVisitable, C: TypeVisitable> TypeVisitable for (A, B, C) {
    ghost use Rattle.tt_kinds.specs.Values.{triple_shape};

    ghost shape = { triple_shape A.shape B.shape C.shape };

    #[tactic(auto, unfolding(tt_kinds::specs::Shape::fill))]
    fn visit_with<V: TypeVisitor>(
        &self,
        cx: &Interner,
        visitor: &mut V,
    ) -> ControlFlow<V::Break, ()> {
        match self.0.visit_with(cx, visitor) {
            ControlFlow::Break(b) => return ControlFlow::Break(b),
            ControlFlow::Continue(_) => {}
        }
        match self.1.visit_with(cx, visitor) {
            ControlFlow::Break(b) => ControlFlow::Break(b),
            ControlFlow::Continue(_) => self.2.visit_with(cx, visitor),
        }
    }
}

impl<T: TypeVisitable> TypeVisitable for Option<T> {
    ghost use Rattle.tt_kinds.specs.Values.{option_shape};

    ghost shape = { option_shape T.shape };

    #[tactic(auto, unfolding(tt_kinds::specs::Shape::fill))]
    fn visit_with<V: TypeVisitor>(
        &self,
        cx: &Interner,
        visitor: &mut V,
    ) -> ControlFlow<V::Break, ()> {
        match self {
            None => ControlFlow::Continue(()),
            Some(value) => value.visit_with(cx, visitor),
        }
    }
}

impl<T: TypeVisitable, E: TypeVisitable> TypeVisitable for Result<T, E> {
    ghost use Rattle.tt_kinds.specs.Values.{result_shape};

    ghost shape = { result_shape T.shape E.shape };

    #[tactic(auto, unfolding(tt_kinds::specs::Shape::fill))]
    fn visit_with<V: TypeVisitor>(
        &self,
        cx: &Interner,
        visitor: &mut V,
    ) -> ControlFlow<V::Break, ()> {
        match self {
            Ok(value) => value.visit_with(cx, visitor),
            Err(error) => error.visit_with(cx, visitor),
        }
    }
}

impl<T: TypeVisitable> TypeVisitable for Vec<T> {
    ghost use Rattle.tt_kinds.specs.Values.{sequence_shape};

    ghost shape = { λ values. sequence_shape T.shape values.items };

    #[tactic(auto, unfolding(tt_kinds::specs::Shape::fill))]
    fn visit_with<V: TypeVisitor>(
        &self,
        cx: &Interner,
        visitor: &mut V,
    ) -> ControlFlow<V::Break, ()> {
        visit_values(cx, visitor, self.as_slice())
    }
}

impl<T: TypeVisitable> TypeVisitable for &[T] {
    ghost use Rattle.tt_kinds.specs.Values.{sequence_shape};

    ghost shape = { λ values. sequence_shape T.shape values.now };

    #[tactic(auto, unfolding(tt_kinds::specs::Shape::fill))]
    fn visit_with<V: TypeVisitor>(
        &self,
        cx: &Interner,
        visitor: &mut V,
    ) -> ControlFlow<V::Break, ()> {
        visit_values(cx, visitor, *self)
    }
}

/// Visits values in order.
pub(crate) fn visit_values<T: TypeVisitable, V: TypeVisitor>(
    cx: &Interner,
    visitor: &mut V,
    values: &[T],
) -> ControlFlow<V::Break, ()>
    requires owned { V.owned cx.now.rows visitor.old }
    requires values { AreParts (size cx.now.rows) (item_shapes T.shape values.now) }
    ensures owned { V.owned cx.now.rows visitor.new }
    ensures broke { OwnsBreak V.break_owned cx.now.rows result }
    ensures result { Ends V.meaning (GoesOverAll V.hooks) (BreaksAll V.hooks)
        cx.now.rows visitor.old (fill_all (meaning cx.now.rows) (item_shapes T.shape values.now)) result visitor.new }
{
    for index in 0..values.len() {
        match values[index].visit_with(cx, visitor) {
            ControlFlow::Break(b) => return ControlFlow::Break(b),
            ControlFlow::Continue(_) => {}
        }
    }
    ControlFlow::Continue(())
}

impl<T: TypeVisitable> TypeVisitable for &T {
    ghost shape = { λ x. T.shape x.now };

    #[tactic(auto, unfolding(tt_kinds::specs::Shape::fill))]
    fn visit_with<V: TypeVisitor>(
        &self,
        cx: &Interner,
        visitor: &mut V,
    ) -> ControlFlow<V::Break, ()> {
        T::visit_with(*self, cx, visitor)
    }
}
