//! The visits of boxes, shared values, and lists of other types than `Vec`: each is a record of its contents, in order.

use crate::visitable::{TypeVisitable, visit_values};
use crate::visitor::TypeVisitor;
use indexmap::IndexSet;
use smallvec::SmallVec;
use std::boxed::BoxedSlice;
use std::hash::{BuildHasher, Hash};
use std::ops::ControlFlow;
use std::rc::Rc;
use tt_index::{Idx, IndexVec};
use tt_interner::Interner;

impl<T: TypeVisitable> TypeVisitable for Box<T> {
    ghost use Rattle.tt_visit.specs.Containers.{boxed_shape};

    ghost shape = { λ boxed. boxed_shape T.shape boxed.value };

    #[tactic(auto, unfolding(tt_kinds::specs::Shape::fill))]
    fn visit_with<V: TypeVisitor>(
        &self,
        cx: &Interner,
        visitor: &mut V,
    ) -> ControlFlow<V::Break, ()> {
        T::visit_with(self.as_ref(), cx, visitor)
    }
}

impl<T: TypeVisitable> TypeVisitable for Rc<T> {
    ghost use Rattle.tt_visit.specs.Containers.{shared_shape};

    ghost shape = { λ shared. shared_shape T.shape shared.value };

    #[tactic(auto, unfolding(tt_kinds::specs::Shape::fill))]
    fn visit_with<V: TypeVisitor>(
        &self,
        cx: &Interner,
        visitor: &mut V,
    ) -> ControlFlow<V::Break, ()> {
        let referent = Rc::as_ref(self);
        T::visit_with(referent, cx, visitor)
    }
}

impl<T: TypeVisitable> TypeVisitable for BoxedSlice<T> {
    ghost use Rattle.std.specs.Box.{boxed_slice_items};
    ghost use Rattle.tt_kinds.specs.Values.{sequence_shape};

    ghost shape = { λ values. sequence_shape T.shape (boxed_slice_items values) };

    #[tactic(auto, unfolding(tt_kinds::specs::Shape::fill))]
    fn visit_with<V: TypeVisitor>(
        &self,
        cx: &Interner,
        visitor: &mut V,
    ) -> ControlFlow<V::Break, ()> {
        let items = self.as_slice();
        visit_values(cx, visitor, items)
    }
}

impl<Ix: Idx, T: TypeVisitable> TypeVisitable for IndexVec<Ix, T> {
    ghost use Rattle.tt_kinds.specs.Values.{sequence_shape};

    ghost shape = { λ values. sequence_shape T.shape values };

    #[tactic(auto, unfolding(tt_kinds::specs::Shape::fill))]
    fn visit_with<V: TypeVisitor>(
        &self,
        cx: &Interner,
        visitor: &mut V,
    ) -> ControlFlow<V::Break, ()> {
        let indexed = self.raw();
        visit_values(cx, visitor, indexed)
    }
}

impl<T: TypeVisitable, const N: usize> TypeVisitable for SmallVec<T, N> {
    ghost use Rattle.tt_kinds.specs.Values.{sequence_shape};

    ghost shape = { λ values. sequence_shape T.shape values.items };

    #[tactic(auto, unfolding(tt_kinds::specs::Shape::fill))]
    fn visit_with<V: TypeVisitor>(
        &self,
        cx: &Interner,
        visitor: &mut V,
    ) -> ControlFlow<V::Break, ()> {
        let few = self.as_slice();
        visit_values(cx, visitor, few)
    }
}

impl<T: TypeVisitable + Eq + Hash, S: BuildHasher> TypeVisitable for IndexSet<T, S> {
    ghost use Rattle.tt_kinds.specs.Values.{sequence_shape};

    ghost shape = { λ values. sequence_shape T.shape values.keys };

    #[tactic(auto, unfolding(tt_kinds::specs::Shape::fill))]
    fn visit_with<V: TypeVisitor>(
        &self,
        cx: &Interner,
        visitor: &mut V,
    ) -> ControlFlow<V::Break, ()> {
        let in_order = self.as_slice();
        visit_values(cx, visitor, in_order)
    }
}
