//! The visits of views, and their items as slices.

ghost use Rattle.std.specs.Prelude.{◌≡◌, ◌-◌, List, drop, length, take};
ghost use Rattle.tt_kinds.specs.Shape.{AreParts, item_shapes};
ghost use Rattle.tt_interner.specs.Rows.{Row, size};

use crate::visitable::{TypeVisitable, visit_values};
use crate::visitor::TypeVisitor;
use std::ops::ControlFlow;
use tt_interner::{InternedList, Interner};
use tt_kinds::{FnInputTys, GenericArg, GenericArgsSlice, Ty};

/// A view: a slice of a stored list.
///
/// A view can be visited as its slice can, and has the slice's tree. If it reaches beyond its list, the items that are
/// there are visited, and [`InternedView::as_slice`] can't be called.
pub trait InternedView: Sized {
    /// The type of the list's items.
    type Item: TypeVisitable;

    // The view lies in a list of the rows.
    ghost lies_in: { List Row → Self → Type 0 };
    // These are the view's items.
    ghost holds: { List Row → Self → List Self.Item → Type 0 };

    /// Returns the items in order, borrowed from the interner. The view has to lie in a list of this interner;
    /// [`Interner::owns_input_tys`] and [`Interner::owns_args_slice`] test it.
    fn as_slice<'a>(self, cx: &'a Interner) -> &'a [Self::Item]
        requires { lies_in cx.now.rows self }
        ensures items { holds cx.now.rows self result.now }
        ensures owned { AreParts (size cx.now.rows) (item_shapes Self.Item.shape result.now) };
}

impl InternedView for FnInputTys {
    ghost use Rattle.tt_interner.specs.Views.{AreInputs};
    ghost use Rattle.tt_visit.specs.Views.{HoldsInputs};

    type Item = Ty;

    ghost lies_in = { AreInputs };

    ghost holds = { HoldsInputs };

    fn as_slice<'a>(self, cx: &'a Interner) -> &'a [Ty] {
        cx.are_rows();
        let all = self.inputs_and_output().as_slice(cx);
        all_but_last(all)
    }
}

impl TypeVisitable for FnInputTys {
    ghost use Rattle.tt_kinds.specs.Values.{input_tys_shape};

    ghost shape = { input_tys_shape };

    #[tactic(auto, unfolding(tt_kinds::specs::Shape::fill))]
    fn visit_with<V: TypeVisitor>(
        &self,
        cx: &Interner,
        visitor: &mut V,
    ) -> ControlFlow<V::Break, ()> {
        cx.are_rows();
        let inputs = all_but_last(self.inputs_and_output().as_slice(cx));
        visit_values(cx, visitor, inputs)
    }
}

impl InternedView for GenericArgsSlice {
    ghost use Rattle.tt_interner.specs.Views.{LiesInList};
    ghost use Rattle.tt_visit.specs.Views.{HoldsArgs};

    type Item = GenericArg;

    ghost lies_in = { LiesInList };

    ghost holds = { HoldsArgs };

    fn as_slice<'a>(self, cx: &'a Interner) -> &'a [GenericArg] {
        cx.are_rows();
        let all = self.args().as_slice(cx);
        span(all, self.start() as usize, self.count() as usize)
    }
}

impl TypeVisitable for GenericArgsSlice {
    ghost use Rattle.tt_kinds.specs.Values.{args_slice_shape};

    ghost shape = { args_slice_shape };

    #[tactic(auto, unfolding(tt_kinds::specs::Shape::fill))]
    fn visit_with<V: TypeVisitor>(
        &self,
        cx: &Interner,
        visitor: &mut V,
    ) -> ControlFlow<V::Break, ()> {
        cx.are_rows();
        let list = self.args().as_slice(cx);
        let arguments = span(list, self.start() as usize, self.count() as usize);
        visit_values(cx, visitor, arguments)
    }
}

// Returns the items without the last, and no items if there are none.
fn all_but_last<T>(items: &[T]) -> &[T]
    ensures { result.now ≡ take (length items.now - 1) items.now }
{
    let end = items.len().saturating_sub(1);
    &items[..end]
}

// Returns `len` items from `start` on, or as many as are there.
fn span<T>(items: &[T], start: usize, len: usize) -> &[T]
    ensures { result.now ≡ take len (drop start items.now) }
{
    let first = start.min(items.len());
    let rest = &items[first..];
    let end = len.min(rest.len());
    &rest[..end]
}
