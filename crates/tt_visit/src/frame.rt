//! What is left of terms and lists whose visit was begun.

ghost use Rattle.std.specs.Prelude.{◌≡◌, List as Items, [], ◌∷◌, drop, IsTrue, IsFalse, MatchOption, None};
ghost use Rattle.tt_kinds.specs.Kinds.{parts_shapes};
ghost use Rattle.tt_kinds.specs.Shape.{none};
ghost use Rattle.tt_interner.specs.Children.{children_at};
ghost use Rattle.tt_interner.specs.Rows.{Row};
ghost use Rattle.tt_visit.specs.Frames.{
  frame_children,
  HasItems,
  HoldsParts,
  IsKept,
  IsRest,
  IsWithin,
  present,
  rest_binder,
  rest_children,
};

use smallvec::SmallVec;
use tt_interner::Interner;
use tt_kinds::{AnyHandle, BoundVarKinds, Child, Parts, Region};

/// What is left of a term or a list after its first child: one more child, or items. After these, the visit leaves the
/// binder that they are under.
#[derive(Clone, Copy)]
pub(crate) enum Remaining {
    /// No child.
    Nothing(Option<BoundVarKinds>),
    /// A region.
    Region(Region, Option<BoundVarKinds>),
    /// A stored term or list.
    Stored(AnyHandle, Option<BoundVarKinds>),
    /// The items of a list from an index on, and the list's length, which is greater.
    Items(AnyHandle, usize, usize),
}

/// What is left of a term or a list.
#[derive(Clone, Copy)]
pub(crate) struct Frame {
    /// The first child, until it is taken.
    pub first: Option<Child>,
    /// What is left after it.
    pub rest: Remaining,
}

/// What is left of the terms and lists around one that is visited, the innermost last. Up to eight are kept without an
/// allocation.
pub(crate) type Frames = SmallVec<Remaining, 8>;

// A small vector keeps the default in its unused places.
impl Default for Remaining {
    fn default() -> Remaining {
        Remaining::Nothing(None)
    }
}

impl Remaining {
    // Returns the last child of a term, if there is one, under its binder.
    fn of_last(child: Child, binder: Option<BoundVarKinds>) -> Remaining
        ensures rest { (rows : Items Row) → IsRest rows result }
        ensures children { (rows : Items Row) → rest_children rows result ≡ present child }
        ensures binder { rest_binder result ≡ binder }
    {
        match child {
            Child::Absent => Remaining::Nothing(binder),
            Child::Region(region) => Remaining::Region(region, binder),
            Child::Stored(handle) => Remaining::Stored(handle, binder),
        }
    }

    // Returns the items of a list of this length from an index on.
    fn of_items(list: AnyHandle, index: usize, len: usize) -> Remaining
        ensures rest { (rows : Items Row) → HasItems rows list len → IsRest rows result }
        ensures children { (rows : Items Row) → HasItems rows list len
            → rest_children rows result ≡ drop index (children_at rows list) }
        ensures binder { rest_binder result ≡ None }
    {
        if index < len {
            Remaining::Items(list, index, len)
        } else {
            Remaining::Nothing(None)
        }
    }

    /// Returns the binder that the visit leaves at the end, if there is one.
    pub(crate) fn binder(&self) -> Option<BoundVarKinds>
        ensures { result ≡ rest_binder self.now }
    {
        match self {
            Remaining::Nothing(binder)
            | Remaining::Region(_, binder)
            | Remaining::Stored(_, binder) => *binder,
            Remaining::Items(_, _, _) => None,
        }
    }

    // Returns the next child, if one is left.
    fn child(&self, cx: &Interner) -> Option<Child>
        requires { IsRest cx.now.rows self.now }
        ensures { MatchOption result
            (rest_children cx.now.rows self.now ≡ [])
            (λ child. rest_children cx.now.rows self.now ≡ child ∷ drop 1 (rest_children cx.now.rows self.now)) }
    {
        match self {
            Remaining::Nothing(_) => None,
            Remaining::Region(region, _) => Some(Child::Region(*region)),
            Remaining::Stored(handle, _) => Some(Child::Stored(*handle)),
            Remaining::Items(list, index, _) => Some(cx.list_child(*list, *index)),
        }
    }

    // Returns what is left after the next child.
    fn after_child(&self) -> Remaining
        requires { IsWithin self.now }
        ensures rest { (rows : Items Row) → IsRest rows self.now → IsRest rows result }
        ensures children { (rows : Items Row) → IsRest rows self.now
            → rest_children rows result ≡ drop 1 (rest_children rows self.now) }
        ensures binder { rest_binder result ≡ rest_binder self.now }
    {
        match *self {
            Remaining::Items(list, index, len) => Remaining::of_items(list, index + 1, len),
            _ => Remaining::Nothing(self.binder()),
        }
    }
}

impl Frame {
    /// Returns the children of a term, under its binder.
    pub(crate) fn of_parts(parts: Parts, binder: Option<BoundVarKinds>) -> Frame
        ensures { HoldsParts parts binder result }
    {
        Frame {
            first: Some(parts.first),
            rest: Remaining::of_last(parts.second, binder),
        }
    }

    /// Returns the children of a term without a binder, if it has children.
    pub(crate) fn without_binder(parts: Parts) -> Option<Frame>
        ensures { MatchOption result (parts_shapes parts ≡ none) (HoldsParts parts None) }
    {
        match (parts.first, parts.second) {
            (Child::Absent, Child::Absent) => None,
            _ => Some(Frame::of_parts(parts, None)),
        }
    }

    /// Returns the items of a list of this length.
    pub(crate) fn of_items(list: AnyHandle, len: usize) -> Frame
        ensures rest { (rows : Items Row) → HasItems rows list len → IsRest rows result.rest }
        ensures children { (rows : Items Row) → HasItems rows list len
            → frame_children rows result ≡ children_at rows list }
        ensures binder { rest_binder result.rest ≡ None }
    {
        Frame::resumed(Remaining::of_items(list, 0, len))
    }

    /// Returns what is left of a term whose first child was taken.
    pub(crate) fn resumed(rest: Remaining) -> Frame
        ensures { result ≡ record { first = None; rest = rest } }
    {
        Frame { first: None, rest }
    }

    /// Takes the next child, if one is left.
    pub(crate) fn next_child(&mut self, cx: &Interner) -> Option<Child>
        requires { IsRest cx.now.rows self.old.rest }
        ensures rest { IsRest cx.now.rows self.new.rest }
        ensures children { MatchOption result
            (frame_children cx.now.rows self.old ≡ [])
            (λ child. frame_children cx.now.rows self.old ≡ child ∷ frame_children cx.now.rows self.new) }
        ensures first { self.new.first ≡ None }
        ensures binder { rest_binder self.new.rest ≡ rest_binder self.old.rest }
    {
        match self.first {
            None => {
                let child = self.rest.child(cx);
                self.rest = self.rest.after_child();
                child
            }
            Some(child) => {
                self.first = None;
                Some(child)
            }
        }
    }
}

/// Pushes what is left of a term, and returns whether there was room for it. If nothing is left, no room is needed.
pub(crate) fn push_rest(frames: &mut Frames, rest: &Remaining) -> bool
    ensures kept { IsTrue result → IsKept frames.old.items rest.now frames.new.items }
    ensures refused { IsFalse result → frames.new.items ≡ frames.old.items }
{
    match rest {
        Remaining::Nothing(None) => true,
        _ => frames.push(*rest).is_ok(),
    }
}
