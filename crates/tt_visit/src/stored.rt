//! The visit of stored terms and lists.
//!
//! The visit of a term begins with its hooks, and makes a frame of what is left: the children, and their binder. One
//! loop visits a frame, with its stack on the heap, so that a deep term doesn't exhaust the machine's stack. A term's
//! last child needs room on this stack only under a binder.

ghost use Rattle.std.specs.Prelude.{None, Some, ◌<◌, ◌≡◌, ◌+◌, IsTrue};
ghost use Rattle.tt_kinds.specs.Shape.{AreParts, HasParts, fill_all};
ghost use Rattle.tt_kinds.specs.Kinds.{
  child_shapes,
  children_shapes,
  form_parts,
  items_tree,
  kind_form,
  kind_shape,
  parts_shapes,
  handle_shape,
};
ghost use Rattle.tt_kinds.specs.TermTable.{has_items, is_term, term_table};
ghost use Rattle.tt_kinds.specs.declared.parts.Child.TheVariants as child;
ghost use Rattle.tt_kinds.specs.declared.table.Table.TheVariants.{VarLists};
ghost use Rattle.tt_interner.specs.Owned.{IsPartBy, tree_by};
ghost use Rattle.tt_interner.specs.Rows.{meaning, size};
ghost use Rattle.tt_visit.specs.Visit.{
  Breaks,
  BreaksAll,
  BreaksInside,
  GoesInside,
  GoesOver,
  GoesOverAll,
  Tells,
  TellingBreaks,
};
ghost use Rattle.tt_visit.specs.Root.{table_root};
ghost use Rattle.tt_visit.specs.Steps.{
  Answers,
  AreVarsStored,
  AsksVisitor,
  AskingBreaks,
  BreaksUnder,
  Ends,
  GoesUnder,
  OwnsBreak,
  kind_error,
};
ghost use Rattle.tt_visit.specs.Frames.{
  AreBinders,
  BeginsVisit,
  BreaksOn,
  child_height,
  child_work,
  children_height,
  children_work,
  FinishesVisit,
  forest_work,
  frame_children,
  frame_todo,
  GoesOn,
  HasFrame,
  inward,
  IsFrame,
  VisitorLeaves,
  parts_height,
  rest_binder,
  StackLeaves,
  tree_work,
};

use crate::frame::{Frame, Frames, push_rest};
use crate::visitor::{Next, TypeVisitor};
use smallvec::SmallVec;
use std::ops::ControlFlow;
use tt_interner::Interner;
use tt_kinds::{AnyHandle, BoundVarKinds, Child, ConstKind, Kind, Parts, TermTable, TyKind};

/// Visits a stored term or list. Its hook, if it has one, is called first. Then its children are visited in order,
/// unless the hook skips them or breaks. The handle has to be of this interner; [`Interner::owns_any`] tests it.
pub fn visit_stored<V: TypeVisitor>(
    cx: &Interner,
    visitor: &mut V,
    handle: AnyHandle,
) -> ControlFlow<V::Break, ()>
    requires owned { V.owned cx.now.rows visitor.old }
    requires handle { IsPartBy handle_shape cx.now.rows handle }
    ensures owned { V.owned cx.now.rows visitor.new }
    ensures broke { OwnsBreak V.break_owned cx.now.rows result }
    ensures result { Ends V.meaning (GoesOver V.hooks) (Breaks V.hooks)
        cx.now.rows visitor.old (tree_by handle_shape cx.now.rows handle) result visitor.new }
{
    let begun = begin_stored(cx, visitor, handle);
    finish(cx, visitor, begun)
}

/// Visits the contents of a stored term, without its own hook.
pub(crate) fn visit_inside<V: TypeVisitor>(
    cx: &Interner,
    visitor: &mut V,
    handle: AnyHandle,
) -> ControlFlow<V::Break, ()>
    requires owned { V.owned cx.now.rows visitor.old }
    requires handle { IsPartBy handle_shape cx.now.rows handle }
    requires term { IsTrue (is_term handle.table) }
    ensures owned { V.owned cx.now.rows visitor.new }
    ensures broke { OwnsBreak V.break_owned cx.now.rows result }
    ensures result { Ends V.meaning (GoesInside V.hooks) (BreaksInside V.hooks)
        cx.now.rows visitor.old (tree_by handle_shape cx.now.rows handle) result visitor.new }
{
    let begun = begin_inside(cx, visitor, handle);
    finish(cx, visitor, begun)
}

/// Visits the children of a kind, in order. The error hook is called first, if the kind holds an error. Every handle
/// and name in the kind has to be this interner's; [`Interner::owns_kind`] and the tests of the other kinds test it.
pub fn visit_kind<V: TypeVisitor>(
    cx: &Interner,
    visitor: &mut V,
    kind: &Kind,
) -> ControlFlow<V::Break, ()>
    requires owned { V.owned cx.now.rows visitor.old }
    requires kind { HasParts (size cx.now.rows) (kind_shape kind.now) }
    ensures owned { V.owned cx.now.rows visitor.new }
    ensures broke { OwnsBreak V.break_owned cx.now.rows result }
    ensures result { Ends V.meaning (GoesInside V.hooks) (BreaksInside V.hooks)
        cx.now.rows visitor.old (tree_by kind_shape cx.now.rows kind.now) result visitor.new }
{
    let begun = begin_kind(cx, visitor, kind);
    finish(cx, visitor, begun)
}

/// Visits parts under a binder.
pub(crate) fn visit_under<V: TypeVisitor>(
    cx: &Interner,
    visitor: &mut V,
    vars: BoundVarKinds,
    parts: Parts,
) -> ControlFlow<V::Break, ()>
    requires owned { V.owned cx.now.rows visitor.old }
    requires vars { vars.number < size cx.now.rows VarLists }
    requires parts { AreParts (size cx.now.rows) (parts_shapes parts) }
    ensures owned { V.owned cx.now.rows visitor.new }
    ensures broke { OwnsBreak V.break_owned cx.now.rows result }
    ensures result { Ends V.meaning
        (λ s. GoesUnder V.hooks (meaning cx.now.rows) s (Some vars))
        (λ s. BreaksUnder V.hooks (meaning cx.now.rows) s (Some vars))
        cx.now.rows visitor.old (fill_all (meaning cx.now.rows) (parts_shapes parts)) result visitor.new }
{
    let begun = begin_under(cx, visitor, vars, parts);
    finish(cx, visitor, begun)
}

/// Visits parts in order.
pub(crate) fn visit_parts<V: TypeVisitor>(
    cx: &Interner,
    visitor: &mut V,
    parts: Parts,
) -> ControlFlow<V::Break, ()>
    requires owned { V.owned cx.now.rows visitor.old }
    requires parts { AreParts (size cx.now.rows) (parts_shapes parts) }
    ensures owned { V.owned cx.now.rows visitor.new }
    ensures broke { OwnsBreak V.break_owned cx.now.rows result }
    ensures result { Ends V.meaning (GoesOverAll V.hooks) (BreaksAll V.hooks)
        cx.now.rows visitor.old (fill_all (meaning cx.now.rows) (parts_shapes parts)) result visitor.new }
{
    visit_frame(cx, visitor, Frame::of_parts(parts, None))
}

// Finishes a visit that was begun.
fn finish<V: TypeVisitor>(
    cx: &Interner,
    visitor: &mut V,
    begun: ControlFlow<V::Break, Option<Frame>>,
) -> ControlFlow<V::Break, ()>
    requires owned { V.owned cx.now.rows visitor.old }
    requires broke { OwnsBreak V.break_owned cx.now.rows begun }
    requires frame { HasFrame cx.now.rows begun }
    ensures owned { V.owned cx.now.rows visitor.new }
    ensures broke { OwnsBreak V.break_owned cx.now.rows result }
    ensures result { FinishesVisit V.hooks cx.now.rows
        (V.meaning cx.now.rows visitor.old) begun result (V.meaning cx.now.rows visitor.new) }
{
    match begun {
        ControlFlow::Break(b) => ControlFlow::Break(b),
        ControlFlow::Continue(None) => ControlFlow::Continue(()),
        ControlFlow::Continue(Some(frame)) => visit_frame(cx, visitor, frame),
    }
}

// Visits what is left of a term or a list. If memory for the stack is refused, a term is visited by a call of this
// function, on the machine's stack: the visit is the same, and a visit has no refusal to return.
fn visit_frame<V: TypeVisitor>(
    cx: &Interner,
    visitor: &mut V,
    whole: Frame,
) -> ControlFlow<V::Break, ()>
    requires owned { V.owned cx.now.rows visitor.old }
    requires frame { IsFrame cx.now.rows whole }
    ensures owned { V.owned cx.now.rows visitor.new }
    ensures broke { OwnsBreak V.break_owned cx.now.rows result }
    ensures result { Ends V.meaning (GoesOn V.hooks cx.now.rows) (BreaksOn V.hooks cx.now.rows)
        cx.now.rows visitor.old (frame_todo cx.now.rows whole) result visitor.new }
{
    let mut frames: Frames = SmallVec::new(cx.allocator());
    let mut frame = whole;
    'visit: loop {
        match frame.next_child(cx) {
            None => {
                leave(cx, visitor, frame.rest.binder());
                match frames.pop() {
                    None => return ControlFlow::Continue(()),
                    Some(rest) => frame = Frame::resumed(rest),
                }
            }
            Some(child) => match begin_child(cx, visitor, &child) {
                ControlFlow::Break(b) => {
                    leave(cx, visitor, frame.rest.binder());
                    leave_all(cx, visitor, frames);
                    return ControlFlow::Break(b);
                }
                ControlFlow::Continue(None) => {}
                ControlFlow::Continue(Some(inner)) => {
                    if push_rest(&mut frames, &frame.rest) {
                        frame = inner;
                    } else {
                        match visit_frame(cx, visitor, inner) {
                            ControlFlow::Break(b) => {
                                leave(cx, visitor, frame.rest.binder());
                                leave_all(cx, visitor, frames);
                                return ControlFlow::Break(b);
                            }
                            ControlFlow::Continue(_) => {}
                        }
                    }
                }
            },
        }
    }
}

// Leaves the binder of a term, if it has one.
fn leave<V: TypeVisitor>(cx: &Interner, visitor: &mut V, binder: Option<BoundVarKinds>)
    requires owned { V.owned cx.now.rows visitor.old }
    requires binder { AreVarsStored (size cx.now.rows) binder }
    ensures owned { V.owned cx.now.rows visitor.new }
    ensures result { VisitorLeaves V.hooks cx.now.rows
        (V.meaning cx.now.rows visitor.old) binder (V.meaning cx.now.rows visitor.new) }
{
    match binder {
        None => {}
        Some(vars) => visitor.leave_binder(cx, vars),
    }
}

// Leaves the binders of the terms around one whose visit broke.
fn leave_all<V: TypeVisitor>(cx: &Interner, visitor: &mut V, frames: Frames)
    requires owned { V.owned cx.now.rows visitor.old }
    requires frames { AreBinders (size cx.now.rows) (inward frames.items) }
    ensures owned { V.owned cx.now.rows visitor.new }
    ensures result { StackLeaves V.hooks cx.now.rows
        (V.meaning cx.now.rows visitor.old) (inward frames.items) (V.meaning cx.now.rows visitor.new) }
{
    let mut frames = frames;
    'leave: loop {
        match frames.pop() {
            None => return,
            Some(rest) => leave(cx, visitor, rest.binder()),
        }
    }
}

// Begins the visit of one part or item, and returns what is left of it, if anything is.
fn begin_child<V: TypeVisitor>(
    cx: &Interner,
    visitor: &mut V,
    child: &Child,
) -> ControlFlow<V::Break, Option<Frame>>
    requires owned { V.owned cx.now.rows visitor.old }
    requires child { AreParts (size cx.now.rows) (child_shapes child.now) }
    ensures owned { V.owned cx.now.rows visitor.new }
    ensures broke { OwnsBreak V.break_owned cx.now.rows result }
    ensures begun { BeginsVisit V.meaning V.hooks (GoesOverAll V.hooks) (BreaksAll V.hooks)
        (child_height cx.now.rows child.now) (child_work cx.now.rows child.now)
        cx.now.rows visitor.old (fill_all (meaning cx.now.rows) (child_shapes child.now)) result visitor.new }
{
    match child {
        Child::Absent => ControlFlow::Continue(None),
        Child::Region(region) => match visitor.visit_region(cx, *region) {
            ControlFlow::Break(b) => ControlFlow::Break(b),
            ControlFlow::Continue(_) => ControlFlow::Continue(None),
        },
        Child::Stored(handle) => begin_stored(cx, visitor, *handle),
    }
}

// Begins the visit of a stored term or list.
fn begin_stored<V: TypeVisitor>(
    cx: &Interner,
    visitor: &mut V,
    handle: AnyHandle,
) -> ControlFlow<V::Break, Option<Frame>>
    requires owned { V.owned cx.now.rows visitor.old }
    requires handle { IsPartBy handle_shape cx.now.rows handle }
    ensures owned { V.owned cx.now.rows visitor.new }
    ensures broke { OwnsBreak V.break_owned cx.now.rows result }
    ensures begun { BeginsVisit V.meaning V.hooks (GoesOver V.hooks) (Breaks V.hooks)
        (child_height cx.now.rows (child.Stored handle)) (child_work cx.now.rows (child.Stored handle))
        cx.now.rows visitor.old (tree_by handle_shape cx.now.rows handle) result visitor.new }
{
    if handle.table.is_term() {
        begin_term(cx, visitor, handle)
    } else {
        ControlFlow::Continue(Some(list_frame(cx, handle)))
    }
}

// Begins the visit of a stored term.
fn begin_term<V: TypeVisitor>(
    cx: &Interner,
    visitor: &mut V,
    handle: AnyHandle,
) -> ControlFlow<V::Break, Option<Frame>>
    requires owned { V.owned cx.now.rows visitor.old }
    requires handle { IsPartBy handle_shape cx.now.rows handle }
    requires term { IsTrue (is_term handle.table) }
    ensures owned { V.owned cx.now.rows visitor.new }
    ensures broke { OwnsBreak V.break_owned cx.now.rows result }
    ensures begun { BeginsVisit V.meaning V.hooks (GoesOver V.hooks) (Breaks V.hooks)
        (child_height cx.now.rows (child.Stored handle)) (child_work cx.now.rows (child.Stored handle))
        cx.now.rows visitor.old (tree_by handle_shape cx.now.rows handle) result visitor.new }
{
    match ask(cx, visitor, handle) {
        ControlFlow::Break(b) => ControlFlow::Break(b),
        ControlFlow::Continue(Next::Skip) => ControlFlow::Continue(None),
        ControlFlow::Continue(Next::Descend) => begin_inside(cx, visitor, handle),
    }
}

// Begins the visit of the contents of a stored term, without its own hook.
fn begin_inside<V: TypeVisitor>(
    cx: &Interner,
    visitor: &mut V,
    handle: AnyHandle,
) -> ControlFlow<V::Break, Option<Frame>>
    requires owned { V.owned cx.now.rows visitor.old }
    requires handle { IsPartBy handle_shape cx.now.rows handle }
    requires term { IsTrue (is_term handle.table) }
    ensures owned { V.owned cx.now.rows visitor.new }
    ensures broke { OwnsBreak V.break_owned cx.now.rows result }
    ensures begun { BeginsVisit V.meaning V.hooks (GoesInside V.hooks) (BreaksInside V.hooks)
        (child_height cx.now.rows (child.Stored handle)) (child_work cx.now.rows (child.Stored handle))
        cx.now.rows visitor.old (tree_by handle_shape cx.now.rows handle) result visitor.new }
{
    match handle.table {
        TermTable::ClauseLists => ControlFlow::Continue(Some(list_frame(cx, handle))),
        _ => {
            let kind = cx.node_kind(handle);
            begin_kind(cx, visitor, &kind)
        }
    }
}

// Begins the visit of the contents of a kind.
fn begin_kind<V: TypeVisitor>(
    cx: &Interner,
    visitor: &mut V,
    kind: &Kind,
) -> ControlFlow<V::Break, Option<Frame>>
    requires owned { V.owned cx.now.rows visitor.old }
    requires kind { HasParts (size cx.now.rows) (kind_shape kind.now) }
    ensures owned { V.owned cx.now.rows visitor.new }
    ensures broke { OwnsBreak V.break_owned cx.now.rows result }
    ensures begun { BeginsVisit V.meaning V.hooks (GoesInside V.hooks) (BreaksInside V.hooks)
        (parts_height cx.now.rows (form_parts (kind_form kind.now)) + 1)
        (tree_work (tree_by kind_shape cx.now.rows kind.now) + 2)
        cx.now.rows visitor.old (tree_by kind_shape cx.now.rows kind.now) result visitor.new }
{
    match visit_kind_error(cx, visitor, kind) {
        ControlFlow::Break(b) => ControlFlow::Break(b),
        ControlFlow::Continue(_) => begin_contents(cx, visitor, kind.bound_vars(), kind.parts()),
    }
}

// Begins the visit of parts, under their binder if they have one.
fn begin_contents<V: TypeVisitor>(
    cx: &Interner,
    visitor: &mut V,
    bound_vars: Option<BoundVarKinds>,
    parts: Parts,
) -> ControlFlow<V::Break, Option<Frame>>
    requires owned { V.owned cx.now.rows visitor.old }
    requires vars { AreVarsStored (size cx.now.rows) bound_vars }
    requires parts { AreParts (size cx.now.rows) (parts_shapes parts) }
    ensures owned { V.owned cx.now.rows visitor.new }
    ensures broke { OwnsBreak V.break_owned cx.now.rows result }
    ensures begun { BeginsVisit V.meaning V.hooks
        (λ s. GoesUnder V.hooks (meaning cx.now.rows) s bound_vars)
        (λ s. BreaksUnder V.hooks (meaning cx.now.rows) s bound_vars)
        (parts_height cx.now.rows parts + 1)
        (forest_work (fill_all (meaning cx.now.rows) (parts_shapes parts)) + 3)
        cx.now.rows visitor.old (fill_all (meaning cx.now.rows) (parts_shapes parts)) result visitor.new }
{
    match bound_vars {
        None => ControlFlow::Continue(Frame::without_binder(parts)),
        Some(vars) => begin_under(cx, visitor, vars, parts),
    }
}

// Begins the visit of parts under a binder.
fn begin_under<V: TypeVisitor>(
    cx: &Interner,
    visitor: &mut V,
    vars: BoundVarKinds,
    parts: Parts,
) -> ControlFlow<V::Break, Option<Frame>>
    requires owned { V.owned cx.now.rows visitor.old }
    requires vars { vars.number < size cx.now.rows VarLists }
    requires parts { AreParts (size cx.now.rows) (parts_shapes parts) }
    ensures owned { V.owned cx.now.rows visitor.new }
    ensures broke { OwnsBreak V.break_owned cx.now.rows result }
    ensures begun { BeginsVisit V.meaning V.hooks
        (λ s. GoesUnder V.hooks (meaning cx.now.rows) s (Some vars))
        (λ s. BreaksUnder V.hooks (meaning cx.now.rows) s (Some vars))
        (parts_height cx.now.rows parts + 1)
        (forest_work (fill_all (meaning cx.now.rows) (parts_shapes parts)) + 3)
        cx.now.rows visitor.old (fill_all (meaning cx.now.rows) (parts_shapes parts)) result visitor.new }
{
    match visitor.visit_binder(cx, vars) {
        ControlFlow::Break(b) => ControlFlow::Break(b),
        ControlFlow::Continue(Next::Skip) => ControlFlow::Continue(None),
        ControlFlow::Continue(Next::Descend) => {
            let frame = Frame::of_parts(parts, Some(vars));
            ControlFlow::Continue(Some(frame))
        }
    }
}

// Returns the frame of a stored list, before its items.
fn list_frame(cx: &Interner, list: AnyHandle) -> Frame
    requires handle { IsPartBy handle_shape cx.now.rows list }
    requires is_list { IsTrue (has_items list.table) }
    ensures frame { IsFrame cx.now.rows result }
    ensures binder { rest_binder result.rest ≡ None }
    ensures list { tree_by handle_shape cx.now.rows list
        ≡ items_tree list.table
        (fill_all (meaning cx.now.rows) (children_shapes (frame_children cx.now.rows result))) }
    ensures low { children_height cx.now.rows (frame_children cx.now.rows result)
        < child_height cx.now.rows (child.Stored list) }
    ensures light { children_work cx.now.rows (frame_children cx.now.rows result) + 1
        < child_work cx.now.rows (child.Stored list) }
{
    Frame::of_items(list, cx.list_len(list))
}

// Calls the hook of a stored term. A term without a hook is entered.
fn ask<V: TypeVisitor>(
    cx: &Interner,
    visitor: &mut V,
    handle: AnyHandle,
) -> ControlFlow<V::Break, Next>
    requires owned { V.owned cx.now.rows visitor.old }
    requires handle { IsPartBy handle_shape cx.now.rows handle }
    requires term { IsTrue (is_term handle.table) }
    ensures owned { V.owned cx.now.rows visitor.new }
    ensures broke { OwnsBreak V.break_owned cx.now.rows result }
    ensures result { Answers V.meaning
        (AsksVisitor V.hooks (table_root (term_table handle.table))) (AskingBreaks V.hooks (table_root (term_table handle.table)))
        cx.now.rows visitor.old (tree_by handle_shape cx.now.rows handle) result visitor.new }
{
    match handle.table {
        TermTable::Types => visitor.visit_ty(cx, handle.typed()),
        TermTable::Consts => visitor.visit_const(cx, handle.typed()),
        TermTable::Predicates => visitor.visit_predicate(cx, handle.typed()),
        TermTable::ClauseLists => visitor.visit_clauses(cx, handle.typed()),
        _ => ControlFlow::Continue(Next::Descend),
    }
}

// Calls the error hook, if the kind holds an error.
fn visit_kind_error<V: TypeVisitor>(
    cx: &Interner,
    visitor: &mut V,
    kind: &Kind,
) -> ControlFlow<V::Break, ()>
    requires { V.owned cx.now.rows visitor.old }
    ensures owned { V.owned cx.now.rows visitor.new }
    ensures broke { OwnsBreak V.break_owned cx.now.rows result }
    ensures result { Ends V.meaning (Tells V.hooks) (TellingBreaks V.hooks)
        cx.now.rows visitor.old (kind_error kind.now) result visitor.new }
{
    match kind {
        Kind::Ty(TyKind::Error(error)) | Kind::Const(ConstKind::Error(error)) =>
            visitor.visit_error(cx, *error),
        _ => ControlFlow::Continue(()),
    }
}
