//! The walk of the contents of a term or a list, by a loop. Its stack is on the heap, so a term may be as deep as
//! memory allows.

ghost use Rattle.std.specs.Prelude.{
  ◌≡◌,
  ◌<◌,
  ◌++◌,
  ◌∷◌,
  [],
  IfErr,
  IsFalse,
  IsTrue,
  ◌↔◌,
  length,
  OnOk,
  slice_get,
  Some,
};
ghost use Rattle.tt_kinds.specs.Kinds.{handle_shape};
ghost use Rattle.tt_kinds.specs.TermTable.{has_items};
ghost use Rattle.tt_fold.specs.Walk.{Fails, HasUnwanted, InsideFails};
ghost use Rattle.tt_fold.specs.Steps.{errors_of, Goes, IsPartOf};
ghost use Rattle.tt_fold.specs.Still.{StaysStill};
ghost use Rattle.tt_fold.specs.Parts.{
  binder_in,
  child_trees,
  HasBinder,
  IsChildless,
  IsStoredFor,
  handle_tree,
};
ghost use Rattle.tt_index.specs.declared.refusal.Refusal.TheVariants.{Memory};
ghost use Rattle.tt_fold.specs.Stack.{
  EnterFails,
  Opens,
  RestFails,
  Rests,
  wanted_by,
};
ghost use Rattle.tt_fold.specs.Going.{
  BeginsStored,
  children_in,
  FinishesItem,
  HasAdvanced,
  IsAsked,
  IsFoldFrame,
  IsFrameOrResult,
  IsNotKept,
  IsOpen,
  IsNewFrame,
  IsResult,
  IsStuck,
  left_of,
  outline_of,
  walked_parts,
};

use crate::core_folder::Core;
use crate::folder::Step;
use crate::items::{check_item, is_absent, is_hooked, is_predicate};
use crate::rebuild::rebuild;
use smallvec::SmallVec;
use tt_index::Refusal;
use tt_interner::Interner;
use tt_interner::nodes::Contents;
use tt_kinds::{AnyHandle, BoundVarKinds, Child, Parts, TermTable};

// A term or a list whose children are walked.
#[derive(Clone, Copy)]
pub(crate) struct Frame {
    // The term or the list. Its children are read from its row.
    pub(crate) handle: AnyHandle,
    // The number of children that are walked.
    pub(crate) count: usize,
    // The number of children that were begun.
    next: usize,
}

impl Default for Frame {
    fn default() -> Frame {
        Frame {
            handle: AnyHandle {
                table: TermTable::Types,
                number: 0,
            },
            count: 0,
            next: 0,
        }
    }
}

// A term or a list that was begun: its result, or the frame of its contents.
pub(crate) enum Begun {
    Done(AnyHandle),
    Inside(Frame),
}

// The frames around the innermost one. A walk that isn't deep needs no allocation.
type Frames = SmallVec<Frame, 8>;

// The results of the children of all frames. A few short lists need no allocation.
pub(crate) type Values = SmallVec<Child, 16>;

// Begins a term or a list of any table, outside of the loop.
#[inline(never)]
pub(crate) fn begin_other<M, F: Core<M>>(
    cx: &mut Interner,
    folder: &mut F,
    handle: AnyHandle,
) -> Result<Begun, F::Error>
    requires owned { F.owned cx.old.rows folder.old }
    requires handle { IsPartOf cx.old.rows (handle_shape handle) }
    ensures still { StaysStill F.hooks F.touches_nothing F.meaning (handle_shape handle) cx.old folder.old cx.new }
    ensures goes { BeginsStored F.owned F.meaning F.hooks F.Error.from_gives
        handle cx.old folder.old result cx.new folder.new }
{
    begin_stored::<M, F>(cx, folder, handle)
}

// Begins a term or a list: calls its hook, and enters its binder. A term without children is done at once.
#[inline(always)]
fn begin_stored<M, F: Core<M>>(
    cx: &mut Interner,
    folder: &mut F,
    handle: AnyHandle,
) -> Result<Begun, F::Error>
    requires owned { F.owned cx.old.rows folder.old }
    requires handle { IsPartOf cx.old.rows (handle_shape handle) }
    ensures still { StaysStill F.hooks F.touches_nothing F.meaning (handle_shape handle) cx.old folder.old cx.new }
    ensures goes { BeginsStored F.owned F.meaning F.hooks F.Error.from_gives
        handle cx.old folder.old result cx.new folder.new }
{
    let step = ask::<M, F>(cx, folder, handle)?;
    match step {
        Step::Replace(new) => Ok(Begun::Done(new)),
        Step::Keep => Ok(Begun::Done(handle)),
        Step::Descend => {
            let opened = open::<M, F>(cx, folder, handle)?;
            match opened {
                Some(frame) => Ok(Begun::Inside(frame)),
                None => {
                    let value = finish_other::<M, F>(cx, folder, handle, handle)?;
                    Ok(Begun::Done(value))
                }
            }
        }
    }
}

// Calls the hook of a term or a list. If there is none, the answer is `Descend`.
#[inline(always)]
fn ask<M, F: Core<M>>(
    cx: &mut Interner,
    folder: &mut F,
    handle: AnyHandle,
) -> Result<Step<AnyHandle>, F::Error>
    requires owned { F.owned cx.old.rows folder.old }
    requires handle { IsPartOf cx.old.rows (handle_shape handle) }
    ensures still { F.touches_nothing cx.old.rows folder.old (handle_tree cx.old.rows handle) → cx.new ≡ cx.old }
    ensures goes { Goes F.owned F.meaning
        (IsAsked F.hooks (handle_tree cx.old.rows handle) handle)
        (λ s e s'. Fails F.hooks (errors_of F.Error.from_gives cx.new) s (handle_tree cx.old.rows handle) e s')
        cx.old folder.old result cx.new folder.new }
{
    if is_hooked(handle.table) {
        folder.core_term(cx, handle)
    } else {
        Ok(Step::Descend)
    }
}

// Enters the binder of a term, if it has one, and returns the frame of a term or a list, before its first child. A term
// without children and binder has no frame.
#[inline(always)]
pub(crate) fn open<M, F: Core<M>>(
    cx: &mut Interner,
    folder: &mut F,
    handle: AnyHandle,
) -> Result<Option<Frame>, F::Error>
    requires owned { F.owned cx.old.rows folder.old }
    requires handle { IsPartOf cx.old.rows (handle_shape handle) }
    ensures { Goes F.owned F.meaning
        (IsOpen F.hooks (handle_tree cx.old.rows handle) handle)
        (λ s e s'. InsideFails F.hooks (errors_of F.Error.from_gives cx.new) s (handle_tree cx.old.rows handle) e s')
        cx.old folder.old result cx.new folder.new }
{
    if handle.table.has_items() {
        Ok(Some(list_frame(cx, handle)))
    } else {
        open_term::<M, F>(cx, folder, handle)
    }
}

// Returns the frame of a list, before its first child.
#[inline(always)]
fn list_frame(cx: &Interner, list: AnyHandle) -> Frame
    requires list { IsPartOf cx.now.rows (handle_shape list) }
    requires items { IsTrue (has_items list.table) }
    ensures { IsNewFrame cx.now.rows list result }
{
    Frame {
        handle: list,
        count: cx.list_len(list),
        next: 0,
    }
}

// Does what `open` does, for a term.
#[inline(always)]
fn open_term<M, F: Core<M>>(
    cx: &mut Interner,
    folder: &mut F,
    handle: AnyHandle,
) -> Result<Option<Frame>, F::Error>
    requires owned { F.owned cx.old.rows folder.old }
    requires handle { IsPartOf cx.old.rows (handle_shape handle) }
    requires term { IsFalse (has_items handle.table) }
    ensures { Goes F.owned F.meaning
        (IsOpen F.hooks (handle_tree cx.old.rows handle) handle)
        (λ s e s'. InsideFails F.hooks (errors_of F.Error.from_gives cx.new) s (handle_tree cx.old.rows handle) e s')
        cx.old folder.old result cx.new folder.new }
{
    let contents = cx.node_parts(handle);
    if is_leaf(&contents) {
        return Ok(None);
    }
    enter::<M, F>(cx, folder, contents.bound_vars)?;
    Ok(Some(Frame {
        handle,
        count: walked_count(&contents.parts),
        next: 0,
    }))
}

// Returns how many children of a term are walked. An absent second one isn't.
#[inline(always)]
fn walked_count(parts: &Parts) -> usize
    ensures { result ≡ length (walked_parts parts.now) }
{
    match &parts.second {
        Child::Absent => 1,
        _ => 2,
    }
}

// Returns whether there are neither children nor a binder, so that the term need not be built again.
#[inline(always)]
pub(crate) fn is_leaf(contents: &Contents) -> bool
    ensures { IsTrue result ↔ IsChildless contents.now.bound_vars contents.now.parts }
{
    let parts = &contents.parts;
    contents.bound_vars.is_none() && is_absent(&parts.first) && is_absent(&parts.second)
}

// Enters the binder of a term, if it has one.
#[inline(always)]
pub(crate) fn enter<M, F: Core<M>>(
    cx: &mut Interner,
    folder: &mut F,
    binder: Option<BoundVarKinds>,
) -> Result<(), F::Error>
    requires owned { F.owned cx.old.rows folder.old }
    requires binder { HasBinder cx.old.rows binder }
    ensures { Goes F.owned F.meaning
        (λ _ _ s s'. Opens F.hooks (binder_in cx.old.rows binder) s s')
        (EnterFails F.hooks (errors_of F.Error.from_gives cx.new) (binder_in cx.old.rows binder))
        cx.old folder.old result cx.new folder.new }
{
    match binder {
        None => Ok(()),
        Some(vars) => folder.core_enter(cx, vars),
    }
}

// Calls the hook after the contents of a term or a list, if it has one.
#[inline(always)]
fn finish<M, F: Core<M>>(
    cx: &mut Interner,
    folder: &mut F,
    before: AnyHandle,
    rebuilt: AnyHandle,
) -> Result<AnyHandle, F::Error>
    requires owned { F.owned cx.old.rows folder.old }
    requires before { IsPartOf cx.old.rows (handle_shape before) }
    requires rebuilt { IsStoredFor before cx.old.rows rebuilt }
    ensures { FinishesItem F.owned F.meaning F.hooks F.Error.from_gives
        before rebuilt cx.old folder.old result cx.new folder.new }
{
    match before.table {
        TermTable::Types | TermTable::TypeLists => {
            finish_item::<M, F>(cx, folder, before, rebuilt)
        }
        _ => finish_other::<M, F>(cx, folder, before, rebuilt),
    }
}

// Calls the hook after the contents of a term or a list of any table, outside of the loop.
#[inline(never)]
pub(crate) fn finish_other<M, F: Core<M>>(
    cx: &mut Interner,
    folder: &mut F,
    before: AnyHandle,
    rebuilt: AnyHandle,
) -> Result<AnyHandle, F::Error>
    requires owned { F.owned cx.old.rows folder.old }
    requires before { IsPartOf cx.old.rows (handle_shape before) }
    requires rebuilt { IsStoredFor before cx.old.rows rebuilt }
    ensures { FinishesItem F.owned F.meaning F.hooks F.Error.from_gives
        before rebuilt cx.old folder.old result cx.new folder.new }
{
    finish_item::<M, F>(cx, folder, before, rebuilt)
}

// Calls the hook after the contents of a term or a list of any table.
#[inline(always)]
fn finish_item<M, F: Core<M>>(
    cx: &mut Interner,
    folder: &mut F,
    before: AnyHandle,
    rebuilt: AnyHandle,
) -> Result<AnyHandle, F::Error>
    requires owned { F.owned cx.old.rows folder.old }
    requires before { IsPartOf cx.old.rows (handle_shape before) }
    requires rebuilt { IsStoredFor before cx.old.rows rebuilt }
    ensures { FinishesItem F.owned F.meaning F.hooks F.Error.from_gives
        before rebuilt cx.old folder.old result cx.new folder.new }
{
    if is_hooked(before.table) {
        folder.core_after_term(cx, before, rebuilt)
    } else {
        Ok(rebuilt)
    }
}

// Walks the children of a term or a list, and returns the term or the list that is built from their results.
#[inline(never)]
pub(crate) fn fold_frames<M, F: Core<M>>(
    cx: &mut Interner,
    folder: &mut F,
    first: Frame,
) -> Result<AnyHandle, F::Error>
    requires owned { F.owned cx.old.rows folder.old }
    requires frame { IsFoldFrame cx.old.rows first }
    requires start { first.next ≡ 0 }
    ensures { Goes F.owned F.meaning
        (λ rows y s s'. IsStoredFor first.handle rows y
        × Rests F.hooks (outline_of cx.old.rows first.handle) (left_of cx.old.rows first) s (handle_tree rows y) s')
        (RestFails F.hooks
        (errors_of F.Error.from_gives cx.new)
        (outline_of cx.old.rows first.handle)
        (left_of cx.old.rows first))
        cx.old folder.old result cx.new folder.new }
{
    let mut frames: Frames = SmallVec::new(cx.allocator());
    let mut values: Values = SmallVec::new(cx.allocator());
    let mut frame = first;
    'walk: loop {
        if frame.next < frame.count {
            let child = next_child(cx, &frame);
            frame.next += 1;
            match child {
                Child::Stored(handle) => match handle.table {
                    TermTable::Types => {
                        let begun = begin_stored::<M, F>(cx, folder, handle)?;
                        advance(cx, &mut frames, &mut frame, &mut values, begun)?;
                    }
                    TermTable::TypeLists => {
                        let begun = Begun::Inside(list_frame(cx, handle));
                        advance(cx, &mut frames, &mut frame, &mut values, begun)?;
                    }
                    _ => {
                        let begun = begin_other::<M, F>(cx, folder, handle)?;
                        advance(cx, &mut frames, &mut frame, &mut values, begun)?;
                    }
                },
                Child::Region(region) => {
                    let new_region = folder.core_region(cx, region)?;
                    keep(cx, &frame, &mut values, Child::Region(new_region))?;
                }
                Child::Absent => keep(cx, &frame, &mut values, Child::Absent)?,
            }
        } else {
            let rebuilt = rebuild::<M, F>(cx, folder, &frame, &mut values)?;
            match frames.pop() {
                None => return Ok(rebuilt),
                Some(outer) => {
                    let value = finish::<M, F>(cx, folder, frame.handle, rebuilt)?;
                    frame = outer;
                    keep(cx, &frame, &mut values, Child::Stored(value))?;
                }
            }
        }
    }
}

// Returns the child that is begun next.
#[inline(always)]
fn next_child(cx: &Interner, frame: &Frame) -> Child
    requires frame { IsFoldFrame cx.now.rows frame.now }
    requires more { frame.now.next < frame.now.count }
    ensures { slice_get (children_in cx.now.rows frame.now) frame.now.next ≡ Some result }
{
    match frame.handle.table {
        TermTable::Types => term_child(cx, frame),
        TermTable::TypeLists => cx.list_child(frame.handle, frame.next),
        _ => child_by_call(cx, frame),
    }
}

// Returns the child that is begun next, of a term or a list of any table, by a call. The result is copied, so that it
// doesn't share a place in memory with the results of the other arms.
#[inline(always)]
fn child_by_call(cx: &Interner, frame: &Frame) -> Child
    requires frame { IsFoldFrame cx.now.rows frame.now }
    requires more { frame.now.next < frame.now.count }
    ensures { slice_get (children_in cx.now.rows frame.now) frame.now.next ≡ Some result }
{
    let child = other_child(cx, frame);
    child
}

// Returns the child of a term that is begun next.
#[inline(always)]
fn term_child(cx: &Interner, frame: &Frame) -> Child
    requires frame { IsFoldFrame cx.now.rows frame.now }
    requires more { frame.now.next < frame.now.count }
    requires term { IsFalse (has_items frame.now.handle.table) }
    ensures { slice_get (children_in cx.now.rows frame.now) frame.now.next ≡ Some result }
{
    let contents = cx.node_parts(frame.handle);
    if frame.next == 0 {
        contents.parts.first
    } else {
        contents.parts.second
    }
}

// Returns the child that is begun next, of a term or a list of any table. If this function were inlined, the loop would
// find the rows of each table at each child.
#[inline(never)]
fn other_child(cx: &Interner, frame: &Frame) -> Child
    requires frame { IsFoldFrame cx.now.rows frame.now }
    requires more { frame.now.next < frame.now.count }
    ensures { slice_get (children_in cx.now.rows frame.now) frame.now.next ≡ Some result }
{
    if frame.handle.table.has_items() {
        cx.list_child(frame.handle, frame.next)
    } else {
        term_child(cx, frame)
    }
}

// Keeps the result of a child of the frame, or suspends the frame and goes on with the child's contents.
#[inline(always)]
fn advance(
    cx: &Interner,
    frames: &mut Frames,
    frame: &mut Frame,
    values: &mut Values,
    begun: Begun,
) -> Result<(), Refusal>
    requires frame { IsFoldFrame cx.now.rows frame.old }
    requires begun { IsFrameOrResult cx.now.rows frame.old begun }
    ensures advanced { OnOk result (HasAdvanced
        cx.now.rows
        frame.old
        frames.old.items
        values.old.items
        begun
        frame.new
        frames.new.items
        values.new.items) }
    ensures stuck { IfErr result (IsStuck cx.now.rows frame.old begun) }
{
    match begun {
        Begun::Done(value) => keep(cx, frame, values, Child::Stored(value)),
        Begun::Inside(inner) => {
            suspend(frames, frame)?;
            *frame = inner;
            Ok(())
        }
    }
}

// Keeps the result of a child of the frame. The result of an item of a list of clauses has to be a clause.
#[inline(always)]
fn keep(cx: &Interner, frame: &Frame, values: &mut Values, value: Child) -> Result<(), Refusal>
    requires frame { IsFoldFrame cx.now.rows frame.now }
    requires child { IsResult cx.now.rows frame.now value }
    ensures kept { OnOk result (values.new.items ≡ values.old.items ++ value ∷ []) }
    ensures wanted { OnOk result
        (HasUnwanted (wanted_by (outline_of cx.now.rows frame.now.handle)) (child_trees cx.now.rows value) → ⊥) }
    ensures failed { IfErr result
        (IsNotKept (wanted_by (outline_of cx.now.rows frame.now.handle)) (child_trees cx.now.rows value)) }
{
    // Only predicates are items of lists of clauses. Where this function is inlined, the sort of the value is mostly
    // known.
    if is_predicate(&value) && frame.handle.table.has_items() {
        check_item(cx, frame.handle.table, &value)?;
    }
    values.push(value)?;
    Ok(())
}

// Keeps a frame until the child that was begun is done.
#[inline(always)]
fn suspend(frames: &mut Frames, frame: &Frame) -> Result<(), Refusal>
    ensures kept { OnOk result (frames.new.items ≡ frames.old.items ++ frame.now ∷ []) }
    ensures memory { IfErr result (λ e. e ≡ Memory) }
{
    // There is room in most cases, and `reserve` is a call.
    if frames.len() == frames.capacity() {
        frames.reserve(1)?;
    }
    frames.push_reserved(Frame {
        handle: frame.handle,
        count: frame.count,
        next: frame.next,
    });
    Ok(())
}
