//! The terms and lists that a fold builds from the results of their children.

ghost use Rattle.std.specs.Prelude.{◌≡◌, ◌<◌, ◌≤◌, ◌-◌, None, length, OnOk, Some, take, IsFalse, IsTrue};
ghost use Rattle.tt_fold.specs.Steps.{errors_of, Goes};
ghost use Rattle.tt_fold.specs.Parts.{binder_in, HasBinder};
ghost use Rattle.tt_kinds.specs.TermTable.{has_items};
ghost use Rattle.tt_fold.specs.Stack.{LeaveFails, Leaves};
ghost use Rattle.tt_fold.specs.Going.{Holds, last_of, parts_of, RebuildsFrame};

use crate::core_folder::Core;
use crate::stack::{Frame, Values};
use tt_interner::Interner;
use tt_kinds::{AnyHandle, BoundVarKinds, Child, Parts, TermTable};

// Builds a term or a list from the results of its children, which are the last values.
#[inline(always)]
pub(crate) fn rebuild<M, F: Core<M>>(
    cx: &mut Interner,
    folder: &mut F,
    frame: &Frame,
    values: &mut Values,
) -> Result<AnyHandle, F::Error>
    requires owned { F.owned cx.old.rows folder.old }
    requires holds { Holds cx.old.rows frame.now (last_of frame.now.count values.old.items) }
    requires full { frame.now.count ≤ length values.old.items }
    ensures values { OnOk result
        (values.new.items ≡ take (length values.old.items - frame.now.count) values.old.items) }
    ensures goes { RebuildsFrame F.owned F.meaning F.hooks F.Error.from_gives
        frame.now (last_of frame.now.count values.old.items) cx.old folder.old result cx.new folder.new }
{
    match frame.handle.table {
        TermTable::Types => rebuild_term::<M, F>(cx, folder, frame, values),
        TermTable::TypeLists => rebuild_list::<M, F>(cx, folder, frame, values),
        _ => rebuild_by_call::<M, F>(cx, folder, frame, values),
    }
}

// Builds a term or a list of any table, by a call. The argument and the result are copied, so that they share no place
// in memory with those of the other arms.
#[inline(always)]
fn rebuild_by_call<M, F: Core<M>>(
    cx: &mut Interner,
    folder: &mut F,
    frame: &Frame,
    values: &mut Values,
) -> Result<AnyHandle, F::Error>
    requires owned { F.owned cx.old.rows folder.old }
    requires holds { Holds cx.old.rows frame.now (last_of frame.now.count values.old.items) }
    requires full { frame.now.count ≤ length values.old.items }
    ensures values { OnOk result
        (values.new.items ≡ take (length values.old.items - frame.now.count) values.old.items) }
    ensures goes { RebuildsFrame F.owned F.meaning F.hooks F.Error.from_gives
        frame.now (last_of frame.now.count values.old.items) cx.old folder.old result cx.new folder.new }
{
    let copied = *frame;
    let rebuilt = rebuild_other::<M, F>(cx, folder, &copied, values)?;
    Ok(rebuilt)
}

// Builds a term or a list of any table from the results of its children, outside of the loop.
#[inline(never)]
fn rebuild_other<M, F: Core<M>>(
    cx: &mut Interner,
    folder: &mut F,
    frame: &Frame,
    values: &mut Values,
) -> Result<AnyHandle, F::Error>
    requires owned { F.owned cx.old.rows folder.old }
    requires holds { Holds cx.old.rows frame.now (last_of frame.now.count values.old.items) }
    requires full { frame.now.count ≤ length values.old.items }
    ensures values { OnOk result
        (values.new.items ≡ take (length values.old.items - frame.now.count) values.old.items) }
    ensures goes { RebuildsFrame F.owned F.meaning F.hooks F.Error.from_gives
        frame.now (last_of frame.now.count values.old.items) cx.old folder.old result cx.new folder.new }
{
    if frame.handle.table.has_items() {
        rebuild_list::<M, F>(cx, folder, frame, values)
    } else {
        rebuild_term::<M, F>(cx, folder, frame, values)
    }
}

// Builds a list from the results of its items.
#[inline(always)]
fn rebuild_list<M, F: Core<M>>(
    cx: &mut Interner,
    folder: &F,
    frame: &Frame,
    values: &mut Values,
) -> Result<AnyHandle, F::Error>
    requires owned { F.owned cx.old.rows folder.now }
    requires holds { Holds cx.old.rows frame.now (last_of frame.now.count values.old.items) }
    requires list { IsTrue (has_items frame.now.handle.table) }
    requires full { frame.now.count ≤ length values.old.items }
    ensures values { OnOk result
        (values.new.items ≡ take (length values.old.items - frame.now.count) values.old.items) }
    ensures goes { RebuildsFrame F.owned F.meaning F.hooks F.Error.from_gives
        frame.now (last_of frame.now.count values.old.items) cx.old folder.now result cx.new folder.now }
{
    let results = last_values(values, frame.count);
    let new_list = cx.store_list(frame.handle.table, results)?;
    drop_values(values, frame.count);
    Ok(new_list)
}

// Leaves the binder of a term, if it has one.
#[inline(always)]
pub(crate) fn leave<M, F: Core<M>>(
    cx: &mut Interner,
    folder: &mut F,
    binder: Option<BoundVarKinds>,
) -> Result<(), F::Error>
    requires owned { F.owned cx.old.rows folder.old }
    requires binder { HasBinder cx.old.rows binder }
    ensures { Goes F.owned F.meaning
        (λ _ _ s s'. Leaves F.hooks (binder_in cx.old.rows binder) s s')
        (LeaveFails F.hooks (errors_of F.Error.from_gives cx.new) (binder_in cx.old.rows binder))
        cx.old folder.old result cx.new folder.new }
{
    match binder {
        None => Ok(()),
        Some(vars) => folder.core_leave(cx, vars),
    }
}

// Builds a term from the results of its children.
#[inline(always)]
fn rebuild_term<M, F: Core<M>>(
    cx: &mut Interner,
    folder: &mut F,
    frame: &Frame,
    values: &mut Values,
) -> Result<AnyHandle, F::Error>
    requires owned { F.owned cx.old.rows folder.old }
    requires holds { Holds cx.old.rows frame.now (last_of frame.now.count values.old.items) }
    requires term { IsFalse (has_items frame.now.handle.table) }
    requires full { frame.now.count ≤ length values.old.items }
    ensures values { OnOk result
        (values.new.items ≡ take (length values.old.items - frame.now.count) values.old.items) }
    ensures goes { RebuildsFrame F.owned F.meaning F.hooks F.Error.from_gives
        frame.now (last_of frame.now.count values.old.items) cx.old folder.old result cx.new folder.new }
{
    let contents = cx.node_parts(frame.handle);
    leave::<M, F>(cx, folder, contents.bound_vars)?;
    // The values are read where they are, and dropped once the term is stored.
    let parts = last_parts(values, frame.count);
    let new_term = cx.store_like(frame.handle, parts)?;
    drop_values(values, frame.count);
    Ok(new_term)
}

// Returns the last values, the results of a term's children, as its parts.
#[inline(always)]
fn last_parts(values: &Values, count: usize) -> Parts
    requires some { 0 < count }
    requires full { count ≤ length values.now.items }
    ensures { result ≡ parts_of (last_of count values.now.items) }
{
    let last = last_values(values, count);
    let second = if count == 1 { Child::Absent } else { last[1] };
    Parts {
        first: last[0],
        second,
    }
}

// Drops the last `count` values.
#[inline(always)]
fn drop_values(values: &mut Values, count: usize)
    requires { count ≤ length values.old.items }
    ensures { values.new.items ≡ take (length values.old.items - count) values.old.items }
{
    values.truncate(values.len() - count);
}

// Returns the last `count` values.
#[inline(always)]
fn last_values(values: &Values, count: usize) -> &[Child]
    requires { count ≤ length values.now.items }
    ensures { result.now ≡ last_of count values.now.items }
{
    let start = values.len() - count;
    &values.as_slice()[start..]
}
