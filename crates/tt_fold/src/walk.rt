//! The walk of stored terms, which every fold uses.
//!
//! The walk reads the parts of kinds, so it has no code for any single kind.

ghost use Rattle.std.specs.Prelude.{IsTrue, Some};
ghost use Rattle.tt_kinds.specs.TermTable.{is_term};
ghost use Rattle.tt_kinds.specs.Kinds.{child_shapes, parts_shapes, handle_shape};
ghost use Rattle.tt_fold.specs.Walk.{
  any_trees,
  ChildFails,
  Fails,
  FailsAll,
  FailsUnder,
  InsideFails,
  Walks,
  WalksAll,
  WalksInside,
  WalksUnder,
};
ghost use Rattle.tt_fold.specs.Steps.{Folds, HasVars, IsPartOf, vars_in, errors_of};
ghost use Rattle.tt_fold.specs.Still.{StaysStill};
ghost use Rattle.tt_fold.specs.Items.{child_shape};
ghost use Rattle.tt_fold.specs.Parts.{
  ArePartsFor,
  ArePartsOf,
  binder_in,
  child_trees,
  HasBinder,
  IsChildFor,
  IsStoredFor,
  parts_trees,
  handle_tree,
};

use crate::calls::{LEVELS, fold_stored_within, fold_within};
use crate::core_folder::Core;
use crate::stack::{fold_frames, open};
use tt_interner::Interner;
use tt_kinds::{AnyHandle, BoundVarKinds, Child, Parts};

// Walks a stored term or list. This function is inlined, so that a type whose hook replaces or keeps it costs no call.
#[inline(always)]
pub(crate) fn fold_stored<M, F: Core<M>>(
    cx: &mut Interner,
    folder: &mut F,
    handle: AnyHandle,
) -> Result<AnyHandle, F::Error>
    requires owned { F.owned cx.old.rows folder.old }
    requires handle { IsPartOf cx.old.rows (handle_shape handle) }
    ensures still { StaysStill F.hooks F.touches_nothing F.meaning (handle_shape handle) cx.old folder.old cx.new }
    ensures folds { Folds F.owned F.meaning (IsStoredFor handle) handle_tree
        (Walks F.hooks) (Fails F.hooks (errors_of F.Error.from_gives cx.new))
        cx.old folder.old handle result cx.new folder.new }
{
    fold_stored_within::<M, F>(cx, folder, handle, LEVELS)
}

// Walks the contents of a term, and returns the term with their results.
#[inline(never)]
pub(crate) fn fold_inside<M, F: Core<M>>(
    cx: &mut Interner,
    folder: &mut F,
    handle: AnyHandle,
) -> Result<AnyHandle, F::Error>
    requires owned { F.owned cx.old.rows folder.old }
    requires handle { IsPartOf cx.old.rows (handle_shape handle) }
    requires term { IsTrue (is_term handle.table) }
    ensures { Folds F.owned F.meaning (IsStoredFor handle) handle_tree
        (WalksInside F.hooks) (InsideFails F.hooks (errors_of F.Error.from_gives cx.new))
        cx.old folder.old handle result cx.new folder.new }
{
    let opened = open::<M, F>(cx, folder, handle)?;
    match opened {
        None => Ok(handle),
        Some(frame) => fold_frames::<M, F>(cx, folder, frame),
    }
}

// Walks parts, under their binder if they have one.
#[inline(always)]
pub(crate) fn fold_contents<M, F: Core<M>>(
    cx: &mut Interner,
    folder: &mut F,
    binder: Option<BoundVarKinds>,
    parts: Parts,
) -> Result<Parts, F::Error>
    requires owned { F.owned cx.old.rows folder.old }
    requires binder { HasBinder cx.old.rows binder }
    requires parts { ArePartsOf cx.old.rows (parts_shapes parts) }
    ensures { Folds F.owned F.meaning (ArePartsFor parts) parts_trees
        (WalksUnder F.hooks (binder_in cx.old.rows binder))
        (FailsUnder F.hooks (errors_of F.Error.from_gives cx.new) (binder_in cx.old.rows binder))
        cx.old folder.old parts result cx.new folder.new }
{
    match binder {
        None => fold_parts::<M, F>(cx, folder, parts),
        Some(vars) => fold_under::<M, F>(cx, folder, vars, parts),
    }
}

// Walks parts under a binder.
fn fold_under<M, F: Core<M>>(
    cx: &mut Interner,
    folder: &mut F,
    vars: BoundVarKinds,
    parts: Parts,
) -> Result<Parts, F::Error>
    requires owned { F.owned cx.old.rows folder.old }
    requires vars { HasVars cx.old.rows vars }
    requires parts { ArePartsOf cx.old.rows (parts_shapes parts) }
    ensures { Folds F.owned F.meaning (ArePartsFor parts) parts_trees
        (WalksUnder F.hooks (Some (vars_in cx.old.rows vars)))
        (FailsUnder F.hooks (errors_of F.Error.from_gives cx.new) (Some (vars_in cx.old.rows vars)))
        cx.old folder.old parts result cx.new folder.new }
{
    folder.core_enter(cx, vars)?;
    let new_parts = fold_parts::<M, F>(cx, folder, parts)?;
    folder.core_leave(cx, vars)?;
    Ok(new_parts)
}

// Walks parts in order.
#[inline(always)]
pub(crate) fn fold_parts<M, F: Core<M>>(
    cx: &mut Interner,
    folder: &mut F,
    parts: Parts,
) -> Result<Parts, F::Error>
    requires owned { F.owned cx.old.rows folder.old }
    requires parts { ArePartsOf cx.old.rows (parts_shapes parts) }
    ensures { Folds F.owned F.meaning (ArePartsFor parts) parts_trees
        (WalksAll F.hooks) (FailsAll F.hooks (errors_of F.Error.from_gives cx.new) any_trees)
        cx.old folder.old parts result cx.new folder.new }
{
    let first = fold_child::<M, F>(cx, folder, parts.first)?;
    let second = fold_child::<M, F>(cx, folder, parts.second)?;
    Ok(Parts { first, second })
}

// Walks a child.
#[inline(always)]
pub(crate) fn fold_child<M, F: Core<M>>(
    cx: &mut Interner,
    folder: &mut F,
    child: Child,
) -> Result<Child, F::Error>
    requires owned { F.owned cx.old.rows folder.old }
    requires child { ArePartsOf cx.old.rows (child_shapes child) }
    ensures still { StaysStill F.hooks F.touches_nothing F.meaning (child_shape child) cx.old folder.old cx.new }
    ensures folds { Folds F.owned F.meaning (IsChildFor child) child_trees
        (WalksAll F.hooks) (ChildFails F.hooks (errors_of F.Error.from_gives cx.new))
        cx.old folder.old child result cx.new folder.new }
{
    fold_within::<M, F>(cx, folder, &child, LEVELS)
}
