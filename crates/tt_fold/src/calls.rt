//! The walk of the outermost types and lists of types, by calls. The loop of module `stack` walks what is deeper, and
//! all other terms and lists.

ghost use Rattle.std.specs.Prelude.{◌≡◌, ◌<◌, ◌++◌, ◌∷◌, [], Some, length, slice_get, IfErr, OnOk};
ghost use Rattle.std.specs.Prelude.{List as Listed};
ghost use Rattle.tt_index.specs.declared.refusal.Refusal.TheVariants.{Memory};
ghost use Rattle.tt_kinds.specs.Kinds.{child_shapes, handle_shape, ty_shape, tys_shape};
ghost use Rattle.tt_kinds.specs.Handle.{any_handle, Ty};
ghost use Rattle.tt_kinds.specs.declared.table.TermTable.TheVariants as terms_of;
ghost use Rattle.tt_kinds.specs.declared.table.Table.TheVariants.{TypeLists};
ghost use Rattle.tt_interner.specs.Rows.{size, tys_row};
ghost use Rattle.tt_interner.specs.Stored.{IsAt};
ghost use Rattle.tt_fold.specs.Walk.{
  ChildFails,
  Descends,
  DescentFails,
  Fails,
  InsideFails,
  Walks,
  WalksAll,
  WalksInside,
};
ghost use Rattle.tt_fold.specs.Steps.{errors_of, Folds, IsPartBy, IsPartOf, tree_by};
ghost use Rattle.tt_fold.specs.Still.{StaysStill};
ghost use Rattle.tt_fold.specs.Items.{child_shape};
ghost use Rattle.tt_fold.specs.Parts.{ArePartsOf, child_trees, IsChildFor, IsStoredFor, handle_tree};

use crate::core_folder::Core;
use crate::folder::Step;
use crate::rebuild::leave;
use crate::stack::{Begun, begin_other, enter, finish_other, fold_frames, is_leaf};
use crate::walk::fold_inside;
use smallvec::SmallVec;
use tt_index::Refusal;
use tt_interner::{InternedList, Interner};
use tt_kinds::{AnyHandle, Child, Parts, TermTable, Ty, Tys};

// How many types deep a walk goes by calls. Each level, with a list of types inside of it, takes less than a kilobyte
// of the machine's stack.
pub(crate) const LEVELS: u32 = 512;

// The results of the types of a list. A short list needs no allocation.
type Types = SmallVec<Ty, 8>;

// Walks a child.
#[cycle(calls)]
#[inline(always)]
pub(crate) fn fold_within<M, F: Core<M>>(
    cx: &mut Interner,
    folder: &mut F,
    child: &Child,
    levels: u32,
) -> Result<Child, F::Error>
    requires owned { F.owned cx.old.rows folder.old }
    requires child { ArePartsOf cx.old.rows (child_shapes child.now) }
    ensures still { StaysStill F.hooks F.touches_nothing F.meaning (child_shape child.now) cx.old folder.old cx.new }
    ensures folds { Folds F.owned F.meaning (IsChildFor child.now) child_trees
        (WalksAll F.hooks) (ChildFails F.hooks (errors_of F.Error.from_gives cx.new))
        cx.old folder.old child.now result cx.new folder.new }
{
    match child {
        Child::Stored(handle) => {
            let folded = fold_stored_within::<M, F>(cx, folder, *handle, levels)?;
            Ok(Child::Stored(folded))
        }
        Child::Region(region) => {
            let new_region = folder.core_region(cx, *region)?;
            Ok(Child::Region(new_region))
        }
        Child::Absent => Ok(Child::Absent),
    }
}

// Walks a stored term or list: a type or a list of types by calls, any other by the loop.
#[cycle(calls)]
#[inline(always)]
pub(crate) fn fold_stored_within<M, F: Core<M>>(
    cx: &mut Interner,
    folder: &mut F,
    handle: AnyHandle,
    levels: u32,
) -> Result<AnyHandle, F::Error>
    requires owned { F.owned cx.old.rows folder.old }
    requires handle { IsPartOf cx.old.rows (handle_shape handle) }
    ensures still { StaysStill F.hooks F.touches_nothing F.meaning (handle_shape handle) cx.old folder.old cx.new }
    ensures folds { Folds F.owned F.meaning (IsStoredFor handle) handle_tree
        (Walks F.hooks) (Fails F.hooks (errors_of F.Error.from_gives cx.new))
        cx.old folder.old handle result cx.new folder.new }
{
    match handle.table {
        TermTable::Types => {
            let new_ty = fold_ty::<M, F>(cx, folder, handle.typed(), levels)?;
            Ok(new_ty.any())
        }
        TermTable::TypeLists => {
            let new_tys = fold_tys::<M, F>(cx, folder, handle.typed(), levels)?;
            Ok(new_tys.any())
        }
        _ => fold_by_loop::<M, F>(cx, folder, handle),
    }
}

// Walks a term or a list by the loop. A term whose hook replaces or keeps it needs no stack.
#[inline(never)]
fn fold_by_loop<M, F: Core<M>>(
    cx: &mut Interner,
    folder: &mut F,
    handle: AnyHandle,
) -> Result<AnyHandle, F::Error>
    requires owned { F.owned cx.old.rows folder.old }
    requires handle { IsPartOf cx.old.rows (handle_shape handle) }
    ensures still { StaysStill F.hooks F.touches_nothing F.meaning (handle_shape handle) cx.old folder.old cx.new }
    ensures folds { Folds F.owned F.meaning (IsStoredFor handle) handle_tree
        (Walks F.hooks) (Fails F.hooks (errors_of F.Error.from_gives cx.new))
        cx.old folder.old handle result cx.new folder.new }
{
    let begun = begin_other::<M, F>(cx, folder, handle)?;
    match begun {
        Begun::Done(folded) => Ok(folded),
        Begun::Inside(frame) => {
            let rebuilt = fold_frames::<M, F>(cx, folder, frame)?;
            finish_other::<M, F>(cx, folder, handle, rebuilt)
        }
    }
}

// Walks a type. This function is inlined, so that a type whose hook replaces or keeps it costs no call.
#[cycle(calls)]
#[inline(always)]
fn fold_ty<M, F: Core<M>>(
    cx: &mut Interner,
    folder: &mut F,
    ty: Ty,
    levels: u32,
) -> Result<Ty, F::Error>
    requires owned { F.owned cx.old.rows folder.old }
    requires ty { IsPartOf cx.old.rows (ty_shape ty) }
    ensures still { StaysStill F.hooks F.touches_nothing F.meaning (ty_shape ty) cx.old folder.old cx.new }
    ensures folds { Folds F.owned F.meaning (IsPartBy ty_shape) (tree_by ty_shape)
        (Walks F.hooks) (Fails F.hooks (errors_of F.Error.from_gives cx.new))
        cx.old folder.old ty result cx.new folder.new }
{
    let step = folder.core_term(cx, ty.any())?;
    match step {
        Step::Replace(new) => Ok(new.typed()),
        Step::Keep => Ok(ty),
        Step::Descend => descend::<M, F>(cx, folder, ty, levels),
    }
}

// Walks a type whose hook answered `Descend`.
#[cycle(calls)]
#[inline(never)]
fn descend<M, F: Core<M>>(
    cx: &mut Interner,
    folder: &mut F,
    ty: Ty,
    levels: u32,
) -> Result<Ty, F::Error>
    requires owned { F.owned cx.old.rows folder.old }
    requires ty { IsPartOf cx.old.rows (ty_shape ty) }
    ensures { Folds F.owned F.meaning (IsPartBy ty_shape) (tree_by ty_shape)
        (Descends F.hooks) (DescentFails F.hooks (errors_of F.Error.from_gives cx.new))
        cx.old folder.old ty result cx.new folder.new }
{
    let rebuilt = fold_contents_of::<M, F>(cx, folder, ty, levels)?;
    let new_term = folder.core_after_term(cx, ty.any(), rebuilt)?;
    Ok(new_term.typed())
}

// Walks the contents of a type, and returns the type with their results. A type without children is kept. If no level
// is left, the loop walks the contents.
#[cycle(calls)]
#[inline(always)]
fn fold_contents_of<M, F: Core<M>>(
    cx: &mut Interner,
    folder: &mut F,
    ty: Ty,
    levels: u32,
) -> Result<AnyHandle, F::Error>
    requires owned { F.owned cx.old.rows folder.old }
    requires ty { IsPartOf cx.old.rows (ty_shape ty) }
    ensures { Folds F.owned F.meaning (IsStoredFor (any_handle terms_of.Types ty)) handle_tree
        (WalksInside F.hooks) (InsideFails F.hooks (errors_of F.Error.from_gives cx.new))
        cx.old folder.old (any_handle terms_of.Types ty) result cx.new folder.new }
{
    let handle = ty.any();
    if levels == 0 {
        return fold_inside::<M, F>(cx, folder, handle);
    }
    let contents = cx.node_parts(handle);
    if is_leaf(&contents) {
        return Ok(handle);
    }
    enter::<M, F>(cx, folder, contents.bound_vars)?;
    let first = fold_within::<M, F>(cx, folder, &contents.parts.first, levels - 1)?;
    let second = fold_within::<M, F>(cx, folder, &contents.parts.second, levels - 1)?;
    leave::<M, F>(cx, folder, contents.bound_vars)?;
    let rebuilt = cx.store_like(handle, Parts { first, second })?;
    Ok(rebuilt)
}

// Walks a list of types.
#[cycle(calls)]
#[inline(never)]
fn fold_tys<M, F: Core<M>>(
    cx: &mut Interner,
    folder: &mut F,
    tys: Tys,
    levels: u32,
) -> Result<Tys, F::Error>
    requires owned { F.owned cx.old.rows folder.old }
    requires tys { IsPartOf cx.old.rows (tys_shape tys) }
    ensures { Folds F.owned F.meaning (IsPartBy tys_shape) (tree_by tys_shape)
        (Walks F.hooks) (Fails F.hooks (errors_of F.Error.from_gives cx.new))
        cx.old folder.old tys result cx.new folder.new }
{
    let count = tys.as_slice(cx).len();
    let mut types: Types = SmallVec::new(cx.allocator());
    let mut next = 0;
    while next < count {
        let ty = type_at(cx, tys, next);
        next += 1;
        let new_ty = fold_ty::<M, F>(cx, folder, ty, levels)?;
        push_ty(&mut types, new_ty)?;
    }
    let new_tys = cx.mk_tys(types.as_slice())?;
    Ok(new_tys)
}

// Returns the type at this place of a list.
#[inline(always)]
fn type_at(cx: &Interner, tys: Tys, index: usize) -> Ty
    requires owned { tys.number < size cx.now.rows TypeLists }
    requires inside { (list : Listed Ty) → IsAt cx.now.rows (tys_row list) tys.number → index < length list }
    ensures { (list : Listed Ty) → IsAt cx.now.rows (tys_row list) tys.number → slice_get list index ≡ Some result }
{
    let items = tys.as_slice(cx);
    items[index]
}

// Adds a type.
#[inline(always)]
fn push_ty(types: &mut Types, ty: Ty) -> Result<(), Refusal>
    ensures ok { OnOk result (types.new.items ≡ types.old.items ++ ty ∷ []) }
    ensures memory { IfErr result (λ e. e ≡ Memory) }
{
    types.push(ty)?;
    Ok(())
}
