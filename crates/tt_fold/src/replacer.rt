//! Folders that replace types, regions and constants, and see binders.

ghost use Rattle.tt_kinds.specs.Kinds.{const_shape, region_shape, ty_shape};
ghost use Rattle.tt_kinds.specs.Shape.{Shape};
ghost use Rattle.tt_kinds.specs.Tree.{Depth, Tree};
ghost use Rattle.tt_interner.specs.Stored.{Extends};
ghost use Rattle.tt_visit.specs.Data.{no_handles};
ghost use Rattle.tt_fold.specs.Counts.{Standing};
ghost use Rattle.tt_fold.specs.Replacers.{no_promise, walk_hooks, ReplacerHooks};
ghost use Rattle.tt_fold.specs.Steps.{
  Folds,
  HasVars,
  IsPartBy,
  IsPartOf,
  tree_by,
  AnswersRegion,
  EntersBinder,
  LeavesBinder,
  errors_of,
};
ghost use Rattle.tt_fold.specs.Types.{AnswersStep, AnswersType};
ghost use Rattle.tt_fold.specs.Walk.{Fails, Walks};

use crate::core_folder::Core;
use crate::foldable::TypeFoldable;
use crate::folder::Step;
use crate::step_of_handle::step_of;
use tt_index::Refusal;
use tt_interner::Interner;
use tt_kinds::{AnyHandle, BoundVarKinds, Const, Region, TermTable, Ty};

/// A folder that replaces types, regions and constants, and is called at each binder. A fold is promised to be the walk
/// of the folder's `hooks`: with the default, which promises nothing, nothing is known of the values that the fold puts
/// in. State `hooks` where a proof has to know them.
///
/// The folder enters each predicate and each list of clauses, and keeps each rebuilt term. Results are put in
/// unshifted: a folder that has to shift them counts the binders. [`replace_terms`] folds a value with such a folder. A
/// folder that has to know a predicate or a rebuilt term implements [`TypeFolder`](crate::TypeFolder) instead.
///
/// Each method has to be written, since a default body could promise nothing exact. Where there is nothing to do, a
/// method returns `Ok(Step::Descend)` at a type or a constant, the region itself at a region, and `Ok(())` at a binder.
pub trait Replacer {
    /// The error of the folder: [`Refusal`] if it has no errors of its own.
    type Error: From<Refusal> + Drop;

    // The handles in a state; a folder that holds none keeps the default.
    ghost shape: { Self → Shape } = { λ s. no_handles };

    // What the hooks promise, as relations on the trees of the handles; the default promises nothing.
    ghost hooks: { ReplacerHooks (Standing (Tree Depth)) Self.Error } = { no_promise };

    /// Called at each type, before its contents: returns whether to replace, keep or enter it.
    fn replace_ty(&mut self, cx: &mut Interner, ty: Ty) -> Result<Step<Ty>, Self::Error>
        requires owned { IsPartOf cx.old.rows (shape self.old) }
        requires ty { IsPartOf cx.old.rows (ty_shape ty) }
        ensures extends { Extends cx.old cx.new }
        ensures owned { IsPartOf cx.new.rows (shape self.new) }
        ensures result { AnswersType (tree_by shape) hooks.types Self.Error.from_gives
            cx.old self.old ty result cx.new self.new };

    /// Called at each region: returns its replacement.
    fn replace_region(&mut self, cx: &mut Interner, region: Region) -> Result<Region, Self::Error>
        requires owned { IsPartOf cx.old.rows (shape self.old) }
        requires region { IsPartOf cx.old.rows (region_shape region) }
        ensures extends { Extends cx.old cx.new }
        ensures owned { IsPartOf cx.new.rows (shape self.new) }
        ensures result { AnswersRegion (tree_by shape) (walk_hooks hooks) Self.Error.from_gives
            cx.old self.old region result cx.new self.new };

    /// Called at each constant, before its contents: returns whether to replace, keep or enter it.
    fn replace_const(
        &mut self,
        cx: &mut Interner,
        constant: Const,
    ) -> Result<Step<Const>, Self::Error>
        requires owned { IsPartOf cx.old.rows (shape self.old) }
        requires constant { IsPartOf cx.old.rows (const_shape constant) }
        ensures extends { Extends cx.old cx.new }
        ensures owned { IsPartOf cx.new.rows (shape self.new) }
        ensures result { AnswersStep (tree_by shape) hooks.consts Self.Error.from_gives const_shape
            cx.old self.old constant result cx.new self.new };

    /// Called at each binder, before its value.
    fn enter_binder(&mut self, cx: &mut Interner, vars: BoundVarKinds) -> Result<(), Self::Error>
        requires owned { IsPartOf cx.old.rows (shape self.old) }
        requires vars { HasVars cx.old.rows vars }
        ensures extends { Extends cx.old cx.new }
        ensures owned { IsPartOf cx.new.rows (shape self.new) }
        ensures result { EntersBinder (tree_by shape) (walk_hooks hooks) Self.Error.from_gives
            cx.old self.old vars result cx.new self.new };

    /// Called at each binder, after its value; not called if the fold of the value fails.
    fn leave_binder(&mut self, cx: &mut Interner, vars: BoundVarKinds) -> Result<(), Self::Error>
        requires owned { IsPartOf cx.old.rows (shape self.old) }
        requires vars { HasVars cx.old.rows vars }
        ensures extends { Extends cx.old cx.new }
        ensures owned { IsPartOf cx.new.rows (shape self.new) }
        ensures result { LeavesBinder (tree_by shape) (walk_hooks hooks) Self.Error.from_gives
            cx.old self.old vars result cx.new self.new };
}

/// The mark of [`Replacer`].
pub struct AllSorts;

impl<F: Replacer> Core<AllSorts> for F {
    type Error = F::Error;

    ghost use Rattle.tt_interner.proofs.Growth.{IsPart-grows, fill-grows};

    ghost Meaning = { Tree Depth };

    ghost meaning = { tree_by F.Replacer.shape };

    ghost owned = { IsPartBy F.Replacer.shape };

    ghost hooks = { walk_hooks F.Replacer.hooks };

    #[inline(always)]
    fn core_region(&mut self, cx: &mut Interner, region: Region) -> Result<Region, F::Error> {
        self.replace_region(cx, region)
    }

    #[inline(always)]
    fn core_term(
        &mut self,
        cx: &mut Interner,
        handle: AnyHandle,
    ) -> Result<Step<AnyHandle>, F::Error> {
        match handle.table {
            TermTable::Types => step_of(self.replace_ty(cx, handle.typed())),
            TermTable::Consts => step_of(self.replace_const(cx, handle.typed())),
            _ => Ok(Step::Descend),
        }
    }

    #[inline(always)]
    fn core_after_term(
        &mut self,
        _cx: &mut Interner,
        _before: AnyHandle,
        rebuilt: AnyHandle,
    ) -> Result<AnyHandle, F::Error> {
        Ok(rebuilt)
    }

    fn core_enter(&mut self, cx: &mut Interner, vars: BoundVarKinds) -> Result<(), F::Error> {
        self.enter_binder(cx, vars)
    }

    fn core_leave(&mut self, cx: &mut Interner, vars: BoundVarKinds) -> Result<(), F::Error> {
        self.leave_binder(cx, vars)
    }

    ghost still_owned = { λ old new s g h. IsPart-grows old new g.grows (F.Replacer.shape s) h };

    ghost still_means = { λ old new s g h. fill-grows old new g.grows (F.Replacer.shape s) h };
}

/// Returns the value with its types, regions and constants replaced by the folder's results. They are visited in order,
/// each before its contents. The folder's first error ends the fold, and so does a refusal to build the result, with
/// `Memory` or with `TableFull`.
pub fn replace_terms<T: TypeFoldable, F: Replacer>(
    cx: &mut Interner,
    value: T,
    folder: &mut F,
) -> Result<T, F::Error>
    requires state { IsPartBy F.shape cx.old.rows folder.old }
    requires value { IsPartBy T.shape cx.old.rows value }
    ensures { Folds (IsPartBy F.shape) (tree_by F.shape) (IsPartBy T.shape) (tree_by T.shape)
        (Walks (walk_hooks F.hooks)) (Fails (walk_hooks F.hooks) (errors_of F.Error.from_gives cx.new))
        cx.old folder.old value result cx.new folder.new }
{
    value.fold_core::<AllSorts, F>(cx, folder)
}
