//! Folders that replace types alone.

ghost use Rattle.tt_kinds.specs.Kinds.{ty_shape};
ghost use Rattle.tt_kinds.specs.Shape.{Shape};
ghost use Rattle.tt_kinds.specs.Tree.{Depth, Tree};
ghost use Rattle.tt_interner.specs.Stored.{Extends};
ghost use Rattle.tt_visit.specs.Data.{no_handles};
ghost use Rattle.tt_fold.specs.Counts.{Standing};
ghost use Rattle.tt_fold.specs.Types.{no_type_promise, only_types, AnswersType, TypeHooks};
ghost use Rattle.tt_fold.specs.Steps.{Folds, IsPartBy, IsPartOf, tree_by, errors_of};
ghost use Rattle.tt_fold.specs.Walk.{Fails, Walks};

use crate::core_folder::Core;
use crate::foldable::TypeFoldable;
use crate::folder::Step;
use crate::step_of_handle::step_of;
use tt_index::Refusal;
use tt_interner::Interner;
use tt_kinds::{AnyHandle, BoundVarKinds, Region, TermTable, Ty};

/// A folder that replaces types alone: it keeps regions, and enters each other term and each binder, so one method is
/// enough. A fold is promised to be the walk of the folder's `hooks`: with the default, which promises nothing, nothing
/// is known of the types that the fold puts in. State `hooks` where a proof has to know them.
///
/// [`replace_types`] folds a value with such a folder. A folder that has to know the binders around a type implements
/// [`Replacer`](crate::Replacer) instead, and one that has to know the rebuilt type [`TypeFolder`](crate::TypeFolder).
pub trait TypeReplacer {
    /// The error of the folder: [`Refusal`] if it has no errors of its own.
    type Error: From<Refusal> + Drop;

    // The handles in a state; a folder that holds none keeps the default.
    ghost shape: { Self → Shape } = { λ s. no_handles };

    // What the hook promises, as relations on the trees of the handles; the default promises nothing.
    ghost hooks: { TypeHooks (Standing (Tree Depth)) Self.Error } = { no_type_promise };

    /// Called at each type, before its contents: returns whether to replace, keep or enter it.
    fn replace_ty(&mut self, cx: &mut Interner, ty: Ty) -> Result<Step<Ty>, Self::Error>
        requires owned { IsPartOf cx.old.rows (shape self.old) }
        requires ty { IsPartOf cx.old.rows (ty_shape ty) }
        ensures extends { Extends cx.old cx.new }
        ensures owned { IsPartOf cx.new.rows (shape self.new) }
        ensures result { AnswersType (tree_by shape) hooks Self.Error.from_gives
            cx.old self.old ty result cx.new self.new };
}

/// The mark of [`TypeReplacer`].
pub struct Types;

impl<F: TypeReplacer> Core<Types> for F {
    type Error = F::Error;

    ghost use Rattle.tt_interner.proofs.Growth.{IsPart-grows, fill-grows};

    ghost Meaning = { Tree Depth };

    ghost meaning = { tree_by F.TypeReplacer.shape };

    ghost owned = { IsPartBy F.TypeReplacer.shape };

    ghost hooks = { only_types F.TypeReplacer.hooks };

    #[inline(always)]
    fn core_region(&mut self, _cx: &mut Interner, region: Region) -> Result<Region, F::Error> {
        Ok(region)
    }

    #[inline(always)]
    fn core_term(
        &mut self,
        cx: &mut Interner,
        handle: AnyHandle,
    ) -> Result<Step<AnyHandle>, F::Error> {
        match handle.table {
            TermTable::Types => step_of(self.replace_ty(cx, handle.typed())),
            _ => Ok(Step::Descend),
        }
    }

    #[inline(always)]
    fn core_after_term(
        &mut self,
        _cx: &mut Interner,
        _before: AnyHandle,
        rebuilt: AnyHandle,
    ) -> Result<AnyHandle, F::Error> {
        Ok(rebuilt)
    }

    #[inline(always)]
    fn core_enter(&mut self, _cx: &mut Interner, _vars: BoundVarKinds) -> Result<(), F::Error> {
        Ok(())
    }

    #[inline(always)]
    fn core_leave(&mut self, _cx: &mut Interner, _vars: BoundVarKinds) -> Result<(), F::Error> {
        Ok(())
    }

    ghost still_owned = { λ old new s g h. IsPart-grows old new g.grows (F.TypeReplacer.shape s) h };

    ghost still_means = { λ old new s g h. fill-grows old new g.grows (F.TypeReplacer.shape s) h };
}

/// Returns the value with its types replaced by the folder's results. The types are visited in order, each before its
/// contents. The folder's first error ends the fold, and so does a refusal to build the result, with `Memory` or with
/// `TableFull`.
pub fn replace_types<T: TypeFoldable, F: TypeReplacer>(
    cx: &mut Interner,
    value: T,
    folder: &mut F,
) -> Result<T, F::Error>
    requires state { IsPartBy F.shape cx.old.rows folder.old }
    requires value { IsPartBy T.shape cx.old.rows value }
    ensures { Folds (IsPartBy F.shape) (tree_by F.shape) (IsPartBy T.shape) (tree_by T.shape)
        (Walks (only_types F.hooks)) (Fails (only_types F.hooks) (errors_of F.Error.from_gives cx.new))
        cx.old folder.old value result cx.new folder.new }
{
    value.fold_core::<Types, F>(cx, folder)
}
