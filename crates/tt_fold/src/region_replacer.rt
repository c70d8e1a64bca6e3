//! Folders that replace regions alone.

ghost use Rattle.tt_kinds.specs.Kinds.{region_shape};
ghost use Rattle.tt_kinds.specs.Shape.{Shape};
ghost use Rattle.tt_kinds.specs.Tree.{Depth, Tree};
ghost use Rattle.tt_interner.specs.Stored.{Extends};
ghost use Rattle.tt_visit.specs.Data.{no_handles};
ghost use Rattle.tt_fold.specs.Counts.{Standing};
ghost use Rattle.tt_fold.specs.Regions.{no_region_promise, only_regions, RegionHooks};
ghost use Rattle.tt_fold.specs.Steps.{Folds, IsPartBy, IsPartOf, tree_by, AnswersRegion, errors_of};
ghost use Rattle.tt_fold.specs.Walk.{Fails, Walks};

use crate::core_folder::Core;
use crate::foldable::TypeFoldable;
use crate::folder::Step;
use tt_index::Refusal;
use tt_interner::Interner;
use tt_kinds::{AnyHandle, BoundVarKinds, Region};

/// A folder that replaces regions alone: it enters each term and each binder, so one method is enough. A fold is
/// promised to be the walk of the folder's `hooks`: with the default, which promises nothing, nothing is known of the
/// regions that the fold puts in. State `hooks` where a proof has to know them.
///
/// [`replace_regions`] folds a value with such a folder. A folder that has to know the binders around a region
/// implements [`Replacer`](crate::Replacer) instead.
pub trait RegionReplacer {
    /// The error of the folder: [`Refusal`] if it has no errors of its own.
    type Error: From<Refusal> + Drop;

    // The handles in a state; a folder that holds none keeps the default.
    ghost shape: { Self → Shape } = { λ s. no_handles };

    // What the hook promises, as relations on the trees of the handles; the default promises nothing.
    ghost hooks: { RegionHooks (Standing (Tree Depth)) Self.Error } = { no_region_promise };

    /// Called at each region: returns its replacement.
    fn replace_region(&mut self, cx: &mut Interner, region: Region) -> Result<Region, Self::Error>
        requires owned { IsPartOf cx.old.rows (shape self.old) }
        requires region { IsPartOf cx.old.rows (region_shape region) }
        ensures extends { Extends cx.old cx.new }
        ensures owned { IsPartOf cx.new.rows (shape self.new) }
        ensures result { AnswersRegion (tree_by shape) (only_regions hooks) Self.Error.from_gives
            cx.old self.old region result cx.new self.new };
}

/// The mark of [`RegionReplacer`].
pub struct Regions;

impl<F: RegionReplacer> Core<Regions> for F {
    type Error = F::Error;

    ghost use Rattle.tt_interner.proofs.Growth.{IsPart-grows, fill-grows};

    ghost Meaning = { Tree Depth };

    ghost meaning = { tree_by F.RegionReplacer.shape };

    ghost owned = { IsPartBy F.RegionReplacer.shape };

    ghost hooks = { only_regions F.RegionReplacer.hooks };

    fn core_region(&mut self, cx: &mut Interner, region: Region) -> Result<Region, F::Error> {
        self.replace_region(cx, region)
    }

    #[inline(always)]
    fn core_term(
        &mut self,
        _cx: &mut Interner,
        _handle: AnyHandle,
    ) -> Result<Step<AnyHandle>, F::Error> {
        Ok(Step::Descend)
    }

    #[inline(always)]
    fn core_after_term(
        &mut self,
        _cx: &mut Interner,
        _before: AnyHandle,
        rebuilt: AnyHandle,
    ) -> Result<AnyHandle, F::Error> {
        Ok(rebuilt)
    }

    #[inline(always)]
    fn core_enter(&mut self, _cx: &mut Interner, _vars: BoundVarKinds) -> Result<(), F::Error> {
        Ok(())
    }

    #[inline(always)]
    fn core_leave(&mut self, _cx: &mut Interner, _vars: BoundVarKinds) -> Result<(), F::Error> {
        Ok(())
    }

    ghost still_owned = { λ old new s g h. IsPart-grows old new g.grows (F.RegionReplacer.shape s) h };

    ghost still_means = { λ old new s g h. fill-grows old new g.grows (F.RegionReplacer.shape s) h };
}

/// Returns the value with its regions replaced, in order, by the folder's results. The folder's first error ends the
/// fold, and so does a refusal to build the result, with `Memory` or with `TableFull`.
pub fn replace_regions<T: TypeFoldable, F: RegionReplacer>(
    cx: &mut Interner,
    value: T,
    folder: &mut F,
) -> Result<T, F::Error>
    requires state { IsPartBy F.shape cx.old.rows folder.old }
    requires value { IsPartBy T.shape cx.old.rows value }
    ensures { Folds (IsPartBy F.shape) (tree_by F.shape) (IsPartBy T.shape) (tree_by T.shape)
        (Walks (only_regions F.hooks)) (Fails (only_regions F.hooks) (errors_of F.Error.from_gives cx.new))
        cx.old folder.old value result cx.new folder.new }
{
    value.fold_core::<Regions, F>(cx, folder)
}
