//! Values that a folder can fold.

ghost use Rattle.tt_fold.specs.Still.{StaysStill};
ghost use Rattle.tt_fold.specs.Walk.{Fails, SuperFails, SuperWalks, Walks};
ghost use Rattle.tt_fold.specs.Steps.{Folds, IsPartBy, tree_by, errors_of, refusals_of};

use crate::core_folder::{Core, Fallible, Plain};
use crate::folder::{FallibleTypeFolder, TypeFolder};
use tt_index::Refusal;
use tt_interner::Interner;
use tt_kinds::Binder;
use tt_visit::TypeVisitable;

/// A value that a folder can fold. The fold calls the folder at the value's parts, and rebuilds the value from the
/// folder's results.
pub trait TypeFoldable: TypeVisitable + Drop + Sized {
    /// Folds the value with a folder of the trait that the mark `M` names. Types implement this method; callers use
    /// [`TypeFoldable::fold_with`] or [`TypeFoldable::try_fold_with`].
    fn fold_core<M, F: Core<M>>(self, cx: &mut Interner, folder: &mut F) -> Result<Self, F::Error>
        requires state { F.owned cx.old.rows folder.old }
        requires value { IsPartBy Self.shape cx.old.rows self }
        ensures still { StaysStill F.hooks F.touches_nothing F.meaning (Self.shape self) cx.old folder.old cx.new }
        ensures folds { Folds F.owned F.meaning (IsPartBy Self.shape) (tree_by Self.shape)
            (Walks F.hooks) (Fails F.hooks (errors_of F.Error.from_gives cx.new))
            cx.old folder.old self result cx.new folder.new };

    /// Returns the value with its regions, types, constants, predicates and lists of clauses replaced by the folder's
    /// results. The fold visits them in order, each before its contents.
    ///
    /// The fold ends at the first refusal:
    ///
    /// - a hook's refusal;
    /// - `Memory` or `TableFull`, if the result can't be built;
    /// - `NotAClause`, if an item of a list of clauses, or a clause by itself, becomes a predicate that is not a
    ///   clause. No hook after this item or clause is called.
    final fn fold_with<F: TypeFolder>(
        self,
        cx: &mut Interner,
        folder: &mut F,
    ) -> Result<Self, Refusal>
        requires state { F.owned cx.old.rows folder.old }
        requires value { IsPartBy Self.shape cx.old.rows self }
        ensures still { StaysStill F.hooks F.touches_nothing F.meaning (Self.shape self) cx.old folder.old cx.new }
        ensures folds { Folds F.owned F.meaning (IsPartBy Self.shape) (tree_by Self.shape)
            (Walks F.hooks) (Fails F.hooks (refusals_of cx.new))
            cx.old folder.old self result cx.new folder.new }
    {
        self.fold_core::<Plain, F>(cx, folder)
    }

    /// Like [`TypeFoldable::fold_with`], with a folder that has errors of its own: its first error ends the fold, and a
    /// refusal to build the result is converted to an error of the folder.
    final fn try_fold_with<F: FallibleTypeFolder>(
        self,
        cx: &mut Interner,
        folder: &mut F,
    ) -> Result<Self, F::Error>
        requires state { F.owned cx.old.rows folder.old }
        requires value { IsPartBy Self.shape cx.old.rows self }
        ensures still { StaysStill F.hooks F.touches_nothing F.meaning (Self.shape self) cx.old folder.old cx.new }
        ensures folds { Folds F.owned F.meaning (IsPartBy Self.shape) (tree_by Self.shape)
            (Walks F.hooks) (Fails F.hooks (errors_of F.Error.from_gives cx.new))
            cx.old folder.old self result cx.new folder.new }
    {
        self.fold_core::<Fallible, F>(cx, folder)
    }
}

/// A value with hooks of its own, whose contents can be folded without a call of these hooks.
pub trait TypeSuperFoldable: TypeFoldable {
    /// Folds the value's contents with a folder of the trait that the mark `M` names. Types implement this method;
    /// callers use [`TypeSuperFoldable::super_fold_with`] or [`TypeSuperFoldable::try_super_fold_with`].
    fn super_fold_core<M, F: Core<M>>(
        self,
        cx: &mut Interner,
        folder: &mut F,
    ) -> Result<Self, F::Error>
        requires state { F.owned cx.old.rows folder.old }
        requires value { IsPartBy Self.shape cx.old.rows self }
        ensures { Folds F.owned F.meaning (IsPartBy Self.shape) (tree_by Self.shape)
            (SuperWalks F.hooks) (SuperFails F.hooks (errors_of F.Error.from_gives cx.new))
            cx.old folder.old self result cx.new folder.new };

    /// Returns the value with its contents folded. The hooks at the value itself are not called: neither the hooks of a
    /// stored term, nor the hooks before and after a binder's value. The fold ends at the first refusal, as
    /// [`TypeFoldable::fold_with`] does.
    final fn super_fold_with<F: TypeFolder>(
        self,
        cx: &mut Interner,
        folder: &mut F,
    ) -> Result<Self, Refusal>
        requires state { F.owned cx.old.rows folder.old }
        requires value { IsPartBy Self.shape cx.old.rows self }
        ensures { Folds F.owned F.meaning (IsPartBy Self.shape) (tree_by Self.shape)
            (SuperWalks F.hooks) (SuperFails F.hooks (refusals_of cx.new))
            cx.old folder.old self result cx.new folder.new }
    {
        self.super_fold_core::<Plain, F>(cx, folder)
    }

    /// Like [`TypeSuperFoldable::super_fold_with`], with a folder that has errors of its own: its first error ends the
    /// fold, and a refusal to build the result is converted to an error of the folder.
    final fn try_super_fold_with<F: FallibleTypeFolder>(
        self,
        cx: &mut Interner,
        folder: &mut F,
    ) -> Result<Self, F::Error>
        requires state { F.owned cx.old.rows folder.old }
        requires value { IsPartBy Self.shape cx.old.rows self }
        ensures { Folds F.owned F.meaning (IsPartBy Self.shape) (tree_by Self.shape)
            (SuperWalks F.hooks) (SuperFails F.hooks (errors_of F.Error.from_gives cx.new))
            cx.old folder.old self result cx.new folder.new }
    {
        self.super_fold_core::<Fallible, F>(cx, folder)
    }
}

impl<T: TypeFoldable> TypeFoldable for Binder<T> {
    fn fold_core<M, F: Core<M>>(
        self,
        cx: &mut Interner,
        folder: &mut F,
    ) -> Result<Binder<T>, F::Error> {
        let vars = self.bound_vars();
        folder.core_enter(cx, vars)?;
        let value = self.skip_binder().fold_core::<M, F>(cx, folder)?;
        folder.core_leave(cx, vars)?;
        Ok(Binder::bind_with_vars(value, vars))
    }
}

impl<T: TypeFoldable> TypeSuperFoldable for Binder<T> {
    fn super_fold_core<M, F: Core<M>>(
        self,
        cx: &mut Interner,
        folder: &mut F,
    ) -> Result<Binder<T>, F::Error> {
        let bound_vars = self.bound_vars();
        let value = self.skip_binder().fold_core::<M, F>(cx, folder)?;
        Ok(Binder::bind_with_vars(value, bound_vars))
    }
}
