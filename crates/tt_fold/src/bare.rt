//! The folds of kinds that aren't stored, of their contents, and of tokens of errors by themselves.

use crate::core_folder::Core;
use crate::foldable::TypeFoldable;
use crate::walk::{fold_contents, fold_parts};
use tt_interner::Interner;
use tt_kinds::{
    ConstKind, ErrorGuaranteed, ExprConst, PatternKind, TyKind, UnevaluatedConst, ValTree,
    ValTreeKind, ValueConst,
};

impl TypeFoldable for TyKind {
    fn fold_core<M, F: Core<M>>(
        self,
        cx: &mut Interner,
        folder: &mut F,
    ) -> Result<TyKind, F::Error> {
        let parts = fold_contents::<M, F>(cx, folder, self.bound_vars(), self.parts())?;
        Ok(self.with_parts(parts))
    }
}

impl TypeFoldable for ConstKind {
    fn fold_core<M, F: Core<M>>(
        self,
        cx: &mut Interner,
        folder: &mut F,
    ) -> Result<ConstKind, F::Error> {
        let parts = fold_contents::<M, F>(cx, folder, self.bound_vars(), self.parts())?;
        Ok(self.with_parts(parts))
    }
}

impl TypeFoldable for PatternKind {
    fn fold_core<M, F: Core<M>>(
        self,
        cx: &mut Interner,
        folder: &mut F,
    ) -> Result<PatternKind, F::Error> {
        let parts = fold_parts::<M, F>(cx, folder, self.parts())?;
        Ok(self.with_parts(parts))
    }
}

impl TypeFoldable for ErrorGuaranteed {
    fn fold_core<M, F: Core<M>>(
        self,
        _cx: &mut Interner,
        _folder: &mut F,
    ) -> Result<ErrorGuaranteed, F::Error> {
        Ok(self)
    }
}

impl TypeFoldable for UnevaluatedConst {
    fn fold_core<M, F: Core<M>>(
        self,
        cx: &mut Interner,
        folder: &mut F,
    ) -> Result<UnevaluatedConst, F::Error> {
        let args = self.args.fold_core::<M, F>(cx, folder)?;
        Ok(UnevaluatedConst {
            def: self.def,
            args,
        })
    }
}

impl TypeFoldable for ExprConst {
    fn fold_core<M, F: Core<M>>(
        self,
        cx: &mut Interner,
        folder: &mut F,
    ) -> Result<ExprConst, F::Error> {
        let args = self.args.fold_core::<M, F>(cx, folder)?;
        Ok(ExprConst {
            tag: self.tag,
            args,
        })
    }
}

impl TypeFoldable for ValueConst {
    fn fold_core<M, F: Core<M>>(
        self,
        cx: &mut Interner,
        folder: &mut F,
    ) -> Result<ValueConst, F::Error> {
        let kind = ConstKind::Value(self);
        let parts = fold_contents::<M, F>(cx, folder, kind.bound_vars(), kind.parts())?;
        Ok(self.with_parts(parts))
    }
}

impl TypeFoldable for ValTreeKind {
    fn fold_core<M, F: Core<M>>(
        self,
        cx: &mut Interner,
        folder: &mut F,
    ) -> Result<ValTreeKind, F::Error> {
        match self {
            ValTreeKind::Leaf(leaf) => Ok(ValTreeKind::Leaf(leaf)),
            ValTreeKind::Branch(values) => {
                let new_values = values.fold_core::<M, F>(cx, folder)?;
                Ok(ValTreeKind::Branch(new_values))
            }
        }
    }
}

impl TypeFoldable for ValTree {
    fn fold_core<M, F: Core<M>>(
        self,
        cx: &mut Interner,
        folder: &mut F,
    ) -> Result<ValTree, F::Error> {
        let kind = self.kind().fold_core::<M, F>(cx, folder)?;
        Ok(ValTree::from(kind))
    }
}
