//! The folds of boxes, boxed slices and lists by index.

ghost use Rattle.std.specs.Prelude.{◌≡◌, IfErr, IfOk};
ghost use Rattle.tt_index.specs.declared.refusal.Refusal.TheVariants.{Memory};

use crate::core_folder::Core;
use crate::foldable::TypeFoldable;
use std::alloc::Global;
use std::boxed::BoxedSlice;
use tt_index::{Idx, IndexVec, Refusal};
use tt_interner::Interner;

impl<T: TypeFoldable> TypeFoldable for Box<T> {
    fn fold_core<M, F: Core<M>>(
        self,
        cx: &mut Interner,
        folder: &mut F,
    ) -> Result<Box<T>, F::Error> {
        let value = Box::into_inner(self);
        let new_value = value.fold_core::<M, F>(cx, folder)?;
        let new_box = boxed(cx.allocator(), new_value)?;
        Ok(new_box)
    }
}

// Returns the value in a box.
pub(crate) fn boxed<T: Drop>(alloc: Global, value: T) -> Result<Box<T>, Refusal>
    ensures ok { IfOk result (λ boxed. boxed.value ≡ value) }
    ensures memory { IfErr result (λ e. e ≡ Memory) }
{
    let answer = Box::new(alloc, value)?;
    Ok(answer)
}

impl<T: TypeFoldable> TypeFoldable for BoxedSlice<T> {
    fn fold_core<M, F: Core<M>>(
        self,
        cx: &mut Interner,
        folder: &mut F,
    ) -> Result<BoxedSlice<T>, F::Error> {
        let folded = self.into_vec().fold_core::<M, F>(cx, folder)?;
        Ok(folded.into_boxed_slice())
    }
}

impl<Ix: Idx + Drop, T: TypeFoldable> TypeFoldable for IndexVec<Ix, T> {
    fn fold_core<M, F: Core<M>>(
        self,
        cx: &mut Interner,
        folder: &mut F,
    ) -> Result<IndexVec<Ix, T>, F::Error> {
        let folded = self.into_raw().fold_core::<M, F>(cx, folder)?;
        Ok(IndexVec::from_raw(folded))
    }
}
