//! The folds of pairs, triples, options, results and vectors.

ghost use Rattle.std.specs.Prelude.{◌≡◌, ◌++◌, ◌∷◌, [], IfOk, IfErr};
ghost use Rattle.tt_index.specs.declared.refusal.Refusal.TheVariants.{Memory};

use crate::core_folder::Core;
use crate::foldable::TypeFoldable;
use tt_index::Refusal;
use tt_interner::Interner;

impl<A: TypeFoldable, B: TypeFoldable> TypeFoldable for (A, B) {
    fn fold_core<M, F: Core<M>>(
        self,
        cx: &mut Interner,
        folder: &mut F,
    ) -> Result<(A, B), F::Error> {
        let (first, second) = self;
        let new_first = first.fold_core::<M, F>(cx, folder)?;
        let new_second = second.fold_core::<M, F>(cx, folder)?;
        Ok((new_first, new_second))
    }
}

impl<A: TypeFoldable, B: TypeFoldable, C: TypeFoldable> TypeFoldable for (A, B, C) {
    fn fold_core<M, F: Core<M>>(
        self,
        cx: &mut Interner,
        folder: &mut F,
    ) -> Result<(A, B, C), F::Error> {
        let (first, second, third) = self;
        let new_first = first.fold_core::<M, F>(cx, folder)?;
        let new_second = second.fold_core::<M, F>(cx, folder)?;
        let new_third = third.fold_core::<M, F>(cx, folder)?;
        Ok((new_first, new_second, new_third))
    }
}

impl<T: TypeFoldable> TypeFoldable for Option<T> {
    fn fold_core<M, F: Core<M>>(
        self,
        cx: &mut Interner,
        folder: &mut F,
    ) -> Result<Option<T>, F::Error> {
        match self {
            Some(value) => {
                let new_value = value.fold_core::<M, F>(cx, folder)?;
                Ok(Some(new_value))
            }
            None => Ok(None),
        }
    }
}

impl<T: TypeFoldable, E: TypeFoldable> TypeFoldable for Result<T, E> {
    fn fold_core<M, F: Core<M>>(
        self,
        cx: &mut Interner,
        folder: &mut F,
    ) -> Result<Result<T, E>, F::Error> {
        match self {
            Ok(value) => {
                let new_value = value.fold_core::<M, F>(cx, folder)?;
                Ok(Ok(new_value))
            }
            Err(error) => {
                let new_error = error.fold_core::<M, F>(cx, folder)?;
                Ok(Err(new_error))
            }
        }
    }
}

impl<T: TypeFoldable> TypeFoldable for Vec<T> {
    fn fold_core<M, F: Core<M>>(
        self,
        cx: &mut Interner,
        folder: &mut F,
    ) -> Result<Vec<T>, F::Error> {
        let mut values = Vec::new(cx.allocator());
        let mut rest = self.into_iter();
        while let Some(value) = rest.next() {
            let folded = value.fold_core::<M, F>(cx, folder)?;
            push(&mut values, folded)?;
        }
        Ok(values)
    }
}

// Adds a value to a vector.
pub(crate) fn push<T: Drop>(values: &mut Vec<T>, value: T) -> Result<(), Refusal>
    ensures ok { IfOk result (λ _. values.new.items ≡ values.old.items ++ value ∷ []) }
    ensures memory { IfErr result (λ e. e ≡ Memory) }
{
    values.push(value)?;
    Ok(())
}
