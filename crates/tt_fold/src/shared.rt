//! Values whose copies have the same tree, and the fold of shared values, which may copy the value.

ghost use Rattle.std.specs.Prelude.{◌≡◌, IfErr, IfOk};
ghost use Rattle.tt_index.specs.declared.refusal.Refusal.TheVariants.{Memory};

use crate::core_folder::Core;
use crate::foldable::TypeFoldable;
use std::alloc::Global;
use std::rc::Rc;
use tt_index::Refusal;
use tt_interner::Interner;
use tt_visit::TypeVisitable;

/// A value whose copies have its tree, in every interner.
///
/// The law `keeps` states this of the type's `clone`. If the type derives `Clone`, the prover mostly finds the proof:
/// write `ghost keeps = { Prim.search copies };`, with `copies` of specs/Copies.
pub trait ClonesTree: TypeVisitable + Clone {
    // A copy has the value's shape.
    ghost keeps: { (value copy : Self) → Self.Clone.is_clone value copy
        → Self.TypeVisitable.shape copy ≡ Self.TypeVisitable.shape value };
}

impl<T: TypeFoldable + ClonesTree> TypeFoldable for Rc<T> {
    fn fold_core<M, F: Core<M>>(
        self,
        cx: &mut Interner,
        folder: &mut F,
    ) -> Result<Rc<T>, F::Error> {
        let value = taken(self)?;
        let new_value = value.fold_core::<M, F>(cx, folder)?;
        let new_shared = shared(cx.allocator(), new_value)?;
        Ok(new_shared)
    }
}

// Returns the value if it has no other owner, and otherwise a copy.
fn taken<T: ClonesTree>(this: Rc<T>) -> Result<T, Refusal>
    ensures ok { IfOk result (λ value. T.shape value ≡ T.shape this.value) }
    ensures memory { IfErr result (λ e. e ≡ Memory) }
{
    match Rc::try_unwrap(this) {
        Ok(value) => Ok(value),
        Err(others) => {
            let copy = Rc::as_ref(&others).clone()?;
            Ok(copy)
        }
    }
}

// Returns the value as a shared value with one owner.
fn shared<T: Drop>(alloc: Global, value: T) -> Result<Rc<T>, Refusal>
    ensures ok { IfOk result (λ shared. shared.value ≡ value) }
    ensures memory { IfErr result (λ e. e ≡ Memory) }
{
    let answer = Rc::new(alloc, value)?;
    Ok(answer)
}
