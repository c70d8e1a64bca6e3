//! Folds that remember the result of each type, for folders whose results depend on the type alone.

ghost use Rattle.std.specs.Prelude.{IfErr, IfOk};
ghost use Rattle.tt_interner.specs.Stored.{Extends};
ghost use Rattle.tt_fold.specs.TypesOnce.{CallsOnce, FailsOnce, IsSteady, steadily};
ghost use Rattle.tt_fold.specs.Steps.{IsErrorOfUnbuilt, IsPartBy, tree_by, errors_of};
ghost use Rattle.tt_fold.specs.Walk.{Fails, Walks};

use crate::core_folder::Core;
use crate::foldable::TypeFoldable;
use crate::folder::Step;
use crate::memory::{Memory, look_up};
use crate::step_of_handle::step_of;
use crate::type_replacer::TypeReplacer;
use tt_interner::Interner;
use tt_kinds::{AnyHandle, BoundVarKinds, Region, TermTable};

// A folder of types, and the results of the types that were taken apart.
#[derive(Drop)]
struct Recalling<F> {
    folder: F,
    memory: Memory,
}

// The mark of a folder that remembers.
struct Once;

impl<F: TypeReplacer> Core<Once> for Recalling<F> {
    ghost use Rattle.std.specs.Prelude.{⊤};
    ghost use Rattle.tt_kinds.specs.Tree.{Depth, Tree};
    ghost use Rattle.tt_interner.proofs.Growth.{IsPart-grows, fill-grows};
    ghost use Rattle.tt_fold.specs.Memory.{memos, OwnsMemos};
    ghost use Rattle.tt_fold.specs.MemoryGrowth.{memos-still, OwnsMemos-still};
    ghost use Rattle.tt_fold.specs.Remember.{State};
    ghost use Rattle.tt_fold.specs.TypesOnce.{recalling, recalls-same};

    type Error = F::Error;

    ghost Meaning = { State (Tree Depth) ⊤ };

    ghost meaning = { λ rows s. record {
      rule = tree_by F.TypeReplacer.shape rows s.folder;
      under = 0;
      kept = tt;
      memory = memos rows s.memory;
    } };

    ghost owned = { λ rows s. IsPartBy F.TypeReplacer.shape rows s.folder × OwnsMemos rows s.memory };

    ghost hooks = { recalling (tree_by F.TypeReplacer.shape) F.TypeReplacer.hooks };

    #[inline(always)]
    fn core_region(&mut self, _cx: &mut Interner, region: Region) -> Result<Region, F::Error> {
        Ok(region)
    }

    #[inline(always)]
    fn core_term(
        &mut self,
        cx: &mut Interner,
        handle: AnyHandle,
    ) -> Result<Step<AnyHandle>, F::Error> {
        match handle.table {
            // No hook depends on binders, so every type is looked up and noted as one under no binder.
            TermTable::Types => match look_up(cx, &self.memory, handle.typed(), 0) {
                Some(after) => Ok(Step::Replace(after.any())),
                None => step_of(self.folder.replace_ty(cx, handle.typed())),
            },
            _ => Ok(Step::Descend),
        }
    }

    #[inline(always)]
    fn core_after_term(
        &mut self,
        _cx: &mut Interner,
        before: AnyHandle,
        rebuilt: AnyHandle,
    ) -> Result<AnyHandle, F::Error> {
        match before.table {
            TermTable::Types => {
                self.memory.note(before.typed(), 0, rebuilt.typed())?;
                Ok(rebuilt)
            }
            _ => Ok(rebuilt),
        }
    }

    #[inline(always)]
    fn core_enter(&mut self, _cx: &mut Interner, _vars: BoundVarKinds) -> Result<(), F::Error> {
        Ok(())
    }

    #[inline(always)]
    fn core_leave(&mut self, _cx: &mut Interner, _vars: BoundVarKinds) -> Result<(), F::Error> {
        Ok(())
    }

    ghost still_owned = { λ old new s g h. (
      IsPart-grows old new g.grows (F.TypeReplacer.shape s.folder) h.0,
      OwnsMemos-still old new s.memory g.grows h.1,
    ) };

    ghost still_means = { λ old new s g h. recalls-same
        (fill-grows old new g.grows (F.TypeReplacer.shape s.folder) h.0)
        (memos-still old new s.memory g.grows h.1) };
}

/// Returns the value with its types replaced by the folder's results, as [`replace_types`](crate::replace_types) does.
/// The folder's result has to depend on the type alone: the folder's state has to mean the same after each call. This
/// always holds for a folder without handles. A folder with handles has to state it in its `hooks`.
///
/// The result of a type that was taken apart is remembered until the call ends. So the folder answers `Descend` at most
/// once at each type, and the contents of the type are visited once, however many places the type has. The resulting
/// tree is one that a fold without memory gives. The errors are the errors of a fold without memory. `Memory` is also
/// returned if the memory for the results of more than eight types is refused.
pub fn replace_types_once<T: TypeFoldable, F: TypeReplacer + Drop>(
    cx: &mut Interner,
    value: T,
    folder: F,
) -> Result<T, F::Error>
    requires state { IsPartBy F.shape cx.old.rows folder }
    requires value { IsPartBy T.shape cx.old.rows value }
    requires steady { IsSteady F.shape F.hooks }
    // In each case:
    ensures extends { Extends cx.old cx.new }
    // On success:
    ensures in_range { IfOk result (λ replaced. IsPartBy T.shape cx.new.rows replaced) }
    ensures plain { IfOk result (λ replaced. Walks
        (steadily F.hooks (tree_by F.shape cx.old.rows folder))
        tt
        (tree_by T.shape cx.old.rows value)
        (tree_by T.shape cx.new.rows replaced)
        tt) }
    // On a refusal:
    ensures err { IfErr result (λ e. Fails
        (steadily F.hooks (tree_by F.shape cx.old.rows folder))
        (errors_of F.Error.from_gives cx.new)
        tt
        (tree_by T.shape cx.old.rows value)
        e
        tt) }
    // Which types are taken apart:
    ensures once { IfOk result (λ replaced. CallsOnce
        F.hooks
        (tree_by F.shape cx.old.rows folder)
        (tree_by T.shape cx.old.rows value)
        cx.old.counters
        cx.new.counters) }
    ensures once_until { IfErr result (λ e. FailsOnce
        F.hooks
        (tree_by F.shape cx.old.rows folder)
        (IsErrorOfUnbuilt F.Error.from_gives cx.new)
        (tree_by T.shape cx.old.rows value)
        cx.old.counters
        e
        cx.new.counters) }
{
    let mut recalling = Recalling {
        folder,
        memory: Memory::new(cx.allocator()),
    };
    value.fold_core::<Once, Recalling<F>>(cx, &mut recalling)
}
