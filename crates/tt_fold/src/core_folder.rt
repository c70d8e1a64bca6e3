//! The trait under all traits of folders, so that one walk serves them all.

ghost use Rattle.std.specs.Prelude.{◌≡◌, List};
ghost use Rattle.tt_index.specs.declared.refusal.Refusal.{Refusal};
ghost use Rattle.tt_kinds.specs.Kinds.{region_shape, handle_shape};
ghost use Rattle.tt_kinds.specs.Tree.{Depth, Tree};
ghost use Rattle.tt_interner.specs.Rows.{Row};
ghost use Rattle.tt_interner.specs.Stored.{Extends};
ghost use Rattle.tt_fold.specs.Growth.{AddsTerms};
ghost use Rattle.tt_fold.specs.Walk.{Hooks};
ghost use Rattle.tt_fold.specs.Counts.{Standing};
ghost use Rattle.tt_fold.specs.Steps.{
  answer_of,
  Goes,
  HasVars,
  IsPartOf,
  IsErrorOfUnbuilt,
  AnswersRegion,
  EntersBinder,
  LeavesBinder,
  tree_in,
};
ghost use Rattle.tt_fold.specs.Parts.{HasHook, IsStoredFor, IsStepFor, handle_tree};

use crate::folder::{FallibleTypeFolder, Step, TypeFolder};
use crate::step_of_handle::{any_of, step_of};
use tt_index::Refusal;
use tt_interner::Interner;
use tt_kinds::{AnyHandle, BoundVarKinds, Region, TermTable, Ty};

/// The hooks that the walk calls on a folder of any trait; the mark `M` names the trait.
pub trait Core<M> {
    /// The error of the folder.
    type Error: From<Refusal> + Drop;

    // What a state means, with trees in the places of its handles.
    ghost Meaning: { Type 0 };

    ghost meaning: { List Row → Self → Self.Meaning };
    // Each handle of the state names one of the rows.
    ghost owned: { List Row → Self → Type 0 };

    // What the hooks promise, as relations on states and trees.
    ghost hooks: { Hooks (Standing Self.Meaning) Self.Error };
    // The trees at which the hooks leave the interner unchanged, given its rows and the state; by default none.
    ghost touches_nothing: { List Row → Self → Tree Depth → Type 0 } = { λ rows s t. ⊥ };

    /// Called at each region.
    fn core_region(&mut self, cx: &mut Interner, region: Region) -> Result<Region, Self::Error>
        requires owned { owned cx.old.rows self.old }
        requires region { IsPartOf cx.old.rows (region_shape region) }
        ensures extends { Extends cx.old cx.new }
        ensures owned { owned cx.new.rows self.new }
        ensures still { touches_nothing cx.old.rows self.old (tree_in cx.old.rows (region_shape region))
            → cx.new ≡ cx.old }
        ensures result { AnswersRegion meaning hooks Self.Error.from_gives
            cx.old self.old region result cx.new self.new };

    /// Called at each stored term that has a hook, before its contents.
    #[inline(always)]
    fn core_term(
        &mut self,
        cx: &mut Interner,
        handle: AnyHandle,
    ) -> Result<Step<AnyHandle>, Self::Error>
        requires owned { owned cx.old.rows self.old }
        requires handle { IsPartOf cx.old.rows (handle_shape handle) }
        requires hooked { HasHook handle }
        ensures still { touches_nothing cx.old.rows self.old (handle_tree cx.old.rows handle) → cx.new ≡ cx.old }
        ensures goes { Goes owned meaning
            (λ rows step s s'. IsStepFor handle rows step
            × hooks.on_term s (handle_tree cx.old.rows handle) (answer_of handle_shape rows step) s')
            (λ s e s'. hooks.term_fails
            (IsErrorOfUnbuilt Self.Error.from_gives cx.new)
            s
            (handle_tree cx.old.rows handle)
            e
            s')
            cx.old self.old result cx.new self.new };

    /// Called at each stored term that has a hook and was entered, after its contents.
    #[inline(always)]
    fn core_after_term(
        &mut self,
        cx: &mut Interner,
        before: AnyHandle,
        rebuilt: AnyHandle,
    ) -> Result<AnyHandle, Self::Error>
        requires owned { owned cx.old.rows self.old }
        requires before { IsPartOf cx.old.rows (handle_shape before) }
        requires hooked { HasHook before }
        requires rebuilt { IsStoredFor before cx.old.rows rebuilt }
        ensures { Goes owned meaning
            (λ rows after s s'. IsStoredFor before rows after
            × hooks.after_term s
            (handle_tree cx.old.rows before)
            (handle_tree cx.old.rows rebuilt)
            (handle_tree rows after)
            s')
            (λ s e s'. hooks.after_fails
            (IsErrorOfUnbuilt Self.Error.from_gives cx.new)
            s
            (handle_tree cx.old.rows before)
            (handle_tree cx.old.rows rebuilt)
            e
            s')
            cx.old self.old result cx.new self.new };

    /// Called at each binder, before its value.
    fn core_enter(&mut self, cx: &mut Interner, vars: BoundVarKinds) -> Result<(), Self::Error>
        requires owned { owned cx.old.rows self.old }
        requires vars { HasVars cx.old.rows vars }
        ensures extends { Extends cx.old cx.new }
        ensures owned { owned cx.new.rows self.new }
        ensures result { EntersBinder meaning hooks Self.Error.from_gives cx.old self.old vars result cx.new self.new };

    /// Called at each binder, after its value.
    fn core_leave(&mut self, cx: &mut Interner, vars: BoundVarKinds) -> Result<(), Self::Error>
        requires owned { owned cx.old.rows self.old }
        requires vars { HasVars cx.old.rows vars }
        ensures extends { Extends cx.old cx.new }
        ensures owned { owned cx.new.rows self.new }
        ensures result { LeavesBinder meaning hooks Self.Error.from_gives cx.old self.old vars result cx.new self.new };

    // When terms and lists are added, the state's handles still name rows, and the state means the same.
    ghost still_owned: { (old new : List Row) (s : Self) → AddsTerms old new → owned old s → owned new s };

    ghost still_means: { (old new : List Row) (s : Self) → AddsTerms old new
        → owned old s
        → meaning new s ≡ meaning old s };
}

/// The mark of [`TypeFolder`].
pub struct Plain;

/// The mark of [`FallibleTypeFolder`].
pub struct Fallible;

impl<F: TypeFolder> Core<Plain> for F {
    type Error = Refusal;

    ghost Meaning = { F.TypeFolder.Meaning };

    ghost meaning = { F.TypeFolder.meaning };

    ghost owned = { F.TypeFolder.owned };

    ghost hooks = { F.TypeFolder.hooks };

    ghost touches_nothing = { F.TypeFolder.touches_nothing };

    #[inline(always)]
    fn core_region(&mut self, cx: &mut Interner, region: Region) -> Result<Region, Refusal> {
        self.fold_region(cx, region)
    }

    #[inline(always)]
    fn core_term(
        &mut self,
        cx: &mut Interner,
        handle: AnyHandle,
    ) -> Result<Step<AnyHandle>, Refusal> {
        match handle.table {
            TermTable::Types => step_of(self.fold_ty(cx, handle.typed())),
            TermTable::Consts => step_of(self.fold_const(cx, handle.typed())),
            TermTable::Predicates => step_of(self.fold_predicate(cx, handle.typed())),
            TermTable::ClauseLists => step_of(self.fold_clauses(cx, handle.typed())),
            _ => unreachable!(),
        }
    }

    #[inline(always)]
    fn core_after_term(
        &mut self,
        cx: &mut Interner,
        before: AnyHandle,
        rebuilt: AnyHandle,
    ) -> Result<AnyHandle, Refusal> {
        match before.table {
            TermTable::Types => any_of(self.after_ty(cx, before.typed(), rebuilt.typed())),
            TermTable::Consts => any_of(self.after_const(cx, before.typed(), rebuilt.typed())),
            TermTable::Predicates => any_of(self.after_predicate(
                cx,
                before.typed(),
                rebuilt.typed(),
            )),
            TermTable::ClauseLists => any_of(self.after_clauses(
                cx,
                before.typed(),
                rebuilt.typed(),
            )),
            _ => unreachable!(),
        }
    }

    fn core_enter(&mut self, cx: &mut Interner, vars: BoundVarKinds) -> Result<(), Refusal> {
        self.fold_binder(cx, vars)
    }

    fn core_leave(&mut self, cx: &mut Interner, vars: BoundVarKinds) -> Result<(), Refusal> {
        self.after_binder(cx, vars)
    }

    ghost still_owned = { F.TypeFolder.still_owned };

    ghost still_means = { F.TypeFolder.still_means };
}

impl<F: FallibleTypeFolder> Core<Fallible> for F {
    type Error = F::Error;

    ghost Meaning = { F.FallibleTypeFolder.Meaning };

    ghost meaning = { F.FallibleTypeFolder.meaning };

    ghost owned = { F.FallibleTypeFolder.owned };

    ghost hooks = { F.FallibleTypeFolder.hooks };

    ghost touches_nothing = { F.FallibleTypeFolder.touches_nothing };

    #[inline(always)]
    fn core_region(&mut self, cx: &mut Interner, region: Region) -> Result<Region, F::Error> {
        self.try_fold_region(cx, region)
    }

    #[inline(always)]
    fn core_term(
        &mut self,
        cx: &mut Interner,
        handle: AnyHandle,
    ) -> Result<Step<AnyHandle>, F::Error> {
        match handle.table {
            TermTable::Types => step_of(self.try_fold_ty(cx, handle.typed())),
            TermTable::Consts => step_of(self.try_fold_const(cx, handle.typed())),
            TermTable::Predicates => step_of(self.try_fold_predicate(cx, handle.typed())),
            TermTable::ClauseLists => step_of(self.try_fold_clauses(cx, handle.typed())),
            _ => unreachable!(),
        }
    }

    #[inline(always)]
    fn core_after_term(
        &mut self,
        cx: &mut Interner,
        before: AnyHandle,
        rebuilt: AnyHandle,
    ) -> Result<AnyHandle, F::Error> {
        match before.table {
            TermTable::Types => any_of(self.after_ty(cx, before.typed(), rebuilt.typed())),
            TermTable::Consts => any_of(self.after_const(cx, before.typed(), rebuilt.typed())),
            TermTable::Predicates => any_of(self.after_predicate(
                cx,
                before.typed(),
                rebuilt.typed(),
            )),
            TermTable::ClauseLists => any_of(self.after_clauses(
                cx,
                before.typed(),
                rebuilt.typed(),
            )),
            _ => unreachable!(),
        }
    }

    fn core_enter(&mut self, cx: &mut Interner, vars: BoundVarKinds) -> Result<(), F::Error> {
        self.try_fold_binder(cx, vars)
    }

    fn core_leave(&mut self, cx: &mut Interner, vars: BoundVarKinds) -> Result<(), F::Error> {
        self.after_binder(cx, vars)
    }

    ghost still_owned = { F.FallibleTypeFolder.still_owned };

    ghost still_means = { F.FallibleTypeFolder.still_means };
}
