//! The folder that takes a binder off: it replaces the binder's own variables by arguments.

ghost use Rattle.std.specs.Prelude.{◌≡◌, ◌<◌, ◌≤◌, ◌↔◌, [], IsTrue, MatchOption, MatchResult};
ghost use Rattle.tt_kinds.specs.Label.{const_sort, type_sort};
ghost use Rattle.tt_kinds.specs.Bound.{depth, IsBelowGreatest};
ghost use Rattle.tt_kinds.specs.Kinds.{const_kind_shape, const_shape, region_shape, ty_kind_shape, ty_shape};
ghost use Rattle.tt_interner.specs.Stored.{Extends};
ghost use Rattle.tt_fold.specs.Shift.{IsOuter};
ghost use Rattle.tt_fold.specs.Steps.{IsPartOf, IsRefused, tree_in};
ghost use Rattle.tt_interner.specs.Arguments.{AreArguments, arguments};
ghost use Rattle.tt_binder.specs.Shifted.{OwnsShifts};
ghost use Rattle.tt_binder.specs.Opening.{IsOwn};
ghost use Rattle.tt_binder.specs.BinderOpener.{
  index_outside,
  Opening,
  opening_hooks,
  opening_state,
  OpeningRefuses,
  OpensTree,
  OwnsOpener,
};

use crate::arg_folder::{const_argument, region_argument, type_argument};
use crate::shifted::Shifted;
use crate::slice_like::SliceLike;
use std::alloc::Global;
use tt_fold::memory::{Memory, look_up};
use tt_fold::shift::{bound_const, bound_ty};
use tt_fold::{Step, TypeFolder};
use tt_index::{DebruijnIndex, GREATEST_INDEX, Refusal};
use tt_interner::{Flags, Interner};
use tt_kinds::{
    BoundConst, BoundRegion, BoundTy, BoundVarIndexKind, BoundVarKinds, Clauses, Const, ConstKind,
    Predicate, Region, RegionKind, Ty, TyKind,
};

// Returns the index that a variable under `binders_passed` binders of the contents has outside of the opened binder, or
// `None` if the variable is the opened binder's own.
fn outside(index: BoundVarIndexKind, binders_passed: u32) -> Option<BoundVarIndexKind>
    ensures { MatchOption
        result
        (IsOwn binders_passed (depth index))
        (λ outer. (outer ≡ index_outside binders_passed index) × (IsOwn binders_passed (depth index) → ⊥)) }
{
    match index {
        BoundVarIndexKind::Bound(debruijn) => {
            let number = debruijn.as_u32();
            if number == binders_passed {
                None
            } else if number < binders_passed {
                Some(BoundVarIndexKind::Bound(debruijn))
            } else {
                Some(BoundVarIndexKind::Bound(DebruijnIndex::from_u32(number - 1)))
            }
        }
        BoundVarIndexKind::Canonical => Some(BoundVarIndexKind::Canonical),
    }
}

// Returns what takes the place of a bound region.
fn opened_region<S: SliceLike>(
    cx: &Interner,
    args: S,
    binders_passed: u32,
    index: BoundVarIndexKind,
    bound_region: BoundRegion,
) -> Result<Region, Refusal>
    requires owned { S.owned cx.now.rows args }
    requires are { AreArguments cx.now.rows (S.items cx.now.rows args) }
    requires shallow { IsBelowGreatest (depth index) }
    requires part { IsPartOf cx.now.rows (region_shape (RegionKind.ReBound index bound_region)) }
    ensures { let tree = tree_in cx.now.rows (region_shape (RegionKind.ReBound index bound_region)) in
        let arguments = arguments cx.now.rows (S.items cx.now.rows args) in
        MatchResult
        result
        (λ r. IsPartOf cx.now.rows (region_shape r)
        × OpensTree arguments binders_passed tree (tree_in cx.now.rows (region_shape r)))
        (λ e. OpeningRefuses (IsRefused cx.now) arguments binders_passed tree e) }
{
    match outside(index, binders_passed) {
        Some(outer) => Region::new(RegionKind::ReBound(outer, bound_region)),
        None => {
            if args.is_empty(cx) {
                return Err(Refusal::NoArguments);
            }
            region_argument(cx, args, binders_passed, bound_region.var().as_u32())
        }
    }
}

// Returns what takes the place of a bound type.
fn opened_ty<S: SliceLike>(
    cx: &mut Interner,
    args: S,
    shifted: &mut Shifted<Ty>,
    binders_passed: u32,
    index: BoundVarIndexKind,
    bound_ty: BoundTy,
) -> Result<Ty, Refusal>
    requires owned { S.owned cx.old.rows args }
    requires are { AreArguments cx.old.rows (S.items cx.old.rows args) }
    requires shifted { OwnsShifts
        ty_shape
        cx.old.rows
        (arguments cx.old.rows (S.items cx.old.rows args))
        type_sort
        shifted.old }
    requires outer { IsOuter binders_passed index }
    ensures extends { Extends cx.old cx.new }
    ensures descents { cx.new.counters.descents ≡ cx.old.counters.descents }
    ensures shift_descents { cx.old.counters.shift_descents ≤ cx.new.counters.shift_descents }
    ensures shifted { OwnsShifts
        ty_shape
        cx.new.rows
        (arguments cx.old.rows (S.items cx.old.rows args))
        type_sort
        shifted.new }
    ensures result { let tree = tree_in cx.old.rows (ty_kind_shape (TyKind.Bound index bound_ty)) in
        let arguments = arguments cx.old.rows (S.items cx.old.rows args) in
        MatchResult
        result
        (λ ty. IsPartOf cx.new.rows (ty_shape ty)
        × OpensTree arguments binders_passed tree (tree_in cx.new.rows (ty_shape ty)))
        (λ e. OpeningRefuses (IsRefused cx.new) arguments binders_passed tree e) }
{
    match outside(index, binders_passed) {
        Some(outer) => cx.mk_ty(TyKind::Bound(outer, bound_ty)),
        None => {
            if args.is_empty(cx) {
                return Err(Refusal::NoArguments);
            }
            type_argument(cx, args, shifted, binders_passed, bound_ty.var().as_u32())
        }
    }
}

// Returns what takes the place of a bound constant.
fn opened_const<S: SliceLike>(
    cx: &mut Interner,
    args: S,
    shifted: &mut Shifted<Const>,
    binders_passed: u32,
    index: BoundVarIndexKind,
    bound_const: BoundConst,
) -> Result<Const, Refusal>
    requires owned { S.owned cx.old.rows args }
    requires are { AreArguments cx.old.rows (S.items cx.old.rows args) }
    requires shifted { OwnsShifts
        const_shape
        cx.old.rows
        (arguments cx.old.rows (S.items cx.old.rows args))
        const_sort
        shifted.old }
    requires outer { IsOuter binders_passed index }
    ensures extends { Extends cx.old cx.new }
    ensures descents { cx.new.counters.descents ≡ cx.old.counters.descents }
    ensures shift_descents { cx.old.counters.shift_descents ≤ cx.new.counters.shift_descents }
    ensures shifted { OwnsShifts
        const_shape
        cx.new.rows
        (arguments cx.old.rows (S.items cx.old.rows args))
        const_sort
        shifted.new }
    ensures result { let tree = tree_in cx.old.rows (const_kind_shape (ConstKind.Bound index bound_const)) in
        let arguments = arguments cx.old.rows (S.items cx.old.rows args) in
        MatchResult
        result
        (λ constant. IsPartOf cx.new.rows (const_shape constant)
        × OpensTree arguments binders_passed tree (tree_in cx.new.rows (const_shape constant)))
        (λ e. OpeningRefuses (IsRefused cx.new) arguments binders_passed tree e) }
{
    match outside(index, binders_passed) {
        Some(outer) => cx.mk_const(ConstKind::Bound(outer, bound_const)),
        None => {
            if args.is_empty(cx) {
                return Err(Refusal::NoArguments);
            }
            const_argument(
                cx,
                args,
                shifted,
                binders_passed,
                bound_const.var().as_u32(),
            )
        }
    }
}

/// A folder that takes a binder off the contents that it folds. Each type is taken apart once under each number of
/// binders, and each argument is shifted once past each number of binders.
#[derive(Drop)]
pub struct BinderOpener<S> {
    args: S,
    // the number of binders of the contents around the current place
    binders_passed: u32,
    // the results of the types that were taken apart
    memory: Memory,
    // the arguments that were shifted past binders
    types: Shifted<Ty>,
    consts: Shifted<Const>,
}

impl<S: Copy> BinderOpener<S> {
    /// Returns a folder that has entered no binder of the contents, with empty memories that allocate nothing.
    pub fn new(alloc: Global, args: S) -> BinderOpener<S>
        ensures args { result.args ≡ args }
        ensures binders_passed { result.binders_passed ≡ 0 }
        ensures memory { result.memory ≡ [] }
        ensures types { result.types ≡ [] }
        ensures consts { result.consts ≡ [] }
    {
        BinderOpener {
            args,
            binders_passed: 0,
            memory: Memory::new(alloc),
            types: Shifted::new(alloc),
            consts: Shifted::new(alloc),
        }
    }

    // Returns whether the opened binder, or one outside of it, binds a variable in a term with this outer exclusive
    // binder.
    fn opens(&self, outer_exclusive_binder: DebruijnIndex) -> bool
        ensures { IsTrue result ↔ (self.now.binders_passed < outer_exclusive_binder) }
    {
        outer_exclusive_binder.as_u32() > self.binders_passed
    }
}

impl<S: SliceLike> TypeFolder for BinderOpener<S> {
    ghost Meaning = { Opening };

    ghost meaning = { λ rows s. opening_state rows (S.items rows s.args) s.binders_passed s.memory };

    ghost owned = { λ rows s. OwnsOpener S.items S.owned rows s.args s.memory s.types s.consts };

    ghost hooks = { opening_hooks };

    fn fold_region(&mut self, cx: &mut Interner, region: Region) -> Result<Region, Refusal> {
        match region.kind() {
            RegionKind::ReBound(index, bound_region) => {
                opened_region(cx, self.args, self.binders_passed, index, bound_region)
            }
            _ => Ok(region),
        }
    }

    fn fold_ty(&mut self, cx: &mut Interner, ty: Ty) -> Result<Step<Ty>, Refusal> {
        if !self.opens(ty.outer_exclusive_binder(cx)) {
            return Ok(Step::Keep);
        }
        let kind = cx.node_kind(ty.any());
        match bound_ty(&kind) {
            Some((index, bound_ty)) => {
                let opened = opened_ty(
                    cx,
                    self.args,
                    &mut self.types,
                    self.binders_passed,
                    index,
                    bound_ty,
                )?;
                Ok(Step::Replace(opened))
            }
            None => match look_up(cx, &self.memory, ty, self.binders_passed) {
                Some(known) => Ok(Step::Replace(known)),
                None => {
                    cx.count_descent();
                    Ok(Step::Descend)
                }
            },
        }
    }

    fn after_ty(&mut self, _cx: &mut Interner, before: Ty, rebuilt: Ty) -> Result<Ty, Refusal> {
        self.memory.note(before, self.binders_passed, rebuilt)?;
        Ok(rebuilt)
    }

    fn fold_const(&mut self, cx: &mut Interner, constant: Const) -> Result<Step<Const>, Refusal> {
        if !self.opens(constant.outer_exclusive_binder(cx)) {
            return Ok(Step::Keep);
        }
        let kind = cx.node_kind(constant.any());
        match bound_const(&kind) {
            Some((index, bound_const)) => {
                let opened = opened_const(
                    cx,
                    self.args,
                    &mut self.consts,
                    self.binders_passed,
                    index,
                    bound_const,
                )?;
                Ok(Step::Replace(opened))
            }
            None => Ok(Step::Descend),
        }
    }

    fn after_const(
        &mut self,
        _cx: &mut Interner,
        _before: Const,
        rebuilt: Const,
    ) -> Result<Const, Refusal> {
        Ok(rebuilt)
    }

    fn fold_predicate(
        &mut self,
        cx: &mut Interner,
        predicate: Predicate,
    ) -> Result<Step<Predicate>, Refusal> {
        if self.opens(predicate.outer_exclusive_binder(cx)) {
            Ok(Step::Descend)
        } else {
            Ok(Step::Keep)
        }
    }

    fn after_predicate(
        &mut self,
        _cx: &mut Interner,
        _before: Predicate,
        rebuilt: Predicate,
    ) -> Result<Predicate, Refusal> {
        Ok(rebuilt)
    }

    fn fold_clauses(
        &mut self,
        cx: &mut Interner,
        clauses: Clauses,
    ) -> Result<Step<Clauses>, Refusal> {
        if self.opens(clauses.outer_exclusive_binder(cx)) {
            Ok(Step::Descend)
        } else {
            Ok(Step::Keep)
        }
    }

    fn after_clauses(
        &mut self,
        _cx: &mut Interner,
        _before: Clauses,
        rebuilt: Clauses,
    ) -> Result<Clauses, Refusal> {
        Ok(rebuilt)
    }

    fn fold_binder(&mut self, _cx: &mut Interner, _vars: BoundVarKinds) -> Result<(), Refusal> {
        if self.binders_passed < GREATEST_INDEX {
            self.binders_passed += 1;
            Ok(())
        } else {
            Err(Refusal::GreatestIndex)
        }
    }

    fn after_binder(&mut self, _cx: &mut Interner, _vars: BoundVarKinds) -> Result<(), Refusal> {
        self.binders_passed = self.binders_passed.saturating_sub(1);
        Ok(())
    }

    ghost use Rattle.tt_binder.specs.OpenerLaws.{opener-still, opening-still};

    ghost still_owned = { λ old new s g h. opener-still S.still_owned S.still_items old new
        s.args
        s.memory
        s.types
        s.consts
        g.grows
        h };

    ghost still_means = { λ old new s g h. opening-still old new
        (S.items old s.args)
        (S.items new s.args)
        s.binders_passed
        s.memory
        g.grows
        (S.still_items old new s.args g.grows h.0)
        h.1
        h.2 };
}
