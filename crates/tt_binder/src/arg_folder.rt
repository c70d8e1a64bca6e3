//! The folder that replaces parameters by arguments.

ghost use Rattle.std.specs.Prelude.{◌≡◌, ◌≢◌, ◌≤◌, ◌++◌, [], ℕ, MatchOption, MatchResult, IfOk, IfErr, Some, slice_get};
ghost use Rattle.std.specs.Map.{keys_of};
ghost use Rattle.tt_kinds.specs.Label.{Name, const_sort, region_sort, type_sort};
ghost use Rattle.tt_kinds.specs.Tree.{param};
ghost use Rattle.tt_kinds.specs.Kinds.{const_shape, region_shape, ty_shape};
ghost use Rattle.tt_kinds.specs.Cause.{Cause};
ghost use Rattle.tt_interner.specs.Stored.{Extends};
ghost use Rattle.tt_fold.specs.Memory.{memos};
ghost use Rattle.tt_fold.specs.Steps.{IsPartOf, IsRefused, tree_in};
ghost use Rattle.tt_interner.specs.Arguments.{AreArguments, arguments};
ghost use Rattle.tt_binder.specs.Shifted.{OwnsArguments, OwnsShifts};
ghost use Rattle.tt_binder.specs.Instantiation.{Instantiation, Instantiates, PutsArgument, IsOpenParam, LeafRefuses, arg_hooks};
ghost use Rattle.tt_kinds.specs.Param.{IsParam};

use crate::shifted::Shifted;
use crate::slice_like::SliceLike;
use std::alloc::Global;
use tt_flags::TypeFlags;
use tt_fold::memory::{Memory, look_up};
use tt_fold::{Step, TypeFolder, shift_region};
use tt_index::{GREATEST_INDEX, Refusal};
use tt_interner::{Flags, InternedKind, Interner};
use tt_kinds::{
    BoundVarKinds, Clauses, Const, ConstKind, GenericArgKind, Predicate, Region, RegionKind, Ty,
    TyKind,
};

// Returns the region at the index.
fn region_at<S: SliceLike>(cx: &Interner, args: S, index: u32) -> Result<Region, Refusal>
    requires owned { S.owned cx.now.rows args }
    requires some { S.items cx.now.rows args ≢ [] }
    ensures ok { IfOk result (λ r. slice_get (S.items cx.now.rows args) index ≡ Some (GenericArgKind.Lifetime r)) }
    ensures err { IfErr result (λ e. (name : Name) → Cause
        (param region_sort index name)
        (arguments cx.now.rows (S.items cx.now.rows args))
        e) }
{
    match args.get(cx, index as usize) {
        None => Err(Refusal::ArgOutOfRange { index }),
        Some(argument) => match argument.kind() {
            GenericArgKind::Lifetime(region) => Ok(region),
            GenericArgKind::Type(_) | GenericArgKind::Const(_) => Err(Refusal::ArgKind { index }),
        },
    }
}

// Returns the type at the index.
fn type_at<S: SliceLike>(cx: &Interner, args: S, index: u32) -> Result<Ty, Refusal>
    requires owned { S.owned cx.now.rows args }
    requires some { S.items cx.now.rows args ≢ [] }
    ensures ok { IfOk result (λ ty. slice_get (S.items cx.now.rows args) index ≡ Some (GenericArgKind.Type ty)) }
    ensures err { IfErr result (λ e. (name : Name) → Cause
        (param type_sort index name)
        (arguments cx.now.rows (S.items cx.now.rows args))
        e) }
{
    match args.get(cx, index as usize) {
        None => Err(Refusal::ArgOutOfRange { index }),
        Some(argument) => match argument.kind() {
            GenericArgKind::Type(ty) => Ok(ty),
            GenericArgKind::Lifetime(_) | GenericArgKind::Const(_) => {
                Err(Refusal::ArgKind { index })
            }
        },
    }
}

// Returns the constant at the index.
fn const_at<S: SliceLike>(cx: &Interner, args: S, index: u32) -> Result<Const, Refusal>
    requires owned { S.owned cx.now.rows args }
    requires some { S.items cx.now.rows args ≢ [] }
    ensures ok { IfOk result (λ constant. slice_get (S.items cx.now.rows args) index
        ≡ Some (GenericArgKind.Const constant)) }
    ensures err { IfErr result (λ e. (name : Name) → Cause
        (param const_sort index name)
        (arguments cx.now.rows (S.items cx.now.rows args))
        e) }
{
    match args.get(cx, index as usize) {
        None => Err(Refusal::ArgOutOfRange { index }),
        Some(argument) => match argument.kind() {
            GenericArgKind::Const(constant) => Ok(constant),
            GenericArgKind::Lifetime(_) | GenericArgKind::Type(_) => {
                Err(Refusal::ArgKind { index })
            }
        },
    }
}

/// Returns the argument for the region parameter of the index, shifted past the enclosing binders.
#[inline(never)]
pub fn region_argument<S: SliceLike>(
    cx: &Interner,
    args: S,
    binders_passed: u32,
    index: u32,
) -> Result<Region, Refusal>
    requires owned { S.owned cx.now.rows args }
    requires are { AreArguments cx.now.rows (S.items cx.now.rows args) }
    requires some { S.items cx.now.rows args ≢ [] }
    ensures { (name : Name) → MatchResult
        result
        (λ r. IsPartOf cx.now.rows (region_shape r)
        × Instantiates
        (arguments cx.now.rows (S.items cx.now.rows args))
        binders_passed
        (param region_sort index name)
        (tree_in cx.now.rows (region_shape r)))
        (λ e. LeafRefuses
        (IsRefused cx.now)
        (arguments cx.now.rows (S.items cx.now.rows args))
        binders_passed
        (param region_sort index name)
        e) }
{
    let argument = region_at(cx, args, index)?;
    // A shift by 0 binders is never refused, since the region is in range.
    let _in_range = argument.in_range();
    let shifted = shift_region(argument, binders_passed)?;
    Ok(shifted)
}

/// Returns the argument for the type parameter of the index, shifted past the enclosing binders.
pub fn type_argument<S: SliceLike>(
    cx: &mut Interner,
    args: S,
    shifted: &mut Shifted<Ty>,
    binders_passed: u32,
    index: u32,
) -> Result<Ty, Refusal>
    requires owned { S.owned cx.old.rows args }
    requires are { AreArguments cx.old.rows (S.items cx.old.rows args) }
    requires some { S.items cx.old.rows args ≢ [] }
    requires shifted { OwnsShifts
        ty_shape
        cx.old.rows
        (arguments cx.old.rows (S.items cx.old.rows args))
        type_sort
        shifted.old }
    ensures extends { Extends cx.old cx.new }
    ensures descents { cx.new.counters.descents ≡ cx.old.counters.descents }
    ensures shift_descents { cx.old.counters.shift_descents ≤ cx.new.counters.shift_descents }
    ensures unshifted { binders_passed ≡ 0 → cx.new ≡ cx.old }
    ensures shifted { OwnsShifts
        ty_shape
        cx.new.rows
        (arguments cx.old.rows (S.items cx.old.rows args))
        type_sort
        shifted.new }
    ensures result { (name : Name) → MatchResult
        result
        (λ ty. IsPartOf cx.new.rows (ty_shape ty)
        × PutsArgument
        (arguments cx.old.rows (S.items cx.old.rows args))
        binders_passed
        (param type_sort index name)
        (tree_in cx.new.rows (ty_shape ty))
        (keys_of shifted.old)
        cx.old.counters
        (keys_of shifted.new)
        cx.new.counters)
        (λ e. LeafRefuses
        (IsRefused cx.new)
        (arguments cx.old.rows (S.items cx.old.rows args))
        binders_passed
        (param type_sort index name)
        e) }
{
    let argument = type_at(cx, args, index)?;
    let placed = shifted.shift(cx, argument, index, binders_passed)?;
    Ok(placed)
}

/// Returns the argument for the constant parameter of the index, shifted past the enclosing binders.
pub fn const_argument<S: SliceLike>(
    cx: &mut Interner,
    args: S,
    shifted: &mut Shifted<Const>,
    binders_passed: u32,
    index: u32,
) -> Result<Const, Refusal>
    requires owned { S.owned cx.old.rows args }
    requires are { AreArguments cx.old.rows (S.items cx.old.rows args) }
    requires some { S.items cx.old.rows args ≢ [] }
    requires shifted { OwnsShifts
        const_shape
        cx.old.rows
        (arguments cx.old.rows (S.items cx.old.rows args))
        const_sort
        shifted.old }
    ensures extends { Extends cx.old cx.new }
    ensures descents { cx.new.counters.descents ≡ cx.old.counters.descents }
    ensures shift_descents { cx.old.counters.shift_descents ≤ cx.new.counters.shift_descents }
    ensures unshifted { binders_passed ≡ 0 → cx.new ≡ cx.old }
    ensures shifted { OwnsShifts
        const_shape
        cx.new.rows
        (arguments cx.old.rows (S.items cx.old.rows args))
        const_sort
        shifted.new }
    ensures result { (name : Name) → MatchResult
        result
        (λ constant. IsPartOf cx.new.rows (const_shape constant)
        × PutsArgument
        (arguments cx.old.rows (S.items cx.old.rows args))
        binders_passed
        (param const_sort index name)
        (tree_in cx.new.rows (const_shape constant))
        (keys_of shifted.old)
        cx.old.counters
        (keys_of shifted.new)
        cx.new.counters)
        (λ e. LeafRefuses
        (IsRefused cx.new)
        (arguments cx.old.rows (S.items cx.old.rows args))
        binders_passed
        (param const_sort index name)
        e) }
{
    let constant = const_at(cx, args, index)?;
    let placed = shifted.shift(cx, constant, index, binders_passed)?;
    Ok(placed)
}

// Returns the parameter's index, if the type is a parameter.
fn type_parameter(cx: &Interner, ty: Ty) -> Option<u32>
    requires { IsPartOf cx.now.rows (ty_shape ty) }
    ensures { MatchOption
        result
        ((i : ℕ) → IsParam type_sort i (tree_in cx.now.rows (ty_shape ty)) → ⊥)
        (λ index. IsParam type_sort index (tree_in cx.now.rows (ty_shape ty))) }
{
    cx.are_rows();
    match ty.kind(cx) {
        TyKind::Param(parameter) => Some(parameter.index),
        _ => None,
    }
}

/// Returns the parameter's index, if the constant is a parameter.
pub fn const_parameter(cx: &Interner, constant: Const) -> Option<u32>
    requires { IsPartOf cx.now.rows (const_shape constant) }
    ensures { MatchOption
        result
        ((i : ℕ) → IsParam const_sort i (tree_in cx.now.rows (const_shape constant)) → ⊥)
        (λ index. IsParam const_sort index (tree_in cx.now.rows (const_shape constant))) }
{
    cx.are_rows();
    match constant.kind(cx) {
        ConstKind::Param(parameter) => Some(parameter.index),
        _ => None,
    }
}

/// A folder that replaces parameters by arguments, and counts the binders that it enters. There has to be an argument.
///
/// A type that occurs again under the same number of binders isn't taken apart again, and the argument of a parameter
/// that occurs again under the same number of binders isn't shifted again.
#[derive(Drop)]
pub struct ArgFolder<S> {
    args: S,
    binders_passed: u32,
    // the results of the types that were taken apart
    memory: Memory,
    // the arguments that were shifted past binders
    types: Shifted<Ty>,
    consts: Shifted<Const>,
}

impl<S: Copy> ArgFolder<S> {
    /// Returns a folder that has entered no binder, with empty memories that allocate nothing.
    pub fn new(alloc: Global, args: S) -> ArgFolder<S>
        ensures args { result.args ≡ args }
        ensures binders_passed { result.binders_passed ≡ 0 }
        ensures memory { result.memory ≡ [] }
        ensures types { result.types ≡ [] }
        ensures consts { result.consts ≡ [] }
    {
        ArgFolder {
            args,
            binders_passed: 0,
            memory: Memory::new(alloc),
            types: Shifted::new(alloc),
            consts: Shifted::new(alloc),
        }
    }
}

impl<S: SliceLike> TypeFolder for ArgFolder<S> {
    ghost Meaning = { Instantiation };

    ghost meaning = { λ rows s. record {
      rule = arguments rows (S.items rows s.args);
      under = s.binders_passed;
      kept = keys_of s.types ++ keys_of s.consts;
      memory = memos rows s.memory;
    } };

    ghost owned = { λ rows s. OwnsArguments S.items S.owned rows s.args s.memory s.types s.consts };

    ghost hooks = { arg_hooks };

    ghost touches_nothing = { λ rows s t. IsOpenParam s.binders_passed t };

    fn fold_region(&mut self, cx: &mut Interner, region: Region) -> Result<Region, Refusal> {
        match region.kind() {
            RegionKind::ReEarlyParam(parameter) => {
                let new = region_argument(cx, self.args, self.binders_passed, parameter.index)?;
                Ok(new)
            }
            RegionKind::ReVar(vid) => Err(Refusal::RegionVariable(vid)),
            _ => Ok(region),
        }
    }

    #[inline(always)]
    fn fold_ty(&mut self, cx: &mut Interner, ty: Ty) -> Result<Step<Ty>, Refusal> {
        if !ty.flags(cx).intersects(TypeFlags::HAS_PARAM) {
            return Ok(Step::Keep);
        }
        match type_parameter(cx, ty) {
            Some(index) => {
                let new = type_argument(
                    cx,
                    self.args,
                    &mut self.types,
                    self.binders_passed,
                    index,
                )?;
                Ok(Step::Replace(new))
            }
            None => match look_up(cx, &self.memory, ty, self.binders_passed) {
                Some(known) => Ok(Step::Replace(known)),
                None => {
                    cx.count_descent();
                    Ok(Step::Descend)
                }
            },
        }
    }

    #[inline(always)]
    fn after_ty(&mut self, _cx: &mut Interner, before: Ty, rebuilt: Ty) -> Result<Ty, Refusal> {
        self.memory.note(before, self.binders_passed, rebuilt)?;
        Ok(rebuilt)
    }

    fn fold_const(&mut self, cx: &mut Interner, constant: Const) -> Result<Step<Const>, Refusal> {
        match const_parameter(cx, constant) {
            Some(index) => {
                let new = const_argument(
                    cx,
                    self.args,
                    &mut self.consts,
                    self.binders_passed,
                    index,
                )?;
                Ok(Step::Replace(new))
            }
            // A constant without parameters is entered too: a region variable may occur in it.
            None => Ok(Step::Descend),
        }
    }

    fn after_const(
        &mut self,
        _cx: &mut Interner,
        _before: Const,
        rebuilt: Const,
    ) -> Result<Const, Refusal> {
        Ok(rebuilt)
    }

    fn fold_predicate(
        &mut self,
        cx: &mut Interner,
        predicate: Predicate,
    ) -> Result<Step<Predicate>, Refusal> {
        if predicate.flags(cx).intersects(TypeFlags::HAS_PARAM) {
            Ok(Step::Descend)
        } else {
            Ok(Step::Keep)
        }
    }

    fn after_predicate(
        &mut self,
        _cx: &mut Interner,
        _before: Predicate,
        rebuilt: Predicate,
    ) -> Result<Predicate, Refusal> {
        Ok(rebuilt)
    }

    fn fold_clauses(
        &mut self,
        cx: &mut Interner,
        clauses: Clauses,
    ) -> Result<Step<Clauses>, Refusal> {
        if clauses.flags(cx).intersects(TypeFlags::HAS_PARAM) {
            Ok(Step::Descend)
        } else {
            Ok(Step::Keep)
        }
    }

    fn after_clauses(
        &mut self,
        _cx: &mut Interner,
        _before: Clauses,
        rebuilt: Clauses,
    ) -> Result<Clauses, Refusal> {
        Ok(rebuilt)
    }

    fn fold_binder(&mut self, _cx: &mut Interner, _vars: BoundVarKinds) -> Result<(), Refusal> {
        if self.binders_passed < GREATEST_INDEX {
            self.binders_passed += 1;
            Ok(())
        } else {
            Err(Refusal::GreatestIndex)
        }
    }

    fn after_binder(&mut self, _cx: &mut Interner, _vars: BoundVarKinds) -> Result<(), Refusal> {
        self.binders_passed = self.binders_passed.saturating_sub(1);
        Ok(())
    }

    ghost use Rattle.tt_binder.specs.ArgumentLaws.{owned-still, state-still};

    ghost still_owned = { λ old new s g h. owned-still S.still_owned S.still_items old new
        s.args
        s.memory
        s.types
        s.consts
        g.grows
        h };

    ghost still_means = { λ old new s g h. state-still old new
        (S.items old s.args)
        (S.items new s.args)
        s.binders_passed
        (keys_of s.types ++ keys_of s.consts)
        s.memory
        g.grows
        (S.still_items old new s.args g.grows h.0)
        h.1
        h.3 };
}
