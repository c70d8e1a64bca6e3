//! Shifting: moving a value under more binders, where each variable that is bound outside of the value keeps its
//! binder.

ghost use Rattle.std.specs.Prelude.{◌≡◌, ◌+◌, ◌<◌, ◌≤◌, ◌↔◌, ◌⊎◌, IfOk, IfErr, IsTrue, MatchResult};
ghost use Rattle.tt_kinds.specs.RegionKind.{IsShallow};
ghost use Rattle.tt_kinds.specs.Shape.{fill, IsPart, Meaning, Sizes};
ghost use Rattle.tt_kinds.specs.Reading.{Fits, move, outer_binder, read};
ghost use Rattle.tt_kinds.specs.Plain.{shift_tree};
ghost use Rattle.tt_kinds.specs.Count.{moving_types};
ghost use Rattle.tt_kinds.specs.Kinds.{const_kind_shape, const_shape, region_shape, ty_kind_shape, ty_shape};
ghost use Rattle.tt_interner.specs.Stored.{Extends};
ghost use Rattle.tt_fold.specs.Steps.{IsPartBy, IsPartOf, IsRefused, tree_by, tree_in};
ghost use Rattle.tt_fold.specs.Places.{CountsPairs};
ghost use Rattle.tt_fold.specs.Memory.{OwnsMemos};
ghost use Rattle.tt_fold.specs.Shift.{
  bound_const_of,
  bound_ty_of,
  IsOuter,
  IsTooFar,
  IsTooGreat,
  moved_tree,
  IsPast,
  IsShiftedRegion,
  IsShiftRefusal,
  moved_index,
  moved_region,
  moving_positions,
  ComesOf,
  KeepsMatched,
  Shift,
  ShiftsAddUp,
  ShiftsKeepApart,
  ShiftsOn,
};

use crate::foldable::TypeFoldable;
use crate::folder::{Step, TypeFolder};
use crate::memory::{Memory, look_up};
use tt_index::{DebruijnIndex, Refusal};
use tt_interner::{Flags, Interner};
use tt_kinds::{
    BoundConst, BoundTy, BoundVarIndexKind, BoundVarKinds, Clauses, Const, ConstKind, Kind,
    Predicate, Region, RegionKind, Ty, TyKind,
};
use tt_visit::TypeVisitableExt;

// Shifts a value by `amount` binders. Each type is taken apart once under each number of binders, and its result is
// remembered.
#[derive(Drop)]
struct Shifter {
    amount: u32,
    // the number of binders of the value around the current place
    current_index: DebruijnIndex,
    memory: Memory,
}

// Returns the index of a variable under `current_index` binders, with `amount` added if its binder is none of these.
fn shift_index(
    index: BoundVarIndexKind,
    current_index: DebruijnIndex,
    amount: u32,
) -> Result<BoundVarIndexKind, Refusal>
    ensures { MatchResult
        result
        (λ shifted. shifted ≡ moved_index amount current_index index)
        (λ e. (e ≡ Refusal.GreatestIndex) × IsPast amount current_index index) }
{
    match index {
        BoundVarIndexKind::Bound(debruijn) => {
            if debruijn < current_index {
                Ok(BoundVarIndexKind::Bound(debruijn))
            } else if debruijn.can_shift_in(amount) {
                Ok(BoundVarIndexKind::Bound(debruijn.shifted_in(amount)))
            } else {
                Err(Refusal::GreatestIndex)
            }
        }
        BoundVarIndexKind::Canonical => Ok(BoundVarIndexKind::Canonical),
    }
}

// Returns a region under `current_index` binders, shifted past `amount` more binders around these.
fn shift_region_under(
    region: Region,
    current_index: DebruijnIndex,
    amount: u32,
) -> Result<Region, Refusal>
    ensures region { IsShallow region }
    ensures result { MatchResult
        result
        (λ shifted. (shifted ≡ moved_region amount current_index region) × IsShallow shifted)
        (λ e. (e ≡ Refusal.GreatestIndex) × (IsShallow (moved_region amount current_index region) → ⊥)) }
{
    match region.kind() {
        RegionKind::ReBound(index, bound_region) => {
            let shifted = shift_index(index, current_index, amount)?;
            Region::new(RegionKind::ReBound(shifted, bound_region))
        }
        _ => Ok(region),
    }
}

/// Returns the region shifted by `amount` binders: the index of a bound region grows by the amount. Refused with
/// `GreatestIndex` if the index would be the greatest or above, and never otherwise.
pub fn shift_region(region: Region, amount: u32) -> Result<Region, Refusal>
    ensures ok { (f : Meaning) → IfOk result (IsShiftedRegion f amount region) }
    ensures in_range { (size : Sizes) → IsPart size (region_shape region)
        → IfOk result (λ shifted. IsPart size (region_shape shifted)) }
    ensures err { (f : Meaning) → IfErr result (λ e. (e ≡ Refusal.GreatestIndex)
        × (Fits (move amount (read 0 (fill f (region_shape region)))) → ⊥)) }
{
    shift_region_under(region, DebruijnIndex::INNERMOST, amount)
}

/// Returns the index and the variable, if the kind is a bound type.
pub fn bound_ty(kind: &Kind) -> Option<(BoundVarIndexKind, BoundTy)>
    ensures { result ≡ bound_ty_of kind.now }
{
    match kind {
        Kind::Ty(kind) => match kind {
            TyKind::Bound(index, bound_ty) => Some((*index, *bound_ty)),
            _ => None,
        },
        _ => None,
    }
}

/// Returns the index and the variable, if the kind is a bound constant.
pub fn bound_const(kind: &Kind) -> Option<(BoundVarIndexKind, BoundConst)>
    ensures { result ≡ bound_const_of kind.now }
{
    match kind {
        Kind::Const(kind) => match kind {
            ConstKind::Bound(index, bound_const) => Some((*index, *bound_const)),
            _ => None,
        },
        _ => None,
    }
}

impl Shifter {
    // Returns whether a binder outside of the value binds a variable in a term with this outer exclusive binder.
    fn moves(&self, outer_exclusive_binder: DebruijnIndex) -> bool
        ensures { IsTrue result ↔ (self.now.current_index < outer_exclusive_binder) }
    {
        outer_exclusive_binder > self.current_index
    }

    // Returns a bound type, shifted.
    fn shift_bound_ty(
        &self,
        cx: &mut Interner,
        index: BoundVarIndexKind,
        bound_ty: BoundTy,
    ) -> Result<Ty, Refusal>
        requires { IsOuter self.now.current_index index }
        ensures extends { Extends cx.old cx.new }
        ensures counters { cx.new.counters ≡ cx.old.counters }
        ensures result { let shift : Shift = record { amount = self.now.amount; under = self.now.current_index } in
            let tree = tree_in cx.old.rows (ty_kind_shape (TyKind.Bound index bound_ty)) in
            MatchResult
            result
            (λ ty. IsPartOf cx.new.rows (ty_shape ty) × (tree_in cx.new.rows (ty_shape ty) ≡ moved_tree shift tree))
            (λ e. IsTooGreat e (IsTooFar shift tree) ⊎ IsRefused cx.new (moved_tree shift tree) e) }
    {
        match shift_index(index, self.current_index, self.amount) {
            Ok(shifted) => cx.mk_ty(TyKind::Bound(shifted, bound_ty)),
            Err(e) => Err(e),
        }
    }

    // Returns a bound constant, shifted.
    fn shift_bound_const(
        &self,
        cx: &mut Interner,
        index: BoundVarIndexKind,
        bound_const: BoundConst,
    ) -> Result<Const, Refusal>
        requires { IsOuter self.now.current_index index }
        ensures extends { Extends cx.old cx.new }
        ensures counters { cx.new.counters ≡ cx.old.counters }
        ensures result { let shift : Shift = record { amount = self.now.amount; under = self.now.current_index } in
            let tree = tree_in cx.old.rows (const_kind_shape (ConstKind.Bound index bound_const)) in
            MatchResult
            result
            (λ constant. IsPartOf cx.new.rows (const_shape constant)
            × (tree_in cx.new.rows (const_shape constant) ≡ moved_tree shift tree))
            (λ e. IsTooGreat e (IsTooFar shift tree) ⊎ IsRefused cx.new (moved_tree shift tree) e) }
    {
        match shift_index(index, self.current_index, self.amount) {
            Ok(shifted) => cx.mk_const(ConstKind::Bound(shifted, bound_const)),
            Err(e) => Err(e),
        }
    }
}

impl TypeFolder for Shifter {
    ghost use Rattle.std.specs.Prelude.{⊤, ℕ};
    ghost use Rattle.tt_fold.specs.Remember.{State, remembering};
    ghost use Rattle.tt_fold.specs.Shift.{shifting, shift_state};
    ghost use Rattle.tt_fold.specs.MemoryGrowth.{OwnsMemos-still, shift_state-still};

    ghost Meaning = { State ℕ ⊤ };

    ghost meaning = { λ rows s. shift_state s.amount s.current_index rows s.memory };

    ghost owned = { λ rows s. OwnsMemos rows s.memory };

    ghost hooks = { remembering shifting };

    fn fold_region(&mut self, _cx: &mut Interner, region: Region) -> Result<Region, Refusal> {
        shift_region_under(region, self.current_index, self.amount)
    }

    #[inline(always)]
    fn fold_ty(&mut self, cx: &mut Interner, ty: Ty) -> Result<Step<Ty>, Refusal> {
        if !self.moves(ty.outer_exclusive_binder(cx)) {
            return Ok(Step::Keep);
        }
        let kind = cx.node_kind(ty.any());
        match bound_ty(&kind) {
            Some((index, bound_ty)) => {
                let shifted = self.shift_bound_ty(cx, index, bound_ty)?;
                Ok(Step::Replace(shifted))
            }
            None => match look_up(cx, &self.memory, ty, self.current_index.as_u32()) {
                Some(after) => Ok(Step::Replace(after)),
                None => {
                    cx.count_shift_descent();
                    Ok(Step::Descend)
                }
            },
        }
    }

    #[inline(always)]
    fn after_ty(&mut self, _cx: &mut Interner, before: Ty, rebuilt: Ty) -> Result<Ty, Refusal> {
        self.memory
            .note(before, self.current_index.as_u32(), rebuilt)?;
        Ok(rebuilt)
    }

    fn fold_const(&mut self, cx: &mut Interner, constant: Const) -> Result<Step<Const>, Refusal> {
        if !self.moves(constant.outer_exclusive_binder(cx)) {
            return Ok(Step::Keep);
        }
        let kind = cx.node_kind(constant.any());
        match bound_const(&kind) {
            Some((index, bound_const)) => {
                let shifted = self.shift_bound_const(cx, index, bound_const)?;
                Ok(Step::Replace(shifted))
            }
            None => Ok(Step::Descend),
        }
    }

    fn after_const(
        &mut self,
        _cx: &mut Interner,
        _before: Const,
        rebuilt: Const,
    ) -> Result<Const, Refusal> {
        Ok(rebuilt)
    }

    fn fold_predicate(
        &mut self,
        cx: &mut Interner,
        predicate: Predicate,
    ) -> Result<Step<Predicate>, Refusal> {
        if self.moves(predicate.outer_exclusive_binder(cx)) {
            Ok(Step::Descend)
        } else {
            Ok(Step::Keep)
        }
    }

    fn after_predicate(
        &mut self,
        _cx: &mut Interner,
        _before: Predicate,
        rebuilt: Predicate,
    ) -> Result<Predicate, Refusal> {
        Ok(rebuilt)
    }

    fn fold_clauses(
        &mut self,
        cx: &mut Interner,
        clauses: Clauses,
    ) -> Result<Step<Clauses>, Refusal> {
        if self.moves(clauses.outer_exclusive_binder(cx)) {
            Ok(Step::Descend)
        } else {
            Ok(Step::Keep)
        }
    }

    fn after_clauses(
        &mut self,
        _cx: &mut Interner,
        _before: Clauses,
        rebuilt: Clauses,
    ) -> Result<Clauses, Refusal> {
        Ok(rebuilt)
    }

    fn fold_binder(&mut self, _cx: &mut Interner, _vars: BoundVarKinds) -> Result<(), Refusal> {
        if self.current_index.can_shift_in(1) {
            self.current_index.shift_in(1);
            Ok(())
        } else {
            Err(Refusal::GreatestIndex)
        }
    }

    fn after_binder(&mut self, _cx: &mut Interner, _vars: BoundVarKinds) -> Result<(), Refusal> {
        if self.current_index.can_shift_out(1) {
            self.current_index.shift_out(1);
        }
        Ok(())
    }

    ghost still_owned = { λ old new s g h. OwnsMemos-still old new s.memory g.grows h };

    ghost still_means = { λ old new s g h. shift_state-still s.amount s.current_index old new s.memory g.grows h };
}

/// Returns the value shifted by `amount` binders: under that many more binders, each variable that is bound outside of
/// the value keeps its binder.
///
/// If no such variable occurs in the value, or the amount is 0, the value itself is returned, nothing is built, and no
/// memory is allocated. Otherwise the call may be refused with:
///
/// - `GreatestIndex` if such a variable's index would be the greatest or above, or if more binders enclose such a
///   variable than an index can count;
/// - `TableFull` if a term or a list of the shifted value is new and its table is full;
/// - `Memory` if memory is refused for the result, for the fold itself, or for the results of types, which are
///   remembered until the call ends. The first eight of these need no memory.
///
/// A type that has such a variable is taken apart at most once for each number of binders around its places. Each time
/// adds one to the interner's count of the shifter's descents, which saturates at its greatest number. The other count
/// stays.
pub fn shift_vars<T: TypeFoldable>(cx: &mut Interner, value: T, amount: u32) -> Result<T, Refusal>
    requires { IsPartBy T.shape cx.old.rows value }
    // In each case:
    ensures extends { Extends cx.old cx.new }
    // On success:
    ensures in_range { IfOk result (λ shifted. IsPartBy T.shape cx.new.rows shifted) }
    ensures plain { IfOk result (λ shifted. read 0 (tree_by T.shape cx.new.rows shifted)
        ≡ move amount (read 0 (tree_by T.shape cx.old.rows value))) }
    ensures tree { IfOk result (λ shifted. tree_by T.shape cx.new.rows shifted
        ≡ shift_tree 0 amount (tree_by T.shape cx.old.rows value)) }
    ensures adds_up { IfOk result (λ shifted. ShiftsOn amount
        (tree_by T.shape cx.old.rows value)
        (tree_by T.shape cx.new.rows shifted)) }
    ensures tells_apart { IfOk result (λ shifted. ComesOf amount
        (tree_by T.shape cx.old.rows value)
        (tree_by T.shape cx.new.rows shifted)) }
    ensures matched { IfOk result (λ shifted. KeepsMatched
        (tree_by T.shape cx.old.rows value)
        (tree_by T.shape cx.new.rows shifted)) }
    // On a refusal:
    ensures err { IfErr result (IsShiftRefusal cx.new amount (tree_by T.shape cx.old.rows value)) }
    // Where there is nothing to shift:
    ensures same { (amount ≡ 0) ⊎ (outer_binder (tree_by T.shape cx.old.rows value) ≡ 0)
        → (result ≡ Ok value) × (cx.new ≡ cx.old) }
    // The counts of descents:
    ensures descents { cx.new.counters.descents ≡ cx.old.counters.descents }
    ensures shift_descents { cx.old.counters.shift_descents ≤ cx.new.counters.shift_descents }
    ensures positions { cx.new.counters.shift_descents
        ≤ cx.old.counters.shift_descents + moving_positions (tree_by T.shape cx.old.rows value) }
    ensures pairs { CountsPairs
        (moving_types 0 (tree_by T.shape cx.old.rows value))
        cx.old.counters.shift_descents
        cx.new.counters.shift_descents }
{
    if amount == 0 || !value.has_escaping_bound_vars(cx) {
        return Ok(value);
    }
    // Stored lists of clauses hold clauses alone, and a shifted clause is a clause. So no list is refused with
    // `NotAClause`.
    cx.are_rows();
    let mut shifter = Shifter {
        amount,
        current_index: DebruijnIndex::INNERMOST,
        memory: Memory::new(cx.allocator()),
    };
    value.fold_with(cx, &mut shifter)
}

/// Does nothing. The contract gives callers the fact that two shifts of a value are one shift by the sum.
pub fn shifts_add_up()
    ensures { ShiftsAddUp }
{}

/// Does nothing. The contract gives callers the fact that different values stay different when they are shifted.
pub fn shifts_keep_apart()
    ensures { ShiftsKeepApart }
{}
