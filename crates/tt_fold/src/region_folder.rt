//! Folds of regions by a closure.

ghost use Rattle.std.specs.Prelude.{◌≡◌, [], IfErr, IfOk, Ok};
ghost use Rattle.tt_kinds.specs.Met.{met};
ghost use Rattle.tt_kinds.specs.declared.table.Table.TheVariants.{Symbols};
ghost use Rattle.tt_interner.specs.Rows.{size};
ghost use Rattle.tt_interner.specs.Stored.{Extends};
ghost use Rattle.tt_fold.specs.RegionFolder.{
  AnswersRegions,
  is_met,
  names_in,
  Places,
  PlacesSome,
  RegionFoldersPlace,
  RegionFoldersPlaceSome,
};
ghost use Rattle.tt_fold.specs.Steps.{IsPartBy, tree_by};

use crate::foldable::TypeFoldable;
use crate::folder::{Step, TypeFolder};
use tt_flags::TypeFlags;
use tt_index::{DebruijnIndex, Refusal};
use tt_interner::{Flags, Interner};
use tt_kinds::{
    BoundVarIndexKind, BoundVarKinds, Clauses, Const, Predicate, Region, RegionKind, Ty,
};
use tt_visit::TypeVisitableExt;

/// A folder that puts a closure's results, unshifted, in place of the regions that the folded value doesn't bind
/// itself.
///
/// The closure is called with the region and the number of the value's binders around it: at erased regions too, but
/// not at variables of a canonical query. If a handle occurs at several places, the closure is called at each of them.
/// A result that is bound by one of the binders around its place stays bound by this binder.
#[derive(Drop)]
pub struct RegionFolder<F> {
    f: F,
    // how many binders of the value enclose the place that was reached
    current_index: DebruijnIndex,
}

// Returns whether a region under `current_index` binders is bound by none of them and is not a variable of a canonical
// query.
fn meets(region: Region, current_index: DebruijnIndex) -> bool
    ensures { result ≡ is_met current_index region }
{
    match region.kind() {
        RegionKind::ReBound(index, _) => match index {
            BoundVarIndexKind::Bound(debruijn) => !(debruijn < current_index),
            BoundVarIndexKind::Canonical => false,
        },
        _ => true,
    }
}

impl<F: FnMut(Region, DebruijnIndex) -> Region> RegionFolder<F> {
    /// Returns a folder that calls this closure and has entered no binder.
    pub fn new(f: F) -> RegionFolder<F>
        ensures closure { result.f ≡ f }
        ensures innermost { result.current_index ≡ 0 }
    {
        RegionFolder {
            f,
            current_index: DebruijnIndex::INNERMOST,
        }
    }
}

impl<F: FnMut(Region, DebruijnIndex) -> Region> TypeFolder for RegionFolder<F> {
    ghost use Rattle.tt_fold.specs.Counts.{keeps_counters};
    ghost use Rattle.tt_fold.specs.RegionFolder.{Asking, region_hooks};

    ghost Meaning = { Asking F };

    ghost meaning = { λ rows s. record { closure = s.f; under = s.current_index; names = names_in rows } };

    ghost owned = { λ rows s. F.IsAlwaysCallable s.f
        × AnswersRegions (λ p region depth answer q. F.step p region depth answer q) (size rows Symbols) s.f };

    ghost hooks = { keeps_counters (region_hooks (λ p region depth answer q. F.step p region depth answer q)) };

    fn fold_region(&mut self, _cx: &mut Interner, region: Region) -> Result<Region, Refusal> {
        if meets(region, self.current_index) {
            let answer = (self.f)(region, self.current_index);
            Ok(answer)
        } else {
            Ok(region)
        }
    }

    fn fold_ty(&mut self, cx: &mut Interner, ty: Ty) -> Result<Step<Ty>, Refusal> {
        if ty.flags(cx).intersects(TypeFlags::HAS_REGIONS) {
            Ok(Step::Descend)
        } else {
            Ok(Step::Keep)
        }
    }

    fn after_ty(&mut self, _cx: &mut Interner, _before: Ty, rebuilt: Ty) -> Result<Ty, Refusal> {
        Ok(rebuilt)
    }

    fn fold_const(&mut self, cx: &mut Interner, constant: Const) -> Result<Step<Const>, Refusal> {
        if constant.flags(cx).intersects(TypeFlags::HAS_REGIONS) {
            Ok(Step::Descend)
        } else {
            Ok(Step::Keep)
        }
    }

    fn after_const(
        &mut self,
        _cx: &mut Interner,
        _before: Const,
        rebuilt: Const,
    ) -> Result<Const, Refusal> {
        Ok(rebuilt)
    }

    fn fold_predicate(
        &mut self,
        cx: &mut Interner,
        predicate: Predicate,
    ) -> Result<Step<Predicate>, Refusal> {
        if predicate.flags(cx).intersects(TypeFlags::HAS_REGIONS) {
            Ok(Step::Descend)
        } else {
            Ok(Step::Keep)
        }
    }

    fn after_predicate(
        &mut self,
        _cx: &mut Interner,
        _before: Predicate,
        rebuilt: Predicate,
    ) -> Result<Predicate, Refusal> {
        Ok(rebuilt)
    }

    fn fold_clauses(
        &mut self,
        cx: &mut Interner,
        clauses: Clauses,
    ) -> Result<Step<Clauses>, Refusal> {
        if clauses.flags(cx).intersects(TypeFlags::HAS_REGIONS) {
            Ok(Step::Descend)
        } else {
            Ok(Step::Keep)
        }
    }

    fn after_clauses(
        &mut self,
        _cx: &mut Interner,
        _before: Clauses,
        rebuilt: Clauses,
    ) -> Result<Clauses, Refusal> {
        Ok(rebuilt)
    }

    fn fold_binder(&mut self, _cx: &mut Interner, _vars: BoundVarKinds) -> Result<(), Refusal> {
        if self.current_index.can_shift_in(1) {
            self.current_index.shift_in(1);
            Ok(())
        } else {
            Err(Refusal::GreatestIndex)
        }
    }

    fn after_binder(&mut self, _cx: &mut Interner, _vars: BoundVarKinds) -> Result<(), Refusal> {
        if self.current_index.can_shift_out(1) {
            self.current_index.shift_out(1);
        }
        Ok(())
    }

    ghost use Rattle.tt_fold.specs.RegionFolderGrowth.{names-stay, answers-stay};

    ghost still_owned = { λ old new s g h. (h.0, answers-stay old new g h.1) };

    ghost still_means = { λ old new s g h. names-stay old new s.f s.current_index g };
}

/// Returns the value with each region that it doesn't bind itself replaced by the closure's result. A result is not
/// shifted, so a bound region whose index is below the number of binders around its place is bound by one of them.
///
/// The closure is called at each of these regions in order, with the number of the value's binders around the region:
/// at erased and static regions and regions of errors too, but at no variable of a canonical query. If a handle occurs
/// at several places, the closure is called at each of them. Its results have to be regions of this interner. If there
/// is no region to replace, the value itself is returned, the closure is not called, and nothing is built.
///
/// The closure's last state is not given back, so the contract speaks of some last state, and doesn't exclude further
/// calls. [`fold_regions_with`] takes the closure by reference: call it to exclude them, to use the closure again, or
/// to read what the closure recorded.
///
/// Refused with:
///
/// - `TableFull` if a term or a list with the closure's results so far is new and its table is full;
/// - `GreatestIndex` if more binders are nested than an index can count;
/// - `Memory` if the memory for the result or for the fold itself is refused.
///
/// The function follows the compiler's `fold_regions`.
pub fn fold_regions<T: TypeFoldable, F: FnMut(Region, DebruijnIndex) -> Region + Drop>(
    cx: &mut Interner,
    value: T,
    mut f: F,
) -> Result<T, Refusal>
    requires value { IsPartBy T.shape cx.old.rows value }
    requires callable { F.IsAlwaysCallable f }
    requires answers { AnswersRegions
        (λ p region depth answer q. F.step p region depth answer q)
        (size cx.old.rows Symbols)
        f }
    // In each case:
    ensures extends { Extends cx.old cx.new }
    ensures counters { cx.new.counters ≡ cx.old.counters }
    // On success:
    ensures in_range { IfOk result (λ folded. IsPartBy T.shape cx.new.rows folded) }
    ensures placed { IfOk result (λ folded. (last : F)
        × Places (λ p region depth answer q. F.step p region depth answer q) (names_in cx.old.rows) f
        (tree_by T.shape cx.old.rows value) (tree_by T.shape cx.new.rows folded) last) }
    // On a refusal:
    ensures err { IfErr result (λ refusal. (last : F)
        × PlacesSome (λ p region depth answer q. F.step p region depth answer q) (names_in cx.old.rows) cx.new f
        (tree_by T.shape cx.old.rows value) refusal last) }
    // Where there is no region to replace:
    ensures same { met 0 (tree_by T.shape cx.old.rows value) ≡ [] → (result ≡ Ok value) × (cx.new ≡ cx.old) }
{
    fold_regions_with(cx, value, &mut f)
}

/// Does what [`fold_regions`] does, with a closure that the caller keeps.
///
/// Afterwards the closure is in the state to which calls at exactly the replaced regions, in order, lead. After a
/// refusal these are calls at exactly the first of the regions. If there is no region to replace, the closure is as it
/// was.
pub fn fold_regions_with<T: TypeFoldable, F: FnMut(Region, DebruijnIndex) -> Region>(
    cx: &mut Interner,
    value: T,
    f: &mut F,
) -> Result<T, Refusal>
    requires value { IsPartBy T.shape cx.old.rows value }
    requires callable { F.IsAlwaysCallable f.old }
    requires answers { AnswersRegions
        (λ p region depth answer q. F.step p region depth answer q)
        (size cx.old.rows Symbols)
        f.old }
    // In each case:
    ensures extends { Extends cx.old cx.new }
    ensures counters { cx.new.counters ≡ cx.old.counters }
    // On success:
    ensures in_range { IfOk result (λ folded. IsPartBy T.shape cx.new.rows folded) }
    ensures placed { IfOk result (λ folded.
        Places (λ p region depth answer q. F.step p region depth answer q) (names_in cx.old.rows) f.old
        (tree_by T.shape cx.old.rows value) (tree_by T.shape cx.new.rows folded) f.new) }
    // On a refusal:
    ensures err { IfErr result (λ refusal.
        PlacesSome (λ p region depth answer q. F.step p region depth answer q) (names_in cx.old.rows) cx.new f.old
        (tree_by T.shape cx.old.rows value) refusal f.new) }
    // Where there is no region to replace:
    ensures same { met 0 (tree_by T.shape cx.old.rows value) ≡ [] →
        (result ≡ Ok value) × (cx.new ≡ cx.old) × (f.new ≡ f.old) }
    // The closure afterwards:
    ensures callable { F.IsAlwaysCallable f.new }
{
    if !value.meets_regions(cx) {
        return Ok(value);
    }
    fold_met_regions(cx, value, f)
}

// Does what `fold_regions_with` does, but walks the value even if there is no region to replace.
fn fold_met_regions<T: TypeFoldable, F: FnMut(Region, DebruijnIndex) -> Region>(
    cx: &mut Interner,
    value: T,
    f: &mut F,
) -> Result<T, Refusal>
    requires value { IsPartBy T.shape cx.old.rows value }
    requires callable { F.IsAlwaysCallable f.old }
    requires answers { AnswersRegions
        (λ p region depth answer q. F.step p region depth answer q)
        (size cx.old.rows Symbols)
        f.old }
    // In each case:
    ensures extends { Extends cx.old cx.new }
    ensures counters { cx.new.counters ≡ cx.old.counters }
    // On success:
    ensures in_range { IfOk result (λ folded. IsPartBy T.shape cx.new.rows folded) }
    ensures placed { IfOk result (λ folded.
        Places (λ p region depth answer q. F.step p region depth answer q) (names_in cx.old.rows) f.old
        (tree_by T.shape cx.old.rows value) (tree_by T.shape cx.new.rows folded) f.new) }
    // On a refusal:
    ensures err { IfErr result (λ refusal.
        PlacesSome (λ p region depth answer q. F.step p region depth answer q) (names_in cx.old.rows) cx.new f.old
        (tree_by T.shape cx.old.rows value) refusal f.new) }
    // The closure afterwards:
    ensures callable { F.IsAlwaysCallable f.new }
{
    // Stored lists of clauses hold clauses alone, and a clause stays one when its regions are replaced. So no list is
    // refused with `NotAClause`.
    cx.are_rows();
    let lent = |region: Region, depth: DebruijnIndex|
        requires callable { F.IsAlwaysCallable f.now }
        ensures callable { F.IsAlwaysCallable f.exit.now }
        ensures stepped { F.step f.entry.now region depth result f.exit.now }
    { f(region, depth) };
    let mut folder = RegionFolder::new(lent);
    value.fold_with(cx, &mut folder)
}

/// Does nothing. The contract gives callers the fact that [`TypeFoldable::fold_with`] with a new [`RegionFolder`]
/// replaces regions as [`fold_regions`] does.
pub fn region_folders_place<F: FnMut(Region, DebruijnIndex) -> Region>()
    ensures placed { RegionFoldersPlace (λ p region depth answer q. F.step p region depth answer q) }
    ensures ended { RegionFoldersPlaceSome (λ p region depth answer q. F.step p region depth answer q) }
{}
