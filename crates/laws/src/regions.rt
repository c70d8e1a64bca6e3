//! Folds of regions.

ghost use Rattle.std.specs.Prelude.{◌≡◌, IfOk};
ghost use Rattle.tt_kinds.specs.declared.table.Table.{Table};
ghost use Rattle.tt_interner.specs.Owned.{IsPartBy, tree_by};
ghost use Rattle.tt_interner.specs.Rows.{size};
ghost use Rattle.tt_fold.specs.RegionFolder.{AnswersRegions, Places, names_in};

use crate::NOT_OWNED;
use type_terms::{
    DebruijnIndex, Interner, Owned, Refusal, Region, RegionFolder, TypeFoldable, fold_regions_with,
    met_regions_placed_again, region_folders_place,
};

/// Returns the value, folded by a closure that returns each region as it is: its tree stays.
#[tactic(auto, using(tt_fold::proofs::RegionAnswers::region_answers))]
pub fn with_same_regions<T: Owned + TypeFoldable>(cx: &mut Interner, value: T) -> Result<T, Refusal>
    ensures { IfOk result (λ same. tree_by T.shape cx.new.rows same ≡ tree_by T.shape cx.old.rows value) }
{
    if !value.is_owned(cx) {
        return Err(NOT_OWNED);
    }
    met_regions_placed_again();
    let mut same = |region: Region, _depth: DebruijnIndex|
        ensures { result ≡ region }
    { region };
    fold_regions_with(cx, value, &mut same)
}

/// Returns the value, folded by a folder of regions: the closure's results are in the places of the regions that the
/// value doesn't bind, as after `fold_regions`.
pub fn folded_by_folder<T: TypeFoldable, F: FnMut(Region, DebruijnIndex) -> Region + Drop>(
    cx: &mut Interner,
    value: T,
    f: F,
) -> Result<T, Refusal>
    requires value { IsPartBy T.shape cx.old.rows value }
    requires callable { F.IsAlwaysCallable f }
    requires answers { AnswersRegions
        (λ p region depth answer q. F.step p region depth answer q)
        (size cx.old.rows Table.Symbols)
        f }
    ensures { IfOk result (λ folded. (last : F)
        × Places (λ p region depth answer q. F.step p region depth answer q) (names_in cx.old.rows) f
        (tree_by T.shape cx.old.rows value) (tree_by T.shape cx.new.rows folded) last) }
{
    region_folders_place::<F>();
    let mut folder = RegionFolder::new(f);
    value.fold_with(cx, &mut folder)
}
