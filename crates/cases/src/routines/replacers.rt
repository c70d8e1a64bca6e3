//! Folders with one hook, which builds terms, and closures that answer bound regions.

ghost use Rattle.std.specs.Prelude.{ℕ, IfOk};
ghost use Rattle.tt_fold.specs.RegionFolder.{HasName};

use test_terms::{
    NOT_OWNED, binder_index, bound_region, param_region, pointer, ref_ty, tuple, ty, u32_ty,
};
use type_terms::{
    BoundRegion, BoundRegionKind, BoundVar, BoundVarIndexKind, DebruijnIndex, EarlyParamRegion,
    GREATEST_INDEX, Interner, Owned, Refusal, Region, RegionKind, RegionReplacer, Step, Ty, TyKind,
    TypeFoldable, TypeReplacer, fold_regions, replace_regions, replace_types, replace_types_once,
};

// Replaces a type by its slice.
#[derive(Drop)]
struct Slices {
    of: Ty,
}

impl TypeReplacer for Slices {
    type Error = Refusal;

    fn replace_ty(&mut self, cx: &mut Interner, ty: Ty) -> Result<Step<Ty>, Refusal> {
        if ty == self.of {
            Ok(Step::Replace(cx.mk_ty(TyKind::Slice(ty))?))
        } else {
            Ok(Step::Descend)
        }
    }
}

// Replaces each region by a parameter, whose name it stores.
#[derive(Drop)]
struct Names;

impl RegionReplacer for Names {
    type Error = Refusal;

    fn replace_region(&mut self, cx: &mut Interner, _region: Region) -> Result<Region, Refusal> {
        let name = cx.symbol("'a")?;
        let named = Region::new(RegionKind::ReEarlyParam(EarlyParamRegion { index: 0, name }))?;
        if named.is_owned(cx) {
            Ok(named)
        } else {
            Err(NOT_OWNED)
        }
    }
}

// Returns the value with slices of the type in the type's places.
fn sliced<T: Owned + TypeFoldable>(cx: &mut Interner, value: T, of: Ty) -> Result<T, Refusal> {
    if value.is_owned(cx) {
        replace_types(cx, value, &mut Slices { of })
    } else {
        Err(NOT_OWNED)
    }
}

// Returns the same, by a fold that remembers the results of types.
fn sliced_once<T: Owned + TypeFoldable>(cx: &mut Interner, value: T, of: Ty) -> Result<T, Refusal> {
    if value.is_owned(cx) {
        replace_types_once(cx, value, Slices { of })
    } else {
        Err(NOT_OWNED)
    }
}

// Returns the value with a parameter in each region's place.
fn named<T: Owned + TypeFoldable>(cx: &mut Interner, value: T) -> Result<T, Refusal> {
    if value.is_owned(cx) {
        replace_regions(cx, value, &mut Names)
    } else {
        Err(NOT_OWNED)
    }
}

/// In tuples and functions, types are replaced by slices, and regions by a parameter.
pub fn replacements_are_built(cx: &mut Interner) -> Result<bool, Refusal> {
    let number = u32_ty(cx)?;
    let truth = ty(cx, TyKind::Bool)?;
    let region = bound_region(0)?;
    let numbers = tuple(cx, &[number, number])?;
    let function = pointer(cx, &[truth, truth])?;
    let borrowed = ref_ty(cx, region, numbers)?;
    let plain = sliced(cx, (region, borrowed), number)?;
    let once = sliced_once(cx, (function, function), truth)?;
    let with_names = named(cx, (region, borrowed))?;
    let slice = ty(cx, TyKind::Slice(number))?;
    let slices = tuple(cx, &[slice, slice])?;
    let truths = ty(cx, TyKind::Slice(truth))?;
    let replaced = pointer(cx, &[truths, truths])?;
    let parameter = param_region(cx, 0)?;
    Ok(
        plain == (region, ref_ty(cx, region, slices)?)
            && once == (replaced, replaced)
            && with_names == (parameter, ref_ty(cx, parameter, numbers)?),
    )
}

// Returns the first variable of the binder of this index, or of a canonical query, without a name.
fn variable(index: BoundVarIndexKind) -> Result<Region, Refusal>
    ensures { (symbols : ℕ) → IfOk result (HasName symbols) }
{
    let bound_region = BoundRegion {
        var: BoundVar::from_u32(0),
        kind: BoundRegionKind::Anon,
    };
    Region::new(RegionKind::ReBound(index, bound_region))
}

// Returns this variable, or the region if there is no such variable.
fn variable_or(index: BoundVarIndexKind, region: Region) -> Region
    ensures { (symbols : ℕ) → HasName symbols region → HasName symbols result }
{
    match variable(index) {
        Ok(variable) => variable,
        Err(_) => region,
    }
}

// Returns the value with the variable in the places of its regions, as a closure answers it.
#[tactic(auto, using(tt_fold::proofs::RegionAnswers::region_answers))]
fn answered<T: Owned + TypeFoldable>(
    cx: &mut Interner,
    value: T,
    index: BoundVarIndexKind,
) -> Result<T, Refusal> {
    if !value.is_owned(cx) {
        return Err(NOT_OWNED);
    }
    let answer = move |region: Region, _depth: DebruijnIndex|
        ensures { (symbols : ℕ) → HasName symbols region → HasName symbols result }
    { variable_or(index, region) };
    fold_regions(cx, value, answer)
}

// Returns a function that takes a reference with this region.
fn taker(cx: &mut Interner, region: Region) -> Result<Ty, Refusal> {
    let number = u32_ty(cx)?;
    let reference = ref_ty(cx, region, number)?;
    pointer(cx, &[reference, number])
}

/// A closure that answers a variable of a canonical query puts it there, and isn't called at it again. One that answers
/// a variable of the second greatest index puts it there too, and there is none of the greatest.
pub fn regions_are_answered(cx: &mut Interner) -> Result<bool, Refusal> {
    let second_greatest = GREATEST_INDEX.saturating_sub(1);
    let canonical = BoundVarIndexKind::Canonical;
    let greatest = BoundVarIndexKind::Bound(binder_index(GREATEST_INDEX)?);
    let last = BoundVarIndexKind::Bound(binder_index(second_greatest)?);
    let fixed = Region::new_static();
    let function = taker(cx, fixed)?;
    let asked = answered(cx, (function, fixed), canonical)?;
    let again = answered(cx, asked, last)?;
    let far = answered(cx, (function, fixed), last)?;
    let kept = answered(cx, far, greatest)?;
    let query = variable(canonical)?;
    let outermost = bound_region(second_greatest)?;
    Ok(
        asked == (taker(cx, query)?, query)
            && again == asked
            && far == (taker(cx, outermost)?, outermost)
            && kept == far,
    )
}
