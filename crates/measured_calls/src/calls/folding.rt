//! Folds of types, and a question about them.

use super::Numbered;
use test_terms::{NOT_OWNED, instance, param_ty, ref_ty, shifted, tuple};
use type_terms::{
    BoundRegion, BoundRegionKind, BoundVar, DebruijnIndex, GenericArg, Interner, Owned, Refusal,
    Region, Ty, TypeFlags, TypeFoldable, TypeVisitableExt, fold_regions,
};

// Returns `&'^0.N T`, where N is the number and T the type.
fn reference(cx: &mut Interner, referent: Ty, number: u32) -> Result<Ty, Refusal> {
    if !BoundVar::fits(number) {
        return Err(Refusal::GreatestIndex);
    }
    let bound_region = BoundRegion {
        var: BoundVar::from_u32(number),
        kind: BoundRegionKind::Anon,
    };
    let region = Region::new_bound(DebruijnIndex::INNERMOST, bound_region)?;
    ref_ty(cx, region, referent)
}

// Returns so many references to the parameter `T`, each with a region of its own.
fn references(cx: &mut Interner, count: u32) -> Result<Vec<Ty>, Refusal> {
    let parameter = param_ty(cx, 0)?;
    let mut list = Vec::new(cx.allocator());
    for number in 0..count {
        list.push(reference(cx, parameter, number)?)?;
    }
    Ok(list)
}

// Returns the tuples of the items, nine to a tuple.
fn nines(cx: &mut Interner, items: &[Ty]) -> Result<Vec<Ty>, Refusal> {
    let mut list = Vec::new(cx.allocator());
    for part in items.chunks_exact(9) {
        list.push(tuple(cx, part)?)?;
    }
    Ok(list)
}

// Returns the tuples of the items, eleven to a tuple.
fn elevens(cx: &mut Interner, items: &[Ty]) -> Result<Vec<Ty>, Refusal> {
    let mut list = Vec::new(cx.allocator());
    for part in items.chunks_exact(11) {
        list.push(tuple(cx, part)?)?;
    }
    Ok(list)
}

/// Returns types of this size, which together have as many types as `rows` says: references, tuples of nine references,
/// or tuples of nine tuples of eleven tuples of nine references. The type to which all references refer isn't counted.
pub fn sources(cx: &mut Interner, size: u32, rows: u32) -> Result<Vec<Ty>, Refusal> {
    match size {
        1 => references(cx, rows),
        10 => {
            let parts = references(cx, (rows / 10).wrapping_mul(9))?;
            nines(cx, parts.as_slice())
        }
        _ => {
            let parts = references(cx, (rows / 1000).wrapping_mul(891))?;
            let inner = nines(cx, parts.as_slice())?;
            let outer = elevens(cx, inner.as_slice())?;
            nines(cx, outer.as_slice())
        }
    }
}

// Returns the type of this number.
pub fn type_at(types: &[Ty], number: u32) -> Result<Ty, Refusal> {
    types.get(number as usize).copied().ok_or(NOT_OWNED)
}

/// `shift_vars` of a type by one binder.
#[derive(Drop)]
pub struct ShiftVars {
    pub sources: Vec<Ty>,
}

impl Numbered for ShiftVars {
    fn make(&self, cx: &mut Interner, number: u32) -> Result<u32, Refusal> {
        let source = type_at(self.sources.as_slice(), number)?;
        Ok(shifted(cx, source, 1)?.number())
    }
}

/// `instantiate` of a type with `bool` for the parameter.
#[derive(Drop)]
pub struct Instantiate {
    pub sources: Vec<Ty>,
}

impl Numbered for Instantiate {
    fn make(&self, cx: &mut Interner, number: u32) -> Result<u32, Refusal> {
        let source = type_at(self.sources.as_slice(), number)?;
        let args = [GenericArg::from(Ty::from_number(1))];
        Ok(instance(cx, source, args.as_slice())?.number())
    }
}

// Returns the value with its regions erased.
#[tactic(auto, using(tt_fold::proofs::RegionAnswers::region_answers))]
fn erased<T: Owned + TypeFoldable>(cx: &mut Interner, value: T) -> Result<T, Refusal> {
    if value.is_owned(cx) {
        fold_regions(cx, value, |_, _| Region::new_erased())
    } else {
        Err(NOT_OWNED)
    }
}

/// `fold_regions` of a type, by a closure that erases each region.
#[derive(Drop)]
pub struct FoldRegions {
    pub sources: Vec<Ty>,
}

impl Numbered for FoldRegions {
    fn make(&self, cx: &mut Interner, number: u32) -> Result<u32, Refusal> {
        let source = type_at(self.sources.as_slice(), number)?;
        Ok(erased(cx, source)?.number())
    }
}

/// `has_type_flags` of a type, for the flag of parameters.
#[derive(Clone, Copy)]
pub struct HasParam;

impl Numbered for HasParam {
    fn make(&self, cx: &mut Interner, number: u32) -> Result<u32, Refusal> {
        let ty = Ty::from_number(number);
        if !ty.is_owned(cx) {
            return Err(NOT_OWNED);
        }
        Ok(u32::from(ty.has_type_flags(cx, TypeFlags::HAS_TY_PARAM)))
    }
}
