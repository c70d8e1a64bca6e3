//! Overlaps that the client `solver` finds.

use crate::routines::derivations::{declare_all, implements_trait, slice_implements};
use solver::{Fault, Impl, Overlap, Program, first_overlap};
use test_terms::{param_ty, ty, u32_ty};
use type_terms::{Interner, Refusal, TyKind};

// Returns the first overlap of the three implementations.
fn overlap_of(
    cx: &mut Interner,
    (first, second, third): (Impl, Impl, Impl),
) -> Result<Option<Overlap>, Fault> {
    let mut program = Program::new(cx.allocator());
    match declare_all(cx, &mut program, first, second, third) {
        Ok(()) => first_overlap(cx, &program),
        Err(fault) => Err(fault),
    }
}

/// `impl Trait0 for u32`, `impl<T> Trait0 for [T] where T: Trait1` and `impl Trait0 for [bool] where bool: Trait1`: the
/// last two both apply to `[bool]`.
pub fn overlaps_are_found(cx: &mut Interner) -> Result<bool, Refusal> {
    let (param, number) = (param_ty(cx, 0)?, u32_ty(cx)?);
    let truth = ty(cx, TyKind::Bool)?;
    let truths = ty(cx, TyKind::Slice(truth))?;
    let of_number = Impl {
        params: 0,
        head: implements_trait(cx, 0, number)?,
        conditions: Vec::new(cx.allocator()),
    };
    let of_params = slice_implements(cx, param)?;
    let of_truths = slice_implements(cx, truth)?;
    let expected = Overlap {
        first: 1,
        second: 2,
        goal: implements_trait(cx, 0, truths)?,
    };
    match overlap_of(cx, (of_number, of_params, of_truths)) {
        Ok(found) => Ok(found == Some(expected)),
        Err(Fault::Refused(refusal)) => Err(refusal),
        Err(_) => Ok(false),
    }
}
