//! Words that name regions.

ghost use Rattle.std.specs.Prelude.{◌≤◌, IfOk};
ghost use Rattle.tt_index.specs.Greatest.{greatest};

use crate::call::{RegionCall, RegionNameCall};
use crate::script::line::LineError;
use crate::script::number::parse_number;
use std::alloc::{AllocError, Global};
use tt_index::{BoundVar, DebruijnIndex, GREATEST_INDEX, RegionVid};
use tt_kinds::{BoundVarIndexKind, ErrorGuaranteed};

/// Returns the region that a word names.
#[inline(always)]
pub fn parse_region(alloc: Global, word: &[u8]) -> Result<RegionCall, LineError> {
    match word {
        b"'static" => Ok(RegionCall::ReStatic),
        b"'erased" => Ok(RegionCall::ReErased),
        [b'\'', b'?', digits @ ..] => { Ok(RegionCall::ReVar(RegionVid::from_u32(index(digits)?))) }
        [b'\'', b'p', digits @ ..] => Ok(RegionCall::ReEarlyParam {
            index: parse_number(digits, u32::MAX).ok_or(LineError::Bad)?,
            name: anonymous(alloc)?,
        }),
        [b'\'', b'^', numbers @ ..] => bound_region(numbers),
        [b'\'', b'c', b'.', digits @ ..] => Ok(RegionCall::ReBound(
            BoundVarIndexKind::Canonical,
            variable(digits)?,
            RegionNameCall::Anon,
        )),
        [b'\'', b'e', digits @ ..] => {
            let token = parse_number(digits, u32::MAX).ok_or(LineError::Bad)?;
            Ok(RegionCall::ReError(ErrorGuaranteed(token)))
        }
        _ => Err(LineError::Bad),
    }
}

/// Returns `'_`, the name of each parameter in a script.
pub fn anonymous(alloc: Global) -> Result<String, AllocError> {
    String::from_str(alloc, "'_")
}

/// Returns the index that the digits write, at most [`GREATEST_INDEX`].
pub fn index(digits: &[u8]) -> Result<u32, LineError>
    ensures { IfOk result (λ n. n ≤ greatest) }
{
    parse_number(digits, GREATEST_INDEX).ok_or(LineError::Bad)
}

// Returns the bound region of two numbers with a point between them.
fn bound_region(numbers: &[u8]) -> Result<RegionCall, LineError> {
    let point = numbers
        .iter()
        .position(|byte| *byte == b'.')
        .ok_or(LineError::Bad)?;
    let binder = DebruijnIndex::from_u32(index(&numbers[..point])?);
    let variable = variable(&numbers[point + 1..])?;
    Ok(RegionCall::ReBound(
        BoundVarIndexKind::Bound(binder),
        variable,
        RegionNameCall::Anon,
    ))
}

// Returns the place of this number in a binder's list.
fn variable(digits: &[u8]) -> Result<BoundVar, LineError> {
    Ok(BoundVar::from_u32(index(digits)?))
}
