//! Lines that build types.

use crate::call::{BoundTyKindCall, RegionNameCall, TyCall, VariableCall};
use crate::script::line::{LineError, number, position, positions};
use crate::script::regions::{anonymous, parse_region};
use crate::script::words::Words;
use std::alloc::Global;
use tt_index::{
    BoundVar, DebruijnIndex, ExternAbi, GREATEST_INDEX, IntTy, Mutability, Safety, TyVid, UintTy,
    UniverseIndex,
};
use tt_kinds::{BoundVarIndexKind, ErrorGuaranteed, FnHeader, FnSigKind, InferTy};

/// Returns the type of this first word and of as many further words of its line as the type needs.
pub fn parse_ty(alloc: Global, first: &[u8], words: &mut Words) -> Result<TyCall, LineError> {
    match first {
        b"param" => Ok(TyCall::Param {
            index: number(words, u32::MAX)?,
            name: anonymous(alloc)?,
        }),
        b"ref" => reference(alloc, words, Mutability::Not),
        b"refmut" => reference(alloc, words, Mutability::Mut),
        b"ptr" => Ok(TyCall::RawPtr(position(words)?, Mutability::Not)),
        b"ptrmut" => Ok(TyCall::RawPtr(position(words)?, Mutability::Mut)),
        b"slice" => Ok(TyCall::Slice(position(words)?)),
        b"tuple" => Ok(TyCall::Tuple(positions(alloc, words)?)),
        b"fn" => fn_ptr(alloc, words),
        _ => parse_leaf(first, words),
    }
}

// Returns the type of this first word, if it holds no other type.
fn parse_leaf(first: &[u8], words: &mut Words) -> Result<TyCall, LineError> {
    match first {
        b"bound" => {
            let binder = DebruijnIndex::from_u32(number(words, GREATEST_INDEX)?);
            let var = variable(words)?;
            Ok(TyCall::Bound(BoundVarIndexKind::Bound(binder), var, BoundTyKindCall::Anon))
        }
        b"cbound" => {
            let var = variable(words)?;
            Ok(TyCall::Bound(BoundVarIndexKind::Canonical, var, BoundTyKindCall::Anon))
        }
        b"infer" => {
            let number = number(words, GREATEST_INDEX)?;
            Ok(TyCall::Infer(InferTy::TyVar(TyVid::from_u32(number))))
        }
        b"placeholder" => {
            let universe = UniverseIndex::from_u32(number(words, GREATEST_INDEX)?);
            Ok(TyCall::Placeholder(universe, variable(words)?, BoundTyKindCall::Anon))
        }
        b"error" => Ok(TyCall::Error(ErrorGuaranteed(number(words, u32::MAX)?))),
        _ => parse_name(first).ok_or(LineError::Bad),
    }
}

// Returns the type that a word names by itself.
fn parse_name(word: &[u8]) -> Option<TyCall> {
    match word {
        b"bool" => Some(TyCall::Bool),
        b"char" => Some(TyCall::Char),
        b"str" => Some(TyCall::Str),
        b"never" => Some(TyCall::Never),
        b"i8" => Some(TyCall::Int(IntTy::I8)),
        b"i16" => Some(TyCall::Int(IntTy::I16)),
        b"i32" => Some(TyCall::Int(IntTy::I32)),
        b"i64" => Some(TyCall::Int(IntTy::I64)),
        b"i128" => Some(TyCall::Int(IntTy::I128)),
        b"isize" => Some(TyCall::Int(IntTy::Isize)),
        b"u8" => Some(TyCall::Uint(UintTy::U8)),
        b"u16" => Some(TyCall::Uint(UintTy::U16)),
        b"u32" => Some(TyCall::Uint(UintTy::U32)),
        b"u64" => Some(TyCall::Uint(UintTy::U64)),
        b"u128" => Some(TyCall::Uint(UintTy::U128)),
        b"usize" => Some(TyCall::Uint(UintTy::Usize)),
        _ => None,
    }
}

// Reads the region and the target of a reference from the next two words.
#[inline(always)]
fn reference(
    alloc: Global,
    words: &mut Words,
    mutability: Mutability,
) -> Result<TyCall, LineError> {
    let region = parse_region(alloc, words.next_word().ok_or(LineError::Bad)?)?;
    Ok(TyCall::Ref(region, position(words)?, mutability))
}

// Returns the place in a binder's list that the next word gives.
fn variable(words: &mut Words) -> Result<BoundVar, LineError> {
    Ok(BoundVar::from_u32(number(words, GREATEST_INDEX)?))
}

// Reads a safe function pointer of Rust's calling convention: the number of its binder's regions, and then its types,
// at least one.
fn fn_ptr(alloc: Global, words: &mut Words) -> Result<TyCall, LineError> {
    let count = number(words, 255)?;
    let inputs_and_output = positions(alloc, words)?;
    if inputs_and_output.is_empty() {
        return Err(LineError::Bad);
    }
    let fn_sig_kind = FnSigKind::new(ExternAbi::Rust, Safety::Safe, false);
    Ok(TyCall::FnPtr {
        vars: anonymous_regions(alloc, count)?,
        inputs_and_output,
        header: FnHeader { fn_sig_kind },
    })
}

// Returns `count` regions without names, as the variables of a binder.
fn anonymous_regions(alloc: Global, count: u32) -> Result<Vec<VariableCall>, LineError> {
    let mut vars = Vec::new(alloc);
    for _ in 0..count {
        vars.push(VariableCall::Region(RegionNameCall::Anon))?;
    }
    Ok(vars)
}
