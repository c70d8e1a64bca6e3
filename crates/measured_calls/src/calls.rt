//! Calls of the library, each made again and again on a new interner.
//!
//! A line `CALL SIZE ROWS TIMES` asks for the calls with the numbers below ROWS, in order, and then for TIMES of them,
//! out of order. So the first ones mostly store what they return, and the others find it. SIZE is the number of items
//! of a list, or of types in a type that is folded, and 1 for all other calls. A call that takes a type of SIZE types,
//! or one with arguments, has fewer numbers, so that the tables have about ROWS rows before it is made.
//!
//! The numbers that a call returns are summed up, so another program can be seen to do the same.

mod building;
mod declared;
mod folding;
mod indexed;
mod unifying;

use building::{MkEight, MkPair, MkTy, NEAR};
use folding::{FoldRegions, HasParam, Instantiate, ShiftVars, sources};
use std::alloc::Global;
use test_terms::{param_ty, ty};
use type_terms::{Interner, Refusal, TyKind};

/// A call of the library.
#[derive(Clone, Copy)]
pub enum Call {
    /// `mk_ty`.
    MkTy,
    /// `mk_tys`.
    MkTys,
    /// `shift_vars`, by one binder.
    ShiftVars,
    /// `instantiate`, with one argument.
    Instantiate,
    /// `fold_regions`, by a closure that erases each region.
    FoldRegions,
    /// `has_type_flags`.
    HasTypeFlags,
    /// `fields_of` a struct with three fields.
    FieldsOf,
    /// `fn_sig` of a function with one parameter.
    FnSig,
    /// `IndexVec::push`, and `IndexVec::get` for what was stored.
    IndexVec,
    /// `unify` of two pairs, which binds two new variables.
    Unify,
}

impl Call {
    // Returns the call of this name.
    fn of(word: &str) -> Option<Call> {
        match word {
            "mk_ty" => Some(Call::MkTy),
            "mk_tys" => Some(Call::MkTys),
            "shift_vars" => Some(Call::ShiftVars),
            "instantiate" => Some(Call::Instantiate),
            "fold_regions" => Some(Call::FoldRegions),
            "has_type_flags" => Some(Call::HasTypeFlags),
            "fields_of" => Some(Call::FieldsOf),
            "fn_sig" => Some(Call::FnSig),
            "index_vec" => Some(Call::IndexVec),
            "unify" => Some(Call::Unify),
            _ => None,
        }
    }
}

/// What a line asks for.
#[derive(Clone, Copy)]
pub struct Asked {
    call: Call,
    size: u32,
    rows: u32,
    times: u32,
}

impl Asked {
    /// Returns what the line asks for.
    pub fn of(line: &str) -> Option<Asked> {
        let (word, numbers) = line.split_once(" ")?;
        let (size, numbers) = numbers.split_once(" ")?;
        let (rows, times) = numbers.split_once(" ")?;
        Some(Asked {
            call: Call::of(word)?,
            size: size.parse::<u32>().ok()?,
            rows: rows.parse::<u32>().ok()?,
            times: times.parse::<u32>().ok()?,
        })
    }
}

/// Calls of one function, told apart by their numbers.
pub trait Numbered {
    /// Makes the call of this number. Returns a number that depends on the result.
    fn make(&self, cx: &mut Interner, number: u32) -> Result<u32, Refusal>;
}

// Returns the sum with one more summand. The order of the summands matters.
fn added(sum: u32, summand: u32) -> u32 {
    sum.wrapping_mul(31).wrapping_add(summand)
}

// Returns the number that is so far behind this one, in a circle of `count` numbers.
fn further(number: u32, step: u32, count: u32) -> u32 {
    let next = number.wrapping_add(step);
    if next < count {
        next
    } else {
        next.wrapping_sub(count)
    }
}

// Returns how far the next number is when calls are made out of order, so that each of `count` calls comes up.
fn far(count: u32) -> u32 {
    (count / 8).wrapping_mul(5).wrapping_add(1)
}

// Makes so many of the `count` calls, each of them `step` numbers behind the one before. Returns a sum of the results.
fn sum_of<C: Numbered>(
    cx: &mut Interner,
    calls: &C,
    count: u32,
    step: u32,
    times: u32,
) -> Result<u32, Refusal> {
    let (mut sum, mut number) = (0, 0);
    for _ in 0..times {
        sum = added(sum, calls.make(cx, number)?);
        number = further(number, step, count);
    }
    Ok(sum)
}

// Makes the `count` calls in order, and then so many of them out of order. Returns a sum of the results.
fn made<C: Numbered>(cx: &mut Interner, calls: &C, count: u32, times: u32) -> Result<u32, Refusal> {
    let first = sum_of(cx, calls, count, 1, count)?;
    let second = sum_of(cx, calls, count, far(count), times)?;
    Ok(added(first, second))
}

/// Makes the calls that are asked for, on a new interner. Returns a sum of the results.
pub fn sum_anew(alloc: Global, asked: Asked) -> Result<u32, Refusal> {
    match asked.call {
        Call::IndexVec => indexed::sum(alloc, asked.rows, asked.times),
        _ => sum_on(Interner::new(alloc)?, asked),
    }
}

// Makes the calls on this interner, which is dropped by a call, as in the module `unification`.
fn sum_on(mut cx: Interner, asked: Asked) -> Result<u32, Refusal> {
    let sum = sum_in(&mut cx, asked);
    drop(cx);
    sum
}

// Makes the calls on a new interner, whose first two types are a parameter and `bool`.
fn sum_in(cx: &mut Interner, asked: Asked) -> Result<u32, Refusal> {
    let _parameter = param_ty(cx, 0)?;
    let _argument = ty(cx, TyKind::Bool)?;
    let Asked {
        call,
        size,
        rows,
        times,
    } = asked;
    match call {
        Call::MkTy => made(cx, &MkTy, rows, times),
        Call::MkTys => lists(cx, size, rows, times),
        Call::HasTypeFlags => {
            let _built = sum_of(cx, &MkTy, rows, 1, rows)?;
            made(cx, &HasParam, rows, times)
        }
        Call::FieldsOf => declared::fields(cx, rows, times),
        Call::FnSig => declared::signatures(cx, rows, times),
        Call::Unify => unifying::sum(cx, rows, times),
        _ => folds(cx, call, size, rows, times),
    }
}

// Makes lists of types that are stored before.
fn lists(cx: &mut Interner, size: u32, rows: u32, times: u32) -> Result<u32, Refusal> {
    let items = NEAR.wrapping_mul(2);
    let _built = sum_of(cx, &MkTy, items, 1, items)?;
    if size == 2 {
        made(cx, &MkPair, rows, times)
    } else {
        made(cx, &MkEight, rows, times)
    }
}

// Makes folds of types.
fn folds(cx: &mut Interner, call: Call, size: u32, rows: u32, times: u32) -> Result<u32, Refusal> {
    let sources = sources(cx, size, rows)?;
    let count = u32::try_from(sources.len()).unwrap_or(u32::MAX);
    match call {
        Call::ShiftVars => {
            let calls = ShiftVars { sources };
            made(cx, &calls, count, times)
        }
        Call::Instantiate => {
            let calls = Instantiate { sources };
            made(cx, &calls, count, times)
        }
        _ => {
            let calls = FoldRegions { sources };
            made(cx, &calls, count, times)
        }
    }
}
