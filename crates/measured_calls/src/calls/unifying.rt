//! Unification of small types.

use super::building::MkTy;
use super::folding::type_at;
use super::{Numbered, added, made, sum_of};
use crate::unification::outcome::{table_of, unified};
use crate::unification::workload::variable;
use test_terms::{NOT_OWNED, tuple};
use type_terms::{Interner, Refusal, Ty, TyVid};
use unify::Fault;

// `unify` of `(?0, T)` and `(T, ?1)`, in a new table of two variables.
#[derive(Drop)]
struct Unify {
    lefts: Vec<Ty>,
    rights: Vec<Ty>,
}

impl Numbered for Unify {
    fn make(&self, cx: &mut Interner, number: u32) -> Result<u32, Refusal> {
        let left = type_at(self.lefts.as_slice(), number)?;
        let right = type_at(self.rights.as_slice(), number)?;
        match bound(cx, left, right) {
            Ok(sum) => Ok(sum),
            Err(fault) => Err(refusal_of(fault)),
        }
    }
}

// Makes the two types equal. Returns a sum of the types to which the two variables are bound.
fn bound(cx: &mut Interner, left: Ty, right: Ty) -> Result<u32, Fault> {
    let mut bindings = table_of(cx, 2)?;
    unified(cx, &mut bindings, left, right)?;
    let first = bindings.probe(TyVid::from_u32(0));
    let second = bindings.probe(TyVid::from_u32(1));
    Ok(added(number_of(first), number_of(second)))
}

// Returns the number of the type, or 0 if there is none.
fn number_of(ty: Option<Ty>) -> u32 {
    match ty {
        Some(ty) => ty.number(),
        None => 0,
    }
}

// Returns the library's refusal, which is the only fault that small types meet.
fn refusal_of(fault: Fault) -> Refusal {
    match fault {
        Fault::Refused(refusal) => refusal,
        _ => NOT_OWNED,
    }
}

/// Makes the calls of `unify` on types that together have about so many rows.
pub fn sum(cx: &mut Interner, rows: u32, times: u32) -> Result<u32, Refusal> {
    let count = rows / 4;
    let _built = sum_of(cx, &MkTy, count, 1, count)?;
    let (first, second) = (variable(cx, 0)?, variable(cx, 1)?);
    let (mut lefts, mut rights) = (Vec::new(cx.allocator()), Vec::new(cx.allocator()));
    for number in 0..count {
        let own = Ty::from_number(number);
        lefts.push(tuple(cx, &[first, own])?)?;
        rights.push(tuple(cx, &[own, second])?)?;
    }
    let calls = Unify { lefts, rights };
    made(cx, &calls, count, times)
}
