//! Types by their kinds, and lists of types by their items.

use super::Numbered;
use test_terms::{NOT_OWNED, tys};
use type_terms::{Interner, Mutability, Owned, Refusal, Ty, TyKind};

/// So many types are the first items of lists, and twice as many are items.
pub const NEAR: u32 = 1024;

/// `mk_ty` of the slice of a type, or of the pointer to it. The type has half the number of the call.
#[derive(Clone, Copy)]
pub struct MkTy;

impl Numbered for MkTy {
    fn make(&self, cx: &mut Interner, number: u32) -> Result<u32, Refusal> {
        let inner = Ty::from_number(number / 2);
        if !inner.is_owned(cx) {
            return Err(NOT_OWNED);
        }
        let ty = if number % 2 == 0 {
            cx.mk_ty(TyKind::Slice(inner))?
        } else {
            cx.mk_ty(TyKind::RawPtr(inner, Mutability::Not))?
        };
        Ok(ty.number())
    }
}

// Returns the type that is so far behind the one with this number.
fn behind(number: u32, distance: u32) -> Ty {
    Ty::from_number(number.wrapping_add(distance))
}

/// `mk_tys` of two types.
#[derive(Clone, Copy)]
pub struct MkPair;

impl Numbered for MkPair {
    fn make(&self, cx: &mut Interner, number: u32) -> Result<u32, Refusal> {
        let items = [
            Ty::from_number(number % NEAR),
            Ty::from_number(number / NEAR),
        ];
        Ok(tys(cx, &items)?.number())
    }
}

/// `mk_tys` of eight types.
#[derive(Clone, Copy)]
pub struct MkEight;

impl Numbered for MkEight {
    fn make(&self, cx: &mut Interner, number: u32) -> Result<u32, Refusal> {
        let second = number / NEAR;
        let items = [
            Ty::from_number(number % NEAR),
            Ty::from_number(second),
            behind(second, 1),
            behind(second, 2),
            behind(second, 3),
            behind(second, 4),
            behind(second, 5),
            behind(second, 6),
        ];
        Ok(tys(cx, &items)?.number())
    }
}
