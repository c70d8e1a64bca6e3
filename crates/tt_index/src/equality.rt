//! The law of `==` on indices and tags.

ghost use Rattle.tt_index.specs.Equality.{IsSameness};

use crate::abi::ExternAbi;
use crate::closure_kind::ClosureKind;
use crate::index::Index;
use crate::numeric::{FloatTy, IntTy, UintTy};
use crate::qualifier::{Mutability, Safety};
use crate::refusal::Refusal;
use crate::variance::Variance;

/// `==` holds for two indices of one type, or for two tags of one type, exactly if they are the same. The function does
/// nothing: its contract is a law.
pub fn equal_values_are_same<S>()
    ensures closure_kind { IsSameness ⟦<ClosureKind as PartialEq>⟧.eq }
    ensures extern_abi { IsSameness ⟦<ExternAbi as PartialEq>⟧.eq }
    ensures float_ty { IsSameness ⟦<FloatTy as PartialEq>⟧.eq }
    ensures index { IsSameness ⟦<Index<S> as PartialEq>⟧.eq }
    ensures int_ty { IsSameness ⟦<IntTy as PartialEq>⟧.eq }
    ensures mutability { IsSameness ⟦<Mutability as PartialEq>⟧.eq }
    ensures refusal { IsSameness ⟦<Refusal as PartialEq>⟧.eq }
    ensures safety { IsSameness ⟦<Safety as PartialEq>⟧.eq }
    ensures uint_ty { IsSameness ⟦<UintTy as PartialEq>⟧.eq }
    ensures variance { IsSameness ⟦<Variance as PartialEq>⟧.eq }
{}
