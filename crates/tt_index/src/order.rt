//! The law of the order of indices and tags.

ghost use Rattle.tt_index.specs.Abi.{abi_number};
ghost use Rattle.tt_index.specs.Order.{
  OrdersBy,
  float_place,
  int_place,
  mutability_place,
  safety_place,
  uint_place,
};

use crate::abi::ExternAbi;
use crate::index::Index;
use crate::numeric::{FloatTy, IntTy, UintTy};
use crate::qualifier::{Mutability, Safety};

/// Indices are ordered by their numbers, and the tags of each type as the type lists them. Does nothing: the contract is
/// a law.
pub fn values_are_ordered<S>()
    ensures extern_abi { OrdersBy abi_number ⟦<ExternAbi as Ord>⟧.cmp }
    ensures float_ty { OrdersBy float_place ⟦<FloatTy as Ord>⟧.cmp }
    ensures index { OrdersBy (λ i. i) ⟦<Index<S> as Ord>⟧.cmp }
    ensures int_ty { OrdersBy int_place ⟦<IntTy as Ord>⟧.cmp }
    ensures mutability { OrdersBy mutability_place ⟦<Mutability as Ord>⟧.cmp }
    ensures safety { OrdersBy safety_place ⟦<Safety as Ord>⟧.cmp }
    ensures uint_ty { OrdersBy uint_place ⟦<UintTy as Ord>⟧.cmp }
{}
