//! The law of the order of variables, directions and records.

ghost use Rattle.std.specs.Prelude.{◌≡◌};
ghost use Rattle.std.specs.Ordering.{nat_cmp, ordering_then};
ghost use Rattle.tt_index.specs.Order.{OrdersBy};
ghost use Rattle.tt_kinds.specs.declared.binder.EarlyBinder.{EarlyBinder};
ghost use Rattle.tt_kinds.specs.declared.placeholder.Placeholder.{Placeholder};
ghost use Rattle.tt_kinds.specs.Order.{
  OrdersByBoth,
  direction_place,
  infer_const_number,
  infer_const_place,
  infer_ty_number,
  infer_ty_place,
};

use crate::binder::EarlyBinder;
use crate::const_kind::InferConst;
use crate::placeholder::Placeholder;
use crate::predicate_kind::AliasRelationDirection;
use crate::ty_kind::InferTy;

/// Inference variables are ordered by their kinds and then by their numbers, placeholders by their universes and then by
/// what they replace, and values of declarations as the values are. Does nothing: the contract is a law.
pub fn kinds_are_ordered<T: Ord>()
    ensures direction { OrdersBy direction_place ⟦<AliasRelationDirection as Ord>⟧.cmp }
    ensures early_binder { (a b : EarlyBinder T) → ⟦<EarlyBinder<T> as Ord>⟧.cmp a b ≡ T.cmp a.value b.value }
    ensures infer_const { OrdersByBoth infer_const_place infer_const_number ⟦<InferConst as Ord>⟧.cmp }
    ensures infer_ty { OrdersByBoth infer_ty_place infer_ty_number ⟦<InferTy as Ord>⟧.cmp }
    ensures placeholder { (a b : Placeholder T) → ⟦<Placeholder<T> as Ord>⟧.cmp a b
        ≡ ordering_then (nat_cmp a.universe b.universe) (T.cmp a.bound b.bound) }
{}
