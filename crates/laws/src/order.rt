//! Values that are compared by their order.

ghost use Rattle.std.specs.Prelude.{◌≡◌, ◌≤◌};
ghost use Rattle.std.specs.Ordering.{nat_cmp, ordering_then};
ghost use Rattle.tt_index.specs.Abi.{abi_number};
ghost use Rattle.tt_kinds.specs.Order.{infer_ty_number, infer_ty_place};

use std::cmp::Ordering;
use tt_index::vid::TypeVariable;
use type_terms::{ExternAbi, InferTy, TyVid, kinds_are_ordered, values_are_ordered};

/// Returns the older of two type variables: the one of the lower number.
pub fn older_variable(one: TyVid, other: TyVid) -> TyVid
    ensures one { result ≤ one }
    ensures other { result ≤ other }
{
    values_are_ordered::<TypeVariable>();
    match one.cmp(&other) {
        Ordering::Greater => other,
        Ordering::Less | Ordering::Equal => one,
    }
}

/// Compares two calling conventions: by their numbers, in the order in which the type lists them.
pub fn compared_abis(one: ExternAbi, other: ExternAbi) -> Ordering
    ensures { result ≡ nat_cmp (abi_number one) (abi_number other) }
{
    values_are_ordered::<()>();
    one.cmp(&other)
}

/// Compares two inference variables: by their kinds, and by their numbers where the kinds are one.
pub fn compared_variables(one: InferTy, other: InferTy) -> Ordering
    ensures { result ≡ ordering_then (nat_cmp (infer_ty_place one) (infer_ty_place other))
        (nat_cmp (infer_ty_number one) (infer_ty_number other)) }
{
    kinds_are_ordered::<u32>();
    one.cmp(&other)
}
