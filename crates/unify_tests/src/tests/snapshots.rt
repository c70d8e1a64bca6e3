//! What a rollback leaves of a table.

use super::{answer, holds_anew, resolved, table_of, unified, variable};
use test_terms::{tuple, u32_ty};
use type_terms::{Interner, Refusal, Ty};
use unify::Fault;

// Returns whether the first type is what it was, and the third variable is gone, once the table goes back to a mark
// that was made before the two types were made equal.
fn go_back(cx: &mut Interner, left: Ty, right: Ty) -> Result<bool, Fault> {
    let mut bindings = table_of(cx, 2)?;
    let mark = bindings.snapshot();
    bindings.new_variable(cx)?;
    unified(cx, &mut bindings, left, right)?;
    let is_bound = resolved(cx, &bindings, left)? == right;
    bindings.rollback_to(mark);
    Ok(is_bound && resolved(cx, &bindings, left)? == left && bindings.len() == 2)
}

// `(?0, ?1)` and `(u32, u32)`
fn a_rollback_unbinds_holds(cx: &mut Interner) -> Result<bool, Refusal> {
    let (zero, one) = (variable(cx, 0)?, variable(cx, 1)?);
    let number = u32_ty(cx)?;
    let left = tuple(cx, &[zero, one])?;
    let right = tuple(cx, &[number, number])?;
    Ok(answer(go_back(cx, left, right)))
}

#[test]
fn a_rollback_unbinds(rt: HostRuntime) {
    holds_anew(&rt, rt.alloc(), a_rollback_unbinds_holds);
}

// Returns whether the second type stays unbound, and the first one bound, once the table goes back to a mark that was
// made between them.
fn go_halfway_back(cx: &mut Interner, first: Ty, second: Ty, both: Ty) -> Result<bool, Fault> {
    let mut bindings = table_of(cx, 2)?;
    unified(cx, &mut bindings, first, both)?;
    let mark = bindings.snapshot();
    unified(cx, &mut bindings, second, both)?;
    let is_bound = resolved(cx, &bindings, second)? == both;
    bindings.rollback_to(mark);
    let is_kept = resolved(cx, &bindings, first)? == both;
    let is_unbound = resolved(cx, &bindings, second)? == second;
    Ok(is_bound && is_kept && is_unbound)
}

// ?0 and u32, then ?1 and u32
fn older_bindings_stay_holds(cx: &mut Interner) -> Result<bool, Refusal> {
    let (zero, one) = (variable(cx, 0)?, variable(cx, 1)?);
    let number = u32_ty(cx)?;
    Ok(answer(go_halfway_back(cx, zero, one, number)))
}

#[test]
fn older_bindings_stay(rt: HostRuntime) {
    holds_anew(&rt, rt.alloc(), older_bindings_stay_holds);
}
