//! A workload's two types made equal, on a new interner.

ghost use Rattle.std.specs.Prelude.{IfOk};
ghost use Rattle.tt_interner.specs.Stored.{Extends};
ghost use Rattle.unify.specs.Bindings.{IsTable};

use super::workload::Workload;
use std::alloc::Global;
use test_terms::{NOT_OWNED, ty};
use type_terms::{Interner, Owned, Refusal, Ty, TyKind};
use unify::{Bindings, Fault, unify};

/// What making two types equal came to.
#[derive(Clone, Copy)]
pub struct Outcome {
    /// How many types the interner has.
    pub types: u32,
    /// Whether both types resolve to one handle.
    pub is_one: bool,
}

/// Makes the workload's types equal on a new interner.
pub fn outcome_anew(alloc: Global, workload: Workload) -> Result<Outcome, Fault> {
    outcome_on(Interner::new(alloc)?, workload)
}

// Makes the workload's types equal on this interner.
//
// An interner that is dropped implicitly takes half a minute to prove at each exit, and one given to `drop` a second.
fn outcome_on(mut cx: Interner, workload: Workload) -> Result<Outcome, Fault> {
    let outcome = outcome_in(&mut cx, workload);
    drop(cx);
    outcome
}

// Builds the workload's types and makes them equal.
fn outcome_in(cx: &mut Interner, workload: Workload) -> Result<Outcome, Fault> {
    let (left, right) = workload.sides(cx)?;
    let is_one = become_one(cx, workload.variables(), left, right)?;
    // A type that wasn't there gets the next number.
    let next = ty(cx, TyKind::Bool)?;
    Ok(Outcome {
        types: next.number(),
        is_one,
    })
}

// Returns whether the two types resolve to one handle once they are made equal.
fn become_one(cx: &mut Interner, variables: u32, left: Ty, right: Ty) -> Result<bool, Fault> {
    let mut bindings = table_of(cx, variables)?;
    unified(cx, &mut bindings, left, right)?;
    let first = resolved(cx, &bindings, left)?;
    let second = resolved(cx, &bindings, right)?;
    Ok(first == second)
}

/// Returns a table of this many variables.
pub fn table_of(cx: &mut Interner, count: u32) -> Result<Bindings, Fault>
    ensures extends { Extends cx.old cx.new }
    ensures table { IfOk result (λ b. IsTable cx.new b) }
{
    let mut bindings = Bindings::new(cx.allocator());
    for _ in 0..count {
        bindings.new_variable(cx)?;
    }
    Ok(bindings)
}

/// Makes the two types equal.
pub fn unified(cx: &mut Interner, bindings: &mut Bindings, left: Ty, right: Ty) -> Result<(), Fault>
    requires { IsTable cx.old bindings.old }
    ensures extends { Extends cx.old cx.new }
    ensures table { IsTable cx.new bindings.new }
{
    if !left.is_owned(cx) || !right.is_owned(cx) {
        return Err(Fault::Refused(NOT_OWNED));
    }
    unify(cx, bindings, left, right)
}

// Returns the type with its bound variables replaced.
fn resolved(cx: &mut Interner, bindings: &Bindings, ty: Ty) -> Result<Ty, Refusal>
    requires { IsTable cx.old bindings.now }
    ensures extends { Extends cx.old cx.new }
    ensures table { IsTable cx.new bindings.now }
{
    if !ty.is_owned(cx) {
        return Err(NOT_OWNED);
    }
    bindings.resolve(cx, ty)
}
