//! Types are made equal, and faults leave the bindings as they were.

mod faults;
mod roots;
mod snapshots;
mod solved;

ghost use Rattle.std.specs.Prelude.{IfErr, IfOk};
ghost use Rattle.tt_interner.specs.Stored.{Extends};
ghost use Rattle.unify.specs.Bindings.{IsTable, KeepsEarlier};
ghost use Rattle.unify.specs.Faults.{IsMismatch};

use std::alloc::Global;
use std::process::Abort;
use test_terms::{NOT_OWNED, answer_anew, answer_within, ty};
use type_terms::{InferTy, Interner, Owned, Refusal, Ty, TyKind, TyVid};
use unify::{Bindings, Fault, unify};

// Asserts that the check returns `Ok(true)` on a new interner.
fn holds_anew<F: FnOnce(&mut Interner) -> Result<bool, Refusal> + Drop>(
    rt: &impl Abort,
    alloc: Global,
    check: F,
)
    requires { F.IsAlwaysCallable check }
{
    assert_eq!(rt; answer_anew(alloc, check), Ok(true));
}

// Asserts the same on a new interner with at most `limit` rows in a table.
fn holds_within<F: FnOnce(&mut Interner) -> Result<bool, Refusal> + Drop>(
    rt: &impl Abort,
    alloc: Global,
    limit: u32,
    check: F,
)
    requires { F.IsAlwaysCallable check }
{
    assert_eq!(rt; answer_within(alloc, limit, check), Ok(true));
}

// Returns the variable of this number, below 1,000.
fn variable(cx: &mut Interner, number: u32) -> Result<Ty, Refusal> {
    let number = number % 1_000;
    ty(cx, TyKind::Infer(InferTy::TyVar(TyVid::from_u32(number))))
}

// Returns a table of this many variables.
fn table_of(cx: &mut Interner, count: u32) -> Result<Bindings, Fault>
    ensures extends { Extends cx.old cx.new }
    ensures table { IfOk result (λ b. IsTable cx.new b) }
{
    let mut bindings = Bindings::new(cx.allocator());
    for _ in 0..count {
        bindings.new_variable(cx)?;
    }
    Ok(bindings)
}

// Makes the two types equal.
fn unified(cx: &mut Interner, bindings: &mut Bindings, left: Ty, right: Ty) -> Result<(), Fault>
    requires { IsTable cx.old bindings.old }
    ensures extends { Extends cx.old cx.new }
    ensures table { IsTable cx.new bindings.new }
    ensures earlier { KeepsEarlier bindings.old bindings.new }
{
    if !left.is_owned(cx) || !right.is_owned(cx) {
        return Err(Fault::Refused(NOT_OWNED));
    }
    unify(cx, bindings, left, right)
}

// Returns the type with its bound variables replaced.
fn resolved(cx: &mut Interner, bindings: &Bindings, ty: Ty) -> Result<Ty, Refusal>
    requires { IsTable cx.old bindings.now }
    ensures extends { Extends cx.old cx.new }
    ensures table { IsTable cx.new bindings.now }
{
    if !ty.is_owned(cx) {
        return Err(NOT_OWNED);
    }
    bindings.resolve(cx, ty)
}

// Makes the type equal to what it resolves to, which never is a mismatch.
fn unified_with_resolved(cx: &mut Interner, bindings: &mut Bindings, ty: Ty) -> Result<(), Fault>
    requires { IsTable cx.old bindings.old }
    ensures { IfErr result (λ fault. IsMismatch fault → ⊥) }
{
    if !ty.is_owned(cx) {
        return Err(Fault::Refused(NOT_OWNED));
    }
    let resolved = bindings.resolve(cx, ty)?;
    cx.are_rows();
    unify(cx, bindings, ty, resolved)
}

// Returns whether the two types become the type `both` if variables of a new table are bound.
fn become_one(cx: &mut Interner, left: Ty, right: Ty, both: Ty) -> Result<bool, Fault> {
    let mut bindings = table_of(cx, 8)?;
    unified(cx, &mut bindings, left, right)?;
    let first = resolved(cx, &bindings, left)?;
    let second = resolved(cx, &bindings, right)?;
    Ok(first == both && second == both)
}

// Returns whether the two types can be made equal, and then the first one with what it resolves to.
fn match_resolved(cx: &mut Interner, left: Ty, right: Ty) -> Result<bool, Fault> {
    let mut bindings = table_of(cx, 8)?;
    unified(cx, &mut bindings, left, right)?;
    unified_with_resolved(cx, &mut bindings, left)?;
    Ok(true)
}

// Returns whether the two types can't be made equal because of this fault, and the table of variables stays unbound.
fn fail_with(cx: &mut Interner, left: Ty, right: Ty, fault: Fault) -> Result<bool, Fault> {
    let mut bindings = table_of(cx, 2)?;
    let outcome = unified(cx, &mut bindings, left, right);
    let first = resolved(cx, &bindings, left)?;
    let second = resolved(cx, &bindings, right)?;
    Ok(outcome == Err(fault) && first == left && second == right)
}

// Returns the answer, or `false` where a call of the unifier failed.
fn answer(outcome: Result<bool, Fault>) -> bool {
    match outcome {
        Ok(answer) => answer,
        Err(_) => false,
    }
}

// Returns whether the two types can be made equal, and no room is left for what they resolve to.
fn unify_alone(cx: &mut Interner, left: Ty, right: Ty) -> Result<bool, Fault> {
    let mut bindings = table_of(cx, 2)?;
    unified(cx, &mut bindings, left, right)?;
    Ok(resolved(cx, &bindings, left) == Err(Refusal::TableFull))
}
