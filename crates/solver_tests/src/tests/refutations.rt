//! Refutations in the program `impl Trait for u32` and `impl<T> Trait for [T] where T: Trait`.

use super::{declare, holds_anew, implements, number_implements, slice, slice_implements};
use solver::{Fault, Impl, Need, Program, needs_of, refute};
use test_terms::{NOT_OWNED, args, param_region, param_ty, ty, u32_ty};
use type_terms::{
    GenericArg, InferTy, Interner, Refusal, TraitPredicate, TraitRef, Ty, TyKind, TyVid, are_owned,
};

// Checks that the goals refute one another in a program with the two implementations and under the assumption.
fn verdict(
    cx: &mut Interner,
    first: Impl,
    second: Impl,
    assumption: TraitPredicate,
    goals: &[TraitPredicate],
) -> Result<(), Fault> {
    let mut program = Program::new(cx.allocator());
    let declared = declare(cx, &mut program, first);
    if declared.is_err() {
        return declared;
    }
    let declared = declare(cx, &mut program, second);
    if declared.is_err() {
        return declared;
    }
    let assumptions = [assumption];
    if !are_owned(cx, &assumptions) || !are_owned(cx, goals) {
        return Err(Fault::Refused(NOT_OWNED));
    }
    refute(cx, &program, &assumptions, goals)
}

// Returns whether the goals refute one another where this type is assumed to implement the trait.
fn refutes(cx: &mut Interner, assumed: Ty, goals: &[TraitPredicate]) -> Result<bool, Refusal> {
    let param = param_ty(cx, 0)?;
    let first = number_implements(cx)?;
    let second = slice_implements(cx, param)?;
    let assumption = implements(cx, assumed)?;
    match verdict(cx, first, second, assumption, goals) {
        Ok(()) => Ok(true),
        Err(Fault::Refused(refusal)) => Err(refusal),
        Err(_) => Ok(false),
    }
}

// Returns the variable of number 0.
fn variable(cx: &mut Interner) -> Result<Ty, Refusal> {
    ty(cx, TyKind::Infer(InferTy::TyVar(TyVid::from_u32(0))))
}

// [[bool]] needs [bool], which needs bool, in any order. Without one of them nothing is refuted.
fn needed_goals_are_listed_holds(cx: &mut Interner) -> Result<bool, Refusal> {
    let (param, truth) = (param_ty(cx, 0)?, ty(cx, TyKind::Bool)?);
    let truths = slice(cx, truth)?;
    let wholes = slice(cx, truths)?;
    let (low, middle, high) = (
        implements(cx, truth)?,
        implements(cx, truths)?,
        implements(cx, wholes)?,
    );
    Ok(
        refutes(cx, param, &[high, middle, low])?
            && refutes(cx, param, &[low, middle, high])?
            && refutes(cx, param, &[low])?
            && refutes(cx, param, &[])?
            && !refutes(cx, param, &[high, middle])?
            && !refutes(cx, param, &[high, low])?,
    )
}

#[test]
fn needed_goals_are_listed(rt: HostRuntime) {
    holds_anew(&rt, rt.alloc(), needed_goals_are_listed_holds);
}

// Neither u32 nor [u32] is refuted, nor is bool where it is assumed, nor [bool] there.
fn derived_goals_are_not_refuted_holds(cx: &mut Interner) -> Result<bool, Refusal> {
    let (param, number) = (param_ty(cx, 0)?, u32_ty(cx)?);
    let truth = ty(cx, TyKind::Bool)?;
    let (numbers, truths) = (slice(cx, number)?, slice(cx, truth)?);
    let (of_number, of_numbers) = (implements(cx, number)?, implements(cx, numbers)?);
    let (of_truth, of_truths) = (implements(cx, truth)?, implements(cx, truths)?);
    Ok(
        !refutes(cx, param, &[of_number])?
            && !refutes(cx, param, &[of_numbers, of_number])?
            && !refutes(cx, truth, &[of_truth])?
            && !refutes(cx, truth, &[of_truths, of_truth])?,
    )
}

#[test]
fn derived_goals_are_not_refuted(rt: HostRuntime) {
    holds_anew(&rt, rt.alloc(), derived_goals_are_not_refuted_holds);
}

// With inference variables nothing is refuted: ?0 may be u32. Nor is a goal with a region as an argument.
fn other_goals_are_not_refuted_holds(cx: &mut Interner) -> Result<bool, Refusal> {
    let (param, truth) = (param_ty(cx, 0)?, ty(cx, TyKind::Bool)?);
    let (variable, region) = (variable(cx)?, param_region(cx, 0)?);
    let (of_truth, of_variable) = (implements(cx, truth)?, implements(cx, variable)?);
    let items = [GenericArg::from(truth), GenericArg::from(region)];
    let args = args(cx, &items)?;
    let of_region = TraitPredicate {
        trait_ref: TraitRef {
            def_id: of_truth.trait_ref.def_id,
            args,
        },
    };
    Ok(
        !refutes(cx, param, &[of_variable])?
            && !refutes(cx, variable, &[of_truth])?
            && !refutes(cx, param, &[of_region])?,
    )
}

#[test]
fn other_goals_are_not_refuted(rt: HostRuntime) {
    holds_anew(&rt, rt.alloc(), other_goals_are_not_refuted_holds);
}

// Returns what the goal needs of the goals by `impl<T> Trait for [T] where T: Trait`.
fn needs(
    cx: &mut Interner,
    implementation: Impl,
    goals: &[TraitPredicate],
    goal: TraitPredicate,
) -> Result<Vec<Need>, Fault> {
    let mut program = Program::new(cx.allocator());
    let declared = declare(cx, &mut program, implementation);
    if let Err(fault) = declared {
        return Err(fault);
    }
    Ok(needs_of(cx, &program, goals, goal)?)
}

// [bool] needs bool, and bool needs nothing.
fn needs_are_listed_holds(cx: &mut Interner) -> Result<bool, Refusal> {
    let (param, truth) = (param_ty(cx, 0)?, ty(cx, TyKind::Bool)?);
    let truths = slice(cx, truth)?;
    let goals = [implements(cx, truths)?, implements(cx, truth)?];
    let expected = [Need {
        implementation: 0,
        goal: 1,
    }];
    let (first, second) = (slice_implements(cx, param)?, slice_implements(cx, param)?);
    let of_slice = needs(cx, first, &goals, goals[0]);
    let of_truth = needs(cx, second, &goals, goals[1]);
    match (&of_slice, &of_truth) {
        (Ok(some), Ok(none)) => Ok(some.as_slice() == expected.as_slice() && none.is_empty()),
        _ => Ok(false),
    }
}

#[test]
fn needs_are_listed(rt: HostRuntime) {
    holds_anew(&rt, rt.alloc(), needs_are_listed_holds);
}
