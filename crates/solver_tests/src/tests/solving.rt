//! Answers to goals.

ghost use Rattle.tt_interner.specs.Stored.{Extends};
ghost use Rattle.solver.specs.Program.{IsProgram};
ghost use Rattle.unify.specs.Bindings.{IsTable};

use super::{declare_all, holds_anew, slice};
use solver::{Answer, Fault, Impl, Limits, Program, solve};
use test_terms::{NOT_OWNED, args, param_ty, tuple, ty, u32_ty};
use type_terms::{
    GenericArg, InferTy, Interner, Owned, Refusal, TraitId, TraitPredicate, TraitRef, Ty, TyKind,
    TyVid, are_owned,
};
use unify::{Bindings, unify};

// What is known of a goal, with the number of the lines in a log or of the goals in a refutation.
#[derive(Clone, Copy, Debug, PartialEq, Eq, Drop)]
enum Found {
    Yes(usize),
    No(usize),
    Unknown,
    Ambiguous,
    Overflow,
}

const FAR: Limits = Limits {
    depth: 20,
    steps: 1000,
};

// Returns that the type implements the trait of this number.
fn implements(cx: &mut Interner, number: u32, ty: Ty) -> Result<TraitPredicate, Refusal> {
    let args = args(cx, &[GenericArg::from(ty)])?;
    Ok(TraitPredicate {
        trait_ref: TraitRef {
            def_id: TraitId::from_number(number),
            args,
        },
    })
}

// Returns the implementation of the first trait for the type, which may hold parameter 0, where types implement traits.
fn implementation(
    cx: &mut Interner,
    number: u32,
    head: Ty,
    conditions: &[(u32, Ty)],
) -> Result<Impl, Refusal> {
    let mut goals = Vec::new(cx.allocator());
    for index in 0..conditions.len() {
        let goal = implements(cx, conditions[index].0, conditions[index].1)?;
        goals.push(goal)?;
    }
    Ok(Impl {
        params: 1,
        head: implements(cx, number, head)?,
        conditions: goals,
    })
}

// Makes a variable.
fn make_variable(cx: &mut Interner, bindings: &mut Bindings) -> Result<(), Fault>
    requires { IsTable cx.old bindings.old }
    ensures extends { Extends cx.old cx.new }
    ensures table { IsTable cx.new bindings.new }
{
    match bindings.new_variable(cx) {
        Ok(_) => Ok(()),
        Err(unify::Fault::Refused(refusal)) => Err(Fault::Refused(refusal)),
        Err(_) => Err(Fault::Unverified),
    }
}

// Returns the type that one variable, with which the goal is made, becomes, and the answer.
fn solved(
    cx: &mut Interner,
    impls: Vec<Impl>,
    assumption: TraitPredicate,
    goal: TraitPredicate,
    limits: Limits,
) -> Result<(Ty, Found), Fault> {
    let variable = ty(cx, TyKind::Infer(InferTy::TyVar(TyVid::from_u32(0))))?;
    let mut program = Program::new(cx.allocator());
    let declared = declare_all(cx, &mut program, impls);
    if let Err(fault) = declared {
        return Err(fault);
    }
    let mut bindings = Bindings::new(cx.allocator());
    let made = make_variable(cx, &mut bindings);
    if let Err(fault) = made {
        return Err(fault);
    }
    let assumptions = [assumption];
    if !are_owned(cx, &assumptions) || !goal.is_owned(cx) || !variable.is_owned(cx) {
        return Err(Fault::Refused(NOT_OWNED));
    }
    let answer = solve(cx, &program, &assumptions, &mut bindings, goal, limits)?;
    let found = match &answer {
        Answer::Yes(log) => Found::Yes(log.len()),
        Answer::No(goals) => Found::No(goals.len()),
        Answer::Unknown => Found::Unknown,
        Answer::Ambiguous => Found::Ambiguous,
        Answer::Overflow => Found::Overflow,
    };
    Ok((bindings.resolve(cx, variable)?, found))
}

// Returns whether the answer to the goal that the type implements trait 0 is this one, and the variable becomes the type.
fn finds(
    cx: &mut Interner,
    impls: Vec<Impl>,
    goal: Ty,
    limits: Limits,
    expected: (Ty, Found),
) -> Result<bool, Refusal> {
    let param = param_ty(cx, 0)?;
    let assumption = implements(cx, 0, param)?;
    let goal = implements(cx, 0, goal)?;
    Ok(solved(cx, impls, assumption, goal, limits) == Ok(expected))
}

// Returns `impl Trait0 for u32` and `impl<T> Trait0 for [T] where T: Trait0`.
fn of_slices(cx: &mut Interner) -> Result<Vec<Impl>, Refusal> {
    let (param, number) = (param_ty(cx, 0)?, u32_ty(cx)?);
    let whole = slice(cx, param)?;
    let mut impls = Vec::new(cx.allocator());
    let first = implementation(cx, 0, number, &[])?;
    impls.push(first)?;
    let second = implementation(cx, 0, whole, &[(0, param)])?;
    impls.push(second)?;
    Ok(impls)
}

// Returns the variable, and the slice type of slices of this type.
fn with_slices(cx: &mut Interner, item: Ty) -> Result<(Ty, Ty), Refusal> {
    let variable = ty(cx, TyKind::Infer(InferTy::TyVar(TyVid::from_u32(0))))?;
    let items = slice(cx, item)?;
    Ok((variable, slice(cx, items)?))
}

// [[u32]] takes three lines, and [[T]] three, of which the first is the assumption. [[bool]] needs [bool], which needs bool.
fn slices_are_derived_holds(cx: &mut Interner) -> Result<bool, Refusal> {
    let (param, number) = (param_ty(cx, 0)?, u32_ty(cx)?);
    let truth = ty(cx, TyKind::Bool)?;
    let (variable, numbers) = with_slices(cx, number)?;
    let (_, params) = with_slices(cx, param)?;
    let (_, truths) = with_slices(cx, truth)?;
    let (first, second, third) = (of_slices(cx)?, of_slices(cx)?, of_slices(cx)?);
    Ok(
        finds(cx, first, numbers, FAR, (variable, Found::Yes(3)))?
            && finds(cx, second, params, FAR, (variable, Found::Yes(3)))?
            && finds(cx, third, truths, FAR, (variable, Found::No(3)))?,
    )
}

#[test]
fn slices_are_derived(rt: HostRuntime) {
    holds_anew(&rt, rt.alloc(), slices_are_derived_holds);
}

// ?0 may be T, u32 or a slice type, or T or a slice type. If it may be T alone, it is T.
fn variables_are_bound_holds(cx: &mut Interner) -> Result<bool, Refusal> {
    let (param, number) = (param_ty(cx, 0)?, u32_ty(cx)?);
    let (variable, _) = with_slices(cx, number)?;
    let (_, wholes) = with_slices(cx, variable)?;
    let whole = slice(cx, param)?;
    let (first, second) = (of_slices(cx)?, of_slices(cx)?);
    let mut only = Vec::new(cx.allocator());
    let implementation = implementation(cx, 0, whole, &[(0, param)])?;
    only.push(implementation)?;
    Ok(
        finds(cx, first, variable, FAR, (variable, Found::Ambiguous))?
            && finds(cx, second, wholes, FAR, (variable, Found::Ambiguous))?
            && finds(cx, only, wholes, FAR, (variable, Found::Ambiguous))?
            && finds(
                cx,
                Vec::new(cx.allocator()),
                variable,
                FAR,
                (param, Found::Yes(1)),
            )?,
    )
}

#[test]
fn variables_are_bound(rt: HostRuntime) {
    holds_anew(&rt, rt.alloc(), variables_are_bound_holds);
}

// `impl<T> Trait0 for [T] where T: Trait1, T: Trait2`, of which u32 and bool implement the one, and u32 the other: the
// second condition decides the first.
fn later_conditions_decide_holds(cx: &mut Interner) -> Result<bool, Refusal> {
    let (param, number) = (param_ty(cx, 0)?, u32_ty(cx)?);
    let truth = ty(cx, TyKind::Bool)?;
    let (variable, _) = with_slices(cx, number)?;
    let (whole, items) = (slice(cx, param)?, slice(cx, variable)?);
    let mut impls = Vec::new(cx.allocator());
    for (number, head, conditions) in [(1, number, &[]), (1, truth, &[]), (2, number, &[])] {
        let simple = implementation(cx, number, head, conditions)?;
        impls.push(simple)?;
    }
    let both = implementation(cx, 0, whole, &[(1, param), (2, param)])?;
    impls.push(both)?;
    finds(cx, impls, items, FAR, (number, Found::Yes(3)))
}

#[test]
fn later_conditions_decide(rt: HostRuntime) {
    holds_anew(&rt, rt.alloc(), later_conditions_decide_holds);
}

// A slice type that needs itself has no derivation, and refutes itself. One that needs a larger one is searched for up to the limit.
fn limits_end_searches_holds(cx: &mut Interner) -> Result<bool, Refusal> {
    let (param, number) = (param_ty(cx, 0)?, u32_ty(cx)?);
    let (variable, numbers) = with_slices(cx, number)?;
    let whole = slice(cx, param)?;
    let (_, wholes) = with_slices(cx, param)?;
    let (mut cyclic, mut growing) = (Vec::new(cx.allocator()), Vec::new(cx.allocator()));
    let needs_itself = implementation(cx, 0, whole, &[(0, whole)])?;
    cyclic.push(needs_itself)?;
    let needs_more = implementation(cx, 0, whole, &[(0, wholes)])?;
    growing.push(needs_more)?;
    let (first, second) = (of_slices(cx)?, of_slices(cx)?);
    let shallow = Limits { depth: 2, ..FAR };
    let short = Limits { steps: 2, ..FAR };
    Ok(
        finds(cx, cyclic, numbers, FAR, (variable, Found::No(1)))?
            && finds(cx, growing, numbers, FAR, (variable, Found::Overflow))?
            && finds(cx, first, numbers, shallow, (variable, Found::Overflow))?
            && finds(cx, second, numbers, short, (variable, Found::Overflow))?,
    )
}

#[test]
fn limits_end_searches(rt: HostRuntime) {
    holds_anew(&rt, rt.alloc(), limits_end_searches_holds);
}

// Returns `impl<T> Trait1 for [T] where T: Trait2` and `impl<T> Trait2 for T where [T]: Trait1`.
fn of_circles(cx: &mut Interner) -> Result<Vec<Impl>, Refusal> {
    let param = param_ty(cx, 0)?;
    let whole = slice(cx, param)?;
    let mut impls = Vec::new(cx.allocator());
    let first = implementation(cx, 1, whole, &[(2, param)])?;
    impls.push(first)?;
    let second = implementation(cx, 2, param, &[(1, whole)])?;
    impls.push(second)?;
    Ok(impls)
}

// Returns whether the answer to the goal that the type implements trait 2 is this one, if the assumption is about trait 1.
fn finds_in_circles(
    cx: &mut Interner,
    goal: Ty,
    assumed: Ty,
    expected: Found,
) -> Result<bool, Refusal> {
    let impls = of_circles(cx)?;
    let variable = ty(cx, TyKind::Infer(InferTy::TyVar(TyVid::from_u32(0))))?;
    let assumption = implements(cx, 1, assumed)?;
    let goal = implements(cx, 2, goal)?;
    Ok(solved(cx, impls, assumption, goal, FAR) == Ok((variable, expected)))
}

// u32 needs [u32], which needs u32: neither is derived, unless [u32] is assumed.
fn circles_derive_nothing_holds(cx: &mut Interner) -> Result<bool, Refusal> {
    let (param, number) = (param_ty(cx, 0)?, u32_ty(cx)?);
    let numbers = slice(cx, number)?;
    Ok(
        finds_in_circles(cx, number, param, Found::No(2))?
            && finds_in_circles(cx, number, numbers, Found::Yes(2))?,
    )
}

#[test]
fn circles_derive_nothing(rt: HostRuntime) {
    holds_anew(&rt, rt.alloc(), circles_derive_nothing_holds);
}

// Nothing applies to (?0, ?0), but ?0 may be any type, so the answer is unknown. So is the one on [[char]] where (?0, ?0) is
// assumed. Where T is assumed, char is refuted.
fn variables_are_not_refuted_holds(cx: &mut Interner) -> Result<bool, Refusal> {
    let letter = ty(cx, TyKind::Char)?;
    let (variable, wholes) = with_slices(cx, letter)?;
    let (first, second, third) = (of_slices(cx)?, of_slices(cx)?, of_slices(cx)?);
    let pair = tuple(cx, &[variable, variable])?;
    let assumption = implements(cx, 0, pair)?;
    let goal = implements(cx, 0, wholes)?;
    Ok(
        finds(cx, first, pair, FAR, (variable, Found::Unknown))?
            && finds(cx, second, letter, FAR, (variable, Found::No(1)))?
            && solved(cx, third, assumption, goal, FAR) == Ok((variable, Found::Unknown)),
    )
}

#[test]
fn variables_are_not_refuted(rt: HostRuntime) {
    holds_anew(&rt, rt.alloc(), variables_are_not_refuted_holds);
}

// Returns the answer to the goal where the variable is bound to the type, and whether the variable still is.
fn solved_where(
    cx: &mut Interner,
    program: &Program,
    goal: TraitPredicate,
    bound: Ty,
) -> Result<(Answer, bool), Fault>
    requires { IsProgram cx.old program.now }
{
    let mut bindings = Bindings::new(cx.allocator());
    let variable = match bindings.new_variable(cx) {
        Ok(variable) => variable,
        Err(_) => return Err(Fault::Unverified),
    };
    if !bound.is_owned(cx) || unify(cx, &mut bindings, variable, bound).is_err() {
        return Err(Fault::Unverified);
    }
    if !goal.is_owned(cx) {
        return Err(Fault::Refused(NOT_OWNED));
    }
    let answer = solve(cx, program, &[], &mut bindings, goal, FAR)?;
    if !variable.is_owned(cx) {
        return Err(Fault::Refused(NOT_OWNED));
    }
    let resolved = bindings.resolve(cx, variable)?;
    Ok((answer, resolved == bound))
}

// Returns the refutation of a goal where ?0 is bound, and the binding stays.
fn refuted_where(
    cx: &mut Interner,
    impls: Vec<Impl>,
    goal: TraitPredicate,
    bound: Ty,
) -> Result<Option<Vec<TraitPredicate>>, Fault> {
    let mut program = Program::new(cx.allocator());
    let declared = declare_all(cx, &mut program, impls);
    if let Err(fault) = declared {
        return Err(fault);
    }
    match solved_where(cx, &program, goal, bound)? {
        (Answer::No(goals), true) => Ok(Some(goals)),
        _ => Ok(None),
    }
}

// [?0] is refuted where ?0 is bool: by [bool], which needs bool.
fn goals_are_refuted_under_bindings_holds(cx: &mut Interner) -> Result<bool, Refusal> {
    let truth = ty(cx, TyKind::Bool)?;
    let variable = ty(cx, TyKind::Infer(InferTy::TyVar(TyVid::from_u32(0))))?;
    let (open, truths) = (slice(cx, variable)?, slice(cx, truth)?);
    let impls = of_slices(cx)?;
    let goal = implements(cx, 0, open)?;
    let expected = [implements(cx, 0, truths)?, implements(cx, 0, truth)?];
    match refuted_where(cx, impls, goal, truth) {
        Ok(Some(goals)) => Ok(goals.as_slice() == expected.as_slice()),
        _ => Ok(false),
    }
}

#[test]
fn goals_are_refuted_under_bindings(rt: HostRuntime) {
    holds_anew(&rt, rt.alloc(), goals_are_refuted_under_bindings_holds);
}
