//! Logs that the client `solver` checks and finds.

ghost use Rattle.tt_interner.specs.Stored.{Extends};
ghost use Rattle.solver.specs.Program.{IsProgram};
ghost use Rattle.unify.specs.Bindings.{IsTable};

use solver::{Answer, Fault, Impl, Limits, Line, Program, Reason, are_owned_lines, solve, verify};
use test_terms::{NOT_OWNED, args, param_ty, ty, u32_ty};
use type_terms::{
    GenericArg, InferTy, Interner, Owned, Refusal, TraitId, TraitPredicate, TraitRef, Ty, TyKind,
    TyVid,
};
use unify::Bindings;

/// Returns that the type implements the trait of this number.
pub(super) fn implements_trait(
    cx: &mut Interner,
    number: u32,
    ty: Ty,
) -> Result<TraitPredicate, Refusal> {
    Ok(TraitPredicate {
        trait_ref: TraitRef {
            def_id: TraitId::from_number(number),
            args: args(cx, &[GenericArg::from(ty)])?,
        },
    })
}

// Returns that the type implements the trait of number 0.
fn implements(cx: &mut Interner, ty: Ty) -> Result<TraitPredicate, Refusal> {
    implements_trait(cx, 0, ty)
}

// Declares the implementation.
fn declare(cx: &mut Interner, program: &mut Program, implementation: Impl) -> Result<(), Fault>
    requires { IsProgram cx.old program.old }
    ensures extends { Extends cx.old cx.new }
    ensures program { IsProgram cx.new program.new }
{
    if !implementation.is_owned(cx) {
        return Err(Fault::Refused(NOT_OWNED));
    }
    program.add(cx, implementation)
}

// Checks the log in a program with the two implementations.
fn checked(cx: &mut Interner, first: Impl, second: Impl, lines: &[Line]) -> Result<(), Fault> {
    let mut program = Program::new(cx.allocator());
    let declared = declare(cx, &mut program, first);
    if declared.is_err() {
        return declared;
    }
    let declared = declare(cx, &mut program, second);
    if declared.is_err() {
        return declared;
    }
    if !are_owned_lines(cx, lines) {
        return Err(Fault::Refused(NOT_OWNED));
    }
    verify(cx, &program, &[], lines)
}

/// `[u32]` implements a trait by `impl Trait for u32` and `impl<T> Trait for [T] where T: Trait`.
pub fn derivations_are_checked(cx: &mut Interner) -> Result<bool, Refusal> {
    let (param, number) = (param_ty(cx, 0)?, u32_ty(cx)?);
    let of_param = implements(cx, param)?;
    let of_number = implements(cx, number)?;
    let params = ty(cx, TyKind::Slice(param))?;
    let numbers = ty(cx, TyKind::Slice(number))?;
    let first = Impl {
        params: 0,
        head: of_number,
        conditions: Vec::new(cx.allocator()),
    };
    let second = Impl {
        params: 1,
        head: implements(cx, params)?,
        conditions: Vec::from_slice(cx.allocator(), &[of_param])?,
    };
    let number_line = Line {
        goal: of_number,
        reason: Reason::Implemented {
            number: 0,
            args: args(cx, &[])?,
            conditions: Vec::new(cx.allocator()),
        },
    };
    let slice_line = Line {
        goal: implements(cx, numbers)?,
        reason: Reason::Implemented {
            number: 1,
            args: args(cx, &[GenericArg::from(number)])?,
            conditions: Vec::from_slice(cx.allocator(), &[0])?,
        },
    };
    match checked(cx, first, second, &[number_line, slice_line]) {
        Ok(()) => Ok(true),
        Err(Fault::Refused(refusal)) => Err(refusal),
        Err(_) => Ok(false),
    }
}

/// Returns `impl<T> Trait0 for [..] where ..`, for the items of the slice type and the type that has to implement trait 1.
pub(super) fn slice_implements(cx: &mut Interner, items: Ty) -> Result<Impl, Refusal> {
    let whole = ty(cx, TyKind::Slice(items))?;
    let condition = implements_trait(cx, 1, items)?;
    Ok(Impl {
        params: 1,
        head: implements(cx, whole)?,
        conditions: Vec::from_slice(cx.allocator(), &[condition])?,
    })
}

/// Declares the three implementations.
pub(super) fn declare_all(
    cx: &mut Interner,
    program: &mut Program,
    first: Impl,
    second: Impl,
    third: Impl,
) -> Result<(), Fault>
    requires { IsProgram cx.old program.old }
    ensures { IsProgram cx.new program.new }
{
    let declared = declare(cx, program, first);
    if declared.is_err() {
        return declared;
    }
    let declared = declare(cx, program, second);
    if declared.is_err() {
        return declared;
    }
    declare(cx, program, third)
}

// Makes a variable.
fn make_variable(cx: &mut Interner, bindings: &mut Bindings) -> Result<Ty, Fault>
    requires { IsTable cx.old bindings.old }
    ensures extends { Extends cx.old cx.new }
    ensures table { IsTable cx.new bindings.new }
{
    match bindings.new_variable(cx) {
        Ok(variable) => Ok(variable),
        Err(unify::Fault::Refused(refusal)) => Err(Fault::Refused(refusal)),
        Err(_) => Err(Fault::Unverified),
    }
}

// Makes a variable, and returns how many lines derive the goal, and what the type becomes.
fn found_with(
    cx: &mut Interner,
    program: &Program,
    bindings: &mut Bindings,
    ty: Ty,
    goal: TraitPredicate,
) -> Result<Option<(usize, Ty)>, Fault>
    requires program { IsProgram cx.old program.now }
    requires table { IsTable cx.old bindings.old }
{
    make_variable(cx, bindings)?;
    if !goal.is_owned(cx) {
        return Err(Fault::Refused(NOT_OWNED));
    }
    let limits = Limits {
        depth: 8,
        steps: 100,
    };
    let Answer::Yes(log) = solve(cx, program, &[], bindings, goal, limits)? else {
        return Ok(None);
    };
    if !ty.is_owned(cx) {
        return Err(Fault::Refused(NOT_OWNED));
    }
    Ok(Some((log.len(), bindings.resolve(cx, ty)?)))
}

// Returns the same with a new table of bindings.
fn found(
    cx: &mut Interner,
    program: &Program,
    ty: Ty,
    goal: TraitPredicate,
) -> Result<Option<(usize, Ty)>, Fault>
    requires { IsProgram cx.old program.now }
{
    let mut bindings = Bindings::new(cx.allocator());
    found_with(cx, program, &mut bindings, ty, goal)
}

// Returns the same in a program with the three implementations.
fn found_by(
    cx: &mut Interner,
    (first, second, third): (Impl, Impl, Impl),
    ty: Ty,
    goal: TraitPredicate,
) -> Result<Option<(usize, Ty)>, Fault> {
    let mut program = Program::new(cx.allocator());
    match declare_all(cx, &mut program, first, second, third) {
        Ok(()) => found(cx, &program, ty, goal),
        Err(fault) => Err(fault),
    }
}

/// `[?0]` implements trait 0 by `impl<T> Trait0 for [T] where T: Trait1` and `impl Trait1 for u32`, and not by
/// `impl Trait0 for [bool] where bool: Trait1`.
pub fn derivations_are_found(cx: &mut Interner) -> Result<bool, Refusal> {
    let (param, number) = (param_ty(cx, 0)?, u32_ty(cx)?);
    let truth = ty(cx, TyKind::Bool)?;
    let variable = ty(cx, TyKind::Infer(InferTy::TyVar(TyVid::from_u32(0))))?;
    let whole = ty(cx, TyKind::Slice(variable))?;
    let goal = implements(cx, whole)?;
    let of_number = Impl {
        params: 0,
        head: implements_trait(cx, 1, number)?,
        conditions: Vec::new(cx.allocator()),
    };
    let of_params = slice_implements(cx, param)?;
    let of_truths = slice_implements(cx, truth)?;
    match found_by(cx, (of_number, of_params, of_truths), variable, goal) {
        Ok(answer) => Ok(answer == Some((2, number))),
        Err(Fault::Refused(refusal)) => Err(refusal),
        Err(_) => Ok(false),
    }
}
