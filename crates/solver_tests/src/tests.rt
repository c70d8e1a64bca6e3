//! Implementations that can be declared or not, logs that follow from them or not, refutations, and overlaps.

mod declared;
mod logs;
mod overlaps;
mod refutations;
mod solving;

ghost use Rattle.tt_interner.specs.Stored.{Extends};
ghost use Rattle.solver.specs.Program.{IsProgram};

use solver::{Fault, Impl, Line, Program, Reason, are_owned_lines, verify};
use std::alloc::Global;
use std::process::Abort;
use test_terms::{NOT_OWNED, answer_anew, args, ty, u32_ty};
use type_terms::{
    GenericArg, Interner, Owned, Refusal, TraitId, TraitPredicate, TraitRef, Ty, TyKind, are_owned,
};

// Asserts that the check returns `Ok(true)` on a new interner.
fn holds_anew<F: FnOnce(&mut Interner) -> Result<bool, Refusal> + Drop>(
    rt: &impl Abort,
    alloc: Global,
    check: F,
)
    requires { F.IsAlwaysCallable check }
{
    assert_eq!(rt; answer_anew(alloc, check), Ok(true));
}

// Returns that the type implements the trait of number 0.
fn implements(cx: &mut Interner, ty: Ty) -> Result<TraitPredicate, Refusal> {
    let args = args(cx, &[GenericArg::from(ty)])?;
    Ok(TraitPredicate {
        trait_ref: TraitRef {
            def_id: TraitId::from_number(0),
            args,
        },
    })
}

// Returns the slice type of the items.
fn slice(cx: &mut Interner, item: Ty) -> Result<Ty, Refusal> {
    ty(cx, TyKind::Slice(item))
}

// Returns `impl Trait for u32`.
fn number_implements(cx: &mut Interner) -> Result<Impl, Refusal> {
    let number = u32_ty(cx)?;
    Ok(Impl {
        params: 0,
        head: implements(cx, number)?,
        conditions: Vec::new(cx.allocator()),
    })
}

// Returns `impl<T> Trait for [T] where T: Trait`, for this type in place of T.
fn slice_implements(cx: &mut Interner, item: Ty) -> Result<Impl, Refusal> {
    let whole = slice(cx, item)?;
    let condition = implements(cx, item)?;
    Ok(Impl {
        params: 1,
        head: implements(cx, whole)?,
        conditions: Vec::from_slice(cx.allocator(), &[condition])?,
    })
}

// Declares the implementation.
fn declare(cx: &mut Interner, program: &mut Program, implementation: Impl) -> Result<(), Fault>
    requires { IsProgram cx.old program.old }
    ensures extends { Extends cx.old cx.new }
    ensures program { IsProgram cx.new program.new }
{
    if !implementation.is_owned(cx) {
        return Err(Fault::Refused(NOT_OWNED));
    }
    program.add(cx, implementation)
}

// Declares the implementations.
fn declare_all(cx: &mut Interner, program: &mut Program, impls: Vec<Impl>) -> Result<(), Fault>
    requires { IsProgram cx.old program.old }
    ensures extends { Extends cx.old cx.new }
    ensures program { IsProgram cx.new program.new }
{
    for implementation in impls {
        let declared = declare(cx, program, implementation);
        if declared.is_err() {
            return declared;
        }
    }
    Ok(())
}

// Checks the log, which follows from the two implementations and the assumption or not.
fn verdict(
    cx: &mut Interner,
    first: Impl,
    second: Impl,
    assumption: TraitPredicate,
    lines: &[Line],
) -> Result<(), Fault> {
    let mut program = Program::new(cx.allocator());
    let declared = declare(cx, &mut program, first);
    if declared.is_err() {
        return declared;
    }
    let declared = declare(cx, &mut program, second);
    if declared.is_err() {
        return declared;
    }
    let assumptions = [assumption];
    if !are_owned(cx, &assumptions) || !are_owned_lines(cx, lines) {
        return Err(Fault::Refused(NOT_OWNED));
    }
    verify(cx, &program, &assumptions, lines)
}

// Returns whether the log follows from `impl Trait for u32`, `impl<T> Trait for [T] where T: Trait` and the assumption.
fn follows(cx: &mut Interner, param: Ty, assumption: Ty, lines: &[Line]) -> Result<bool, Refusal> {
    let first = number_implements(cx)?;
    let second = slice_implements(cx, param)?;
    let assumption = implements(cx, assumption)?;
    Ok(verdict(cx, first, second, assumption, lines) == Ok(()))
}

// Returns the line that the type implements the trait since it is assumed.
fn assumed(cx: &mut Interner, ty: Ty, number: usize) -> Result<Line, Refusal> {
    Ok(Line {
        goal: implements(cx, ty)?,
        reason: Reason::Assumed(number),
    })
}

// Returns the line that u32 implements the trait.
fn number_line(cx: &mut Interner) -> Result<Line, Refusal> {
    let number = u32_ty(cx)?;
    Ok(Line {
        goal: implements(cx, number)?,
        reason: Reason::Implemented {
            number: 0,
            args: args(cx, &[])?,
            conditions: Vec::new(cx.allocator()),
        },
    })
}

// Returns the line that the slice type of the items implements the trait, since the items do by the lines of these
// numbers.
fn slice_line(cx: &mut Interner, item: Ty, numbers: &[usize]) -> Result<Line, Refusal> {
    let whole = slice(cx, item)?;
    Ok(Line {
        goal: implements(cx, whole)?,
        reason: Reason::Implemented {
            number: 1,
            args: args(cx, &[GenericArg::from(item)])?,
            conditions: Vec::from_slice(cx.allocator(), numbers)?,
        },
    })
}
