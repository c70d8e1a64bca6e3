//! Refutations that the client `solver` finds and checks.

ghost use Rattle.solver.specs.Program.{IsProgram};
ghost use Rattle.unify.specs.Bindings.{IsTable};

use crate::routines::derivations::{declare_all, implements_trait, slice_implements};
use solver::{Answer, Fault, Impl, Limits, Program, refute, solve};
use test_terms::{NOT_OWNED, param_ty, ty, u32_ty};
use type_terms::{Interner, Owned, Refusal, TraitPredicate, TyKind, are_owned};
use unify::Bindings;

// Returns the refutation of the goal, which is checked once more.
fn refutation_with(
    cx: &mut Interner,
    program: &Program,
    bindings: &mut Bindings,
    goal: TraitPredicate,
) -> Result<Option<Vec<TraitPredicate>>, Fault>
    requires program { IsProgram cx.old program.now }
    requires table { IsTable cx.old bindings.old }
{
    if !goal.is_owned(cx) {
        return Err(Fault::Refused(NOT_OWNED));
    }
    let limits = Limits {
        depth: 8,
        steps: 100,
    };
    let Answer::No(goals) = solve(cx, program, &[], bindings, goal, limits)? else {
        return Ok(None);
    };
    if !are_owned(cx, goals.as_slice()) {
        return Err(Fault::Refused(NOT_OWNED));
    }
    refute(cx, program, &[], goals.as_slice())?;
    Ok(Some(goals))
}

// Returns the same with a new table of bindings.
fn refutation(
    cx: &mut Interner,
    program: &Program,
    goal: TraitPredicate,
) -> Result<Option<Vec<TraitPredicate>>, Fault>
    requires { IsProgram cx.old program.now }
{
    let mut bindings = Bindings::new(cx.allocator());
    refutation_with(cx, program, &mut bindings, goal)
}

// Returns the same in a program with the three implementations.
fn refutation_by(
    cx: &mut Interner,
    (first, second, third): (Impl, Impl, Impl),
    goal: TraitPredicate,
) -> Result<Option<Vec<TraitPredicate>>, Fault> {
    let mut program = Program::new(cx.allocator());
    match declare_all(cx, &mut program, first, second, third) {
        Ok(()) => refutation(cx, &program, goal),
        Err(fault) => Err(fault),
    }
}

/// `[bool]` doesn't implement trait 0 by `impl<T> Trait0 for [T] where T: Trait1`, `impl Trait1 for u32` and
/// `impl Trait0 for [bool] where bool: Trait1`, since it needs that `bool` implements trait 1.
pub fn refutations_are_found(cx: &mut Interner) -> Result<bool, Refusal> {
    let (param, number) = (param_ty(cx, 0)?, u32_ty(cx)?);
    let truth = ty(cx, TyKind::Bool)?;
    let truths = ty(cx, TyKind::Slice(truth))?;
    let goal = implements_trait(cx, 0, truths)?;
    let needed = implements_trait(cx, 1, truth)?;
    let of_number = Impl {
        params: 0,
        head: implements_trait(cx, 1, number)?,
        conditions: Vec::new(cx.allocator()),
    };
    let of_params = slice_implements(cx, param)?;
    let of_truths = slice_implements(cx, truth)?;
    let expected = [goal, needed];
    match refutation_by(cx, (of_number, of_params, of_truths), goal) {
        Ok(Some(goals)) => Ok(goals.as_slice() == expected.as_slice()),
        Ok(None) => Ok(false),
        Err(Fault::Refused(refusal)) => Err(refusal),
        Err(_) => Ok(false),
    }
}
