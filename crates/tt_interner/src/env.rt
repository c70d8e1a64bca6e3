//! The types that an environment gives to placeholder constants.

ghost use Rattle.std.specs.Prelude.{◌≡◌, ◌<◌, ◌↔◌, IsTrue, IfOk, IfSome, MatchOption, ◌∷◌, []};
ghost use Rattle.tt_kinds.specs.declared.bound.BoundConst.{BoundConst};
ghost use Rattle.tt_kinds.specs.declared.placeholder.Placeholder.{Placeholder};
ghost use Rattle.tt_kinds.specs.declared.predicate.ParamEnv.{ParamEnv};
ghost use Rattle.tt_kinds.specs.declared.table.Table.TheVariants.{Types, Consts, Predicates, ClauseLists};
ghost use Rattle.tt_kinds.specs.Shape.{item_shapes, AreParts};
ghost use Rattle.tt_kinds.specs.Kinds.{clause_shape};
ghost use Rattle.tt_kinds.specs.Reading.{outer_binder};
ghost use Rattle.tt_kinds.specs.declared.const_kind.ConstKind.TheVariants as const;
ghost use Rattle.tt_interner.specs.Rows.{const_row, size, meaning};
ghost use Rattle.tt_interner.specs.Stored.{IsAt};
ghost use Rattle.tt_interner.specs.Env.{
  row_at,
  is_row_of,
  bound_of_predicate,
  bound_at,
  types_of_bound,
  types_of,
  env_clauses,
  clause_types,
  IsOneType,
  IsClosedBound,
  AreClosed,
  AreBoundsClosed,
};

use crate::flags::Flags;
use crate::handle::{InternedKind, InternedList};
use crate::interner::Interner;
use thiserror::Error;
use tt_index::DebruijnIndex;
use tt_kinds::{
    Clause, ClauseKind, Clauses, Const, ConstKind, ParamEnv, PlaceholderConst, Predicate,
    PredicateKind, Ty,
};

/// Why an environment doesn't give a constant exactly one type.
#[derive(Debug, Clone, Copy, PartialEq, Eq, Drop, Error)]
pub enum ConstTyFault {
    /// No clause gives it a type.
    #[error("no clause of the environment gives the constant a type: add a `ConstArgHasType` for it")]
    Missing,
    /// Two or more clauses give it a type, perhaps the same one.
    #[error("two or more clauses of the environment give the constant a type: keep one of them")]
    Duplicate,
}

/// A placeholder constant, whose type an environment gives.
pub trait FindConstTy: Sized {
    // The placeholder.
    ghost constant: { Self → Placeholder BoundConst };

    /// Returns the type of the one clause `ConstArgHasType` of the environment that is about this constant. The
    /// environment has to be of the interner; [`Interner::owns_clauses`] tests its list.
    ///
    /// Fails with `Missing` if there is no such clause, and with `Duplicate` if there are two or more, which may be
    /// equal. The clause's binder is dropped from the type: [`ConstBounds::const_bounds_closed`] tests that no variable
    /// escapes it.
    fn find_const_ty_from_env(self, cx: &Interner, env: ParamEnv) -> Result<Ty, ConstTyFault>
        requires { env.caller_bounds.number < size cx.now.rows ClauseLists }
        ensures one { IsOneType (clause_types cx.now.rows (constant self) env) result }
        ensures in_range { IfOk result (λ ty. ty.number < size cx.now.rows Types) }
        ensures closed { AreBoundsClosed cx.now.rows env
            → IfOk result (λ ty. outer_binder (meaning cx.now.rows Types ty.number) ≡ 0) };
}

impl FindConstTy for PlaceholderConst {
    ghost constant = { λ placeholder. placeholder };

    #[tactic(auto, unfolding(crate::specs::Env::clause_types, crate::specs::Env::AreBoundsClosed))]
    fn find_const_ty_from_env(self, cx: &Interner, env: ParamEnv) -> Result<Ty, ConstTyFault> {
        one_type(cx, &self, env_clauses(cx, env))
    }
}

/// An environment, whose clauses give constants types.
pub trait ConstBounds: Sized {
    // The environment.
    ghost as_env: { Self → ParamEnv };

    /// Returns the environment's clauses.
    fn caller_bounds(self) -> Clauses
        ensures { result ≡ (as_env self).caller_bounds };

    /// Returns whether in each clause `ConstArgHasType` no variable escapes the constant or the type once the clause's
    /// binder is dropped. The environment has to be of the interner; [`Interner::owns_clauses`] tests its list.
    fn const_bounds_closed(self, cx: &Interner) -> bool
        requires { (as_env self).caller_bounds.number < size cx.now.rows ClauseLists }
        ensures { IsTrue result ↔ AreBoundsClosed cx.now.rows (as_env self) };
}

impl ConstBounds for ParamEnv {
    ghost as_env = { λ env. env };

    fn caller_bounds(self) -> Clauses {
        self.caller_bounds
    }

    #[tactic(auto, unfolding(crate::specs::Env::AreBoundsClosed))]
    fn const_bounds_closed(self, cx: &Interner) -> bool {
        are_closed(cx, env_clauses(cx, self))
    }
}

// Returns the clauses of an environment.
fn env_clauses(cx: &Interner, env: ParamEnv) -> &[Clause]
    requires { env.caller_bounds.number < size cx.now.rows ClauseLists }
    ensures are { result.now ≡ env_clauses cx.now.rows env }
    ensures in_range { AreParts (size cx.now.rows) (item_shapes clause_shape result.now) }
{
    cx.are_rows();
    env.caller_bounds.as_slice(cx)
}

// Returns whether the constant is this placeholder.
fn is_constant(cx: &Interner, placeholder: &PlaceholderConst, constant: Const) -> bool
    requires { constant.number < size cx.now.rows Consts }
    ensures is { result ≡ is_row_of placeholder.now (row_at cx.now.rows Consts constant.number) }
    ensures exact { IsTrue result ↔ IsAt cx.now.rows (const_row (const.Placeholder placeholder.now)) constant.number }
{
    match constant.kind(cx) {
        ConstKind::Placeholder(other) => other == placeholder,
        _ => false,
    }
}

// Returns the constant and the type of a clause that gives a constant its type.
fn bound_of(kind: PredicateKind) -> Option<(Const, Ty)>
    ensures { result ≡ bound_of_predicate kind }
{
    match kind {
        PredicateKind::Clause(ClauseKind::ConstArgHasType(constant, ty)) => Some((constant, ty)),
        _ => None,
    }
}

// Returns the constant and the type of a stored clause that gives a constant its type, without the clause's binder.
fn bound_at(cx: &Interner, clause: Clause) -> Option<(Const, Ty)>
    requires { clause.number < size cx.now.rows Predicates }
    ensures is { result ≡ bound_at cx.now.rows clause }
    ensures in_range { IfSome result (λ bound. (bound.0.number < size cx.now.rows Consts)
        × (bound.1.number < size cx.now.rows Types)) }
{
    cx.are_rows();
    let predicate = Predicate::from_number(clause.number());
    bound_of(*predicate.kind(cx).as_ref().skip_binder())
}

// Returns the type that the clause gives the placeholder, if any.
fn type_given(cx: &Interner, placeholder: &PlaceholderConst, clause: Clause) -> Option<Ty>
    requires { clause.number < size cx.now.rows Predicates }
    ensures given { MatchOption result
        (types_of_bound cx.now.rows placeholder.now (bound_at cx.now.rows clause) ≡ [])
        (λ ty. types_of_bound cx.now.rows placeholder.now (bound_at cx.now.rows clause) ≡ ty ∷ []) }
    ensures in_range { IfSome result (λ ty. ty.number < size cx.now.rows Types) }
{
    match bound_at(cx, clause) {
        Some((constant, ty)) => {
            if is_constant(cx, placeholder, constant) {
                Some(ty)
            } else {
                None
            }
        }
        None => None,
    }
}

// Returns the one type that the clauses give the placeholder.
fn one_type(
    cx: &Interner,
    placeholder: &PlaceholderConst,
    clauses: &[Clause],
) -> Result<Ty, ConstTyFault>
    requires { AreParts (size cx.now.rows) (item_shapes clause_shape clauses.now) }
    ensures one { IsOneType (types_of cx.now.rows placeholder.now clauses.now) result }
    ensures in_range { IfOk result (λ ty. ty.number < size cx.now.rows Types) }
{
    let mut found: Option<Ty> = None;
    for clause in clauses {
        if let Some(ty) = type_given(cx, placeholder, *clause) {
            if found.is_some() {
                return Err(ConstTyFault::Duplicate);
            }
            found = Some(ty);
        }
    }
    found.ok_or(ConstTyFault::Missing)
}

// Returns whether no variable escapes the constant and the type of the clause, if it gives a constant its type.
#[tactic(auto, unfolding(tt_kinds::specs::Shape::fill))]
fn is_closed(cx: &Interner, clause: Clause) -> bool
    requires { clause.number < size cx.now.rows Predicates }
    ensures { IsTrue result ↔ IsClosedBound cx.now.rows (bound_at cx.now.rows clause) }
{
    match bound_at(cx, clause) {
        Some((constant, ty)) => {
            constant.outer_exclusive_binder(cx) == DebruijnIndex::INNERMOST
                && ty.outer_exclusive_binder(cx) == DebruijnIndex::INNERMOST
        }
        None => true,
    }
}

// Returns whether each clause passes `is_closed`.
fn are_closed(cx: &Interner, clauses: &[Clause]) -> bool
    requires { AreParts (size cx.now.rows) (item_shapes clause_shape clauses.now) }
    ensures { IsTrue result ↔ AreClosed cx.now.rows clauses.now }
{
    for clause in clauses {
        if !is_closed(cx, *clause) {
            return false;
        }
    }
    true
}
