//! A solver's conversions: self types, and clauses from the values that they state.

use super::holds_anew;
use test_terms::{NOT_OWNED, args, bound_ty, clause, clauses, predicate, ty, u32_ty};
use type_terms::{
    AliasTerm, BoundVarKinds, Clause, ClauseKind, ConstBounds, DefId, GenericArg, Interner, Owned,
    ParamEnv, PredicateHandle, PredicateKind, ProjectionPredicate, Refusal, SelfTy, Term,
    ToClauseKind, TraitId, TraitPredicate, TraitRef, Ty, TyKind, TypeVisitableExt, Upcast,
};

// Returns the clause that the value states. No variable may escape the value.
fn stated<T: ToClauseKind>(cx: &mut Interner, value: T) -> Result<Clause, Refusal> {
    let kind = value.to_clause_kind();
    if !kind.is_owned(cx) || kind.has_escaping_bound_vars(cx) {
        return Err(NOT_OWNED);
    }
    kind.upcast(cx)
}

// Returns the value with this self type, and its own self type.
fn with_self_ty<T: SelfTy>(cx: &mut Interner, value: T, ty: Ty) -> Result<(T, Ty), Refusal> {
    if !(value.has_self_ty(cx) && cx.owns(value.args()) && cx.owns_ty(ty)) {
        return Err(NOT_OWNED);
    }
    let own = value.self_ty(cx);
    let other = value.with_replaced_self_ty(cx, ty)?;
    Ok((other, own))
}

// Returns `u32: Trait<bool>`, for the trait of number 0.
fn number_is_one(cx: &mut Interner) -> Result<TraitRef, Refusal> {
    let (number, truth) = (u32_ty(cx)?, ty(cx, TyKind::Bool)?);
    Ok(TraitRef {
        def_id: TraitId::from_number(0),
        args: args(cx, &[GenericArg::from(number), GenericArg::from(truth)])?,
    })
}

// A trait reference and its predicate state one clause, which is the predicate that is built by hand, and which an
// environment can hold. A value that a variable escapes states none without its binder.
fn clauses_are_stated_holds(cx: &mut Interner) -> Result<bool, Refusal> {
    let trait_ref = number_is_one(cx)?;
    let by_hand = PredicateKind::Clause(ClauseKind::Trait(TraitPredicate { trait_ref }));
    let stored = predicate(cx, by_hand, BoundVarKinds::default())?;
    let wanted = clause(cx, stored)?;
    let caller_bounds = clauses(cx, &[wanted])?;
    let near = GenericArg::from(bound_ty(cx, 0)?);
    let escaping = TraitRef {
        def_id: trait_ref.def_id,
        args: args(cx, &[near])?,
    };
    Ok(
        stated(cx, trait_ref) == Ok(wanted)
            && stated(cx, TraitPredicate { trait_ref }) == Ok(wanted)
            && stated(cx, escaping) == Err(NOT_OWNED)
            && Clause::from_predicate(stored) == wanted
            && ParamEnv { caller_bounds }.caller_bounds() == caller_bounds,
    )
}

#[test]
fn clauses_are_stated(rt: HostRuntime) {
    holds_anew(&rt, rt.alloc(), clauses_are_stated_holds);
}

// `u32: Trait<bool>` becomes `bool: Trait<bool>`, and so does the trait of a projection.
fn self_types_are_replaced_holds(cx: &mut Interner) -> Result<bool, Refusal> {
    let trait_ref = number_is_one(cx)?;
    let (number, truth) = (u32_ty(cx)?, ty(cx, TyKind::Bool)?);
    let wanted = args(cx, &[GenericArg::from(truth), GenericArg::from(truth)])?;
    let projection = ProjectionPredicate {
        projection_term: AliasTerm {
            args: trait_ref.args,
            def_id: DefId::from_number(1),
        },
        term: Term::from(number),
    };
    let (other, own) = with_self_ty(cx, trait_ref, truth)?;
    let (projected, item) = with_self_ty(cx, projection, truth)?;
    Ok(
        own == number
            && other.args == wanted
            && other.def_id == trait_ref.def_id
            && item == number
            && projected.args() == wanted
            && projected.term == projection.term
            && projected.with_args(trait_ref.args) == projection,
    )
}

#[test]
fn self_types_are_replaced(rt: HostRuntime) {
    holds_anew(&rt, rt.alloc(), self_types_are_replaced_holds);
}
