//! Constants, patterns, predicates and existential predicates, with their lists.

ghost use Rattle.std.specs.Prelude.{◌≡◌};

use crate::terms::NOT_OWNED;
use type_terms::{
    AsClause, Binder, BoundExistentialPredicates, BoundVarKinds, Clause, ClauseKind, Clauses,
    Const, ConstKind, Consts, ExistentialPredicate, Interner, Pat, PatList, PatternKind,
    PolyExistentialPredicate, Predicate, PredicateKind, Refusal, are_owned,
};

// Returns the constant of this kind.
pub fn constant(cx: &mut Interner, kind: ConstKind) -> Result<Const, Refusal> {
    if cx.owns_const_kind(&kind) {
        cx.mk_const(kind)
    } else {
        Err(NOT_OWNED)
    }
}

// Returns the kind under a binder of these variables.
//
// The checker proves that a predicate's kind is moved into a binder where the type of the clauses in it is named.
fn under_binder(kind: PredicateKind, vars: BoundVarKinds) -> Binder<PredicateKind>
    ensures { result ≡ record { value = kind; bound_vars = vars } }
{
    let _named: Option<ClauseKind> = None;
    Binder::bind_with_vars(kind, vars)
}

// Returns the predicate of this kind under a binder of these variables.
pub fn predicate(
    cx: &mut Interner,
    kind: PredicateKind,
    vars: BoundVarKinds,
) -> Result<Predicate, Refusal> {
    let bound = under_binder(kind, vars);
    if cx.owns_predicate_kind(&bound) {
        cx.mk_predicate(bound)
    } else {
        Err(NOT_OWNED)
    }
}

// Returns the clause that the predicate is.
pub fn clause(cx: &Interner, predicate: Predicate) -> Result<Clause, Refusal> {
    if cx.owns(predicate) {
        predicate.as_clause(cx).ok_or(Refusal::NotAClause)
    } else {
        Err(NOT_OWNED)
    }
}

// Returns the list of these clauses.
pub fn clauses(cx: &mut Interner, items: &[Clause]) -> Result<Clauses, Refusal> {
    if cx.are_clauses(items) {
        cx.mk_clauses(items)
    } else {
        Err(NOT_OWNED)
    }
}

// Returns the pattern of this kind.
pub fn pattern(cx: &mut Interner, kind: PatternKind) -> Result<Pat, Refusal> {
    if cx.owns_pattern_kind(&kind) {
        cx.mk_pat(kind)
    } else {
        Err(NOT_OWNED)
    }
}

// Returns the list of these two patterns.
pub fn two_patterns(cx: &mut Interner, first: Pat, second: Pat) -> Result<PatList, Refusal> {
    if cx.owns(first) && cx.owns(second) {
        cx.mk_pat_list(&[first, second])
    } else {
        Err(NOT_OWNED)
    }
}

// Returns the list of these constants.
pub fn consts(cx: &mut Interner, items: &[Const]) -> Result<Consts, Refusal> {
    if are_owned(cx, items) {
        cx.mk_consts(items)
    } else {
        Err(NOT_OWNED)
    }
}

// Returns the existential predicate of this kind under a binder of these variables.
pub fn existential(
    cx: &mut Interner,
    kind: ExistentialPredicate,
    vars: BoundVarKinds,
) -> Result<PolyExistentialPredicate, Refusal> {
    let bound = Binder::bind_with_vars(kind, vars);
    if cx.owns_existential_kind(&bound) {
        cx.mk_existential(bound)
    } else {
        Err(NOT_OWNED)
    }
}

// Returns the list of these two existential predicates.
pub fn two_existentials(
    cx: &mut Interner,
    first: PolyExistentialPredicate,
    second: PolyExistentialPredicate,
) -> Result<BoundExistentialPredicates, Refusal> {
    if cx.owns(first) && cx.owns(second) {
        cx.mk_existential_list(&[first, second])
    } else {
        Err(NOT_OWNED)
    }
}
