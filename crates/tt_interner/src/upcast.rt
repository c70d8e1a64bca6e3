//! Predicates and clauses from the values that they state.

ghost use Rattle.std.specs.Prelude.{IfOk, List, ℕ, ◌≡◌};
ghost use Rattle.tt_kinds.specs.declared.binder.Binder.{Binder};
ghost use Rattle.tt_kinds.specs.declared.predicate_kind.ClauseKind.{ClauseKind};
ghost use Rattle.tt_kinds.specs.declared.predicate_kind.ClauseKind.TheVariants as clause;
ghost use Rattle.tt_interner.specs.Clauses.{clause_predicate};
ghost use Rattle.tt_interner.specs.Rows.{IsClause, Row, predicate_row};
ghost use Rattle.tt_interner.specs.Stored.{Builds};
ghost use Rattle.tt_interner.specs.Upcast.{IsClosedClause, IsOwnClause, clause_under, unbound_clause};

use crate::interner::Interner;
use tt_index::Refusal;
use tt_kinds::{
    Binder, BoundVarKinds, Clause, ClauseKind, HostEffectPredicate, OutlivesPredicate, Predicate,
    PredicateKind, ProjectionPredicate, Region, TraitPredicate, TraitRef, Ty,
};

/// A value that states a clause.
pub trait ToClauseKind: Sized {
    // The clause.
    ghost clause_kind: { Self → ClauseKind };

    /// Returns the clause that the value states. A trait reference states that its self type implements the trait.
    fn to_clause_kind(self) -> ClauseKind
        ensures { result ≡ clause_kind self };
}

impl ToClauseKind for ClauseKind {
    ghost clause_kind = { λ kind. kind };

    fn to_clause_kind(self) -> ClauseKind {
        let kind = self;
        kind
    }
}

impl ToClauseKind for TraitRef {
    ghost clause_kind = { λ trait_ref. clause.Trait (record { trait_ref = trait_ref }) };

    fn to_clause_kind(self) -> ClauseKind {
        ClauseKind::Trait(TraitPredicate { trait_ref: self })
    }
}

impl ToClauseKind for TraitPredicate {
    ghost clause_kind = { clause.Trait };

    fn to_clause_kind(self) -> ClauseKind {
        ClauseKind::Trait(self)
    }
}

impl ToClauseKind for HostEffectPredicate {
    ghost clause_kind = { clause.HostEffect };

    fn to_clause_kind(self) -> ClauseKind {
        ClauseKind::HostEffect(self)
    }
}

impl ToClauseKind for ProjectionPredicate {
    ghost clause_kind = { clause.Projection };

    fn to_clause_kind(self) -> ClauseKind {
        ClauseKind::Projection(self)
    }
}

impl ToClauseKind for OutlivesPredicate<Region> {
    ghost clause_kind = { clause.RegionOutlives };

    fn to_clause_kind(self) -> ClauseKind {
        ClauseKind::RegionOutlives(self)
    }
}

impl ToClauseKind for OutlivesPredicate<Ty> {
    ghost clause_kind = { clause.TypeOutlives };

    fn to_clause_kind(self) -> ClauseKind {
        ClauseKind::TypeOutlives(self)
    }
}

/// A handle of a predicate: a `Predicate`, or a `Clause`.
pub trait PredicateHandle: Sized {
    // The number of the handle.
    ghost number_of: { Self → ℕ };

    /// Returns the handle of the predicate's row. For a `Clause`, the predicate has to be one;
    /// [`AsClause::as_clause`](crate::AsClause::as_clause) tests it.
    fn from_predicate(predicate: Predicate) -> Self
        ensures { number_of result ≡ predicate.number };
}

impl PredicateHandle for Predicate {
    ghost number_of = { λ predicate. predicate.number };

    fn from_predicate(predicate: Predicate) -> Predicate {
        Predicate::from_number(predicate.number())
    }
}

impl PredicateHandle for Clause {
    ghost number_of = { λ clause. clause.number };

    fn from_predicate(predicate: Predicate) -> Clause {
        Clause::from_number(predicate.number())
    }
}

/// A value that states a clause, by itself or under a binder, and can be stored as a `Predicate` or as a `Clause`.
pub trait Upcast<U: PredicateHandle>: Sized {
    // The clause with its binder.
    ghost stated: { Self → Binder ClauseKind };

    // The interner can store the clause.
    ghost fits: { List Row → Self → Type 0 };

    /// Returns the predicate that the value states. Its handles and names have to be of this interner;
    /// [`Interner::owns_predicate_kind`] tests it.
    ///
    /// Without a binder, the value is put under a binder of no variables. No variable may escape the value then, since
    /// the new binder would capture it; the query `has_escaping_bound_vars` tests it. A value that a variable escapes
    /// has to come with its binder.
    ///
    /// Refused as [`Interner::mk_predicate`] is.
    fn upcast(self, cx: &mut Interner) -> Result<U, Refusal>
        requires { fits cx.old.rows self }
        ensures builds { Builds result U.number_of cx.old cx.new (predicate_row (clause_predicate (stated self))) }
        ensures clause { IfOk result (λ made. IsClause cx.new.rows (U.number_of made)) };
}

impl<T: ToClauseKind, U: PredicateHandle> Upcast<U> for Binder<T> {
    ghost stated = { λ value. clause_under T.clause_kind value };

    ghost fits = { λ rows value. IsOwnClause rows (clause_under T.clause_kind value) };

    fn upcast(self, cx: &mut Interner) -> Result<U, Refusal> {
        let bound_vars = self.bound_vars();
        let kind = PredicateKind::Clause(self.skip_binder().to_clause_kind());
        let predicate = cx.mk_predicate(Binder::bind_with_vars(kind, bound_vars))?;
        cx.are_rows();
        Ok(U::from_predicate(predicate))
    }
}

impl<T: ToClauseKind, U: PredicateHandle> Upcast<U> for T {
    ghost stated = { λ value. unbound_clause (T.clause_kind value) };

    ghost fits = { λ rows value. IsClosedClause rows (T.clause_kind value) };

    fn upcast(self, cx: &mut Interner) -> Result<U, Refusal> {
        cx.are_rows();
        Binder::bind_with_vars(self.to_clause_kind(), BoundVarKinds::default()).upcast(cx)
    }
}
