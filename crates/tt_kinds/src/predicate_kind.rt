//! Predicates: conditions on terms.

ghost use Rattle.std.specs.Prelude.{◌≡◌};
ghost use Rattle.tt_kinds.specs.Predicate.{is_clause_kind, clause_of};

use crate::handle::{Const, Symbol, Ty};
use crate::id::TraitId;
use crate::predicate::{
    CoercePredicate, HostEffectPredicate, NormalizesTo, OutlivesPredicate, ProjectionPredicate,
    SubtypePredicate, TraitPredicate,
};
use crate::region_kind::Region;
use crate::term::Term;

/// A predicate that may be in a list of assumptions.
#[derive(Clone, Copy, Debug, PartialEq, Eq, Hash)]
pub enum ClauseKind {
    /// A type implements a trait.
    Trait(TraitPredicate),
    /// A region outlives another.
    RegionOutlives(OutlivesPredicate<Region>),
    /// A type outlives a region.
    TypeOutlives(OutlivesPredicate<Ty>),
    /// An alias is equal to a term.
    Projection(ProjectionPredicate),
    /// A constant has a type.
    ConstArgHasType(Const, Ty),
    /// A term is well formed.
    WellFormed(Term),
    /// A constant can be computed.
    ConstEvaluatable(Const),
    /// A type implements a trait, and constants can use the implementation.
    HostEffect(HostEffectPredicate),
    /// The unstable feature of this name is enabled.
    UnstableFeature(Symbol),
}

/// How two terms that may be aliases are related.
#[derive(Clone, Copy, Debug, PartialEq, Eq, PartialOrd, Ord, Hash)]
pub enum AliasRelationDirection {
    /// They are equal.
    Equate,
    /// The first is a subtype of the second.
    Subtype,
}

/// The kind of a predicate.
#[derive(Clone, Copy, Debug, PartialEq, Eq, Hash)]
pub enum PredicateKind {
    /// A clause.
    Clause(ClauseKind),
    /// Trait objects of the trait can be made.
    DynCompatible(TraitId),
    /// A type is a subtype of another.
    Subtype(SubtypePredicate),
    /// A type can be coerced to another.
    Coerce(CoercePredicate),
    /// Two constants are equal.
    ConstEquate(Const, Const),
    /// It is unknown whether the predicate holds.
    Ambiguous,
    /// An alias normalizes to a term.
    NormalizesTo(NormalizesTo),
    /// Two terms, aliases or not, are related.
    AliasRelate(Term, Term, AliasRelationDirection),
}

impl PredicateKind {
    /// Returns whether the predicate is a clause, so that it may be in a list of assumptions.
    pub fn is_clause(&self) -> bool
        ensures { result ≡ is_clause_kind self.now }
    {
        match self {
            PredicateKind::Clause(_) => true,
            _ => false,
        }
    }

    /// Returns the clause, or `None` if the predicate is not a clause.
    pub fn as_clause(&self) -> Option<ClauseKind>
        ensures { result ≡ clause_of self.now }
    {
        match self {
            PredicateKind::Clause(clause) => Some(*clause),
            _ => None,
        }
    }
}
