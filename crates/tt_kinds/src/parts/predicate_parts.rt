//! The parts of predicates, without their binder.

ghost use Rattle.std.specs.Prelude.{◌≡◌};
ghost use Rattle.tt_kinds.specs.Parts.{AreLike};
ghost use Rattle.tt_kinds.specs.Kinds.{clause_form, predicate_form, existential_form, replenished};

use crate::alias::AliasTerm;
use crate::existential::{ExistentialPredicate, ExistentialProjection, ExistentialTraitRef};
use crate::parts::{Child, Parts};
use crate::predicate::{
    CoercePredicate, HostEffectPredicate, NormalizesTo, OutlivesPredicate, ProjectionPredicate,
    SubtypePredicate, TraitPredicate, TraitRef,
};
use crate::predicate_kind::{ClauseKind, PredicateKind};

impl ClauseKind {
    /// Returns the children in order.
    pub fn parts(&self) -> Parts
        ensures { result ≡ (clause_form self.now).parts }
    {
        match self {
            ClauseKind::Trait(predicate) => Parts::one(predicate.trait_ref.args.child()),
            ClauseKind::RegionOutlives(outlives) => Parts::two(
                Child::Region(outlives.0),
                Child::Region(outlives.1),
            ),
            ClauseKind::TypeOutlives(outlives) => Parts::two(
                outlives.0.child(),
                Child::Region(outlives.1),
            ),
            ClauseKind::Projection(projection) => Parts::two(
                projection.projection_term.args.child(),
                projection.term.child(),
            ),
            ClauseKind::ConstArgHasType(constant, ty) => Parts::two(constant.child(), ty.child()),
            ClauseKind::WellFormed(term) => Parts::one(term.child()),
            ClauseKind::ConstEvaluatable(constant) => Parts::one(constant.child()),
            ClauseKind::HostEffect(effect) => Parts::one(effect.trait_ref.args.child()),
            ClauseKind::UnstableFeature(_) => Parts::none(),
        }
    }

    /// Returns the same clause with other children in the places of its own. They have to be of the same sorts;
    /// [`Parts::are_like`] tests it.
    pub fn with_parts(&self, new: Parts) -> ClauseKind
        requires { AreLike (clause_form self.now).parts new }
        ensures { clause_form result ≡ replenished new (clause_form self.now) }
    {
        match self {
            ClauseKind::Trait(predicate) => ClauseKind::Trait(TraitPredicate {
                trait_ref: TraitRef {
                    def_id: predicate.trait_ref.def_id,
                    args: new.first.handle(),
                },
            }),
            ClauseKind::RegionOutlives(_) => ClauseKind::RegionOutlives(OutlivesPredicate(
                new.first.region(),
                new.second.region(),
            )),
            ClauseKind::TypeOutlives(_) => ClauseKind::TypeOutlives(OutlivesPredicate(
                new.first.handle(),
                new.second.region(),
            )),
            ClauseKind::Projection(projection) => ClauseKind::Projection(ProjectionPredicate {
                projection_term: AliasTerm {
                    args: new.first.handle(),
                    def_id: projection.projection_term.def_id,
                },
                term: new.second.term(),
            }),
            ClauseKind::ConstArgHasType(_, _) => ClauseKind::ConstArgHasType(
                new.first.handle(),
                new.second.handle(),
            ),
            ClauseKind::WellFormed(_) => ClauseKind::WellFormed(new.first.term()),
            ClauseKind::ConstEvaluatable(_) => ClauseKind::ConstEvaluatable(new.first.handle()),
            ClauseKind::HostEffect(effect) => ClauseKind::HostEffect(HostEffectPredicate {
                trait_ref: TraitRef {
                    def_id: effect.trait_ref.def_id,
                    args: new.first.handle(),
                },
                constness: effect.constness,
            }),
            ClauseKind::UnstableFeature(name) => ClauseKind::UnstableFeature(*name),
        }
    }
}

impl PredicateKind {
    /// Returns the children in order.
    pub fn parts(&self) -> Parts
        ensures { result ≡ (predicate_form self.now).parts }
    {
        match self {
            PredicateKind::Clause(clause) => clause.parts(),
            PredicateKind::Subtype(subtype) => Parts::two(subtype.a.child(), subtype.b.child()),
            PredicateKind::Coerce(coercion) => Parts::two(coercion.a.child(), coercion.b.child()),
            PredicateKind::ConstEquate(first, second) => Parts::two(first.child(), second.child()),
            PredicateKind::NormalizesTo(normalizes) => Parts::two(
                normalizes.alias.args.child(),
                normalizes.term.child(),
            ),
            PredicateKind::AliasRelate(first, second, _) => Parts::two(
                first.child(),
                second.child(),
            ),
            PredicateKind::DynCompatible(_) | PredicateKind::Ambiguous => Parts::none(),
        }
    }

    /// Returns the same predicate with other children in the places of its own. They have to be of the same sorts;
    /// [`Parts::are_like`] tests it.
    pub fn with_parts(&self, new: Parts) -> PredicateKind
        requires { AreLike (predicate_form self.now).parts new }
        ensures { predicate_form result ≡ replenished new (predicate_form self.now) }
    {
        match self {
            PredicateKind::Clause(clause) => PredicateKind::Clause(clause.with_parts(new)),
            PredicateKind::DynCompatible(id) => PredicateKind::DynCompatible(*id),
            PredicateKind::Subtype(subtype) => PredicateKind::Subtype(SubtypePredicate {
                a_is_expected: subtype.a_is_expected,
                a: new.first.handle(),
                b: new.second.handle(),
            }),
            PredicateKind::Coerce(_) => PredicateKind::Coerce(CoercePredicate {
                a: new.first.handle(),
                b: new.second.handle(),
            }),
            PredicateKind::ConstEquate(_, _) => PredicateKind::ConstEquate(
                new.first.handle(),
                new.second.handle(),
            ),
            PredicateKind::Ambiguous => PredicateKind::Ambiguous,
            PredicateKind::NormalizesTo(normalizes) => PredicateKind::NormalizesTo(NormalizesTo {
                alias: AliasTerm {
                    args: new.first.handle(),
                    def_id: normalizes.alias.def_id,
                },
                term: new.second.term(),
            }),
            PredicateKind::AliasRelate(_, _, direction) => PredicateKind::AliasRelate(
                new.first.term(),
                new.second.term(),
                *direction,
            ),
        }
    }
}

impl ExistentialPredicate {
    /// Returns the children in order.
    pub fn parts(&self) -> Parts
        ensures { result ≡ (existential_form self.now).parts }
    {
        match self {
            ExistentialPredicate::Trait(trait_ref) => Parts::one(trait_ref.args.child()),
            ExistentialPredicate::Projection(projection) => Parts::two(
                projection.args.child(),
                projection.term.child(),
            ),
            ExistentialPredicate::AutoTrait(_) => Parts::none(),
        }
    }

    /// Returns the same predicate with other children in the places of its own. They have to be of the same sorts;
    /// [`Parts::are_like`] tests it.
    pub fn with_parts(&self, new: Parts) -> ExistentialPredicate
        requires { AreLike (existential_form self.now).parts new }
        ensures { existential_form result ≡ replenished new (existential_form self.now) }
    {
        match self {
            ExistentialPredicate::Trait(trait_ref) => ExistentialPredicate::Trait(
                ExistentialTraitRef {
                    def_id: trait_ref.def_id,
                    args: new.first.handle(),
                },
            ),
            ExistentialPredicate::Projection(projection) => {
                ExistentialPredicate::Projection(ExistentialProjection {
                    def_id: projection.def_id,
                    args: new.first.handle(),
                    term: new.second.term(),
                })
            }
            ExistentialPredicate::AutoTrait(id) => ExistentialPredicate::AutoTrait(*id),
        }
    }
}
