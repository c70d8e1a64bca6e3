//! The records of predicates.

use crate::alias::AliasTerm;
use crate::handle::{Clauses, GenericArgs, Ty};
use crate::id::TraitId;
use crate::region_kind::Region;
use crate::term::Term;

/// A trait with its arguments, the first of which is the self type.
#[derive(Clone, Copy, Debug, PartialEq, Eq, Hash)]
pub struct TraitRef {
    /// The trait.
    pub def_id: TraitId,
    /// The self type, and then the trait's own arguments.
    pub args: GenericArgs,
}

/// A type implements a trait.
#[derive(Clone, Copy, Debug, PartialEq, Eq, Hash)]
pub struct TraitPredicate {
    /// The trait and the type.
    pub trait_ref: TraitRef,
}

/// In which constants an implementation has to be usable.
#[derive(Clone, Copy, Debug, PartialEq, Eq, Hash)]
pub enum BoundConstness {
    /// In every constant.
    Const,
    /// In a constant if the enclosing function is called in one.
    Maybe,
}

/// A type implements a trait, and constants can use the implementation.
#[derive(Clone, Copy, Debug, PartialEq, Eq, Hash)]
pub struct HostEffectPredicate {
    /// The trait and the type.
    pub trait_ref: TraitRef,
    /// Which constants can use the implementation.
    pub constness: BoundConstness,
}

/// The first member outlives the region.
#[derive(Clone, Copy, Debug, PartialEq, Eq, Hash)]
pub struct OutlivesPredicate<A>(pub A, pub Region);

/// An alias is equal to this term.
#[derive(Clone, Copy, Debug, PartialEq, Eq, Hash)]
pub struct ProjectionPredicate {
    /// The alias.
    pub projection_term: AliasTerm,
    /// The term that it is equal to.
    pub term: Term,
}

/// An alias normalizes to this term.
#[derive(Clone, Copy, Debug, PartialEq, Eq, Hash)]
pub struct NormalizesTo {
    /// The alias.
    pub alias: AliasTerm,
    /// The term that it normalizes to.
    pub term: Term,
}

/// The type `a` is a subtype of the type `b`.
#[derive(Clone, Copy, Debug, PartialEq, Eq, Hash)]
pub struct SubtypePredicate {
    /// Whether `a` is the expected type, for messages.
    pub a_is_expected: bool,
    /// The subtype.
    pub a: Ty,
    /// The supertype.
    pub b: Ty,
}

/// The type `a` can be coerced to the type `b`.
#[derive(Clone, Copy, Debug, PartialEq, Eq, Hash)]
pub struct CoercePredicate {
    /// The type of the value.
    pub a: Ty,
    /// The type that it is coerced to.
    pub b: Ty,
}

/// The assumptions inside an item.
#[derive(Clone, Copy, Debug, PartialEq, Eq, Hash)]
pub struct ParamEnv {
    /// The clauses that every caller of the item proves.
    pub caller_bounds: Clauses,
}
