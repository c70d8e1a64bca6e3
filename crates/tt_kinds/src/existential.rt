//! Existential predicates: the predicates of a trait object on the type that it hides.

use crate::handle::GenericArgs;
use crate::id::{DefId, TraitId};
use crate::term::Term;

/// A trait with its own arguments, without the self type.
#[derive(Clone, Copy, Debug, PartialEq, Eq, Hash)]
pub struct ExistentialTraitRef {
    /// The trait.
    pub def_id: TraitId,
    /// The trait's own arguments.
    pub args: GenericArgs,
}

/// The value of an associated item of the hidden type.
#[derive(Clone, Copy, Debug, PartialEq, Eq, Hash)]
pub struct ExistentialProjection {
    /// The associated item.
    pub def_id: DefId,
    /// Its arguments, without the hidden type.
    pub args: GenericArgs,
    /// Its value.
    pub term: Term,
}

/// A predicate of a trait object on the type that it hides.
#[derive(Clone, Copy, Debug, PartialEq, Eq, Hash)]
pub enum ExistentialPredicate {
    /// The hidden type implements a trait.
    Trait(ExistentialTraitRef),
    /// An associated item of the hidden type is equal to a term.
    Projection(ExistentialProjection),
    /// The hidden type implements an auto trait.
    AutoTrait(TraitId),
}
