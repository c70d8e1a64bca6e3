//! Aliases: types and constants that normalize to others.

ghost use Rattle.std.specs.Prelude.{◌≡◌, ◌↔◌, IsTrue};
ghost use Rattle.tt_kinds.specs.Alias.{alias_name, alias_number, alias_sort};
ghost use Rattle.tt_kinds.specs.declared.declaration.DeclarationSort.TheVariants as sort;

use crate::declaration::DeclarationSort;
use crate::handle::GenericArgs;
use crate::id::{DefId, FreeTyAliasId, InherentAssocTyId, OpaqueTyId, TraitAssocTyId};

/// The kind of an alias, with its declaration.
#[derive(Clone, Copy, Debug, PartialEq, Eq, Hash)]
pub enum AliasTyKind {
    /// An associated type of a trait, which an implementation defines.
    Projection {
        /// The associated type.
        def_id: TraitAssocTyId,
    },
    /// An associated type of an inherent implementation.
    Inherent {
        /// The associated type.
        def_id: InherentAssocTyId,
    },
    /// An opaque type.
    Opaque {
        /// The opaque type.
        def_id: OpaqueTyId,
    },
    /// A type alias whose bounds are checked, and which can always be normalized away.
    Free {
        /// The alias.
        def_id: FreeTyAliasId,
    },
}

impl AliasTyKind {
    /// Returns the name of this kind of alias in messages: `associated type`, `inherent associated type`, `opaque type`
    /// or `type alias`.
    pub fn descr(self) -> &'static str
        ensures { result.now ≡ alias_name self }
    {
        match self.sort() {
            DeclarationSort::Free => "type alias",
            DeclarationSort::Opaque => "opaque type",
            DeclarationSort::Inherent => "inherent associated type",
            _ => "associated type",
        }
    }

    // Returns the sort of the alias's declaration.
    fn sort(self) -> DeclarationSort
        ensures { result ≡ alias_sort self }
    {
        match self {
            AliasTyKind::Projection { .. } => DeclarationSort::AssocTy,
            AliasTyKind::Inherent { .. } => DeclarationSort::Inherent,
            AliasTyKind::Opaque { .. } => DeclarationSort::Opaque,
            AliasTyKind::Free { .. } => DeclarationSort::Free,
        }
    }

    /// Returns the declaration of the alias.
    pub fn def_id(self) -> DefId
        ensures { result ≡ record { number = alias_number self } }
    {
        match self {
            AliasTyKind::Projection { def_id } => def_id.into(),
            AliasTyKind::Inherent { def_id } => def_id.into(),
            AliasTyKind::Opaque { def_id } => def_id.into(),
            AliasTyKind::Free { def_id } => def_id.into(),
        }
    }
}

/// An alias of a type, which normalizes to another type.
#[derive(Clone, Copy, Debug, PartialEq, Eq, Hash)]
pub struct AliasTy {
    /// The arguments of the alias.
    pub args: GenericArgs,
    /// The kind of the alias.
    pub kind: AliasTyKind,
}

impl AliasTy {
    /// Returns the alias of this kind with these arguments.
    pub fn new_from_args(kind: AliasTyKind, args: GenericArgs) -> AliasTy
        ensures { result ≡ record { args = args; kind = kind } }
    {
        AliasTy { args, kind }
    }

    /// Returns whether the alias is an opaque type.
    pub fn is_opaque(self) -> bool
        ensures { IsTrue result ↔ (alias_sort self.kind ≡ sort.Opaque) }
    {
        matches!(self.kind, AliasTyKind::Opaque { .. })
    }

    /// Returns whether the alias is an associated type of a trait.
    pub fn is_projection(self) -> bool
        ensures { IsTrue result ↔ (alias_sort self.kind ≡ sort.AssocTy) }
    {
        matches!(self.kind, AliasTyKind::Projection { .. })
    }
}

/// An alias of a type or a constant.
#[derive(Clone, Copy, Debug, PartialEq, Eq, Hash)]
pub struct AliasTerm {
    /// The arguments of the alias.
    pub args: GenericArgs,
    /// The declaration of the alias.
    pub def_id: DefId,
}
