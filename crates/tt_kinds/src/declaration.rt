//! Declarations: what ids name.

ghost use Rattle.std.specs.Prelude.{◌≡◌};
ghost use Rattle.tt_kinds.specs.Declaration.{sort_of};

use crate::binder::{Binder, EarlyBinder};
use crate::fn_sig::FnSig;
use crate::handle::Symbol;
use crate::id::{ImplId, TraitId};

/// What is declared.
#[derive(Clone, Copy, Debug, PartialEq, Eq, Hash)]
pub enum DeclarationKind {
    /// A trait.
    Trait {
        /// The number of its parameters, including the self type.
        params: u32,
    },
    /// An associated type of this trait.
    AssocTy(TraitId),
    /// An implementation: of a trait, or of a type's own items.
    Impl,
    /// An associated type of this inherent implementation.
    Inherent(ImplId),
    /// A struct, an enum or a union.
    Adt,
    /// A function of this signature.
    Fn(EarlyBinder<Binder<FnSig>>),
    /// An opaque type, such as `impl Trait` as a result.
    Opaque,
    /// A type alias whose bounds are checked, and which can always be normalized away.
    Free,
    /// A foreign type, which is declared elsewhere.
    Foreign,
    /// A closure.
    Closure,
    /// A closure that returns a coroutine.
    CoroutineClosure,
    /// A coroutine.
    Coroutine,
    /// A constant whose value is computed on demand.
    Const,
    /// A parameter: of a type, a region or a constant.
    Param,
}

/// The sort of a declaration: a [`DeclarationKind`] without its contents.
#[derive(Clone, Copy, Debug, PartialEq, Eq, Hash)]
pub enum DeclarationSort {
    /// A trait.
    Trait,
    /// An associated type of a trait.
    AssocTy,
    /// An implementation: of a trait, or of a type's own items.
    Impl,
    /// An associated type of an inherent implementation.
    Inherent,
    /// A struct, an enum or a union.
    Adt,
    /// A function.
    Fn,
    /// An opaque type.
    Opaque,
    /// A type alias whose bounds are checked, and which can always be normalized away.
    Free,
    /// A foreign type, which is declared elsewhere.
    Foreign,
    /// A closure.
    Closure,
    /// A closure that returns a coroutine.
    CoroutineClosure,
    /// A coroutine.
    Coroutine,
    /// A constant whose value is computed on demand.
    Const,
    /// A parameter: of a type, a region or a constant.
    Param,
}

impl DeclarationKind {
    /// Returns the sort of the declaration.
    pub fn sort(&self) -> DeclarationSort
        ensures { result ≡ sort_of self.now }
    {
        match self {
            DeclarationKind::Trait { .. } => DeclarationSort::Trait,
            DeclarationKind::AssocTy(_) => DeclarationSort::AssocTy,
            DeclarationKind::Impl => DeclarationSort::Impl,
            DeclarationKind::Inherent(_) => DeclarationSort::Inherent,
            DeclarationKind::Adt => DeclarationSort::Adt,
            DeclarationKind::Fn(_) => DeclarationSort::Fn,
            DeclarationKind::Opaque => DeclarationSort::Opaque,
            DeclarationKind::Free => DeclarationSort::Free,
            DeclarationKind::Foreign => DeclarationSort::Foreign,
            DeclarationKind::Closure => DeclarationSort::Closure,
            DeclarationKind::CoroutineClosure => DeclarationSort::CoroutineClosure,
            DeclarationKind::Coroutine => DeclarationSort::Coroutine,
            DeclarationKind::Const => DeclarationSort::Const,
            DeclarationKind::Param => DeclarationSort::Param,
        }
    }
}

/// A declaration: what is declared, and its name. Two declarations may have the same name.
#[derive(Clone, Copy, Debug, PartialEq, Eq, Hash)]
pub struct Declaration {
    /// What is declared.
    pub kind: DeclarationKind,
    /// Its name.
    pub name: Symbol,
}
