//! Terms: types and constants.

ghost use Rattle.std.specs.Prelude.{◌≡◌};

use crate::handle::{Const, Ty};

/// The kind of a term.
#[derive(Clone, Copy, Debug, PartialEq, Eq, Hash)]
pub enum TermKind {
    /// A type.
    Ty(Ty),
    /// A constant.
    Const(Const),
}

/// A type or a constant, where either may occur.
#[derive(Clone, Copy, Debug, PartialEq, Eq, Hash)]
pub struct Term {
    kind: TermKind,
}

impl Term {
    /// Returns the term's kind.
    pub fn kind(self) -> TermKind
        ensures { result ≡ self.kind }
    {
        self.kind
    }
}

impl From<TermKind> for Term {
    ghost from_gives = { λ kind term. term ≡ record { kind = kind } };

    fn from(kind: TermKind) -> Term {
        Term { kind }
    }
}

impl From<Ty> for Term {
    ghost use Rattle.tt_kinds.specs.declared.term.TermKind.TheVariants.{Ty as TyTerm};

    ghost from_gives = { λ ty term. term ≡ record { kind = TyTerm ty } };

    fn from(ty: Ty) -> Term {
        Term {
            kind: TermKind::Ty(ty),
        }
    }
}

impl From<Const> for Term {
    ghost use Rattle.tt_kinds.specs.declared.term.TermKind.TheVariants.{Const as ConstTerm};

    ghost from_gives = { λ constant term. term ≡ record { kind = ConstTerm constant } };

    fn from(constant: Const) -> Term {
        Term {
            kind: TermKind::Const(constant),
        }
    }
}
