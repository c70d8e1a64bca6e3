//! Generic arguments.

ghost use Rattle.std.specs.Prelude.{◌≡◌};
ghost use Rattle.tt_kinds.specs.GenericArg.{type_of, const_of};

use crate::handle::{Const, Ty};
use crate::region_kind::Region;
use std::marker::Model;

/// The kind of a generic argument.
#[derive(Clone, Copy, Debug, PartialEq, Eq, Hash)]
pub enum GenericArgKind {
    /// A region.
    Lifetime(Region),
    /// A type.
    Type(Ty),
    /// A constant.
    Const(Const),
}

/// A generic argument: the replacement of a generic parameter.
#[derive(Clone, Copy, Debug, PartialEq, Eq, Hash)]
pub struct GenericArg {
    kind: GenericArgKind,
}

impl Model for GenericArg {
    ghost use Rattle.tt_kinds.specs.declared.generic_arg.GenericArgKind.{GenericArgKind};

    ghost Value = { GenericArgKind };

    ghost view = { λ arg. arg.kind };

    ghost inverse = { λ kind. record { kind = kind } };
}

impl GenericArg {
    /// Returns the argument's kind.
    pub fn kind(self) -> GenericArgKind
        ensures { result ≡ self }
    {
        self.kind
    }

    /// Returns the type, or `None` if the argument is not a type.
    pub fn as_type(self) -> Option<Ty>
        ensures { result ≡ type_of self }
    {
        match self.kind {
            GenericArgKind::Type(ty) => Some(ty),
            _ => None,
        }
    }

    /// Returns the constant, or `None` if the argument is not a constant.
    pub fn as_const(self) -> Option<Const>
        ensures { result ≡ const_of self }
    {
        match self.kind {
            GenericArgKind::Const(constant) => Some(constant),
            _ => None,
        }
    }
}

impl From<GenericArgKind> for GenericArg {
    ghost from_gives = { λ kind arg. arg ≡ kind };

    fn from(kind: GenericArgKind) -> GenericArg {
        GenericArg { kind }
    }
}

impl From<Ty> for GenericArg {
    ghost use Rattle.tt_kinds.specs.declared.generic_arg.GenericArgKind.TheVariants.{«Type» as TypeArg};

    ghost from_gives = { λ ty arg. arg ≡ TypeArg ty };

    fn from(ty: Ty) -> GenericArg {
        GenericArg {
            kind: GenericArgKind::Type(ty),
        }
    }
}

impl From<Region> for GenericArg {
    ghost use Rattle.tt_kinds.specs.declared.generic_arg.GenericArgKind.TheVariants.{Lifetime};

    ghost from_gives = { λ region arg. arg ≡ Lifetime region };

    fn from(region: Region) -> GenericArg {
        GenericArg {
            kind: GenericArgKind::Lifetime(region),
        }
    }
}

impl From<Const> for GenericArg {
    ghost use Rattle.tt_kinds.specs.declared.generic_arg.GenericArgKind.TheVariants.{Const as ConstArg};

    ghost from_gives = { λ constant arg. arg ≡ ConstArg constant };

    fn from(constant: Const) -> GenericArg {
        GenericArg {
            kind: GenericArgKind::Const(constant),
        }
    }
}
