//! The parts of a kind in order, and the kind with other parts in their places.
//!
//! A kind has at most two children (regions, stored terms or stored lists), perhaps under one binder. So a walk goes
//! over a pair of parts and needs no `match` on the kind. Flags, hooks and the tests of a kind's contents need one.

ghost use Rattle.std.specs.Prelude.{◌≡◌, ◌↔◌, IsTrue};
ghost use Rattle.tt_kinds.specs.Parts.{AreLike, no_parts, one_part, two_parts};

mod child_access;
mod const_parts;
mod kind_parts;
mod predicate_parts;
mod ty_parts;

use crate::binder::Binder;
use crate::const_kind::ConstKind;
use crate::existential::ExistentialPredicate;
use crate::handle::AnyHandle;
use crate::pattern::PatternKind;
use crate::predicate_kind::PredicateKind;
use crate::region_kind::Region;
use crate::ty_kind::TyKind;

/// A child of a kind or a list.
#[derive(Clone, Copy, Debug, Default, PartialEq, Eq)]
pub enum Child {
    /// No child: the kind has fewer parts.
    #[default]
    Absent,
    /// A region.
    Region(Region),
    /// A stored term or a stored list.
    Stored(AnyHandle),
}

/// The children of a kind, at most two.
#[derive(Clone, Copy, Debug, PartialEq, Eq)]
pub struct Parts {
    /// The first child.
    pub first: Child,
    /// The second child.
    pub second: Child,
}

/// The kind of a stored term.
#[derive(Clone, Copy, Debug, PartialEq, Eq)]
pub enum Kind {
    /// The kind of a type.
    Ty(TyKind),
    /// The kind of a constant.
    Const(ConstKind),
    /// The kind of a pattern.
    Pat(PatternKind),
    /// The kind of a predicate.
    Predicate(Binder<PredicateKind>),
    /// The kind of an existential predicate.
    Existential(Binder<ExistentialPredicate>),
}

impl Parts {
    /// Returns no children.
    #[inline(always)]
    pub fn none() -> Parts
        ensures { result ≡ no_parts }
    {
        Parts {
            first: Child::Absent,
            second: Child::Absent,
        }
    }

    /// Returns one child.
    #[inline(always)]
    pub fn one(first: Child) -> Parts
        ensures { result ≡ one_part first }
    {
        Parts {
            first,
            second: Child::Absent,
        }
    }

    /// Returns two children, in order.
    #[inline(always)]
    pub fn two(first: Child, second: Child) -> Parts
        ensures { result ≡ two_parts first second }
    {
        Parts { first, second }
    }

    /// Returns whether each of the new children is of the same sort as the child in its place.
    pub fn are_like(&self, new: &Parts) -> bool
        ensures { IsTrue result ↔ AreLike self.now new.now }
    {
        self.first.is_like(&new.first) && self.second.is_like(&new.second)
    }
}
