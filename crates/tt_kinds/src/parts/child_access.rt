//! Access to a child by its sort.

ghost use Rattle.std.specs.Prelude.{◌≡◌, ◌↔◌, IsTrue};
ghost use Rattle.tt_kinds.specs.Parts.{a_region, a_stored, child_in, child_sort, IsTermSort, term_child};
ghost use Rattle.tt_kinds.specs.declared.parts.Child.TheVariants as child;

use crate::handle::{Const, Handle, IsTermRow, Ty};
use crate::parts::Child;
use crate::region_kind::Region;
use crate::table::TermTable;
use crate::term::{Term, TermKind};

impl Child {
    /// Returns whether the other child is of the same sort: absent, a region, or a row of the same table.
    pub fn is_like(&self, other: &Child) -> bool
        ensures { IsTrue result ↔ (child_sort other.now ≡ child_sort self.now) }
    {
        match (self, other) {
            (Child::Absent, Child::Absent) | (Child::Region(_), Child::Region(_)) => true,
            (Child::Stored(stored), Child::Stored(other)) => stored.table == other.table,
            _ => false,
        }
    }
}

// Each method is for children of one sort; a `match` tests the condition.
impl Child {
    /// Returns the region.
    #[inline(always)]
    pub fn region(self) -> Region
        requires { child_sort self ≡ a_region }
        ensures { self ≡ child.Region result }
    {
        match self {
            Child::Region(region) => region,
            _ => unreachable!(),
        }
    }

    /// Returns the handle of the row.
    #[inline(always)]
    pub fn handle<K: IsTermRow>(self) -> Handle<K>
        requires { child_sort self ≡ a_stored K.IsTermRow.TERM_TABLE }
        ensures { self ≡ child_in K.IsTermRow.TERM_TABLE result }
    {
        match self {
            Child::Stored(stored) => stored.typed(),
            _ => unreachable!(),
        }
    }

    /// Returns the type or the constant.
    #[inline(always)]
    pub fn term(self) -> Term
        requires { IsTermSort (child_sort self) }
        ensures { self ≡ term_child result }
    {
        match self {
            Child::Stored(stored) => match stored.table {
                TermTable::Types => {
                    let ty: Ty = stored.typed();
                    ty.into()
                }
                TermTable::Consts => {
                    let constant: Const = stored.typed();
                    constant.into()
                }
                _ => unreachable!(),
            },
            _ => unreachable!(),
        }
    }
}

impl<K: IsTermRow> Handle<K> {
    /// Returns the handle as a child.
    #[inline(always)]
    pub fn child(self) -> Child
        ensures { result ≡ child_in K.IsTermRow.TERM_TABLE self }
    {
        Child::Stored(self.any())
    }
}

impl Term {
    /// Returns the term as a child.
    pub fn child(self) -> Child
        ensures { result ≡ term_child self }
    {
        match self.kind() {
            TermKind::Ty(ty) => ty.child(),
            TermKind::Const(constant) => constant.child(),
        }
    }
}
