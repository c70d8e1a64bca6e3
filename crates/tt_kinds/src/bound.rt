//! Bound variables: the binder that they belong to, and their entries in its list of variables.

ghost use Rattle.std.specs.Prelude.{◌≡◌, ◌↔◌, IsTrue};
ghost use Rattle.tt_kinds.specs.Bound.{depth, IsBelowGreatest};
ghost use Rattle.tt_kinds.specs.Variable.{IsRegionVariable, IsTypeVariable, IsConstVariable, region_id};
ghost use Rattle.tt_kinds.specs.declared.bound.BoundVariableKind.TheVariants as variable;
ghost use Rattle.tt_kinds.specs.Reading.{place, reach};

use crate::handle::Symbol;
use crate::id::DefId;
use tt_index::{BoundVar, DebruijnIndex};

/// Which binder a bound variable belongs to.
#[derive(Clone, Copy, Debug, PartialEq, Eq, Hash)]
pub enum BoundVarIndexKind {
    /// The binder of this index, counted from the inside.
    Bound(DebruijnIndex),
    /// A canonical query's list of variables, which is outside of every term. Shifting doesn't change a variable of
    /// this list, and the variable escapes no binder.
    Canonical,
}

/// The name of a bound region.
#[derive(Clone, Copy, Debug, PartialEq, Eq, Hash)]
pub enum BoundRegionKind {
    /// The region has no name, like the region in `fn(&u32)`.
    Anon,
    /// The region has no declaration, and is printed by this name.
    NamedForPrinting(Symbol),
    /// The region has this declaration.
    Named(DefId),
    /// The region of a closure's own environment.
    ClosureEnv,
}

/// The name of a bound type.
#[derive(Clone, Copy, Debug, PartialEq, Eq, Hash)]
pub enum BoundTyKind {
    /// The type has no name.
    Anon,
    /// The type has this declaration.
    Param(DefId),
}

/// An entry of a binder's list of variables.
#[derive(Clone, Copy, Debug, PartialEq, Eq, Hash)]
pub enum BoundVariableKind {
    /// The variable is a type.
    Ty(BoundTyKind),
    /// The variable is a region.
    Region(BoundRegionKind),
    /// The variable is a constant.
    Const,
}

impl BoundRegionKind {
    /// Returns the region's declaration, or `None` if it has none.
    pub fn get_id(self) -> Option<DefId>
        ensures { result ≡ region_id self }
    {
        match self {
            BoundRegionKind::Named(id) => Some(id),
            _ => None,
        }
    }
}

impl BoundVariableKind {
    /// Returns whether the variable is a region.
    pub fn is_region(self) -> bool
        ensures { IsTrue result ↔ IsRegionVariable self }
    {
        matches!(self, BoundVariableKind::Region(_))
    }

    /// Returns whether the variable is a type.
    pub fn is_ty(self) -> bool
        ensures { IsTrue result ↔ IsTypeVariable self }
    {
        matches!(self, BoundVariableKind::Ty(_))
    }

    /// Returns whether the variable is a constant.
    pub fn is_const(self) -> bool
        ensures { IsTrue result ↔ IsConstVariable self }
    {
        matches!(self, BoundVariableKind::Const)
    }

    /// Returns the region's name. The variable has to be a region; [`BoundVariableKind::is_region`] tests it.
    pub fn expect_region(self) -> BoundRegionKind
        requires { IsRegionVariable self }
        ensures { self ≡ variable.Region result }
    {
        match self {
            BoundVariableKind::Region(kind) => kind,
            _ => unreachable!(),
        }
    }

    /// Returns the type's name. The variable has to be a type; [`BoundVariableKind::is_ty`] tests it.
    pub fn expect_ty(self) -> BoundTyKind
        requires { IsTypeVariable self }
        ensures { self ≡ variable.Ty result }
    {
        match self {
            BoundVariableKind::Ty(kind) => kind,
            _ => unreachable!(),
        }
    }

    /// Does nothing. The variable has to be a constant; [`BoundVariableKind::is_const`] tests it.
    pub fn expect_const(self)
        requires { IsConstVariable self }
        ensures { self ≡ variable.Const }
    {}
}

/// A bound region: its place in its binder's list of variables, and its name.
#[derive(Clone, Copy, Debug, PartialEq, Eq, Hash)]
pub struct BoundRegion {
    /// Its place in the binder's list of variables.
    pub var: BoundVar,
    /// Its name.
    pub kind: BoundRegionKind,
}

/// A bound type: its place in its binder's list of variables, and its name.
#[derive(Clone, Copy, Debug, PartialEq, Eq, Hash)]
pub struct BoundTy {
    /// Its place in the binder's list of variables.
    pub var: BoundVar,
    /// Its name.
    pub kind: BoundTyKind,
}

/// A bound constant: its place in its binder's list of variables.
#[derive(Clone, Copy, Debug, PartialEq, Eq, Hash)]
pub struct BoundConst {
    /// Its place in the binder's list of variables.
    pub var: BoundVar,
}

impl BoundRegion {
    /// Returns the variable's place in its binder's list of variables.
    pub fn var(self) -> BoundVar
        ensures { result ≡ self.var }
    {
        let BoundRegion { var, kind: _ } = self;
        var
    }

    /// Returns whether this entry of the binder's list agrees with the variable: whether the entry is a region with the
    /// same name, if any.
    pub fn agrees(self, entry: BoundVariableKind) -> bool
        ensures { IsTrue result ↔ (entry ≡ variable.Region self.kind) }
    {
        match entry {
            BoundVariableKind::Region(kind) => kind == self.kind,
            _ => false,
        }
    }

    /// Does nothing. The list's entry has to agree with the variable; [`BoundRegion::agrees`] tests it.
    pub fn assert_eq(self, entry: BoundVariableKind)
        requires { entry ≡ variable.Region self.kind }
        ensures { entry ≡ variable.Region self.kind }
    {}
}

impl BoundTy {
    /// Returns the variable's place in its binder's list of variables.
    pub fn var(self) -> BoundVar
        ensures { result ≡ self.var }
    {
        let BoundTy { var, kind: _ } = self;
        var
    }

    /// Returns whether this entry of the binder's list agrees with the variable: whether the entry is a type with the
    /// same name, if any.
    pub fn agrees(self, entry: BoundVariableKind) -> bool
        ensures { IsTrue result ↔ (entry ≡ variable.Ty self.kind) }
    {
        match entry {
            BoundVariableKind::Ty(kind) => kind == self.kind,
            _ => false,
        }
    }

    /// Does nothing. The list's entry has to agree with the variable; [`BoundTy::agrees`] tests it.
    pub fn assert_eq(self, entry: BoundVariableKind)
        requires { entry ≡ variable.Ty self.kind }
        ensures { entry ≡ variable.Ty self.kind }
    {}
}

impl BoundConst {
    /// Returns the variable at this place in its binder's list.
    pub fn new(var: BoundVar) -> BoundConst
        ensures { result ≡ record { var = var } }
    {
        BoundConst { var }
    }

    /// Returns the variable's place in its binder's list of variables.
    pub fn var(self) -> BoundVar
        ensures { result ≡ self.var }
    {
        let BoundConst { var } = self;
        var
    }

    /// Returns whether this entry of the binder's list agrees with the variable: whether the entry is a constant.
    pub fn agrees(self, entry: BoundVariableKind) -> bool
        ensures { IsTrue result ↔ (entry ≡ variable.Const) }
    {
        matches!(entry, BoundVariableKind::Const)
    }

    /// Does nothing. The list's entry has to agree with the variable; [`BoundConst::agrees`] tests it.
    pub fn assert_eq(self, entry: BoundVariableKind)
        requires { entry ≡ variable.Const }
        ensures { entry ≡ variable.Const }
    {}
}

impl BoundVarIndexKind {
    /// Returns whether the index is below the greatest, so that the index plus one is an index too. Returns `true` for
    /// a canonical query.
    pub fn is_shallow(self) -> bool
        ensures { IsTrue result ↔ IsBelowGreatest (depth self) }
    {
        match self {
            BoundVarIndexKind::Bound(index) => index.can_shift_in(1),
            BoundVarIndexKind::Canonical => true,
        }
    }

    /// Returns one more than the binder's index, or 0 for a canonical query.
    /// [`BoundVarIndexKind::is_shallow`] tests the condition.
    pub fn outer_exclusive_binder(self) -> DebruijnIndex
        requires { IsBelowGreatest (depth self) }
        ensures { result ≡ reach (place 0 (depth self)) }
    {
        match self {
            BoundVarIndexKind::Bound(index) => index.shifted_in(1),
            BoundVarIndexKind::Canonical => DebruijnIndex::INNERMOST,
        }
    }
}
