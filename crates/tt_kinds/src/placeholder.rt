//! Placeholders, which replace a binder's variables when the binder is entered.

ghost use Rattle.std.specs.Prelude.{◌≡◌};
ghost use Rattle.tt_kinds.specs.declared.bound.BoundRegionKind.TheVariants as region_kind;
ghost use Rattle.tt_kinds.specs.declared.bound.BoundTyKind.TheVariants as ty_kind;

use crate::bound::{BoundConst, BoundRegion, BoundRegionKind, BoundTy, BoundTyKind};
use tt_index::{BoundVar, UniverseIndex};

/// A placeholder, which replaces a bound variable whose binder has been entered.
#[derive(Clone, Copy, Debug, PartialEq, Eq, PartialOrd, Ord, Hash)]
pub struct Placeholder<T> {
    /// The universe that it belongs to.
    pub universe: UniverseIndex,
    /// The bound variable that it replaces.
    pub bound: T,
}

impl<T> Placeholder<T> {
    /// Returns the placeholder of this universe for this variable.
    pub fn new(universe: UniverseIndex, bound: T) -> Placeholder<T>
        ensures { result ≡ record { universe = universe; bound = bound } }
    {
        Placeholder { universe, bound }
    }

    /// Returns the placeholder of another universe for the same variable.
    pub fn with_updated_universe(self, universe: UniverseIndex) -> Placeholder<T>
        ensures { result ≡ record { universe = universe; bound = self.bound } }
    {
        Placeholder {
            universe,
            bound: self.bound,
        }
    }
}

impl<T: Drop> Placeholder<T> {
    /// Returns the universe that the placeholder belongs to.
    pub fn universe(self) -> UniverseIndex
        ensures { result ≡ self.universe }
    {
        self.universe
    }
}

/// A placeholder for a region.
pub type PlaceholderRegion = Placeholder<BoundRegion>;

/// A placeholder for a type.
pub type PlaceholderType = Placeholder<BoundTy>;

/// A placeholder for a constant.
pub type PlaceholderConst = Placeholder<BoundConst>;

impl Placeholder<BoundRegion> {
    /// Returns the variable's place in its binder's list of variables.
    pub fn var(self) -> BoundVar
        ensures { result ≡ self.bound.var }
    {
        let BoundRegion { var, kind: _ } = self.bound;
        var
    }

    /// Returns the placeholder of this universe for the anonymous region at this place.
    pub fn new_anon(universe: UniverseIndex, var: BoundVar) -> PlaceholderRegion
        ensures { result ≡ record { universe = universe; bound = record { var = var; kind = region_kind.Anon } } }
    {
        Placeholder {
            universe,
            bound: BoundRegion {
                var,
                kind: BoundRegionKind::Anon,
            },
        }
    }
}

impl Placeholder<BoundTy> {
    /// Returns the variable's place in its binder's list of variables.
    pub fn var(self) -> BoundVar
        ensures { result ≡ self.bound.var }
    {
        let BoundTy { var, kind: _ } = self.bound;
        var
    }

    /// Returns the placeholder of this universe for the anonymous type at this place.
    pub fn new_anon(universe: UniverseIndex, var: BoundVar) -> PlaceholderType
        ensures { result ≡ record { universe = universe; bound = record { var = var; kind = ty_kind.Anon } } }
    {
        Placeholder {
            universe,
            bound: BoundTy {
                var,
                kind: BoundTyKind::Anon,
            },
        }
    }
}

impl Placeholder<BoundConst> {
    /// Returns the variable's place in its binder's list of variables.
    pub fn var(self) -> BoundVar
        ensures { result ≡ self.bound.var }
    {
        let BoundConst { var } = self.bound;
        var
    }

    /// Returns the placeholder of this universe for the constant at this place.
    pub fn new_anon(universe: UniverseIndex, var: BoundVar) -> PlaceholderConst
        ensures { result ≡ record { universe = universe; bound = record { var = var } } }
    {
        Placeholder {
            universe,
            bound: BoundConst { var },
        }
    }
}
