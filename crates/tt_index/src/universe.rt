//! Universes: which names are visible while types are checked under `for<..>` binders.

ghost use Rattle.std.specs.Prelude.{◌≡◌, ◌+◌, ◌<◌, ◌≤◌, ◌↔◌, IsTrue};
ghost use Rattle.tt_index.specs.Greatest.{greatest};

use crate::GREATEST_INDEX;
use crate::index::Index;
use std::default::Default;
use std::marker::PhantomData;

/// Marks the place of a universe.
pub enum Universe {}

/// The place of a universe in the order in which each universe extends the one before. The root universe has the names
/// that are always visible. Each further universe adds the names of a `for<..>` binder that was entered. A placeholder
/// belongs to the universe that was made for its binder.
///
/// The number is at most [`GREATEST_INDEX`].
pub type UniverseIndex = Index<Universe>;

impl UniverseIndex {
    /// The universe whose names are visible everywhere.
    pub const ROOT: UniverseIndex = UniverseIndex {
        value: 0,
        of: PhantomData,
    };

    /// Returns whether there is a next universe: whether this one is below [`GREATEST_INDEX`].
    pub fn has_next(self) -> bool
        ensures { IsTrue result ↔ (self < greatest) }
    {
        self.value < GREATEST_INDEX
    }

    /// Returns the universe that is entered with a further `for<..>` binder. It extends this universe and all before.
    /// [`UniverseIndex::has_next`] tests the condition.
    pub fn next_universe(self) -> UniverseIndex
        requires { self < greatest }
        ensures { result ≡ self + 1 }
    {
        UniverseIndex {
            value: self.value + 1,
            of: PhantomData,
        }
    }

    /// Returns whether each name of `other` is visible in this universe.
    pub fn can_name(self, other: UniverseIndex) -> bool
        ensures { IsTrue result ↔ (other ≤ self) }
    {
        self >= other
    }

    /// Returns whether `other` has names that are not visible in this universe.
    pub fn cannot_name(self, other: UniverseIndex) -> bool
        ensures { IsTrue result ↔ (self < other) }
    {
        self < other
    }

    /// Returns whether this is the root universe.
    pub fn is_root(self) -> bool
        ensures { IsTrue result ↔ (self ≡ 0) }
    {
        self == UniverseIndex::ROOT
    }
}

/// The root universe.
impl Default for UniverseIndex {
    ghost is_default = { λ universe. universe ≡ 0 };

    fn default() -> UniverseIndex {
        UniverseIndex::ROOT
    }
}
