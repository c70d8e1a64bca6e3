//! Indices: numbers with a type that says what they count.

ghost use Rattle.std.specs.Prelude.{◌≡◌, ◌≤◌, ◌↔◌, IsTrue, ℕ};
ghost use Rattle.tt_index.specs.Greatest.{greatest};

use crate::GREATEST_INDEX;
use crate::idx::Idx;
use std::marker::{Model, PhantomData};

/// The number of an `S`. Indices of different things have different types, so they can't be mixed up.
///
/// The number is at most [`GREATEST_INDEX`].
#[derive_where(Clone, Copy, Debug, PartialEq, Eq, PartialOrd, Ord, Hash)]
pub struct Index<S> {
    pub(crate) value: u32,
    #[derive_where(skip)]
    pub(crate) of: PhantomData<S>,
}

impl<S> Model for Index<S> {
    ghost Value = { ℕ };

    ghost view = { λ index. index.value };

    ghost invariant = { λ index. index.value ≤ greatest };

    ghost inverse = { λ number. record { value = number; of = record {} } };
}

impl<S> Index<S> {
    /// Returns whether `value` can be an index: whether it is at most [`GREATEST_INDEX`].
    pub fn fits(value: u32) -> bool
        ensures { IsTrue result ↔ (value ≤ greatest) }
    {
        value <= GREATEST_INDEX
    }

    /// Returns the index with this number. [`Index::fits`] tests the condition.
    pub fn from_u32(value: u32) -> Index<S>
        requires { value ≤ greatest }
        ensures { result ≡ value }
    {
        Index {
            value,
            of: PhantomData,
        }
    }

    /// Returns the number.
    pub fn as_u32(self) -> u32
        ensures number { result ≡ self }
        ensures fits { result ≤ greatest }
    {
        let Index { value, of: _ } = self;
        value
    }

    /// Returns the number, for use as a position in a list.
    pub fn as_usize(self) -> usize
        ensures number { result ≡ self }
        ensures fits { result ≤ greatest }
    {
        self.as_u32() as usize
    }
}

impl<S> Idx for Index<S> {
    ghost number = { λ index. index };

    fn from_usize(position: usize) -> Index<S> {
        Index {
            value: position as u32,
            of: PhantomData,
        }
    }

    fn as_usize(self) -> usize {
        self.value as usize
    }
}
