//! The trait of index types.

ghost use Rattle.std.specs.Prelude.{◌≡◌, ◌≤◌, ℕ};
ghost use Rattle.tt_index.specs.Greatest.{greatest};

/// A type of indices, with a value for each number from 0 to [`GREATEST_INDEX`](crate::GREATEST_INDEX).
pub trait Idx: Copy {
    ghost number: { Self → ℕ };

    /// Returns the index with this number, such as a position in a list. The number has to be at most
    /// [`GREATEST_INDEX`](crate::GREATEST_INDEX); a comparison tests it.
    fn from_usize(position: usize) -> Self
        requires { position ≤ greatest }
        ensures { number result ≡ position };

    /// Returns the number.
    fn as_usize(self) -> usize
        ensures number { result ≡ number self }
        ensures fits { result ≤ greatest };
}
