//! The counts of types that are taken apart.
//!
//! The folders of the crates above call these methods, which change no row. If you call them too,
//! [`Interner::descents`] and [`Interner::shift_descents`] include your calls, and nothing else changes.

ghost use Rattle.std.specs.Prelude.{◌≡◌};
ghost use Rattle.tt_interner.specs.Stored.{counted};

use super::Interner;

impl Interner {
    /// Adds one to [`Interner::descents`], unless the count is `u64::MAX`. The argument folder calls this method where
    /// it takes a type apart.
    pub fn count_descent(&mut self)
        ensures rows { self.new.rows ≡ self.old.rows }
        ensures limit { self.new.limit ≡ self.old.limit }
        ensures descents { self.new.counters.descents ≡ counted self.old.counters.descents }
        ensures shift_descents { self.new.counters.shift_descents ≡ self.old.counters.shift_descents }
    {
        self.descents = self.descents.saturating_add(1);
    }

    /// Adds one to [`Interner::shift_descents`], unless the count is `u64::MAX`. The shifter calls this method where it
    /// takes a type apart.
    pub fn count_shift_descent(&mut self)
        ensures rows { self.new.rows ≡ self.old.rows }
        ensures limit { self.new.limit ≡ self.old.limit }
        ensures descents { self.new.counters.descents ≡ self.old.counters.descents }
        ensures shift_descents { self.new.counters.shift_descents ≡ counted self.old.counters.shift_descents }
    {
        self.shift_descents = self.shift_descents.saturating_add(1);
    }
}
