//! De Bruijn indices: which binder a bound variable belongs to.

ghost use Rattle.std.specs.Prelude.{◌≡◌, ◌+◌, ◌-◌, ◌≤◌, ◌↔◌, IsTrue};
ghost use Rattle.tt_index.specs.Greatest.{greatest};

use crate::GREATEST_INDEX;
use crate::index::Index;
use std::marker::PhantomData;

/// The binder that is closest to the variable.
pub const INNERMOST: DebruijnIndex = DebruijnIndex {
    value: 0,
    of: PhantomData,
};

/// Marks the number of a binder, counted from a bound variable outwards.
pub enum EnclosingBinder {}

/// A [De Bruijn index](https://en.wikipedia.org/wiki/De_Bruijn_index): the number of binders between
/// a bound variable and the binder that it belongs to, counted from the inside, so that 0 is the innermost binder.
///
/// In `for<'a> fn(for<'b> fn(&'b isize, &'a isize), &'a char)` the regions of the three references have the indices 0,
/// 1 and 0: only the outer binder encloses the third reference.
///
/// The number is at most [`GREATEST_INDEX`].
pub type DebruijnIndex = Index<EnclosingBinder>;

impl DebruijnIndex {
    /// [`INNERMOST`], the binder that is closest to the variable.
    pub const INNERMOST: DebruijnIndex = INNERMOST;

    /// Returns whether the index stays within [`GREATEST_INDEX`] when it moves into `amount` new binders.
    pub fn can_shift_in(self, amount: u32) -> bool
        ensures { IsTrue result ↔ (self + amount ≤ greatest) }
    {
        amount <= GREATEST_INDEX - self.value
    }

    /// Returns the index of the same binder, seen from inside `amount` new binders. [`DebruijnIndex::can_shift_in`]
    /// tests the condition.
    pub fn shifted_in(self, amount: u32) -> DebruijnIndex
        requires { self + amount ≤ greatest }
        ensures { result ≡ self + amount }
    {
        DebruijnIndex {
            value: self.value + amount,
            of: PhantomData,
        }
    }

    /// Moves the index into `amount` new binders, in place. [`DebruijnIndex::can_shift_in`] tests the condition.
    pub fn shift_in(&mut self, amount: u32)
        requires { self.old + amount ≤ greatest }
        ensures { self.new ≡ self.old + amount }
    {
        *self = self.shifted_in(amount);
    }

    /// Returns whether the binder is outside of `amount` binders, so that the index can move out of them.
    pub fn can_shift_out(self, amount: u32) -> bool
        ensures { IsTrue result ↔ (amount ≤ self) }
    {
        amount <= self.value
    }

    /// Returns the index of the same binder, seen from outside `amount` binders. [`DebruijnIndex::can_shift_out`] tests
    /// the condition.
    pub fn shifted_out(self, amount: u32) -> DebruijnIndex
        requires { amount ≤ self }
        ensures { result ≡ self - amount }
    {
        DebruijnIndex {
            value: self.value - amount,
            of: PhantomData,
        }
    }

    /// Moves the index out of `amount` binders, in place. [`DebruijnIndex::can_shift_out`] tests the condition.
    pub fn shift_out(&mut self, amount: u32)
        requires { amount ≤ self.old }
        ensures { self.new ≡ self.old - amount }
    {
        *self = self.shifted_out(amount);
    }

    /// Returns the index of the same binder, seen from where the binder `to_binder` is the innermost one: a variable
    /// bound at `to_binder` is then bound at [`INNERMOST`]. [`DebruijnIndex::can_shift_out`], called with the number of
    /// `to_binder`, tests the condition.
    pub fn shifted_out_to_binder(self, to_binder: DebruijnIndex) -> DebruijnIndex
        requires { to_binder ≤ self }
        ensures { result ≡ self - to_binder }
    {
        self.shifted_out(to_binder.value - INNERMOST.value)
    }
}
