//! The cached information of a term, computed from its parts' cached information.

ghost use Rattle.std.specs.Prelude.{◌≡◌, ◌+◌, ◌-◌, ◌<◌, max};
ghost use Rattle.std.specs.Int.RustNames.{bit_or};
ghost use Rattle.tt_index.specs.Greatest.{greatest};
ghost use Rattle.tt_flags.specs.FlagComputation.{computed};

use crate::type_flags::TypeFlags;
use tt_index::DebruijnIndex;

/// The cached information of a term: its flags and its outer exclusive binder. Both are computed from the information
/// of the term's parts alone, so building a term from stored parts needs no walk.
#[derive(Clone, Copy, Debug, PartialEq, Eq)]
pub struct FlagComputation {
    /// The union of the flags of all parts.
    pub flags: TypeFlags,
    /// One more than the greatest index of a bound variable that escapes the term, or 0 if none escapes. The binder of
    /// this index binds no variable of the term, and neither does any binder outside of it.
    pub outer_exclusive_binder: DebruijnIndex,
}

impl FlagComputation {
    /// Returns the information of a term without parts: no flags, and no escaping variable.
    pub fn new() -> FlagComputation
        ensures { result ≡ computed 0 0 }
    {
        FlagComputation::leaf(TypeFlags::empty())
    }

    /// Returns the information of a part with these flags from which no bound variable escapes.
    pub fn leaf(flags: TypeFlags) -> FlagComputation
        ensures { result ≡ computed flags.bits 0 }
    {
        FlagComputation {
            flags,
            outer_exclusive_binder: DebruijnIndex::INNERMOST,
        }
    }

    /// Returns the information of a variable bound at `index`, with these flags. [`DebruijnIndex::can_shift_in`],
    /// called with 1, tests the condition.
    pub fn bound_at(flags: TypeFlags, index: DebruijnIndex) -> FlagComputation
        requires { index < greatest }
        ensures { result ≡ computed flags.bits (index + 1) }
    {
        FlagComputation {
            flags,
            outer_exclusive_binder: index.shifted_in(1),
        }
    }

    /// Returns the information of two parts together.
    pub fn joined(self, other: FlagComputation) -> FlagComputation
        ensures { result
            ≡ computed
            (bit_or self.flags.bits other.flags.bits)
            (max self.outer_exclusive_binder other.outer_exclusive_binder) }
    {
        FlagComputation {
            flags: self.flags.union(other.flags),
            outer_exclusive_binder: self
                .outer_exclusive_binder
                .max(other.outer_exclusive_binder),
        }
    }

    /// Returns the information of these parts under one binder, whose list of variables has the flags `list_flags`.
    /// Outside of the binder, the index of each variable that still escapes is one less.
    pub fn under_binder(self, list_flags: TypeFlags) -> FlagComputation
        ensures { result
            ≡ computed (bit_or list_flags.bits self.flags.bits) (self.outer_exclusive_binder - 1) }
    {
        let reach = self.outer_exclusive_binder;
        FlagComputation {
            flags: list_flags.union(self.flags),
            outer_exclusive_binder: if reach.can_shift_out(1) {
                reach.shifted_out(1)
            } else {
                reach
            },
        }
    }
}
