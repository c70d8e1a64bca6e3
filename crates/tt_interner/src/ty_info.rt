//! Values with their cached information.

ghost use Rattle.std.specs.Prelude.{◌≡◌};
ghost use Rattle.std.proofs.Common.{rules};
ghost use Rattle.std.specs.Cmp.Rules.{comparing};
ghost use Rattle.std.specs.Cmp.{on_po};

use std::cmp::Ordering;
use std::hash::{Hash, Hasher};
use std::ops::Deref;
use tt_flags::TypeFlags;
use tt_index::DebruijnIndex;

/// A value with its flags and its outer exclusive binder. Equality, order and hash use the value alone, so equal values
/// should have equal information.
#[derive(Clone, Copy, Debug)]
pub struct WithCachedTypeInfo<T> {
    /// The value.
    pub internee: T,
    /// The flags of the value.
    pub flags: TypeFlags,
    /// One more than the greatest index of a bound variable that escapes the value, or 0 if none escapes.
    pub outer_exclusive_binder: DebruijnIndex,
}

impl<T: PartialEq> PartialEq for WithCachedTypeInfo<T> {
    ghost eq = { λ x y. T.eq x.internee y.internee };

    ghost laws = { Prim.search (comparing, rules) };

    fn eq(&self, other: &WithCachedTypeInfo<T>) -> bool {
        self.internee.eq(&other.internee)
    }
}

impl<T: Eq> Eq for WithCachedTypeInfo<T> {
    ghost laws = { Prim.search rules };
}

impl<T: PartialOrd> PartialOrd for WithCachedTypeInfo<T> {
    ghost partial_cmp = { λ x y. T.partial_cmp x.internee y.internee };

    ghost laws = { on_po (λ x. x.internee) T.PartialOrd.laws };

    fn partial_cmp(&self, other: &WithCachedTypeInfo<T>) -> Option<Ordering> {
        self.internee.partial_cmp(&other.internee)
    }
}

impl<T: Ord> Ord for WithCachedTypeInfo<T> {
    ghost cmp = { λ x y. T.cmp x.internee y.internee };

    ghost total = { Prim.search rules };

    ghost matches_partial_cmp = { Prim.search rules };

    ghost matches_eq = { Prim.search rules };

    fn cmp(&self, other: &WithCachedTypeInfo<T>) -> Ordering {
        self.internee.cmp(&other.internee)
    }
}

impl<T: Hash> Hash for WithCachedTypeInfo<T> {
    ghost hash_input = { λ x. T.hash_input x.internee };

    ghost respects_eq = { Prim.search rules };

    fn hash<H: Hasher>(&self, state: &mut H) {
        self.internee.hash(state);
    }
}

impl<T> Deref for WithCachedTypeInfo<T> {
    type Target = T;

    ghost deref_gives = { λ x internee. internee ≡ x.internee };

    fn deref(&self) -> &T
        ensures { result.now ≡ self.now.internee }
    {
        &self.internee
    }
}
