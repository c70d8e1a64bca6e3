//! The set of flags that is kept for every term.

ghost use Rattle.std.specs.Prelude.{⊤, ◌≡◌, ◌≢◌, ◌↔◌, IsTrue};
ghost use Rattle.std.specs.Int.RustNames.{bit_and, bit_or};
ghost use Rattle.bitflags.specs.Sets.{without};
ghost use Rattle.tt_flags.specs.TypeFlags.{flag_table};

use bitflags::{Flag, Flags};
use std::ops::{BitAnd, BitAndAssign, BitOr, BitOrAssign};

/// A set of flags, each of which says that something occurs in a term, such as a type parameter. The flags of a term
/// are the union of the flags of its parts, so a test of the flags replaces a walk over the term.
///
/// In a contract, `flags.bits` is the bits of `flags` as a number.
#[derive(Clone, Copy, Debug, PartialEq, Eq, Hash)]
pub struct TypeFlags {
    bits: u32,
}

impl TypeFlags {
    /// A type parameter occurs.
    pub const HAS_TY_PARAM: TypeFlags = TypeFlags { bits: 0x1 };

    /// An early-bound region parameter occurs.
    pub const HAS_RE_PARAM: TypeFlags = TypeFlags { bits: 0x2 };

    /// A constant parameter occurs.
    pub const HAS_CT_PARAM: TypeFlags = TypeFlags { bits: 0x4 };

    /// A type inference variable occurs.
    pub const HAS_TY_INFER: TypeFlags = TypeFlags { bits: 0x8 };

    /// A region inference variable occurs.
    pub const HAS_RE_INFER: TypeFlags = TypeFlags { bits: 0x10 };

    /// A constant inference variable occurs.
    pub const HAS_CT_INFER: TypeFlags = TypeFlags { bits: 0x20 };

    /// A placeholder type occurs.
    pub const HAS_TY_PLACEHOLDER: TypeFlags = TypeFlags { bits: 0x40 };

    /// A placeholder region occurs.
    pub const HAS_RE_PLACEHOLDER: TypeFlags = TypeFlags { bits: 0x80 };

    /// A placeholder constant occurs.
    pub const HAS_CT_PLACEHOLDER: TypeFlags = TypeFlags { bits: 0x100 };

    /// A region occurs that is local to one function or one inference context.
    pub const HAS_FREE_LOCAL_REGIONS: TypeFlags = TypeFlags { bits: 0x200 };

    /// A projection of an associated type occurs.
    pub const HAS_TY_PROJECTION: TypeFlags = TypeFlags { bits: 0x400 };

    /// A free type alias occurs.
    pub const HAS_TY_FREE_ALIAS: TypeFlags = TypeFlags { bits: 0x800 };

    /// An opaque type occurs.
    pub const HAS_TY_OPAQUE: TypeFlags = TypeFlags { bits: 0x1000 };

    /// An inherent associated type occurs.
    pub const HAS_TY_INHERENT: TypeFlags = TypeFlags { bits: 0x2000 };

    /// An unevaluated constant occurs.
    pub const HAS_CT_PROJECTION: TypeFlags = TypeFlags { bits: 0x4000 };

    /// A type or constant error occurs.
    pub const HAS_NON_REGION_ERROR: TypeFlags = TypeFlags { bits: 0x8000 };

    /// A region error occurs.
    pub const HAS_RE_ERROR: TypeFlags = TypeFlags { bits: 0x10000 };

    /// A region occurs that is neither bound nor erased.
    pub const HAS_FREE_REGIONS: TypeFlags = TypeFlags { bits: 0x20000 };

    /// A bound region occurs.
    pub const HAS_RE_BOUND: TypeFlags = TypeFlags { bits: 0x40000 };

    /// A bound type occurs.
    pub const HAS_TY_BOUND: TypeFlags = TypeFlags { bits: 0x80000 };

    /// A bound constant occurs.
    pub const HAS_CT_BOUND: TypeFlags = TypeFlags { bits: 0x100000 };

    /// An erased region occurs.
    pub const HAS_RE_ERASED: TypeFlags = TypeFlags { bits: 0x200000 };

    /// A freshened type inference variable occurs.
    pub const HAS_TY_FRESH: TypeFlags = TypeFlags { bits: 0x400000 };

    /// A freshened constant inference variable occurs.
    pub const HAS_CT_FRESH: TypeFlags = TypeFlags { bits: 0x800000 };

    /// A binder with a nonempty list of variables occurs, whether or not they are used.
    pub const HAS_BINDER_VARS: TypeFlags = TypeFlags { bits: 0x1000000 };

    /// A coroutine type occurs.
    pub const HAS_TY_CORO: TypeFlags = TypeFlags { bits: 0x2000000 };

    /// A bound variable of a canonical query occurs.
    pub const HAS_CANONICAL_BOUND: TypeFlags = TypeFlags { bits: 0x4000000 };

    /// A parameter of any kind: `HAS_TY_PARAM`, `HAS_RE_PARAM`, `HAS_CT_PARAM`.
    pub const HAS_PARAM: TypeFlags = TypeFlags { bits: 0x7 };

    /// An inference variable of any kind: `HAS_TY_INFER`, `HAS_RE_INFER`, `HAS_CT_INFER`.
    pub const HAS_INFER: TypeFlags = TypeFlags { bits: 0x38 };

    /// A placeholder of any kind: `HAS_TY_PLACEHOLDER`, `HAS_RE_PLACEHOLDER`,
    /// `HAS_CT_PLACEHOLDER`.
    pub const HAS_PLACEHOLDER: TypeFlags = TypeFlags { bits: 0x1C0 };

    /// A term that could be normalized further: an alias of any kind or an unevaluated constant.
    pub const HAS_ALIAS: TypeFlags = TypeFlags { bits: 0x7C00 };

    /// An error of any kind: `HAS_NON_REGION_ERROR`, `HAS_RE_ERROR`.
    pub const HAS_ERROR: TypeFlags = TypeFlags { bits: 0x18000 };

    /// A bound variable of any kind: `HAS_RE_BOUND`, `HAS_TY_BOUND`, `HAS_CT_BOUND`.
    pub const HAS_BOUND_VARS: TypeFlags = TypeFlags { bits: 0x1C0000 };

    /// A region of any kind: `HAS_FREE_REGIONS`, `HAS_RE_BOUND`, `HAS_RE_ERASED`.
    pub const HAS_REGIONS: TypeFlags = TypeFlags { bits: 0x260000 };

    /// A name local to one function or one inference context: a type or constant parameter,
    /// inference variable, placeholder or freshened variable, a free local region or an erased region.
    pub const HAS_FREE_LOCAL_NAMES: TypeFlags = TypeFlags { bits: 0xE0036D };

    /// A type or constant parameter, placeholder or inference variable, whose replacement could
    /// change which `impl` a specialization selects.
    pub const STILL_FURTHER_SPECIALIZABLE: TypeFlags = TypeFlags { bits: 0x16D };
}

impl TypeFlags {
    /// Returns the set without flags.
    pub const fn empty() -> TypeFlags
        ensures { result ≡ record { bits = 0 } }
    {
        TypeFlags { bits: 0 }
    }

    /// Returns the set of exactly these bits, including bits that belong to no flag.
    pub const fn from_bits_retain(bits: u32) -> TypeFlags
        ensures { result ≡ record { bits = bits } }
    {
        TypeFlags { bits }
    }

    /// Returns the set's bits as a number.
    pub const fn bits(self) -> u32
        ensures { result ≡ self.bits }
    {
        let TypeFlags { bits } = self;
        bits
    }

    /// Returns whether no flag is set.
    pub const fn is_empty(self) -> bool
        ensures { IsTrue result ↔ (self.bits ≡ 0) }
    {
        self.bits == 0
    }

    /// Returns whether the two sets have a flag in common.
    pub const fn intersects(self, other: TypeFlags) -> bool
        ensures { IsTrue result ↔ (bit_and self.bits other.bits ≢ 0) }
    {
        self.bits & other.bits != 0
    }

    /// Returns whether this set has every flag of `other`.
    pub const fn contains(self, other: TypeFlags) -> bool
        ensures { IsTrue result ↔ (bit_and self.bits other.bits ≡ other.bits) }
    {
        self.bits & other.bits == other.bits
    }

    /// Returns the flags that are in at least one of the two sets.
    pub const fn union(self, other: TypeFlags) -> TypeFlags
        ensures { result ≡ record { bits = bit_or self.bits other.bits } }
    {
        TypeFlags {
            bits: self.bits | other.bits,
        }
    }

    /// Returns the flags that are in both sets.
    pub const fn intersection(self, other: TypeFlags) -> TypeFlags
        ensures { result ≡ record { bits = bit_and self.bits other.bits } }
    {
        TypeFlags {
            bits: self.bits & other.bits,
        }
    }

    /// Returns the flags of this set that `other` doesn't have.
    pub const fn difference(self, other: TypeFlags) -> TypeFlags
        ensures { result ≡ record { bits = without 32 self.bits other.bits } }
    {
        TypeFlags {
            bits: self.bits & !other.bits,
        }
    }
}

impl Flags for TypeFlags {
    type Bits = u32;

    ghost exact = { ⊤ };

    ghost table = { flag_table };

    ghost set_of = { λ flags. flags.bits };

    fn flags<'a>() -> &'a [Flag<TypeFlags>] {
        NAMED
    }

    fn bits(&self) -> u32 {
        self.bits
    }

    fn from_bits_retain(bits: u32) -> TypeFlags {
        TypeFlags::from_bits_retain(bits)
    }
}

/// The set without flags.
impl Default for TypeFlags {
    ghost is_default = { λ flags. flags ≡ record { bits = 0 } };

    fn default() -> TypeFlags {
        TypeFlags::empty()
    }
}

impl BitOr for TypeFlags {
    type Output = TypeFlags;

    ghost bitor_gives = { λ a b r. r ≡ record { bits = bit_or a.bits b.bits } };

    fn bitor(self, other: TypeFlags) -> TypeFlags {
        self.union(other)
    }
}

impl BitOrAssign for TypeFlags {
    ghost bitor_assign_gives = { λ a b r. r ≡ record { bits = bit_or a.bits b.bits } };

    fn bitor_assign(&mut self, other: TypeFlags) {
        *self = self.union(other);
    }
}

impl BitAnd for TypeFlags {
    type Output = TypeFlags;

    ghost bitand_gives = { λ a b r. r ≡ record { bits = bit_and a.bits b.bits } };

    fn bitand(self, other: TypeFlags) -> TypeFlags {
        self.intersection(other)
    }
}

impl BitAndAssign for TypeFlags {
    ghost bitand_assign_gives = { λ a b r. r ≡ record { bits = bit_and a.bits b.bits } };

    fn bitand_assign(&mut self, other: TypeFlags) {
        *self = self.intersection(other);
    }
}

// The table's rows of these constants, each with the constant's name.
macro_rules! flag_rows {
    ($($flag:ident)*) => {
        &[$(Flag { name: stringify!($flag), value: TypeFlags::$flag },)*]
    };
}

// The flags in the order of their bits, and then the masks.
const NAMED: &[Flag<TypeFlags>] = flag_rows![
    HAS_TY_PARAM
    HAS_RE_PARAM
    HAS_CT_PARAM
    HAS_TY_INFER
    HAS_RE_INFER
    HAS_CT_INFER
    HAS_TY_PLACEHOLDER
    HAS_RE_PLACEHOLDER
    HAS_CT_PLACEHOLDER
    HAS_FREE_LOCAL_REGIONS
    HAS_TY_PROJECTION
    HAS_TY_FREE_ALIAS
    HAS_TY_OPAQUE
    HAS_TY_INHERENT
    HAS_CT_PROJECTION
    HAS_NON_REGION_ERROR
    HAS_RE_ERROR
    HAS_FREE_REGIONS
    HAS_RE_BOUND
    HAS_TY_BOUND
    HAS_CT_BOUND
    HAS_RE_ERASED
    HAS_TY_FRESH
    HAS_CT_FRESH
    HAS_BINDER_VARS
    HAS_TY_CORO
    HAS_CANONICAL_BOUND
    HAS_PARAM
    HAS_INFER
    HAS_PLACEHOLDER
    HAS_ALIAS
    HAS_ERROR
    HAS_BOUND_VARS
    HAS_REGIONS
    HAS_FREE_LOCAL_NAMES
    STILL_FURTHER_SPECIALIZABLE
];
