//! Regions.

ghost use Rattle.std.specs.Prelude.{◌≡◌, ◌↔◌, ◌<◌, ◌≤◌, IsTrue};
ghost use Rattle.tt_index.specs.Greatest.{greatest};
ghost use Rattle.tt_kinds.specs.RegionKind.{IsShallow};

use crate::bound::{BoundRegion, BoundRegionKind, BoundVarIndexKind};
use crate::error_guaranteed::ErrorGuaranteed;
use crate::handle::Symbol;
use crate::id::DefId;
use crate::placeholder::PlaceholderRegion;
use std::marker::Model;
use tt_flags::TypeFlags;
use tt_index::{DebruijnIndex, Refusal, RegionVid};

/// A region parameter of an item, which is replaced when the item is instantiated.
#[derive(Clone, Copy, Debug, PartialEq, Eq, Hash)]
pub struct EarlyParamRegion {
    /// Its place among the item's generic parameters.
    pub index: u32,
    /// Its name.
    pub name: Symbol,
}

/// A region parameter of an item, seen from inside the item.
#[derive(Clone, Copy, Debug, PartialEq, Eq, Hash)]
pub struct LateParamRegion {
    /// The item.
    pub scope: DefId,
    /// Its name.
    pub kind: BoundRegionKind,
}

/// The kind of a region.
#[derive(Clone, Copy, Debug, PartialEq, Eq, Hash)]
pub enum RegionKind {
    /// A region parameter of an item.
    ReEarlyParam(EarlyParamRegion),
    /// A region that a binder binds.
    ReBound(BoundVarIndexKind, BoundRegion),
    /// A region parameter of an item, seen from inside the item.
    ReLateParam(LateParamRegion),
    /// `'static`.
    ReStatic,
    /// A region inference variable.
    ReVar(RegionVid),
    /// A placeholder: a bound region whose binder has been entered.
    RePlaceholder(PlaceholderRegion),
    /// An erased region.
    ReErased,
    /// A region for which an error was reported.
    ReError(ErrorGuaranteed),
}

impl RegionKind {
    ghost use Rattle.tt_kinds.specs.Shape.{Meaning, fill};
    ghost use Rattle.tt_kinds.specs.Kinds.{region_shape};
    ghost use Rattle.tt_kinds.specs.Scan.{scan};
    ghost use Rattle.tt_kinds.specs.Reading.{outer_binder};

    /// Returns whether the index of a bound region is below the greatest, and `true` for every other region.
    pub fn is_shallow(&self) -> bool
        ensures { IsTrue result ↔ IsShallow self.now }
    {
        match self {
            RegionKind::ReBound(index, _) => index.is_shallow(),
            _ => true,
        }
    }

    /// Returns the flags of a region of this kind. A variable of a canonical query has one flag more than other bound
    /// regions.
    #[tactic(auto, unfolding(crate::specs::Shape::fill))]
    pub fn flags(self) -> TypeFlags
        ensures { (f : Meaning) → result.bits ≡ scan (fill f (region_shape self)) }
    {
        match self {
            RegionKind::ReEarlyParam(_) => TypeFlags::from_bits_retain(0x20202),
            RegionKind::ReBound(index, _) => match index {
                BoundVarIndexKind::Bound(_) => TypeFlags::HAS_RE_BOUND,
                BoundVarIndexKind::Canonical => TypeFlags::from_bits_retain(0x404_0000),
            },
            RegionKind::ReLateParam(_) => TypeFlags::from_bits_retain(0x20200),
            RegionKind::ReStatic => TypeFlags::HAS_FREE_REGIONS,
            RegionKind::ReVar(_) => TypeFlags::from_bits_retain(0x20210),
            RegionKind::RePlaceholder(_) => TypeFlags::from_bits_retain(0x20280),
            RegionKind::ReErased => TypeFlags::HAS_RE_ERASED,
            RegionKind::ReError(_) => TypeFlags::from_bits_retain(0x30000),
        }
    }

    /// Returns one more than the index of a bound region, and 0 for every other region and for a variable of a
    /// canonical query. [`RegionKind::is_shallow`] tests the condition, and the kind of a [`Region`] meets it.
    #[tactic(auto, unfolding(crate::specs::Shape::fill))]
    pub fn outer_exclusive_binder(self) -> DebruijnIndex
        requires { IsShallow self }
        ensures { (f : Meaning) → result ≡ outer_binder (fill f (region_shape self)) }
    {
        match self {
            RegionKind::ReBound(index, _) => index.outer_exclusive_binder(),
            _ => DebruijnIndex::INNERMOST,
        }
    }
}

/// A region. Unlike types, regions are small, so they are kept by value.
///
/// A bound region's index is below [`GREATEST_INDEX`](tt_index::GREATEST_INDEX), so that the index plus one is an index
/// too.
#[derive(Clone, Copy, Debug, PartialEq, Eq, Hash)]
pub struct Region {
    kind: RegionKind,
}

impl Model for Region {
    ghost use Rattle.tt_kinds.specs.declared.region_kind.RegionKind.{RegionKind};

    ghost Value = { RegionKind };

    ghost use Rattle.tt_kinds.specs.RegionKind.{IsShallow};

    ghost view = { λ region. region.kind };

    ghost invariant = { λ region. IsShallow region.kind };

    ghost inverse = { λ kind. record { kind = kind } };
}

impl Region {
    ghost use Rattle.tt_kinds.specs.RegionKind.{IsShallow, region_bound_at};
    ghost use Rattle.tt_kinds.specs.Kinds.{region_shape};
    ghost use Rattle.tt_kinds.specs.Range.{IndicesFitIn};

    /// Returns the region of this kind. Refused with `GreatestIndex` if it is a bound region with the greatest index,
    /// and never otherwise.
    pub fn new(kind: RegionKind) -> Result<Region, Refusal>
        ensures ok { IsShallow kind → result ≡ Ok kind }
        ensures deep { (IsShallow kind → ⊥) → result ≡ Err Refusal.GreatestIndex }
    {
        if kind.is_shallow() {
            Ok(Region { kind })
        } else {
            Err(Refusal::GreatestIndex)
        }
    }

    /// Returns `'static`.
    pub fn new_static() -> Region
        ensures { result ≡ RegionKind.ReStatic }
    {
        Region {
            kind: RegionKind::ReStatic,
        }
    }

    /// Returns the erased region.
    pub fn new_erased() -> Region
        ensures { result ≡ RegionKind.ReErased }
    {
        Region {
            kind: RegionKind::ReErased,
        }
    }

    /// Returns the region inference variable of this number.
    pub fn new_var(vid: RegionVid) -> Region
        ensures { result ≡ RegionKind.ReVar vid }
    {
        Region {
            kind: RegionKind::ReVar(vid),
        }
    }

    /// Returns the bound region of this index. Refused with `GreatestIndex` if the index is the greatest, and never
    /// otherwise.
    pub fn new_bound(index: DebruijnIndex, bound_region: BoundRegion) -> Result<Region, Refusal>
        ensures ok { index < greatest → result ≡ Ok (region_bound_at index bound_region) }
        ensures deep { greatest ≤ index → result ≡ Err Refusal.GreatestIndex }
    {
        Region::new(RegionKind::ReBound(BoundVarIndexKind::Bound(index), bound_region))
    }

    /// Returns the region's kind.
    pub fn kind(self) -> RegionKind
        ensures kind { result ≡ self }
        ensures shallow { IsShallow result }
    {
        self.kind
    }

    /// Returns `true`: a bound region's index is below the greatest. The contract gives callers this fact.
    pub fn in_range(self) -> bool
        ensures holds { IsTrue result }
        ensures shallow { IsShallow self }
        ensures fit { IndicesFitIn (region_shape self) }
    {
        self.kind.is_shallow()
    }
}
