//! The visitor that looks for regions at which a fold of regions calls its closure.

ghost use Rattle.std.specs.Prelude.{IsTrue, false, ◌<◌, ◌≡◌, ◌↔◌};
ghost use Rattle.std.specs.ControlFlow.{MatchControlFlow};
ghost use Rattle.tt_kinds.specs.Reading.{outer_binder};
ghost use Rattle.tt_kinds.specs.Scan.{scan};
ghost use Rattle.tt_kinds.specs.Shape.{IsPart, fill};
ghost use Rattle.tt_kinds.specs.Tree.{Depth, Tree};
ghost use Rattle.tt_interner.specs.Rows.{meaning, size};
ghost use Rattle.tt_visit.specs.HasTypeFlags.{Misses};
ghost use Rattle.tt_visit.specs.declared.visitor.Next.TheVariants.{Skip};
ghost use Rattle.tt_visit.specs.MeetsRegions.{AreInRange, RegionSearchLooks, MeetsSome};

use crate::visitable::TypeVisitable;
use crate::visitor::{Next, TypeVisitor};
use std::ops::ControlFlow;
use tt_flags::TypeFlags;
use tt_index::DebruijnIndex;
use tt_interner::{Flags, Interner};
use tt_kinds::{BoundVarKinds, Clauses, Const, ErrorGuaranteed, Predicate, Region, Ty};

/// The break value of a visit that meets a region.
#[derive(Clone, Copy, Debug, PartialEq, Eq)]
pub struct MetRegion;

/// Looks for a region that the visited value doesn't bind itself and that is not a variable of a canonical query.
/// Breaks at the first region, type, constant, predicate or list of clauses that is known to be one or to hold one.
///
/// A term is taken apart only if its flags and its outer exclusive binder leave open whether it holds such a region: if
/// all its regions are bound, and some variable is bound outside of the visited value.
///
/// Under more binders than an index can count, each bound region is bound in the value. So such a binder's value is
/// skipped. The visitor remembers that it was, since the value may still hold a region that isn't bound.
#[derive(Clone, Copy, Debug)]
pub struct MeetsRegionsVisitor {
    // the innermost binder outside of the visited value, as counted from where the visit is
    outer_index: DebruijnIndex,
    skipped: bool,
}

impl MeetsRegionsVisitor {
    /// Returns a visitor that is outside of all binders of the value.
    pub fn new() -> MeetsRegionsVisitor
        ensures { result ≡ record { outer_index = 0; skipped = false } }
    {
        MeetsRegionsVisitor {
            outer_index: DebruijnIndex::INNERMOST,
            skipped: false,
        }
    }

    /// Returns whether a binder's value was skipped.
    pub fn has_skipped(self) -> bool
        ensures { result ≡ self.skipped }
    {
        self.skipped
    }

    // Returns whether a term with this outer exclusive binder holds a variable that is bound outside of the visited
    // value.
    fn reaches_out(self, outer_exclusive_binder: DebruijnIndex) -> bool
        ensures { IsTrue result ↔ (self.outer_index < outer_exclusive_binder) }
    {
        outer_exclusive_binder > self.outer_index
    }

    // Decides by these flags and this outer exclusive binder whether a term holds a region that the visitor looks for,
    // or has to be taken apart.
    fn meets_by_info(
        self,
        flags: TypeFlags,
        outer_exclusive_binder: DebruijnIndex,
    ) -> ControlFlow<MetRegion, Next>
        ensures { (t : Tree Depth)
            → flags.bits ≡ scan t
            → outer_exclusive_binder ≡ outer_binder t
            → MatchControlFlow
            result
            (λ next. RegionSearchLooks self.outer_index t next)
            (λ b. MeetsSome self.outer_index t) }
    {
        let unbound = TypeFlags::HAS_FREE_REGIONS.union(TypeFlags::HAS_RE_ERASED);
        if unbound.intersects(flags) {
            ControlFlow::Break(MetRegion)
        } else if !TypeFlags::HAS_RE_BOUND.intersects(flags) {
            ControlFlow::Continue(Next::Skip)
        } else if self.reaches_out(outer_exclusive_binder) {
            ControlFlow::Continue(Next::Descend)
        } else {
            ControlFlow::Continue(Next::Skip)
        }
    }
}

impl TypeVisitor for MeetsRegionsVisitor {
    type Break = MetRegion;

    ghost use Rattle.tt_visit.specs.MeetsRegions.{RegionSearch, meets_hooks};

    ghost Meaning = { RegionSearch };

    ghost meaning = { λ _ s. record { depth = s.outer_index; skipped = s.skipped } };

    ghost hooks = { meets_hooks };

    fn visit_region(&mut self, cx: &Interner, region: Region) -> ControlFlow<MetRegion, ()> {
        match self.meets_by_info(region.flags(cx), region.outer_exclusive_binder(cx)) {
            ControlFlow::Continue(Next::Skip) => ControlFlow::Continue(()),
            // the region itself is the variable that is bound outside
            ControlFlow::Continue(Next::Descend) => ControlFlow::Break(MetRegion),
            ControlFlow::Break(b) => ControlFlow::Break(b),
        }
    }

    fn visit_error(
        &mut self,
        _cx: &Interner,
        _error: ErrorGuaranteed,
    ) -> ControlFlow<MetRegion, ()> {
        ControlFlow::Continue(())
    }

    fn visit_ty(&mut self, cx: &Interner, ty: Ty) -> ControlFlow<MetRegion, Next> {
        self.meets_by_info(ty.flags(cx), ty.outer_exclusive_binder(cx))
    }

    fn visit_const(&mut self, cx: &Interner, constant: Const) -> ControlFlow<MetRegion, Next> {
        self.meets_by_info(constant.flags(cx), constant.outer_exclusive_binder(cx))
    }

    fn visit_predicate(
        &mut self,
        cx: &Interner,
        predicate: Predicate,
    ) -> ControlFlow<MetRegion, Next> {
        self.meets_by_info(predicate.flags(cx), predicate.outer_exclusive_binder(cx))
    }

    fn visit_clauses(&mut self, cx: &Interner, clauses: Clauses) -> ControlFlow<MetRegion, Next> {
        self.meets_by_info(clauses.flags(cx), clauses.outer_exclusive_binder(cx))
    }

    fn visit_binder(
        &mut self,
        _cx: &Interner,
        _vars: BoundVarKinds,
    ) -> ControlFlow<MetRegion, Next> {
        if self.outer_index.can_shift_in(1) {
            self.outer_index.shift_in(1);
            ControlFlow::Continue(Next::Descend)
        } else {
            self.skipped = true;
            ControlFlow::Continue(Next::Skip)
        }
    }

    fn leave_binder(&mut self, _cx: &Interner, _vars: BoundVarKinds) {
        if self.outer_index.can_shift_out(1) {
            self.outer_index.shift_out(1);
        }
    }
}

// Visits a value, and each term in it that holds a bound region, only to show that the regions' indices are in range.
#[derive(Clone, Copy, Debug)]
struct RegionsInRangeVisitor;

impl TypeVisitor for RegionsInRangeVisitor {
    type Break = MetRegion;

    ghost use Rattle.std.specs.Prelude.{⊤};
    ghost use Rattle.tt_visit.specs.MeetsRegions.{region_range_hooks};

    ghost Meaning = { ⊤ };

    ghost meaning = { λ _ s. tt };

    ghost hooks = { region_range_hooks };

    fn visit_region(&mut self, cx: &Interner, region: Region) -> ControlFlow<MetRegion, ()> {
        let _fits = region.outer_exclusive_binder(cx).as_u32();
        ControlFlow::Continue(())
    }

    fn visit_error(
        &mut self,
        _cx: &Interner,
        _error: ErrorGuaranteed,
    ) -> ControlFlow<MetRegion, ()> {
        ControlFlow::Continue(())
    }

    fn visit_ty(&mut self, cx: &Interner, ty: Ty) -> ControlFlow<MetRegion, Next> {
        ControlFlow::Continue(next_at(ty.flags(cx)))
    }

    fn visit_const(&mut self, cx: &Interner, constant: Const) -> ControlFlow<MetRegion, Next> {
        ControlFlow::Continue(next_at(constant.flags(cx)))
    }

    fn visit_predicate(
        &mut self,
        cx: &Interner,
        predicate: Predicate,
    ) -> ControlFlow<MetRegion, Next> {
        ControlFlow::Continue(next_at(predicate.flags(cx)))
    }

    fn visit_clauses(&mut self, cx: &Interner, clauses: Clauses) -> ControlFlow<MetRegion, Next> {
        ControlFlow::Continue(next_at(clauses.flags(cx)))
    }

    fn visit_binder(
        &mut self,
        _cx: &Interner,
        _vars: BoundVarKinds,
    ) -> ControlFlow<MetRegion, Next> {
        ControlFlow::Continue(Next::Descend)
    }

    fn leave_binder(&mut self, _cx: &Interner, _vars: BoundVarKinds) {}
}

// Returns what comes next at a term with these flags: the term's contents if a bound region occurs in it, and otherwise
// the next term.
fn next_at(flags: TypeFlags) -> Next
    ensures { result ≡ Skip → Misses 0x40000 flags.bits }
{
    if TypeFlags::HAS_RE_BOUND.intersects(flags) {
        Next::Descend
    } else {
        Next::Skip
    }
}

/// Returns `true`: each bound region in the value, however deep it is, has an index below the greatest. The contract
/// gives callers this fact. Each term that holds a bound region is taken apart.
pub(crate) fn are_regions_in_range<T: TypeVisitable>(cx: &Interner, value: &T) -> bool
    requires { IsPart (size cx.now.rows) (T.shape value.now) }
    ensures holds { IsTrue result }
    ensures each { AreInRange (fill (meaning cx.now.rows) (T.shape value.now)) }
{
    let mut visitor = RegionsInRangeVisitor;
    match value.visit_with(cx, &mut visitor) {
        ControlFlow::Break(_) => false,
        ControlFlow::Continue(_) => true,
    }
}
