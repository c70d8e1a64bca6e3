//! The visitor that looks for variables bound by a given binder or further out.

ghost use Rattle.std.specs.Prelude.{IsTrue, false, ◌<◌, ◌≤◌, ◌≡◌, ◌↔◌};
ghost use Rattle.tt_index.specs.Greatest.{greatest};
ghost use Rattle.tt_kinds.specs.Reading.{outer_binder};
ghost use Rattle.tt_interner.specs.Owned.{IsPartBy, tree_by};
ghost use Rattle.tt_interner.specs.Rows.{meaning};
ghost use Rattle.tt_visit.specs.HasEscapingVars.{InRange};

use crate::visitable::TypeVisitable;
use crate::visitor::{Next, TypeVisitor};
use std::ops::ControlFlow;
use tt_index::DebruijnIndex;
use tt_interner::{Flags, Interner};
use tt_kinds::{BoundVarKinds, Clauses, Const, ErrorGuaranteed, Predicate, Region, Ty};

/// The break value of a visit that finds a variable.
#[derive(Clone, Copy, Debug, PartialEq, Eq)]
pub struct FoundEscapingVars;

/// Breaks at the first region, type, constant, predicate or list of clauses that holds a variable bound by the binder
/// `outer_index` or further out, where that index is counted from outside the visited value. None of these terms is
/// taken apart, since their outer exclusive binders are cached.
///
/// Under more binders than an index can count, no variable reaches so far out, since each has an index below the
/// greatest. So such a binder's value is skipped, and the visitor remembers that it was.
#[derive(Clone, Copy, Debug)]
pub struct HasEscapingVarsVisitor {
    // the index of the same binder, as counted from where the visit is
    outer_index: DebruijnIndex,
    skipped: bool,
}

impl HasEscapingVarsVisitor {
    /// Returns the visitor that looks for variables bound by the binder of this index or further out.
    pub fn new(outer_index: DebruijnIndex) -> HasEscapingVarsVisitor
        ensures { result ≡ record { outer_index = outer_index; skipped = false } }
    {
        HasEscapingVarsVisitor {
            outer_index,
            skipped: false,
        }
    }

    /// Returns whether a binder's value was skipped.
    pub fn has_skipped(self) -> bool
        ensures { result ≡ self.skipped }
    {
        self.skipped
    }

    // Returns whether a term with this outer exclusive binder holds a variable that the visitor looks for.
    fn found(self, outer_exclusive_binder: DebruijnIndex) -> bool
        ensures { IsTrue result ↔ (self.outer_index < outer_exclusive_binder) }
    {
        outer_exclusive_binder > self.outer_index
    }
}

impl TypeVisitor for HasEscapingVarsVisitor {
    type Break = FoundEscapingVars;

    ghost use Rattle.tt_visit.specs.HasEscapingVars.{Search, search_hooks};

    ghost Meaning = { Search };

    ghost meaning = { λ _ s. record { outer_index = s.outer_index; skipped = s.skipped } };

    ghost hooks = { search_hooks };

    fn visit_region(
        &mut self,
        cx: &Interner,
        region: Region,
    ) -> ControlFlow<FoundEscapingVars, ()> {
        if self.found(region.outer_exclusive_binder(cx)) {
            ControlFlow::Break(FoundEscapingVars)
        } else {
            ControlFlow::Continue(())
        }
    }

    fn visit_error(
        &mut self,
        _cx: &Interner,
        _error: ErrorGuaranteed,
    ) -> ControlFlow<FoundEscapingVars, ()> {
        ControlFlow::Continue(())
    }

    fn visit_ty(&mut self, cx: &Interner, ty: Ty) -> ControlFlow<FoundEscapingVars, Next> {
        if self.found(ty.outer_exclusive_binder(cx)) {
            ControlFlow::Break(FoundEscapingVars)
        } else {
            ControlFlow::Continue(Next::Skip)
        }
    }

    fn visit_const(
        &mut self,
        cx: &Interner,
        constant: Const,
    ) -> ControlFlow<FoundEscapingVars, Next> {
        if self.found(constant.outer_exclusive_binder(cx)) {
            ControlFlow::Break(FoundEscapingVars)
        } else {
            ControlFlow::Continue(Next::Skip)
        }
    }

    fn visit_predicate(
        &mut self,
        cx: &Interner,
        predicate: Predicate,
    ) -> ControlFlow<FoundEscapingVars, Next> {
        if self.found(predicate.outer_exclusive_binder(cx)) {
            ControlFlow::Break(FoundEscapingVars)
        } else {
            ControlFlow::Continue(Next::Skip)
        }
    }

    fn visit_clauses(
        &mut self,
        cx: &Interner,
        clauses: Clauses,
    ) -> ControlFlow<FoundEscapingVars, Next> {
        if self.found(clauses.outer_exclusive_binder(cx)) {
            ControlFlow::Break(FoundEscapingVars)
        } else {
            ControlFlow::Continue(Next::Skip)
        }
    }

    fn visit_binder(
        &mut self,
        _cx: &Interner,
        _vars: BoundVarKinds,
    ) -> ControlFlow<FoundEscapingVars, Next> {
        if self.outer_index.can_shift_in(1) {
            self.outer_index.shift_in(1);
            ControlFlow::Continue(Next::Descend)
        } else {
            self.skipped = true;
            ControlFlow::Continue(Next::Skip)
        }
    }

    fn leave_binder(&mut self, _cx: &Interner, _vars: BoundVarKinds) {
        if self.outer_index.can_shift_out(1) {
            self.outer_index.shift_out(1);
        }
    }
}

// Visits a value only to show that the indices of each region and each term with a hook are in range.
#[derive(Clone, Copy, Debug)]
struct InRangeVisitor;

impl TypeVisitor for InRangeVisitor {
    type Break = FoundEscapingVars;

    ghost use Rattle.std.specs.Prelude.{⊤};
    ghost use Rattle.tt_visit.specs.HasEscapingVars.{range_hooks};

    ghost Meaning = { ⊤ };

    ghost meaning = { λ _ s. tt };

    ghost hooks = { range_hooks };

    fn visit_region(
        &mut self,
        cx: &Interner,
        region: Region,
    ) -> ControlFlow<FoundEscapingVars, ()> {
        let _fits = region.outer_exclusive_binder(cx).as_u32();
        ControlFlow::Continue(())
    }

    fn visit_error(
        &mut self,
        _cx: &Interner,
        _error: ErrorGuaranteed,
    ) -> ControlFlow<FoundEscapingVars, ()> {
        ControlFlow::Continue(())
    }

    fn visit_ty(&mut self, cx: &Interner, ty: Ty) -> ControlFlow<FoundEscapingVars, Next> {
        let _fits = ty.outer_exclusive_binder(cx).as_u32();
        ControlFlow::Continue(Next::Skip)
    }

    fn visit_const(
        &mut self,
        cx: &Interner,
        constant: Const,
    ) -> ControlFlow<FoundEscapingVars, Next> {
        let _fits = constant.outer_exclusive_binder(cx).as_u32();
        ControlFlow::Continue(Next::Skip)
    }

    fn visit_predicate(
        &mut self,
        cx: &Interner,
        predicate: Predicate,
    ) -> ControlFlow<FoundEscapingVars, Next> {
        let _fits = predicate.outer_exclusive_binder(cx).as_u32();
        ControlFlow::Continue(Next::Skip)
    }

    fn visit_clauses(
        &mut self,
        cx: &Interner,
        clauses: Clauses,
    ) -> ControlFlow<FoundEscapingVars, Next> {
        let _fits = clauses.outer_exclusive_binder(cx).as_u32();
        ControlFlow::Continue(Next::Skip)
    }

    fn visit_binder(
        &mut self,
        _cx: &Interner,
        _vars: BoundVarKinds,
    ) -> ControlFlow<FoundEscapingVars, Next> {
        ControlFlow::Continue(Next::Descend)
    }

    fn leave_binder(&mut self, _cx: &Interner, _vars: BoundVarKinds) {}
}

/// Returns `true`: every variable of a value that is bound outside of it has an index below the greatest. The contract
/// gives callers this fact.
pub(crate) fn are_vars_in_range<T: TypeVisitable>(cx: &Interner, value: &T) -> bool
    requires { IsPartBy T.shape cx.now.rows value.now }
    ensures holds { IsTrue result }
    ensures each { InRange (tree_by T.shape cx.now.rows value.now) }
    ensures whole { outer_binder (tree_by T.shape cx.now.rows value.now) ≤ greatest }
{
    let mut visitor = InRangeVisitor;
    match value.visit_with(cx, &mut visitor) {
        ControlFlow::Break(_) => false,
        ControlFlow::Continue(_) => true,
    }
}
