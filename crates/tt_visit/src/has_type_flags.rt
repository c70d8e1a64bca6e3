//! The visitor that looks for flags.

ghost use Rattle.std.specs.Prelude.{◌<◌, ◌≡◌};
ghost use Rattle.tt_kinds.specs.Label.{list_flags as flags_of_list};
ghost use Rattle.tt_kinds.specs.Shape.{vars_of};
ghost use Rattle.tt_kinds.specs.declared.table.Table.TheVariants.{VarLists};
ghost use Rattle.tt_interner.specs.Rows.{meaning, size};

use crate::visitor::{Next, TypeVisitor};
use std::ops::ControlFlow;
use tt_flags::TypeFlags;
use tt_interner::{Flags, InternedList, Interner};
use tt_kinds::{BoundVarKinds, Clauses, Const, ErrorGuaranteed, Predicate, Region, Ty};

/// The break value of a visit that finds a flag.
#[derive(Clone, Copy, Debug, PartialEq, Eq)]
pub struct FoundFlags;

/// Breaks at the first region, type, constant, predicate, list of clauses or binder that has a flag of the mask. None
/// of these terms is taken apart, since their flags are cached.
#[derive(Clone, Copy, Debug)]
pub struct HasTypeFlagsVisitor {
    flags: TypeFlags,
}

impl HasTypeFlagsVisitor {
    /// Returns the visitor that looks for the flags of this mask.
    pub fn new(flags: TypeFlags) -> HasTypeFlagsVisitor
        ensures { result ≡ record { flags = flags } }
    {
        HasTypeFlagsVisitor { flags }
    }
}

impl TypeVisitor for HasTypeFlagsVisitor {
    type Break = FoundFlags;

    ghost use Rattle.std.specs.Prelude.{ℕ};
    ghost use Rattle.tt_visit.specs.HasTypeFlags.{flag_hooks};

    ghost Meaning = { ℕ };

    ghost meaning = { λ _ s. s.flags.bits };

    ghost hooks = { flag_hooks };

    fn visit_region(&mut self, cx: &Interner, region: Region) -> ControlFlow<FoundFlags, ()> {
        if self.flags.intersects(region.flags(cx)) {
            ControlFlow::Break(FoundFlags)
        } else {
            ControlFlow::Continue(())
        }
    }

    fn visit_error(
        &mut self,
        _cx: &Interner,
        _error: ErrorGuaranteed,
    ) -> ControlFlow<FoundFlags, ()> {
        if self.flags.intersects(TypeFlags::HAS_ERROR) {
            ControlFlow::Break(FoundFlags)
        } else {
            ControlFlow::Continue(())
        }
    }

    fn visit_ty(&mut self, cx: &Interner, ty: Ty) -> ControlFlow<FoundFlags, Next> {
        if self.flags.intersects(ty.flags(cx)) {
            ControlFlow::Break(FoundFlags)
        } else {
            ControlFlow::Continue(Next::Skip)
        }
    }

    fn visit_const(&mut self, cx: &Interner, constant: Const) -> ControlFlow<FoundFlags, Next> {
        if self.flags.intersects(constant.flags(cx)) {
            ControlFlow::Break(FoundFlags)
        } else {
            ControlFlow::Continue(Next::Skip)
        }
    }

    fn visit_predicate(
        &mut self,
        cx: &Interner,
        predicate: Predicate,
    ) -> ControlFlow<FoundFlags, Next> {
        if self.flags.intersects(predicate.flags(cx)) {
            ControlFlow::Break(FoundFlags)
        } else {
            ControlFlow::Continue(Next::Skip)
        }
    }

    fn visit_clauses(&mut self, cx: &Interner, clauses: Clauses) -> ControlFlow<FoundFlags, Next> {
        if self.flags.intersects(clauses.flags(cx)) {
            ControlFlow::Break(FoundFlags)
        } else {
            ControlFlow::Continue(Next::Skip)
        }
    }

    fn visit_binder(
        &mut self,
        cx: &Interner,
        vars: BoundVarKinds,
    ) -> ControlFlow<FoundFlags, Next> {
        if self.flags.intersects(list_flags(cx, vars)) {
            ControlFlow::Break(FoundFlags)
        } else {
            ControlFlow::Continue(Next::Descend)
        }
    }

    fn leave_binder(&mut self, _cx: &Interner, _vars: BoundVarKinds) {}
}

// Returns the flags of a binder's list of variables.
fn list_flags(cx: &Interner, vars: BoundVarKinds) -> TypeFlags
    requires { vars.number < size cx.now.rows VarLists }
    ensures { result.bits ≡ flags_of_list (vars_of (meaning cx.now.rows VarLists vars.number)) }
{
    cx.are_rows();
    if vars.as_slice(cx).is_empty() {
        TypeFlags::empty()
    } else {
        TypeFlags::HAS_BINDER_VARS
    }
}
