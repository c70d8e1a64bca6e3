//! The test of whether arguments leave a value as it is.

ghost use Rattle.std.specs.Prelude.{◌↔◌, IsTrue};
ghost use Rattle.tt_fold.specs.Steps.{IsPartBy, tree_by};
ghost use Rattle.tt_binder.specs.Untouched.{untouched_visits};
ghost use Rattle.tt_kinds.specs.Cause.{IsUntouched};

use crate::arg_folder::const_parameter;
use std::ops::ControlFlow;
use tt_flags::TypeFlags;
use tt_interner::{Flags, Interner};
use tt_kinds::{BoundVarKinds, Clauses, Const, ErrorGuaranteed, Predicate, Region, RegionKind, Ty};
use tt_visit::{Next, TypeVisitable, TypeVisitor};

// Breaks at a parameter, and at a region variable outside of the types, predicates and lists of clauses without
// parameters.
#[derive(Drop)]
struct TouchedVisitor;

impl TypeVisitor for TouchedVisitor {
    type Break = ();

    ghost Meaning = { Unit {0} };

    ghost meaning = { λ rows s. tt };

    ghost hooks = { untouched_visits };

    fn visit_region(&mut self, _cx: &Interner, region: Region) -> ControlFlow<(), ()> {
        match region.kind() {
            RegionKind::ReEarlyParam(_) | RegionKind::ReVar(_) => ControlFlow::Break(()),
            _ => ControlFlow::Continue(()),
        }
    }

    fn visit_error(&mut self, _cx: &Interner, _error: ErrorGuaranteed) -> ControlFlow<(), ()> {
        ControlFlow::Continue(())
    }

    fn visit_ty(&mut self, cx: &Interner, ty: Ty) -> ControlFlow<(), Next> {
        if ty.flags(cx).intersects(TypeFlags::HAS_PARAM) {
            ControlFlow::Break(())
        } else {
            ControlFlow::Continue(Next::Skip)
        }
    }

    fn visit_const(&mut self, cx: &Interner, constant: Const) -> ControlFlow<(), Next> {
        match const_parameter(cx, constant) {
            Some(_) => ControlFlow::Break(()),
            None => ControlFlow::Continue(Next::Descend),
        }
    }

    fn visit_predicate(&mut self, cx: &Interner, predicate: Predicate) -> ControlFlow<(), Next> {
        if predicate.flags(cx).intersects(TypeFlags::HAS_PARAM) {
            ControlFlow::Break(())
        } else {
            ControlFlow::Continue(Next::Skip)
        }
    }

    fn visit_clauses(&mut self, cx: &Interner, clauses: Clauses) -> ControlFlow<(), Next> {
        if clauses.flags(cx).intersects(TypeFlags::HAS_PARAM) {
            ControlFlow::Break(())
        } else {
            ControlFlow::Continue(Next::Skip)
        }
    }

    fn visit_binder(&mut self, _cx: &Interner, _vars: BoundVarKinds) -> ControlFlow<(), Next> {
        ControlFlow::Continue(Next::Descend)
    }

    fn leave_binder(&mut self, _cx: &Interner, _vars: BoundVarKinds) {}
}

/// Returns whether every instantiation leaves the value untouched: no parameter occurs in it, and no region variable
/// occurs in it outside of the types, predicates and lists of clauses without parameters.
pub fn is_untouched<T: TypeVisitable>(cx: &Interner, value: &T) -> bool
    requires { IsPartBy T.shape cx.now.rows value.now }
    ensures { IsTrue result ↔ IsUntouched (tree_by T.shape cx.now.rows value.now) }
{
    match value.visit_with(cx, &mut TouchedVisitor) {
        ControlFlow::Continue(()) => true,
        ControlFlow::Break(()) => false,
    }
}
