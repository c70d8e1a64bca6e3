//! The visitor that looks for the token of an error.

ghost use Rattle.std.specs.Prelude.{◌≡◌};
ghost use Rattle.tt_flags.specs.TypeFlags.{has_error};
ghost use Rattle.tt_visit.specs.HasTypeFlags.{Misses};
ghost use Rattle.tt_visit.specs.declared.visitor.Next.TheVariants.{Skip};

use crate::visitor::{Next, TypeVisitor};
use std::ops::ControlFlow;
use tt_flags::TypeFlags;
use tt_interner::{Flags, Interner};
use tt_kinds::{BoundVarKinds, Clauses, Const, ErrorGuaranteed, Predicate, Region, RegionKind, Ty};

/// Breaks with the first token of an error, of a type, a constant or a region. Terms without one are skipped by their
/// flags.
#[derive(Clone, Copy, Debug)]
pub struct HasErrorVisitor;

// Returns the answer at a term with these flags.
fn next_for(flags: TypeFlags) -> Next
    ensures { result ≡ Skip → Misses has_error flags.bits }
{
    if TypeFlags::HAS_ERROR.intersects(flags) {
        Next::Descend
    } else {
        Next::Skip
    }
}

impl TypeVisitor for HasErrorVisitor {
    type Break = ErrorGuaranteed;

    ghost use Rattle.std.specs.Prelude.{⊤};
    ghost use Rattle.tt_visit.specs.HasError.{error_hooks};

    ghost Meaning = { ⊤ };

    ghost meaning = { λ _ s. tt };

    ghost hooks = { error_hooks };

    #[tactic(auto, unfolding(tt_kinds::specs::Shape::fill))]
    fn visit_region(&mut self, _cx: &Interner, region: Region) -> ControlFlow<ErrorGuaranteed, ()> {
        match region.kind() {
            RegionKind::ReError(error) => ControlFlow::Break(error),
            _ => ControlFlow::Continue(()),
        }
    }

    fn visit_error(
        &mut self,
        _cx: &Interner,
        error: ErrorGuaranteed,
    ) -> ControlFlow<ErrorGuaranteed, ()> {
        ControlFlow::Break(error)
    }

    fn visit_ty(&mut self, cx: &Interner, ty: Ty) -> ControlFlow<ErrorGuaranteed, Next> {
        ControlFlow::Continue(next_for(ty.flags(cx)))
    }

    fn visit_const(
        &mut self,
        cx: &Interner,
        constant: Const,
    ) -> ControlFlow<ErrorGuaranteed, Next> {
        ControlFlow::Continue(next_for(constant.flags(cx)))
    }

    fn visit_predicate(
        &mut self,
        cx: &Interner,
        predicate: Predicate,
    ) -> ControlFlow<ErrorGuaranteed, Next> {
        ControlFlow::Continue(next_for(predicate.flags(cx)))
    }

    fn visit_clauses(
        &mut self,
        cx: &Interner,
        clauses: Clauses,
    ) -> ControlFlow<ErrorGuaranteed, Next> {
        ControlFlow::Continue(next_for(clauses.flags(cx)))
    }

    fn visit_binder(
        &mut self,
        _cx: &Interner,
        _vars: BoundVarKinds,
    ) -> ControlFlow<ErrorGuaranteed, Next> {
        ControlFlow::Continue(Next::Descend)
    }

    fn leave_binder(&mut self, _cx: &Interner, _vars: BoundVarKinds) {}
}
