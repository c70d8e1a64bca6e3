//! Visitors that look at types alone.

ghost use Rattle.tt_kinds.specs.Kinds.{ty_shape};
ghost use Rattle.tt_kinds.specs.Shape.{IsPart, Shape};
ghost use Rattle.tt_kinds.specs.Tree.{Depth, Tree};
ghost use Rattle.tt_interner.specs.Owned.{IsPartBy, tree_by};
ghost use Rattle.tt_interner.specs.Rows.{size};
ghost use Rattle.tt_visit.specs.Data.{no_handles};
ghost use Rattle.tt_visit.specs.Steps.{Answers, Ends, OwnsBreak};
ghost use Rattle.tt_visit.specs.Types.{TypeVisits, no_visit_promise, only_type_visits};
ghost use Rattle.tt_visit.specs.Visit.{Breaks, GoesOver};

use crate::visitable::TypeVisitable;
use crate::visitor::{Next, TypeVisitor};
use std::ops::ControlFlow;
use tt_interner::Interner;
use tt_kinds::{BoundVarKinds, Clauses, Const, ErrorGuaranteed, Predicate, Region, Ty};

/// A visitor that looks at types alone. It ignores regions and tokens of errors, and enters each other term and each
/// binder, so one method is enough. A visit is promised to be the walk of the inspector's `hooks`: with the default,
/// which promises nothing, nothing is known of where the visit breaks or of the inspector's state. State `hooks` where a
/// proof has to know them.
///
/// Each inspector is a [`TypeVisitor`]; [`inspect_types`] visits a value with an inspector. A visitor that has to know
/// the binders around a type implements [`TypeVisitor`] itself.
pub trait TypeInspector {
    /// The value that a visit returns when it breaks.
    type Break;

    // The handles in a state; an inspector that holds none keeps the default.
    ghost shape: { Self → Shape } = { λ s. no_handles };
    // The handles in a break value.
    ghost break_shape: { Self.Break → Shape } = { λ b. no_handles };

    // The relation that the hook keeps to, on the trees of the handles; the default promises nothing.
    ghost hooks: { TypeVisits (Tree Depth) Self.Break } = { no_visit_promise };

    /// Called at each type, before its contents.
    fn inspect_ty(&mut self, cx: &Interner, ty: Ty) -> ControlFlow<Self::Break, Next>
        requires owned { IsPartBy shape cx.now.rows self.old }
        requires ty { IsPartBy ty_shape cx.now.rows ty }
        ensures owned { IsPartBy shape cx.now.rows self.new }
        ensures broke { OwnsBreak (λ rows b. IsPart (size rows) (break_shape b)) cx.now.rows result }
        ensures result { Answers (tree_by shape) hooks.on_type hooks.type_breaks
            cx.now.rows self.old (tree_by ty_shape cx.now.rows ty) result self.new };
}

impl<F: TypeInspector> TypeVisitor for F {
    type Break = F::Break;

    ghost Meaning = { Tree Depth };

    ghost meaning = { tree_by F.TypeInspector.shape };

    ghost owned = { λ rows s. IsPart (size rows) (F.TypeInspector.shape s) };

    ghost break_owned = { λ rows b. IsPart (size rows) (F.TypeInspector.break_shape b) };

    ghost hooks = { only_type_visits F.TypeInspector.hooks };

    fn visit_region(&mut self, _cx: &Interner, _region: Region) -> ControlFlow<F::Break, ()> {
        ControlFlow::Continue(())
    }

    fn visit_error(
        &mut self,
        _cx: &Interner,
        _error: ErrorGuaranteed,
    ) -> ControlFlow<F::Break, ()> {
        ControlFlow::Continue(())
    }

    fn visit_ty(&mut self, cx: &Interner, ty: Ty) -> ControlFlow<F::Break, Next> {
        self.inspect_ty(cx, ty)
    }

    fn visit_const(&mut self, _cx: &Interner, _constant: Const) -> ControlFlow<F::Break, Next> {
        ControlFlow::Continue(Next::Descend)
    }

    fn visit_predicate(
        &mut self,
        _cx: &Interner,
        _predicate: Predicate,
    ) -> ControlFlow<F::Break, Next> {
        ControlFlow::Continue(Next::Descend)
    }

    fn visit_clauses(&mut self, _cx: &Interner, _clauses: Clauses) -> ControlFlow<F::Break, Next> {
        ControlFlow::Continue(Next::Descend)
    }

    fn visit_binder(
        &mut self,
        _cx: &Interner,
        _vars: BoundVarKinds,
    ) -> ControlFlow<F::Break, Next> {
        ControlFlow::Continue(Next::Descend)
    }

    fn leave_binder(&mut self, _cx: &Interner, _vars: BoundVarKinds) {}
}

/// Visits a value with an inspector, which is called at the value's types in order, each before its contents, until it
/// breaks. The value's handles have to be of this interner; `Owned::is_owned` tests it.
pub fn inspect_types<T: TypeVisitable, F: TypeInspector>(
    cx: &Interner,
    value: &T,
    inspector: &mut F,
) -> ControlFlow<F::Break, ()>
    requires owned { IsPartBy F.shape cx.now.rows inspector.old }
    requires value { IsPartBy T.shape cx.now.rows value.now }
    ensures owned { IsPartBy F.shape cx.now.rows inspector.new }
    ensures broke { OwnsBreak (λ rows b. IsPart (size rows) (F.break_shape b)) cx.now.rows result }
    ensures result { Ends (tree_by F.shape)
        (GoesOver (only_type_visits F.hooks)) (Breaks (only_type_visits F.hooks))
        cx.now.rows inspector.old (tree_by T.shape cx.now.rows value.now) result inspector.new }
{
    value.visit_with(cx, inspector)
}
