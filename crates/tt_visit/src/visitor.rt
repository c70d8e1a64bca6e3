//! The trait of visitors.

ghost use Rattle.std.specs.Prelude.{◌<◌, List, ⊤};
ghost use Rattle.tt_kinds.specs.Shape.{vars_of};
ghost use Rattle.tt_kinds.specs.Kinds.{clauses_shape, const_shape, predicate_shape, region_shape, ty_shape};
ghost use Rattle.tt_kinds.specs.declared.table.Table.TheVariants.{VarLists};
ghost use Rattle.tt_interner.specs.Owned.{IsPartBy, tree_by};
ghost use Rattle.tt_interner.specs.Rows.{Row, meaning as meaning_of, size};
ghost use Rattle.tt_visit.specs.Steps.{Answers, Ends, OwnsBreak};
ghost use Rattle.tt_visit.specs.Visit.{Visits};

use std::ops::ControlFlow;
use tt_interner::Interner;
use tt_kinds::{BoundVarKinds, Clauses, Const, ErrorGuaranteed, Predicate, Region, Ty};

/// The answer of a hook that is called before the contents of a term or a binder.
#[derive(Clone, Copy, Debug, PartialEq, Eq)]
pub enum Next {
    /// The visit skips the contents.
    Skip,
    /// The visit enters the contents.
    Descend,
}

/// A visitor, which is called at each region, type, constant, predicate, list of clauses and binder of a value, in
/// order, from the outside in.
///
/// Patterns, existential predicates, other lists and records have no hook: the visit enters them. A hook that returns
/// `Break` ends the visit with that value.
///
/// A visitor may hold handles, and break with one. `owned` and `break_owned` state that these are of the interner, and
/// hold again after each hook and each visit, even after a break.
pub trait TypeVisitor {
    /// The value that a visit returns when it breaks.
    type Break;

    // The meaning of a state, with the trees of its handles.
    ghost Meaning: { Type 0 };

    ghost meaning: { List Row → Self → Self.Meaning };
    // Each handle of the state names one of the rows; a visitor that holds none keeps the default.
    ghost owned: { List Row → Self → Type 0 } = { λ rows s. ⊤ };
    // Each handle of a break value names one of the rows.
    ghost break_owned: { List Row → Self.Break → Type 0 } = { λ rows b. ⊤ };

    // The relations that the hooks keep to.
    ghost hooks: { Visits Self.Meaning Self.Break };

    /// Called at each region.
    ///
    /// [`TypeVisitor::visit_error`] isn't called for an error token in the region: a visitor that looks for errors
    /// tests the region here.
    fn visit_region(&mut self, cx: &Interner, region: Region) -> ControlFlow<Self::Break, ()>
        requires owned { owned cx.now.rows self.old }
        requires region { IsPartBy region_shape cx.now.rows region }
        ensures owned { owned cx.now.rows self.new }
        ensures broke { OwnsBreak break_owned cx.now.rows result }
        ensures result { Ends meaning hooks.on_region hooks.region_breaks
            cx.now.rows self.old (tree_by region_shape cx.now.rows region) result self.new };

    /// Called at the error token of a type or a constant, and at an error token by itself.
    ///
    /// For a stored type or constant, this is after its hook returned `Descend`. A kind that isn't stored has no hook.
    fn visit_error(&mut self, cx: &Interner, error: ErrorGuaranteed) -> ControlFlow<Self::Break, ()>
        requires owned { owned cx.now.rows self.old }
        ensures owned { owned cx.now.rows self.new }
        ensures broke { OwnsBreak break_owned cx.now.rows result }
        ensures result { Ends meaning hooks.on_error hooks.error_breaks cx.now.rows self.old error.0 result self.new };

    /// Called at each type, before its contents.
    fn visit_ty(&mut self, cx: &Interner, ty: Ty) -> ControlFlow<Self::Break, Next>
        requires owned { owned cx.now.rows self.old }
        requires ty { IsPartBy ty_shape cx.now.rows ty }
        ensures owned { owned cx.now.rows self.new }
        ensures broke { OwnsBreak break_owned cx.now.rows result }
        ensures result { Answers meaning hooks.on_term hooks.term_breaks
            cx.now.rows self.old (tree_by ty_shape cx.now.rows ty) result self.new };

    /// Called at each constant, before its contents.
    fn visit_const(&mut self, cx: &Interner, constant: Const) -> ControlFlow<Self::Break, Next>
        requires owned { owned cx.now.rows self.old }
        requires constant { IsPartBy const_shape cx.now.rows constant }
        ensures owned { owned cx.now.rows self.new }
        ensures broke { OwnsBreak break_owned cx.now.rows result }
        ensures result { Answers meaning hooks.on_term hooks.term_breaks
            cx.now.rows self.old (tree_by const_shape cx.now.rows constant) result self.new };

    /// Called at each predicate, before its binder, and at each clause.
    fn visit_predicate(
        &mut self,
        cx: &Interner,
        predicate: Predicate,
    ) -> ControlFlow<Self::Break, Next>
        requires owned { owned cx.now.rows self.old }
        requires predicate { IsPartBy predicate_shape cx.now.rows predicate }
        ensures owned { owned cx.now.rows self.new }
        ensures broke { OwnsBreak break_owned cx.now.rows result }
        ensures result { Answers meaning hooks.on_term hooks.term_breaks
            cx.now.rows self.old (tree_by predicate_shape cx.now.rows predicate) result self.new };

    /// Called at each list of clauses, before the clauses.
    fn visit_clauses(&mut self, cx: &Interner, clauses: Clauses) -> ControlFlow<Self::Break, Next>
        requires owned { owned cx.now.rows self.old }
        requires clauses { IsPartBy clauses_shape cx.now.rows clauses }
        ensures owned { owned cx.now.rows self.new }
        ensures broke { OwnsBreak break_owned cx.now.rows result }
        ensures result { Answers meaning hooks.on_term hooks.term_breaks
            cx.now.rows self.old (tree_by clauses_shape cx.now.rows clauses) result self.new };

    /// Called at each binder, before its value.
    fn visit_binder(&mut self, cx: &Interner, vars: BoundVarKinds) -> ControlFlow<Self::Break, Next>
        requires owned { owned cx.now.rows self.old }
        requires vars { vars.number < size cx.now.rows VarLists }
        ensures owned { owned cx.now.rows self.new }
        ensures broke { OwnsBreak break_owned cx.now.rows result }
        ensures result { Answers meaning hooks.enter hooks.enter_breaks
            cx.now.rows self.old (vars_of (meaning_of cx.now.rows VarLists vars.number)) result self.new };

    /// Called after the value of each binder at which [`TypeVisitor::visit_binder`] returned `Descend`, even after a
    /// break inside.
    fn leave_binder(&mut self, cx: &Interner, vars: BoundVarKinds)
        requires owned { owned cx.now.rows self.old }
        requires vars { vars.number < size cx.now.rows VarLists }
        ensures owned { owned cx.now.rows self.new }
        ensures result { hooks.leave (meaning cx.now.rows self.old)
            (vars_of (meaning_of cx.now.rows VarLists vars.number)) (meaning cx.now.rows self.new) };
}
