//! The visitor that tests whether bound variables agree with their binder's list.

ghost use Rattle.std.specs.Prelude.{◌≡◌, ◌<◌, ◌≤◌, ◌↔◌, [], IsTrue, List, slice_get};
ghost use Rattle.tt_kinds.specs.Bound.{const_entry, depth, region_entry, ty_entry};
ghost use Rattle.tt_kinds.specs.Kinds.{ty_shape};
ghost use Rattle.tt_kinds.specs.Label.{const_sort, region_sort, type_sort};
ghost use Rattle.tt_kinds.specs.Shape.{IsNamedKind, bound, fill};
ghost use Rattle.tt_kinds.specs.Tree.{at};
ghost use Rattle.tt_kinds.specs.declared.bound.BoundVariableKind.{BoundVariableKind};
ghost use Rattle.tt_kinds.specs.declared.table.Table.TheVariants.{VarLists};
ghost use Rattle.tt_interner.specs.Reads.{Reads};
ghost use Rattle.tt_interner.specs.Rows.{meaning, size, vars_row};
ghost use Rattle.tt_fold.specs.Memory.{OwnsMemos, memos, type_at};
ghost use Rattle.tt_fold.specs.Remember.{places};
ghost use Rattle.tt_fold.specs.Steps.{IsPartOf};
ghost use Rattle.tt_binder.specs.Validate.{Agrees, EntersOnce, ValidationIsExact, vars_at};

use std::alloc::Global;
use std::ops::ControlFlow;
use tt_fold::{Memory, look_up};
use tt_index::{BoundVar, DebruijnIndex};
use tt_interner::{Flags, InternedKind, InternedList, Interner};
use tt_kinds::{
    BoundConst, BoundRegion, BoundTy, BoundVarIndexKind, BoundVarKinds, BoundVariableKind, Clauses,
    Const, ConstKind, ErrorGuaranteed, Predicate, Region, RegionKind, Ty, TyKind,
};
use tt_visit::{Next, TypeVisitor};

/// The break value of a visit that meets a variable without its entry in the binder's list.
#[derive(Clone, Copy, Debug, PartialEq, Eq)]
pub struct WrongBoundVar;

/// A visitor that breaks at the first variable of the binder just outside of the visited value that has no entry in the
/// binder's list.
///
/// A variable has no entry if its number isn't below the length of the list, or if the list has a variable of another
/// kind, or of another name, at this number.
///
/// The visitor enters a term only if the term's outer exclusive binder says that the term holds a variable of this
/// binder or of one further out. It remembers which types it entered, and enters a type only once under each number of
/// binders. If the memory for this is refused, it enters the type again. It skips what is under more binders than an
/// index can count, since no variable there belongs to this binder.
///
/// A visitor that broke is used up, though it has the list and the binder that it began with: the types around the
/// wrong variable are remembered as entered, so it would skip them.
#[derive(Drop)]
pub struct ValidateBoundVars {
    bound_vars: BoundVarKinds,
    // the index of the binder that has the list, at the place that the visit has reached
    binder_index: DebruijnIndex,
    // each type that was entered, as its own result
    visited: Memory,
}

impl ValidateBoundVars {
    /// Returns the visitor of a value under a binder of these variables. It allocates nothing until more than eight
    /// types are remembered.
    pub fn new(alloc: Global, bound_vars: BoundVarKinds) -> ValidateBoundVars
        ensures { result ≡ record { bound_vars = bound_vars; binder_index = 0; visited = [] } }
    {
        ValidateBoundVars {
            bound_vars,
            binder_index: DebruijnIndex::INNERMOST,
            visited: Memory::new(alloc),
        }
    }

    // Returns whether a variable of this index belongs to the binder.
    fn binds(&self, index: BoundVarIndexKind) -> bool
        ensures { IsTrue result ↔ (depth index ≡ at self.now.binder_index) }
    {
        match index {
            BoundVarIndexKind::Bound(index) => index == self.binder_index,
            BoundVarIndexKind::Canonical => false,
        }
    }

    // Returns whether a term with this outer exclusive binder holds no variable of the binder.
    fn is_below(&self, outer_exclusive_binder: DebruijnIndex) -> bool
        ensures { IsTrue result ↔ (outer_exclusive_binder ≤ self.now.binder_index) }
    {
        outer_exclusive_binder <= self.binder_index
    }

    // Returns the entry of this number in the list, if there is one.
    fn entry(&self, cx: &Interner, var: BoundVar) -> Option<BoundVariableKind>
        requires { self.now.bound_vars.number < size cx.now.rows VarLists }
        ensures { (items : List BoundVariableKind)
            × Reads cx.now.rows VarLists self.now.bound_vars.number (vars_row items)
            × (result ≡ slice_get items var) }
    {
        let items = self.bound_vars.as_slice(cx);
        items.get(var.as_usize()).copied()
    }

    // Returns whether the region agrees with the list, or belongs to another binder.
    fn is_valid_region(&self, cx: &Interner, index: BoundVarIndexKind, region: BoundRegion) -> bool
        requires vars { self.now.bound_vars.number < size cx.now.rows VarLists }
        requires region { IsNamedKind (size cx.now.rows) (region_entry region).kind }
        ensures { IsTrue result ↔ Agrees (vars_at cx.now.rows self.now.bound_vars) self.now.binder_index
            (fill (meaning cx.now.rows) (bound region_sort (depth index) (region_entry region))) }
    {
        cx.are_rows();
        if !self.binds(index) {
            return true;
        }
        match self.entry(cx, region.var) {
            Some(entry) => region.agrees(entry),
            None => false,
        }
    }

    // Returns whether the type agrees with the list, or belongs to another binder.
    fn is_valid_ty(&self, cx: &Interner, index: BoundVarIndexKind, ty: BoundTy) -> bool
        requires vars { self.now.bound_vars.number < size cx.now.rows VarLists }
        ensures { IsTrue result ↔ Agrees (vars_at cx.now.rows self.now.bound_vars) self.now.binder_index
            (fill (meaning cx.now.rows) (bound type_sort (depth index) (ty_entry ty))) }
    {
        cx.are_rows();
        if !self.binds(index) {
            return true;
        }
        match self.entry(cx, ty.var) {
            Some(entry) => ty.agrees(entry),
            None => false,
        }
    }

    // Returns whether the constant agrees with the list, or belongs to another binder.
    fn is_valid_const(&self, cx: &Interner, index: BoundVarIndexKind, constant: BoundConst) -> bool
        requires vars { self.now.bound_vars.number < size cx.now.rows VarLists }
        ensures { IsTrue result ↔ Agrees (vars_at cx.now.rows self.now.bound_vars) self.now.binder_index
            (fill (meaning cx.now.rows) (bound const_sort (depth index) (const_entry constant))) }
    {
        cx.are_rows();
        if !self.binds(index) {
            return true;
        }
        match self.entry(cx, constant.var) {
            Some(entry) => constant.agrees(entry),
            None => false,
        }
    }
}

// Returns whether the visit enters a type under `under` binders: `Skip` if the type is remembered, and otherwise
// `Descend`. A type that is entered is remembered from then on, unless the memory for it is refused.
fn enter_once(cx: &Interner, visited: &mut Memory, ty: Ty, under: u32) -> Next
    requires ty { IsPartOf cx.now.rows (ty_shape ty) }
    requires visited { OwnsMemos cx.now.rows visited.old }
    ensures owned { OwnsMemos cx.now.rows visited.new }
    ensures next { EntersOnce (type_at cx.now.rows ty under)
        (places (memos cx.now.rows visited.old))
        result
        (places (memos cx.now.rows visited.new)) }
{
    match look_up(cx, visited, ty, under) {
        Some(_) => Next::Skip,
        None => {
            let _noted = visited.note(ty, under, ty);
            Next::Descend
        }
    }
}

impl TypeVisitor for ValidateBoundVars {
    type Break = WrongBoundVar;

    ghost use Rattle.std.specs.Prelude.{◌<◌};
    ghost use Rattle.tt_kinds.specs.declared.table.Table.TheVariants.{VarLists};
    ghost use Rattle.tt_interner.specs.Rows.{size};
    ghost use Rattle.tt_fold.specs.Memory.{OwnsMemos, memos};
    ghost use Rattle.tt_fold.specs.Remember.{places};
    ghost use Rattle.tt_binder.specs.Validate.{Validation, validate_hooks, vars_at};

    ghost Meaning = { Validation };

    ghost meaning = { λ rows s. record {
      vars = vars_at rows s.bound_vars;
      depth = s.binder_index;
      seen = places (memos rows s.visited);
    } };

    ghost owned = { λ rows s. (s.bound_vars.number < size rows VarLists) × OwnsMemos rows s.visited };

    ghost hooks = { validate_hooks };

    fn visit_region(&mut self, cx: &Interner, region: Region) -> ControlFlow<WrongBoundVar, ()> {
        match region.kind() {
            RegionKind::ReBound(index, variable) => {
                if self.is_valid_region(cx, index, variable) {
                    ControlFlow::Continue(())
                } else {
                    ControlFlow::Break(WrongBoundVar)
                }
            }
            _ => ControlFlow::Continue(()),
        }
    }

    fn visit_error(
        &mut self,
        _cx: &Interner,
        _error: ErrorGuaranteed,
    ) -> ControlFlow<WrongBoundVar, ()> {
        ControlFlow::Continue(())
    }

    fn visit_ty(&mut self, cx: &Interner, ty: Ty) -> ControlFlow<WrongBoundVar, Next> {
        cx.are_rows();
        if self.is_below(ty.outer_exclusive_binder(cx)) {
            return ControlFlow::Continue(Next::Skip);
        }
        match ty.kind(cx) {
            TyKind::Bound(index, variable) => {
                if self.is_valid_ty(cx, *index, *variable) {
                    ControlFlow::Continue(Next::Skip)
                } else {
                    ControlFlow::Break(WrongBoundVar)
                }
            }
            _ => {
                let under = self.binder_index.as_u32();
                ControlFlow::Continue(enter_once(cx, &mut self.visited, ty, under))
            }
        }
    }

    fn visit_const(&mut self, cx: &Interner, constant: Const) -> ControlFlow<WrongBoundVar, Next> {
        cx.are_rows();
        if self.is_below(constant.outer_exclusive_binder(cx)) {
            return ControlFlow::Continue(Next::Skip);
        }
        match constant.kind(cx) {
            ConstKind::Bound(index, variable) => {
                if self.is_valid_const(cx, *index, *variable) {
                    ControlFlow::Continue(Next::Skip)
                } else {
                    ControlFlow::Break(WrongBoundVar)
                }
            }
            _ => ControlFlow::Continue(Next::Descend),
        }
    }

    fn visit_predicate(
        &mut self,
        cx: &Interner,
        predicate: Predicate,
    ) -> ControlFlow<WrongBoundVar, Next> {
        if self.is_below(predicate.outer_exclusive_binder(cx)) {
            ControlFlow::Continue(Next::Skip)
        } else {
            ControlFlow::Continue(Next::Descend)
        }
    }

    fn visit_clauses(
        &mut self,
        cx: &Interner,
        clauses: Clauses,
    ) -> ControlFlow<WrongBoundVar, Next> {
        if self.is_below(clauses.outer_exclusive_binder(cx)) {
            ControlFlow::Continue(Next::Skip)
        } else {
            ControlFlow::Continue(Next::Descend)
        }
    }

    fn visit_binder(
        &mut self,
        _cx: &Interner,
        _vars: BoundVarKinds,
    ) -> ControlFlow<WrongBoundVar, Next> {
        if self.binder_index.can_shift_in(1) {
            self.binder_index.shift_in(1);
            ControlFlow::Continue(Next::Descend)
        } else {
            ControlFlow::Continue(Next::Skip)
        }
    }

    fn leave_binder(&mut self, _cx: &Interner, _vars: BoundVarKinds) {
        if self.binder_index.can_shift_out(1) {
            self.binder_index.shift_out(1);
        }
    }
}

/// Does nothing. The contract gives callers the fact that, if all indices in a value's tree are below the greatest, a
/// visit of the value by a new [`ValidateBoundVars`] breaks exactly if a variable disagrees with the list. After a break
/// the visitor has the list and the binder that the visit began with.
///
/// [`stored_indices_fit`](tt_interner::stored_indices_fit) says that the indices in stored terms always are. So only
/// the indices that the value has beside its handles matter, as in a region.
pub fn validation_is_exact()
    ensures { ValidationIsExact }
{}
