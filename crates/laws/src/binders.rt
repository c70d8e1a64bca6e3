//! Variables and the lists of their binders.

ghost use Rattle.std.specs.Prelude.{◌≡◌, ◌↔◌, IfSome, IsTrue};
ghost use Rattle.tt_kinds.specs.Kinds.{ty_shape};
ghost use Rattle.tt_kinds.specs.declared.bound.BoundVariableKind.TheVariants as variable;
ghost use Rattle.tt_interner.specs.Owned.{tree_in};
ghost use Rattle.tt_binder.specs.Validate.{Agrees, vars_at};

use std::ops::ControlFlow;
use type_terms::{
    Binder, BoundConst, BoundRegion, BoundTy, BoundVariableKind, Interner, Owned, Ty,
    TypeVisitable, ValidateBoundVars, stored_indices_fit, validation_is_exact,
};

/// Returns whether each variable of the binder agrees with the binder's list, or `None` if the binder isn't the
/// interner's.
pub fn agrees(cx: &Interner, binder: Binder<Ty>) -> Option<bool>
    ensures { IfSome result (λ agrees. IsTrue agrees
        ↔ Agrees (vars_at cx.now.rows binder.bound_vars) 0 (tree_in cx.now.rows (ty_shape binder.value))) }
{
    if !binder.is_owned(cx) {
        return None;
    }
    cx.are_rows();
    stored_indices_fit();
    validation_is_exact();
    let mut visitor = ValidateBoundVars::new(cx.allocator(), binder.bound_vars());
    match binder.skip_binder().visit_with(cx, &mut visitor) {
        ControlFlow::Break(_) => Some(false),
        ControlFlow::Continue(_) => Some(true),
    }
}

/// Returns whether the list's entry agrees with the region. If so, a caller may rely on it from there on.
pub fn is_entry_of_region(region: BoundRegion, entry: BoundVariableKind) -> bool
    ensures { IsTrue result ↔ (entry ≡ variable.Region region.kind) }
{
    let (same, listed) = (region, entry);
    if !same.agrees(listed) {
        return false;
    }
    region.assert_eq(entry);
    true
}

/// Returns whether the list's entry agrees with the type. If so, a caller may rely on it from there on.
pub fn is_entry_of_ty(ty: BoundTy, entry: BoundVariableKind) -> bool
    ensures { IsTrue result ↔ (entry ≡ variable.Ty ty.kind) }
{
    let (same, listed) = (ty, entry);
    if !same.agrees(listed) {
        return false;
    }
    ty.assert_eq(entry);
    true
}

/// Returns whether the list's entry agrees with the constant. If so, a caller may rely on it from there on.
pub fn is_entry_of_const(constant: BoundConst, entry: BoundVariableKind) -> bool
    ensures { IsTrue result ↔ (entry ≡ variable.Const) }
{
    let (same, listed) = (constant, entry);
    if !same.agrees(listed) {
        return false;
    }
    let checked = entry;
    constant.assert_eq(checked);
    entry.expect_const();
    true
}
