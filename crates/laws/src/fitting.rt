//! Types that fit: none of their indices and no binder in them is too deep.

ghost use Rattle.std.specs.Prelude.{◌<◌, ◌≤◌, ◌↔◌, IfOk, IsTrue};
ghost use Rattle.tt_kinds.specs.Kinds.{ty_shape};
ghost use Rattle.tt_kinds.specs.Reading.{Fits, FitsUnder, read};
ghost use Rattle.tt_kinds.specs.declared.table.Table.{Table};
ghost use Rattle.tt_interner.specs.Fitting.{nesting_bound};
ghost use Rattle.tt_interner.specs.Owned.{tree_in};
ghost use Rattle.tt_interner.specs.Rows.{size};

use crate::NOT_OWNED;
use type_terms::{
    Binder, Interner, Refusal, Ty, TyKind, few_rows_fit, stored_indices_fit, stored_values_fit,
    trees_fit,
};

/// An interner whose nesting bound is at most this nests no binder too deep.
pub const MOST_NESTED: u64 = 1_000_000_000;

/// An interner whose tables have at most this many rows nests no binder too deep.
pub const MOST_ROWS: u32 = 1_000_000_000;

/// Returns whether `ty` is the interner's, and so few terms are stored that it fits. The interner may have any limit.
pub fn surely_fits(cx: &Interner, ty: Ty) -> bool
    ensures exact { IsTrue result
        ↔ (ty.number < size cx.now.rows Table.Types) × (nesting_bound cx.now.rows ≤ 1000000000) }
    ensures fits { IsTrue result → Fits (read 0 (tree_in cx.now.rows (ty_shape ty))) }
{
    if !cx.owns_ty(ty) {
        return false;
    }
    if cx.nesting_bound() > MOST_NESTED {
        return false;
    }
    cx.are_rows();
    few_rows_fit();
    stored_values_fit();
    true
}

/// Returns the slice of this type, which fits. Refused with [`NOT_OWNED`] if too many terms may nest binders. The slice
/// is stored even then.
pub fn fitting_slice(cx: &mut Interner, ty: Ty) -> Result<Ty, Refusal>
    ensures { IfOk result (λ slice. Fits (read 0 (tree_in cx.new.rows (ty_shape slice)))) }
{
    if !cx.owns_ty(ty) {
        return Err(NOT_OWNED);
    }
    let slice = cx.mk_ty(TyKind::Slice(ty))?;
    if cx.nesting_bound() > MOST_NESTED {
        return Err(NOT_OWNED);
    }
    cx.are_rows();
    few_rows_fit();
    stored_values_fit();
    Ok(slice)
}

/// Returns the contents of a binder, which fit under it. Refused with [`NOT_OWNED`] if the interner's limit is too great.
pub fn fitting_contents(cx: &Interner, binder: Binder<Ty>) -> Result<Ty, Refusal>
    ensures { IfOk result (λ contents. FitsUnder 1 (read 1 (tree_in cx.now.rows (ty_shape contents)))) }
{
    let contents = binder.skip_binder();
    if !cx.owns_ty(contents) || cx.limit() > MOST_ROWS {
        return Err(NOT_OWNED);
    }
    cx.are_rows();
    few_rows_fit();
    stored_indices_fit();
    trees_fit();
    Ok(contents)
}
