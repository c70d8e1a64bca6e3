//! The flags and outer exclusive binders of kinds and lists, computed from their contents.

ghost use Rattle.std.specs.Prelude.{◌≡◌, ◌<◌, ℕ, map, Some};
ghost use Rattle.tt_index.specs.Greatest.{greatest};
ghost use Rattle.tt_kinds.specs.Bound.{var_kind};
ghost use Rattle.tt_kinds.specs.Label.{Label, list_flags, Sort, type_label, type_sort};
ghost use Rattle.tt_kinds.specs.Shape.{
  Meaning,
  fill,
  fill_all,
  item_shapes,
  AreParts,
  HasParts,
  IsTooDeep,
};
ghost use Rattle.tt_kinds.specs.Handle.{BoundVarKinds};
ghost use Rattle.tt_kinds.specs.declared.table.Table.TheVariants.{VarLists};
ghost use Rattle.tt_kinds.specs.Kinds.{
  Form,
  form_binder,
  form_parts,
  form_shape,
  relabelled,
  ty_form,
  kind_form,
  kind_sort,
  kind_shape,
  ty_kind_shape,
  const_kind_shape,
  predicate_kind_shape,
  clauses_row_shape,
  clause_shape,
  region_shape,
  child_shapes,
  parts_shapes,
};
ghost use Rattle.tt_kinds.specs.OwnFlags.{own_flags, own_reach};
ghost use Rattle.tt_kinds.specs.Range.{IndicesFitIn, IndicesFitAmong};
ghost use Rattle.tt_kinds.specs.Reading.{outer_binder};
ghost use Rattle.tt_kinds.specs.Scan.{scan};
ghost use Rattle.tt_flags.specs.FlagComputation.{computed};
ghost use Rattle.tt_interner.specs.Rows.{size, meaning};
ghost use Rattle.tt_interner.specs.Stored.{IsInfo};
ghost use Rattle.tt_interner.specs.Tables.{AreInfosOf};

use crate::flags::Flags;
use crate::interner::Interner;
use tt_flags::{FlagComputation, TypeFlags};
use tt_index::{DebruijnIndex, GREATEST_INDEX};
use tt_kinds::{
    Binder, BoundVarKinds, BoundVariableKind, Child, Clause, ConstKind, Kind, OwnFlags, Parts,
    PredicateKind, Region, TyKind,
};

/// Computes the information of terms that aren't stored yet. Every handle and name in them has to be the interner's;
/// [`Interner::owns_kind`], [`Interner::owns_const_kind`], [`Interner::owns_predicate_kind`] and
/// [`Interner::are_clauses`] test it.
pub trait ForKind {
    /// Returns the flags and the outer exclusive binder of a type of this kind. The outer exclusive binder of a bound
    /// variable with the greatest index is that index, since there is none above it.
    fn for_kind(cx: &Interner, kind: &TyKind) -> FlagComputation
        requires { HasParts (size cx.now.rows) (ty_kind_shape kind.now) }
        ensures flags { result.flags.bits ≡ scan (fill (meaning cx.now.rows) (ty_kind_shape kind.now)) }
        ensures outer { (IsTooDeep (ty_kind_shape kind.now) → ⊥)
            → IsInfo result (fill (meaning cx.now.rows) (ty_kind_shape kind.now)) }
        ensures deepest { IsTooDeep (ty_kind_shape kind.now) → result.outer_exclusive_binder ≡ greatest };

    /// Returns the flags and the outer exclusive binder of a constant of this kind. A bound variable with the greatest
    /// index is treated as by [`ForKind::for_kind`].
    fn for_const_kind(cx: &Interner, kind: &ConstKind) -> FlagComputation
        requires { HasParts (size cx.now.rows) (const_kind_shape kind.now) }
        ensures flags { result.flags.bits ≡ scan (fill (meaning cx.now.rows) (const_kind_shape kind.now)) }
        ensures outer { (IsTooDeep (const_kind_shape kind.now) → ⊥)
            → IsInfo result (fill (meaning cx.now.rows) (const_kind_shape kind.now)) }
        ensures deepest { IsTooDeep (const_kind_shape kind.now) → result.outer_exclusive_binder ≡ greatest };

    /// Returns the flags and the outer exclusive binder of a predicate under its binder.
    fn for_predicate(cx: &Interner, predicate: &Binder<PredicateKind>) -> FlagComputation
        requires { HasParts (size cx.now.rows) (predicate_kind_shape predicate.now) }
        ensures { IsInfo result (fill (meaning cx.now.rows) (predicate_kind_shape predicate.now)) };

    /// Returns the flags and the outer exclusive binder of a list of clauses.
    fn for_clauses(cx: &Interner, clauses: &[Clause]) -> FlagComputation
        requires { AreParts (size cx.now.rows) (item_shapes clause_shape clauses.now) }
        ensures { IsInfo result (fill (meaning cx.now.rows) (clauses_row_shape clauses.now)) };
}

impl ForKind for FlagComputation {
    fn for_kind(cx: &Interner, kind: &TyKind) -> FlagComputation {
        if kind.is_too_deep() {
            return deepest_info(kind.own_flags());
        }
        ty_kind_info(cx, kind)
    }

    fn for_const_kind(cx: &Interner, kind: &ConstKind) -> FlagComputation {
        if kind.is_too_deep() {
            return deepest_info(kind.own_flags());
        }
        kind_info(cx, &Kind::Const(*kind))
    }

    fn for_predicate(cx: &Interner, predicate: &Binder<PredicateKind>) -> FlagComputation {
        kind_info(cx, &Kind::Predicate(*predicate))
    }

    fn for_clauses(cx: &Interner, clauses: &[Clause]) -> FlagComputation {
        items_info(cx, clauses)
    }
}

// Returns the information of a bound variable with the greatest index.
fn deepest_info(flags: TypeFlags) -> FlagComputation
    ensures { result ≡ computed flags.bits greatest }
{
    FlagComputation {
        flags,
        outer_exclusive_binder: DebruijnIndex::from_u32(GREATEST_INDEX),
    }
}

/// Returns the information of a term of this kind.
#[inline(always)]
pub(crate) fn kind_info(cx: &Interner, kind: &Kind) -> FlagComputation
    requires parts { HasParts (size cx.now.rows) (kind_shape kind.now) }
    requires shallow { IsTooDeep (kind_shape kind.now) → ⊥ }
    ensures info { IsInfo result (fill (meaning cx.now.rows) (kind_shape kind.now)) }
    ensures fit { IndicesFitIn (kind_shape kind.now) }
{
    let own = own_info(kind);
    contents_info(cx, own, kind.bound_vars(), &kind.parts())
}

/// Returns the information of a type of this kind.
#[inline(always)]
pub(crate) fn ty_kind_info(cx: &Interner, kind: &TyKind) -> FlagComputation
    requires parts { HasParts (size cx.now.rows) (ty_kind_shape kind.now) }
    requires shallow { IsTooDeep (ty_kind_shape kind.now) → ⊥ }
    ensures info { IsInfo result (fill (meaning cx.now.rows) (ty_kind_shape kind.now)) }
    ensures fit { IndicesFitIn (ty_kind_shape kind.now) }
{
    let own = own_ty_info(kind);
    contents_info(cx, own, kind.bound_vars(), &kind.parts())
}

// Returns the information of a term, from its own information, its parts and their binder.
#[inline(always)]
fn contents_info(
    cx: &Interner,
    own: FlagComputation,
    bound_vars: Option<BoundVarKinds>,
    parts: &Parts,
) -> FlagComputation
    requires parts { AreParts (size cx.now.rows) (parts_shapes parts.now) }
    requires vars { (vars : BoundVarKinds) → bound_vars ≡ Some vars → vars.number < size cx.now.rows VarLists }
    ensures info { (sort : Sort) (form : Form (Label ℕ))
        → parts.now ≡ form_parts form
        → bound_vars ≡ form_binder form
        → own.flags.bits ≡ own_flags sort form
        → own.outer_exclusive_binder ≡ own_reach form
        → IsInfo result (fill (meaning cx.now.rows) (form_shape sort form)) }
    ensures fit { IndicesFitAmong (parts_shapes parts.now) }
{
    cx.are_rows();
    let inside = parts_info(cx, parts);
    // The parts' outer exclusive binder is an index, so at most the greatest, and each region's index is below it.
    let _fits = inside.outer_exclusive_binder.as_u32();
    match bound_vars {
        Some(vars) => own.joined(inside.under_binder(cx.info(vars).flags)),
        None => own.joined(inside),
    }
}

// Returns the information of a kind itself, without its parts.
#[inline(always)]
fn own_info(kind: &Kind) -> FlagComputation
    requires { IsTooDeep (kind_shape kind.now) → ⊥ }
    ensures flags { result.flags.bits ≡ own_flags (kind_sort kind.now) (kind_form kind.now) }
    ensures outer { result.outer_exclusive_binder ≡ own_reach (kind_form kind.now) }
{
    match kind {
        Kind::Ty(kind) => own_ty_info(kind),
        Kind::Const(kind) => FlagComputation {
            flags: kind.own_flags(),
            outer_exclusive_binder: kind.own_outer_exclusive_binder(),
        },
        Kind::Pat(_) | Kind::Predicate(_) | Kind::Existential(_) => FlagComputation::new(),
    }
}

// Returns the information of a type's kind itself, without its parts.
#[inline(always)]
fn own_ty_info(kind: &TyKind) -> FlagComputation
    requires { IsTooDeep (ty_kind_shape kind.now) → ⊥ }
    ensures flags { result.flags.bits ≡ own_flags type_sort (relabelled type_label (ty_form kind.now)) }
    ensures outer { result.outer_exclusive_binder ≡ own_reach (relabelled type_label (ty_form kind.now)) }
{
    FlagComputation {
        flags: kind.own_flags(),
        outer_exclusive_binder: kind.own_outer_exclusive_binder(),
    }
}

/// Returns the information of a region.
pub(crate) fn region_info(region: Region) -> FlagComputation
    ensures flags { (f : Meaning) → result.flags.bits ≡ scan (fill f (region_shape region)) }
    ensures outer { (f : Meaning) → result.outer_exclusive_binder ≡ outer_binder (fill f (region_shape region)) }
{
    FlagComputation {
        flags: region.kind().flags(),
        outer_exclusive_binder: region.kind().outer_exclusive_binder(),
    }
}

// Returns the information of a child; an absent child has no flags.
#[inline(always)]
#[tactic(auto, unfolding(tt_kinds::specs::Shape::fill))]
fn child_info(cx: &Interner, child: &Child) -> FlagComputation
    requires { AreParts (size cx.now.rows) (child_shapes child.now) }
    ensures { AreInfosOf result (fill_all (meaning cx.now.rows) (child_shapes child.now)) }
{
    match child {
        Child::Absent => FlagComputation::new(),
        Child::Region(region) => region_info(*region),
        Child::Stored(stored) => cx.info_in(stored.table.table(), stored.number),
    }
}

// Returns the information of the children of a kind.
#[inline(always)]
fn parts_info(cx: &Interner, parts: &Parts) -> FlagComputation
    requires { AreParts (size cx.now.rows) (parts_shapes parts.now) }
    ensures { AreInfosOf result (fill_all (meaning cx.now.rows) (parts_shapes parts.now)) }
{
    child_info(cx, &parts.first).joined(child_info(cx, &parts.second))
}

/// Returns the information of a list of these items.
pub(crate) fn items_info<T: Flags>(cx: &Interner, items: &[T]) -> FlagComputation
    requires { AreParts (size cx.now.rows) (item_shapes T.flags_shape items.now) }
    ensures { AreInfosOf result (fill_all (meaning cx.now.rows) (item_shapes T.flags_shape items.now)) }
{
    let mut all = FlagComputation::new();
    for item in items {
        let next = FlagComputation {
            flags: item.flags(cx),
            outer_exclusive_binder: item.outer_exclusive_binder(cx),
        };
        all = all.joined(next);
    }
    all
}

/// Returns the information of a list of a binder's variables.
pub(crate) fn vars_info(vars: &[BoundVariableKind]) -> FlagComputation
    ensures { result ≡ computed (list_flags (map var_kind vars.now)) 0 }
{
    match vars {
        [] => FlagComputation::new(),
        [_, ..] => FlagComputation::leaf(TypeFlags::HAS_BINDER_VARS),
    }
}
