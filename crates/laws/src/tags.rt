//! Variances, closure traits and the sorts of ids.

ghost use Rattle.std.specs.Prelude.{◌≡◌, ◌↔◌, IsTrue};
ghost use Rattle.tt_index.specs.Variance.{xform_of};
ghost use Rattle.tt_kinds.specs.declared.declaration.DeclarationSort.{DeclarationSort};
ghost use Rattle.tt_interner.specs.Declarations.{IsOfSort};

use type_terms::{
    AdtId, ClosureKind, Interner, Variance, covariant_is_identity, lattice_bottom_extends,
    marks_name_their_sorts, xform_is_associative,
};

/// Returns the variance of an argument in three nested contexts: the two inner ones are joined first, and the result
/// is what a walk from the outside finds.
pub fn nested_variance(outer: Variance, middle: Variance, inner: Variance) -> Variance
    ensures { result ≡ xform_of (xform_of outer middle) inner }
{
    xform_is_associative(outer, middle, inner);
    outer.xform(middle.xform(inner))
}

/// Returns the variance of a covariant position in a context of this variance, in a covariant context: the same.
pub fn variance_of_results(variance: Variance) -> Variance
    ensures { result ≡ variance }
{
    covariant_is_identity(variance);
    Variance::Covariant
        .xform(variance)
        .xform(Variance::Covariant)
}

/// Returns whether what inference starts with allows this closure trait, which it always does.
pub fn may_become(kind: ClosureKind) -> bool
    ensures { IsTrue result }
{
    lattice_bottom_extends(kind);
    ClosureKind::LATTICE_BOTTOM.extends(kind)
}

/// Returns whether the id names a data type of the interner, by the test for ids of any mark.
pub fn owns_data_type(cx: &Interner, id: AdtId) -> bool
    ensures { IsTrue result ↔ IsOfSort cx.now.rows DeclarationSort.Adt id.number }
{
    marks_name_their_sorts();
    cx.owns_id(id)
}
