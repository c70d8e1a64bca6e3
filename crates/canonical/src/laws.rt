//! Laws of canonical forms.

ghost use Rattle.canonical.specs.Laws.{CanonicalFormsAreExact, OriginalsRestore};

/// Does nothing. The contract gives callers the fact that two trees have one canonical tree exactly if each is the
/// other one with its variables renamed.
pub fn law_canonical_forms_are_exact()
    ensures { CanonicalFormsAreExact }
{}

/// Does nothing. The contract gives callers the fact that a canonical tree with each number replaced by the variable
/// that it is in place of is the tree itself.
pub fn law_originals_restore()
    ensures { OriginalsRestore }
{}
