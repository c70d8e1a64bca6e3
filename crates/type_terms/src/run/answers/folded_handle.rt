//! The handles that answers hold, as values that can be folded.

ghost use Rattle.std.specs.Prelude.{◌≡◌};
ghost use Rattle.tt_kinds.specs.Shape.{stored};

use tt_calls::answers::term_handle::TermHandle;
use tt_fold::TypeFoldable;
use tt_kinds::{Clauses, Const, GenericArgs, Pat, Predicate, Ty};

/// A handle that an answer can hold, and whose term can be folded.
pub trait FoldedHandle: TermHandle + TypeFoldable {
    // What is folded is the row that the handle names.
    ghost is_stored: { (handle : Self) → Self.shape handle ≡ stored Self.table (Self.number handle) };
}

impl FoldedHandle for Ty {
    ghost use Rattle.std.specs.Prelude.{refl};

    ghost is_stored = { λ handle. refl };
}

impl FoldedHandle for Const {
    ghost use Rattle.std.specs.Prelude.{refl};

    ghost is_stored = { λ handle. refl };
}

impl FoldedHandle for Pat {
    ghost use Rattle.std.specs.Prelude.{refl};

    ghost is_stored = { λ handle. refl };
}

impl FoldedHandle for Predicate {
    ghost use Rattle.std.specs.Prelude.{refl};

    ghost is_stored = { λ handle. refl };
}

impl FoldedHandle for Clauses {
    ghost use Rattle.std.specs.Prelude.{refl};

    ghost is_stored = { λ handle. refl };
}

impl FoldedHandle for GenericArgs {
    ghost use Rattle.std.specs.Prelude.{refl};

    ghost is_stored = { λ handle. refl };
}
