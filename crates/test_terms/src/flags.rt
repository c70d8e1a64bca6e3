//! The cached information of terms.

ghost use Rattle.std.specs.Prelude.{IsTrue};
ghost use Rattle.tt_kinds.specs.Shape.{IsPart};
ghost use Rattle.tt_interner.specs.Rows.{size};

use crate::terms::NOT_OWNED;
use type_terms::{
    BoundVarKinds, Clauses, Const, Flags, GenericArg, GenericArgs, Interner, Pat, Predicate,
    Refusal, Ty,
};

// A handle that can test whether its flags can be read in an interner.
pub trait Flagged: Flags {
    fn has_flags(&self, cx: &Interner) -> bool
        ensures { IsTrue result → IsPart (size cx.now.rows) (Self.flags_shape self.now) };
}

impl Flagged for Ty {
    fn has_flags(&self, cx: &Interner) -> bool {
        cx.owns(*self)
    }
}

impl Flagged for GenericArgs {
    fn has_flags(&self, cx: &Interner) -> bool {
        cx.owns(*self)
    }
}

impl Flagged for BoundVarKinds {
    fn has_flags(&self, cx: &Interner) -> bool {
        cx.owns(*self)
    }
}

impl Flagged for GenericArg {
    fn has_flags(&self, cx: &Interner) -> bool {
        cx.owns_arg(self)
    }
}

impl Flagged for Const {
    fn has_flags(&self, cx: &Interner) -> bool {
        cx.owns(*self)
    }
}

impl Flagged for Predicate {
    fn has_flags(&self, cx: &Interner) -> bool {
        cx.owns(*self)
    }
}

impl Flagged for Pat {
    fn has_flags(&self, cx: &Interner) -> bool {
        cx.owns(*self)
    }
}

impl Flagged for Clauses {
    fn has_flags(&self, cx: &Interner) -> bool {
        cx.owns(*self)
    }
}

// Returns the flags and the outer exclusive binder, as numbers.
pub fn info<T: Flagged>(cx: &Interner, term: &T) -> Result<(u32, u32), Refusal> {
    if term.has_flags(cx) {
        Ok((
            term.flags(cx).bits(),
            term.outer_exclusive_binder(cx).as_u32(),
        ))
    } else {
        Err(NOT_OWNED)
    }
}
