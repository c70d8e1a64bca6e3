//! The flags and outer exclusive binders of values, which are cached for stored terms and lists.

ghost use Rattle.std.specs.Prelude.{◌≡◌, refl, IsTrue};
ghost use Rattle.tt_kinds.specs.Shape.{Shape, fill, stored, IsPart};
ghost use Rattle.tt_kinds.specs.Reading.{outer_binder};
ghost use Rattle.tt_kinds.specs.Scan.{scan};
ghost use Rattle.tt_interner.specs.Info.{keeps_info};
ghost use Rattle.tt_interner.specs.Rows.{size, meaning};

use crate::flag_computation::region_info;
use crate::interner::Interner;
use tt_flags::TypeFlags;
use tt_index::DebruijnIndex;
use tt_kinds::handle::{
    ArgListRow, AssumptionListRow, ClauseListRow, ClauseRow, ConstListRow, ConstRow,
    ExistentialListRow, ExistentialRow, PatternListRow, PatternRow, PredicateRow, TypeListRow,
    TypeRow, VarListRow,
};
use tt_kinds::{GenericArg, GenericArgKind, Handle, IsStored, OutlivesPredicate, Region};

/// A value whose flags and outer exclusive binder are known without a walk. Every handle and name in it has to be the
/// interner's; [`Interner::owns_ty`], [`Interner::owns_arg`] and the other tests by name test it.
pub trait Flags {
    // The contents of the value.
    ghost flags_shape: { Self → Shape };

    /// Returns the flags of the value.
    fn flags(&self, cx: &Interner) -> TypeFlags
        requires { IsPart (size cx.now.rows) (flags_shape self.now) }
        ensures { result.bits ≡ scan (fill (meaning cx.now.rows) (flags_shape self.now)) };

    /// Returns one more than the greatest index of a bound variable that escapes the value, or 0 if none escapes.
    fn outer_exclusive_binder(&self, cx: &Interner) -> DebruijnIndex
        requires { IsPart (size cx.now.rows) (flags_shape self.now) }
        ensures { result ≡ outer_binder (fill (meaning cx.now.rows) (flags_shape self.now)) };
}

/// The trait of marks whose rows have cached information, the flags and the outer exclusive binder: terms and lists.
pub trait HasInfo: IsStored {
    ghost keeps: { IsTrue (keeps_info Self.TABLE) };
}

impl HasInfo for TypeRow {
    ghost keeps = { refl };
}

impl HasInfo for ConstRow {
    ghost keeps = { refl };
}

impl HasInfo for PatternRow {
    ghost keeps = { refl };
}

impl HasInfo for PredicateRow {
    ghost keeps = { refl };
}

impl HasInfo for ClauseRow {
    ghost keeps = { refl };
}

impl HasInfo for ExistentialRow {
    ghost keeps = { refl };
}

impl HasInfo for ClauseListRow {
    ghost keeps = { refl };
}

impl HasInfo for ArgListRow {
    ghost keeps = { refl };
}

impl HasInfo for TypeListRow {
    ghost keeps = { refl };
}

impl HasInfo for ConstListRow {
    ghost keeps = { refl };
}

impl HasInfo for PatternListRow {
    ghost keeps = { refl };
}

impl HasInfo for VarListRow {
    ghost keeps = { refl };
}

impl HasInfo for ExistentialListRow {
    ghost keeps = { refl };
}

impl HasInfo for AssumptionListRow {
    ghost keeps = { refl };
}

impl<K: HasInfo> Flags for Handle<K> {
    ghost flags_shape = { λ handle. stored K.TABLE handle.number };

    #[tactic(auto, unfolding(tt_kinds::specs::Shape::fill))]
    fn flags(&self, cx: &Interner) -> TypeFlags {
        cx.info(*self).flags
    }

    #[tactic(auto, unfolding(tt_kinds::specs::Shape::fill))]
    fn outer_exclusive_binder(&self, cx: &Interner) -> DebruijnIndex {
        cx.info(*self).outer_exclusive_binder
    }
}

impl Flags for Region {
    ghost use Rattle.tt_kinds.specs.Kinds.{region_shape};

    ghost flags_shape = { region_shape };

    fn flags(&self, _cx: &Interner) -> TypeFlags {
        region_info(*self).flags
    }

    fn outer_exclusive_binder(&self, _cx: &Interner) -> DebruijnIndex {
        region_info(*self).outer_exclusive_binder
    }
}

impl Flags for GenericArg {
    ghost use Rattle.tt_kinds.specs.Kinds.{arg_shape};

    ghost flags_shape = { arg_shape };

    fn flags(&self, cx: &Interner) -> TypeFlags {
        match self.kind() {
            GenericArgKind::Lifetime(region) => region_info(region).flags,
            GenericArgKind::Type(ty) => ty.flags(cx),
            GenericArgKind::Const(constant) => constant.flags(cx),
        }
    }

    fn outer_exclusive_binder(&self, cx: &Interner) -> DebruijnIndex {
        match self.kind() {
            GenericArgKind::Lifetime(region) => region_info(region).outer_exclusive_binder,
            GenericArgKind::Type(ty) => ty.outer_exclusive_binder(cx),
            GenericArgKind::Const(constant) => constant.outer_exclusive_binder(cx),
        }
    }
}

impl Flags for OutlivesPredicate<GenericArg> {
    ghost use Rattle.tt_kinds.specs.Values.{assumption_shape};

    ghost flags_shape = { assumption_shape };

    #[tactic(auto, unfolding(tt_kinds::specs::Shape::fill))]
    fn flags(&self, cx: &Interner) -> TypeFlags {
        self.0.flags(cx).union(self.1.flags(cx))
    }

    #[tactic(auto, unfolding(tt_kinds::specs::Shape::fill))]
    fn outer_exclusive_binder(&self, cx: &Interner) -> DebruijnIndex {
        let first = self.0.outer_exclusive_binder(cx);
        first.max(self.1.outer_exclusive_binder(cx))
    }
}
