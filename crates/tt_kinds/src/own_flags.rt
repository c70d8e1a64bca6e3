//! The flags and the outer exclusive binder of a kind itself, without its contents.

ghost use Rattle.std.specs.Prelude.{◌≡◌, ◌↔◌, ℕ, IsTrue};
ghost use Rattle.tt_kinds.specs.Label.{Sort, type_sort, const_sort, Label, type_label, const_label};
ghost use Rattle.tt_kinds.specs.Shape.{IsTooDeep};
ghost use Rattle.tt_kinds.specs.Kinds.{Form, form_shape, relabelled, ty_form, const_form};
ghost use Rattle.tt_kinds.specs.OwnFlags.{own_flags, own_reach};

use crate::alias::AliasTyKind;
use crate::bound::BoundVarIndexKind;
use crate::const_kind::{ConstKind, InferConst};
use crate::ty_kind::{InferTy, TyKind};
use tt_flags::TypeFlags;
use tt_index::DebruijnIndex;

/// The flags and the outer exclusive binder of a kind itself, without its contents.
pub trait OwnFlags {
    ghost form: { Self → Form (Label ℕ) };

    ghost sort: { Sort };

    /// Returns whether the kind is a bound variable with the greatest index. No term of this kind is built.
    fn is_too_deep(&self) -> bool
        ensures { IsTrue result ↔ IsTooDeep (form_shape sort (form self.now)) };

    /// Returns the flags of the kind itself, without the flags of its parts.
    fn own_flags(&self) -> TypeFlags
        ensures { result.bits ≡ own_flags sort (form self.now) };

    /// Returns one more than the index of a bound variable, and 0 for every other kind and for a variable of a
    /// canonical query. [`OwnFlags::is_too_deep`] tests the condition.
    fn own_outer_exclusive_binder(&self) -> DebruijnIndex
        requires { IsTooDeep (form_shape sort (form self.now)) → ⊥ }
        ensures { result ≡ own_reach (form self.now) };
}

impl OwnFlags for TyKind {
    ghost form = { λ k. relabelled type_label (ty_form k) };

    ghost sort = { type_sort };

    fn is_too_deep(&self) -> bool {
        match self {
            TyKind::Bound(index, _) => !index.is_shallow(),
            _ => false,
        }
    }

    fn own_flags(&self) -> TypeFlags {
        match self {
            TyKind::Param(_) => TypeFlags::HAS_TY_PARAM,
            TyKind::Bound(index, _) => match index {
                BoundVarIndexKind::Bound(_) => TypeFlags::HAS_TY_BOUND,
                BoundVarIndexKind::Canonical => TypeFlags::HAS_TY_BOUND.union(
                    TypeFlags::HAS_CANONICAL_BOUND,
                ),
            },
            TyKind::Placeholder(_) => TypeFlags::HAS_TY_PLACEHOLDER,
            TyKind::Infer(variable) => match variable {
                InferTy::TyVar(_) | InferTy::IntVar(_) | InferTy::FloatVar(_) =>
                    TypeFlags::HAS_TY_INFER,
                InferTy::FreshTy(_) | InferTy::FreshIntTy(_) | InferTy::FreshFloatTy(_) =>
                    TypeFlags::HAS_TY_FRESH,
            },
            TyKind::Error(_) => TypeFlags::HAS_NON_REGION_ERROR,
            TyKind::Coroutine(_, _) => TypeFlags::HAS_TY_CORO,
            TyKind::Alias(alias) => match alias.kind {
                AliasTyKind::Projection { .. } => TypeFlags::HAS_TY_PROJECTION,
                AliasTyKind::Inherent { .. } => TypeFlags::HAS_TY_INHERENT,
                AliasTyKind::Opaque { .. } => TypeFlags::HAS_TY_OPAQUE,
                AliasTyKind::Free { .. } => TypeFlags::HAS_TY_FREE_ALIAS,
            },
            _ => TypeFlags::empty(),
        }
    }

    fn own_outer_exclusive_binder(&self) -> DebruijnIndex {
        match self {
            TyKind::Bound(index, _) => index.outer_exclusive_binder(),
            _ => DebruijnIndex::INNERMOST,
        }
    }
}

impl OwnFlags for ConstKind {
    ghost form = { λ k. relabelled const_label (const_form k) };

    ghost sort = { const_sort };

    fn is_too_deep(&self) -> bool {
        match self {
            ConstKind::Bound(index, _) => !index.is_shallow(),
            _ => false,
        }
    }

    fn own_flags(&self) -> TypeFlags {
        match self {
            ConstKind::Param(_) => TypeFlags::HAS_CT_PARAM,
            ConstKind::Infer(variable) => match variable {
                InferConst::Var(_) => TypeFlags::HAS_CT_INFER,
                InferConst::Fresh(_) => TypeFlags::HAS_CT_FRESH,
            },
            ConstKind::Bound(index, _) => match index {
                BoundVarIndexKind::Bound(_) => TypeFlags::HAS_CT_BOUND,
                BoundVarIndexKind::Canonical => TypeFlags::HAS_CT_BOUND.union(
                    TypeFlags::HAS_CANONICAL_BOUND,
                ),
            },
            ConstKind::Placeholder(_) => TypeFlags::HAS_CT_PLACEHOLDER,
            ConstKind::Unevaluated(_) => TypeFlags::HAS_CT_PROJECTION,
            ConstKind::Error(_) => TypeFlags::HAS_NON_REGION_ERROR,
            ConstKind::Value(_) | ConstKind::Expr(_) => TypeFlags::empty(),
        }
    }

    fn own_outer_exclusive_binder(&self) -> DebruijnIndex {
        match self {
            ConstKind::Bound(index, _) => index.outer_exclusive_binder(),
            _ => DebruijnIndex::INNERMOST,
        }
    }
}
