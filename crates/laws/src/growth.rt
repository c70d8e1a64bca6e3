//! What stays while the interner grows.

ghost use Rattle.std.specs.Prelude.{◌≡◌, ◌<◌, IfOk, IsTrue};
ghost use Rattle.tt_kinds.specs.Kinds.{ty_shape};
ghost use Rattle.tt_kinds.specs.declared.id.DefId.{DefId};
ghost use Rattle.tt_kinds.specs.declared.table.Table.{Table};
ghost use Rattle.tt_interner.specs.Declarations.{declared_at};
ghost use Rattle.tt_interner.specs.Definitions.{IsDefined};
ghost use Rattle.tt_interner.specs.Owned.{IsOwned, tree_in};
ghost use Rattle.tt_interner.specs.Rows.{size};

use crate::NOT_OWNED;
use type_terms::{
    AdtId, DefId, InternedKind, Interner, Refusal, Symbol, TraitId, Ty, TyKind,
    growth_keeps_declarations, growth_keeps_definitions, growth_keeps_rows, growth_keeps_trees,
};

/// Returns the slice of this type. The type's own tree stays, even if the slice is refused.
pub fn slice_of(cx: &mut Interner, ty: Ty) -> Result<Ty, Refusal>
    ensures { IsOwned ty_shape cx.old ty
        → tree_in cx.new.rows (ty_shape ty) ≡ tree_in cx.old.rows (ty_shape ty) }
{
    if !cx.owns_ty(ty) {
        return Err(NOT_OWNED);
    }
    growth_keeps_trees();
    cx.mk_ty(TyKind::Slice(ty))
}

/// Returns the type's kind, as it is read before and after a slice of the type is built: the same.
pub fn kinds_around(cx: &mut Interner, ty: Ty) -> Result<(TyKind, TyKind), Refusal>
    ensures { IfOk result (λ kinds. kinds.0 ≡ kinds.1) }
{
    if !cx.owns_ty(ty) {
        return Err(NOT_OWNED);
    }
    let before = *ty.kind(cx);
    cx.mk_ty(TyKind::Slice(ty))?;
    growth_keeps_rows();
    let after = *ty.kind(cx);
    Ok((before, after))
}

/// Declares a trait. The declaration of each earlier id stays, even if the new one is refused.
pub fn declared_beside(cx: &mut Interner, id: DefId, name: Symbol) -> Result<TraitId, Refusal>
    ensures { id.number < size cx.old.rows Table.Declarations
        → declared_at cx.new.rows id ≡ declared_at cx.old.rows id }
{
    if !cx.owns_symbol(name) {
        return Err(NOT_OWNED);
    }
    growth_keeps_declarations();
    cx.declare_trait(name, 1)
}

/// Returns whether the data type is defined, after a further type was built: true if it was defined before.
pub fn is_still_defined(cx: &mut Interner, id: AdtId) -> Result<bool, Refusal>
    ensures { IfOk result (λ is_defined. IsDefined cx.old.rows id.number → IsTrue is_defined) }
{
    growth_keeps_definitions();
    cx.mk_ty(TyKind::Never)?;
    Ok(cx.is_defined(id))
}
