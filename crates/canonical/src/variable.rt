//! The inference variable that a type is.

ghost use Rattle.std.specs.Prelude.{◌≡◌};
ghost use Rattle.tt_kinds.specs.Kinds.{ty_shape};
ghost use Rattle.tt_interner.specs.Owned.{IsOwned, tree_in};
ghost use Rattle.unify.specs.Resolver.{kind_variable};
ghost use Rattle.unify.specs.Substitution.{variable_in};

use tt_index::TyVid;
use tt_interner::{InternedKind, Interner};
use tt_kinds::{InferTy, Ty, TyKind};

// Returns the inference variable that the kind is, if it is one.
fn variable_in(kind: &TyKind) -> Option<TyVid>
    ensures { result ≡ kind_variable kind.now }
{
    match kind {
        TyKind::Infer(InferTy::TyVar(variable)) => Some(*variable),
        _ => None,
    }
}

/// Returns the inference variable that the type is, if it is one.
pub fn variable_of(cx: &Interner, ty: Ty) -> Option<TyVid>
    requires { IsOwned ty_shape cx.now ty }
    ensures { result ≡ variable_in (tree_in cx.now.rows (ty_shape ty)) }
{
    variable_in(ty.kind(cx))
}
