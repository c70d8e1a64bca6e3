//! Fields and items of values, whose types have to be known.

ghost use Rattle.std.specs.Prelude.{IfOk, IfSome};
ghost use Rattle.tt_kinds.specs.Kinds.{ty_shape};
ghost use Rattle.tt_interner.specs.Owned.{IsOwned};
ghost use Rattle.tt_interner.specs.Stored.{Extends};
ghost use Rattle.unify.specs.Bindings.{IsTable};
ghost use Rattle.checker.specs.Scope.{IsScope};

use crate::declared::symbol_of;
use crate::failure::Failure;
use crate::infer::calls::{field_type, fields_of};
use crate::lookup::at;
use crate::mistake::{Mistake, Wanted, no_field, no_item, unknown_type};
use crate::scope::{Scope, let_of, operand, place_of};
use crate::types::{MOST_REFERENCES, item_type};
use tt_binder::DataTypes;
use tt_index::Mutability;
use tt_interner::{InternedKind, Interner};
use tt_kinds::{Symbol, Ty, TyKind};
use unify::Bindings;

// Returns the type of the operand as far as the outermost type is known, without the references around it.
fn known(
    cx: &Interner,
    scope: Scope<'_>,
    bindings: &Bindings,
    number: usize,
    value: usize,
) -> Result<Ty, Failure>
    requires scope { IsScope cx.now scope }
    requires table { IsTable cx.now bindings.now }
    ensures { IfOk result (λ ty. IsOwned ty_shape cx.now ty) }
{
    let ty = operand(cx, scope, number, value)?;
    let mut ty = bindings.shallow_resolve(cx, ty);
    for _ in 0..MOST_REFERENCES {
        let TyKind::Ref(_, referent, Mutability::Not) = *ty.kind(cx) else {
            return Ok(ty);
        };
        ty = bindings.shallow_resolve(cx, referent);
    }
    Ok(ty)
}

// Returns the type of the field of this name, if the type has one.
#[tactic(auto, using(crate::proofs::ClientLaws::growth_laws))]
fn field_named(cx: &mut Interner, ty: Ty, name: Symbol) -> Result<Option<Ty>, Failure>
    requires { IsOwned ty_shape cx.old ty }
    ensures extends { Extends cx.old cx.new }
    ensures owned { IfOk result (λ found. IfSome found (λ ty. IsOwned ty_shape cx.new ty)) }
{
    if !cx.is_adt(ty) {
        return Ok(None);
    }
    let fields = fields_of(cx, ty)?;
    for index in 0..fields.len() {
        if at(fields.as_slice(), index)?.name == name {
            return Ok(Some(field_type(cx, fields.as_slice(), index)?));
        }
    }
    Ok(None)
}

// Returns whether the type is an inference variable: then nothing is known of it.
fn is_unknown(cx: &Interner, ty: Ty) -> bool
    requires { IsOwned ty_shape cx.now ty }
{
    matches!(ty.kind(cx), TyKind::Infer(_))
}

/// Infers the type of a field of a value.
#[tactic(auto, using(crate::proofs::ClientLaws::growth_laws))]
pub fn infer_field(
    cx: &mut Interner,
    scope: Scope<'_>,
    bindings: &Bindings,
    number: usize,
    value: usize,
    name: usize,
) -> Result<Ty, Failure>
    requires scope { IsScope cx.old scope }
    requires table { IsTable cx.old bindings.now }
    ensures extends { Extends cx.old cx.new }
    ensures table { IsTable cx.new bindings.now }
    ensures owned { IfOk result (λ ty. IsOwned ty_shape cx.new ty) }
{
    let whole = known(cx, scope, bindings, number, value)?;
    let place = place_of(scope, number)?;
    if is_unknown(cx, whole) {
        let place = place_of(scope, value)?;
        let binding = let_of(scope, value);
        let cause = unknown_type(cx, bindings, whole, Wanted::Type, binding)?;
        return Err(Failure::Wrong(Mistake { place, cause }));
    }
    let symbol = symbol_of(cx, scope.program, name)?;
    match field_named(cx, whole, symbol)? {
        Some(ty) => Ok(ty),
        None => {
            let cause = no_field(cx, scope.program, bindings, whole, name)?;
            Err(Failure::Wrong(Mistake { place, cause }))
        }
    }
}

/// Infers the type of an item of a tuple.
#[tactic(auto, using(crate::proofs::ClientLaws::growth_laws))]
pub fn infer_item(
    cx: &mut Interner,
    scope: Scope<'_>,
    bindings: &Bindings,
    number: usize,
    value: usize,
    item: usize,
) -> Result<Ty, Failure>
    requires scope { IsScope cx.old scope }
    requires table { IsTable cx.old bindings.now }
    ensures extends { Extends cx.old cx.new }
    ensures table { IsTable cx.new bindings.now }
    ensures owned { IfOk result (λ ty. IsOwned ty_shape cx.new ty) }
{
    let whole = known(cx, scope, bindings, number, value)?;
    let place = place_of(scope, number)?;
    if is_unknown(cx, whole) {
        let place = place_of(scope, value)?;
        let binding = let_of(scope, value);
        let cause = unknown_type(cx, bindings, whole, Wanted::Type, binding)?;
        return Err(Failure::Wrong(Mistake { place, cause }));
    }
    match item_type(cx, whole, item) {
        Some(ty) => Ok(ty),
        None => {
            let cause = no_item(cx, bindings, whole, item)?;
            Err(Failure::Wrong(Mistake { place, cause }))
        }
    }
}
