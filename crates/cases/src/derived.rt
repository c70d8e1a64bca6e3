//! What the library makes of types: of functions, data types and aliases.

use crate::containers::type_at;
use crate::steps::Derivation;
use test_terms::{NOT_OWNED, args, ty};
use type_terms::{
    AliasTy, Answer, Binder, BoundVarKinds, DataTypes, GenericArg, InternedAlias, InternedKind,
    InternedView, Interner, Refusal, Ty, TyKind, TypeSignature, instantiate_binder,
};

/// Answers what the library makes of a type.
pub fn derived(
    cx: &mut Interner,
    answers: &[Answer],
    derivation: Derivation,
) -> Result<Answer, Refusal> {
    match derivation {
        Derivation::Signature(position) => signature(cx, type_at(answers, position)?),
        Derivation::Fields(position) => fields(cx, type_at(answers, position)?),
        Derivation::Opened(position, argument) => {
            opened(cx, type_at(answers, position)?, type_at(answers, argument)?)
        }
        Derivation::WithSelf(position, self_type) => {
            let alias = alias(cx, type_at(answers, position)?)?;
            with_self(cx, alias, type_at(answers, self_type)?)
        }
        Derivation::TraitArgs(position) => {
            let alias = alias(cx, type_at(answers, position)?)?;
            trait_args(cx, alias)
        }
        Derivation::OwnArgs(position) => {
            let alias = alias(cx, type_at(answers, position)?)?;
            own_args(cx, alias)
        }
    }
}

// Answers the type of the pointers to functions of this type's signature.
fn signature(cx: &mut Interner, of: Ty) -> Result<Answer, Refusal> {
    if !cx.owns(of) {
        return Err(NOT_OWNED);
    }
    let kind = *of.kind(cx);
    if !kind.has_fn_sig(cx) || !cx.owns_kind(&kind) {
        return Err(NOT_OWNED);
    }
    let (types, header) = kind.fn_sig(cx)?.split();
    Ok(Answer::Ty(ty(cx, TyKind::FnPtr(types, header))?))
}

// Answers the list of the types of the data type's fields.
fn fields(cx: &mut Interner, of: Ty) -> Result<Answer, Refusal> {
    if !cx.owns(of) || !cx.is_adt(of) {
        return Err(NOT_OWNED);
    }
    let fields = cx.fields_of(of)?;
    let mut types = Vec::new(cx.allocator());
    for field in &fields {
        types.push(GenericArg::from(field.ty))?;
    }
    Ok(Answer::Args(args(cx, types.as_slice())?))
}

// Answers the type outside of a binder that it is under, with the argument for the binder's variable.
fn opened(cx: &mut Interner, contents: Ty, argument: Ty) -> Result<Answer, Refusal> {
    if !cx.owns(contents) || !cx.owns(argument) {
        return Err(NOT_OWNED);
    }
    let binder = Binder::bind_with_vars(contents, BoundVarKinds::default());
    let args = [GenericArg::from(argument)];
    Ok(Answer::Ty(instantiate_binder(cx, binder, args.as_slice())?))
}

// Returns the alias that the type is.
fn alias(cx: &Interner, ty: Ty) -> Result<AliasTy, Refusal> {
    if !cx.owns(ty) {
        return Err(NOT_OWNED);
    }
    match *ty.kind(cx) {
        TyKind::Alias(alias) => Ok(alias),
        _ => Err(NOT_OWNED),
    }
}

// Answers the type of the alias with another self type.
fn with_self(cx: &mut Interner, alias: AliasTy, self_ty: Ty) -> Result<Answer, Refusal> {
    if !cx.owns(alias.args) || !cx.owns(self_ty) {
        return Err(NOT_OWNED);
    }
    let replaced = alias.with_replaced_self_ty(cx, self_ty)?;
    Ok(Answer::Ty(replaced.to_ty(cx)?))
}

// Answers the arguments of the trait that the alias is an item of.
fn trait_args(cx: &mut Interner, alias: AliasTy) -> Result<Answer, Refusal> {
    if !alias.has_trait_args(cx) {
        return Err(NOT_OWNED);
    }
    Ok(Answer::Args(alias.trait_ref(cx)?.args))
}

// Answers the alias's arguments beyond those of its trait.
fn own_args(cx: &mut Interner, alias: AliasTy) -> Result<Answer, Refusal> {
    if !alias.has_trait_args(cx) {
        return Err(NOT_OWNED);
    }
    let (_, own) = alias.trait_ref_and_own_args(cx)?;
    if !cx.owns_args_slice(own) {
        return Err(NOT_OWNED);
    }
    let items = Vec::from_slice(cx.allocator(), own.as_slice(cx))?;
    Ok(Answer::Args(args(cx, items.as_slice())?))
}
