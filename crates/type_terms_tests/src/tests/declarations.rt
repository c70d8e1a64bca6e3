//! Declarations: the call for each sort, and the test by name of the ids of each sort.

use super::holds_anew;
use test_terms::NOT_OWNED;
use type_terms::{
    AdtId, Binder, BoundVarKinds, ClosureId, CoroutineClosureId, CoroutineId, DeclarationKind,
    DefId, EarlyBinder, FnSig, ForeignId, FreeTyAliasId, FunctionId, ImplId, InherentAssocTyId,
    InternedText, Interner, OpaqueTyId, Refusal, TraitAssocTyId, TraitId, UnevaluatedConstId,
};

// Returns whether the id has this number, and its declaration this kind and this name.
fn is_declared(cx: &Interner, id: DefId, number: u32, kind: DeclarationKind, name: &str) -> bool {
    if !cx.owns_def_id(id) {
        return false;
    }
    let (declared, text) = (cx.declaration(id), cx.item_name(id));
    id.number() == number
        && declared.kind == kind
        && declared.name == text
        && cx.owns_symbol(text)
        && text.as_str(cx) == name
}

// A trait of two parameters, its associated type, an implementation and its associated type are the declarations 0 to 3,
// each with its name.
fn traits_hold(cx: &mut Interner) -> Result<bool, Refusal> {
    let name = cx.symbol("Shape")?;
    let trait_id = cx.declare_trait(name, 2)?;
    let name = cx.symbol("Area")?;
    let assoc_ty_id = cx.declare_assoc_ty(name, trait_id)?;
    let name = cx.symbol("Shapes")?;
    let impl_id = cx.declare_impl(name)?;
    let name = cx.symbol("Side")?;
    let inherent_id = cx.declare_inherent(name, impl_id)?;
    let of_trait = DeclarationKind::AssocTy(TraitId::from_number(0));
    let of_impl = DeclarationKind::Inherent(ImplId::from_number(2));
    let a_trait = DeclarationKind::Trait { params: 2 };
    Ok(
        is_declared(cx, DefId::from(trait_id), 0, a_trait, "Shape")
            && is_declared(cx, DefId::from(assoc_ty_id), 1, of_trait, "Area")
            && is_declared(cx, DefId::from(impl_id), 2, DeclarationKind::Impl, "Shapes")
            && is_declared(cx, DefId::from(inherent_id), 3, of_impl, "Side"),
    )
}

// After four declarations, a struct, a function without types, an opaque type, an alias and a foreign type are the
// declarations 4 to 8, each with its name.
fn types_hold(cx: &mut Interner) -> Result<bool, Refusal> {
    let name = cx.symbol("Square")?;
    let adt_id = cx.declare_adt(name)?;
    let sig = Binder::bind_with_vars(FnSig::dummy(), BoundVarKinds::default());
    if !cx.owns_signature(&sig) {
        return Err(NOT_OWNED);
    }
    let name = cx.symbol("grow")?;
    let function_id = cx.declare_function(name, EarlyBinder::bind(sig))?;
    let name = cx.symbol("Hidden")?;
    let opaque_id = cx.declare_opaque(name)?;
    let name = cx.symbol("Short")?;
    let free_id = cx.declare_free(name)?;
    let name = cx.symbol("File")?;
    let foreign_id = cx.declare_foreign(name)?;
    let function = DeclarationKind::Fn(EarlyBinder::bind(sig));
    Ok(
        is_declared(cx, DefId::from(adt_id), 4, DeclarationKind::Adt, "Square")
            && is_declared(cx, DefId::from(function_id), 5, function, "grow")
            && is_declared(
                cx,
                DefId::from(opaque_id),
                6,
                DeclarationKind::Opaque,
                "Hidden",
            )
            && is_declared(cx, DefId::from(free_id), 7, DeclarationKind::Free, "Short")
            && is_declared(
                cx,
                DefId::from(foreign_id),
                8,
                DeclarationKind::Foreign,
                "File",
            ),
    )
}

// After nine declarations, the two sorts of closures, a coroutine, a constant and a parameter are the declarations 9 to
// 13, all of the same name.
fn bodies_hold(cx: &mut Interner) -> Result<bool, Refusal> {
    let name = cx.symbol("each")?;
    let closure_id = cx.declare_closure(name)?;
    let name = cx.symbol("each")?;
    let coroutine_closure_id = cx.declare_coroutine_closure(name)?;
    let name = cx.symbol("each")?;
    let coroutine_id = cx.declare_coroutine(name)?;
    let name = cx.symbol("each")?;
    let const_id = cx.declare_const(name)?;
    let name = cx.symbol("each")?;
    let param_id = cx.declare_param(name)?;
    let (lazy, coroutine) = (
        DeclarationKind::CoroutineClosure,
        DeclarationKind::Coroutine,
    );
    Ok(
        is_declared(
            cx,
            DefId::from(closure_id),
            9,
            DeclarationKind::Closure,
            "each",
        ) && is_declared(cx, DefId::from(coroutine_closure_id), 10, lazy, "each")
            && is_declared(cx, DefId::from(coroutine_id), 11, coroutine, "each")
            && is_declared(
                cx,
                DefId::from(const_id),
                12,
                DeclarationKind::Const,
                "each",
            )
            && is_declared(cx, param_id, 13, DeclarationKind::Param, "each"),
    )
}

// Returns what the tests of ids say of this number, in the order in which the checks above declare their sorts.
fn owned(cx: &Interner, number: u32) -> [bool; 13] {
    [
        cx.owns_trait_id(TraitId::from_number(number)),
        cx.owns_trait_assoc_ty_id(TraitAssocTyId::from_number(number)),
        cx.owns_impl_id(ImplId::from_number(number)),
        cx.owns_inherent_assoc_ty_id(InherentAssocTyId::from_number(number)),
        cx.owns_adt_id(AdtId::from_number(number)),
        cx.owns_function_id(FunctionId::from_number(number)),
        cx.owns_opaque_ty_id(OpaqueTyId::from_number(number)),
        cx.owns_free_ty_alias_id(FreeTyAliasId::from_number(number)),
        cx.owns_foreign_id(ForeignId::from_number(number)),
        cx.owns_closure_id(ClosureId::from_number(number)),
        cx.owns_coroutine_closure_id(CoroutineClosureId::from_number(number)),
        cx.owns_coroutine_id(CoroutineId::from_number(number)),
        cx.owns_unevaluated_const_id(UnevaluatedConstId::from_number(number)),
    ]
}

// Returns the answers of which the one at this place alone is yes, or none if there is no such place.
fn alone(place: u32) -> [bool; 13] {
    let mut answers = [false; 13];
    if place < 13 {
        answers[place as usize] = true;
    }
    answers
}

// Of the tests of ids, the one of its sort alone holds of each declaration. None holds of a parameter, the declaration 13,
// or of 14, which isn't declared; and before the declarations none holds at all.
fn sorts_are_told_apart_holds(cx: &mut Interner) -> Result<bool, Refusal> {
    let is_new = owned(cx, 0) == alone(13) && owned(cx, 12) == alone(13);
    let are_declared = traits_hold(cx)? && types_hold(cx)? && bodies_hold(cx)?;
    for number in 0..15_u32 {
        if owned(cx, number) != alone(number) {
            return Ok(false);
        }
    }
    Ok(is_new && are_declared)
}

// The call for all sorts declares a trait of three parameters, a function and a constant under one name, with three ids.
fn any_sort_holds(cx: &mut Interner) -> Result<bool, Refusal> {
    let name = cx.symbol("same")?;
    let a_trait = DeclarationKind::Trait { params: 3 };
    let trait_id = cx.declare(a_trait, name)?;
    let sig = Binder::bind_with_vars(FnSig::dummy(), BoundVarKinds::default());
    if !cx.owns_signature(&sig) {
        return Err(NOT_OWNED);
    }
    let name = cx.symbol("same")?;
    let function = DeclarationKind::Fn(EarlyBinder::bind(sig));
    let function_id = cx.declare(function, name)?;
    let name = cx.symbol("same")?;
    let const_id = cx.declare(DeclarationKind::Const, name)?;
    Ok(
        is_declared(cx, trait_id, 0, a_trait, "same")
            && is_declared(cx, function_id, 1, function, "same")
            && is_declared(cx, const_id, 2, DeclarationKind::Const, "same")
            && cx.owns_trait_id(TraitId::from_number(0))
            && cx.owns_function_id(FunctionId::from_number(1))
            && cx.owns_unevaluated_const_id(UnevaluatedConstId::from_number(2)),
    )
}

#[test]
fn declarations_of_each_sort(rt: HostRuntime) {
    holds_anew(&rt, rt.alloc(), sorts_are_told_apart_holds);
    holds_anew(&rt, rt.alloc(), any_sort_holds);
}
