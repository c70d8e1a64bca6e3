//! The calls that declare, one for each sort.

use test_terms::NOT_OWNED;
use type_terms::{
    Binder, BoundVarKinds, DeclarationKind, DeclarationSort, DefId, EarlyBinder, FnSig, Interner,
    Refusal, Symbol,
};

// An id, and the sort of its declaration.
type Declared = (DefId, DeclarationSort);

// Declares a trait and an implementation, each with an associated type, and a function without types, all of this name.
fn parents(cx: &mut Interner, text: &str) -> Result<[Declared; 5], Refusal> {
    let name = cx.symbol(text)?;
    let trait_id = cx.declare_trait(name, 2)?;
    let name = cx.symbol(text)?;
    let assoc_ty_id = cx.declare_assoc_ty(name, trait_id)?;
    let name = cx.symbol(text)?;
    let impl_id = cx.declare_impl(name)?;
    let name = cx.symbol(text)?;
    let inherent_id = cx.declare_inherent(name, impl_id)?;
    let sig = Binder::bind_with_vars(FnSig::dummy(), BoundVarKinds::default());
    let name = cx.symbol(text)?;
    if !cx.owns_signature(&sig) {
        return Err(NOT_OWNED);
    }
    let function_id = cx.declare_function(name, EarlyBinder::bind(sig))?;
    Ok([
        (DefId::from(trait_id), DeclarationSort::Trait),
        (DefId::from(assoc_ty_id), DeclarationSort::AssocTy),
        (DefId::from(impl_id), DeclarationSort::Impl),
        (DefId::from(inherent_id), DeclarationSort::Inherent),
        (DefId::from(function_id), DeclarationSort::Fn),
    ])
}

// Declares three types, two sorts of closures and a coroutine, all of this name.
fn bodies(cx: &mut Interner, text: &str) -> Result<[Declared; 6], Refusal> {
    let name = cx.symbol(text)?;
    let opaque_id = cx.declare_opaque(name)?;
    let name = cx.symbol(text)?;
    let free_id = cx.declare_free(name)?;
    let name = cx.symbol(text)?;
    let foreign_id = cx.declare_foreign(name)?;
    let name = cx.symbol(text)?;
    let closure_id = cx.declare_closure(name)?;
    let name = cx.symbol(text)?;
    let coroutine_closure_id = cx.declare_coroutine_closure(name)?;
    let name = cx.symbol(text)?;
    let coroutine_id = cx.declare_coroutine(name)?;
    Ok([
        (DefId::from(opaque_id), DeclarationSort::Opaque),
        (DefId::from(free_id), DeclarationSort::Free),
        (DefId::from(foreign_id), DeclarationSort::Foreign),
        (DefId::from(closure_id), DeclarationSort::Closure),
        (
            DefId::from(coroutine_closure_id),
            DeclarationSort::CoroutineClosure,
        ),
        (DefId::from(coroutine_id), DeclarationSort::Coroutine),
    ])
}

// Declares two constants of this name, the second by the call for all sorts.
fn constants(cx: &mut Interner, text: &str) -> Result<[Declared; 2], Refusal> {
    let name = cx.symbol(text)?;
    let const_id = cx.declare_const(name)?;
    let name = cx.symbol(text)?;
    let other_id = cx.declare(DeclarationKind::Const, name)?;
    Ok([
        (DefId::from(const_id), DeclarationSort::Const),
        (other_id, DeclarationSort::Const),
    ])
}

// Returns whether each id is of its sort, and of this name.
fn are_named(cx: &Interner, declared: &[Declared], name: Symbol) -> bool {
    for (id, sort) in declared {
        let (id, sort) = (*id, *sort);
        if !cx.owns_id_of_sort(id, sort) || !cx.owns_def_id(id) || cx.item_name(id) != name {
            return false;
        }
    }
    true
}

// Returns whether the ids at each place differ, and all are of this name.
fn differ(cx: &Interner, first: &[Declared], second: &[Declared], name: Symbol) -> bool {
    let is_none_the_same = first
        .iter()
        .zip(second.iter())
        .all(|(one, other)| one.0 != other.0);
    is_none_the_same && are_named(cx, first, name) && are_named(cx, second, name)
}

/// Each call declares its sort by its name, and once more by another id.
pub fn sorts_are_declared(cx: &mut Interner) -> Result<bool, Refusal> {
    let first_parents = parents(cx, "same")?;
    let first_bodies = bodies(cx, "same")?;
    let consts = constants(cx, "same")?;
    let second_parents = parents(cx, "same")?;
    let second_bodies = bodies(cx, "same")?;
    let name = cx.symbol("same")?;
    Ok(
        differ(cx, &first_parents, &second_parents, name)
            && differ(cx, &first_bodies, &second_bodies, name)
            && are_named(cx, &consts, name)
            && consts[0].0 != consts[1].0,
    )
}
