//! A user's functions that take types apart. Their contracts say that the handles are the interner's: what a kind or
//! a list holds is, so that nothing is tested.

ghost use Rattle.tt_kinds.specs.Kinds.{arg_shape, ty_shape, tys_shape};
ghost use Rattle.tt_kinds.specs.Values.{option_shape};
ghost use Rattle.tt_interner.specs.Owned.{AreOwned, IsOwned};

use super::holds_anew;
use test_terms::{NOT_OWNED, args, bound_region, pointer, ref_ty, ty, u32_ty};
use type_terms::{
    AdtId, GenericArg, InternedKind, InternedList, Interner, Owned, Refusal, Ty, TyKind, Tys,
};

// Returns the type behind all references.
fn referent(cx: &Interner, ty: Ty) -> Ty
    requires { IsOwned ty_shape cx.now ty }
    ensures { IsOwned ty_shape cx.now result }
{
    match *ty.kind(cx) {
        TyKind::Ref(_, next, _) => referent(cx, next),
        _ => ty,
    }
}

// Returns the inputs and the output of a function pointer, under its binder.
fn signature(cx: &Interner, ty: Ty) -> Option<Tys>
    requires { IsOwned ty_shape cx.now ty }
    ensures { IsOwned (option_shape tys_shape) cx.now result }
{
    match *ty.kind(cx) {
        TyKind::FnPtr(types, _) => Some(types.skip_binder().inputs_and_output),
        _ => None,
    }
}

// Returns the type at this place of the list.
fn item(cx: &Interner, list: Tys, place: usize) -> Option<Ty>
    requires { IsOwned tys_shape cx.now list }
    ensures { IsOwned (option_shape ty_shape) cx.now result }
{
    match list.as_slice(cx).get(place) {
        Some(ty) => Some(*ty),
        None => None,
    }
}

// Returns the argument at this place.
fn argument_at(cx: &Interner, args: &[GenericArg], place: usize) -> Option<GenericArg>
    requires { AreOwned arg_shape cx.now args.now }
    ensures { IsOwned (option_shape arg_shape) cx.now result }
{
    match args.get(place) {
        Some(arg) => Some(*arg),
        None => None,
    }
}

// Returns the argument of a data type at this place.
fn argument(cx: &Interner, ty: Ty, place: usize) -> Option<GenericArg>
    requires { IsOwned ty_shape cx.now ty }
    ensures { IsOwned (option_shape arg_shape) cx.now result }
{
    match *ty.kind(cx) {
        TyKind::Adt(_, args) => argument_at(cx, args.as_slice(cx), place),
        _ => None,
    }
}

// Returns the type behind the references of the first input of a function pointer.
fn first_input(cx: &Interner, ty: Ty) -> Option<Ty>
    requires { IsOwned ty_shape cx.now ty }
    ensures { IsOwned (option_shape ty_shape) cx.now result }
{
    match signature(cx, ty) {
        Some(list) => match item(cx, list, 0) {
            Some(input) => Some(referent(cx, input)),
            None => None,
        },
        None => None,
    }
}

// Two references deep in the first input, and an argument of a data type.
fn types_are_taken_apart_holds(cx: &mut Interner) -> Result<bool, Refusal> {
    let number = u32_ty(cx)?;
    let near = ref_ty(cx, bound_region(0)?, number)?;
    let far = ref_ty(cx, bound_region(1)?, near)?;
    let function = pointer(cx, &[far, near])?;
    let list = args(cx, &[GenericArg::from(near), GenericArg::from(number)])?;
    let data = ty(cx, TyKind::Adt(AdtId::from_number(0), list))?;
    if !function.is_owned(cx) || !data.is_owned(cx) {
        return Err(NOT_OWNED);
    }
    Ok(
        first_input(cx, function) == Some(number)
            && first_input(cx, data).is_none()
            && argument(cx, data, 1) == Some(GenericArg::from(number))
            && argument(cx, data, 2).is_none(),
    )
}

#[test]
fn types_are_taken_apart(rt: HostRuntime) {
    holds_anew(&rt, rt.alloc(), types_are_taken_apart_holds);
}
