//! A user's table of bindings. The contracts say that its handles are the interner's: when an entry is set or pushed,
//! and whatever the interner builds.

ghost use Rattle.std.specs.Prelude.{IfOk};
ghost use Rattle.tt_kinds.specs.Kinds.{ty_shape};
ghost use Rattle.tt_kinds.specs.Values.{option_shape};
ghost use Rattle.tt_interner.specs.Owned.{AreOwned, IsOwned};
ghost use Rattle.tt_interner.specs.Stored.{Extends};

use super::guide::Fault;
use super::holds_anew;
use test_terms::{NOT_OWNED, bound_ty, u32_ty};
use type_terms::{InferTy, Interner, Owned, Refusal, Ty, TyKind, TyVid, shift_vars};

// Returns a new variable, which is unbound.
#[tactic(auto, using(tt_interner::proofs::OwnedLaws::owned_laws))]
fn fresh(cx: &mut Interner, bindings: &mut Vec<Option<Ty>>) -> Result<Ty, Fault>
    requires { AreOwned (option_shape ty_shape) cx.old bindings.old.items }
    ensures extends { Extends cx.old cx.new }
    ensures owned { IfOk result (λ ty. IsOwned ty_shape cx.new ty) }
    ensures bindings { AreOwned (option_shape ty_shape) cx.new bindings.new.items }
{
    let number = bindings.len();
    if number >= 1_000_000 {
        return Err(Fault::Refused(Refusal::TableFull));
    }
    let vid = TyVid::from_u32(number as u32);
    let ty = cx.mk_ty(TyKind::Infer(InferTy::TyVar(vid)))?;
    bindings.push(None)?;
    Ok(ty)
}

// Binds the variable. A variable that isn't in the table stays unbound.
#[tactic(auto, using(tt_interner::proofs::OwnedLaws::owned_laws))]
fn bind(cx: &Interner, bindings: &mut Vec<Option<Ty>>, vid: TyVid, ty: Ty)
    requires ty { IsOwned ty_shape cx.now ty }
    requires bindings { AreOwned (option_shape ty_shape) cx.now bindings.old.items }
    ensures { AreOwned (option_shape ty_shape) cx.now bindings.new.items }
{
    let place = vid.as_usize();
    if place < bindings.len() {
        bindings[place] = Some(ty);
    }
}

// Returns the variable's binding.
#[tactic(auto, using(tt_interner::proofs::OwnedLaws::owned_laws))]
fn lookup(cx: &Interner, bindings: &[Option<Ty>], vid: TyVid) -> Option<Ty>
    requires { AreOwned (option_shape ty_shape) cx.now bindings.now }
    ensures { IsOwned (option_shape ty_shape) cx.now result }
{
    match bindings.get(vid.as_usize()) {
        Some(binding) => *binding,
        None => None,
    }
}

// Shifts each of the types.
#[tactic(auto, using(tt_interner::proofs::OwnedLaws::owned_laws))]
fn shift_all(cx: &mut Interner, types: &mut Vec<Ty>, amount: u32) -> Result<(), Refusal>
    requires { AreOwned ty_shape cx.old types.old.items }
    ensures extends { Extends cx.old cx.new }
    ensures owned { AreOwned ty_shape cx.new types.new.items }
{
    for place in 0..types.len() {
        let shifted = shift_vars(cx, types[place], amount)?;
        types[place] = shifted;
    }
    Ok(())
}

// Makes two variables, binds the first to a slice of the second, and reads both bindings.
#[tactic(auto, using(tt_interner::proofs::OwnedLaws::owned_laws))]
fn is_bound(cx: &mut Interner, bindings: &mut Vec<Option<Ty>>) -> Result<bool, Fault>
    requires { AreOwned (option_shape ty_shape) cx.old bindings.old.items }
{
    let first = fresh(cx, bindings)?;
    let second = fresh(cx, bindings)?;
    let slice = cx.mk_ty(TyKind::Slice(second))?;
    let (zero, one) = (TyVid::from_u32(0), TyVid::from_u32(1));
    bind(cx, bindings, zero, slice);
    Ok(
        first != second
            && bindings.len() == 2
            && lookup(cx, bindings.as_slice(), zero) == Some(slice)
            && lookup(cx, bindings.as_slice(), one).is_none(),
    )
}

fn bindings_are_kept_holds(cx: &mut Interner) -> Result<bool, Refusal> {
    let mut bindings = Vec::new(cx.allocator());
    Ok(is_bound(cx, &mut bindings) == Ok(true))
}

#[test]
fn bindings_are_kept(rt: HostRuntime) {
    holds_anew(&rt, rt.alloc(), bindings_are_kept_holds);
}

// A variable that escapes is shifted, and `u32` stays.
fn types_are_shifted_holds(cx: &mut Interner) -> Result<bool, Refusal> {
    let number = u32_ty(cx)?;
    let near = bound_ty(cx, 0)?;
    let far = bound_ty(cx, 2)?;
    let mut types = Vec::from_slice(cx.allocator(), &[number, near])?;
    if !types.is_owned(cx) {
        return Err(NOT_OWNED);
    }
    shift_all(cx, &mut types, 2)?;
    Ok(types.as_slice() == [number, far].as_slice())
}

#[test]
fn types_are_shifted(rt: HostRuntime) {
    holds_anew(&rt, rt.alloc(), types_are_shifted_holds);
}
