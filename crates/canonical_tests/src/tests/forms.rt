//! Values get numbers in place of variables, and renamed values one form.

use super::{becomes, form, holds_anew, variable};
use test_terms::{answer_within, args, pointer, tuple, ty, u32_ty};
use type_terms::{GenericArg, InferTy, IntVid, Interner, Refusal, TraitId, TraitRef, Ty, TyKind};

// `(?9, ?4, ?9)` becomes `(?0, ?1, ?0)`.
fn numbers_are_in_order_holds(cx: &mut Interner) -> Result<bool, Refusal> {
    let (four, nine) = (variable(cx, 4)?, variable(cx, 9)?);
    let (zero, one) = (variable(cx, 0)?, variable(cx, 1)?);
    let value = tuple(cx, &[nine, four, nine])?;
    let wanted = tuple(cx, &[zero, one, zero])?;
    becomes(cx, value, wanted, &[9, 4])
}

#[test]
fn numbers_are_in_order(rt: HostRuntime) {
    holds_anew(&rt, rt.alloc(), numbers_are_in_order_holds);
}

// `fn([?5], ?7) -> (?7, u32, ?2)`: list items, a pointer's types and their contents, from left to right.
fn parts_are_in_order_holds(cx: &mut Interner) -> Result<bool, Refusal> {
    let (two, five, seven) = (variable(cx, 2)?, variable(cx, 5)?, variable(cx, 7)?);
    let (zero, one) = (variable(cx, 0)?, variable(cx, 1)?);
    let number = u32_ty(cx)?;
    let slice = ty(cx, TyKind::Slice(five))?;
    let output = tuple(cx, &[seven, number, two])?;
    let value = pointer(cx, &[slice, seven, output])?;
    let slice = ty(cx, TyKind::Slice(zero))?;
    let third = variable(cx, 2)?;
    let output = tuple(cx, &[one, number, third])?;
    let wanted = pointer(cx, &[slice, one, output])?;
    becomes(cx, value, wanted, &[5, 7, 2])
}

#[test]
fn parts_are_in_order(rt: HostRuntime) {
    holds_anew(&rt, rt.alloc(), parts_are_in_order_holds);
}

// Integer variables have numbers of their own, and stay.
fn others_stay_holds(cx: &mut Interner) -> Result<bool, Refusal> {
    let number = ty(cx, TyKind::Infer(InferTy::IntVar(IntVid::from_u32(3))))?;
    let truth = ty(cx, TyKind::Bool)?;
    let value = tuple(cx, &[number, truth])?;
    becomes(cx, value, value, &[])
}

#[test]
fn others_stay(rt: HostRuntime) {
    holds_anew(&rt, rt.alloc(), others_stay_holds);
}

// Returns the type paired with itself 64 times.
fn doubled(cx: &mut Interner, inner: Ty) -> Result<Ty, Refusal> {
    let mut whole = inner;
    for _ in 0..64_u32 {
        whole = tuple(cx, &[whole, whole])?;
    }
    Ok(whole)
}

// A tree of 2^64 variables is a few rows.
fn shared_types_are_visited_once_holds(cx: &mut Interner) -> Result<bool, Refusal> {
    let (six, eight) = (variable(cx, 6)?, variable(cx, 8)?);
    let (zero, one) = (variable(cx, 0)?, variable(cx, 1)?);
    let left = doubled(cx, six)?;
    let pair = tuple(cx, &[six, eight])?;
    let right = doubled(cx, pair)?;
    let value = tuple(cx, &[left, right])?;
    let left = doubled(cx, zero)?;
    let pair = tuple(cx, &[zero, one])?;
    let right = doubled(cx, pair)?;
    let wanted = tuple(cx, &[left, right])?;
    becomes(cx, value, wanted, &[6, 8])
}

#[test]
fn shared_types_are_visited_once(rt: HostRuntime) {
    holds_anew(&rt, rt.alloc(), shared_types_are_visited_once_holds);
}

// A type of 20,000 levels.
fn deep_types_are_visited_holds(cx: &mut Interner) -> Result<bool, Refusal> {
    let (zero, three) = (variable(cx, 0)?, variable(cx, 3)?);
    let (mut value, mut wanted) = (three, zero);
    for _ in 0..20_000_u32 {
        value = ty(cx, TyKind::Slice(value))?;
        wanted = ty(cx, TyKind::Slice(wanted))?;
    }
    becomes(cx, value, wanted, &[3])
}

#[test]
fn deep_types_are_visited(rt: HostRuntime) {
    holds_anew(&rt, rt.alloc(), deep_types_are_visited_holds);
}

// `(?3, ?1)` and `(?0, ?2)` get one form, and `(?0, ?0)` another one.
fn renamed_types_are_one_holds(cx: &mut Interner) -> Result<bool, Refusal> {
    let (zero, one) = (variable(cx, 0)?, variable(cx, 1)?);
    let (two, three) = (variable(cx, 2)?, variable(cx, 3)?);
    let first = tuple(cx, &[three, one])?;
    let second = tuple(cx, &[zero, two])?;
    let third = tuple(cx, &[zero, zero])?;
    let first = form(cx, first)?.value;
    let second = form(cx, second)?.value;
    let third = form(cx, third)?.value;
    Ok(first == second && first != third)
}

#[test]
fn renamed_types_are_one(rt: HostRuntime) {
    holds_anew(&rt, rt.alloc(), renamed_types_are_one_holds);
}

// The variables of a value are numbered together: two types, arguments, and a reference to a trait.
fn values_are_numbered_as_one_holds(cx: &mut Interner) -> Result<bool, Refusal> {
    let (four, five) = (variable(cx, 4)?, variable(cx, 5)?);
    let (zero, one) = (variable(cx, 0)?, variable(cx, 1)?);
    let types = becomes(cx, (five, four), (zero, one), &[5, 4])?;
    let given = args(cx, &[GenericArg::from(five), GenericArg::from(four)])?;
    let numbered = args(cx, &[GenericArg::from(zero), GenericArg::from(one)])?;
    let arguments = becomes(cx, given, numbered, &[5, 4])?;
    let def_id = TraitId::from_number(0);
    let reference = TraitRef {
        def_id,
        args: given,
    };
    let wanted = TraitRef {
        def_id,
        args: numbered,
    };
    let references = becomes(cx, reference, wanted, &[5, 4])?;
    Ok(types && arguments && references)
}

#[test]
fn values_are_numbered_as_one(rt: HostRuntime) {
    holds_anew(&rt, rt.alloc(), values_are_numbered_as_one_holds);
}

// `[?7]` has no room for `[?0]` in a table of three types.
fn a_full_table_refuses_holds(cx: &mut Interner) -> Result<bool, Refusal> {
    let (zero, seven) = (variable(cx, 0)?, variable(cx, 7)?);
    let slice = ty(cx, TyKind::Slice(seven))?;
    let found = form(cx, zero)?.value == zero;
    let refused = match form(cx, slice) {
        Ok(_) => false,
        Err(refusal) => refusal == Refusal::TableFull,
    };
    Ok(found && refused)
}

#[test]
fn a_full_table_refuses(rt: HostRuntime) {
    assert_eq!(rt;
        answer_within(rt.alloc(), 3, a_full_table_refuses_holds),
        Ok(true)
    );
}
