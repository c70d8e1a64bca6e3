//! Binders and early binders: what is made of the value inside, and of its items.

ghost use Rattle.std.specs.Prelude.{IfOk, map, ◌≡◌};

use super::{holds, holds_anew};
use std::alloc::{AllocError, Global};
use test_terms::{
    NOT_OWNED, bound_region, bound_ty, one_region, param_ty, pointer, ref_ty, u32_ty,
};
use type_terms::{
    Binder, BinderExt, BoundVarKinds, EarlyBinder, EarlyBinderExt, GenericArg, Interner, Owned,
    Refusal, Region, Ty, TypeVisitableExt, Unnormalized, are_owned, instantiate_binder,
};

// What calls of a binder make of the value inside stays under the same variables. An error of the closure comes back.
#[test]
fn values_under_a_binder(rt: HostRuntime) {
    let vars = BoundVarKinds::from_number(3);
    let bound = Binder::bind_with_vars(7_u32, vars);
    assert_eq!(rt; bound.map_bound(|n| n / 2), Binder::bind_with_vars(3, vars));
    assert_eq!(rt;
        bound.map_bound_ref(|n| *n == 7),
        Binder::bind_with_vars(true, vars)
    );
    assert_eq!(rt; bound.rebind('x'), Binder::bind_with_vars('x', vars));
    let kept: Result<Binder<u32>, u32> = bound.try_map_bound(|n| if n > 6 {
        Ok(n / 2)
    } else {
        Err(n)
    });
    assert_eq!(rt; kept, Ok(Binder::bind_with_vars(3, vars)));
    let refused: Result<Binder<u32>, u32> = bound.try_map_bound(|n| if n > 7 {
        Ok(n)
    } else {
        Err(n)
    });
    assert_eq!(rt; refused, Err(7));
    assert_eq!(rt;
        Binder::bind_with_vars(Some(7_u32), vars).transpose(),
        Some(bound)
    );
    let none: Option<u32> = None;
    assert_eq!(rt; Binder::bind_with_vars(none, vars).transpose(), None);
}

// Returns whether a bound text is lent as its letters, and a bound vector as its items.
fn shown_holds(alloc: Global) -> Result<bool, Refusal> {
    let vars = BoundVarKinds::from_number(3);
    let text = Binder::bind_with_vars(String::from_str(alloc, "ab")?, vars);
    let list = Binder::bind_with_vars(vec![in alloc; 5_u32, 6]?, vars);
    let (letters, items) = (text.as_deref(), list.as_deref());
    let is_shown = letters.skip_binder() == "ab"
        && letters.bound_vars() == vars
        && items.skip_binder() == [5, 6].as_slice()
        && items.bound_vars() == vars;
    let _text = text.skip_binder();
    let _list = list.skip_binder();
    Ok(is_shown)
}

// A binder lends the value that its own value derefs to.
#[test]
fn values_are_lent(rt: HostRuntime) {
    holds(&rt, shown_holds(rt.alloc()));
}

// What the same calls of an early binder make of the value inside stays as declared. An error of the closure comes back.
#[test]
fn values_as_declared(rt: HostRuntime) {
    let declared = EarlyBinder::bind(7_u32);
    assert_eq!(rt; declared.map_bound(|n| n / 2), EarlyBinder::bind(3));
    assert_eq!(rt;
        declared.map_bound_ref(|n| *n == 7),
        EarlyBinder::bind(true)
    );
    assert_eq!(rt; declared.rebind('x'), EarlyBinder::bind('x'));
    let refused: Result<EarlyBinder<u32>, u32> = declared.try_map_bound(|n| Err(n));
    assert_eq!(rt; refused, Err(7));
    assert_eq!(rt; EarlyBinder::bind(Some(7_u32)).transpose(), Some(declared));
    assert_eq!(rt; declared.instantiate_identity(), Unnormalized::new(7));
}

// Returns the items of a declared vector, each with its parameters still to be replaced.
fn declared_items(
    alloc: Global,
    declared: EarlyBinder<Vec<u32>>,
) -> Result<Vec<EarlyBinder<u32>>, AllocError>
    ensures { IfOk result (λ items. items.items ≡ map (λ item. record { value = item }) declared.value.items) }
{
    declared.transpose_iter().collect(alloc)
}

// The items in order, from the back, mapped, in a loop, and their number. The iterators are those of the standard
// library.
#[test]
fn items_under_a_binder(rt: HostRuntime) {
    let vars = BoundVarKinds::from_number(3);
    let bound = Binder::bind_with_vars([5_u32, 6, 7], vars);
    assert_eq!(rt; bound.iter().len(), 3);
    let mut sum = 0_u64;
    for item in bound.iter() {
        assert_eq!(rt; item.bound_vars(), vars);
        sum = 10 * (sum % 1000) + u64::from(item.skip_binder() % 10);
    }
    assert_eq!(rt; sum, 567);
    assert_eq!(rt;
        bound.iter().rev().next(),
        Some(Binder::bind_with_vars(7, vars))
    );
    assert_eq!(rt; bound.iter().map(|item| item.skip_binder()).next(), Some(5));
}

// The items of a declared list, from the front and from the back, each as declared, or with its parameters as they are.
#[test]
fn items_as_declared(rt: HostRuntime) {
    let items = [5_u32, 6, 7];
    let first = match items.iter().copied().collect(rt.alloc()) {
        Ok(vector) => match declared_items(rt.alloc(), EarlyBinder::bind(vector)) {
            Ok(declared) => declared.first().copied(),
            Err(_) => None,
        },
        Err(_) => None,
    };
    assert_eq!(rt; first, Some(EarlyBinder::bind(5)));
    let declared = EarlyBinder::bind(items);
    assert_eq!(rt;
        declared.transpose_iter().next(),
        Some(EarlyBinder::bind(5))
    );
    assert_eq!(rt; declared.iter_identity().len(), 3);
    assert_eq!(rt;
        declared.iter_identity().next_back(),
        Some(Unnormalized::new(7))
    );
    let lent = EarlyBinder::bind(items.iter());
    assert_eq!(rt;
        lent.iter_identity_copied().next_back(),
        Some(Unnormalized::new(7))
    );
}

// A binder that binds nothing that occurs in the value can be taken off, and one whose value names an outer binder
// can't.
fn no_bound_vars_holds(cx: &mut Interner) -> Result<bool, Refusal> {
    let number = u32_ty(cx)?;
    let vars = one_region(cx)?;
    let reference = ref_ty(cx, bound_region(1)?, number)?;
    let param = param_ty(cx, 0)?;
    if !number.is_owned(cx) || !reference.is_owned(cx) || !param.is_owned(cx) {
        return Err(NOT_OWNED);
    }
    let open = Binder::bind_with_vars(reference, BoundVarKinds::default());
    if number.has_escaping_bound_vars(cx) {
        return Ok(false);
    }
    Ok(
        Binder::dummy(cx, number) == Binder::bind_with_vars(number, BoundVarKinds::default())
            && Binder::bind_with_vars(number, vars).no_bound_vars(cx) == Some(number)
            && open.no_bound_vars(cx) == None
            && EarlyBinder::bind(number).no_bound_vars(cx) == Some(number)
            && EarlyBinder::bind(param).no_bound_vars(cx) == None,
    )
}

#[test]
fn binders_that_bind_nothing(rt: HostRuntime) {
    holds_anew(&rt, rt.alloc(), no_bound_vars_holds);
}

// Returns what the type is outside of a binder, with these arguments for the binder's variables.
fn opened(cx: &mut Interner, ty: Ty, args: &[GenericArg]) -> Result<Ty, Refusal> {
    if !ty.is_owned(cx) || !are_owned(cx, args) {
        return Err(NOT_OWNED);
    }
    instantiate_binder(
        cx,
        Binder::bind_with_vars(ty, BoundVarKinds::default()),
        args,
    )
}

// A bound type and a bound region become their arguments, and a variable from outside loses the binder.
fn variables_are_replaced_holds(cx: &mut Interner) -> Result<bool, Refusal> {
    let number = u32_ty(cx)?;
    let own = bound_ty(cx, 0)?;
    let outer = bound_ty(cx, 1)?;
    let reference = ref_ty(cx, bound_region(0)?, outer)?;
    let opened_reference = ref_ty(cx, Region::new_static(), own)?;
    Ok(
        opened(cx, own, &[GenericArg::from(number)])? == number
            && opened(cx, reference, &[GenericArg::from(Region::new_static())])? == opened_reference
            && opened(cx, number, &[])? == number,
    )
}

// Under a further binder the argument is shifted. One that is absent, or a region for a type, is refused.
fn arguments_under_binders_hold(cx: &mut Interner) -> Result<bool, Refusal> {
    let own = bound_ty(cx, 0)?;
    let outer = bound_ty(cx, 1)?;
    let under = pointer(cx, &[outer])?;
    Ok(
        opened(cx, under, &[GenericArg::from(own)])? == under
            && opened(cx, under, &[]) == Err(Refusal::NoArguments)
            && opened(cx, under, &[GenericArg::from(Region::new_static())])
                == Err(Refusal::ArgKind { index: 0 }),
    )
}

#[test]
fn binders_are_taken_off(rt: HostRuntime) {
    holds_anew(&rt, rt.alloc(), variables_are_replaced_holds);
    holds_anew(&rt, rt.alloc(), arguments_under_binders_hold);
}
