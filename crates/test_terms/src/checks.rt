//! Values that are shifted or instantiated, and checks on a new interner.

use crate::terms::NOT_OWNED;
use std::alloc::Global;
use type_terms::{
    EarlyBinder, GenericArg, Instantiate, Interner, Owned, Refusal, TypeFoldable, are_owned,
    shift_vars,
};

// Returns the value moved into new binders.
pub fn shifted<T: Owned + TypeFoldable>(
    cx: &mut Interner,
    value: T,
    amount: u32,
) -> Result<T, Refusal> {
    if value.is_owned(cx) {
        shift_vars(cx, value, amount)
    } else {
        Err(NOT_OWNED)
    }
}

// Returns the value instantiated with these arguments.
pub fn instance<T: Owned + TypeFoldable>(
    cx: &mut Interner,
    value: T,
    args: &[GenericArg],
) -> Result<T, Refusal> {
    if value.is_owned(cx) && are_owned(cx, args) {
        let instance = EarlyBinder::bind(value).instantiate(cx, args)?;
        Ok(instance.skip_norm_wip())
    } else {
        Err(NOT_OWNED)
    }
}

// Returns whether the value, moved into new binders, is this one.
pub fn is_shifted<T: Owned + TypeFoldable + PartialEq>(
    cx: &mut Interner,
    value: T,
    amount: u32,
    moved: T,
) -> bool {
    match shifted(cx, value, amount) {
        Ok(result) => result == moved,
        Err(_) => false,
    }
}

// Returns whether the value's instance is this one.
pub fn is_instance<T: Owned + TypeFoldable + PartialEq>(
    cx: &mut Interner,
    value: T,
    args: &[GenericArg],
    used: T,
) -> bool {
    match instance(cx, value, args) {
        Ok(result) => result == used,
        Err(_) => false,
    }
}

// Returns the result of the check on this interner.
//
// An interner that is dropped implicitly takes half a minute to prove at each exit, and one given to `drop` a second.
fn answer_on<F: FnOnce(&mut Interner) -> Result<bool, Refusal>>(
    mut cx: Interner,
    check: F,
) -> Result<bool, Refusal>
    requires { F.IsAlwaysCallable check }
{
    let outcome = check(&mut cx);
    drop(cx);
    outcome
}

// Returns the result of the check on a new interner.
pub fn answer_anew<F: FnOnce(&mut Interner) -> Result<bool, Refusal> + Drop>(
    alloc: Global,
    check: F,
) -> Result<bool, Refusal>
    requires { F.IsAlwaysCallable check }
{
    answer_on(Interner::new(alloc)?, check)
}

// Returns the result of the check on a new interner with at most `limit` rows in a table.
pub fn answer_within<F: FnOnce(&mut Interner) -> Result<bool, Refusal> + Drop>(
    alloc: Global,
    limit: u32,
    check: F,
) -> Result<bool, Refusal>
    requires { F.IsAlwaysCallable check }
{
    answer_on(Interner::with_limit(alloc, limit)?, check)
}
