//! Iterators whose items are instantiated one by one, and items that are collected for a closure.

ghost use Rattle.std.specs.List.{All};
ghost use Rattle.std.specs.Prelude.{IsTrue, ◌<◌};
ghost use Rattle.tt_interner.specs.Rows.{size};
ghost use Rattle.tt_kinds.specs.declared.table.Table.TheVariants.{ArgLists, Types};

use test_terms::{NOT_OWNED, args, param_ty, tuple, ty, u32_ty};
use type_terms::{
    EarlyBinder, GenericArg, GenericArgs, Interner, IterInstantiate, IterInstantiated,
    IterInstantiatedCopied, Refusal, Ty, TyKind, UintTy, Unnormalized, are_owned,
    collect_and_apply, try_collect_and_apply,
};

// Returns whether all of the types are the interner's.
fn are_types(cx: &Interner, types: &[Ty]) -> bool
    ensures { IsTrue result → All (λ ty. ty.number < size cx.now.rows Types) types.now }
{
    types.iter().all(|ty| cx.owns_ty(*ty))
}

// Returns the instance that a step gave, if it gave one and it isn't refused.
fn instance(step: Option<Result<Unnormalized<Ty>, Refusal>>) -> Result<Option<Ty>, Refusal> {
    match step {
        Some(Ok(instance)) => Ok(Some(instance.skip_norm_wip())),
        Some(Err(refusal)) => Err(refusal),
        None => Ok(None),
    }
}

// Returns the first type's instance and the last one's.
fn first_and_last(
    cx: &mut Interner,
    types: &[Ty],
    args: GenericArgs,
) -> Result<(Option<Ty>, Option<Ty>), Refusal>
    requires args { args.number < size cx.old.rows ArgLists }
    requires types { All (λ ty. ty.number < size cx.old.rows Types) types.now }
{
    let mut iter: IterInstantiated<_, GenericArgs> = EarlyBinder::bind(
        types.iter().copied(),
    ).iter_instantiated(args);
    let first = instance(iter.next(cx))?;
    let last = instance(iter.next_back(cx))?;
    Ok((first, last))
}

// Returns how many types are left after the first one, if that one has no argument.
fn left_after_refusal(
    cx: &mut Interner,
    types: &[Ty],
    args: GenericArgs,
) -> Result<Option<usize>, Refusal>
    requires args { args.number < size cx.old.rows ArgLists }
    requires types { All (λ ty. ty.number < size cx.old.rows Types) types.now }
{
    let mut iter: IterInstantiated<_, GenericArgs> = EarlyBinder::bind(
        types.iter().copied(),
    ).iter_instantiated(args);
    match iter.next(cx) {
        Some(Err(Refusal::ArgOutOfRange { index: 1 })) => Ok(Some(iter.len())),
        Some(Err(refusal)) => Err(refusal),
        Some(Ok(_)) | None => Ok(None),
    }
}

/// The items of a declared list are instantiated from both ends, and a refused one is used up.
pub fn items_are_instantiated(cx: &mut Interner) -> Result<bool, Refusal> {
    let param = param_ty(cx, 0)?;
    let other = param_ty(cx, 1)?;
    let one = tuple(cx, &[param])?;
    let byte = ty(cx, TyKind::Uint(UintTy::U8))?;
    let number = u32_ty(cx)?;
    let instance = tuple(cx, &[number])?;
    let list = args(cx, &[GenericArg::from(number)])?;
    if !cx.owns_args(list) || !are_types(cx, &[one, byte]) {
        return Err(NOT_OWNED);
    }
    let ends = first_and_last(cx, &[one, byte], list)?;
    if !cx.owns_args(list) || !are_types(cx, &[other, byte]) {
        return Err(NOT_OWNED);
    }
    let left = left_after_refusal(cx, &[other, byte], list)?;
    Ok(ends == (Some(instance), Some(byte)) && left == Some(1))
}

// Returns the instance of the value behind the first pointer, and how many pointers are left.
fn first_pointed(
    cx: &mut Interner,
    types: &[Ty],
    args: &[GenericArg],
) -> Result<(Option<Ty>, usize), Refusal> {
    if !are_owned(cx, args) || !are_types(cx, types) {
        return Err(NOT_OWNED);
    }
    let mut iter: IterInstantiatedCopied<_> = EarlyBinder::bind(
        types.iter(),
    ).iter_instantiated_copied(args);
    let first = instance(iter.next(cx))?;
    Ok((first, iter.len()))
}

// Returns the instance of the value behind the last pointer.
fn last_pointed(
    cx: &mut Interner,
    types: &[Ty],
    args: &[GenericArg],
) -> Result<Option<Ty>, Refusal> {
    if !are_owned(cx, args) || !are_types(cx, types) {
        return Err(NOT_OWNED);
    }
    let mut iter: IterInstantiatedCopied<_> = EarlyBinder::bind(
        types.iter(),
    ).iter_instantiated_copied(args);
    instance(iter.next_back(cx))
}

/// The values behind pointers are instantiated from either end. Where there is none, there is no instance.
pub fn pointed_items_are_instantiated(cx: &mut Interner) -> Result<bool, Refusal> {
    let param = param_ty(cx, 0)?;
    let slice = ty(cx, TyKind::Slice(param))?;
    let one = tuple(cx, &[param])?;
    let number = u32_ty(cx)?;
    let list = [GenericArg::from(number)];
    let first = first_pointed(cx, &[slice, param, one], &list)?;
    let last = last_pointed(cx, &[slice, param, one], &list)?;
    let none = first_pointed(cx, &[], &list)?;
    let numbers = ty(cx, TyKind::Slice(number))?;
    let single = tuple(cx, &[number])?;
    Ok(first == (Some(numbers), 2) && last == Some(single) && none == (None, 0))
}

/// A sum of nine numbers, of none, and the first error among three.
pub fn items_are_collected(cx: &mut Interner) -> Result<bool, Refusal> {
    let sum = collect_and_apply(cx.allocator(), (1..10_u32).into_iter(), |items| {
        items
            .iter()
            .fold(0_u32, |sum, item| sum.wrapping_add(*item))
    })?;
    let none = collect_and_apply(cx.allocator(), (0..0_u32).into_iter(), |items| items.len())?;
    Ok(sum == 45 && none == 0 && is_refused_at_error(cx))
}

// Returns whether collecting stops at the second of three results, which is an error.
fn is_refused_at_error(cx: &Interner) -> bool {
    let results = (1..4_u32).into_iter().map(|n| {
        if n == 2 {
            Err(Refusal::NoArguments)
        } else {
            Ok(n)
        }
    });
    let outcome: Result<usize, Refusal> = try_collect_and_apply(
        cx.allocator(),
        results,
        |items| items.len(),
    );
    matches!(outcome, Err(Refusal::NoArguments))
}
