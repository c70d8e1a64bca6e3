//! Items of a program's lists, by their numbers.

ghost use Rattle.std.specs.Prelude.{◌≡◌, ◌<◌, IfOk, Some, slice_get};
ghost use Rattle.std.specs.String.{string_bytes};
ghost use Rattle.std.specs.declared.alloc.Global.{Global};
ghost use Rattle.std.specs.declared.string.String.{String};
ghost use Rattle.tt_interner.specs.Owned.{AreOwned, IsOwned};
ghost use Rattle.tt_kinds.specs.Kinds.{ty_shape};
ghost use Rattle.checker.specs.Items.{AreTypesBefore};
ghost use Rattle.checker.specs.Written.{part};

use crate::failure::Failure;
use checker_syntax::program::{Program, Span};
use tt_interner::Interner;
use tt_kinds::Ty;

/// Returns the item of this number.
pub fn at<T: Copy>(list: &[T], number: usize) -> Result<T, Failure>
    ensures { IfOk result (λ item. slice_get list.now number ≡ Some item) }
{
    match list.get(number) {
        Some(item) => Ok(*item),
        None => Err(Failure::Malformed),
    }
}

/// Returns the type of this number.
#[tactic(auto, using(tt_interner::proofs::OwnedLaws::item_owned))]
pub fn type_at(cx: &Interner, types: &[Ty], number: usize) -> Result<Ty, Failure>
    requires { AreOwned ty_shape cx.now types.now }
    ensures is { IfOk result (λ ty. slice_get types.now number ≡ Some ty) }
    ensures owned { IfOk result (λ ty. IsOwned ty_shape cx.now ty) }
{
    let ty = at(types, number)?;
    Ok(ty)
}

/// Returns the type of this number, which is below the limit.
pub fn type_before(cx: &Interner, types: &[Ty], limit: usize, number: usize) -> Result<Ty, Failure>
    requires { AreOwned ty_shape cx.now types.now }
    ensures before { IfOk result (λ _. number < limit) }
    ensures is { IfOk result (λ ty. slice_get types.now number ≡ Some ty) }
    ensures owned { IfOk result (λ ty. IsOwned ty_shape cx.now ty) }
{
    if number < limit {
        type_at(cx, types, number)
    } else {
        Err(Failure::Malformed)
    }
}

/// Returns the types of these numbers, which are below the limit.
#[tactic(auto, using(tt_interner::proofs::OwnedLaws::owned_laws))]
pub fn types_before(
    cx: &Interner,
    types: &[Ty],
    limit: usize,
    numbers: &[usize],
) -> Result<Vec<Ty>, Failure>
    requires { AreOwned ty_shape cx.now types.now }
    ensures owned { IfOk result (λ found. AreOwned ty_shape cx.now found.items) }
    ensures are { IfOk result (λ found. AreTypesBefore types.now limit numbers.now found.items) }
{
    let mut found = Vec::new(cx.allocator());
    for index in 0..numbers.len() {
        found.push(type_before(cx, types, limit, numbers[index])?)?;
    }
    Ok(found)
}

/// Returns the numbers of this part of the list.
pub fn part_of(list: &[usize], span: Span) -> Result<&[usize], Failure>
    ensures { IfOk result (λ numbers. numbers.now ≡ part list.now span) }
{
    if span.start <= span.end && span.end <= list.len() {
        Ok(&list[span.start..span.end])
    } else {
        Err(Failure::Malformed)
    }
}

/// Returns the name of this number.
pub fn name_of(program: &Program, number: usize) -> Result<&str, Failure>
    ensures { IfOk result (λ text. (name : String Global)
        × (slice_get program.now.names.items number ≡ Some name)
        × (text.now ≡ string_bytes name)) }
{
    match program.names.get(number) {
        Some(name) => Ok(name.as_str()),
        None => Err(Failure::Malformed),
    }
}
