//! Collecting the items of an iterator.

ghost use Rattle.std.specs.Prelude.{
  IfErr,
  IfOk,
  IfSome,
  List,
  Ok,
  length,
  map,
  ◌++◌,
  ◌∷◌,
  ◌≡◌,
  ◌≤◌,
  ◌⊎◌,
};
ghost use Rattle.std.specs.Fn.{FnOnceReturnsAt, FnOnceTakesAt};
ghost use Rattle.std.specs.Iterator.{Drains, IsFinite};
ghost use Rattle.std.specs.Result.{result_transpose};
ghost use Rattle.tt_index.specs.declared.refusal.Refusal.TheVariants.{Memory};
ghost use Rattle.tt_interner.specs.Collect.{FewFit, Fills, YieldsErr, YieldsMany, YieldsManyOk};

use crate::children::MOST_IN_PLACE;
use std::alloc::Global;
use std::mem::size_of_val;
use tt_index::Refusal;

// The size of a value, in bytes, up to which [`MOST_IN_PLACE`] values fit into memory side by side.
const MOST_BYTES: usize = isize::MAX as usize / MOST_IN_PLACE;

// Puts items into the places until these are full or no item is left. Returns how many places are filled, and the first
// item that found no place, if there is one.
pub(crate) fn fill<T: Copy + Drop, I: Iterator<Item = T>>(
    places: &mut [T],
    iter: &mut I,
) -> (usize, Option<T>)
    requires can { I.can_next iter.old }
    requires ends { IsFinite (I.remaining iter.old) }
    ensures fills { Fills I.next_gives iter.old iter.new places.new result.0 result.1 }
    ensures in_places { result.0 ≤ length places.old }
    ensures full { IfSome result.1 (λ _. length places.old ≤ length places.new) }
    ensures goes_on { IfSome result.1 (λ _. I.can_next iter.new × IsFinite (I.remaining iter.new)) }
{
    for index in 0..places.len() {
        let Some(item) = iter.next() else {
            return (index, None);
        };
        places[index] = item;
    }
    (places.len(), iter.next())
}

// Returns these items, the next one, and all that are still to come.
pub(crate) fn collected<T: Copy + Drop, I: Iterator<Item = T> + Drop>(
    alloc: Global,
    items: &[T],
    next: T,
    iter: I,
) -> Result<Vec<T>, Refusal>
    requires can { I.can_next iter }
    requires ends { IsFinite (I.remaining iter) }
    ensures ok { IfOk result (λ all. (rest : List T) × Drains I.next_gives iter rest
        × (all.items ≡ items.now ++ next ∷ rest)) }
    ensures err { IfErr result (λ e. e ≡ Memory) }
{
    let mut all = Vec::from_slice(alloc, items)?;
    all.push(next)?;
    all.extend(iter)?;
    Ok(all)
}

/// Returns the closure's answer to the slice of all items of the iterator, in order. The iterator has to end, and the
/// closure has to accept its items.
///
/// Up to eight items are collected without allocation. Refused with `Memory` if there are more and the memory for them
/// is refused; then the closure isn't called. Items so large that eight of them don't fit into memory need an
/// allocation too, but the Rust compiler accepts no array of such items.
pub fn collect_and_apply<T: Drop, R, I: Iterator<Item = T> + Drop, F: FnOnce(&[T]) -> R + Drop>(
    alloc: Global,
    iter: I,
    f: F,
) -> Result<R, Refusal>
    requires can { I.can_next iter }
    requires ends { IsFinite (I.remaining iter) }
    requires accepts { (items : List T) → Drains I.next_gives iter items → FnOnceTakesAt F.FnOnce f items }
    ensures ok { IfOk result (λ answer.
        (items : List T) × Drains I.next_gives iter items × FnOnceReturnsAt F.FnOnce f items answer) }
    ensures err { IfErr result (λ e. (e ≡ Memory) × (FewFit T.row → YieldsMany I.next_gives iter)) }
{
    try_collect_and_apply(alloc, iter.map(|item| Ok(item)), f)
}

/// Returns the closure's answer to the slice of all values of the iterator, in order, or the first error among its
/// items. At an error the closure isn't called, and no later item is taken. The iterator has to end, and the closure
/// has to accept its values.
///
/// Up to eight values are collected without allocation. If there are more and the memory for them is refused, returns
/// the error that `E` makes of `Memory`. Large values are treated as by [`collect_and_apply`].
pub fn try_collect_and_apply<
    T: Drop,
    E: From<Refusal>,
    R,
    I: Iterator<Item = Result<T, E>> + Drop,
    F: FnOnce(&[T]) -> R + Drop,
>(alloc: Global, mut iter: I, f: F) -> Result<R, E>
    requires can { I.can_next iter }
    requires ends { IsFinite (I.remaining iter) }
    requires accepts { (values : List T) → Drains I.next_gives iter (map Ok values)
        → FnOnceTakesAt F.FnOnce f values }
    ensures ok { IfOk result (λ answer.
        (values : List T) × Drains I.next_gives iter (map Ok values) × FnOnceReturnsAt F.FnOnce f values answer) }
    ensures err { IfErr result (λ e. YieldsErr I.next_gives iter e
        ⊎ (E.from_gives Memory e × (FewFit T.row → YieldsManyOk I.next_gives iter))) }
{
    let Some(t0) = next_value(&mut iter)? else {
        return Ok(f(&[]));
    };
    // The Rust compiler accepts no values of such a size in an array, and decides this test when it compiles. The proof
    // learns from the test that an array of the values fits into memory.
    if size_of_val(&t0) > MOST_BYTES {
        return apply_all(Vec::new(alloc), t0, iter, f);
    }
    let Some(t1) = next_value(&mut iter)? else {
        return Ok(f(&[t0]));
    };
    let Some(t2) = next_value(&mut iter)? else {
        return Ok(f(&[t0, t1]));
    };
    let Some(t3) = next_value(&mut iter)? else {
        return Ok(f(&[t0, t1, t2]));
    };
    let Some(t4) = next_value(&mut iter)? else {
        return Ok(f(&[t0, t1, t2, t3]));
    };
    let Some(t5) = next_value(&mut iter)? else {
        return Ok(f(&[t0, t1, t2, t3, t4]));
    };
    let Some(t6) = next_value(&mut iter)? else {
        return Ok(f(&[t0, t1, t2, t3, t4, t5]));
    };
    let Some(t7) = next_value(&mut iter)? else {
        return Ok(f(&[t0, t1, t2, t3, t4, t5, t6]));
    };
    let Some(t8) = next_value(&mut iter)? else {
        return Ok(f(&[t0, t1, t2, t3, t4, t5, t6, t7]));
    };
    let Ok(values) = Vec::from_array(alloc, [t0, t1, t2, t3, t4, t5, t6, t7]) else {
        return Err(E::from(Refusal::Memory));
    };
    apply_all(values, t8, iter, f)
}

// Returns the next value, if there is one.
fn next_value<T, E, I: Iterator<Item = Result<T, E>>>(iter: &mut I) -> Result<Option<T>, E>
    requires can { I.can_next iter.old }
    requires ends { IsFinite (I.remaining iter.old) }
    ensures steps { I.next_gives iter.old (result_transpose result) iter.new }
    ensures goes_on { IfOk result (λ value.
        IfSome value (λ _. I.can_next iter.new × IsFinite (I.remaining iter.new))) }
{
    iter.next().transpose()
}

// Returns the closure's answer to these values, the next one, and all that are still to come.
fn apply_all<
    T: Drop,
    E: From<Refusal>,
    R,
    I: Iterator<Item = Result<T, E>> + Drop,
    F: FnOnce(&[T]) -> R + Drop,
>(mut values: Vec<T>, next: T, iter: I, f: F) -> Result<R, E>
    requires can { I.can_next iter }
    requires ends { IsFinite (I.remaining iter) }
    requires accepts { (rest : List T) → Drains I.next_gives iter (map Ok rest)
        → FnOnceTakesAt F.FnOnce f (values.items ++ next ∷ rest) }
    ensures ok { IfOk result (λ answer. (rest : List T) × Drains I.next_gives iter (map Ok rest)
        × FnOnceReturnsAt F.FnOnce f (values.items ++ next ∷ rest) answer) }
    ensures err { IfErr result (λ e. YieldsErr I.next_gives iter e ⊎ E.from_gives Memory e) }
{
    if values.push(next).is_err() {
        return Err(E::from(Refusal::Memory));
    }
    for value in iter {
        if values.push(value?).is_err() {
            return Err(E::from(Refusal::Memory));
        }
    }
    Ok(f(values.as_slice()))
}
