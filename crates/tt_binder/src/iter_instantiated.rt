//! Iterators that instantiate their items.

ghost use Rattle.std.specs.Prelude.{◌≡◌, IfSome};
ghost use Rattle.std.specs.Iterator.{IsFinite, MakesProgress, UpTo, size};
ghost use Rattle.std.specs.Iterator.SizeHint.{IsWithinCount};
ghost use Rattle.tt_interner.specs.Arguments.{AreArguments, arguments};
ghost use Rattle.tt_binder.specs.IterInstantiated.{GivesInstance, GivesTarget, NextIsOwned};

use crate::instantiate::Instantiate;
use crate::slice_like::SliceLike;
use std::ops::Deref;
use tt_fold::TypeFoldable;
use tt_index::Refusal;
use tt_interner::Interner;
use tt_kinds::{EarlyBinder, GenericArg, Unnormalized};

/// Values in an item's declaration, which can be iterated and instantiated one by one.
pub trait IterInstantiate<I: IntoIterator>: Sized {
    // The collection in the declaration.
    ghost declared_items: { Self → I };

    /// Returns an iterator over the items, which instantiates each with these arguments.
    fn iter_instantiated<S: SliceLike>(self, args: S) -> IterInstantiated<I::IntoIter, S>
        ensures it { I.into_iter_gives (declared_items self) result.it }
        ensures args { result.args ≡ args };

    /// Returns an iterator over the values that the items point to, which instantiates each with these arguments.
    fn iter_instantiated_copied<'a>(
        self,
        args: &'a [GenericArg],
    ) -> IterInstantiatedCopied<'a, I::IntoIter>
        ensures pointers { I.into_iter_gives (declared_items self) result.pointers }
        ensures args { result.args.now ≡ args.now };
}

impl<I: IntoIterator> IterInstantiate<I> for EarlyBinder<I> {
    ghost declared_items = { λ binder. binder.value };

    fn iter_instantiated<S: SliceLike>(self, args: S) -> IterInstantiated<I::IntoIter, S> {
        let it = self.skip_binder().into_iter();
        IterInstantiated { it, args }
    }

    fn iter_instantiated_copied<'a>(
        self,
        args: &'a [GenericArg],
    ) -> IterInstantiatedCopied<'a, I::IntoIter> {
        let pointers = self.skip_binder().into_iter();
        IterInstantiatedCopied { pointers, args }
    }
}

/// An iterator that instantiates the items of another iterator. A step may build terms, so it takes the interner.
///
/// An item whose instantiation is refused is used up: the next step takes the item after it.
#[derive(Drop)]
pub struct IterInstantiated<I, S> {
    it: I,
    args: S,
}

impl<I: Iterator, S: SliceLike> IterInstantiated<I, S> {
    /// Returns the next item, instantiated, or `None` if no item is left; then nothing is built. The handles in the
    /// arguments and in the item have to be this interner's.
    ///
    /// Returns a refusal if [`Instantiate::instantiate`] of the item does.
    pub fn next(&mut self, cx: &mut Interner) -> Option<Result<Unnormalized<I::Item>, Refusal>>
    where
        I::Item: TypeFoldable,
        requires can { I.can_next self.old.it }
        requires args { S.owned cx.old.rows self.old.args }
        requires item { NextIsOwned I.Item.shape I.next_gives cx.old.rows self.old.it }
        ensures gives { GivesInstance I.Item.shape I.next_gives
            (arguments cx.old.rows (S.items cx.old.rows self.old.args))
            self.old.it
            cx.old
            result
            self.new.it
            cx.new }
        ensures args { self.new.args ≡ self.old.args }
        ensures goes { MakesProgress I.can_next I.remaining self.old.it result self.new.it }
    {
        let item = self.it.next()?;
        Some(EarlyBinder::bind(item).instantiate(cx, self.args))
    }

    /// Returns the last item, instantiated, or `None` if no item is left; then nothing is built. The handles in the
    /// arguments and in the item have to be this interner's.
    ///
    /// Returns a refusal if [`Instantiate::instantiate`] of the item does.
    pub fn next_back(&mut self, cx: &mut Interner) -> Option<Result<Unnormalized<I::Item>, Refusal>>
    where
        I: DoubleEndedIterator,
        I::Item: TypeFoldable,
        requires can { I.can_next_back self.old.it }
        requires args { S.owned cx.old.rows self.old.args }
        requires item { NextIsOwned I.Item.shape I.next_back_gives cx.old.rows self.old.it }
        ensures gives { GivesInstance I.Item.shape I.next_back_gives
            (arguments cx.old.rows (S.items cx.old.rows self.old.args))
            self.old.it
            cx.old
            result
            self.new.it
            cx.new }
        ensures args { self.new.args ≡ self.old.args }
        ensures goes { MakesProgress I.can_next_back I.remaining self.old.it result self.new.it }
    {
        let item = self.it.next_back()?;
        Some(EarlyBinder::bind(item).instantiate(cx, self.args))
    }

    /// Returns the inner iterator's bounds on how many items are left.
    pub fn size_hint(&self) -> (usize, Option<usize>)
        ensures lower { IsWithinCount result.0 (I.remaining self.now.it) }
        ensures upper { IfSome result.1 (UpTo (I.remaining self.now.it)) }
    {
        self.it.size_hint()
    }

    /// Returns how many items are left.
    pub fn len(&self) -> usize
    where
        I: ExactSizeIterator,
        ensures finite { IsFinite (I.remaining self.now.it) }
        ensures value { result ≡ size (I.remaining self.now.it) }
    {
        self.it.len()
    }
}

/// An iterator that instantiates the values that the items of another iterator point to. A step may build terms, so it
/// takes the interner.
///
/// An item whose instantiation is refused is used up: the next step takes the item after it.
#[derive(Drop)]
pub struct IterInstantiatedCopied<'a, I> {
    pointers: I,
    args: &'a [GenericArg],
}

impl<'a, I: Iterator> IterInstantiatedCopied<'a, I>
where
    I::Item: Deref + Drop,
    <I::Item as Deref>::Target: Copy + TypeFoldable,
{
    /// Returns the value that the next item points to, instantiated, or `None` if no item is left; then nothing is
    /// built. The handles in the arguments and in the value have to be this interner's.
    ///
    /// Returns a refusal if [`Instantiate::instantiate`] of the value does.
    pub fn next(
        &mut self,
        cx: &mut Interner,
    ) -> Option<Result<Unnormalized<<I::Item as Deref>::Target>, Refusal>>
        requires can { I.can_next self.old.pointers }
        requires args { AreArguments cx.old.rows self.old.args.now }
        requires value { NextIsOwned I.Item.Target.shape (GivesTarget I.next_gives I.Item.deref_gives)
            cx.old.rows self.old.pointers }
        ensures gives { GivesInstance I.Item.Target.shape (GivesTarget I.next_gives I.Item.deref_gives)
            (arguments cx.old.rows self.old.args.now)
            self.old.pointers
            cx.old
            result
            self.new.pointers
            cx.new }
        ensures args { self.new.args.now ≡ self.old.args.now }
        ensures goes { MakesProgress I.can_next I.remaining self.old.pointers result self.new.pointers }
    {
        let pointer = self.pointers.next()?;
        let value = *pointer;
        Some(EarlyBinder::bind(value).instantiate(cx, self.args))
    }

    /// Returns the value that the last item points to, instantiated, or `None` if no item is left; then nothing is
    /// built. The handles in the arguments and in the value have to be this interner's.
    ///
    /// Returns a refusal if [`Instantiate::instantiate`] of the value does.
    pub fn next_back(
        &mut self,
        cx: &mut Interner,
    ) -> Option<Result<Unnormalized<<I::Item as Deref>::Target>, Refusal>>
    where
        I: DoubleEndedIterator,
        requires can { I.can_next_back self.old.pointers }
        requires args { AreArguments cx.old.rows self.old.args.now }
        requires value { NextIsOwned I.Item.Target.shape (GivesTarget I.next_back_gives I.Item.deref_gives)
            cx.old.rows self.old.pointers }
        ensures gives { GivesInstance I.Item.Target.shape (GivesTarget I.next_back_gives I.Item.deref_gives)
            (arguments cx.old.rows self.old.args.now)
            self.old.pointers
            cx.old
            result
            self.new.pointers
            cx.new }
        ensures args { self.new.args.now ≡ self.old.args.now }
        ensures goes { MakesProgress I.can_next_back I.remaining self.old.pointers result self.new.pointers }
    {
        let pointer = self.pointers.next_back()?;
        let value = *pointer;
        Some(EarlyBinder::bind(value).instantiate(cx, self.args))
    }

    /// Returns the inner iterator's bounds on how many items are left.
    pub fn size_hint(&self) -> (usize, Option<usize>)
        ensures lower { IsWithinCount result.0 (I.remaining self.now.pointers) }
        ensures upper { IfSome result.1 (UpTo (I.remaining self.now.pointers)) }
    {
        self.pointers.size_hint()
    }

    /// Returns how many items are left.
    pub fn len(&self) -> usize
    where
        I: ExactSizeIterator,
        ensures finite { IsFinite (I.remaining self.now.pointers) }
        ensures value { result ≡ size (I.remaining self.now.pointers) }
    {
        self.pointers.len()
    }
}
