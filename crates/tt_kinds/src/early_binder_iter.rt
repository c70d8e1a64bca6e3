//! The iterators over an early binder's items.

ghost use Rattle.tt_kinds.specs.EarlyBinderIter.{GivesCopied, GivesEarly, GivesMarked, RunsCopied, RunsEarly, RunsMarked};

use crate::binder::{EarlyBinder, Unnormalized};
use std::ops::Deref;

/// An iterator over a declared value's items, each with its parameters still to be replaced.
/// [`EarlyBinder::transpose_iter`] returns it.
#[derive(Drop)]
pub struct EarlyBinderIter<T> {
    t: T,
}

/// An iterator over a declared value's items, each as it is declared. [`EarlyBinder::iter_identity`] returns it.
#[derive(Drop)]
pub struct IterIdentity<I> {
    iter: I,
}

/// An iterator over what a declared value's items dereference to, each as it is declared.
/// [`EarlyBinder::iter_identity_copied`] returns it.
#[derive(Drop)]
pub struct IterIdentityCopied<I> {
    it: I,
}

impl<T: IntoIterator> EarlyBinder<T> {
    /// Returns an iterator over the value's items, each with its parameters still to be replaced.
    pub fn transpose_iter(self) -> EarlyBinderIter<T::IntoIter>
        ensures t { T.into_iter_gives self.value result.t }
        ensures runs { RunsEarly T.IntoIter.next_gives result }
    {
        EarlyBinderIter {
            t: self.skip_binder().into_iter(),
        }
    }

    /// Returns an iterator over the value's items, each with its parameters replaced by themselves.
    pub fn iter_identity(self) -> IterIdentity<T::IntoIter>
        ensures iter { T.into_iter_gives self.value result.iter }
        ensures runs { RunsMarked T.IntoIter.next_gives result }
    {
        IterIdentity {
            iter: self.skip_binder().into_iter(),
        }
    }

    /// Returns an iterator over what the value's items dereference to, each with its parameters replaced by themselves.
    pub fn iter_identity_copied(self) -> IterIdentityCopied<T::IntoIter>
    where
        T::Item: Deref,
        <T::Item as Deref>::Target: Copy,
        ensures it { T.into_iter_gives self.value result.it }
        ensures runs { RunsCopied T.IntoIter.next_gives T.Item.deref_gives result }
    {
        IterIdentityCopied {
            it: self.skip_binder().into_iter(),
        }
    }
}

impl<T: Iterator> Iterator for EarlyBinderIter<T> {
    type Item = EarlyBinder<T::Item>;

    ghost can_next = { λ s. T.can_next s.t };

    ghost next_gives = { GivesEarly T.next_gives };

    ghost remaining = { λ s. T.remaining s.t };

    fn next(&mut self) -> Option<EarlyBinder<T::Item>> {
        let value = self.t.next()?;
        Some(EarlyBinder::bind(value))
    }

    fn size_hint(&self) -> (usize, Option<usize>) {
        self.t.size_hint()
    }
}

impl<I: Iterator> Iterator for IterIdentity<I> {
    type Item = Unnormalized<I::Item>;

    ghost can_next = { λ s. I.can_next s.iter };

    ghost next_gives = { GivesMarked I.next_gives };

    ghost remaining = { λ s. I.remaining s.iter };

    fn next(&mut self) -> Option<Unnormalized<I::Item>> {
        let value = self.iter.next()?;
        Some(Unnormalized::new(value))
    }

    fn size_hint(&self) -> (usize, Option<usize>) {
        self.iter.size_hint()
    }
}

impl<I: DoubleEndedIterator> DoubleEndedIterator for IterIdentity<I> {
    ghost can_next_back = { λ s. I.can_next_back s.iter };

    ghost next_back_gives = { GivesMarked I.next_back_gives };

    fn next_back(&mut self) -> Option<Unnormalized<I::Item>> {
        let value = self.iter.next_back()?;
        Some(Unnormalized::new(value))
    }
}

impl<I: ExactSizeIterator> ExactSizeIterator for IterIdentity<I> {
    fn len(&self) -> usize {
        self.iter.len()
    }
}

impl<I: Iterator> Iterator for IterIdentityCopied<I>
where
    I::Item: Deref + Drop,
    <I::Item as Deref>::Target: Copy,
{
    type Item = Unnormalized<<I::Item as Deref>::Target>;

    ghost can_next = { λ s. I.can_next s.it };

    ghost next_gives = { GivesCopied I.next_gives I.Item.deref_gives };

    ghost remaining = { λ s. I.remaining s.it };

    fn next(&mut self) -> Option<Unnormalized<<I::Item as Deref>::Target>> {
        let item = self.it.next()?;
        Some(Unnormalized::new(*item))
    }

    fn size_hint(&self) -> (usize, Option<usize>) {
        self.it.size_hint()
    }
}

impl<I: DoubleEndedIterator> DoubleEndedIterator for IterIdentityCopied<I>
where
    I::Item: Deref + Drop,
    <I::Item as Deref>::Target: Copy,
{
    ghost can_next_back = { λ s. I.can_next_back s.it };

    ghost next_back_gives = { GivesCopied I.next_back_gives I.Item.deref_gives };

    fn next_back(&mut self) -> Option<Unnormalized<<I::Item as Deref>::Target>> {
        let item = self.it.next_back()?;
        Some(Unnormalized::new(*item))
    }
}

impl<I: ExactSizeIterator> ExactSizeIterator for IterIdentityCopied<I>
where
    I::Item: Deref + Drop,
    <I::Item as Deref>::Target: Copy,
{
    fn len(&self) -> usize {
        self.it.len()
    }
}
