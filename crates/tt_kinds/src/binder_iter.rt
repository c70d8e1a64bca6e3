//! The iterator over a binder's items.

ghost use Rattle.std.specs.Prelude.{◌≡◌};
ghost use Rattle.tt_kinds.specs.BinderIter.{GivesUnderBinder, RunsUnderBinder};

use crate::binder::Binder;
use crate::handle::BoundVarKinds;

/// An iterator over a value's items, each under the value's binder. [`Binder::iter`] returns it.
#[derive(Drop)]
pub struct BinderIter<I> {
    iter: I,
    bound_vars: BoundVarKinds,
}

impl<T: IntoIterator> Binder<T> {
    /// Returns an iterator over the value's items, each under the same binder.
    pub fn iter(self) -> BinderIter<T::IntoIter>
        ensures iter { T.into_iter_gives self.value result.iter }
        ensures bound_vars { result.bound_vars ≡ self.bound_vars }
        ensures runs { RunsUnderBinder T.IntoIter.next_gives self.bound_vars result }
    {
        let bound_vars = self.bound_vars();
        BinderIter {
            iter: self.skip_binder().into_iter(),
            bound_vars,
        }
    }
}

impl<I: Iterator> Iterator for BinderIter<I> {
    type Item = Binder<I::Item>;

    ghost can_next = { λ s. I.can_next s.iter };

    ghost next_gives = { GivesUnderBinder I.next_gives };

    ghost remaining = { λ s. I.remaining s.iter };

    fn next(&mut self) -> Option<Binder<I::Item>> {
        let value = self.iter.next()?;
        Some(Binder::bind_with_vars(value, self.bound_vars))
    }

    fn size_hint(&self) -> (usize, Option<usize>) {
        self.iter.size_hint()
    }
}

impl<I: DoubleEndedIterator> DoubleEndedIterator for BinderIter<I> {
    ghost can_next_back = { λ s. I.can_next_back s.iter };

    ghost next_back_gives = { GivesUnderBinder I.next_back_gives };

    fn next_back(&mut self) -> Option<Binder<I::Item>> {
        let value = self.iter.next_back()?;
        Some(Binder::bind_with_vars(value, self.bound_vars))
    }
}

impl<I: ExactSizeIterator> ExactSizeIterator for BinderIter<I> {
    fn len(&self) -> usize {
        self.iter.len()
    }
}
