//! Lists whose positions have an index type of their own.

ghost use Rattle.std.specs.Prelude.{
  ◌≡◌,
  ◌<◌,
  ◌≤◌,
  ◌^◌,
  ◌↔◌,
  ◌++◌,
  ◌∷◌,
  [],
  List,
  IsTrue,
  IfOk,
  IfErr,
  OnErr,
  OnOk,
  length,
  slice_get,
  slice_set,
  option_copied,
};
ghost use Rattle.std.specs.Iterator.Adapters.{IterYieldsInOrder};
ghost use Rattle.std.specs.List.{AllZip};
ghost use Rattle.std.specs.Slice.Iter.{iter_rest};
ghost use Rattle.tt_index.specs.Greatest.{greatest};
ghost use Rattle.tt_index.specs.declared.refusal.Refusal.TheVariants.{Memory};

use crate::GREATEST_INDEX;
use crate::idx::Idx;
use crate::refusal::Refusal;
use std::alloc::{AllocError, Global};
use std::marker::{Model, PhantomData};
use std::slice::Iter;

/// A list whose items are found by indices of the type `Ix`, so that the indices of two lists can't be mixed up.
#[derive(Drop)]
pub struct IndexVec<Ix: Idx, T> {
    raw: Vec<T>,
    index: PhantomData<Ix>,
}

impl<Ix: Idx, T> Model for IndexVec<Ix, T> {
    ghost Value = { List T };

    ghost view = { λ list. list.raw.items };
}

impl<Ix: Idx, T> IndexVec<Ix, T> {
    /// Returns an empty list, without allocating memory.
    pub fn new(alloc: Global) -> IndexVec<Ix, T>
        ensures { result ≡ [] }
    {
        IndexVec {
            raw: Vec::new(alloc),
            index: PhantomData,
        }
    }

    /// Returns the list of these items, in order. There may be more items than indices: an item past the greatest index
    /// has no index.
    pub fn from_raw(raw: Vec<T>) -> IndexVec<Ix, T>
        ensures { result ≡ raw.items }
    {
        IndexVec {
            raw,
            index: PhantomData,
        }
    }

    /// Returns the items, in order.
    pub fn raw(&self) -> &[T]
        ensures { result.now ≡ self.now }
    {
        self.raw.as_slice()
    }

    /// Returns the vector that holds the items, in order.
    pub fn into_raw(self) -> Vec<T>
        ensures { result.items ≡ self }
    {
        let IndexVec { raw, index: _ } = self;
        raw
    }

    /// Returns the number of items.
    pub fn len(&self) -> usize
        ensures { result ≡ length self.now }
    {
        self.raw.len()
    }

    /// Returns whether there are no items.
    pub fn is_empty(&self) -> bool
        ensures { IsTrue result ↔ (self.now ≡ []) }
    {
        self.raw.is_empty()
    }

    /// Returns the item at this index, or `None` past the end of the list.
    pub fn get(&self, index: Ix) -> Option<&T>
        ensures { option_copied result ≡ slice_get self.now (Ix.number index) }
    {
        self.raw.as_slice().get(index.as_usize())
    }

    /// Returns the items in the order of their indices.
    pub fn iter(&self) -> Iter<'_, T>
        ensures rest { iter_rest result ≡ self.now }
        ensures len { length (iter_rest result) ≡ length self.now }
        ensures bound { length (iter_rest result) < 2 ^ 64 }
        ensures runs { IterYieldsInOrder T }
    {
        self.raw.iter()
    }

    /// Returns whether a further item would have an index: whether there are at most [`GREATEST_INDEX`] items.
    pub fn has_next_index(&self) -> bool
        ensures { IsTrue result ↔ (length self.now ≤ greatest) }
    {
        self.raw.len() <= GREATEST_INDEX as usize
    }
}

impl<Ix: Idx, T: Drop> IndexVec<Ix, T> {
    /// Appends the item and returns its index. [`IndexVec::has_next_index`] tests the condition. If memory is refused,
    /// the item is dropped and the list is unchanged.
    pub fn push(&mut self, item: T) -> Result<Ix, Refusal>
        requires { length self.old ≤ greatest }
        ensures ok { OnOk result (self.new ≡ self.old ++ item ∷ []) }
        ensures index { IfOk result (λ index. Ix.number index ≡ length self.old) }
        ensures err { OnErr result (self.new ≡ self.old) }
        ensures cause { IfErr result (λ refusal. refusal ≡ Memory) }
    {
        let index = Ix::from_usize(self.raw.len());
        self.raw.push(item)?;
        Ok(index)
    }

    /// Replaces the item at this index, and drops the old one. The index has to be below [`IndexVec::len`].
    pub fn set(&mut self, index: Ix, item: T)
        requires { Ix.number index < length self.old }
        ensures { self.new ≡ slice_set self.old (Ix.number index) item }
    {
        self.raw[index.as_usize()] = item;
    }
}

impl<Ix: Idx + Drop, T: Clone> Clone for IndexVec<Ix, T> {
    ghost is_clone = { AllZip T.is_clone };

    fn clone(&self) -> Result<IndexVec<Ix, T>, AllocError> {
        let copies = self.raw.clone()?;
        Ok(IndexVec::from_raw(copies))
    }
}
