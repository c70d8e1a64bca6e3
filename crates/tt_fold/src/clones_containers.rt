//! Copies of values around other values: binders, tuples, options, results, boxes, shared values, lists and predicates.

ghost use Rattle.tt_fold.specs.Copies.{copies};

use crate::shared::ClonesTree;
use std::boxed::BoxedSlice;
use std::rc::Rc;
use tt_index::{Idx, IndexVec};
use tt_kinds::{Binder, OutlivesPredicate};
use tt_visit::TypeVisitable;

impl<T: ClonesTree> ClonesTree for Binder<T> {
    ghost keeps = { Prim.search copies };
}

impl<A: ClonesTree> ClonesTree for OutlivesPredicate<A> {
    ghost keeps = { Prim.search copies };
}

impl<A: ClonesTree, B: ClonesTree> ClonesTree for (A, B) {
    ghost keeps = { Prim.search copies };
}

impl<A: ClonesTree, B: ClonesTree, C: ClonesTree> ClonesTree for (A, B, C) {
    ghost keeps = { Prim.search copies };
}

impl<T: ClonesTree> ClonesTree for Option<T> {
    ghost keeps = { Prim.search copies };
}

impl<T: ClonesTree, E: ClonesTree> ClonesTree for Result<T, E> {
    ghost keeps = { Prim.search copies };
}

impl<T: ClonesTree> ClonesTree for Vec<T> {
    ghost keeps = { Prim.search copies };
}

impl<T: ClonesTree> ClonesTree for BoxedSlice<T> {
    ghost keeps = { Prim.search copies };
}

impl<Ix: Idx + Drop, T: ClonesTree> ClonesTree for IndexVec<Ix, T> {
    ghost keeps = { Prim.search copies };
}

impl<T: ClonesTree> ClonesTree for Box<T> {
    ghost keeps = { Prim.search copies };
}

// A shared value stays shared: the copy is one more owner.
impl<T: TypeVisitable + Drop> ClonesTree for Rc<T> {
    ghost keeps = { Prim.search copies };
}
