//! Tests of whether views lie in lists of an interner.

ghost use Rattle.std.specs.Prelude.{◌↔◌, IsTrue};
ghost use Rattle.tt_interner.specs.Views.{AreInputs, LiesInList};

use super::Interner;
use crate::handle::InternedList;
use tt_kinds::{FnInputTys, GenericArgsSlice};

impl Interner {
    /// Returns whether the view's list is a list of types of this interner, and is not empty.
    pub fn owns_input_tys(&self, view: FnInputTys) -> bool
        ensures { IsTrue result ↔ AreInputs self.now.rows view }
    {
        let list = view.inputs_and_output();
        if !self.owns(list) {
            return false;
        }
        !list.as_slice(self).is_empty()
    }

    /// Returns whether the view's list is a list of generic arguments of this interner, and has all of the view's
    /// places.
    pub fn owns_args_slice(&self, view: GenericArgsSlice) -> bool
        ensures { IsTrue result ↔ LiesInList self.now.rows view }
    {
        let list = view.args();
        if !self.owns(list) {
            return false;
        }
        view.start() as usize + view.count() as usize <= list.as_slice(self).len()
    }
}
