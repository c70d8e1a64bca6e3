//! A memory of shifted arguments, so that each argument is shifted once past each number of binders.

ghost use Rattle.std.specs.Prelude.{◌≡◌, ◌≤◌, ◌<◌, [], IfErr, MatchResult, OnErr, OnOk};
ghost use Rattle.std.specs.Map.{lookup};
ghost use Rattle.indexmap.specs.IndexMap.{insert_entry};
ghost use Rattle.tt_interner.specs.Stored.{Extends};
ghost use Rattle.tt_fold.specs.Shift.{IsShiftRefusal};
ghost use Rattle.tt_fold.specs.Steps.{IsPartBy, tree_by};
ghost use Rattle.tt_binder.specs.Shifted.{param_at, same_param, Shifts};

use indexmap::IndexMap;
use std::alloc::Global;
use std::marker::Model;
use tt_fold::{TypeFoldable, shift_vars};
use tt_index::Refusal;
use tt_interner::Interner;
use tt_visit::TypeVisitableExt;

/// A parameter's index, and the number of binders above the parameter.
#[derive(Clone, Copy, PartialEq, Eq, Hash)]
pub struct ParamAt {
    index: u32,
    under: u32,
}

/// The shifted arguments of one sort, each shifted past the binders above a parameter.
#[derive(Drop)]
pub struct Shifted<T> {
    results: IndexMap<ParamAt, T>,
}

impl<T> Model for Shifted<T> {
    ghost use Rattle.std.specs.Prelude.{List};
    ghost use Rattle.tt_binder.specs.declared.shifted.ParamAt.{ParamAt};

    ghost Value = { List (ParamAt × T) };

    ghost view = { λ s. s.results.entries };
}

impl<T: TypeFoldable + Copy> Shifted<T> {
    /// Returns an empty memory. It allocates nothing until an argument is shifted.
    pub fn new(alloc: Global) -> Shifted<T>
        ensures { result ≡ [] }
    {
        Shifted {
            results: IndexMap::new(alloc),
        }
    }

    /// Returns `argument`, the argument of the parameter of this index, shifted past the `under` binders above the
    /// parameter. If the shift changes the argument, the result is built once and remembered.
    pub fn shift(
        &mut self,
        cx: &mut Interner,
        argument: T,
        index: u32,
        under: u32,
    ) -> Result<T, Refusal>
        requires { IsPartBy T.shape cx.old.rows argument }
        ensures extends { Extends cx.old cx.new }
        ensures descents { cx.new.counters.descents ≡ cx.old.counters.descents }
        ensures shift_descents { cx.old.counters.shift_descents ≤ cx.new.counters.shift_descents }
        ensures stays { OnErr result (self.new ≡ self.old) }
        ensures result { MatchResult
            result
            (Shifts T.shape cx.old argument (param_at index under) self.old self.new cx.new)
            (λ e. (0 < under) × IsShiftRefusal cx.new under (tree_by T.shape cx.old.rows argument) e) }
    {
        if under == 0 || !argument.has_escaping_bound_vars(cx) {
            return Ok(argument);
        }
        let param = ParamAt { index, under };
        match self.find(param) {
            Some(known) => Ok(known),
            None => {
                let shifted = shift_vars(cx, argument, under)?;
                self.note_shifted(param, shifted)?;
                Ok(shifted)
            }
        }
    }

    // Returns the remembered argument of the parameter, if there is one.
    fn find(&self, param: ParamAt) -> Option<T>
        ensures { result ≡ lookup (same_param param) self.now }
    {
        self.results.get(&param).copied()
    }

    // Remembers the parameter's shifted argument. If that is refused, nothing changes.
    fn note_shifted(&mut self, param: ParamAt, shifted: T) -> Result<(), Refusal>
        ensures ok { OnOk result (self.new ≡ insert_entry same_param self.old param shifted) }
        ensures err { IfErr result (λ e. e ≡ Refusal.Memory) }
        ensures stays { OnErr result (self.new ≡ self.old) }
    {
        match self.results.insert(param, shifted) {
            Ok(_) => Ok(()),
            Err(_) => Err(Refusal::Memory),
        }
    }
}
