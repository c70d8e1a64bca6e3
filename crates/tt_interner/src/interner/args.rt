//! Lists of generic arguments.

ghost use Rattle.std.specs.Prelude.{◌<◌, List};
ghost use Rattle.std.specs.Iterator.{Drains, IsFinite};
ghost use Rattle.tt_kinds.specs.Shape.{item_shapes, AreParts};
ghost use Rattle.tt_kinds.specs.Kinds.{arg_shape};
ghost use Rattle.tt_interner.specs.Collect.{BuildsFrom};
ghost use Rattle.tt_interner.specs.Rows.{args_row, size};
ghost use Rattle.tt_interner.specs.Stored.{Builds, Extends};

use super::Interner;
use crate::children::MOST_IN_PLACE;
use crate::collect::{collected, fill};
use crate::flag_computation::items_info;
use crate::handle::InternedList;
use crate::tables::{find_or_add_list, find_or_insert, key_at};
use tt_index::Refusal;
use tt_kinds::{GenericArg, GenericArgs, Table, Ty};

impl Interner {
    /// Returns the list of these generic arguments, in order. They have to be of this interner;
    /// [`Interner::owns_arg`] tests it.
    ///
    /// Refused with `TableFull` if the list is new and the table has as many rows as it may have, and with `Memory`.
    pub fn mk_args(&mut self, items: &[GenericArg]) -> Result<GenericArgs, Refusal>
        requires { AreParts (size self.old.rows) (item_shapes arg_shape items.now) }
        ensures { Builds result (λ list. list.number) self.old self.new (args_row items.now) }
    {
        let info = items_info(self, items);
        // The items' outer exclusive binder is an index, so at most the greatest, and each region's index is below it.
        let _fits = info.outer_exclusive_binder.as_u32();
        let number = find_or_add_list(
            &mut self.order,
            self.limit,
            Table::ArgLists,
            &mut self.arg_lists,
            items,
            info,
        )?;
        Ok(GenericArgs::from_number(number))
    }

    /// Returns the list of all items of the iterator, in order, as [`Interner::mk_args`] does for a slice. The iterator
    /// has to end, and its items have to be of this interner; [`Interner::owns_arg`] tests an item.
    ///
    /// Up to eight items are collected in place, so a list of them that is stored already is found without allocation.
    /// More are collected in a vector before the list is looked up, so `Memory` is possible even for a list that is
    /// stored already.
    pub fn mk_args_from_iter<I: Iterator<Item = GenericArg> + Drop>(
        &mut self,
        mut iter: I,
    ) -> Result<GenericArgs, Refusal>
        requires can { I.can_next iter }
        requires ends { IsFinite (I.remaining iter) }
        requires items { (items : List _) → Drains I.next_gives iter items
            → AreParts (size self.old.rows) (item_shapes arg_shape items) }
        ensures builds { BuildsFrom result (λ list. list.number) self.old self.new args_row I.next_gives iter }
        ensures extends { Extends self.old self.new }
    {
        let mut places = [GenericArg::from(Ty::from_number(0)); MOST_IN_PLACE];
        let (count, next) = fill(&mut places, &mut iter);
        match next {
            None => self.mk_args(&places[..count]),
            Some(next) => {
                let items = collected(self.allocator(), &places, next, iter)?;
                self.put_args(items)
            }
        }
    }

    // Returns the list of these items, with one look-up; a new list keeps the vector.
    pub(crate) fn put_args(&mut self, items: Vec<GenericArg>) -> Result<GenericArgs, Refusal>
        requires { AreParts (size self.old.rows) (item_shapes arg_shape items.items) }
        ensures { Builds result (λ list. list.number) self.old self.new (args_row items.items) }
    {
        let info = items_info(self, items.as_slice());
        let _fits = info.outer_exclusive_binder.as_u32();
        let number = find_or_insert(
            &mut self.order,
            self.limit,
            Table::ArgLists,
            &mut self.arg_lists,
            items,
            info,
        )?;
        Ok(GenericArgs::from_number(number))
    }
}

impl InternedList for GenericArgs {
    ghost use Rattle.tt_interner.specs.Rows.{args_row};
    ghost use Rattle.tt_kinds.specs.declared.table.Table.TheVariants.{ArgLists};

    type Item = GenericArg;

    ghost list_number = { λ args. args.number };

    ghost list_table = { ArgLists };

    ghost row_of_items = { args_row };

    fn as_slice<'a>(self, cx: &'a Interner) -> &'a [GenericArg] {
        key_at(&cx.arg_lists, self.number()).as_slice()
    }
}
