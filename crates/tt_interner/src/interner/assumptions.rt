//! Lists of assumptions on regions.

ghost use Rattle.std.specs.Prelude.{◌<◌};
ghost use Rattle.tt_kinds.specs.Shape.{item_shapes, AreParts};
ghost use Rattle.tt_kinds.specs.Values.{assumption_shape};
ghost use Rattle.tt_interner.specs.Rows.{assumptions_row, size};
ghost use Rattle.tt_interner.specs.Stored.{Builds};

use super::Interner;
use crate::flag_computation::items_info;
use crate::handle::InternedList;
use crate::tables::{find_or_add_list, key_at};
use tt_index::Refusal;
use tt_kinds::{GenericArg, OutlivesPredicate, RegionAssumptions, Table};

impl Interner {
    /// Returns the list of these assumptions, in order. They have to be of this interner;
    /// [`Interner::owns_assumption`] tests it.
    ///
    /// Refused with `TableFull` if the list is new and the table has as many rows as it may have, and with `Memory`.
    pub fn mk_assumptions(
        &mut self,
        items: &[OutlivesPredicate<GenericArg>],
    ) -> Result<RegionAssumptions, Refusal>
        requires { AreParts (size self.old.rows) (item_shapes assumption_shape items.now) }
        ensures { Builds result (λ list. list.number) self.old self.new (assumptions_row items.now) }
    {
        let info = items_info(self, items);
        // The items' outer exclusive binder is an index, so at most the greatest, and each region's index is below it.
        let _fits = info.outer_exclusive_binder.as_u32();
        let number = find_or_add_list(
            &mut self.order,
            self.limit,
            Table::AssumptionLists,
            &mut self.assumption_lists,
            items,
            info,
        )?;
        Ok(RegionAssumptions::from_number(number))
    }
}

impl InternedList for RegionAssumptions {
    ghost use Rattle.tt_interner.specs.Rows.{assumptions_row};
    ghost use Rattle.tt_kinds.specs.declared.table.Table.TheVariants.{AssumptionLists};

    type Item = OutlivesPredicate<GenericArg>;

    ghost list_number = { λ list. list.number };

    ghost list_table = { AssumptionLists };

    ghost row_of_items = { assumptions_row };

    fn as_slice<'a>(self, cx: &'a Interner) -> &'a [OutlivesPredicate<GenericArg>] {
        key_at(&cx.assumption_lists, self.number()).as_slice()
    }
}
