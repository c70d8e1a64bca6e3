//! Constants, and lists of constants.

ghost use Rattle.std.specs.Prelude.{◌<◌};
ghost use Rattle.tt_kinds.specs.Shape.{item_shapes, AreParts, HasParts};
ghost use Rattle.tt_kinds.specs.Kinds.{const_kind_shape, const_shape};
ghost use Rattle.tt_interner.specs.Rows.{const_row, consts_row, size};
ghost use Rattle.tt_interner.specs.Stored.{Builds};

use super::Interner;
use crate::flag_computation::{items_info, kind_info};
use crate::handle::{InternedKind, InternedList};
use crate::tables::{find_or_add, find_or_add_list, find_or_insert, key_at};
use tt_index::Refusal;
use tt_kinds::{Const, ConstKind, Consts, Kind, OwnFlags, Table};

impl Interner {
    /// Returns the constant of this kind. Every handle and name in the kind has to be this interner's;
    /// [`Interner::owns_const_kind`] tests it.
    ///
    /// Refused with `GreatestIndex` if the kind is a bound variable with the greatest index, with `TableFull` if the
    /// constant is new and the table has as many rows as it may have, and with `Memory`.
    pub fn mk_const(&mut self, kind: ConstKind) -> Result<Const, Refusal>
        requires { HasParts (size self.old.rows) (const_kind_shape kind) }
        ensures { Builds result (λ handle. handle.number) self.old self.new (const_row kind) }
    {
        self.are_rows();
        if kind.is_too_deep() {
            return Err(Refusal::GreatestIndex);
        }
        let info = kind_info(self, &Kind::Const(kind));
        let number = find_or_add(
            &mut self.order,
            self.limit,
            Table::Consts,
            &mut self.consts,
            &kind,
            info,
        )?;
        Ok(Const::from_number(number))
    }
}

impl Interner {
    /// Returns the list of these constants, in order. They have to be of this interner; [`Interner::owns_const`] tests
    /// it.
    ///
    /// Refused with `TableFull` if the list is new and the table has as many rows as it may have, and with `Memory`.
    pub fn mk_consts(&mut self, items: &[Const]) -> Result<Consts, Refusal>
        requires { AreParts (size self.old.rows) (item_shapes const_shape items.now) }
        ensures { Builds result (λ list. list.number) self.old self.new (consts_row items.now) }
    {
        let info = items_info(self, items);
        let number = find_or_add_list(
            &mut self.order,
            self.limit,
            Table::ConstLists,
            &mut self.const_lists,
            items,
            info,
        )?;
        Ok(Consts::from_number(number))
    }

    // Returns the list of these items, with one look-up; a new list keeps the vector.
    pub(crate) fn put_consts(&mut self, items: Vec<Const>) -> Result<Consts, Refusal>
        requires { AreParts (size self.old.rows) (item_shapes const_shape items.items) }
        ensures { Builds result (λ list. list.number) self.old self.new (consts_row items.items) }
    {
        let info = items_info(self, items.as_slice());
        let number = find_or_insert(
            &mut self.order,
            self.limit,
            Table::ConstLists,
            &mut self.const_lists,
            items,
            info,
        )?;
        Ok(Consts::from_number(number))
    }
}

impl InternedKind for Const {
    ghost use Rattle.tt_interner.specs.Rows.{const_row};
    ghost use Rattle.tt_kinds.specs.declared.table.Table.TheVariants.{Consts};

    type Kind = ConstKind;

    ghost handle_number = { λ handle. handle.number };

    ghost handle_table = { Consts };

    ghost row_of = { const_row };

    fn kind<'a>(self, cx: &'a Interner) -> &'a ConstKind {
        key_at(&cx.consts, self.number())
    }
}

impl InternedList for Consts {
    ghost use Rattle.tt_interner.specs.Rows.{consts_row};
    ghost use Rattle.tt_kinds.specs.declared.table.Table.TheVariants.{ConstLists};

    type Item = Const;

    ghost list_number = { λ list. list.number };

    ghost list_table = { ConstLists };

    ghost row_of_items = { consts_row };

    fn as_slice<'a>(self, cx: &'a Interner) -> &'a [Const] {
        key_at(&cx.const_lists, self.number()).as_slice()
    }
}
