//! Lists of a binder's variables.

ghost use Rattle.std.specs.Prelude.{◌<◌};
ghost use Rattle.tt_kinds.specs.Shape.{HasParts};
ghost use Rattle.tt_kinds.specs.Kinds.{vars_row_shape};
ghost use Rattle.tt_interner.specs.Rows.{vars_row, size};
ghost use Rattle.tt_interner.specs.Stored.{Builds};

use super::Interner;
use crate::flag_computation::vars_info;
use crate::handle::InternedList;
use crate::tables::{find_or_add_list, key_at};
use tt_index::Refusal;
use tt_kinds::{BoundVarKinds, BoundVariableKind, Table};

impl Interner {
    /// Returns the list of these variables of a binder, in order. The names that they are printed by have to be of this
    /// interner; [`Interner::owns_bound_var`] tests it.
    ///
    /// Refused with `TableFull` if the list is new and the table has as many rows as it may have, and with `Memory`.
    pub fn mk_bound_vars(&mut self, items: &[BoundVariableKind]) -> Result<BoundVarKinds, Refusal>
        requires { HasParts (size self.old.rows) (vars_row_shape items.now) }
        ensures { Builds result (λ list. list.number) self.old self.new (vars_row items.now) }
    {
        let info = vars_info(items);
        let number = find_or_add_list(
            &mut self.order,
            self.limit,
            Table::VarLists,
            &mut self.var_lists,
            items,
            info,
        )?;
        Ok(BoundVarKinds::from_number(number))
    }
}

impl InternedList for BoundVarKinds {
    ghost use Rattle.tt_interner.specs.Rows.{vars_row};
    ghost use Rattle.tt_kinds.specs.declared.table.Table.TheVariants.{VarLists};

    type Item = BoundVariableKind;

    ghost list_number = { λ vars. vars.number };

    ghost list_table = { VarLists };

    ghost row_of_items = { vars_row };

    fn as_slice<'a>(self, cx: &'a Interner) -> &'a [BoundVariableKind] {
        key_at(&cx.var_lists, self.number()).as_slice()
    }
}
