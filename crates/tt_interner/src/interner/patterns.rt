//! Patterns, and lists of patterns.

ghost use Rattle.std.specs.Prelude.{◌<◌};
ghost use Rattle.tt_kinds.specs.Shape.{item_shapes, AreParts, HasParts};
ghost use Rattle.tt_kinds.specs.Kinds.{pattern_kind_shape, pat_shape};
ghost use Rattle.tt_interner.specs.Rows.{pat_row, pats_row, size};
ghost use Rattle.tt_interner.specs.Stored.{Builds};

use super::Interner;
use crate::flag_computation::{items_info, kind_info};
use crate::handle::{InternedKind, InternedList};
use crate::tables::{find_or_add, find_or_add_list, find_or_insert, key_at};
use tt_index::Refusal;
use tt_kinds::{Kind, Pat, PatList, PatternKind, Table};

impl Interner {
    /// Returns the pattern of this kind. Every handle and name in the kind has to be this interner's;
    /// [`Interner::owns_pattern_kind`] tests it.
    ///
    /// Refused with `TableFull` if the pattern is new and the table has as many rows as it may have, and with `Memory`.
    pub fn mk_pat(&mut self, kind: PatternKind) -> Result<Pat, Refusal>
        requires { HasParts (size self.old.rows) (pattern_kind_shape kind) }
        ensures { Builds result (λ handle. handle.number) self.old self.new (pat_row kind) }
    {
        let info = kind_info(self, &Kind::Pat(kind));
        let number = find_or_add(
            &mut self.order,
            self.limit,
            Table::Patterns,
            &mut self.patterns,
            &kind,
            info,
        )?;
        Ok(Pat::from_number(number))
    }
}

impl Interner {
    /// Returns the list of these patterns, in order. They have to be of this interner; [`Interner::owns_pat`] tests it.
    ///
    /// Refused with `TableFull` if the list is new and the table has as many rows as it may have, and with `Memory`.
    pub fn mk_pat_list(&mut self, items: &[Pat]) -> Result<PatList, Refusal>
        requires { AreParts (size self.old.rows) (item_shapes pat_shape items.now) }
        ensures { Builds result (λ list. list.number) self.old self.new (pats_row items.now) }
    {
        let info = items_info(self, items);
        let number = find_or_add_list(
            &mut self.order,
            self.limit,
            Table::PatternLists,
            &mut self.pattern_lists,
            items,
            info,
        )?;
        Ok(PatList::from_number(number))
    }

    // Returns the list of these items, with one look-up; a new list keeps the vector.
    pub(crate) fn put_pat_list(&mut self, items: Vec<Pat>) -> Result<PatList, Refusal>
        requires { AreParts (size self.old.rows) (item_shapes pat_shape items.items) }
        ensures { Builds result (λ list. list.number) self.old self.new (pats_row items.items) }
    {
        let info = items_info(self, items.as_slice());
        let number = find_or_insert(
            &mut self.order,
            self.limit,
            Table::PatternLists,
            &mut self.pattern_lists,
            items,
            info,
        )?;
        Ok(PatList::from_number(number))
    }
}

impl InternedKind for Pat {
    ghost use Rattle.tt_interner.specs.Rows.{pat_row};
    ghost use Rattle.tt_kinds.specs.declared.table.Table.TheVariants.{Patterns};

    type Kind = PatternKind;

    ghost handle_number = { λ handle. handle.number };

    ghost handle_table = { Patterns };

    ghost row_of = { pat_row };

    fn kind<'a>(self, cx: &'a Interner) -> &'a PatternKind {
        key_at(&cx.patterns, self.number())
    }
}

impl InternedList for PatList {
    ghost use Rattle.tt_interner.specs.Rows.{pats_row};
    ghost use Rattle.tt_kinds.specs.declared.table.Table.TheVariants.{PatternLists};

    type Item = Pat;

    ghost list_number = { λ list. list.number };

    ghost list_table = { PatternLists };

    ghost row_of_items = { pats_row };

    fn as_slice<'a>(self, cx: &'a Interner) -> &'a [Pat] {
        key_at(&cx.pattern_lists, self.number()).as_slice()
    }
}
