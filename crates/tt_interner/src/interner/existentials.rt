//! Existential predicates, each under its binder, and lists of them.

ghost use Rattle.std.specs.Prelude.{◌≡◌, ◌<◌, ◌≤◌, length, take, drop};
ghost use Rattle.tt_kinds.specs.Shape.{item_shapes, AreParts, HasParts};
ghost use Rattle.tt_kinds.specs.Kinds.{existential_kind_shape, existential_shape};
ghost use Rattle.tt_interner.specs.Rows.{existential_row, existentials_row, size};
ghost use Rattle.tt_interner.specs.Stored.{Builds};
ghost use Rattle.tt_interner.specs.Existentials.{HaveParts, AreExistentials, BuildsAll, PutsEach};

use super::Interner;
use crate::children::MOST_IN_PLACE;
use crate::flag_computation::{items_info, kind_info};
use crate::handle::{InternedKind, InternedList};
use crate::tables::{find_or_add, find_or_add_list, find_or_insert, key_at};
use tt_index::Refusal;
use tt_kinds::{
    Binder, BoundExistentialPredicates, ExistentialPredicate, Kind, PolyExistentialPredicate, Table,
};

impl Interner {
    /// Returns the existential predicate of this kind under this binder. Every handle and name in it has to be this
    /// interner's; [`Interner::owns_existential_kind`] tests it.
    ///
    /// Refused with `TableFull` if the existential predicate is new and the table has as many rows as it may have, and
    /// with `Memory`.
    pub fn mk_existential(
        &mut self,
        kind: Binder<ExistentialPredicate>,
    ) -> Result<PolyExistentialPredicate, Refusal>
        requires { HasParts (size self.old.rows) (existential_kind_shape kind) }
        ensures { Builds result (λ handle. handle.number) self.old self.new (existential_row kind) }
    {
        let info = kind_info(self, &Kind::Existential(kind));
        let number = find_or_add(
            &mut self.order,
            self.limit,
            Table::Existentials,
            &mut self.existentials,
            &kind,
            info,
        )?;
        Ok(PolyExistentialPredicate::from_number(number))
    }
}

impl Interner {
    /// Returns the list of these existential predicates, in order. They have to be of this interner;
    /// [`Interner::owns_existential`] tests it.
    ///
    /// Refused with `TableFull` if the list is new and the table has as many rows as it may have, and with `Memory`.
    pub fn mk_existential_list(
        &mut self,
        items: &[PolyExistentialPredicate],
    ) -> Result<BoundExistentialPredicates, Refusal>
        requires { AreParts (size self.old.rows) (item_shapes existential_shape items.now) }
        ensures { Builds result (λ list. list.number) self.old self.new (existentials_row items.now) }
    {
        let info = items_info(self, items);
        let number = find_or_add_list(
            &mut self.order,
            self.limit,
            Table::ExistentialLists,
            &mut self.existential_lists,
            items,
            info,
        )?;
        Ok(BoundExistentialPredicates::from_number(number))
    }

    // Returns the list of these items, with one look-up; a new list keeps the vector.
    pub(crate) fn put_existentials(
        &mut self,
        items: Vec<PolyExistentialPredicate>,
    ) -> Result<BoundExistentialPredicates, Refusal>
        requires { AreParts (size self.old.rows) (item_shapes existential_shape items.items) }
        ensures { Builds result (λ list. list.number) self.old self.new (existentials_row items.items) }
    {
        let info = items_info(self, items.as_slice());
        let number = find_or_insert(
            &mut self.order,
            self.limit,
            Table::ExistentialLists,
            &mut self.existential_lists,
            items,
            info,
        )?;
        Ok(BoundExistentialPredicates::from_number(number))
    }
}

impl Interner {
    /// Returns the list of these existential predicates, each under its binder, in order, as
    /// [`Interner::mk_existential`] for each of them and then [`Interner::mk_existential_list`] do. Every handle and
    /// name in them has to be this interner's; [`Interner::owns_existential_kinds`] tests it.
    ///
    /// Refused with `TableFull` if one of them or the list is new and its table has as many rows as it may have, and
    /// with `Memory`. A refused call adds none of them, not even those before the one that had no room.
    ///
    /// Up to eight predicates are found without growth, if they and their list are stored already. The handles of more
    /// than eight are collected in a vector first, so the call may be refused with `Memory` even if all of them and
    /// their list are stored already.
    pub fn mk_existentials(
        &mut self,
        predicates: &[Binder<ExistentialPredicate>],
    ) -> Result<BoundExistentialPredicates, Refusal>
        requires { HaveParts self.old.rows predicates.now }
        ensures { BuildsAll result self.old self.new predicates.now }
    {
        let anything = PolyExistentialPredicate::from_number(0);
        if predicates.len() <= MOST_IN_PLACE {
            return self.put_all(predicates, &mut [anything; MOST_IN_PLACE]);
        }
        let mut places = Vec::from_elem(self.allocator(), anything, predicates.len())?;
        self.put_all(predicates, places.as_mut_slice())
    }

    // Returns the list of the predicates, or a refusal with nothing added. Their handles are written to `places`.
    fn put_all(
        &mut self,
        predicates: &[Binder<ExistentialPredicate>],
        places: &mut [PolyExistentialPredicate],
    ) -> Result<BoundExistentialPredicates, Refusal>
        requires parts { HaveParts self.old.rows predicates.now }
        requires room { length predicates.now ≤ length places.old }
        ensures { BuildsAll result self.old self.new predicates.now }
    {
        self.are_rows();
        let before = self.row_count();
        match self.put_each(predicates, places) {
            Ok(list) => Ok(list),
            Err(e) => {
                let added = self.row_count() - before;
                self.take_back(added);
                Err(e)
            }
        }
    }

    // Stores each of the predicates, and then the list of their handles. If one is refused, those before it stay.
    fn put_each(
        &mut self,
        predicates: &[Binder<ExistentialPredicate>],
        places: &mut [PolyExistentialPredicate],
    ) -> Result<BoundExistentialPredicates, Refusal>
        requires parts { HaveParts self.old.rows predicates.now }
        requires room { length predicates.now ≤ length places.old }
        ensures { PutsEach result self.old self.new predicates.now }
    {
        for (i, predicate) in predicates.iter().enumerate() {
            let handle = self.mk_existential(*predicate)?;
            places[i] = handle;
        }
        self.are_rows();
        self.mk_existential_list(&places[..predicates.len()])
    }

    // Returns the number of rows in all tables.
    fn row_count(&self) -> usize
        ensures { result ≡ length self.now.rows }
    {
        self.order.len()
    }

    // Removes the newest rows, which are existential predicates.
    fn take_back(&mut self, added: usize)
        requires { AreExistentials (take added self.old.rows) }
        ensures rows { self.new.rows ≡ drop added self.old.rows }
        ensures limit { self.new.limit ≡ self.old.limit }
        ensures counters { self.new.counters ≡ self.old.counters }
    {
        let rows = self.order.len() - added;
        let predicates = self.existentials.len() - added;
        self.order.truncate(rows);
        self.existentials.truncate(predicates);
    }
}

impl InternedKind for PolyExistentialPredicate {
    ghost use Rattle.tt_interner.specs.Rows.{existential_row};
    ghost use Rattle.tt_kinds.specs.declared.table.Table.TheVariants.{Existentials};

    type Kind = Binder<ExistentialPredicate>;

    ghost handle_number = { λ handle. handle.number };

    ghost handle_table = { Existentials };

    ghost row_of = { existential_row };

    fn kind<'a>(self, cx: &'a Interner) -> &'a Binder<ExistentialPredicate> {
        key_at(&cx.existentials, self.number())
    }
}

impl InternedList for BoundExistentialPredicates {
    ghost use Rattle.tt_interner.specs.Rows.{existentials_row};
    ghost use Rattle.tt_kinds.specs.declared.table.Table.TheVariants.{ExistentialLists};

    type Item = PolyExistentialPredicate;

    ghost list_number = { λ list. list.number };

    ghost list_table = { ExistentialLists };

    ghost row_of_items = { existentials_row };

    fn as_slice<'a>(self, cx: &'a Interner) -> &'a [PolyExistentialPredicate] {
        key_at(&cx.existential_lists, self.number()).as_slice()
    }
}
