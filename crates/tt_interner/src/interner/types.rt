//! Types, and lists of them.

ghost use Rattle.std.specs.Prelude.{◌<◌, List};
ghost use Rattle.std.specs.Iterator.{Drains, IsFinite};
ghost use Rattle.tt_kinds.specs.Shape.{AreParts, HasParts, IsTooDeep, item_shapes};
ghost use Rattle.tt_kinds.specs.Kinds.{ty_kind_shape, ty_shape};
ghost use Rattle.tt_interner.specs.Chained.{BuildsOf};
ghost use Rattle.tt_interner.specs.Collect.{BuildsFrom};
ghost use Rattle.tt_interner.specs.Rows.{type_row, tys_row, text_row, size};
ghost use Rattle.tt_interner.specs.Stored.{Extends, Puts, Builds};

use super::Interner;
use crate::children::MOST_IN_PLACE;
use crate::collect::{collected, fill};
use crate::flag_computation::{items_info, ty_kind_info};
use crate::handle::{InternedKind, InternedList};
use crate::tables::{find_or_add, find_or_add_tys, key_at};
use tt_index::{Mutability, Refusal};
use tt_kinds::{Kind, OwnFlags, ParamTy, Region, Table, Ty, TyKind, Tys};

impl Interner {
    // Finds the type of this kind, or stores it.
    #[inline(never)]
    fn put_ty(&mut self, kind: &TyKind) -> Result<Ty, Refusal>
        requires parts { HasParts (size self.old.rows) (ty_kind_shape kind.now) }
        requires shallow { IsTooDeep (ty_kind_shape kind.now) → ⊥ }
        ensures { Puts result (λ ty. ty.number) self.old self.new (type_row kind.now) }
    {
        let info = ty_kind_info(self, kind);
        let number = find_or_add(
            &mut self.order,
            self.limit,
            Table::Types,
            &mut self.types,
            kind,
            info,
        )?;
        Ok(Ty::from_number(number))
    }

    /// Returns the type of this kind. Every handle and name in the kind has to be this interner's;
    /// [`Interner::owns_kind`] tests it.
    ///
    /// Refused with `GreatestIndex` if the kind is a bound variable with the greatest index, with `TableFull` if the
    /// type is new and the table has as many rows as it may have, and with `Memory`.
    #[inline(always)]
    pub fn mk_ty(&mut self, kind: TyKind) -> Result<Ty, Refusal>
        requires { HasParts (size self.old.rows) (ty_kind_shape kind) }
        ensures { Builds result (λ ty. ty.number) self.old self.new (type_row kind) }
    {
        self.are_rows();
        if kind.is_too_deep() {
            return Err(Refusal::GreatestIndex);
        }
        self.put_ty(&kind)
    }

    /// Returns the reference to this type, as [`Interner::mk_ty`] does for its kind. The region's name and the type
    /// have to be this interner's; [`Interner::owns_region`] and [`Interner::owns_ty`] test it.
    pub fn mk_ref(
        &mut self,
        region: Region,
        referent: Ty,
        mutability: Mutability,
    ) -> Result<Ty, Refusal>
        requires { HasParts (size self.old.rows) (ty_kind_shape (TyKind.Ref region referent mutability)) }
        ensures { Builds result (λ ty. ty.number) self.old self.new (type_row (TyKind.Ref region referent mutability)) }
    {
        self.mk_ty(TyKind::Ref(region, referent, mutability))
    }

    /// Returns the tuple of these types, in order, as [`Interner::mk_tys`] and then [`Interner::mk_ty`] do. The types
    /// have to be of this interner; [`Interner::owns_ty`] tests it. If the tuple is refused, the list of its types may
    /// stay stored. What was stored before keeps its meaning.
    pub fn mk_tuple(&mut self, items: &[Ty]) -> Result<Ty, Refusal>
        requires { AreParts (size self.old.rows) (item_shapes ty_shape items.now) }
        ensures builds { BuildsOf
            (λ list. list.number)
            (tys_row items.now)
            (λ list. type_row (TyKind.Tuple list))
            result
            self.old
            self.new }
        ensures extends { Extends self.old self.new }
    {
        let list = self.mk_tys(items)?;
        self.mk_ty(TyKind::Tuple(list))
    }

    /// Returns the type parameter of this index and name, as [`Interner::symbol`] and then [`Interner::mk_ty`] do. If
    /// the parameter is refused, the name may stay stored. What was stored before keeps its meaning.
    pub fn mk_param(&mut self, index: u32, name: &str) -> Result<Ty, Refusal>
        ensures builds { BuildsOf
            (λ symbol. symbol.number)
            (text_row name.now)
            (λ symbol. type_row (TyKind.Param (record { index = index; name = symbol })))
            result
            self.old
            self.new }
        ensures extends { Extends self.old self.new }
    {
        let name = self.symbol(name)?;
        self.mk_ty(TyKind::Param(ParamTy { index, name }))
    }
}

impl Interner {
    /// Returns the list of these types, in order. They have to be of this interner; [`Interner::owns_ty`]
    /// tests it.
    ///
    /// Refused with `TableFull` if the list is new and the table has as many rows as it may have, and with `Memory`.
    pub fn mk_tys(&mut self, items: &[Ty]) -> Result<Tys, Refusal>
        requires { AreParts (size self.old.rows) (item_shapes ty_shape items.now) }
        ensures { Builds result (λ list. list.number) self.old self.new (tys_row items.now) }
    {
        let info = items_info(self, items);
        let number = find_or_add_tys(
            &mut self.order,
            self.limit,
            Table::TypeLists,
            &mut self.type_lists,
            &mut self.long_list,
            items,
            info,
        )?;
        Ok(Tys::from_number(number))
    }

    /// Returns the list of all items of the iterator, in order, as [`Interner::mk_tys`] does for a slice. The iterator
    /// has to end, and its items have to be of this interner; [`Interner::owns_ty`] tests an item.
    ///
    /// Up to eight items are collected in place, so a list of them that is stored already is found without allocation.
    /// More are collected in a vector before the list is looked up, so `Memory` is possible even for a list that is
    /// stored already.
    pub fn mk_type_list_from_iter<I: Iterator<Item = Ty> + Drop>(
        &mut self,
        mut iter: I,
    ) -> Result<Tys, Refusal>
        requires can { I.can_next iter }
        requires ends { IsFinite (I.remaining iter) }
        requires items { (items : List _) → Drains I.next_gives iter items
            → AreParts (size self.old.rows) (item_shapes ty_shape items) }
        ensures builds { BuildsFrom result (λ list. list.number) self.old self.new tys_row I.next_gives iter }
        ensures extends { Extends self.old self.new }
    {
        let mut places = [Ty::from_number(0); MOST_IN_PLACE];
        let (count, next) = fill(&mut places, &mut iter);
        match next {
            None => self.mk_tys(&places[..count]),
            Some(next) => {
                let items = collected(self.allocator(), &places, next, iter)?;
                self.mk_tys(items.as_slice())
            }
        }
    }
}

impl InternedKind for Ty {
    ghost use Rattle.tt_interner.specs.Rows.{type_row};
    ghost use Rattle.tt_kinds.specs.declared.table.Table.TheVariants.{Types};

    type Kind = TyKind;

    ghost handle_number = { λ ty. ty.number };

    ghost handle_table = { Types };

    ghost row_of = { type_row };

    fn kind<'a>(self, cx: &'a Interner) -> &'a TyKind {
        key_at(&cx.types, self.number())
    }
}

impl InternedList for Tys {
    ghost use Rattle.tt_interner.specs.Rows.{tys_row};
    ghost use Rattle.tt_kinds.specs.declared.table.Table.TheVariants.{TypeLists};

    type Item = Ty;

    ghost list_number = { λ tys. tys.number };

    ghost list_table = { TypeLists };

    ghost row_of_items = { tys_row };

    fn as_slice<'a>(self, cx: &'a Interner) -> &'a [Ty] {
        key_at(&cx.type_lists, self.number()).as_slice()
    }
}
