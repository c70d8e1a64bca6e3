//! Access to stored terms and lists of all tables, by their kinds and by their children.

ghost use Rattle.std.specs.Prelude.{
  ◌≡◌,
  ℕ,
  ◌<◌,
  ◌≤◌,
  ◌⊎◌,
  Ok,
  Err,
  IfOk,
  IfErr,
  OnOk,
  OnErr,
  All,
  IsFalse,
  IsTrue,
  length,
  slice_get,
  Some,
};
ghost use Rattle.tt_kinds.specs.Shape.{HasParts, AreParts, fill, fill_all};
ghost use Rattle.tt_kinds.specs.Parts.{child_sort, AreLike, IsItem};
ghost use Rattle.tt_kinds.specs.TermTable.{has_items, term_table};
ghost use Rattle.tt_kinds.specs.Kinds.{
  form_binder,
  form_parts,
  kind_form,
  kind_table,
  kind_shape,
  parts_shapes,
  children_shapes,
  items_tree,
};
ghost use Rattle.tt_interner.specs.Rows.{kind_row, size, meaning, age, IsNew, IsOlder, AreOlder};
ghost use Rattle.tt_interner.specs.Stored.{
  Builds,
  Extends,
  IsAt,
  IsNoClauseList,
  IsUnbuilt,
  LacksItems,
  Stores,
  children_tree,
};
ghost use Rattle.tt_interner.specs.Children.{children_at, items_row};
ghost use Rattle.tt_interner.specs.Nodes.{stored_kind, BuildsLike};

use crate::children::{arg_child, item_at, store_items};
use crate::handle::{InternedKind, InternedList};
use crate::interner::Interner;
use tt_index::Refusal;
use tt_kinds::handle::{
    ArgListRow, ClauseListRow, ConstListRow, ConstRow, ExistentialListRow, ExistentialRow,
    PatternListRow, PatternRow, PredicateRow, TypeListRow, TypeRow,
};
use tt_kinds::{
    AnyHandle, BoundVarKinds, Child, Clause, Const, GenericArg, Kind, Parts, Pat,
    PolyExistentialPredicate, TermTable, Ty,
};

/// The contents of a stored term.
#[derive(Clone, Copy, Debug, PartialEq, Eq)]
pub struct Contents {
    /// The variables of the binder around the children, if there is one.
    pub bound_vars: Option<BoundVarKinds>,
    /// The children in order.
    pub parts: Parts,
}

impl Interner {
    /// Returns a stored term's kind. The handle has to be of this interner, which [`Interner::owns_any`] tests, and not
    /// of a list, which [`TermTable::has_items`] tests: [`Interner::list_child`] reads the items of a list.
    #[inline(always)]
    pub fn node_kind(&self, handle: AnyHandle) -> Kind
        requires owned { handle.number < size self.now.rows (term_table handle.table) }
        requires has_kind { IsFalse (has_items handle.table) }
        ensures table { kind_table result ≡ handle.table }
        ensures kind { result ≡ stored_kind self.now.rows handle }
        ensures parts { HasParts (size self.now.rows) (kind_shape result) }
        ensures means { meaning self.now.rows (term_table handle.table) handle.number
            ≡ fill (meaning self.now.rows) (kind_shape result) }
        ensures older { IsOlder self.now.rows
            (age self.now.rows (term_table handle.table) handle.number)
            (kind_shape result) }
    {
        self.are_rows();
        self.kind_at(handle)
    }

    // Returns a stored term's kind.
    fn kind_at(&self, handle: AnyHandle) -> Kind
        requires owned { handle.number < size self.now.rows (term_table handle.table) }
        requires has_kind { IsFalse (has_items handle.table) }
        ensures table { kind_table result ≡ handle.table }
        ensures row { IsAt self.now.rows (kind_row result) handle.number }
    {
        match handle.table {
            TermTable::Types => Kind::Ty(*handle.typed::<TypeRow>().kind(self)),
            TermTable::Consts => Kind::Const(*handle.typed::<ConstRow>().kind(self)),
            TermTable::Patterns => Kind::Pat(*handle.typed::<PatternRow>().kind(self)),
            TermTable::Predicates => Kind::Predicate(*handle.typed::<PredicateRow>().kind(self)),
            TermTable::Existentials => Kind::Existential(
                *handle.typed::<ExistentialRow>().kind(self),
            ),
            _ => unreachable!(),
        }
    }

    /// Returns the contents of a stored term, read in place. [`Interner::node_kind`] states the conditions on the term.
    #[inline(always)]
    pub fn node_parts(&self, handle: AnyHandle) -> Contents
        requires owned { handle.number < size self.now.rows (term_table handle.table) }
        requires has_kind { IsFalse (has_items handle.table) }
        ensures bound_vars { result.bound_vars ≡ form_binder (kind_form (stored_kind self.now.rows handle)) }
        ensures children { result.parts ≡ form_parts (kind_form (stored_kind self.now.rows handle)) }
        ensures table { kind_table (stored_kind self.now.rows handle) ≡ handle.table }
        ensures parts { HasParts (size self.now.rows) (kind_shape (stored_kind self.now.rows handle)) }
        ensures means { meaning self.now.rows (term_table handle.table) handle.number
            ≡ fill (meaning self.now.rows) (kind_shape (stored_kind self.now.rows handle)) }
        ensures older { IsOlder self.now.rows
            (age self.now.rows (term_table handle.table) handle.number)
            (kind_shape (stored_kind self.now.rows handle)) }
    {
        self.are_rows();
        self.contents_at(handle)
    }

    // Returns the contents of a stored term.
    #[inline(always)]
    fn contents_at(&self, handle: AnyHandle) -> Contents
        requires owned { handle.number < size self.now.rows (term_table handle.table) }
        requires has_kind { IsFalse (has_items handle.table) }
        ensures bound_vars { result.bound_vars ≡ form_binder (kind_form (stored_kind self.now.rows handle)) }
        ensures children { result.parts ≡ form_parts (kind_form (stored_kind self.now.rows handle)) }
    {
        match handle.table {
            TermTable::Types => {
                let kind = handle.typed::<TypeRow>().kind(self);
                Contents {
                    bound_vars: kind.bound_vars(),
                    parts: kind.parts(),
                }
            }
            TermTable::Consts => {
                let kind = handle.typed::<ConstRow>().kind(self);
                Contents {
                    bound_vars: kind.bound_vars(),
                    parts: kind.parts(),
                }
            }
            TermTable::Patterns => Contents {
                bound_vars: None,
                parts: handle.typed::<PatternRow>().kind(self).parts(),
            },
            TermTable::Predicates => {
                let kind = handle.typed::<PredicateRow>().kind(self);
                Contents {
                    bound_vars: Some(kind.bound_vars()),
                    parts: kind.as_ref().skip_binder().parts(),
                }
            }
            TermTable::Existentials => {
                let kind = handle.typed::<ExistentialRow>().kind(self);
                Contents {
                    bound_vars: Some(kind.bound_vars()),
                    parts: kind.as_ref().skip_binder().parts(),
                }
            }
            _ => unreachable!(),
        }
    }

    /// Returns the number of children of a stored list. The handle has to be of this interner, which
    /// [`Interner::owns_any`] tests, and of a list, which [`TermTable::has_items`] tests.
    #[inline(always)]
    pub fn list_len(&self, list: AnyHandle) -> usize
        requires owned { list.number < size self.now.rows (term_table list.table) }
        requires is_list { IsTrue (has_items list.table) }
        ensures len { result ≡ length (children_at self.now.rows list) }
        ensures means { meaning self.now.rows (term_table list.table) list.number
            ≡ items_tree
            list.table
            (fill_all (meaning self.now.rows) (children_shapes (children_at self.now.rows list))) }
        ensures parts { AreParts (size self.now.rows) (children_shapes (children_at self.now.rows list)) }
        ensures fit { All (λ c. IsItem list.table (child_sort c)) (children_at self.now.rows list) }
        ensures older { AreOlder self.now.rows
            (age self.now.rows (term_table list.table) list.number)
            (children_shapes (children_at self.now.rows list)) }
    {
        self.are_rows();
        self.count_at(list)
    }

    // Returns the number of children of a stored list.
    fn count_at(&self, list: AnyHandle) -> usize
        requires owned { list.number < size self.now.rows (term_table list.table) }
        requires is_list { IsTrue (has_items list.table) }
        ensures { result ≡ length (children_at self.now.rows list) }
    {
        match list.table {
            TermTable::TypeLists => list.typed::<TypeListRow>().as_slice(self).len(),
            TermTable::ConstLists => list.typed::<ConstListRow>().as_slice(self).len(),
            TermTable::ArgLists => list.typed::<ArgListRow>().as_slice(self).len(),
            TermTable::PatternLists => list.typed::<PatternListRow>().as_slice(self).len(),
            TermTable::ExistentialLists => list.typed::<ExistentialListRow>().as_slice(self).len(),
            TermTable::ClauseLists => list.typed::<ClauseListRow>().as_slice(self).len(),
            _ => unreachable!(),
        }
    }

    /// Returns the child at this place of a stored list. `index` has to be below [`Interner::list_len`], which states
    /// the conditions on the list.
    #[inline(always)]
    pub fn list_child(&self, list: AnyHandle, index: usize) -> Child
        requires owned { list.number < size self.now.rows (term_table list.table) }
        requires is_list { IsTrue (has_items list.table) }
        requires inside { index < length (children_at self.now.rows list) }
        ensures { slice_get (children_at self.now.rows list) index ≡ Some result }
    {
        match list.table {
            TermTable::TypeLists => item_at(
                list.typed::<TypeListRow>().as_slice(self),
                index,
            ).child(),
            TermTable::ConstLists => item_at(
                list.typed::<ConstListRow>().as_slice(self),
                index,
            ).child(),
            TermTable::ArgLists => arg_child(item_at(
                list.typed::<ArgListRow>().as_slice(self),
                index,
            )),
            TermTable::PatternLists => item_at(
                list.typed::<PatternListRow>().as_slice(self),
                index,
            ).child(),
            TermTable::ExistentialLists => {
                item_at(list.typed::<ExistentialListRow>().as_slice(self), index).child()
            }
            TermTable::ClauseLists => item_at(
                list.typed::<ClauseListRow>().as_slice(self),
                index,
            ).child(),
            _ => unreachable!(),
        }
    }

    /// Returns the stored term of this kind. Every handle and name in the kind has to be this interner's;
    /// [`Interner::owns_kind`] and the tests of the other kinds test it. Refused as [`Interner::mk_ty`] is.
    #[inline(always)]
    pub fn store(&mut self, kind: Kind) -> Result<AnyHandle, Refusal>
        requires { HasParts (size self.old.rows) (kind_shape kind) }
        ensures builds { Builds result (λ n. n.number) self.old self.new (kind_row kind) }
        ensures table { IfOk result (λ n. n.table ≡ kind_table kind) }
    {
        match kind {
            Kind::Ty(kind) => Ok(self.mk_ty(kind)?.any()),
            Kind::Const(kind) => Ok(self.mk_const(kind)?.any()),
            Kind::Pat(kind) => Ok(self.mk_pat(kind)?.any()),
            Kind::Predicate(kind) => Ok(self.mk_predicate(kind)?.any()),
            Kind::Existential(kind) => Ok(self.mk_existential(kind)?.any()),
        }
    }

    /// Returns the stored term that has these children in the places of the term's own, and is otherwise like it. The
    /// children have to be of this interner, which [`Interner::owns_child`] tests, and of the same sorts, which
    /// [`Parts::are_like`] tests. [`Interner::node_kind`] states the conditions on the term. Refused as
    /// [`Interner::mk_ty`] is.
    #[inline(always)]
    pub fn store_like(&mut self, handle: AnyHandle, parts: Parts) -> Result<AnyHandle, Refusal>
        requires owned { handle.number < size self.old.rows (term_table handle.table) }
        requires has_kind { IsFalse (has_items handle.table) }
        requires like { AreLike (form_parts (kind_form (stored_kind self.old.rows handle))) parts }
        requires parts { AreParts (size self.old.rows) (parts_shapes parts) }
        ensures { BuildsLike result self.old self.new handle parts }
    {
        self.are_rows();
        match handle.table {
            TermTable::Types => {
                let kind = handle.typed::<TypeRow>().kind(self).with_parts(parts);
                self.store(Kind::Ty(kind))
            }
            _ => self.store_any_like(handle, parts),
        }
    }

    // Returns the same as [`Interner::store_like`], for a term of any table.
    #[inline(never)]
    fn store_any_like(&mut self, handle: AnyHandle, parts: Parts) -> Result<AnyHandle, Refusal>
        requires owned { handle.number < size self.old.rows (term_table handle.table) }
        requires has_kind { IsFalse (has_items handle.table) }
        requires like { AreLike (form_parts (kind_form (stored_kind self.old.rows handle))) parts }
        requires parts { AreParts (size self.old.rows) (parts_shapes parts) }
        ensures { BuildsLike result self.old self.new handle parts }
    {
        self.are_rows();
        let kind = self.kind_at(handle).with_parts(parts);
        self.store(kind)
    }

    /// Returns the stored list of these children. The table has to be one of lists, which [`TermTable::has_items`]
    /// tests. The children have to be of this interner, which [`Interner::owns_child`] tests, and of the sort of the
    /// list's items. Refused as [`Interner::mk_tys`] is, and with `NotAClause` if a child in a list of clauses is not a
    /// clause. More than eight children are collected in a vector before the list is looked up, so `Memory` is possible
    /// even for a list that is stored already.
    pub fn store_list(&mut self, table: TermTable, items: &[Child]) -> Result<AnyHandle, Refusal>
        requires is_list { IsTrue (has_items table) }
        requires parts { AreParts (size self.old.rows) (children_shapes items.now) }
        requires fit { All (λ c. IsItem table (child_sort c)) items.now }
        // In each case:
        ensures extends { Extends self.old self.new }
        ensures counters { self.new.counters ≡ self.old.counters }
        // On success:
        ensures in_range { IfOk result (λ l. l.number < size self.new.rows (term_table table)) }
        ensures means { IfOk result (λ l. meaning self.new.rows (term_table table) l.number
            ≡ items_tree table (fill_all (meaning self.old.rows) (children_shapes items.now))) }
        ensures table { IfOk result (λ l. l.table ≡ table) }
        ensures stored { IfOk result (λ l. Stores self.old.rows self.new.rows
            (items_row table items.now)
            l.number) }
        ensures refused { OnOk result
            (IsNoClauseList (items_tree table (fill_all (meaning self.old.rows) (children_shapes items.now))) → ⊥) }
        // On a refusal:
        ensures err { OnErr result (self.new ≡ self.old) }
        ensures cause { IfErr result
            (IsUnbuilt self.old (items_tree table (fill_all (meaning self.old.rows) (children_shapes items.now)))) }
        // If there is such a list:
        ensures found { (n : ℕ) → IsAt self.old.rows (items_row table items.now) n
            → (((l : _) × (result ≡ Ok l) × (l.number ≡ n)) × (self.new ≡ self.old))
            ⊎ LacksItems result items.now }
        // If there is none:
        ensures full { IsNew (items_row table items.now) self.old.rows
            → (IsNoClauseList (children_tree self.old.rows table items.now) → ⊥)
            → self.old.limit ≤ size self.old.rows (term_table table)
            → (result ≡ Err Refusal.TableFull) ⊎ LacksItems result items.now }
        ensures other { IsNoClauseList (children_tree self.old.rows table items.now)
            → (result ≡ Err Refusal.NotAClause) ⊎ LacksItems result items.now }
    {
        match table {
            TermTable::TypeLists => store_items::<Ty>(self, items),
            TermTable::ConstLists => store_items::<Const>(self, items),
            TermTable::ArgLists => store_items::<GenericArg>(self, items),
            TermTable::PatternLists => store_items::<Pat>(self, items),
            TermTable::ExistentialLists => store_items::<PolyExistentialPredicate>(self, items),
            TermTable::ClauseLists => store_items::<Clause>(self, items),
            _ => unreachable!(),
        }
    }
}
