//! Handles: small values that name a row of one interner's tables.
//!
//! Two handles of one interner and one type are equal exactly when they name the same term. Handles of different
//! interners can't be told apart.

ghost use Rattle.std.specs.Prelude.{◌≡◌, refl};
ghost use Rattle.tt_kinds.specs.Handle.{handle, any_handle};
ghost use Rattle.tt_kinds.specs.declared.table.Table.{Table};
ghost use Rattle.tt_kinds.specs.declared.table.Table.TheVariants as table;
ghost use Rattle.tt_kinds.specs.declared.table.TermTable.{TermTable};
ghost use Rattle.tt_kinds.specs.declared.table.TermTable.TheVariants as terms_of;
ghost use Rattle.tt_kinds.specs.TermTable.{term_table};

use crate::table::{Table, TermTable};
use std::default::Default;
use std::marker::PhantomData;

/// A handle: the number of a row in an interner's table. The mark `K` says what the row holds, so that a type can't be
/// taken for a constant.
#[derive_where(Clone, Copy, Debug, PartialEq, Eq, Hash)]
pub struct Handle<K> {
    number: u32,
    #[derive_where(skip)]
    of: PhantomData<K>,
}

impl<K> Handle<K> {
    /// Returns the handle of the row with this number in its table.
    pub fn from_number(number: u32) -> Handle<K>
        ensures { result ≡ handle number }
    {
        Handle {
            number,
            of: PhantomData,
        }
    }

    /// Returns the number of the row in its table, counted from 0 in the order in which rows were added.
    pub fn number(self) -> u32
        ensures { result ≡ self.number }
    {
        let Handle { number, .. } = self;
        number
    }
}

/// A handle of a stored term, or of a stored list of terms, that has its table as a value.
#[derive(Clone, Copy, Debug, PartialEq, Eq)]
pub struct AnyHandle {
    /// The table of the row.
    pub table: TermTable,
    /// The number of the row in its table.
    pub number: u32,
}

impl AnyHandle {
    /// Returns the handle with a mark in place of the table. The mark has to be of this table.
    #[inline(always)]
    pub fn typed<K: IsTermRow>(self) -> Handle<K>
        requires { self.table ≡ K.IsTermRow.TERM_TABLE }
        ensures { self ≡ any_handle K.IsTermRow.TERM_TABLE result }
    {
        Handle::from_number(self.number)
    }
}

impl<K: IsTermRow> Handle<K> {
    /// Returns the handle with its table as a value.
    #[inline(always)]
    pub fn any(self) -> AnyHandle
        ensures { result ≡ any_handle K.IsTermRow.TERM_TABLE self }
    {
        AnyHandle {
            table: K::TERM_TABLE,
            number: self.number(),
        }
    }
}

/// A mark of handles. It gives the table of their rows. Clauses are rows of the table of predicates.
pub trait IsStored {
    ghost TABLE: { Table };

    /// The table of these rows.
    const TABLE: Table;
}

/// A mark of handles of terms, or of lists of terms.
pub trait IsTermRow: IsStored {
    ghost TERM_TABLE: { TermTable };

    ghost same_table: { term_table TERM_TABLE ≡ Self.IsStored.TABLE };

    /// The table of these rows.
    const TERM_TABLE: TermTable;
}

/// A mark of handles whose table has a first row in every interner from the start: the empty list, or the anonymous
/// name. These are the marks of lists and texts.
pub trait HasFirst {}

/// The first row: the empty list, or the anonymous name `'_`.
impl<K: HasFirst> Default for Handle<K> {
    ghost is_default = { λ first. first ≡ handle 0 };

    fn default() -> Handle<K> {
        Handle::from_number(0)
    }
}

/// The mark of types.
pub enum TypeRow {}

impl IsStored for TypeRow {
    ghost TABLE = { table.Types };

    const TABLE: Table = Table::Types;
}

impl IsTermRow for TypeRow {
    ghost TERM_TABLE = { terms_of.Types };

    ghost same_table = { refl };

    const TERM_TABLE: TermTable = TermTable::Types;
}

/// A type: the handle of a stored [`TyKind`](crate::TyKind).
pub type Ty = Handle<TypeRow>;

/// A type for places that hold no type yet, such as the unused places of a small vector. It names the first row of the
/// types, which an interner need not have.
impl Default for Ty {
    ghost is_default = { λ first. first ≡ handle 0 };

    fn default() -> Ty {
        Ty::from_number(0)
    }
}

/// The mark of constants.
pub enum ConstRow {}

impl IsStored for ConstRow {
    ghost TABLE = { table.Consts };

    const TABLE: Table = Table::Consts;
}

impl IsTermRow for ConstRow {
    ghost TERM_TABLE = { terms_of.Consts };

    ghost same_table = { refl };

    const TERM_TABLE: TermTable = TermTable::Consts;
}

/// A constant of the type level, such as the length of an array.
pub type Const = Handle<ConstRow>;

/// The mark of patterns.
pub enum PatternRow {}

impl IsStored for PatternRow {
    ghost TABLE = { table.Patterns };

    const TABLE: Table = Table::Patterns;
}

impl IsTermRow for PatternRow {
    ghost TERM_TABLE = { terms_of.Patterns };

    ghost same_table = { refl };

    const TERM_TABLE: TermTable = TermTable::Patterns;
}

/// A pattern that restricts a type.
pub type Pat = Handle<PatternRow>;

/// The mark of predicates.
pub enum PredicateRow {}

impl IsStored for PredicateRow {
    ghost TABLE = { table.Predicates };

    const TABLE: Table = Table::Predicates;
}

impl IsTermRow for PredicateRow {
    ghost TERM_TABLE = { terms_of.Predicates };

    ghost same_table = { refl };

    const TERM_TABLE: TermTable = TermTable::Predicates;
}

/// A condition on terms, such as that a type implements a trait.
pub type Predicate = Handle<PredicateRow>;

/// The mark of clauses.
pub enum ClauseRow {}

impl IsStored for ClauseRow {
    ghost TABLE = { table.Predicates };

    const TABLE: Table = Table::Predicates;
}

impl IsTermRow for ClauseRow {
    ghost TERM_TABLE = { terms_of.Predicates };

    ghost same_table = { refl };

    const TERM_TABLE: TermTable = TermTable::Predicates;
}

/// A predicate that may be in a list of assumptions.
pub type Clause = Handle<ClauseRow>;

/// The mark of existential predicates.
pub enum ExistentialRow {}

impl IsStored for ExistentialRow {
    ghost TABLE = { table.Existentials };

    const TABLE: Table = Table::Existentials;
}

impl IsTermRow for ExistentialRow {
    ghost TERM_TABLE = { terms_of.Existentials };

    ghost same_table = { refl };

    const TERM_TABLE: TermTable = TermTable::Existentials;
}

/// A predicate of a trait object on the type that it hides, under its own binder: the handle of a stored
/// [`ExistentialPredicate`](crate::ExistentialPredicate).
pub type PolyExistentialPredicate = Handle<ExistentialRow>;

/// The mark of lists of clauses.
pub enum ClauseListRow {}

impl IsStored for ClauseListRow {
    ghost TABLE = { table.ClauseLists };

    const TABLE: Table = Table::ClauseLists;
}

impl IsTermRow for ClauseListRow {
    ghost TERM_TABLE = { terms_of.ClauseLists };

    ghost same_table = { refl };

    const TERM_TABLE: TermTable = TermTable::ClauseLists;
}

impl HasFirst for ClauseListRow {}

/// A list of clauses.
///
/// The default is the empty list, which every interner has from the start.
pub type Clauses = Handle<ClauseListRow>;

/// The mark of lists of generic arguments.
pub enum ArgListRow {}

impl IsStored for ArgListRow {
    ghost TABLE = { table.ArgLists };

    const TABLE: Table = Table::ArgLists;
}

impl IsTermRow for ArgListRow {
    ghost TERM_TABLE = { terms_of.ArgLists };

    ghost same_table = { refl };

    const TERM_TABLE: TermTable = TermTable::ArgLists;
}

impl HasFirst for ArgListRow {}

/// A list of generic arguments: types, regions and constants.
///
/// The default is the empty list, which every interner has from the start.
pub type GenericArgs = Handle<ArgListRow>;

/// The mark of lists of types.
pub enum TypeListRow {}

impl IsStored for TypeListRow {
    ghost TABLE = { table.TypeLists };

    const TABLE: Table = Table::TypeLists;
}

impl IsTermRow for TypeListRow {
    ghost TERM_TABLE = { terms_of.TypeLists };

    ghost same_table = { refl };

    const TERM_TABLE: TermTable = TermTable::TypeLists;
}

impl HasFirst for TypeListRow {}

/// A list of types.
///
/// The default is the empty list, which every interner has from the start.
pub type Tys = Handle<TypeListRow>;

/// The mark of lists of constants.
pub enum ConstListRow {}

impl IsStored for ConstListRow {
    ghost TABLE = { table.ConstLists };

    const TABLE: Table = Table::ConstLists;
}

impl IsTermRow for ConstListRow {
    ghost TERM_TABLE = { terms_of.ConstLists };

    ghost same_table = { refl };

    const TERM_TABLE: TermTable = TermTable::ConstLists;
}

impl HasFirst for ConstListRow {}

/// A list of constants.
///
/// The default is the empty list, which every interner has from the start.
pub type Consts = Handle<ConstListRow>;

/// The mark of lists of patterns.
pub enum PatternListRow {}

impl IsStored for PatternListRow {
    ghost TABLE = { table.PatternLists };

    const TABLE: Table = Table::PatternLists;
}

impl IsTermRow for PatternListRow {
    ghost TERM_TABLE = { terms_of.PatternLists };

    ghost same_table = { refl };

    const TERM_TABLE: TermTable = TermTable::PatternLists;
}

impl HasFirst for PatternListRow {}

/// A list of patterns.
///
/// The default is the empty list, which every interner has from the start.
pub type PatList = Handle<PatternListRow>;

/// The mark of lists of a binder's variables.
pub enum VarListRow {}

impl IsStored for VarListRow {
    ghost TABLE = { table.VarLists };

    const TABLE: Table = Table::VarLists;
}

impl HasFirst for VarListRow {}

/// The list of the variables that a binder binds, in order.
///
/// The default is the empty list, which every interner has from the start.
pub type BoundVarKinds = Handle<VarListRow>;

/// The mark of lists of existential predicates.
pub enum ExistentialListRow {}

impl IsStored for ExistentialListRow {
    ghost TABLE = { table.ExistentialLists };

    const TABLE: Table = Table::ExistentialLists;
}

impl IsTermRow for ExistentialListRow {
    ghost TERM_TABLE = { terms_of.ExistentialLists };

    ghost same_table = { refl };

    const TERM_TABLE: TermTable = TermTable::ExistentialLists;
}

impl HasFirst for ExistentialListRow {}

/// The list of the predicates of a trait object, each under its own binder.
///
/// The default is the empty list, which every interner has from the start.
pub type BoundExistentialPredicates = Handle<ExistentialListRow>;

/// The mark of lists of assumptions on regions.
pub enum AssumptionListRow {}

impl IsStored for AssumptionListRow {
    ghost TABLE = { table.AssumptionLists };

    const TABLE: Table = Table::AssumptionLists;
}

impl HasFirst for AssumptionListRow {}

/// A list of assumptions on regions.
///
/// The default is the empty list, which every interner has from the start.
pub type RegionAssumptions = Handle<AssumptionListRow>;

/// The mark of texts.
pub enum SymbolRow {}

impl IsStored for SymbolRow {
    ghost TABLE = { table.Symbols };

    const TABLE: Table = Table::Symbols;
}

impl HasFirst for SymbolRow {}

/// A name: an interned text.
///
/// The default is the anonymous name `'_`, which every interner has from the start.
pub type Symbol = Handle<SymbolRow>;
