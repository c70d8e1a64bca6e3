//! The interner.

ghost use Rattle.tt_index.specs.Greatest.{greatest};
ghost use Rattle.std.specs.Prelude.{◌≡◌, ◌<◌, ◌≤◌, IfOk, IfErr, min};
ghost use Rattle.tt_kinds.specs.declared.table.Table.{Table};
ghost use Rattle.tt_interner.specs.Rows.{AreRows, size};
ghost use Rattle.tt_interner.specs.Stored.{first_rows, HasFirst};
ghost use Rattle.tt_interner.specs.Laws.{AreInterned};

mod args;
mod assumptions;
mod bound_vars;
mod consts;
mod counters;
mod declarations;
mod definitions;
mod empty_lists;
mod existentials;
mod info;
mod nesting;
mod owns;
mod owns_handles;
mod owns_ids;
mod owns_kinds;
mod owns_views;
mod patterns;
mod predicates;
mod symbols;
mod types;

use crate::tables::{TyList, first_text};
pub use declarations::{AliasOfId, RegionName};
use empty_lists::{empty_lists, more_empty_lists};
use indexmap::IndexMap;
use smallvec::SmallVec;
use std::alloc::Global;
use std::marker::Model;
use tt_flags::FlagComputation;
use tt_index::{GREATEST_INDEX, Refusal};
use tt_kinds::{
    AdtId, Binder, BoundVariableKind, Clause, Const, ConstKind, Declaration, ExistentialPredicate,
    GenericArg, OutlivesPredicate, Pat, PatternKind, PolyExistentialPredicate, PredicateKind,
    Table, Ty, TyKind, VariantDef,
};

/// Stores each type, constant, pattern, predicate, list and text once, so that handles of one table are equal exactly
/// when their terms are.
///
/// A table has at most as many rows as the interner's limit. A stored term is never removed.
#[derive(Drop)]
pub struct Interner {
    types: IndexMap<TyKind, FlagComputation>,
    consts: IndexMap<ConstKind, FlagComputation>,
    patterns: IndexMap<PatternKind, FlagComputation>,
    predicates: IndexMap<Binder<PredicateKind>, FlagComputation>,
    existentials: IndexMap<Binder<ExistentialPredicate>, FlagComputation>,
    clause_lists: IndexMap<Vec<Clause>, FlagComputation>,
    type_lists: IndexMap<TyList, FlagComputation>,
    const_lists: IndexMap<Vec<Const>, FlagComputation>,
    arg_lists: IndexMap<Vec<GenericArg>, FlagComputation>,
    pattern_lists: IndexMap<Vec<Pat>, FlagComputation>,
    var_lists: IndexMap<Vec<BoundVariableKind>, FlagComputation>,
    existential_lists: IndexMap<Vec<PolyExistentialPredicate>, FlagComputation>,
    assumption_lists: IndexMap<Vec<OutlivesPredicate<GenericArg>>, FlagComputation>,
    symbols: IndexMap<String, ()>,
    // an id's number is its declaration's place
    declarations: Vec<Declaration>,
    // the variants of each defined data type
    definitions: IndexMap<AdtId, Vec<VariantDef>>,
    // the table of each row, in the order in which rows were added
    order: Vec<Table>,
    // a copy of a list of types that is looked up and is too long for a key in place
    long_list: TyList,
    limit: u32,
    descents: u64,
    shift_descents: u64,
}

impl Model for Interner {
    ghost use Rattle.tt_interner.specs.Stored.{Terms};

    ghost Value = { Terms };

    ghost use Rattle.tt_interner.specs.Kept.{terms, AreKept};

    ghost view = { terms };

    ghost invariant = { AreKept };
}

impl Interner {
    /// Creates an interner with the empty lists and the symbol `'_`, whose tables may have at most [`GREATEST_INDEX`]
    /// rows each. Refused with `Memory` alone.
    pub fn new(alloc: Global) -> Result<Interner, Refusal>
        ensures rows { IfOk result (λ cx. cx.rows ≡ first_rows) }
        ensures limit { IfOk result (λ cx. cx.limit ≡ greatest) }
        ensures counters { IfOk result (λ cx. cx.counters ≡ record { descents = 0; shift_descents = 0 }) }
        ensures cause { IfErr result (λ e. e ≡ Refusal.Memory) }
    {
        Interner::with_limit(alloc, GREATEST_INDEX)
    }

    /// Creates an interner with the empty lists and the symbol `'_`, whose tables may have at most `limit` rows each. A
    /// limit above [`GREATEST_INDEX`] counts as [`GREATEST_INDEX`].
    ///
    /// A limit of 0 is refused with `TableFull`, since it leaves no room for these first rows. Any other limit is
    /// refused with `Memory` alone.
    pub fn with_limit(alloc: Global, limit: u32) -> Result<Interner, Refusal>
        ensures rows { IfOk result (λ cx. cx.rows ≡ first_rows) }
        ensures limit { IfOk result (λ cx. cx.limit ≡ min limit greatest) }
        ensures counters { IfOk result (λ cx. cx.counters ≡ record { descents = 0; shift_descents = 0 }) }
        ensures full { limit ≡ 0 → result ≡ Err Refusal.TableFull }
        ensures cause { 0 < limit → IfErr result (λ e. e ≡ Refusal.Memory) }
    {
        if limit == 0 {
            return Err(Refusal::TableFull);
        }
        let mut order = Vec::new(alloc);
        let first = empty_lists(alloc, &mut order)?;
        let more = more_empty_lists(alloc, &mut order)?;
        let symbols = first_text(alloc, &mut order, Table::Symbols)?;
        Ok(Interner {
            types: IndexMap::new(alloc),
            consts: IndexMap::new(alloc),
            patterns: IndexMap::new(alloc),
            predicates: IndexMap::new(alloc),
            existentials: IndexMap::new(alloc),
            clause_lists: more.clause_lists,
            type_lists: first.type_lists,
            const_lists: first.const_lists,
            arg_lists: first.arg_lists,
            pattern_lists: more.pattern_lists,
            var_lists: first.var_lists,
            existential_lists: more.existential_lists,
            assumption_lists: more.assumption_lists,
            symbols,
            declarations: Vec::new(alloc),
            definitions: IndexMap::new(alloc),
            order,
            long_list: SmallVec::new(alloc),
            limit: limit.min(GREATEST_INDEX),
            descents: 0,
            shift_descents: 0,
        })
    }

    /// Does nothing. The contract gives callers the facts that hold for all rows. One of them is that no table has more
    /// rows than [`Interner::limit`].
    pub fn are_rows(&self)
        ensures are { AreRows self.now.rows }
        ensures first { HasFirst self.now.rows }
        ensures within { (table : Table) → size self.now.rows table ≤ self.now.limit }
    {
        let _order = &self.order;
    }

    /// Does nothing. The contract gives callers the fact that handles of one table are equal exactly when their terms
    /// are.
    pub fn are_interned(&self)
        ensures { AreInterned self.now.rows }
    {
        self.are_rows();
    }

    /// Returns the greatest number of rows that a table may have.
    pub fn limit(&self) -> u32
        ensures { result ≡ self.now.limit }
    {
        self.limit
    }

    /// Returns the allocator of the tables.
    pub fn allocator(&self) -> Global {
        *self.types.allocator()
    }

    /// Returns how often an argument folder has taken a type apart. The count stops at `u64::MAX`.
    pub fn descents(&self) -> u64
        ensures { result ≡ self.now.counters.descents }
    {
        self.descents
    }

    /// Returns how often a shifter has taken a type apart. The count stops at `u64::MAX`.
    pub fn shift_descents(&self) -> u64
        ensures { result ≡ self.now.counters.shift_descents }
    {
        self.shift_descents
    }
}
