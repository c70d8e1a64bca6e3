//! The tables of lists of a new interner.

ghost use Rattle.std.specs.Prelude.{◌≡◌, [], ◌∷◌, ◌++◌, OnOk, IfOk, IfErr};
ghost use Rattle.tt_interner.specs.Tables.{listed_by, no_info};

use crate::tables::{TyList, first_list, first_ty_list};
use indexmap::IndexMap;
use std::alloc::Global;
use tt_flags::FlagComputation;
use tt_index::Refusal;
use tt_kinds::{
    BoundVariableKind, Clause, Const, GenericArg, OutlivesPredicate, Pat, PolyExistentialPredicate,
    Table, Ty,
};

/// The tables of lists of types, arguments, variables and constants, each with the empty list alone.
#[derive(Drop)]
pub(crate) struct EmptyLists {
    pub(crate) type_lists: IndexMap<TyList, FlagComputation>,
    pub(crate) arg_lists: IndexMap<Vec<GenericArg>, FlagComputation>,
    pub(crate) var_lists: IndexMap<Vec<BoundVariableKind>, FlagComputation>,
    pub(crate) const_lists: IndexMap<Vec<Const>, FlagComputation>,
}

/// The tables of lists of patterns, clauses, existential predicates and assumptions, each with the empty list alone.
#[derive(Drop)]
pub(crate) struct MoreEmptyLists {
    pub(crate) pattern_lists: IndexMap<Vec<Pat>, FlagComputation>,
    pub(crate) clause_lists: IndexMap<Vec<Clause>, FlagComputation>,
    pub(crate) existential_lists: IndexMap<Vec<PolyExistentialPredicate>, FlagComputation>,
    pub(crate) assumption_lists: IndexMap<Vec<OutlivesPredicate<GenericArg>>, FlagComputation>,
}

/// Returns the first four tables of lists, and records them in the order.
pub(crate) fn empty_lists(alloc: Global, order: &mut Vec<Table>) -> Result<EmptyLists, Refusal>
    ensures order { OnOk result (order.new.items
        ≡ order.old.items ++ Table.TypeLists ∷ Table.ArgLists ∷ Table.VarLists ∷ Table.ConstLists ∷ []) }
    ensures types { IfOk result (λ lists. listed_by (λ k. k.items) lists.type_lists.entries ≡ ([], no_info) ∷ []) }
    ensures args { IfOk result (λ lists. listed_by (λ k. k.items) lists.arg_lists.entries ≡ ([], no_info) ∷ []) }
    ensures vars { IfOk result (λ lists. listed_by (λ k. k.items) lists.var_lists.entries ≡ ([], no_info) ∷ []) }
    ensures consts { IfOk result (λ lists. listed_by (λ k. k.items) lists.const_lists.entries ≡ ([], no_info) ∷ []) }
    ensures cause { IfErr result (λ e. e ≡ Refusal.Memory) }
{
    let type_lists = first_ty_list(alloc, order, Table::TypeLists)?;
    let arg_lists = first_list(alloc, order, Table::ArgLists)?;
    let var_lists = first_list(alloc, order, Table::VarLists)?;
    let const_lists = first_list(alloc, order, Table::ConstLists)?;
    Ok(EmptyLists {
        type_lists,
        arg_lists,
        var_lists,
        const_lists,
    })
}

/// Returns the other tables of lists, and records them in the order.
pub(crate) fn more_empty_lists(
    alloc: Global,
    order: &mut Vec<Table>,
) -> Result<MoreEmptyLists, Refusal>
    ensures order { OnOk result (order.new.items
        ≡ order.old.items
        ++ Table.PatternLists ∷ Table.ClauseLists ∷ Table.ExistentialLists ∷ Table.AssumptionLists ∷ []) }
    ensures patterns { IfOk result (λ lists. listed_by (λ k. k.items) lists.pattern_lists.entries
        ≡ ([], no_info) ∷ []) }
    ensures clauses { IfOk result (λ lists. listed_by (λ k. k.items) lists.clause_lists.entries ≡ ([], no_info) ∷ []) }
    ensures existentials { IfOk result (λ lists. listed_by (λ k. k.items) lists.existential_lists.entries
        ≡ ([], no_info) ∷ []) }
    ensures assumptions { IfOk result (λ lists. listed_by (λ k. k.items) lists.assumption_lists.entries
        ≡ ([], no_info) ∷ []) }
    ensures cause { IfErr result (λ e. e ≡ Refusal.Memory) }
{
    let pattern_lists = first_list(alloc, order, Table::PatternLists)?;
    let clause_lists = first_list(alloc, order, Table::ClauseLists)?;
    let existential_lists = first_list(alloc, order, Table::ExistentialLists)?;
    let assumption_lists = first_list(alloc, order, Table::AssumptionLists)?;
    Ok(MoreEmptyLists {
        pattern_lists,
        clause_lists,
        existential_lists,
        assumption_lists,
    })
}
