//! Tests of whether handles are of an interner, as its calls require. Handles of different interners can't be told
//! apart.

ghost use Rattle.std.specs.Prelude.{◌≡◌, ◌<◌, ◌↔◌, IsTrue};
ghost use Rattle.tt_kinds.specs.Bound.{region_name, var_kind};
ghost use Rattle.tt_kinds.specs.Shape.{IsPart, IsNamed, IsNamedKind};
ghost use Rattle.tt_kinds.specs.Kinds.{region_shape, arg_shape};
ghost use Rattle.tt_kinds.specs.Values.{assumption_shape};
ghost use Rattle.tt_interner.specs.Rows.{size, IsClause};

use super::Interner;
use crate::handle::InternedKind;
use tt_kinds::{
    BoundRegionKind, BoundVariableKind, Clause, GenericArg, GenericArgKind, Handle, IsStored,
    OutlivesPredicate, Predicate, Region, RegionKind, Table,
};

impl Interner {
    // Returns the number of rows of a table.
    #[inline(always)]
    pub(super) fn table_len(&self, table: Table) -> usize
        ensures { result ≡ size self.now.rows table }
    {
        match table {
            Table::Types => self.types.len(),
            Table::Consts => self.consts.len(),
            Table::Patterns => self.patterns.len(),
            Table::Predicates => self.predicates.len(),
            Table::Existentials => self.existentials.len(),
            Table::ClauseLists => self.clause_lists.len(),
            Table::TypeLists => self.type_lists.len(),
            Table::ConstLists => self.const_lists.len(),
            Table::ArgLists => self.arg_lists.len(),
            Table::PatternLists => self.pattern_lists.len(),
            Table::VarLists => self.var_lists.len(),
            Table::ExistentialLists => self.existential_lists.len(),
            Table::AssumptionLists => self.assumption_lists.len(),
            Table::Symbols => self.symbols.len(),
            Table::Declarations => self.declarations.len(),
            Table::Definitions => self.definitions.len(),
        }
    }

    /// Returns whether `handle` names a row of this interner, for generic code. If you know what the handle is of, use
    /// the test by name, such as [`Interner::owns_ty`], whose contract names the table.
    ///
    /// For a [`Clause`], this tests only that there is a predicate of its number. Calls that take a clause also require
    /// that the predicate is a clause, which [`Interner::owns_clause`] tests.
    pub fn owns<K: IsStored>(&self, handle: Handle<K>) -> bool
        ensures { IsTrue result ↔ (handle.number < size self.now.rows K.TABLE) }
    {
        (handle.number() as usize) < self.table_len(K::TABLE)
    }

    /// Returns whether `clause` is a predicate of this interner, and a clause. This is the whole condition of calls
    /// that take a clause.
    pub fn owns_clause(&self, clause: Clause) -> bool
        ensures { IsTrue result ↔ IsClause self.now.rows clause.number }
    {
        self.are_rows();
        let predicate = Predicate::from_number(clause.number());
        if !self.owns(predicate) {
            return false;
        }
        predicate.kind(self).as_ref().skip_binder().is_clause()
    }

    /// Returns whether the name that a bound region is printed by, if any, is of this interner.
    pub fn owns_region_name(&self, name: &BoundRegionKind) -> bool
        ensures { IsTrue result ↔ IsNamed (size self.now.rows) (region_name name.now) }
    {
        match name {
            BoundRegionKind::NamedForPrinting(symbol) => self.owns(*symbol),
            _ => true,
        }
    }

    /// Returns whether the name that a binder's variable is printed by, if any, is of this interner.
    pub fn owns_bound_var(&self, var: &BoundVariableKind) -> bool
        ensures { IsTrue result ↔ IsNamedKind (size self.now.rows) (var_kind var.now) }
    {
        match var {
            BoundVariableKind::Region(name) => self.owns_region_name(name),
            _ => true,
        }
    }

    /// Returns whether the region's name, if any, is a symbol of this interner.
    pub fn owns_region(&self, region: &Region) -> bool
        ensures { IsTrue result ↔ IsPart (size self.now.rows) (region_shape region.now) }
    {
        match region.kind() {
            RegionKind::ReEarlyParam(param) => self.owns(param.name),
            RegionKind::ReBound(_, bound) => self.owns_region_name(&bound.kind),
            RegionKind::ReLateParam(param) => self.owns_region_name(&param.kind),
            RegionKind::RePlaceholder(placeholder) => {
                self.owns_region_name(&placeholder.bound.kind)
            }
            _ => true,
        }
    }

    /// Returns whether all parts of the argument are of this interner.
    pub fn owns_arg(&self, arg: &GenericArg) -> bool
        ensures { IsTrue result ↔ IsPart (size self.now.rows) (arg_shape arg.now) }
    {
        match arg.kind() {
            GenericArgKind::Lifetime(region) => self.owns_region(&region),
            GenericArgKind::Type(ty) => self.owns(ty),
            GenericArgKind::Const(constant) => self.owns(constant),
        }
    }

    /// Returns whether all parts of the assumption are of this interner.
    pub fn owns_assumption(&self, assumption: &OutlivesPredicate<GenericArg>) -> bool
        ensures { IsTrue result ↔ IsPart (size self.now.rows) (assumption_shape assumption.now) }
    {
        self.owns_arg(&assumption.0) && self.owns_region(&assumption.1)
    }
}
