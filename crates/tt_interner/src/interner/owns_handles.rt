//! Tests of whether handles are of an interner, by name. [`Interner::owns`] serves generic code.

ghost use Rattle.std.specs.Prelude.{◌<◌, ◌↔◌, IsTrue};
ghost use Rattle.tt_interner.specs.Rows.{size};

use super::Interner;
use tt_kinds::{
    BoundExistentialPredicates, BoundVarKinds, Clauses, Const, Consts, GenericArgs, Pat, PatList,
    PolyExistentialPredicate, Predicate, RegionAssumptions, Symbol, Table, Ty, Tys,
};

impl Interner {
    /// Returns whether `ty` is a type of this interner.
    pub fn owns_ty(&self, ty: Ty) -> bool
        ensures { IsTrue result ↔ (ty.number < size self.now.rows Table.Types) }
    {
        self.owns(ty)
    }

    /// Returns whether `constant` is a constant of this interner.
    pub fn owns_const(&self, constant: Const) -> bool
        ensures { IsTrue result ↔ (constant.number < size self.now.rows Table.Consts) }
    {
        self.owns(constant)
    }

    /// Returns whether `pat` is a pattern of this interner.
    pub fn owns_pat(&self, pat: Pat) -> bool
        ensures { IsTrue result ↔ (pat.number < size self.now.rows Table.Patterns) }
    {
        self.owns(pat)
    }

    /// Returns whether `predicate` is a predicate of this interner. It may be a clause.
    pub fn owns_predicate(&self, predicate: Predicate) -> bool
        ensures { IsTrue result ↔ (predicate.number < size self.now.rows Table.Predicates) }
    {
        self.owns(predicate)
    }

    /// Returns whether `existential` is an existential predicate of this interner.
    pub fn owns_existential(&self, existential: PolyExistentialPredicate) -> bool
        ensures { IsTrue result ↔ (existential.number < size self.now.rows Table.Existentials) }
    {
        self.owns(existential)
    }

    /// Returns whether `clauses` is a list of clauses of this interner.
    pub fn owns_clauses(&self, clauses: Clauses) -> bool
        ensures { IsTrue result ↔ (clauses.number < size self.now.rows Table.ClauseLists) }
    {
        self.owns(clauses)
    }

    /// Returns whether `tys` is a list of types of this interner.
    pub fn owns_tys(&self, tys: Tys) -> bool
        ensures { IsTrue result ↔ (tys.number < size self.now.rows Table.TypeLists) }
    {
        self.owns(tys)
    }

    /// Returns whether `consts` is a list of constants of this interner.
    pub fn owns_consts(&self, consts: Consts) -> bool
        ensures { IsTrue result ↔ (consts.number < size self.now.rows Table.ConstLists) }
    {
        self.owns(consts)
    }

    /// Returns whether `args` is a list of generic arguments of this interner.
    pub fn owns_args(&self, args: GenericArgs) -> bool
        ensures { IsTrue result ↔ (args.number < size self.now.rows Table.ArgLists) }
    {
        self.owns(args)
    }

    /// Returns whether `pats` is a list of patterns of this interner.
    pub fn owns_pat_list(&self, pats: PatList) -> bool
        ensures { IsTrue result ↔ (pats.number < size self.now.rows Table.PatternLists) }
    {
        self.owns(pats)
    }

    /// Returns whether `vars` is a list of a binder's variables of this interner.
    pub fn owns_bound_vars(&self, vars: BoundVarKinds) -> bool
        ensures { IsTrue result ↔ (vars.number < size self.now.rows Table.VarLists) }
    {
        self.owns(vars)
    }

    /// Returns whether `existentials` is a list of existential predicates of this interner.
    pub fn owns_existentials(&self, existentials: BoundExistentialPredicates) -> bool
        ensures { IsTrue result ↔ (existentials.number < size self.now.rows Table.ExistentialLists) }
    {
        self.owns(existentials)
    }

    /// Returns whether `assumptions` is a list of assumptions on regions of this interner.
    pub fn owns_assumptions(&self, assumptions: RegionAssumptions) -> bool
        ensures { IsTrue result ↔ (assumptions.number < size self.now.rows Table.AssumptionLists) }
    {
        self.owns(assumptions)
    }

    /// Returns whether `symbol` is a name of this interner.
    pub fn owns_symbol(&self, symbol: Symbol) -> bool
        ensures { IsTrue result ↔ (symbol.number < size self.now.rows Table.Symbols) }
    {
        self.owns(symbol)
    }
}
