//! The tables of an interner.

ghost use Rattle.std.specs.Prelude.{◌≡◌};
ghost use Rattle.tt_kinds.specs.TermTable.{has_items, is_term, term_table};

/// A table of an interner.
#[derive(Clone, Copy, Debug, PartialEq, Eq)]
pub enum Table {
    /// Types.
    Types,
    /// Constants.
    Consts,
    /// Patterns.
    Patterns,
    /// Predicates, each under its binder.
    Predicates,
    /// Existential predicates, each under its binder.
    Existentials,
    /// Lists of clauses.
    ClauseLists,
    /// Lists of types.
    TypeLists,
    /// Lists of constants.
    ConstLists,
    /// Lists of generic arguments.
    ArgLists,
    /// Lists of patterns.
    PatternLists,
    /// Lists of a binder's variables.
    VarLists,
    /// Lists of existential predicates.
    ExistentialLists,
    /// Lists of assumptions on regions.
    AssumptionLists,
    /// Texts.
    Symbols,
    /// Declarations, each under its id.
    Declarations,
    /// Definitions of data types, at most one for each id.
    Definitions,
}

/// A table of terms, or of lists of terms: a walk follows the handles of its rows.
#[derive(Clone, Copy, Debug, PartialEq, Eq)]
pub enum TermTable {
    /// Types.
    Types,
    /// Constants.
    Consts,
    /// Patterns.
    Patterns,
    /// Predicates.
    Predicates,
    /// Existential predicates.
    Existentials,
    /// Lists of clauses.
    ClauseLists,
    /// Lists of types.
    TypeLists,
    /// Lists of constants.
    ConstLists,
    /// Lists of generic arguments.
    ArgLists,
    /// Lists of patterns.
    PatternLists,
    /// Lists of existential predicates.
    ExistentialLists,
}

impl TermTable {
    /// Returns the table.
    #[inline(always)]
    pub fn table(self) -> Table
        ensures { result ≡ term_table self }
    {
        match self {
            TermTable::Types => Table::Types,
            TermTable::Consts => Table::Consts,
            TermTable::Patterns => Table::Patterns,
            TermTable::Predicates => Table::Predicates,
            TermTable::Existentials => Table::Existentials,
            TermTable::ClauseLists => Table::ClauseLists,
            TermTable::TypeLists => Table::TypeLists,
            TermTable::ConstLists => Table::ConstLists,
            TermTable::ArgLists => Table::ArgLists,
            TermTable::PatternLists => Table::PatternLists,
            TermTable::ExistentialLists => Table::ExistentialLists,
        }
    }

    /// Returns whether the rows of the table are lists.
    #[inline(always)]
    pub fn has_items(self) -> bool
        ensures { result ≡ has_items self }
    {
        match self {
            TermTable::ClauseLists
            | TermTable::TypeLists
            | TermTable::ConstLists
            | TermTable::ArgLists
            | TermTable::PatternLists
            | TermTable::ExistentialLists => true,
            _ => false,
        }
    }

    /// Returns whether the rows of the table are terms. A list of clauses is a term too.
    #[inline(always)]
    pub fn is_term(self) -> bool
        ensures { result ≡ is_term self }
    {
        match self {
            TermTable::Types
            | TermTable::Consts
            | TermTable::Patterns
            | TermTable::Predicates
            | TermTable::Existentials
            | TermTable::ClauseLists => true,
            _ => false,
        }
    }
}
