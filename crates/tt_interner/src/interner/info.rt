//! The cached information of rows: their flags and outer exclusive binders.

ghost use Rattle.std.specs.Prelude.{◌<◌, IsTrue};
ghost use Rattle.tt_interner.specs.Info.{keeps_info};
ghost use Rattle.tt_interner.specs.Rows.{size, meaning};
ghost use Rattle.tt_interner.specs.Stored.{IsInfo};

use super::Interner;
use crate::flags::HasInfo;
use crate::tables::info_at;
use tt_flags::FlagComputation;
use tt_kinds::{Handle, Table};

impl Interner {
    // Returns the cached information of the row that the handle names. It is inlined in its callers, which know the
    // table.
    #[inline(always)]
    pub(crate) fn info<K: HasInfo>(&self, handle: Handle<K>) -> FlagComputation
        requires { handle.number < size self.now.rows K.TABLE }
        ensures { IsInfo result (meaning self.now.rows K.TABLE handle.number) }
    {
        self.info_in(K::TABLE, handle.number())
    }

    // Returns the cached information of a row of a table of terms or lists.
    #[inline(always)]
    pub(crate) fn info_in(&self, table: Table, number: u32) -> FlagComputation
        requires within { number < size self.now.rows table }
        requires kept { IsTrue (keeps_info table) }
        ensures { IsInfo result (meaning self.now.rows table number) }
    {
        match table {
            Table::Types => info_at(&self.types, number),
            Table::Consts => info_at(&self.consts, number),
            Table::Patterns => info_at(&self.patterns, number),
            Table::Predicates => info_at(&self.predicates, number),
            Table::Existentials => info_at(&self.existentials, number),
            Table::ClauseLists => info_at(&self.clause_lists, number),
            Table::TypeLists => info_at(&self.type_lists, number),
            Table::ConstLists => info_at(&self.const_lists, number),
            Table::ArgLists => info_at(&self.arg_lists, number),
            Table::PatternLists => info_at(&self.pattern_lists, number),
            Table::VarLists => info_at(&self.var_lists, number),
            Table::ExistentialLists => info_at(&self.existential_lists, number),
            Table::AssumptionLists => info_at(&self.assumption_lists, number),
            Table::Symbols | Table::Declarations | Table::Definitions => unreachable!(),
        }
    }
}
