//! How deep binders can be nested in stored terms.

ghost use Rattle.std.specs.Prelude.{◌≡◌};
ghost use Rattle.tt_interner.specs.Fitting.{nesting_bound};

use super::Interner;
use tt_kinds::Table;

impl Interner {
    /// Returns how many types, predicates and existential predicates are stored. No stored term nests more binders,
    /// since each of these has at most one binder of its own, and nothing else that is stored has any.
    ///
    /// A caller who finds a number far below [`GREATEST_INDEX`](tt_index::GREATEST_INDEX) can exclude the refusal
    /// `GreatestIndex` by [`few_rows_fit`](crate::few_rows_fit). The number grows as terms are stored.
    pub fn nesting_bound(&self) -> u64
        ensures { result ≡ nesting_bound self.now.rows }
    {
        // No table has more rows than the limit, a `u32`, so the sum fits.
        self.are_rows();
        let _limit = self.limit();
        let types = self.table_len(Table::Types) as u64;
        let predicates = self.table_len(Table::Predicates) as u64;
        let existentials = self.table_len(Table::Existentials) as u64;
        types + predicates + existentials
    }
}
