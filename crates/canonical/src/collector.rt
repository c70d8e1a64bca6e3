//! The variables of a value.

ghost use Rattle.std.specs.Prelude.{◌≡◌, IfOk};
ghost use Rattle.tt_interner.specs.Owned.{IsPartBy, tree_by};
ghost use Rattle.canonical.specs.Canonical.{collect, variables};
ghost use Rattle.canonical.specs.Search.{AreKnown};

use crate::search::{Search, search_type};
use indexmap::IndexSet;
use std::ops::ControlFlow;
use tt_index::{Refusal, TyVid};
use tt_interner::Interner;
use tt_kinds::{BoundVarKinds, Clauses, Const, ErrorGuaranteed, Predicate, Region, Ty};
use tt_visit::{Next, TypeVisitable, TypeVisitor};

// Collects the variables of the types of a value.
#[derive(Drop)]
struct Collector {
    search: Search,
}

impl TypeVisitor for Collector {
    type Break = Refusal;

    ghost use Rattle.std.specs.Prelude.{ℕ, List};
    ghost use Rattle.canonical.specs.Collector.{collecting};
    ghost use Rattle.canonical.specs.Search.{AreKnown};

    ghost Meaning = { List ℕ };

    ghost meaning = { λ _ s. s.search.found.keys };

    ghost owned = { λ rows s. AreKnown rows s.search.seen.keys s.search.found.keys };

    ghost hooks = { collecting };

    fn visit_region(&mut self, _cx: &Interner, _region: Region) -> ControlFlow<Refusal, ()> {
        ControlFlow::Continue(())
    }

    fn visit_error(&mut self, _cx: &Interner, _error: ErrorGuaranteed) -> ControlFlow<Refusal, ()> {
        ControlFlow::Continue(())
    }

    fn visit_ty(&mut self, cx: &Interner, ty: Ty) -> ControlFlow<Refusal, Next> {
        match search_type(cx, &mut self.search, ty) {
            Ok(()) => ControlFlow::Continue(Next::Skip),
            Err(refusal) => ControlFlow::Break(refusal),
        }
    }

    fn visit_const(&mut self, _cx: &Interner, _constant: Const) -> ControlFlow<Refusal, Next> {
        ControlFlow::Continue(Next::Descend)
    }

    fn visit_predicate(
        &mut self,
        _cx: &Interner,
        _predicate: Predicate,
    ) -> ControlFlow<Refusal, Next> {
        ControlFlow::Continue(Next::Descend)
    }

    fn visit_clauses(&mut self, _cx: &Interner, _clauses: Clauses) -> ControlFlow<Refusal, Next> {
        ControlFlow::Continue(Next::Descend)
    }

    fn visit_binder(&mut self, _cx: &Interner, _vars: BoundVarKinds) -> ControlFlow<Refusal, Next> {
        ControlFlow::Continue(Next::Descend)
    }

    fn leave_binder(&mut self, _cx: &Interner, _vars: BoundVarKinds) {}
}

// Returns the variables of the value after those that were found before.
fn collected<T: TypeVisitable>(
    cx: &Interner,
    value: &T,
    collector: &mut Collector,
) -> Result<Vec<TyVid>, Refusal>
    requires value { IsPartBy T.shape cx.now.rows value.now }
    requires known { AreKnown cx.now.rows collector.old.search.seen.keys collector.old.search.found.keys }
    ensures { IfOk result (λ found. found.items
        ≡ collect (tree_by T.shape cx.now.rows value.now) collector.old.search.found.keys) }
{
    match value.visit_with(cx, collector) {
        ControlFlow::Break(refusal) => Err(refusal),
        ControlFlow::Continue(_) => {
            let found = collector.search.found.as_slice();
            Ok(Vec::from_slice(cx.allocator(), found)?)
        }
    }
}

/// Returns the variables of the value, each once, in the order in which they first occur. Refused with `Memory`, or
/// with `TableFull` if the search in a type would make `u32::MAX` visits or more.
pub fn variables_of<T: TypeVisitable>(cx: &Interner, value: &T) -> Result<Vec<TyVid>, Refusal>
    requires { IsPartBy T.shape cx.now.rows value.now }
    ensures { IfOk result (λ found. found.items ≡ variables (tree_by T.shape cx.now.rows value.now)) }
{
    let search = Search {
        seen: IndexSet::new(cx.allocator()),
        found: IndexSet::new(cx.allocator()),
    };
    let mut collector = Collector { search };
    let outcome = collected(cx, value, &mut collector);
    drop(collector);
    outcome
}
