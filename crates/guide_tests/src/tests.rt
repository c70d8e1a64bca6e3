//! A user's relation, table of bindings, resolver, canonicalizer and normalizer, and the first examples.

mod bindings;
mod canonicalizer;
mod context;
mod conversions;
mod guide;
mod normalizer;
mod prelude;
mod readme;
mod resolver;

use std::alloc::Global;
use std::process::Abort;
use test_terms::{answer_anew, answer_within};
use type_terms::{Interner, Refusal};

// Asserts that the outcome is `Ok(true)`.
fn holds(rt: &impl Abort, outcome: Result<bool, Refusal>) {
    assert_eq!(rt; outcome, Ok(true));
}

// Asserts that the check returns `Ok(true)` on a new interner. With ample memory there is one.
fn holds_anew<F: FnOnce(&mut Interner) -> Result<bool, Refusal> + Drop>(
    rt: &impl Abort,
    alloc: Global,
    check: F,
)
    requires { F.IsAlwaysCallable check }
{
    holds(rt, answer_anew(alloc, check));
}

// Asserts the same on a new interner with at most `limit` rows in a table.
fn holds_within<F: FnOnce(&mut Interner) -> Result<bool, Refusal> + Drop>(
    rt: &impl Abort,
    alloc: Global,
    limit: u32,
    check: F,
)
    requires { F.IsAlwaysCallable check }
{
    holds(rt, answer_within(alloc, limit, check));
}
