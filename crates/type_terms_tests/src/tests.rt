//! Tests of building terms, of queries and of folds of values, and that calls succeed with ample memory.

mod binders;
mod declarations;
mod indices;
mod lists;
mod messages;
mod nodes;
mod orders;
mod owned;
mod parts;
mod plain_values;
mod queries;
mod reads;
mod signatures;
mod text;
mod values;
mod variables;

use std::alloc::Global;
use std::process::Abort;
use test_terms::answer_anew;
use type_terms::{Interner, Refusal};

// Asserts that the outcome is `Ok(true)`.
fn holds(rt: &impl Abort, outcome: Result<bool, Refusal>) {
    assert_eq!(rt; outcome, Ok(true));
}

// Asserts that the check returns `Ok(true)` on a new interner. With ample memory there is one.
fn holds_anew<F: FnOnce(&mut Interner) -> Result<bool, Refusal> + Drop>(
    rt: &impl Abort,
    alloc: Global,
    check: F,
)
    requires { F.IsAlwaysCallable check }
{
    holds(rt, answer_anew(alloc, check));
}
