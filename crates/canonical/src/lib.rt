//! Canonical forms of values with inference variables, a client of `tt_visit` and `tt_fold` with its proof.
//!
//! [`canonicalize`] numbers the type variables of a value from 0, in the order in which they first occur in it. So two
//! values that differ in the names of their variables alone become equal, and no others do.
#![tactic(auto)]

mod collector;
mod form;
mod laws;
mod numbers;
mod search;
mod variable;

pub use form::{Canonical, canonicalize};
pub use laws::{law_canonical_forms_are_exact, law_originals_restore};
