//! Derivations of trait goals, a client of `tt_binder` and `unify`.
//!
//! A [`Program`] has implementations of traits. A log lists goals that are derived from these and from assumptions, with
//! the reason of each, and [`verify`] checks the log. A refutation lists goals each of which needs one of them, so
//! that none is derived, and [`refute`] checks the list. [`first_overlap`] looks for two implementations that apply to one goal.
#![tactic(auto)]

mod arguments;
mod candidates;
pub mod fault;
mod goals;
mod instances;
mod laws;
pub mod log;
mod needs;
mod overlap;
pub mod program;
mod refutation;
mod refuter;
mod resolved;
mod search;
pub mod solver;
mod verifier;

pub use fault::Fault;
pub use laws::law_derivations_are_stable;
pub use log::{Line, Reason, are_owned_lines};
pub use needs::{Need, needs_of};
pub use overlap::{Overlap, first_overlap};
pub use program::{Impl, Program};
pub use refutation::refute;
pub use solver::{Answer, Limits, MOST_DEPTH, solve};
pub use verifier::verify;
