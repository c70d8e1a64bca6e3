//! Answers to the goals of a text, a client of the library and of `solver`.
//!
//! [`verdict_of`] reads a source with `solver_syntax`, declares what is in it, and answers its goals.
#![tactic(auto)]

mod answers;
mod declared;
mod derivations;
mod failure;
mod goals;
mod overlaps;
mod refutations;
mod sources;
mod texts;
mod types;

pub use answers::Wishes;
pub use failure::Failure;
pub use sources::{LIMITS, Verdict, run, verdict_of};
