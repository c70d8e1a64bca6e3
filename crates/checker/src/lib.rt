//! A checker of a small language with generics, a client of the library and of `unify`.
//!
//! [`check`] infers the types of a program's expressions, and compares them with the typing rules. [`run`] reads a
//! source and writes the verdict.
#![tactic(auto)]

mod built;
mod declared;
pub mod failure;
mod infer;
mod lookup;
pub mod mistake;
pub mod programs;
pub mod rendering;
mod scope;
pub mod sources;
mod type_text;
mod types;
mod verify;
pub mod wording;

pub use declared::{Declared, declare};
pub use failure::Failure;
pub use mistake::{Cause, Clash, Item, Mistake, Origin, Pair};
pub use programs::{Checked, check, mistakes, variables};
pub use rendering::rendered;
pub use reports::{Extent, Note, Report, View};
pub use sources::{Verdict, run, verdict_of};
pub use wording::{message_of, report_of};
