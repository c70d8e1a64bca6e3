//! The test that a value's handles are of an interner, which the calls on values require.
#![tactic(auto)]

mod data;
pub mod handles;
pub mod owned;

pub use handles::IsTested;
pub use owned::{Owned, are_owned};
