//! Flags, which tell what occurs in a term, and outer exclusive binders.
#![tactic(auto)]

mod equality;
mod flag_computation;
mod type_flags;

pub use crate::equality::equal_flags_are_same;
pub use crate::flag_computation::FlagComputation;
pub use crate::type_flags::TypeFlags;
