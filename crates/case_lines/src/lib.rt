//! The lines of cases that build or declare: what scripts have no words for.
//!
//! The lines are read to calls, so this crate needs only what calls need, and is proved before terms can be folded.
#![tactic(auto)]

pub mod arguments;
pub mod declarations;
pub mod predicates;
pub mod regions;
pub mod terms;
pub mod words;
