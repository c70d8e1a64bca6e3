//! Answers to calls that fold terms.

pub mod folded_handle;
pub mod folds;
pub mod parameters;
