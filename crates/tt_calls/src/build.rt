//! Building terms and declarations from calls and earlier answers.

pub mod clauses;
pub mod consts;
pub mod declarations;
pub mod existentials;
pub mod lists;
pub mod parts;
pub mod patterns;
pub mod predicates;
pub mod regions;
pub mod types;
