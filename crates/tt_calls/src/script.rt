//! The lines of scripts, with one call on each, and the lines of their answers.

pub mod fault;
pub mod line;
mod number;
pub mod print;
mod regions;
mod types;
mod words;
