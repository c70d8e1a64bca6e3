//! Reports on sources for people: messages with notes, and the lines that they are about.
#![tactic(auto)]

mod rendering;
mod report;

pub use rendering::{View, rendered};
pub use report::{Extent, Note, Report};
