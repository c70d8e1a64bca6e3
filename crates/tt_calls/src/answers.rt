//! Earlier answers by their positions, and the answers to queries.

pub mod ids;
pub mod lookup;
pub mod queries;
pub mod term_handle;
