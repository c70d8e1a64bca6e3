//! Two types of a workload, made equal.

pub mod outcome;
pub mod workload;

pub use outcome::outcome_anew;
pub use workload::Workload;
