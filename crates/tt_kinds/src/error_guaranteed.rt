//! The token of an error.

/// The token of a reported error: a number that the reporter chooses.
#[derive(Clone, Copy, Debug, PartialEq, Eq, Hash)]
pub struct ErrorGuaranteed(pub u32);
