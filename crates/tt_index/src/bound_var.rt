//! The variables of one binder.

use crate::index::Index;

/// Marks the position of a bound variable.
pub enum BoundVariable {}

/// The position of a bound variable in its binder's list of variables, from 0.
///
/// The number is at most [`GREATEST_INDEX`](crate::GREATEST_INDEX).
pub type BoundVar = Index<BoundVariable>;
