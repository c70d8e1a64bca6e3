//! Patterns that restrict a type.

use crate::handle::{Const, PatList};

/// The kind of a pattern.
#[derive(Clone, Copy, Debug, PartialEq, Eq, Hash)]
pub enum PatternKind {
    /// The values from one constant to another.
    Range {
        /// The least value.
        start: Const,
        /// The greatest value.
        end: Const,
    },
    /// The values that at least one of the patterns allows.
    Or(PatList),
    /// Every value but the null pointer.
    NotNull,
}
