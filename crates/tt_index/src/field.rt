//! The positions of the variants and fields of data types.

use crate::index::Index;

/// Marks the position of a field.
pub enum Field {}

/// Marks the position of a variant.
pub enum Variant {}

/// The position of a field in its variant, in the order of the declaration, from 0.
///
/// The number is at most [`GREATEST_INDEX`](crate::GREATEST_INDEX).
pub type FieldIdx = Index<Field>;

/// The position of a variant in its data type, in the order of the declaration, from 0. A struct or union has one
/// variant, with position 0.
///
/// The number is at most [`GREATEST_INDEX`](crate::GREATEST_INDEX).
pub type VariantIdx = Index<Variant>;
