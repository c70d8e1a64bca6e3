//! The variants of data types, and their fields, as they are defined.

use crate::handle::{Symbol, Ty};

/// A field, as a data type declares it.
#[derive(Clone, Copy, Debug, PartialEq, Eq, Hash)]
pub struct FieldDef {
    /// Its name.
    pub name: Symbol,
    /// Its type, in which the data type's parameters may occur.
    pub ty: Ty,
}

/// A variant of a data type. A struct has one variant, without a name.
#[derive(Drop)]
pub struct VariantDef {
    /// Its name, if it has one.
    pub name: Option<Symbol>,
    /// Its fields, in order.
    pub fields: Vec<FieldDef>,
}
