//! Fields of types.

use crate::handle::{Symbol, Ty};
use tt_index::{FieldIdx, VariantIdx};

/// Information about one field of a type.
#[derive(Clone, Copy, Debug, PartialEq, Eq, Hash)]
pub struct FieldInfo {
    /// The data type, closure or tuple that has the field.
    pub base: Ty,
    /// The field's own type.
    pub ty: Ty,
    /// The name of its variant, if `base` is an enum.
    pub variant: Option<Symbol>,
    /// The position of its variant.
    pub variant_idx: VariantIdx,
    /// Its name.
    pub name: Symbol,
    /// Its position in the variant.
    pub field_idx: FieldIdx,
}
