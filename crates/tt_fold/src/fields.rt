//! The folds of placeholders, and of fields and variants of data types: each is folded as the tuple of its fields.

use crate::core_folder::Core;
use crate::foldable::TypeFoldable;
use tt_interner::Interner;
use tt_kinds::{FieldDef, FieldInfo, Placeholder, VariantDef};

impl<T: TypeFoldable> TypeFoldable for Placeholder<T> {
    fn fold_core<M, F: Core<M>>(
        self,
        cx: &mut Interner,
        folder: &mut F,
    ) -> Result<Placeholder<T>, F::Error> {
        let Placeholder { universe, bound } = self;
        let folded = (universe, bound).fold_core::<M, F>(cx, folder)?;
        let (universe, bound) = folded;
        Ok(Placeholder { universe, bound })
    }
}

impl TypeFoldable for FieldDef {
    fn fold_core<M, F: Core<M>>(
        self,
        cx: &mut Interner,
        folder: &mut F,
    ) -> Result<FieldDef, F::Error> {
        let folded = (self.name, self.ty).fold_core::<M, F>(cx, folder)?;
        let (name, ty) = folded;
        Ok(FieldDef { name, ty })
    }
}

impl TypeFoldable for VariantDef {
    fn fold_core<M, F: Core<M>>(
        self,
        cx: &mut Interner,
        folder: &mut F,
    ) -> Result<VariantDef, F::Error> {
        let VariantDef { name, fields } = self;
        let folded = (name, fields).fold_core::<M, F>(cx, folder)?;
        let (name, fields) = folded;
        Ok(VariantDef { name, fields })
    }
}

impl TypeFoldable for FieldInfo {
    fn fold_core<M, F: Core<M>>(
        self,
        cx: &mut Interner,
        folder: &mut F,
    ) -> Result<FieldInfo, F::Error> {
        let types = (self.base, self.ty);
        let variant = (self.variant, self.variant_idx);
        let field = (self.name, self.field_idx);
        let folded = (types, variant, field).fold_core::<M, F>(cx, folder)?;
        let ((base, ty), (variant, variant_idx), (name, field_idx)) = folded;
        Ok(FieldInfo {
            base,
            ty,
            variant,
            variant_idx,
            name,
            field_idx,
        })
    }
}
