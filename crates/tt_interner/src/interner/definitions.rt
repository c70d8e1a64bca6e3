//! Definitions of data types: their variants and fields.

ghost use Rattle.std.specs.Prelude.{◌≡◌, ◌↔◌, IsTrue, Some, map};
ghost use Rattle.std.specs.List.{All};
ghost use Rattle.tt_kinds.specs.Variant.{variant_of};
ghost use Rattle.tt_kinds.specs.declared.declaration.DeclarationSort.{DeclarationSort};
ghost use Rattle.tt_interner.specs.Declarations.{IsOfSort};
ghost use Rattle.tt_interner.specs.Definitions.{
  Defines,
  FitsDeclaration,
  IsDefined,
  IsOwnField,
  IsOwnVariant,
  variants_of,
};

use super::Interner;
use crate::tables::add;
use tt_index::{GREATEST_INDEX, Refusal};
use tt_kinds::{AdtId, EarlyBinder, FieldDef, Table, VariantDef};

impl Interner {
    /// Gives a data type its variants. You may use a data type before you define it, so the types of its fields may
    /// name it. Equality of types never depends on the variants.
    ///
    /// The data type has to be of this interner ([`Interner::owns_adt_id`]) and not be defined yet
    /// ([`Interner::is_defined`]). The variants and their fields have to be few enough to be numbered
    /// ([`Interner::fits_declaration`]), and their names and types of this interner ([`Interner::owns_variants`]).
    ///
    /// Refused with `Memory` alone. Then nothing changes, and the variants are dropped.
    pub fn define_adt(
        &mut self,
        id: AdtId,
        variants: EarlyBinder<Vec<VariantDef>>,
    ) -> Result<(), Refusal>
        requires declared { IsOfSort self.old.rows DeclarationSort.Adt id.number }
        requires undefined { IsDefined self.old.rows id.number → ⊥ }
        requires fits { FitsDeclaration variants.value.items }
        requires own { All (IsOwnVariant self.old.rows) variants.value.items }
        ensures { Defines result self.old self.new id.number (map variant_of variants.value.items) }
    {
        // Each data type is declared before it is defined, and defined once, so the table has room whenever memory
        // suffices.
        match add(
            &mut self.order,
            self.limit,
            Table::Definitions,
            &mut self.definitions,
            id,
            variants.skip_binder(),
        ) {
            Ok(_) => {}
            Err(_) => return Err(Refusal::Memory),
        }
        Ok(())
    }

    /// Returns whether the data type is defined: whether [`Interner::define_adt`] gave it variants, perhaps none.
    pub fn is_defined(&self, id: AdtId) -> bool
        ensures { IsTrue result ↔ IsDefined self.now.rows id.number }
    {
        self.definitions.get(&id).is_some()
    }

    /// Returns the variants of a data type, borrowed from the interner. The data type has to be defined;
    /// [`Interner::is_defined`] tests it.
    pub fn adt_variants(&self, id: AdtId) -> EarlyBinder<&[VariantDef]>
        requires { IsDefined self.now.rows id.number }
        ensures is { variants_of self.now.rows id.number ≡ Some (map variant_of result.value.now) }
        ensures fits { FitsDeclaration result.value.now }
        ensures own { All (IsOwnVariant self.now.rows) result.value.now }
    {
        match self.definitions.get(&id) {
            Some(variants) => EarlyBinder::bind(variants.as_slice()),
            None => unreachable!(),
        }
    }

    /// Returns whether there are at most [`GREATEST_INDEX`] variants, and at most as many fields in each, so that each
    /// has an index.
    pub fn fits_declaration(variants: &[VariantDef]) -> bool
        ensures { IsTrue result ↔ FitsDeclaration variants.now }
    {
        let most = GREATEST_INDEX as usize;
        for variant in variants {
            if variant.fields.len() > most {
                return false;
            }
        }
        variants.len() <= most
    }

    /// Returns whether the names and types in the variants are of this interner.
    pub fn owns_variants(&self, variants: &[VariantDef]) -> bool
        ensures { IsTrue result ↔ All (IsOwnVariant self.now.rows) variants.now }
    {
        for variant in variants {
            if !self.owns_variant(variant) {
                return false;
            }
        }
        true
    }

    // Returns whether the names and types in the variant are of this interner.
    fn owns_variant(&self, variant: &VariantDef) -> bool
        ensures { IsTrue result ↔ IsOwnVariant self.now.rows variant.now }
    {
        let named = match variant.name {
            Some(name) => self.owns(name),
            None => true,
        };
        named && self.owns_fields(variant.fields.as_slice())
    }

    // Returns whether the names and types of the fields are of this interner.
    fn owns_fields(&self, fields: &[FieldDef]) -> bool
        ensures { IsTrue result ↔ All (IsOwnField self.now.rows) fields.now }
    {
        for field in fields {
            if !self.owns(field.name) {
                return false;
            }
            if !self.owns(field.ty) {
                return false;
            }
        }
        true
    }
}
