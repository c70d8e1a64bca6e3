//! The fields of data types.

ghost use Rattle.std.specs.Prelude.{
  ◌≡◌,
  ◌≢◌,
  ◌++◌,
  ◌<◌,
  ◌≤◌,
  ◌↔◌,
  [],
  length,
  map,
  IfErr,
  IfOk,
  IsTrue,
  MatchOption,
  MatchResult,
  OnOk,
};
ghost use Rattle.std.specs.List.{All};
ghost use Rattle.tt_index.specs.Greatest.{greatest};
ghost use Rattle.tt_index.specs.declared.refusal.Refusal.TheVariants.{Memory};
ghost use Rattle.tt_kinds.specs.Variant.{variant_of};
ghost use Rattle.tt_kinds.specs.declared.table.Table.TheVariants.{ArgLists, Types};
ghost use Rattle.tt_interner.specs.Definitions.{FitsDeclaration};
ghost use Rattle.tt_interner.specs.Rows.{size};
ghost use Rattle.tt_interner.specs.Stored.{Terms};
ghost use Rattle.tt_binder.specs.Fields.{
  AreInstances,
  GivesFields,
  InstantiatesTy,
  IsAdt,
  IsAdtOf,
  StopsAtField,
  declared_fields,
  fields_among,
  fields_from,
};

use crate::instantiate::Instantiate;
use std::alloc::Global;
use tt_index::{FieldIdx, Idx, Refusal, VariantIdx};
use tt_interner::{InternedKind, Interner};
use tt_kinds::{
    AdtId, EarlyBinder, FieldDef, FieldInfo, GenericArgs, Symbol, Ty, TyKind, VariantDef,
};

/// The data types among an interner's types.
pub trait DataTypes: Sized {
    // The interner's terms.
    ghost terms_of: { Self → Terms };

    /// Returns whether the type is a data type. The type has to be of this interner; [`Interner::owns_ty`] tests it.
    fn is_adt(&self, ty: Ty) -> bool
        requires { ty.number < size (terms_of self.now).rows Types }
        ensures { IsTrue result ↔ IsAdt (terms_of self.now).rows ty };

    /// Returns the fields of a data type, variant by variant, in the order of its definition. The type of each field is
    /// the defined type, instantiated with the data type's arguments, and isn't normalized. `base` is the data type
    /// itself. A data type that isn't defined yet has no fields. The type has to be a data type of this interner;
    /// [`DataTypes::is_adt`] tests it.
    ///
    /// The types are instantiated in turn. If [`Instantiate::instantiate`] of one of them is refused, so is the call,
    /// and the terms that the types before it need stay stored. If the memory for the list is refused, the call is
    /// refused with `Memory`, and nothing changes. If there are no fields, the call is never refused.
    fn fields_of(&mut self, ty: Ty) -> Result<Vec<FieldInfo>, Refusal>
        requires { IsAdt (terms_of self.old).rows ty }
        ensures { GivesFields ty (terms_of self.old) result (terms_of self.new) };
}

impl DataTypes for Interner {
    ghost terms_of = { λ terms. terms };

    fn is_adt(&self, ty: Ty) -> bool {
        adt_of(self, ty).is_some()
    }

    fn fields_of(&mut self, ty: Ty) -> Result<Vec<FieldInfo>, Refusal> {
        self.are_rows();
        match adt_of(self, ty) {
            Some((id, args)) => {
                let mut fields = listed_fields(self, ty, id)?;
                instantiate_fields(self, args, &mut fields)?;
                Ok(fields)
            }
            None => unreachable!(),
        }
    }
}

// Returns the id and the arguments of a data type, if the type is one.
fn adt_of(cx: &Interner, ty: Ty) -> Option<(AdtId, GenericArgs)>
    requires { ty.number < size cx.now.rows Types }
    ensures { MatchOption result (IsAdt cx.now.rows ty → ⊥) (λ adt. IsAdtOf cx.now.rows ty adt.0 adt.1
        × (adt.1.number < size cx.now.rows ArgLists)) }
{
    match ty.kind(cx) {
        TyKind::Adt(id, args) => Some((*id, *args)),
        _ => None,
    }
}

// Returns the fields of a data type with their declared types.
fn listed_fields(cx: &Interner, base: Ty, id: AdtId) -> Result<Vec<FieldInfo>, Refusal>
    ensures is { IfOk result (λ fields. fields.items ≡ declared_fields cx.now.rows base id) }
    ensures own { All (λ f. f.ty.number < size cx.now.rows Types) (declared_fields cx.now.rows base id) }
    ensures refused { IfErr result (λ e. (e ≡ Memory) × (declared_fields cx.now.rows base id ≢ [])) }
{
    if cx.is_defined(id) {
        let variants = cx.adt_variants(id).skip_binder();
        list_variants(cx.allocator(), base, variants)
    } else {
        Ok(Vec::new(cx.allocator()))
    }
}

// Returns the fields of the variants with their declared types.
fn list_variants(
    alloc: Global,
    base: Ty,
    variants: &[VariantDef],
) -> Result<Vec<FieldInfo>, Refusal>
    requires { FitsDeclaration variants.now }
    ensures is { IfOk result (λ fields. fields.items ≡ fields_among base 0 (map variant_of variants.now)) }
    ensures refused { IfErr result (λ e. (e ≡ Memory) × (fields_among base 0 (map variant_of variants.now) ≢ [])) }
{
    let mut fields = Vec::new(alloc);
    for (index, variant) in variants.iter().enumerate() {
        let place = VariantIdx::from_usize(index);
        list_fields(
            &mut fields,
            base,
            variant.name,
            place,
            variant.fields.as_slice(),
        )?;
    }
    Ok(fields)
}

// Adds the fields of a variant with their declared types.
fn list_fields(
    list: &mut Vec<FieldInfo>,
    base: Ty,
    variant: Option<Symbol>,
    variant_idx: VariantIdx,
    fields: &[FieldDef],
) -> Result<(), Refusal>
    requires { length fields.now ≤ greatest }
    ensures added { OnOk result (list.new.items
        ≡ list.old.items ++ fields_from base variant variant_idx 0 fields.now) }
    ensures refused { IfErr result (λ e. (e ≡ Memory) × (fields.now ≢ [])) }
{
    for (index, field) in fields.iter().enumerate() {
        list.push(FieldInfo {
            base,
            ty: field.ty,
            variant,
            variant_idx,
            name: field.name,
            field_idx: FieldIdx::from_usize(index),
        })?;
    }
    Ok(())
}

// Instantiates the types of the fields in turn.
fn instantiate_fields(
    cx: &mut Interner,
    args: GenericArgs,
    fields: &mut [FieldInfo],
) -> Result<(), Refusal>
    requires args { args.number < size cx.old.rows ArgLists }
    requires fields { All (λ f. f.ty.number < size cx.old.rows Types) fields.old }
    ensures { MatchResult
        result
        (λ _. AreInstances args fields.old fields.new cx.old cx.new)
        (λ e. StopsAtField args fields.old e cx.old cx.new) }
{
    for field in fields.iter_mut() {
        field.ty = instantiated(cx, args, field.ty)?;
    }
    Ok(())
}

// Returns the type, instantiated with the arguments.
fn instantiated(cx: &mut Interner, args: GenericArgs, ty: Ty) -> Result<Ty, Refusal>
    requires args { args.number < size cx.old.rows ArgLists }
    requires ty { ty.number < size cx.old.rows Types }
    ensures { InstantiatesTy args ty cx.old result cx.new }
{
    match EarlyBinder::bind(ty).instantiate(cx, args) {
        Ok(instance) => Ok(instance.skip_norm_wip()),
        Err(e) => Err(e),
    }
}
