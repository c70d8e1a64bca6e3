//! What is declared of a type, instantiated with the type's arguments.

use super::building::MkTy;
use super::folding::type_at;
use super::{Numbered, added, made, sum_of};
use test_terms::{NOT_OWNED, args, param_ty, ty, tys};
use type_terms::{
    AdtId, Binder, BoundVarKinds, DataTypes, EarlyBinder, FieldDef, FieldInfo, FnSig, FnSigKind,
    FunctionId, GenericArg, InternedKind, Interner, Mutability, Owned, Refusal, Ty, TyKind,
    TypeSignature, VariantDef,
};

// Declares `struct Node<T> { value: T, items: [T], next: *const T }`.
fn declare_struct(cx: &mut Interner) -> Result<AdtId, Refusal> {
    let name = cx.symbol("Node")?;
    let id = cx.declare_adt(name)?;
    let param = param_ty(cx, 0)?;
    let value = FieldDef {
        name: cx.symbol("value")?,
        ty: param,
    };
    let items = FieldDef {
        name: cx.symbol("items")?,
        ty: ty(cx, TyKind::Slice(param))?,
    };
    let next = FieldDef {
        name: cx.symbol("next")?,
        ty: ty(cx, TyKind::RawPtr(param, Mutability::Not))?,
    };
    define(cx, id, &[value, items, next])?;
    Ok(id)
}

// Gives the struct these fields.
fn define(cx: &mut Interner, id: AdtId, fields: &[FieldDef]) -> Result<(), Refusal> {
    let fields = Vec::from_slice(cx.allocator(), fields)?;
    let mut variants = Vec::new(cx.allocator());
    variants.push(VariantDef { name: None, fields })?;
    if !cx.owns_adt_id(id) || !cx.owns_variants(variants.as_slice()) {
        return Err(NOT_OWNED);
    }
    if cx.is_defined(id) || !Interner::fits_declaration(variants.as_slice()) {
        return Err(NOT_OWNED);
    }
    cx.define_adt(id, EarlyBinder::bind(variants))
}

// Declares `fn first<T>([T]) -> T`.
fn declare_first(cx: &mut Interner) -> Result<FunctionId, Refusal> {
    let param = param_ty(cx, 0)?;
    let slice = ty(cx, TyKind::Slice(param))?;
    let sig = FnSig {
        inputs_and_output: tys(cx, &[slice, param])?,
        fn_sig_kind: FnSigKind::default(),
    };
    let sig = Binder::bind_with_vars(sig, BoundVarKinds::default());
    let name = cx.symbol("first")?;
    if !cx.owns_signature(&sig) {
        return Err(NOT_OWNED);
    }
    cx.declare_function(name, EarlyBinder::bind(sig))
}

// Returns `Node` or `first`, whatever the kind says, at each of the first types.
fn applied(cx: &mut Interner, kind: ItemKind, count: u32) -> Result<Vec<Ty>, Refusal> {
    let mut list = Vec::new(cx.allocator());
    for number in 0..count {
        let argument = GenericArg::from(Ty::from_number(number));
        let arguments = args(cx, &[argument])?;
        let kind = match kind {
            ItemKind::Struct(id) => TyKind::Adt(id, arguments),
            ItemKind::Function(id) => TyKind::FnDef(id, arguments),
        };
        list.push(ty(cx, kind)?)?;
    }
    Ok(list)
}

// What has generic arguments.
#[derive(Clone, Copy)]
enum ItemKind {
    Struct(AdtId),
    Function(FunctionId),
}

// `fields_of` a struct at an argument.
#[derive(Drop)]
struct FieldsOf {
    sources: Vec<Ty>,
}

impl Numbered for FieldsOf {
    fn make(&self, cx: &mut Interner, number: u32) -> Result<u32, Refusal> {
        let source = type_at(self.sources.as_slice(), number)?;
        if !source.is_owned(cx) {
            return Err(NOT_OWNED);
        }
        if !cx.is_adt(source) {
            return Err(NOT_OWNED);
        }
        let fields = cx.fields_of(source)?;
        Ok(sum_of_fields(fields.as_slice()))
    }
}

// Returns a sum of the fields' types.
fn sum_of_fields(fields: &[FieldInfo]) -> u32 {
    let mut sum = 0;
    for field in fields {
        sum = added(sum, field.ty.number());
    }
    sum
}

// `fn_sig` of a function at an argument.
#[derive(Drop)]
struct FnSigOf {
    sources: Vec<Ty>,
}

impl Numbered for FnSigOf {
    fn make(&self, cx: &mut Interner, number: u32) -> Result<u32, Refusal> {
        let source = type_at(self.sources.as_slice(), number)?;
        if !source.is_owned(cx) {
            return Err(NOT_OWNED);
        }
        let kind = *source.kind(cx);
        if !kind.has_fn_sig(cx) || !cx.owns_kind(&kind) {
            return Err(NOT_OWNED);
        }
        let sig = kind.fn_sig(cx)?;
        Ok(sig.inputs_and_output().skip_binder().number())
    }
}

/// Makes the calls of `fields_of`, whose arguments, types and results together have about so many rows.
pub fn fields(cx: &mut Interner, rows: u32, times: u32) -> Result<u32, Refusal> {
    let count = rows / 4;
    let id = declare_struct(cx)?;
    let _built = sum_of(cx, &MkTy, count, 1, count)?;
    let sources = applied(cx, ItemKind::Struct(id), count)?;
    let calls = FieldsOf { sources };
    made(cx, &calls, count, times)
}

/// Makes the calls of `fn_sig`, likewise.
pub fn signatures(cx: &mut Interner, rows: u32, times: u32) -> Result<u32, Refusal> {
    let count = rows / 4;
    let id = declare_first(cx)?;
    let _built = sum_of(cx, &MkTy, count, 1, count)?;
    let sources = applied(cx, ItemKind::Function(id), count)?;
    let calls = FnSigOf { sources };
    made(cx, &calls, count, times)
}
