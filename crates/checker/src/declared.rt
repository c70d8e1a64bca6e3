//! The items of a program, declared in the interner.

ghost use Rattle.std.specs.Prelude.{◌≡◌, ◌<◌, ◌≤◌, IfOk, length};
ghost use Rattle.tt_fold.specs.Steps.{tree_in};
ghost use Rattle.tt_kinds.specs.Kinds.{ty_shape, tys_shape};
ghost use Rattle.tt_interner.specs.Owned.{AreOwned, IsOwned};
ghost use Rattle.tt_interner.specs.Rows.{size};
ghost use Rattle.tt_interner.specs.Stored.{Extends};
ghost use Rattle.tt_kinds.specs.declared.table.Table.TheVariants.{Declarations, Symbols};
ghost use Rattle.checker.specs.Items.{
  AreFunctions,
  AreOfSignature,
  AreWrittenTypes,
  HasSignature,
  IsDeclared,
  IsFunctionOf,
  IsNameOf,
  ListsSignature,
  numbers,
};
ghost use Rattle.checker.specs.Written.{AreDistinct, IsWritten};

use crate::failure::Failure;
use crate::lookup::{at, name_of, part_of, type_at, type_before, types_before};
use crate::types::{data_type_of, parameter, reference_to, tuple_of};
use checker_syntax::program::{DataType, Function, Program, WrittenType};
use tt_index::{ExternAbi, IntTy, Safety};
use tt_interner::Interner;
use tt_kinds::{
    AdtId, Binder, BoundVarKinds, EarlyBinder, FieldDef, FnSig, FnSigKind, FunctionId, Symbol, Ty,
    TyKind, Tys, VariantDef,
};

/// A program's items, and the types that it writes.
#[derive(Drop)]
pub struct Declared {
    /// The id of each data type.
    pub data_types: Vec<AdtId>,
    /// What each written type denotes.
    pub written: Vec<Ty>,
    /// The id of each function.
    pub functions: Vec<FunctionId>,
}

/// Declares the items of a program, and builds its written types.
#[tactic(auto, using(crate::proofs::ClientLaws::growth_laws))]
pub fn declare(cx: &mut Interner, program: &Program) -> Result<Declared, Failure>
    ensures extends { Extends cx.old cx.new }
    ensures declared { IfOk result (λ d. IsDeclared cx.new program.now d) }
{
    let data_types = data_types(cx, program)?;
    let written = written_types(cx, program, data_types.as_slice())?;
    define_all(cx, program, data_types.as_slice(), written.as_slice())?;
    let functions = functions(cx, program, written.as_slice())?;
    Ok(Declared {
        data_types,
        written,
        functions,
    })
}

/// Returns the symbol of the name of this number.
pub fn symbol_of(cx: &mut Interner, program: &Program, number: usize) -> Result<Symbol, Failure>
    ensures extends { Extends cx.old cx.new }
    ensures owned { IfOk result (λ symbol. symbol.number < size cx.new.rows Symbols) }
    ensures named { IfOk result (λ symbol. IsNameOf cx.new program.now number symbol) }
{
    Ok(cx.symbol(name_of(program, number)?)?)
}

// Declares the data types.
#[tactic(auto, using(crate::proofs::ClientLaws::growth_laws))]
fn data_types(cx: &mut Interner, program: &Program) -> Result<Vec<AdtId>, Failure>
    ensures extends { Extends cx.old cx.new }
    ensures counted { IfOk result (λ ids. length ids.items ≡ length program.now.«data».items) }
    ensures distinct { IfOk result (λ ids. AreDistinct (numbers ids.items)) }
{
    let mut ids = Vec::new(cx.allocator());
    for number in 0..program.data.len() {
        let id = data_type(cx, program, program.data[number].name)?;
        ids.push(id)?;
    }
    Ok(ids)
}

// Declares a data type whose name has this number. Its id is above the ids of all earlier declarations.
#[tactic(auto, using(crate::proofs::ClientLaws::growth_laws))]
fn data_type(cx: &mut Interner, program: &Program, name: usize) -> Result<AdtId, Failure>
    ensures extends { Extends cx.old cx.new }
    ensures after { IfOk result (λ id. size cx.old.rows Declarations ≤ id.number) }
    ensures before { IfOk result (λ id. id.number < size cx.new.rows Declarations) }
{
    let name = symbol_of(cx, program, name)?;
    declared_adt(cx, name)
}

// Declares a data type of this name.
fn declared_adt(cx: &mut Interner, name: Symbol) -> Result<AdtId, Failure>
    requires { name.number < size cx.old.rows Symbols }
    ensures extends { Extends cx.old cx.new }
    ensures next { IfOk result (λ id. id.number ≡ size cx.old.rows Declarations) }
    ensures before { IfOk result (λ id. id.number < size cx.new.rows Declarations) }
{
    Ok(cx.declare_adt(name)?)
}

// Returns what the written types denote.
#[tactic(auto, using(crate::proofs::ClientLaws::growth_laws))]
fn written_types(cx: &mut Interner, program: &Program, ids: &[AdtId]) -> Result<Vec<Ty>, Failure>
    ensures extends { Extends cx.old cx.new }
    ensures written { IfOk result (λ types. AreWrittenTypes
        cx.new
        program.now
        (numbers ids.now)
        types.items
        (length program.now.types.items)) }
{
    let mut types = Vec::new(cx.allocator());
    for index in 0..program.types.len() {
        let written = program.types[index];
        let ty = written_type(cx, program, ids, types.as_slice(), written)?;
        types.push(ty)?;
    }
    Ok(types)
}

// Returns what a written type denotes, whose parts are among the earlier written types.
#[tactic(auto, using(crate::proofs::ClientLaws::growth_laws))]
fn written_type(
    cx: &mut Interner,
    program: &Program,
    ids: &[AdtId],
    earlier: &[Ty],
    written: WrittenType,
) -> Result<Ty, Failure>
    requires { AreWrittenTypes cx.old program.now (numbers ids.now) earlier.now (length earlier.now) }
    ensures extends { Extends cx.old cx.new }
    ensures owned { IfOk result (λ ty. IsOwned ty_shape cx.new ty) }
    ensures is { IfOk result (λ ty. IsWritten
        program.now
        (numbers ids.now)
        written
        (tree_in cx.new.rows (ty_shape ty))) }
{
    match written {
        WrittenType::Int => Ok(cx.mk_ty(TyKind::Int(IntTy::I32))?),
        WrittenType::Bool => Ok(cx.mk_ty(TyKind::Bool)?),
        WrittenType::Char => Ok(cx.mk_ty(TyKind::Char)?),
        WrittenType::Str => Ok(cx.mk_ty(TyKind::Str)?),
        WrittenType::Param(index, name) => parameter(cx, index, name_of(program, name)?),
        WrittenType::Data(number, args) => {
            let Some(item) = program.data.get(number) else {
                return Err(Failure::Malformed);
            };
            let id = at(ids, number)?;
            let numbers = part_of(program.parts.as_slice(), args)?;
            let args = types_before(cx, earlier, earlier.len(), numbers)?;
            if args.len() != item.params.len() {
                return Err(Failure::Malformed);
            }
            data_type_of(cx, id, args.as_slice())
        }
        WrittenType::Tuple(items) => {
            let numbers = part_of(program.parts.as_slice(), items)?;
            let items = types_before(cx, earlier, earlier.len(), numbers)?;
            tuple_of(cx, items.as_slice())
        }
        WrittenType::Reference(referent) => {
            let referent = type_before(cx, earlier, earlier.len(), referent)?;
            reference_to(cx, referent)
        }
    }
}

// Gives the data types their fields.
#[tactic(auto, using(crate::proofs::ClientLaws::growth_laws))]
fn define_all(
    cx: &mut Interner,
    program: &Program,
    ids: &[AdtId],
    written: &[Ty],
) -> Result<(), Failure>
    requires { AreOwned ty_shape cx.old written.now }
    ensures { Extends cx.old cx.new }
{
    for (number, item) in program.data.iter().enumerate() {
        let id = at(ids, number)?;
        let fields = field_defs(cx, program, item, written)?;
        define(cx, id, fields)?;
    }
    Ok(())
}

// Gives a data type these fields.
fn define(cx: &mut Interner, id: AdtId, fields: Vec<FieldDef>) -> Result<(), Failure>
    ensures { Extends cx.old cx.new }
{
    let mut variants = Vec::new(cx.allocator());
    variants.push(VariantDef { name: None, fields })?;
    let fits = cx.owns_adt_id(id)
        && cx.owns_variants(variants.as_slice())
        && Interner::fits_declaration(variants.as_slice());
    if !fits || cx.is_defined(id) {
        return Err(Failure::Malformed);
    }
    Ok(cx.define_adt(id, EarlyBinder::bind(variants))?)
}

// Returns the fields of a data type.
#[tactic(auto, using(crate::proofs::ClientLaws::growth_laws))]
fn field_defs(
    cx: &mut Interner,
    program: &Program,
    item: &DataType,
    written: &[Ty],
) -> Result<Vec<FieldDef>, Failure>
    requires { AreOwned ty_shape cx.old written.now }
    ensures { Extends cx.old cx.new }
{
    let mut fields = Vec::new(cx.allocator());
    for field in item.fields.iter() {
        let ty = type_at(cx, written, field.ty)?;
        let name = symbol_of(cx, program, field.name)?;
        fields.push(FieldDef { name, ty })?;
    }
    Ok(fields)
}

// Declares the functions.
#[tactic(auto, using(crate::proofs::ClientLaws::growth_laws))]
fn functions(
    cx: &mut Interner,
    program: &Program,
    written: &[Ty],
) -> Result<Vec<FunctionId>, Failure>
    requires { AreOwned ty_shape cx.old written.now }
    ensures extends { Extends cx.old cx.new }
    ensures declared { IfOk result (λ ids. AreFunctions
        cx.new
        program.now
        written.now
        ids.items
        (length program.now.functions.items)) }
    ensures distinct { IfOk result (λ ids. AreDistinct (numbers ids.items)) }
{
    let mut ids = Vec::new(cx.allocator());
    for number in 0..program.functions.len() {
        let item = &program.functions[number];
        let function = function(cx, program, item, written)?;
        ids.push(function)?;
    }
    Ok(ids)
}

// Declares a function. Its id is above the ids of all earlier declarations.
#[tactic(auto, using(crate::proofs::ClientLaws::growth_laws))]
fn function(
    cx: &mut Interner,
    program: &Program,
    item: &Function,
    written: &[Ty],
) -> Result<FunctionId, Failure>
    requires { AreOwned ty_shape cx.old written.now }
    ensures extends { Extends cx.old cx.new }
    ensures after { IfOk result (λ id. size cx.old.rows Declarations ≤ id.number) }
    ensures declared { IfOk result (λ id. HasSignature cx.new program.now written.now item.now id) }
{
    let list = signature_list(cx, item, written)?;
    let name = symbol_of(cx, program, item.name)?;
    declared_fn(cx, name, list)
}

// Returns the stored list of a function's types.
#[tactic(auto, using(crate::proofs::ClientLaws::growth_laws))]
fn signature_list(cx: &mut Interner, item: &Function, written: &[Ty]) -> Result<Tys, Failure>
    requires { AreOwned ty_shape cx.old written.now }
    ensures extends { Extends cx.old cx.new }
    ensures owned { IfOk result (λ list. IsOwned tys_shape cx.new list) }
    ensures listed { IfOk result (λ list. ListsSignature cx.new written.now item.now list) }
{
    let types = signature_types(cx, item, written)?;
    Ok(cx.mk_tys(types.as_slice())?)
}

// Returns the types of a function's inputs in order, and last the type of its output.
fn signature_types(cx: &Interner, item: &Function, written: &[Ty]) -> Result<Vec<Ty>, Failure>
    requires { AreOwned ty_shape cx.now written.now }
    ensures owned { IfOk result (λ types. AreOwned ty_shape cx.now types.items) }
    ensures are { IfOk result (λ types. AreOfSignature written.now item.now types.items) }
{
    let mut types = types_before(cx, written, written.len(), item.inputs.as_slice())?;
    let output = type_at(cx, written, item.output)?;
    types.push(output)?;
    Ok(types)
}

// Declares a function of this name, with the types in the list and without bound variables.
fn declared_fn(cx: &mut Interner, name: Symbol, types: Tys) -> Result<FunctionId, Failure>
    requires name { name.number < size cx.old.rows Symbols }
    requires types { IsOwned tys_shape cx.old types }
    ensures extends { Extends cx.old cx.new }
    ensures next { IfOk result (λ id. id.number ≡ size cx.old.rows Declarations) }
    ensures before { IfOk result (λ id. id.number < size cx.new.rows Declarations) }
    ensures declared { IfOk result (λ id. IsFunctionOf cx.new.rows name types id) }
{
    // The default list of bound variables is the empty one.
    cx.are_rows();
    let vars = BoundVarKinds::default();
    let kind = FnSigKind::new(ExternAbi::Rust, Safety::Safe, false);
    let sig = FnSig {
        inputs_and_output: types,
        fn_sig_kind: kind,
    };
    let sig = Binder::bind_with_vars(sig, vars);
    if !cx.owns_signature(&sig) {
        return Err(Failure::Malformed);
    }
    Ok(cx.declare_function(name, EarlyBinder::bind(sig))?)
}
