//! Calls and data type expressions, whose type arguments are inferred.

ghost use Rattle.std.specs.Prelude.{IfOk};
ghost use Rattle.tt_kinds.specs.Kinds.{ty_shape};
ghost use Rattle.tt_interner.specs.Owned.{AreOwned, IsOwned};
ghost use Rattle.tt_interner.specs.Stored.{Extends};
ghost use Rattle.unify.specs.Bindings.{IsTable};
ghost use Rattle.checker.specs.Items.{AreOwnedFields};
ghost use Rattle.checker.specs.Scope.{IsScope};
ghost use Rattle.tt_kinds.specs.Values.{fn_sig_shape};

use crate::failure::Failure;
use crate::infer::equality::{equate, fresh_variables};
use crate::lookup::{at, part_of, type_at};
use crate::mistake::{Item, Mistake, Origin, wrong_count};
use crate::scope::{Scope, operand, place_of};
use crate::types::{data_type_of, function_of};
use checker_syntax::program::Span;
use tt_binder::{DataTypes, TypeSignature};
use tt_interner::{InternedKind, InternedList, Interner, SignatureTys};
use tt_kinds::{AdtId, FieldInfo, FnSig, FunctionId, Ty};
use unify::Bindings;

// Returns the type of the function of this id at new variables, one for each of this many parameters.
#[tactic(auto, using(crate::proofs::ClientLaws::growth_laws))]
fn fresh_function(
    cx: &mut Interner,
    bindings: &mut Bindings,
    id: FunctionId,
    params: usize,
) -> Result<Ty, Failure>
    requires { IsTable cx.old bindings.old }
    ensures extends { Extends cx.old cx.new }
    ensures table { IsTable cx.new bindings.new }
    ensures owned { IfOk result (λ ty. IsOwned ty_shape cx.new ty) }
{
    let variables = fresh_variables(cx, bindings, params)?;
    function_of(cx, id, variables.as_slice())
}

// Returns the data type of this id at new variables, one for each of this many parameters.
#[tactic(auto, using(crate::proofs::ClientLaws::growth_laws))]
fn fresh_data_type(
    cx: &mut Interner,
    bindings: &mut Bindings,
    id: AdtId,
    params: usize,
) -> Result<Ty, Failure>
    requires { IsTable cx.old bindings.old }
    ensures extends { Extends cx.old cx.new }
    ensures table { IsTable cx.new bindings.new }
    ensures owned { IfOk result (λ ty. IsOwned ty_shape cx.new ty) }
{
    let variables = fresh_variables(cx, bindings, params)?;
    data_type_of(cx, id, variables.as_slice())
}

// Makes the types of the operands equal to the expected types, in order. They are the item's arguments or fields.
#[tactic(auto, using(crate::proofs::ClientLaws::growth_laws))]
fn equate_each(
    cx: &mut Interner,
    scope: Scope<'_>,
    bindings: &mut Bindings,
    number: usize,
    owner: Item,
    expected: &[Ty],
    operands: &[usize],
) -> Result<(), Failure>
    requires scope { IsScope cx.old scope }
    requires table { IsTable cx.old bindings.old }
    requires expected { AreOwned ty_shape cx.old expected.now }
    ensures extends { Extends cx.old cx.new }
    ensures table { IsTable cx.new bindings.new }
{
    for index in 0..operands.len() {
        let value = operands[index];
        let found = operand(cx, scope, number, value)?;
        let expected = type_at(cx, expected, index)?;
        let origin = Origin::Operand {
            owner,
            number: index,
        };
        equate(
            cx,
            bindings,
            place_of(scope, value)?,
            origin,
            expected,
            found,
        )?;
    }
    Ok(())
}

/// Infers the type of a call and the type arguments of the function. Returns the call's type, and the type of the function
/// at these arguments.
#[tactic(auto, using(crate::proofs::ClientLaws::growth_laws))]
pub fn infer_call(
    cx: &mut Interner,
    scope: Scope<'_>,
    bindings: &mut Bindings,
    number: usize,
    function: usize,
    arguments: Span,
) -> Result<(Ty, Ty), Failure>
    requires scope { IsScope cx.old scope }
    requires table { IsTable cx.old bindings.old }
    ensures extends { Extends cx.old cx.new }
    ensures table { IsTable cx.new bindings.new }
    ensures ty { IfOk result (λ found. IsOwned ty_shape cx.new found.0) }
    ensures subject { IfOk result (λ found. IsOwned ty_shape cx.new found.1) }
{
    let Some(callee) = scope.program.functions.get(function) else {
        return Err(Failure::Malformed);
    };
    let arguments = part_of(scope.body.operands.as_slice(), arguments)?;
    let place = place_of(scope, number)?;
    if arguments.len() != callee.inputs.len() {
        let cause = wrong_count(cx, scope.program, callee, arguments.len())?;
        return Err(Failure::Wrong(Mistake { place, cause }));
    }
    let id = at(scope.declared.functions.as_slice(), function)?;
    let item = fresh_function(cx, bindings, id, callee.params.len())?;
    let (inputs, output) = signature(cx, item)?;
    let owner = Item::Function(function);
    equate_each(
        cx,
        scope,
        bindings,
        number,
        owner,
        inputs.as_slice(),
        arguments,
    )?;
    Ok((output, item))
}

// Returns the types of the inputs and of the output of a function's type.
#[tactic(auto, using(crate::proofs::ClientLaws::growth_laws))]
fn signature(cx: &mut Interner, item: Ty) -> Result<(Vec<Ty>, Ty), Failure>
    requires { IsOwned ty_shape cx.old item }
    ensures extends { Extends cx.old cx.new }
    ensures inputs { IfOk result (λ sig. AreOwned ty_shape cx.new sig.0.items) }
    ensures output { IfOk result (λ sig. IsOwned ty_shape cx.new sig.1) }
{
    let kind = *item.kind(cx);
    if !kind.has_fn_sig(cx) || !cx.owns_kind(&kind) {
        return Err(Failure::Malformed);
    }
    let sig = kind.fn_sig(cx)?.skip_binder();
    if !sig.has_output(cx) {
        return Err(Failure::Malformed);
    }
    let output = sig.output(cx);
    let inputs = inputs_of(cx, sig)?;
    Ok((inputs, output))
}

// Returns the types of a signature's inputs.
fn inputs_of(cx: &Interner, sig: FnSig) -> Result<Vec<Ty>, Failure>
    requires { IsOwned fn_sig_shape cx.now sig }
    ensures { IfOk result (λ inputs. AreOwned ty_shape cx.now inputs.items) }
{
    let types = sig.inputs_and_output.as_slice(cx);
    let mut inputs = Vec::new(cx.allocator());
    for index in 1..types.len() {
        inputs.push(type_at(cx, types, index - 1)?)?;
    }
    Ok(inputs)
}

/// Infers the type of a data type expression and the type arguments of the data type.
#[tactic(auto, using(crate::proofs::ClientLaws::growth_laws))]
pub fn infer_data(
    cx: &mut Interner,
    scope: Scope<'_>,
    bindings: &mut Bindings,
    number: usize,
    data: usize,
    fields: Span,
) -> Result<Ty, Failure>
    requires scope { IsScope cx.old scope }
    requires table { IsTable cx.old bindings.old }
    ensures extends { Extends cx.old cx.new }
    ensures table { IsTable cx.new bindings.new }
    ensures owned { IfOk result (λ ty. IsOwned ty_shape cx.new ty) }
{
    let Some(item) = scope.program.data.get(data) else {
        return Err(Failure::Malformed);
    };
    let values = part_of(scope.body.operands.as_slice(), fields)?;
    let id = at(scope.declared.data_types.as_slice(), data)?;
    let ty = fresh_data_type(cx, bindings, id, item.params.len())?;
    let types = field_types(cx, ty)?;
    if values.len() != types.len() {
        return Err(Failure::Malformed);
    }
    let owner = Item::Data(data);
    equate_each(cx, scope, bindings, number, owner, types.as_slice(), values)?;
    Ok(ty)
}

// Returns the types of a data type's fields.
#[tactic(auto, using(crate::proofs::ClientLaws::growth_laws))]
fn field_types(cx: &mut Interner, ty: Ty) -> Result<Vec<Ty>, Failure>
    requires { IsOwned ty_shape cx.old ty }
    ensures extends { Extends cx.old cx.new }
    ensures owned { IfOk result (λ types. AreOwned ty_shape cx.new types.items) }
{
    let fields = fields_of(cx, ty)?;
    let mut types = Vec::new(cx.allocator());
    for index in 0..fields.len() {
        types.push(field_type(cx, fields.as_slice(), index)?)?;
    }
    Ok(types)
}

/// Returns the fields of a data type.
pub fn fields_of(cx: &mut Interner, ty: Ty) -> Result<Vec<FieldInfo>, Failure>
    requires { IsOwned ty_shape cx.old ty }
    ensures extends { Extends cx.old cx.new }
    ensures owned { IfOk result (λ fields. AreOwnedFields cx.new fields.items) }
{
    if !cx.is_adt(ty) {
        return Err(Failure::Malformed);
    }
    Ok(cx.fields_of(ty)?)
}

/// Returns the type of the field of this number.
pub fn field_type(cx: &Interner, fields: &[FieldInfo], number: usize) -> Result<Ty, Failure>
    requires { AreOwnedFields cx.now fields.now }
    ensures { IfOk result (λ ty. IsOwned ty_shape cx.now ty) }
{
    let field = at(fields, number)?;
    Ok(field.ty)
}
