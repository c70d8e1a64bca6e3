//! Comparing types with instances of written types.

ghost use Rattle.std.specs.Prelude.{◌≡◌, IfOk, IfSome, IsTrue, OnOk, Some, map, slice_get};
ghost use Rattle.tt_interner.specs.Arguments.{AreArguments, args_at};
ghost use Rattle.tt_binder.specs.Instance.{IsPlain};
ghost use Rattle.tt_fold.specs.Steps.{tree_in};
ghost use Rattle.tt_interner.specs.Owned.{IsOwned};
ghost use Rattle.tt_interner.specs.Stored.{Extends};
ghost use Rattle.tt_kinds.specs.Kinds.{args_shape, ty_shape};
ghost use Rattle.tt_kinds.specs.Tree.{Depth, Tree};
ghost use Rattle.checker_syntax.specs.declared.program.Expression.TheVariants as of;
ghost use Rattle.checker.specs.Scope.{AreMarked, around, argument_trees, IsScope};
ghost use Rattle.checker.specs.Typing.{Fit, HasField, IsInstance, IsTyped, Writes};

use crate::failure::Failure;
use crate::lookup::{at, part_of};
use crate::scope::{Scope, operand, written};
use crate::types::{are_type_arguments, without_references};
use crate::verify::formed::are_arguments_marked;
use crate::verify::same;
use checker_syntax::program::{DataType, Span};
use tt_binder::Instantiate;
use tt_interner::{InternedKind, InternedList, Interner};
use tt_kinds::{AdtId, EarlyBinder, GenericArgs, Ty, TyKind};

// Returns the written type of this number, instantiated with the arguments.
#[tactic(auto, using(crate::proofs::ScopeLaws::verify_laws))]
fn instance(
    cx: &mut Interner,
    scope: Scope<'_>,
    number: usize,
    args: GenericArgs,
) -> Result<Ty, Failure>
    requires scope { IsScope cx.old scope }
    requires args { IsOwned args_shape cx.old args }
    ensures extends { Extends cx.old cx.new }
    ensures owned { IfOk result (λ ty. IsOwned ty_shape cx.new ty) }
    ensures plain { IfOk result (λ ty. (declared : Tree Depth)
        × Writes (around cx.old scope.entry) number declared
        × IsPlain (argument_trees cx.old args) declared (tree_in cx.new.rows (ty_shape ty))) }
{
    let declared = written(cx, scope, number)?;
    let instance = EarlyBinder::bind(declared).instantiate(cx, args)?;
    Ok(instance.skip_norm_wip())
}

// Compares the type with the written type of this number, instantiated with the arguments.
#[tactic(auto, using(crate::proofs::ScopeLaws::verify_laws))]
fn verify_instance(
    cx: &mut Interner,
    scope: Scope<'_>,
    number: usize,
    args: GenericArgs,
    ty: Ty,
) -> Result<(), Failure>
    requires scope { IsScope cx.old scope }
    requires args { IsOwned args_shape cx.old args }
    requires ty { IsOwned ty_shape cx.old ty }
    ensures extends { Extends cx.old cx.new }
    ensures plain { OnOk result ((declared : Tree Depth)
        × Writes (around cx.old scope.entry) number declared
        × IsPlain (argument_trees cx.old args) declared (tree_in cx.old.rows (ty_shape ty))) }
{
    same(instance(cx, scope, number, args)?, ty)
}

// Compares the types of the operands with the declared written types, instantiated with the arguments.
#[tactic(auto, using(crate::proofs::ScopeLaws::verify_laws))]
fn verify_each(
    cx: &mut Interner,
    scope: Scope<'_>,
    number: usize,
    args: GenericArgs,
    declared: &[usize],
    operands: &[usize],
) -> Result<(), Failure>
    requires scope { IsScope cx.old scope }
    requires args { IsOwned args_shape cx.old args }
    ensures extends { Extends cx.old cx.new }
    ensures fit { OnOk result (Fit
        (around cx.old scope.entry)
        number
        (argument_trees cx.old args)
        declared.now
        operands.now) }
{
    if declared.len() != operands.len() {
        return Err(Failure::Unverified);
    }
    // The arguments are the interner's, so their trees stay whatever is built.
    let _arguments = args.as_slice(cx);
    for index in 0..declared.len() {
        let found = operand(cx, scope, number, operands[index])?;
        verify_instance(cx, scope, declared[index], args, found)?;
    }
    Ok(())
}

/// Compares the types of a call with the rule.
#[tactic(auto, using(crate::proofs::ScopeLaws::verify_laws))]
pub fn verify_call(
    cx: &mut Interner,
    scope: Scope<'_>,
    marks: &[bool],
    number: usize,
    ty: Ty,
    function: usize,
    operands: Span,
    subject: Ty,
) -> Result<(), Failure>
    requires scope { IsScope cx.old scope }
    requires marks { AreMarked cx.old scope marks.now }
    requires ty { IsOwned ty_shape cx.old ty }
    requires subject { IsOwned ty_shape cx.old subject }
    ensures extends { Extends cx.old cx.new }
    ensures typed { OnOk result (IsTyped
        (around cx.old scope.entry)
        number
        (tree_in cx.old.rows (ty_shape ty))
        (of.Call function operands)) }
{
    let Some(item) = scope.program.functions.get(function) else {
        return Err(Failure::Malformed);
    };
    let TyKind::FnDef(_, args) = *subject.kind(cx) else {
        return Err(Failure::Unverified);
    };
    if !are_type_arguments(cx, args, item.params.len()) {
        return Err(Failure::Unverified);
    }
    if !are_arguments_marked(cx, scope, marks, args) {
        return Err(Failure::Unverified);
    }
    let operands = part_of(scope.body.operands.as_slice(), operands)?;
    verify_each(cx, scope, number, args, item.inputs.as_slice(), operands)?;
    verify_instance(cx, scope, item.output, args, ty)
}

/// Returns the arguments of the type, if the type is the data type of this number, which is `item`.
pub fn arguments_of(
    cx: &Interner,
    scope: Scope<'_>,
    data: usize,
    item: &DataType,
    ty: Ty,
) -> Result<Option<GenericArgs>, Failure>
    requires scope { IsScope cx.now scope }
    requires item { slice_get scope.program.now.«data».items «data» ≡ Some item.now }
    requires ty { IsOwned ty_shape cx.now ty }
    ensures owned { IfOk result (λ found. IfSome found (λ args. IsOwned args_shape cx.now args)) }
    ensures are { IfOk result (λ found. IfSome found (λ args. AreArguments
        cx.now.rows
        (args_at cx.now.rows args))) }
    ensures is { IfOk result (λ found. IfSome found (λ args. IsInstance
        (around cx.now scope.entry)
        «data»
        item.now
        (argument_trees cx.now args)
        (tree_in cx.now.rows (ty_shape ty)))) }
{
    let TyKind::Adt(id, args) = *ty.kind(cx) else {
        return Ok(None);
    };
    let declared = at(scope.declared.data_types.as_slice(), data)?;
    if is_same(id, declared) && are_type_arguments(cx, args, item.params.len()) {
        Ok(Some(args))
    } else {
        Ok(None)
    }
}

// Returns whether the two ids are the same.
fn is_same(left: AdtId, right: AdtId) -> bool
    ensures { IsTrue result → left ≡ right }
{
    if left == right { true } else { false }
}

/// Compares the types of a data type expression with the rule.
#[tactic(auto, using(crate::proofs::ScopeLaws::verify_laws))]
pub fn verify_data(
    cx: &mut Interner,
    scope: Scope<'_>,
    number: usize,
    ty: Ty,
    data: usize,
    fields: Span,
) -> Result<(), Failure>
    requires scope { IsScope cx.old scope }
    requires ty { IsOwned ty_shape cx.old ty }
    ensures extends { Extends cx.old cx.new }
    ensures typed { OnOk result (IsTyped
        (around cx.old scope.entry)
        number
        (tree_in cx.old.rows (ty_shape ty))
        (of.Data «data» fields)) }
{
    let Some(item) = scope.program.data.get(data) else {
        return Err(Failure::Malformed);
    };
    let Some(args) = arguments_of(cx, scope, data, item, ty)? else {
        return Err(Failure::Unverified);
    };
    let values = part_of(scope.body.operands.as_slice(), fields)?;
    let types = field_types(cx, item)?;
    verify_each(cx, scope, number, args, types.as_slice(), values)
}

// Returns the written types of the fields.
fn field_types(cx: &Interner, item: &DataType) -> Result<Vec<usize>, Failure>
    ensures { IfOk result (λ types. types.items ≡ map (λ f. f.ty) item.now.fields.items) }
{
    let mut types = Vec::new(cx.allocator());
    for field in item.fields.iter() {
        types.push(field.ty)?;
    }
    Ok(types)
}

/// Compares the type of a field with the rule.
#[tactic(auto, using(crate::proofs::ScopeLaws::verify_laws))]
pub fn verify_field(
    cx: &mut Interner,
    scope: Scope<'_>,
    number: usize,
    ty: Ty,
    value: usize,
    name: usize,
) -> Result<(), Failure>
    requires scope { IsScope cx.old scope }
    requires ty { IsOwned ty_shape cx.old ty }
    ensures extends { Extends cx.old cx.new }
    ensures typed { OnOk result (IsTyped
        (around cx.old scope.entry)
        number
        (tree_in cx.old.rows (ty_shape ty))
        (of.Field value name)) }
{
    let found = operand(cx, scope, number, value)?;
    let whole = without_references(cx, found);
    for data in 0..scope.program.data.len() {
        let item = &scope.program.data[data];
        if let Some(args) = arguments_of(cx, scope, data, item, whole)? {
            return verify_field_of(cx, scope, item, args, ty, name);
        }
    }
    Err(Failure::Unverified)
}

// Compares the type of a data type's field with the rule.
#[tactic(auto, using(crate::proofs::ScopeLaws::verify_laws))]
fn verify_field_of(
    cx: &mut Interner,
    scope: Scope<'_>,
    item: &DataType,
    args: GenericArgs,
    ty: Ty,
    name: usize,
) -> Result<(), Failure>
    requires scope { IsScope cx.old scope }
    requires args { IsOwned args_shape cx.old args }
    requires ty { IsOwned ty_shape cx.old ty }
    ensures extends { Extends cx.old cx.new }
    ensures is { OnOk result (HasField
        (around cx.old scope.entry)
        item.now
        (argument_trees cx.old args)
        name
        (tree_in cx.old.rows (ty_shape ty))) }
{
    for index in 0..item.fields.len() {
        let field = item.fields[index];
        if field.name == name {
            return verify_instance(cx, scope, field.ty, args, ty);
        }
    }
    Err(Failure::Unverified)
}
