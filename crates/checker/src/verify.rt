//! Comparing the types of a body with the rules.

mod formed;
mod instances;

ghost use Rattle.std.specs.Prelude.{◌≡◌, OnOk};
ghost use Rattle.tt_fold.specs.Steps.{tree_in};
ghost use Rattle.tt_interner.specs.Owned.{AreOwned, IsOwned};
ghost use Rattle.tt_interner.specs.Stored.{Extends};
ghost use Rattle.tt_kinds.specs.Kinds.{ty_shape};
ghost use Rattle.checker_syntax.specs.declared.program.Expression.TheVariants as of;
ghost use Rattle.checker.specs.Scope.{AreMarked, around, IsScope};
ghost use Rattle.checker.specs.Typing.{HasType, IsFormed, IsKnown, IsTyped, IsTypedBody};

use crate::built::built;
use crate::failure::Failure;
use crate::lookup::{at, type_at};
use crate::scope::{Scope, operand, type_of, written};
use crate::types::{item_type, reference_to, without_references};
use checker_syntax::program::Expression;
use formed::{formed_types, is_marked, parameters};
use instances::{verify_call, verify_data, verify_field};
use tt_interner::Interner;
use tt_kinds::Ty;
use tt_visit::TypeVisitableExt;

/// Compares the type of each expression with its rule, and the type of the result with the written output type. The
/// type arguments of a call are the arguments of its subject. Each type has to be well formed within the function.
#[tactic(auto, using(crate::proofs::ScopeLaws::verify_laws))]
pub fn verify(cx: &mut Interner, scope: Scope<'_>, subjects: &[Ty]) -> Result<(), Failure>
    requires scope { IsScope cx.old scope }
    requires subjects { AreOwned ty_shape cx.old subjects.now }
    ensures extends { Extends cx.old cx.new }
    ensures typed { OnOk result (IsTypedBody (around cx.old scope.entry)) }
{
    let params = parameters(cx, scope.program, scope.function)?;
    let marks = formed_types(cx, scope, params.as_slice())?;
    verify_all(cx, scope, marks.as_slice(), subjects)
}

// Compares the types as [`verify`] does. The types that are well formed within the function are marked.
#[tactic(auto, using(crate::proofs::ScopeLaws::verify_laws))]
fn verify_all(
    cx: &mut Interner,
    scope: Scope<'_>,
    marks: &[bool],
    subjects: &[Ty],
) -> Result<(), Failure>
    requires scope { IsScope cx.old scope }
    requires marks { AreMarked cx.old scope marks.now }
    requires subjects { AreOwned ty_shape cx.old subjects.now }
    ensures extends { Extends cx.old cx.new }
    ensures typed { OnOk result (IsTypedBody (around cx.old scope.entry)) }
{
    if scope.types.len() != scope.body.expressions.len() {
        return Err(Failure::Unverified);
    }
    for number in 0..scope.body.expressions.len() {
        let expression = at(scope.body.expressions.as_slice(), number)?;
        let subject = type_at(cx, subjects, number)?;
        verify_expression(cx, scope, marks, number, expression, subject)?;
    }
    let output = written(cx, scope, scope.function.output)?;
    let result = type_of(cx, scope, scope.body.result)?;
    same(output, result)
}

// Succeeds if the two types are the same.
fn same(left: Ty, right: Ty) -> Result<(), Failure>
    ensures { OnOk result (left ≡ right) }
{
    if left == right {
        Ok(())
    } else {
        Err(Failure::Unverified)
    }
}

// Succeeds if no inference variable occurs in the type.
fn known(cx: &Interner, ty: Ty) -> Result<(), Failure>
    requires { IsOwned ty_shape cx.now ty }
    ensures { OnOk result (IsKnown (tree_in cx.now.rows (ty_shape ty))) }
{
    if ty.has_infer(cx) {
        Err(Failure::Unverified)
    } else {
        Ok(())
    }
}

// Succeeds if the type is marked.
fn marked(cx: &Interner, scope: Scope<'_>, marks: &[bool], ty: Ty) -> Result<(), Failure>
    requires { AreMarked cx.now scope marks.now }
    ensures { OnOk result (IsFormed (around cx.now scope.entry) (tree_in cx.now.rows (ty_shape ty))) }
{
    if is_marked(marks, ty) {
        Ok(())
    } else {
        Err(Failure::Unverified)
    }
}

// Compares the type of the expression of this number with its rule. The type has to be known and marked.
#[tactic(auto, using(crate::proofs::ScopeLaws::verify_laws))]
fn verify_expression(
    cx: &mut Interner,
    scope: Scope<'_>,
    marks: &[bool],
    number: usize,
    expression: Expression,
    subject: Ty,
) -> Result<(), Failure>
    requires scope { IsScope cx.old scope }
    requires marks { AreMarked cx.old scope marks.now }
    requires subject { IsOwned ty_shape cx.old subject }
    ensures extends { Extends cx.old cx.new }
    ensures typed { OnOk result (HasType (around cx.old scope.entry) number expression) }
{
    let ty = type_of(cx, scope, number)?;
    known(cx, ty)?;
    marked(cx, scope, marks, ty)?;
    match expression {
        Expression::Let(init, annotation) => verify_let(cx, scope, number, ty, init, annotation),
        Expression::Dereference(value) => verify_dereference(cx, scope, number, ty, value),
        Expression::Call(function, arguments) => {
            verify_call(cx, scope, marks, number, ty, function, arguments, subject)
        }
        Expression::Data(data, fields) => verify_data(cx, scope, number, ty, data, fields),
        Expression::Field(value, name) => verify_field(cx, scope, number, ty, value, name),
        Expression::Item(value, item) => verify_item(cx, scope, number, ty, value, item),
        _ => {
            let expected = built(cx, scope, number, expression)?;
            same(expected, ty)
        }
    }
}

// Compares the type of a `let` with the rule.
fn verify_let(
    cx: &Interner,
    scope: Scope<'_>,
    number: usize,
    ty: Ty,
    init: usize,
    annotation: Option<usize>,
) -> Result<(), Failure>
    requires { IsScope cx.now scope }
    ensures { OnOk result (IsTyped
        (around cx.now scope.entry)
        number
        (tree_in cx.now.rows (ty_shape ty))
        (of.Let init annotation)) }
{
    let found = operand(cx, scope, number, init)?;
    same(found, ty)?;
    match annotation {
        Some(annotation) => same(written(cx, scope, annotation)?, ty),
        None => Ok(()),
    }
}

// Compares the type of what a reference refers to with the rule.
#[tactic(auto, using(crate::proofs::ScopeLaws::verify_laws))]
fn verify_dereference(
    cx: &mut Interner,
    scope: Scope<'_>,
    number: usize,
    ty: Ty,
    value: usize,
) -> Result<(), Failure>
    requires scope { IsScope cx.old scope }
    requires ty { IsOwned ty_shape cx.old ty }
    ensures extends { Extends cx.old cx.new }
    ensures typed { OnOk result (IsTyped
        (around cx.old scope.entry)
        number
        (tree_in cx.old.rows (ty_shape ty))
        (of.Dereference value)) }
{
    let found = operand(cx, scope, number, value)?;
    let expected = reference_to(cx, ty)?;
    same(found, expected)
}

// Compares the type of an item with the rule.
fn verify_item(
    cx: &Interner,
    scope: Scope<'_>,
    number: usize,
    ty: Ty,
    value: usize,
    item: usize,
) -> Result<(), Failure>
    requires { IsScope cx.now scope }
    ensures { OnOk result (IsTyped
        (around cx.now scope.entry)
        number
        (tree_in cx.now.rows (ty_shape ty))
        (of.Item value item)) }
{
    let found = operand(cx, scope, number, value)?;
    let whole = without_references(cx, found);
    match item_type(cx, whole, item) {
        Some(expected) => same(expected, ty),
        None => Err(Failure::Unverified),
    }
}
