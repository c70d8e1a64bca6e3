//! Inferring the types of a body's expressions.
//!
//! The type of an expression follows from the types of its operands, which come before it. It holds an inference variable
//! for what isn't known yet: a type argument, or what a value refers to that is dereferenced.

mod calls;
mod common;
mod equality;
mod projections;

ghost use Rattle.std.specs.Prelude.{IfOk};
ghost use Rattle.tt_interner.specs.Owned.{AreOwned, IsOwned};
ghost use Rattle.tt_interner.specs.Stored.{Extends};
ghost use Rattle.tt_kinds.specs.Kinds.{ty_shape};
ghost use Rattle.unify.specs.Bindings.{IsTable};
ghost use Rattle.checker.specs.Items.{IsDeclared};
ghost use Rattle.checker.specs.Scope.{IsScope};

use crate::built::built;
use crate::declared::Declared;
use crate::failure::Failure;
use crate::lookup::at;
use crate::mistake::{Mistake, Origin, Wanted, unknown_type};
use crate::scope::{Scope, let_of, operand, place_of, type_of, written};
use crate::types::{item_type, reference_to, tuple_of};
use checker_syntax::program::{Body, Expression, Function, Program};
use equality::{equate, fresh_variable};
use tt_interner::Interner;
use tt_kinds::Ty;
use tt_visit::TypeVisitableExt;
use unify::Bindings;

/// The inferred types of a body.
#[derive(Drop)]
pub struct Inferred {
    /// The type of each expression.
    pub types: Vec<Ty>,
    /// For each call, the type of the function at its type arguments. For another expression, the expression's type.
    pub subjects: Vec<Ty>,
}

/// Infers the types of a function's body.
#[tactic(auto, using(crate::proofs::ClientLaws::growth_laws))]
pub fn infer_body(
    cx: &mut Interner,
    program: &Program,
    declared: &Declared,
    function: &Function,
    body: &Body,
) -> Result<Inferred, Failure>
    requires { IsDeclared cx.old program.now declared.now }
    ensures extends { Extends cx.old cx.new }
    ensures types { IfOk result (λ i. AreOwned ty_shape cx.new i.types.items) }
    ensures subjects { IfOk result (λ i. AreOwned ty_shape cx.new i.subjects.items) }
{
    let mut bindings = Bindings::new(cx.allocator());
    let found = infer_all(cx, program, declared, function, body, &mut bindings)?;
    let scope = Scope {
        program,
        declared,
        function,
        body,
        types: found.types.as_slice(),
    };
    infer_result(cx, scope, &mut bindings)?;
    let types = resolved(cx, scope, &bindings, scope.types, Wanted::Type)?;
    let subjects = resolved(
        cx,
        scope,
        &bindings,
        found.subjects.as_slice(),
        Wanted::Arguments,
    )?;
    Ok(Inferred { types, subjects })
}

// Infers the types of all expressions, with variables.
#[tactic(auto, using(crate::proofs::ClientLaws::growth_laws))]
fn infer_all(
    cx: &mut Interner,
    program: &Program,
    declared: &Declared,
    function: &Function,
    body: &Body,
    bindings: &mut Bindings,
) -> Result<Inferred, Failure>
    requires declared { IsDeclared cx.old program.now declared.now }
    requires table { IsTable cx.old bindings.old }
    ensures extends { Extends cx.old cx.new }
    ensures table { IsTable cx.new bindings.new }
    ensures types { IfOk result (λ i. AreOwned ty_shape cx.new i.types.items) }
    ensures subjects { IfOk result (λ i. AreOwned ty_shape cx.new i.subjects.items) }
{
    let mut types = Vec::new(cx.allocator());
    let mut subjects = Vec::new(cx.allocator());
    for number in 0..body.expressions.len() {
        let expression = at(body.expressions.as_slice(), number)?;
        let before = types.as_slice();
        let scope = Scope {
            program,
            declared,
            function,
            body,
            types: before,
        };
        let found = infer(cx, scope, bindings, number, expression)?;
        types.push(found.0)?;
        subjects.push(found.1)?;
    }
    Ok(Inferred { types, subjects })
}

// Makes the type of the result equal to the function's output.
#[tactic(auto, using(crate::proofs::ClientLaws::growth_laws))]
fn infer_result(cx: &mut Interner, scope: Scope<'_>, bindings: &mut Bindings) -> Result<(), Failure>
    requires scope { IsScope cx.old scope }
    requires table { IsTable cx.old bindings.old }
    ensures extends { Extends cx.old cx.new }
    ensures table { IsTable cx.new bindings.new }
{
    let output = written(cx, scope, scope.function.output)?;
    let result = type_of(cx, scope, scope.body.result)?;
    let place = place_of(scope, scope.body.result)?;
    let origin = Origin::Result {
        name: scope.function.name,
        declared: scope.function.place,
    };
    equate(cx, bindings, place, origin, output, result)
}

// Returns the types with their variables replaced. Each type has to be known.
#[tactic(auto, using(crate::proofs::ClientLaws::growth_laws))]
fn resolved(
    cx: &mut Interner,
    scope: Scope<'_>,
    bindings: &Bindings,
    types: &[Ty],
    wanted: Wanted,
) -> Result<Vec<Ty>, Failure>
    requires table { IsTable cx.old bindings.now }
    requires types { AreOwned ty_shape cx.old types.now }
    ensures extends { Extends cx.old cx.new }
    ensures table { IsTable cx.new bindings.now }
    ensures owned { IfOk result (λ known. AreOwned ty_shape cx.new known.items) }
{
    // As parts of one type, types that share parts are resolved in one walk.
    let whole = tuple_of(cx, types)?;
    let all = bindings.resolve(cx, whole)?;
    known_items(cx, scope, bindings, all, types.len(), wanted)
}

// Returns so many items of the tuple. Each has to be known.
#[tactic(auto, using(crate::proofs::ClientLaws::growth_laws))]
fn known_items(
    cx: &mut Interner,
    scope: Scope<'_>,
    bindings: &Bindings,
    all: Ty,
    count: usize,
    wanted: Wanted,
) -> Result<Vec<Ty>, Failure>
    requires table { IsTable cx.old bindings.now }
    requires all { IsOwned ty_shape cx.old all }
    ensures extends { Extends cx.old cx.new }
    ensures table { IsTable cx.new bindings.now }
    ensures owned { IfOk result (λ known. AreOwned ty_shape cx.new known.items) }
{
    let mut known = Vec::new(cx.allocator());
    for number in 0..count {
        let Some(ty) = item_type(cx, all, number) else {
            return Err(Failure::Malformed);
        };
        if ty.has_infer(cx) {
            let place = place_of(scope, number)?;
            let cause = unknown_type(cx, bindings, ty, wanted, let_of(scope, number))?;
            return Err(Failure::Wrong(Mistake { place, cause }));
        }
        known.push(ty)?;
    }
    Ok(known)
}

// Infers the type of the expression of this number. Returns the expression's entries of [`Inferred`].
#[tactic(auto, using(crate::proofs::ClientLaws::growth_laws))]
fn infer(
    cx: &mut Interner,
    scope: Scope<'_>,
    bindings: &mut Bindings,
    number: usize,
    expression: Expression,
) -> Result<(Ty, Ty), Failure>
    requires scope { IsScope cx.old scope }
    requires table { IsTable cx.old bindings.old }
    ensures extends { Extends cx.old cx.new }
    ensures table { IsTable cx.new bindings.new }
    ensures ty { IfOk result (λ found. IsOwned ty_shape cx.new found.0) }
    ensures subject { IfOk result (λ found. IsOwned ty_shape cx.new found.1) }
{
    if let Expression::Call(function, arguments) = expression {
        return calls::infer_call(cx, scope, bindings, number, function, arguments);
    }
    let ty = infer_type(cx, scope, bindings, number, expression)?;
    Ok((ty, ty))
}

// Infers the type of the expression of this number, which is no call.
#[tactic(auto, using(crate::proofs::ClientLaws::growth_laws))]
fn infer_type(
    cx: &mut Interner,
    scope: Scope<'_>,
    bindings: &mut Bindings,
    number: usize,
    expression: Expression,
) -> Result<Ty, Failure>
    requires scope { IsScope cx.old scope }
    requires table { IsTable cx.old bindings.old }
    ensures extends { Extends cx.old cx.new }
    ensures table { IsTable cx.new bindings.new }
    ensures owned { IfOk result (λ ty. IsOwned ty_shape cx.new ty) }
{
    match expression {
        Expression::Let(init, annotation) => {
            infer_let(cx, scope, bindings, number, init, annotation)
        }
        Expression::Dereference(value) => infer_dereference(cx, scope, bindings, number, value),
        Expression::Data(data, fields) => {
            calls::infer_data(cx, scope, bindings, number, data, fields)
        }
        Expression::Field(value, name) => {
            projections::infer_field(cx, scope, bindings, number, value, name)
        }
        Expression::Item(value, item) => {
            projections::infer_item(cx, scope, bindings, number, value, item)
        }
        _ => built(cx, scope, number, expression),
    }
}

// Infers the type of what a reference refers to.
#[tactic(auto, using(crate::proofs::ClientLaws::growth_laws))]
fn infer_dereference(
    cx: &mut Interner,
    scope: Scope<'_>,
    bindings: &mut Bindings,
    number: usize,
    value: usize,
) -> Result<Ty, Failure>
    requires scope { IsScope cx.old scope }
    requires table { IsTable cx.old bindings.old }
    ensures extends { Extends cx.old cx.new }
    ensures table { IsTable cx.new bindings.new }
    ensures owned { IfOk result (λ ty. IsOwned ty_shape cx.new ty) }
{
    let found = operand(cx, scope, number, value)?;
    let place = place_of(scope, value)?;
    let ty = fresh_variable(cx, bindings)?;
    let expected = reference_to(cx, ty)?;
    equate(cx, bindings, place, Origin::Dereference, expected, found)?;
    Ok(ty)
}

// Infers the type of a `let`: the type of its value, which has to equal the written type if there is one.
#[tactic(auto, using(crate::proofs::ClientLaws::growth_laws))]
fn infer_let(
    cx: &mut Interner,
    scope: Scope<'_>,
    bindings: &mut Bindings,
    number: usize,
    init: usize,
    annotation: Option<usize>,
) -> Result<Ty, Failure>
    requires scope { IsScope cx.old scope }
    requires table { IsTable cx.old bindings.old }
    ensures extends { Extends cx.old cx.new }
    ensures table { IsTable cx.new bindings.new }
    ensures owned { IfOk result (λ ty. IsOwned ty_shape cx.new ty) }
{
    let found = operand(cx, scope, number, init)?;
    if let Some(annotation) = annotation {
        let expected = written(cx, scope, annotation)?;
        let place = place_of(scope, init)?;
        let origin = Origin::Let(place_of(scope, number)?);
        equate(cx, bindings, place, origin, expected, found)?;
    }
    Ok(found)
}
