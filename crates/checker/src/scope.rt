//! A function's body, and what is known around its expressions.

ghost use Rattle.std.specs.Prelude.{◌≡◌, ◌<◌, IfOk, Some, slice_get};
ghost use Rattle.tt_interner.specs.Owned.{AreOwned, IsOwned};
ghost use Rattle.tt_kinds.specs.Kinds.{ty_shape};
ghost use Rattle.tt_fold.specs.Steps.{tree_in};
ghost use Rattle.checker.specs.Items.{AreTypesBefore};
ghost use Rattle.checker.specs.Scope.{around, IsScope};
ghost use Rattle.checker.specs.Typing.{Writes};

use crate::declared::Declared;
use crate::failure::Failure;
use crate::lookup::{at, type_at, type_before, types_before};
use checker_syntax::program::{Body, Expression, Function, Place, Program};
use tt_interner::Interner;
use tt_kinds::Ty;

/// A function's body, what is declared around it, and the types of its expressions. During inference these types are
/// inference variables.
#[derive(Clone, Copy)]
pub struct Scope<'a> {
    pub program: &'a Program,
    pub declared: &'a Declared,
    pub function: &'a Function,
    pub body: &'a Body,
    pub types: &'a [Ty],
}

/// Returns where the expression of this number begins.
pub fn place_of(scope: Scope<'_>, number: usize) -> Result<Place, Failure> {
    at(scope.body.places.as_slice(), number)
}

/// Returns where the `let` is whose variable the expression of this number is, or whose value.
pub fn let_of(scope: Scope<'_>, number: usize) -> Option<Place> {
    let expressions = scope.body.expressions.as_slice();
    if let Some(Expression::Local(binding)) = expressions.get(number) {
        return place_of(scope, *binding).ok();
    }
    for (index, expression) in expressions.iter().enumerate() {
        if let Expression::Let(value, _) = expression
            && *value == number
        {
            return place_of(scope, index).ok();
        }
    }
    None
}

/// Returns the type of the expression of this number.
pub fn type_of(cx: &Interner, scope: Scope<'_>, number: usize) -> Result<Ty, Failure>
    requires { IsScope cx.now scope }
    ensures is { IfOk result (λ ty. slice_get scope.entry.types.now number ≡ Some ty) }
    ensures owned { IfOk result (λ ty. IsOwned ty_shape cx.now ty) }
{
    type_at(cx, scope.types, number)
}

/// Returns the type of an operand, which comes before its expression.
pub fn operand(
    cx: &Interner,
    scope: Scope<'_>,
    expression: usize,
    operand: usize,
) -> Result<Ty, Failure>
    requires { IsScope cx.now scope }
    ensures before { IfOk result (λ _. operand < expression) }
    ensures is { IfOk result (λ ty. slice_get scope.entry.types.now operand ≡ Some ty) }
    ensures owned { IfOk result (λ ty. IsOwned ty_shape cx.now ty) }
{
    type_before(cx, scope.types, expression, operand)
}

/// Returns the types of the operands of an expression, by their numbers.
pub fn operands(
    cx: &Interner,
    scope: Scope<'_>,
    expression: usize,
    numbers: &[usize],
) -> Result<Vec<Ty>, Failure>
    requires { IsScope cx.now scope }
    ensures owned { IfOk result (λ types. AreOwned ty_shape cx.now types.items) }
    ensures are { IfOk result (λ types. AreTypesBefore scope.entry.types.now expression numbers.now types.items) }
{
    types_before(cx, scope.types, expression, numbers)
}

/// Returns the written type of this number.
pub fn written(cx: &Interner, scope: Scope<'_>, number: usize) -> Result<Ty, Failure>
    requires { IsScope cx.now scope }
    ensures owned { IfOk result (λ ty. IsOwned ty_shape cx.now ty) }
    ensures is { IfOk result (λ ty. Writes
        (around cx.now scope.entry)
        number
        (tree_in cx.now.rows (ty_shape ty))) }
{
    type_at(cx, scope.declared.written.as_slice(), number)
}
