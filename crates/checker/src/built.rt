//! Types that are built from the types of operands.

ghost use Rattle.std.specs.Prelude.{◌≡◌, IfOk};
ghost use Rattle.tt_fold.specs.Steps.{tree_in};
ghost use Rattle.tt_interner.specs.Owned.{IsOwned};
ghost use Rattle.tt_interner.specs.Stored.{Extends};
ghost use Rattle.tt_kinds.specs.Kinds.{ty_shape};
ghost use Rattle.checker.specs.Scope.{around, IsScope};
ghost use Rattle.checker.specs.Typing.{IsTyped};
ghost use Rattle.checker.specs.Typing.{literal_type as type_of_literal};

use crate::failure::Failure;
use crate::lookup::{at, part_of};
use crate::scope::{Scope, operand, operands, written};
use crate::types::{reference_to, tuple_of};
use checker_syntax::program::{Expression, Literal};
use tt_index::IntTy;
use tt_interner::Interner;
use tt_kinds::{Ty, TyKind};

/// Returns the type of an expression whose type follows from its operands' types: a literal, an argument, a use of a
/// variable, a tuple or a reference.
#[tactic(auto, using(crate::proofs::ScopeLaws::verify_laws))]
pub fn built(
    cx: &mut Interner,
    scope: Scope<'_>,
    number: usize,
    expression: Expression,
) -> Result<Ty, Failure>
    requires { IsScope cx.old scope }
    ensures extends { Extends cx.old cx.new }
    ensures owned { IfOk result (λ ty. IsOwned ty_shape cx.new ty) }
    ensures typed { IfOk result (λ ty. IsTyped
        (around cx.old scope.entry)
        number
        (tree_in cx.new.rows (ty_shape ty))
        expression) }
{
    match expression {
        Expression::Literal(literal) => literal_type(cx, literal),
        Expression::Argument(argument) => {
            let input = at(scope.function.inputs.as_slice(), argument)?;
            written(cx, scope, input)
        }
        Expression::Local(binding) => {
            let declared = at(scope.body.expressions.as_slice(), binding)?;
            let Expression::Let(_, _) = declared else {
                return Err(Failure::Malformed);
            };
            operand(cx, scope, number, binding)
        }
        Expression::Tuple(items) => {
            let numbers = part_of(scope.body.operands.as_slice(), items)?;
            let items = operands(cx, scope, number, numbers)?;
            tuple_of(cx, items.as_slice())
        }
        Expression::Reference(value) => {
            let referent = operand(cx, scope, number, value)?;
            reference_to(cx, referent)
        }
        _ => Err(Failure::Malformed),
    }
}

// Returns the type of a literal.
#[tactic(auto, using(crate::proofs::ScopeLaws::verify_laws))]
fn literal_type(cx: &mut Interner, literal: Literal) -> Result<Ty, Failure>
    ensures extends { Extends cx.old cx.new }
    ensures owned { IfOk result (λ ty. IsOwned ty_shape cx.new ty) }
    ensures is { IfOk result (λ ty. tree_in cx.new.rows (ty_shape ty) ≡ type_of_literal literal) }
{
    match literal {
        Literal::Int => Ok(cx.mk_ty(TyKind::Int(IntTy::I32))?),
        Literal::Bool => Ok(cx.mk_ty(TyKind::Bool)?),
        Literal::Char => Ok(cx.mk_ty(TyKind::Char)?),
        Literal::Str => {
            let text = cx.mk_ty(TyKind::Str)?;
            reference_to(cx, text)
        }
    }
}
