//! Whole programs.

ghost use Rattle.std.specs.Prelude.{◌≡◌, [], IfOk, IsOk, OnOk};
ghost use Rattle.tt_kinds.specs.Kinds.{ty_shape};
ghost use Rattle.tt_interner.specs.Owned.{AreOwned};
ghost use Rattle.tt_interner.specs.Stored.{Extends};
ghost use Rattle.checker.specs.Items.{AreTyped, ids_of, IsDeclared};
ghost use Rattle.checker.specs.Scope.{AreTypedBodies, HasTyping, IsTypedFunction, IsTypedProgram};

use crate::declared::{Declared, declare};
use crate::failure::Failure;
use crate::infer::infer_body;
use crate::lookup::{at, type_at};
use crate::mistake::Mistake;
use crate::scope::Scope;
use crate::type_text::text_of;
use crate::verify::verify;
use checker_syntax::program::{Expression, Function, Program};
use tt_interner::Interner;
use tt_kinds::Ty;

/// An accepted program: its declared items, and the types of each function's expressions. A function that is only
/// declared has no expressions.
#[derive(Drop)]
pub struct Checked {
    pub declared: Declared,
    pub bodies: Vec<Vec<Ty>>,
}

/// Checks a program, and returns its types.
///
/// # Errors
///
/// The first error ends the check. The functions are checked in the order of the program, and the types of a function's
/// expressions are inferred in the order of the expressions.
#[tactic(auto, using(crate::proofs::ClientLaws::growth_laws))]
pub fn check(cx: &mut Interner, program: &Program) -> Result<Checked, Failure>
    ensures extends { Extends cx.old cx.new }
    ensures owned { IfOk result (λ checked. AreTyped cx.new checked.bodies.items) }
    ensures declared { IfOk result (λ checked. IsDeclared cx.new program.now checked.declared) }
    ensures typed { IfOk result (λ checked. IsTypedProgram
        cx.new
        program.now
        (ids_of checked.declared)
        checked.bodies.items) }
{
    let declared = declare(cx, program)?;
    let bodies = typed_bodies(cx, program, &declared)?;
    Ok(Checked { declared, bodies })
}

// Returns the types of each function's expressions.
#[tactic(auto, using(crate::proofs::ClientLaws::growth_laws))]
fn typed_bodies(
    cx: &mut Interner,
    program: &Program,
    declared: &Declared,
) -> Result<Vec<Vec<Ty>>, Failure>
    requires { IsDeclared cx.old program.now declared.now }
    ensures extends { Extends cx.old cx.new }
    ensures owned { IfOk result (λ bodies. AreTyped cx.new bodies.items) }
    ensures typed { IfOk result (λ bodies. AreTypedBodies
        cx.new
        program.now
        (ids_of declared.now)
        bodies.items) }
{
    let mut bodies = Vec::new(cx.allocator());
    for number in 0..program.functions.len() {
        let Some(function) = program.functions.get(number) else {
            return Err(Failure::Malformed);
        };
        let types = types_of(cx, program, declared, function)?;
        bodies.push(types)?;
    }
    Ok(bodies)
}

// Returns the types of the function's expressions, or no types if the function has no body.
#[tactic(auto, using(crate::proofs::ClientLaws::growth_laws))]
fn types_of(
    cx: &mut Interner,
    program: &Program,
    declared: &Declared,
    function: &Function,
) -> Result<Vec<Ty>, Failure>
    requires { IsDeclared cx.old program.now declared.now }
    ensures extends { Extends cx.old cx.new }
    ensures owned { IfOk result (λ types. AreOwned ty_shape cx.new types.items) }
    ensures typed { IfOk result (λ types. IsTypedFunction
        cx.new
        program.now
        (ids_of declared.now)
        function.now
        types.items) }
{
    let Some(body) = &function.body else {
        return Ok(Vec::new(cx.allocator()));
    };
    let found = infer_body(cx, program, declared, function, body)?;
    let scope = Scope {
        program,
        declared,
        function,
        body,
        types: found.types.as_slice(),
    };
    verify(cx, scope, found.subjects.as_slice())?;
    Ok(found.types)
}

// Adds the mistake that ended a check, if one did.
fn note_mistake(found: &mut Vec<Mistake>, checked: Result<Vec<Ty>, Failure>) -> Result<(), Failure>
    ensures none { OnOk result (found.new.items ≡ [] → (found.old.items ≡ []) × IsOk checked) }
{
    match checked {
        Ok(_types) => Ok(()),
        Err(Failure::Wrong(mistake)) => {
            found.push(mistake)?;
            Ok(())
        }
        Err(failure) => Err(failure),
    }
}

/// Returns the first mistake in each function's body, in the order of the functions. A program without a mistake has
/// types by the rules.
#[tactic(auto, using(crate::proofs::ClientLaws::growth_laws))]
pub fn mistakes(cx: &mut Interner, program: &Program) -> Result<Vec<Mistake>, Failure>
    ensures extends { Extends cx.old cx.new }
    ensures typed { IfOk result (λ found. found.items ≡ [] → HasTyping cx.new program.now) }
{
    let declared = declare(cx, program)?;
    let mut found = Vec::new(cx.allocator());
    for number in 0..program.functions.len() {
        let Some(function) = program.functions.get(number) else {
            return Err(Failure::Malformed);
        };
        let checked = types_of(cx, program, &declared, function);
        note_mistake(&mut found, checked)?;
    }
    Ok(found)
}

/// Returns a line for each variable of the program: the place of its `let`, and its type. The types have to be this
/// interner's, as the ones that [`check`] returns are.
#[tactic(auto, using(crate::proofs::ClientLaws::growth_laws))]
pub fn variables(cx: &Interner, program: &Program, bodies: &[Vec<Ty>]) -> Result<String, Failure>
    requires { AreTyped cx.now bodies.now }
{
    let mut lines = String::new(cx.allocator());
    for (function, types) in program.functions.iter().zip(bodies.iter()) {
        if let Some(body) = &function.body {
            for (number, expression) in body.expressions.iter().enumerate() {
                if let Expression::Let(_, _) = expression {
                    let place = at(body.places.as_slice(), number)?;
                    let ty = type_at(cx, types.as_slice(), number)?;
                    let (line, column, text) = (place.line, place.column, text_of(cx, ty)?);
                    writeln!(lines, "{line}:{column}: {text}")?;
                }
            }
        }
    }
    Ok(lines)
}
