//! Making the types of expressions equal.

ghost use Rattle.std.specs.Prelude.{IfOk};
ghost use Rattle.tt_kinds.specs.Kinds.{ty_shape};
ghost use Rattle.tt_interner.specs.Owned.{AreOwned, IsOwned};
ghost use Rattle.tt_interner.specs.Stored.{Extends};
ghost use Rattle.unify.specs.Bindings.{IsTable};

use crate::failure::Failure;
use crate::infer::common::unify_common;
use crate::mistake::{Mistake, Origin, mismatch};
use checker_syntax::program::Place;
use tt_interner::Interner;
use tt_kinds::Ty;
use unify::{Bindings, Fault, unify};

/// Returns a new variable.
#[tactic(auto, using(crate::proofs::ClientLaws::growth_laws))]
pub fn fresh_variable(cx: &mut Interner, bindings: &mut Bindings) -> Result<Ty, Failure>
    requires { IsTable cx.old bindings.old }
    ensures extends { Extends cx.old cx.new }
    ensures table { IsTable cx.new bindings.new }
    ensures owned { IfOk result (λ ty. IsOwned ty_shape cx.new ty) }
{
    match bindings.new_variable(cx) {
        Ok(ty) => Ok(ty),
        Err(Fault::Refused(refusal)) => Err(Failure::Refused(refusal)),
        Err(_) => Err(Failure::Malformed),
    }
}

/// Returns this many new variables.
#[tactic(auto, using(crate::proofs::ClientLaws::growth_laws))]
pub fn fresh_variables(
    cx: &mut Interner,
    bindings: &mut Bindings,
    count: usize,
) -> Result<Vec<Ty>, Failure>
    requires { IsTable cx.old bindings.old }
    ensures extends { Extends cx.old cx.new }
    ensures table { IsTable cx.new bindings.new }
    ensures owned { IfOk result (λ types. AreOwned ty_shape cx.new types.items) }
{
    let mut variables = Vec::new(cx.allocator());
    for _ in 0..count {
        variables.push(fresh_variable(cx, bindings)?)?;
    }
    Ok(variables)
}

/// Makes the type that was found at a place equal to the type that is expected there, which comes from the origin.
#[tactic(auto, using(crate::proofs::ClientLaws::growth_laws))]
pub fn equate(
    cx: &mut Interner,
    bindings: &mut Bindings,
    place: Place,
    origin: Origin,
    expected: Ty,
    found: Ty,
) -> Result<(), Failure>
    requires table { IsTable cx.old bindings.old }
    requires expected { IsOwned ty_shape cx.old expected }
    requires found { IsOwned ty_shape cx.old found }
    ensures extends { Extends cx.old cx.new }
    ensures table { IsTable cx.new bindings.new }
{
    match unify(cx, bindings, expected, found) {
        Ok(()) => Ok(()),
        Err(Fault::Refused(refusal)) => Err(Failure::Refused(refusal)),
        // No type of the language has a binder.
        Err(Fault::Escapes(_, _)) => Err(Failure::Unverified),
        Err(fault) => {
            let parts = unify_common(cx, bindings, expected, found)?;
            let cause = mismatch(cx, bindings, expected, found, parts, origin, fault)?;
            Err(Failure::Wrong(Mistake { place, cause }))
        }
    }
}
