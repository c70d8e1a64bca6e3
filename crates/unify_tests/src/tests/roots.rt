//! The ends of chains of variables.

ghost use Rattle.unify.specs.Bindings.{IsTable};

use super::{answer, holds_anew, table_of, unified, variable};
use test_terms::u32_ty;
use type_terms::{Interner, Refusal, TyVid};
use unify::{Bindings, Fault};

// Returns the numbers of the roots of the first three variables.
fn roots(cx: &Interner, bindings: &Bindings) -> [u32; 3]
    requires { IsTable cx.now bindings.now }
{
    [
        bindings.root(cx, TyVid::from_u32(0)).as_u32(),
        bindings.root(cx, TyVid::from_u32(1)).as_u32(),
        bindings.root(cx, TyVid::from_u32(2)).as_u32(),
    ]
}

// Returns whether three variables have the oldest one as their root once they are equal, and a binding there.
fn meet_at_the_oldest(cx: &mut Interner) -> Result<bool, Fault> {
    let (zero, one, two) = (variable(cx, 0)?, variable(cx, 1)?, variable(cx, 2)?);
    let number = u32_ty(cx)?;
    let mut bindings = table_of(cx, 3)?;
    unified(cx, &mut bindings, zero, one)?;
    let apart = roots(cx, &bindings);
    unified(cx, &mut bindings, one, two)?;
    unified(cx, &mut bindings, two, number)?;
    let together = roots(cx, &bindings);
    let is_bound = bindings.probe(TyVid::from_u32(0)) == Some(number);
    Ok(apart == [0, 0, 2] && together == [0, 0, 0] && is_bound)
}

// ?0 and ?1 are equal, then all three, and then they are u32.
fn equal_variables_have_one_root_holds(cx: &mut Interner) -> Result<bool, Refusal> {
    Ok(answer(meet_at_the_oldest(cx)))
}

#[test]
fn equal_variables_have_one_root(rt: HostRuntime) {
    holds_anew(&rt, rt.alloc(), equal_variables_have_one_root_holds);
}
