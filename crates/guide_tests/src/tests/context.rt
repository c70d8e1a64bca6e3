//! An interner and a table of its types, in one struct, as a checker of types has them.

use super::canonicalizer::variable;
use super::holds;
use super::resolver::{Resolver, resolved};
use std::alloc::Global;
use test_terms::{NOT_OWNED, ty};
use type_terms::{Interner, Owned, Refusal, Ty, TyKind};

// An interner, and what its inference variables are bound to, by their numbers.
#[derive(Drop)]
struct Context {
    cx: Interner,
    bound: Resolver,
}

impl Context {
    // Returns a context in which no variable is bound.
    fn new(alloc: Global) -> Result<Context, Refusal> {
        Ok(Context {
            cx: Interner::new(alloc)?,
            bound: Resolver {
                bindings: Vec::new(alloc),
            },
        })
    }

    // Binds the next variable. The type may come from anywhere, so it is tested once, here.
    fn bind(&mut self, ty: Ty) -> Result<(), Refusal> {
        if ty.is_owned(&self.cx) {
            self.bound.bindings.push(Some(ty))?;
            Ok(())
        } else {
            Err(NOT_OWNED)
        }
    }

    // Returns the type with its bound variables replaced.
    fn resolve(&mut self, ty: Ty) -> Result<Ty, Refusal> {
        resolved(&mut self.cx, ty, &mut self.bound)
    }
}

// A slice of a variable stays as it is until the variable is bound.
fn variables_are_resolved_holds(context: &mut Context) -> Result<bool, Refusal> {
    let first = variable(&mut context.cx, 0)?;
    let slice = ty(&mut context.cx, TyKind::Slice(first))?;
    let truth = ty(&mut context.cx, TyKind::Bool)?;
    let wanted = ty(&mut context.cx, TyKind::Slice(truth))?;
    let free = context.resolve(slice)?;
    context.bind(truth)?;
    let bound = context.resolve(slice)?;
    Ok(free == slice && bound == wanted)
}

#[test]
fn variables_are_resolved(rt: HostRuntime) {
    match Context::new(rt.alloc()) {
        Ok(mut context) => {
            let outcome = variables_are_resolved_holds(&mut context);
            drop(context);
            holds(&rt, outcome);
        }
        Err(e) => holds(&rt, Err(e)),
    }
}
