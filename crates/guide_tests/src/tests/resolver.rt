//! A user's resolver: inference variables are replaced by their bindings in a table.

ghost use Rattle.tt_kinds.specs.Kinds.{ty_shape};
ghost use Rattle.tt_kinds.specs.Values.{option_shape, sequence_shape};

use super::canonicalizer::variable;
use super::holds_within;
use test_terms::{NOT_OWNED, ty, tys};
use type_terms::{
    InferTy, InternedKind, Interner, Owned, Refusal, Step, Ty, TyKind, TypeFoldable, TypeReplacer,
    replace_types,
};

// Replaces an inference variable by its binding in the table, by the variable's number.
#[derive(Drop)]
pub struct Resolver {
    pub bindings: Vec<Option<Ty>>,
}

impl TypeReplacer for Resolver {
    type Error = Refusal;

    ghost shape = { λ s. sequence_shape (option_shape ty_shape) s.bindings.items };

    fn replace_ty(&mut self, cx: &mut Interner, ty: Ty) -> Result<Step<Ty>, Refusal> {
        let TyKind::Infer(InferTy::TyVar(vid)) = *ty.kind(cx) else {
            return Ok(Step::Descend);
        };
        match self.bindings.get(vid.as_usize()) {
            Some(Some(binding)) => Ok(Step::Replace(*binding)),
            _ => Ok(Step::Keep),
        }
    }
}

// Returns the value with its variables replaced by their bindings.
pub fn resolved<T: Owned + TypeFoldable>(
    cx: &mut Interner,
    value: T,
    folder: &mut Resolver,
) -> Result<T, Refusal> {
    if value.is_owned(cx) && folder.bindings.is_owned(cx) {
        replace_types(cx, value, folder)
    } else {
        Err(NOT_OWNED)
    }
}

// If a binding holds a variable, a second call resolves it. There is no room for a slice that isn't there yet; the resolver
// is used again, and has kept its bindings.
fn bindings_are_put_in_holds(cx: &mut Interner) -> Result<bool, Refusal> {
    let (zero, one, two) = (variable(cx, 0)?, variable(cx, 1)?, variable(cx, 2)?);
    let truth = ty(cx, TyKind::Bool)?;
    let slice = ty(cx, TyKind::Slice(one))?;
    let resolved_slice = ty(cx, TyKind::Slice(truth))?;
    let slice_of_zero = ty(cx, TyKind::Slice(zero))?;
    let value = tys(cx, &[zero, one, two])?;
    let once = tys(cx, &[slice, truth, two])?;
    let twice = tys(cx, &[resolved_slice, truth, two])?;
    let bindings = Vec::from_slice(cx.allocator(), &[Some(slice), Some(truth)])?;
    let mut folder = Resolver { bindings };
    Ok(
        resolved(cx, value, &mut folder) == Ok(once)
            && resolved(cx, slice_of_zero, &mut folder) == Err(Refusal::TableFull)
            && resolved(cx, once, &mut folder) == Ok(twice)
            && resolved(cx, twice, &mut folder) == Ok(twice),
    )
}

#[test]
fn bindings_are_put_in(rt: HostRuntime) {
    holds_within(&rt, rt.alloc(), 7, bindings_are_put_in_holds);
}
