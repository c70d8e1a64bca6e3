//! A visitor of types that asks a question.

ghost use Rattle.tt_kinds.specs.Kinds.{ty_shape};

use crate::terms::NOT_OWNED;
use std::ops::ControlFlow;
use type_terms::{Interner, Next, Owned, Refusal, Ty, TypeInspector, inspect_types};

// Breaks at the type.
#[derive(Drop)]
pub struct Occurrence(Ty);

impl TypeInspector for Occurrence {
    type Break = ();

    ghost shape = { λ s. ty_shape s.0 };

    fn inspect_ty(&mut self, _cx: &Interner, ty: Ty) -> ControlFlow<(), Next> {
        if ty == self.0 {
            return ControlFlow::Break(());
        }
        ControlFlow::Continue(Next::Descend)
    }
}

// Returns whether the type occurs in the value.
pub fn occurs<T: Owned>(cx: &Interner, value: &T, ty: Ty) -> Result<bool, Refusal> {
    if value.is_owned(cx) && ty.is_owned(cx) {
        Ok(inspect_types(cx, value, &mut Occurrence(ty)).is_break())
    } else {
        Err(NOT_OWNED)
    }
}
