//! The parts of constants and patterns.

ghost use Rattle.std.specs.Prelude.{◌≡◌};
ghost use Rattle.tt_kinds.specs.Parts.{AreLike};
ghost use Rattle.tt_kinds.specs.Kinds.{
  form_binder,
  form_parts,
  refilled,
  const_form,
  value_form,
  pattern_form,
  replenished,
};

use crate::const_kind::{ConstKind, ExprConst, UnevaluatedConst, ValTreeKind, ValueConst};
use crate::handle::BoundVarKinds;
use crate::parts::Parts;
use crate::pattern::PatternKind;

impl ConstKind {
    /// Returns `None`: no constant has a binder around its parts.
    pub fn bound_vars(&self) -> Option<BoundVarKinds>
        ensures { result ≡ form_binder (const_form self.now) }
    {
        match self {
            ConstKind::Value(value) => value.bound_vars(),
            _ => None,
        }
    }

    /// Returns the children in order.
    pub fn parts(&self) -> Parts
        ensures { result ≡ form_parts (const_form self.now) }
    {
        match self {
            ConstKind::Unevaluated(unevaluated) => Parts::one(unevaluated.args.child()),
            ConstKind::Value(value) => value.parts(),
            ConstKind::Expr(expression) => Parts::one(expression.args.child()),
            ConstKind::Param(_)
            | ConstKind::Infer(_)
            | ConstKind::Bound(_, _)
            | ConstKind::Placeholder(_)
            | ConstKind::Error(_) => Parts::none(),
        }
    }

    /// Returns the same kind with other children in the places of its own. They have to be of the same sorts;
    /// [`Parts::are_like`] tests it.
    pub fn with_parts(&self, new: Parts) -> ConstKind
        requires { AreLike (form_parts (const_form self.now)) new }
        ensures { const_form result ≡ refilled new (const_form self.now) }
    {
        match self {
            ConstKind::Unevaluated(unevaluated) => ConstKind::Unevaluated(UnevaluatedConst {
                def: unevaluated.def,
                args: new.first.handle(),
            }),
            ConstKind::Value(value) => ConstKind::Value(value.with_parts(new)),
            ConstKind::Expr(expression) => ConstKind::Expr(ExprConst {
                tag: expression.tag,
                args: new.first.handle(),
            }),
            _ => *self,
        }
    }
}

impl ValueConst {
    // Returns `None`: no value has a binder around its parts.
    fn bound_vars(&self) -> Option<BoundVarKinds>
        ensures { result ≡ form_binder (value_form self.now.ty self.now.valtree.kind) }
    {
        match self.valtree.kind() {
            ValTreeKind::Leaf(_) | ValTreeKind::Branch(_) => None,
        }
    }

    /// Returns the children in order: the value's type, and the values inside a branch.
    pub fn parts(&self) -> Parts
        ensures { result ≡ form_parts (value_form self.now.ty self.now.valtree.kind) }
    {
        match self.valtree.kind() {
            ValTreeKind::Leaf(_) => Parts::one(self.ty.child()),
            ValTreeKind::Branch(consts) => Parts::two(self.ty.child(), consts.child()),
        }
    }

    /// Returns the same value with other children in the places of its own. They have to be of the same sorts;
    /// [`Parts::are_like`] tests it.
    pub fn with_parts(&self, new: Parts) -> ValueConst
        requires { AreLike (form_parts (value_form self.now.ty self.now.valtree.kind)) new }
        ensures { value_form result.ty result.valtree.kind
            ≡ refilled new (value_form self.now.ty self.now.valtree.kind) }
    {
        match self.valtree.kind() {
            ValTreeKind::Leaf(leaf) => ValueConst {
                ty: new.first.handle(),
                valtree: ValTreeKind::Leaf(leaf).into(),
            },
            ValTreeKind::Branch(_) => ValueConst {
                ty: new.first.handle(),
                valtree: ValTreeKind::Branch(new.second.handle()).into(),
            },
        }
    }
}

impl PatternKind {
    /// Returns the children in order.
    pub fn parts(&self) -> Parts
        ensures { result ≡ (pattern_form self.now).parts }
    {
        match self {
            PatternKind::Range { start, end } => Parts::two(start.child(), end.child()),
            PatternKind::Or(pats) => Parts::one(pats.child()),
            PatternKind::NotNull => Parts::none(),
        }
    }

    /// Returns the same kind with other children in the places of its own. They have to be of the same sorts;
    /// [`Parts::are_like`] tests it.
    pub fn with_parts(&self, new: Parts) -> PatternKind
        requires { AreLike (pattern_form self.now).parts new }
        ensures { pattern_form result ≡ replenished new (pattern_form self.now) }
    {
        match self {
            PatternKind::Range { .. } => PatternKind::Range {
                start: new.first.handle(),
                end: new.second.handle(),
            },
            PatternKind::Or(_) => PatternKind::Or(new.first.handle()),
            PatternKind::NotNull => PatternKind::NotNull,
        }
    }
}
