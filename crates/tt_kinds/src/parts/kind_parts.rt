//! The parts of kinds of all tables.

ghost use Rattle.std.specs.Prelude.{◌≡◌};
ghost use Rattle.tt_kinds.specs.Parts.{AreLike};
ghost use Rattle.tt_kinds.specs.Kinds.{form_binder, form_parts, kind_form, kind_table, refilled};

use crate::binder::Binder;
use crate::handle::BoundVarKinds;
use crate::parts::{Kind, Parts};

impl Kind {
    /// Returns the variables of the binder around the parts, if there is one.
    #[inline(always)]
    pub fn bound_vars(&self) -> Option<BoundVarKinds>
        ensures { result ≡ form_binder (kind_form self.now) }
    {
        match self {
            Kind::Ty(kind) => kind.bound_vars(),
            Kind::Const(kind) => kind.bound_vars(),
            Kind::Pat(_) => None,
            Kind::Predicate(predicate) => Some(predicate.bound_vars()),
            Kind::Existential(predicate) => Some(predicate.bound_vars()),
        }
    }

    /// Returns the children in order.
    #[inline(always)]
    pub fn parts(&self) -> Parts
        ensures { result ≡ form_parts (kind_form self.now) }
    {
        match self {
            Kind::Ty(kind) => kind.parts(),
            Kind::Const(kind) => kind.parts(),
            Kind::Pat(kind) => kind.parts(),
            Kind::Predicate(predicate) => predicate.as_ref().skip_binder().parts(),
            Kind::Existential(predicate) => predicate.as_ref().skip_binder().parts(),
        }
    }

    /// Returns the same kind with other children in the places of its own. They have to be of the same sorts;
    /// [`Parts::are_like`] tests it.
    #[inline(always)]
    pub fn with_parts(&self, new: Parts) -> Kind
        requires { AreLike (form_parts (kind_form self.now)) new }
        ensures table { kind_table result ≡ kind_table self.now }
        ensures form { kind_form result ≡ refilled new (kind_form self.now) }
    {
        match self {
            Kind::Ty(kind) => Kind::Ty(kind.with_parts(new)),
            Kind::Const(kind) => Kind::Const(kind.with_parts(new)),
            Kind::Pat(kind) => Kind::Pat(kind.with_parts(new)),
            Kind::Predicate(predicate) => Kind::Predicate(Binder::bind_with_vars(
                predicate.skip_binder().with_parts(new),
                predicate.bound_vars(),
            )),
            Kind::Existential(predicate) => Kind::Existential(Binder::bind_with_vars(
                predicate.skip_binder().with_parts(new),
                predicate.bound_vars(),
            )),
        }
    }
}
