//! Binders that bind nothing.

ghost use Rattle.std.specs.Prelude.{None, Some, false, true, ◌<◌, ◌≡◌};
ghost use Rattle.tt_kinds.specs.Handle.{handle};
ghost use Rattle.tt_kinds.specs.Param.{holds_param};
ghost use Rattle.tt_kinds.specs.Reading.{outer_binder};
ghost use Rattle.tt_interner.specs.Owned.{IsPartBy, tree_by};

use crate::queries::TypeVisitableExt;
use crate::visitable::TypeVisitable;
use tt_interner::Interner;
use tt_kinds::{Binder, BoundVarKinds, EarlyBinder};

/// Calls on a value under a binder that look at the value's variables.
pub trait BinderExt<T: TypeVisitable>: Sized {
    // The value under the binder.
    ghost bound: { Self → T };

    // The value under a binder of no variables.
    ghost unbound: { T → Self };

    /// Returns the value under a binder of no variables. The value's handles have to be of this interner;
    /// `Owned::is_owned` tests it. No variable may escape the value, since the new binder
    /// would capture it; [`TypeVisitableExt::has_escaping_bound_vars`] tests it.
    fn dummy(cx: &Interner, value: T) -> Self
        requires value { IsPartBy T.shape cx.now.rows value }
        requires closed { outer_binder (tree_by T.shape cx.now.rows value) ≡ 0 }
        ensures { result ≡ unbound value };

    /// Returns the value without its binder, if no variable escapes it: none of this binder's, and none of a binder
    /// further out. The value's handles have to be of this interner; `Owned::is_owned` tests
    /// it.
    fn no_bound_vars(self, cx: &Interner) -> Option<T>
        requires { IsPartBy T.shape cx.now.rows (bound self) }
        ensures closed { outer_binder (tree_by T.shape cx.now.rows (bound self)) ≡ 0 → result ≡ Some (bound self) }
        ensures open { 0 < outer_binder (tree_by T.shape cx.now.rows (bound self)) → result ≡ None };
}

impl<T: TypeVisitable + Drop> BinderExt<T> for Binder<T> {
    ghost bound = { λ binder. binder.value };

    ghost unbound = { λ value. record { value = value; bound_vars = handle 0 } };

    fn dummy(_cx: &Interner, value: T) -> Binder<T> {
        Binder::bind_with_vars(value, BoundVarKinds::default())
    }

    fn no_bound_vars(self, cx: &Interner) -> Option<T> {
        if self.as_ref().skip_binder().has_escaping_bound_vars(cx) {
            None
        } else {
            Some(self.skip_binder())
        }
    }
}

/// Calls on a value in an item's declaration that look at the value's parameters.
pub trait EarlyBinderExt<T: TypeVisitable>: Sized {
    // The value in the declaration.
    ghost declared: { Self → T };

    /// Returns the value as it is declared, if no parameter occurs in it. The value's handles have to be of this
    /// interner; `Owned::is_owned` tests it.
    fn no_bound_vars(self, cx: &Interner) -> Option<T>
        requires { IsPartBy T.shape cx.now.rows (declared self) }
        ensures none { holds_param (tree_by T.shape cx.now.rows (declared self)) ≡ false → result ≡ Some (declared self) }
        ensures some { holds_param (tree_by T.shape cx.now.rows (declared self)) ≡ true → result ≡ None };
}

impl<T: TypeVisitable + Drop> EarlyBinderExt<T> for EarlyBinder<T> {
    ghost declared = { λ binder. binder.value };

    fn no_bound_vars(self, cx: &Interner) -> Option<T> {
        let value = self.skip_binder();
        if value.has_param(cx) {
            None
        } else {
            Some(value)
        }
    }
}
