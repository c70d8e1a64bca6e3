//! Binders: values together with the variables that they bind.

ghost use Rattle.std.specs.Fn.{FnOnceReturnsAt, FnOnceTakesAt};
ghost use Rattle.std.specs.Prelude.{◌≡◌, MatchOption, MatchResult};

use crate::handle::BoundVarKinds;
use std::ops::AsDeref;

/// A value under a binder, whose variables have the index 0 directly inside of it.
///
/// Binding checks nothing: the caller ensures that the value's variables match the list.
#[derive(Clone, Copy, Debug, PartialEq, Eq, Hash)]
pub struct Binder<T> {
    value: T,
    bound_vars: BoundVarKinds,
}

impl<T> Binder<T> {
    /// Returns the value under a binder of these variables.
    pub fn bind_with_vars(value: T, bound_vars: BoundVarKinds) -> Binder<T>
        ensures { result ≡ record { value = value; bound_vars = bound_vars } }
    {
        Binder { value, bound_vars }
    }

    /// Returns the value without its binder. Its variables of index 0 belong to the binder, and have no meaning outside
    /// of it.
    pub fn skip_binder(self) -> T
        ensures { result ≡ self.value }
    {
        let Binder { value, .. } = self;
        value
    }

    /// Returns a reference to the value, under the same binder.
    pub fn as_ref(&self) -> Binder<&T>
        ensures value { result.value.now ≡ self.now.value }
        ensures bound_vars { result.bound_vars ≡ self.now.bound_vars }
    {
        Binder::bind_with_vars(&self.value, self.bound_vars)
    }

    /// Returns a reference to what the value dereferences to, under the same binder: for a vector its slice, for a
    /// `String` its text.
    pub fn as_deref<'a>(&'a self) -> Binder<T::Shown>
    where
        T: AsDeref<'a>,
        ensures value { T.as_deref_gives self.now.value result.value }
        ensures bound_vars { result.bound_vars ≡ self.now.bound_vars }
    {
        Binder::bind_with_vars(self.value.shown(), self.bound_vars)
    }

    /// Returns the variables that the binder binds.
    pub fn bound_vars(&self) -> BoundVarKinds
        ensures { result ≡ self.now.bound_vars }
    {
        self.bound_vars
    }

    /// Returns what `f` returns for the value, under the same binder.
    pub fn map_bound<F: FnOnce(T) -> U, U>(self, f: F) -> Binder<U>
        requires { F.pre f self.value }
        ensures value { F.post f self.value result.value }
        ensures bound_vars { result.bound_vars ≡ self.bound_vars }
    {
        let Binder { value, bound_vars } = self;
        Binder::bind_with_vars(f(value), bound_vars)
    }

    /// Returns what `f` returns for a reference to the value, under the same binder.
    pub fn map_bound_ref<F: FnOnce(&T) -> U, U>(&self, f: F) -> Binder<U>
        requires { FnOnceTakesAt F.FnOnce f self.now.value }
        ensures value { FnOnceReturnsAt F.FnOnce f self.now.value result.value }
        ensures bound_vars { result.bound_vars ≡ self.now.bound_vars }
    {
        self.as_ref().map_bound(f)
    }

    /// Returns what `f` returns for the value, under the same binder.
    ///
    /// # Errors
    ///
    /// Returns the error that `f` returns.
    pub fn try_map_bound<F: FnOnce(T) -> Result<U, E>, U, E>(self, f: F) -> Result<Binder<U>, E>
        requires { F.pre f self.value }
        ensures { MatchResult
            result
            (λ mapped. F.post f self.value (Ok mapped.value) × (mapped.bound_vars ≡ self.bound_vars))
            (λ error. F.post f self.value (Err error)) }
    {
        let Binder { value, bound_vars } = self;
        let mapped = f(value)?;
        Ok(Binder::bind_with_vars(mapped, bound_vars))
    }

    /// Returns another value under the same binder. The new value may leave variables of the binder unused, but should
    /// use no others.
    pub fn rebind<U>(&self, value: U) -> Binder<U>
        ensures { result ≡ record { value = value; bound_vars = self.now.bound_vars } }
    {
        Binder::bind_with_vars(value, self.bound_vars)
    }
}

impl<T> Binder<Option<T>> {
    /// Returns the value under the same binder, or `None` if there is no value.
    pub fn transpose(self) -> Option<Binder<T>>
        ensures { MatchOption
            self.value
            (result ≡ None)
            (λ value. result ≡ Some (record { value = value; bound_vars = self.bound_vars })) }
    {
        let Binder { value, bound_vars } = self;
        Some(Binder::bind_with_vars(value?, bound_vars))
    }
}

/// A value from an item's declaration, with the item's generic parameters. They have to be replaced by arguments before
/// the value is used elsewhere.
#[derive(Clone, Copy, Debug, PartialEq, Eq, PartialOrd, Ord, Hash)]
pub struct EarlyBinder<T> {
    value: T,
}

impl<T> EarlyBinder<T> {
    /// Returns the value, with its parameters still to be replaced.
    pub fn bind(value: T) -> EarlyBinder<T>
        ensures { result ≡ record { value = value } }
    {
        EarlyBinder { value }
    }

    /// Returns the value as it is declared.
    pub fn skip_binder(self) -> T
        ensures { result ≡ self.value }
    {
        let EarlyBinder { value } = self;
        value
    }

    /// Returns a reference to the value, with its parameters still to be replaced.
    pub fn as_ref(&self) -> EarlyBinder<&T>
        ensures { result.value.now ≡ self.now.value }
    {
        EarlyBinder::bind(&self.value)
    }

    /// Returns what `f` returns for the value, with its parameters still to be replaced.
    pub fn map_bound<F: FnOnce(T) -> U, U>(self, f: F) -> EarlyBinder<U>
        requires { F.pre f self.value }
        ensures { F.post f self.value result.value }
    {
        let EarlyBinder { value } = self;
        EarlyBinder::bind(f(value))
    }

    /// Returns what `f` returns for a reference to the value, with its parameters still to be replaced.
    pub fn map_bound_ref<F: FnOnce(&T) -> U, U>(&self, f: F) -> EarlyBinder<U>
        requires { FnOnceTakesAt F.FnOnce f self.now.value }
        ensures { FnOnceReturnsAt F.FnOnce f self.now.value result.value }
    {
        let lent = self.as_ref();
        lent.map_bound(f)
    }

    /// Returns what `f` returns for the value, with its parameters still to be replaced.
    ///
    /// # Errors
    ///
    /// Returns the error that `f` returns.
    pub fn try_map_bound<F: FnOnce(T) -> Result<U, E>, U, E>(
        self,
        f: F,
    ) -> Result<EarlyBinder<U>, E>
        requires { F.pre f self.value }
        ensures { MatchResult
            result
            (λ mapped. F.post f self.value (Ok mapped.value))
            (λ error. F.post f self.value (Err error)) }
    {
        let EarlyBinder { value } = self;
        let mapped = f(value)?;
        Ok(EarlyBinder::bind(mapped))
    }

    /// Returns another value of the same declaration, with its parameters still to be replaced.
    pub fn rebind<U>(&self, value: U) -> EarlyBinder<U>
        ensures { result ≡ record { value = value } }
    {
        EarlyBinder::bind(value)
    }

    /// Returns the value with each parameter replaced by itself, which is the value as it is declared.
    ///
    /// Inside of the item, each of its parameters means itself.
    pub fn instantiate_identity(self) -> Unnormalized<T>
        ensures { result ≡ record { value = self.value } }
    {
        Unnormalized::new(self.skip_binder())
    }
}

impl<T> EarlyBinder<Option<T>> {
    /// Returns the value with its parameters still to be replaced, or `None` if there is no value.
    pub fn transpose(self) -> Option<EarlyBinder<T>>
        ensures { MatchOption self.value (result ≡ None) (λ value. result ≡ Some (record { value = value })) }
    {
        let EarlyBinder { value } = self;
        Some(EarlyBinder::bind(value?))
    }
}

/// A value that may hold aliases that are not normalized yet.
#[derive(Clone, Copy, Debug, PartialEq, Eq, Hash)]
pub struct Unnormalized<T> {
    value: T,
}

impl<T> Unnormalized<T> {
    /// Returns the value, marked as not normalized.
    pub fn new(value: T) -> Unnormalized<T>
        ensures { result ≡ record { value = value } }
    {
        Unnormalized { value }
    }

    /// Returns the value without normalizing it.
    pub fn skip_norm_wip(self) -> T
        ensures { result ≡ self.value }
    {
        let Unnormalized { value } = self;
        value
    }
}
