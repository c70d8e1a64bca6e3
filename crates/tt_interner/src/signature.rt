//! Signatures: the types in a signature's list.

ghost use Rattle.std.specs.Prelude.{◌≡◌, ◌↔◌, IsTrue};
ghost use Rattle.tt_kinds.specs.Handle.{Ty};
ghost use Rattle.tt_kinds.specs.declared.view.FnInputTys.{FnInputTys};
ghost use Rattle.tt_interner.specs.Views.{AreInputs, HasInput, IsInput, IsOutput};

use crate::handle::InternedList;
use crate::interner::Interner;
use tt_kinds::{Binder, FnInputTys, FnSig, FnSigTys, Ty};

/// Signatures, with or without a binder. Their types are one stored list: the inputs in order, then the output.
pub trait SignatureTys: Sized {
    /// A type of the list, as the calls return it: under the signature's binder, if it has one.
    type Item;

    // The inputs, as a view of the list.
    ghost inputs_of: { Self → FnInputTys };
    // A type of the list, under the signature's binder, if it has one.
    ghost bound: { Self → Ty → Self.Item };

    /// Returns whether the list is of this interner and is not empty, so that it has an output.
    fn has_output(&self, cx: &Interner) -> bool
        ensures { IsTrue result ↔ AreInputs cx.now.rows (inputs_of self.now) };

    /// Returns the output. There has to be one; [`SignatureTys::has_output`] tests it.
    fn output(self, cx: &Interner) -> Self::Item
        requires { AreInputs cx.now.rows (inputs_of self) }
        ensures { (output : Ty) × IsOutput cx.now.rows (inputs_of self) output × (result ≡ bound self output) };

    /// Returns whether the list is of this interner and has an input at this index.
    fn has_input(&self, cx: &Interner, index: usize) -> bool
        ensures { IsTrue result ↔ HasInput cx.now.rows (inputs_of self.now) index };

    /// Returns the input at this index. There has to be one; [`SignatureTys::has_input`] tests it.
    fn input(self, cx: &Interner, index: usize) -> Self::Item
        requires { HasInput cx.now.rows (inputs_of self) index }
        ensures { (input : Ty) × IsInput cx.now.rows (inputs_of self) index input × (result ≡ bound self input) };
}

// Returns the last type of the view's list.
fn output_of(cx: &Interner, inputs: FnInputTys) -> Ty
    requires { AreInputs cx.now.rows inputs }
    ensures { IsOutput cx.now.rows inputs result }
{
    match inputs.inputs_and_output().as_slice(cx).last() {
        Some(ty) => *ty,
        None => unreachable!(),
    }
}

// Returns whether the view's list is of this interner and has a type at the index, which is not the last.
fn has_input_at(cx: &Interner, inputs: FnInputTys, index: usize) -> bool
    ensures { IsTrue result ↔ HasInput cx.now.rows inputs index }
{
    let list = inputs.inputs_and_output();
    if !cx.owns(list) {
        return false;
    }
    let count = list.as_slice(cx).len();
    index < count && index < count - 1
}

// Returns the type at this index of the view's list.
fn input_at(cx: &Interner, inputs: FnInputTys, index: usize) -> Ty
    requires { HasInput cx.now.rows inputs index }
    ensures { IsInput cx.now.rows inputs index result }
{
    match inputs.inputs_and_output().as_slice(cx).get(index) {
        Some(ty) => *ty,
        None => unreachable!(),
    }
}

impl SignatureTys for FnSigTys {
    type Item = Ty;

    ghost inputs_of = { λ types. record { inputs_and_output = types.inputs_and_output } };

    ghost bound = { λ types ty. ty };

    fn has_output(&self, cx: &Interner) -> bool {
        let types = *self;
        cx.owns_input_tys(types.inputs())
    }

    fn output(self, cx: &Interner) -> Ty {
        output_of(cx, self.inputs())
    }

    fn has_input(&self, cx: &Interner, index: usize) -> bool {
        let types = *self;
        has_input_at(cx, types.inputs(), index)
    }

    fn input(self, cx: &Interner, index: usize) -> Ty {
        input_at(cx, self.inputs(), index)
    }
}

impl SignatureTys for FnSig {
    type Item = Ty;

    ghost inputs_of = { λ sig. record { inputs_and_output = sig.inputs_and_output } };

    ghost bound = { λ sig ty. ty };

    fn has_output(&self, cx: &Interner) -> bool {
        let sig = *self;
        cx.owns_input_tys(sig.inputs())
    }

    fn output(self, cx: &Interner) -> Ty {
        let sig = self;
        output_of(cx, sig.inputs())
    }

    fn has_input(&self, cx: &Interner, index: usize) -> bool {
        let sig = *self;
        has_input_at(cx, sig.inputs(), index)
    }

    fn input(self, cx: &Interner, index: usize) -> Ty {
        let sig = self;
        input_at(cx, sig.inputs(), index)
    }
}

impl<T: SignatureTys> SignatureTys for Binder<T> {
    type Item = Binder<T::Item>;

    ghost inputs_of = { λ binder. T.inputs_of binder.value };

    ghost bound = { λ binder ty. record { value = T.bound binder.value ty; bound_vars = binder.bound_vars } };

    fn has_output(&self, cx: &Interner) -> bool {
        self.as_ref().skip_binder().has_output(cx)
    }

    fn output(self, cx: &Interner) -> Binder<T::Item> {
        let vars = self.bound_vars();
        Binder::bind_with_vars(self.skip_binder().output(cx), vars)
    }

    fn has_input(&self, cx: &Interner, index: usize) -> bool {
        self.as_ref().skip_binder().has_input(cx, index)
    }

    fn input(self, cx: &Interner, index: usize) -> Binder<T::Item> {
        let vars = self.bound_vars();
        Binder::bind_with_vars(self.skip_binder().input(cx, index), vars)
    }
}
