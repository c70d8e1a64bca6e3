//! Signatures, their parts and their views, with and without a binder.

use type_terms::{
    Binder, BoundVarKinds, ExternAbi, FnHeader, FnInputTys, FnSig, FnSigKind, FnSigTys,
    GenericArgs, GenericArgsSlice, Safety, Ty, Tys, UnsafeBinderInner,
};

// Each part of a signature is read back, and changed.
fn parts_are_changed() -> bool {
    let abi = ExternAbi::C { unwind: true };
    let plain = FnSigKind::new(abi, Safety::Unsafe, true);
    if !FnSigKind::fits_splat(Some(3)) || FnSigKind::fits_splat(Some(65535)) {
        return false;
    }
    let changed = plain
        .set_splat(Some(3))
        .set_abi(ExternAbi::Rust)
        .set_safety(Safety::Safe)
        .set_c_variadic(false);
    plain.abi() == abi
        && plain.safety() == Safety::Unsafe
        && !plain.is_safe()
        && plain.c_variadic()
        && plain.splat() == None
        && changed.abi() == ExternAbi::Rust
        && changed.safety() == Safety::Safe
        && changed.is_safe()
        && !changed.c_variadic()
        && changed.splat() == Some(3)
}

// The parts are the same in a header, in a signature, and under a binder.
fn signatures_have_parts() -> bool {
    let (abi, splat) = (ExternAbi::System { unwind: false }, Some(3));
    if !FnSigKind::fits_splat(splat) {
        return false;
    }
    let fn_sig_kind = FnSigKind::new(abi, Safety::Safe, true).set_splat(splat);
    let header = FnHeader { fn_sig_kind };
    let sig = FnSig {
        inputs_and_output: Tys::from_number(5),
        fn_sig_kind,
    };
    let bound = Binder::bind_with_vars(sig, BoundVarKinds::from_number(2));
    header.abi() == abi
        && header.safety() == Safety::Safe
        && header.c_variadic()
        && header.splat() == splat
        && sig.abi() == abi
        && sig.safety() == Safety::Safe
        && sig.c_variadic()
        && sig.splat() == splat
        && bound.abi() == abi
        && bound.safety() == Safety::Safe
        && bound.c_variadic()
        && bound.splat() == splat
        && bound.fn_sig_kind() == fn_sig_kind
}

// The types of a signature stay under its binder.
fn signatures_have_types() -> bool {
    let (inputs_and_output, vars) = (Tys::from_number(5), BoundVarKinds::from_number(2));
    let inputs = FnInputTys::from_parts(inputs_and_output);
    let sig = FnSig {
        inputs_and_output,
        ..FnSig::dummy()
    };
    let types = FnSigTys { inputs_and_output };
    let (bound, bound_types) = (
        Binder::bind_with_vars(sig, vars),
        Binder::bind_with_vars(types, vars),
    );
    let (wanted, list) = (
        Binder::bind_with_vars(inputs, vars),
        Binder::bind_with_vars(inputs_and_output, vars),
    );
    inputs.inputs_and_output() == inputs_and_output
        && sig.inputs() == inputs
        && types.inputs() == inputs
        && bound.inputs() == wanted
        && bound.inputs_and_output() == list
        && bound_types.inputs() == wanted
        && bound_types.inputs_and_output() == list
}

// A view of a list knows the list and its places.
fn views_are_read() -> bool {
    let args = GenericArgs::from_number(6);
    let view = GenericArgsSlice::from_parts(args, 2, 3);
    view.args() == args
        && view.start() == 2
        && view.count() == 3
        && GenericArgsSlice::from_parts(args, 2, 0).count() == 0
}

// Another type under the binder of an unsafe binder's type.
fn unsafe_binders_are_read() -> bool {
    let (ty, other) = (Ty::from_number(3), Ty::from_number(4));
    let vars = BoundVarKinds::from_number(2);
    let inner = UnsafeBinderInner::from(Binder::bind_with_vars(ty, vars));
    inner.skip_binder() == ty
        && inner.bound_vars() == vars
        && Binder::from(inner.with_ty(other)) == Binder::bind_with_vars(other, vars)
}

// Signatures, their parts and views, and unsafe binders, by each call on them.
#[test]
fn calls_on_signatures(rt: HostRuntime) {
    assert!(rt;
        parts_are_changed()
            && signatures_have_parts()
            && signatures_have_types()
            && views_are_read()
            && unsafe_binders_are_read()
    );
}
