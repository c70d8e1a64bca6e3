//! The parts of signatures.

ghost use Rattle.std.specs.Prelude.{◌≡◌, ◌<◌};

use type_terms::{
    Binder, ExternAbi, FnSig, FnSigKind, Safety, packed_parts_are_read, split_signatures_are_joined,
};

/// Returns the signature, put together again from the parts that a function pointer holds.
pub fn rejoined(sig: Binder<FnSig>) -> Binder<FnSig>
    ensures { result ≡ sig }
{
    split_signatures_are_joined();
    let (types, header) = sig.split();
    types.with(header)
}

/// Returns the parts of a signature as they are read after they were packed into one value.
pub fn reread(abi: ExternAbi, safety: Safety, is_variadic: bool) -> (ExternAbi, Safety, bool)
    ensures abi { result.0 ≡ abi }
    ensures safety { result.1 ≡ safety }
    ensures is_variadic { result.2 ≡ is_variadic }
{
    packed_parts_are_read();
    let kind = FnSigKind::new(abi, safety, is_variadic);
    (kind.abi(), kind.safety(), kind.c_variadic())
}

/// Returns the index of the splatted argument as it is read after it was set, or `None` if it can't be kept.
pub fn resplatted(abi: ExternAbi, safety: Safety, index: u16) -> Option<u16>
    ensures { index < 65535 → result ≡ Some index }
{
    packed_parts_are_read();
    if !FnSigKind::fits_splat(Some(index)) {
        return None;
    }
    let kind = FnSigKind::new(abi, safety, false).set_splat(Some(index));
    kind.splat()
}
