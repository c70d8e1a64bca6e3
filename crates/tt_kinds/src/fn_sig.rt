//! Signatures of functions.

ghost use Rattle.std.specs.Prelude.{◌≡◌, ◌↔◌, IsTrue, false, None};
ghost use Rattle.tt_kinds.specs.FnSig.{
  packed,
  abi_in,
  is_safe_in,
  safety_in,
  is_variadic_in,
  splat_in,
  FitsSplat,
  IsCompatible,
  plain_header,
  types_in,
  header_in,
  joined,
};
ghost use Rattle.tt_kinds.specs.Handle.{handle};

use crate::binder::Binder;
use crate::handle::{RegionAssumptions, Tys};
use crate::view::FnInputTys;
use tt_index::{ExternAbi, Safety};

/// The types of a signature: its inputs, then its output.
#[derive(Clone, Copy, Debug, PartialEq, Eq, Hash)]
pub struct FnSigTys {
    /// The types of the inputs in order, then the output's.
    pub inputs_and_output: Tys,
}

impl FnSigTys {
    /// Returns a view of the inputs. Reading the view requires that the list isn't empty.
    pub fn inputs(self) -> FnInputTys
        ensures { result ≡ record { inputs_and_output = self.inputs_and_output } }
    {
        FnInputTys::from_parts(self.inputs_and_output)
    }
}

/// The parts of a signature other than its types: its calling convention, whether it is safe, whether it is variadic,
/// and the index of the argument that is splatted, if there is one.
///
/// The first three are kept in one byte: bits 0 to 5 are the number of the convention, bit 6 is set for a safe
/// function, and bit 7 for a variadic one, which takes further arguments as C's `printf` does.
#[derive(Clone, Copy, Debug, PartialEq, Eq, Hash)]
pub struct FnSigKind {
    flags: u8,
    // the index of the splatted argument, or 65535 if there is none
    splat: u16,
}

impl FnSigKind {
    /// Returns the parts of an unsafe function of Rust's convention that is not variadic and splats no argument.
    pub fn default() -> FnSigKind
        ensures { result ≡ packed ExternAbi.Rust Safety.Unsafe false None }
    {
        FnSigKind::new(ExternAbi::Rust, Safety::Unsafe, false)
    }

    /// Returns these parts: the calling convention, whether the function is safe, and whether it is variadic. No
    /// argument is splatted.
    pub fn new(abi: ExternAbi, safety: Safety, c_variadic: bool) -> FnSigKind
        ensures { result ≡ packed abi safety c_variadic None }
    {
        FnSigKind::pack(abi, safety, c_variadic, None)
    }

    // Returns all four parts.
    fn pack(abi: ExternAbi, safety: Safety, c_variadic: bool, splat: Option<u16>) -> FnSigKind
        ensures { result ≡ packed abi safety c_variadic splat }
    {
        let safe = match safety {
            Safety::Safe => 64,
            Safety::Unsafe => 0,
        };
        let variadic = if c_variadic { 128 } else { 0 };
        FnSigKind {
            flags: abi.as_packed() + safe + variadic,
            splat: splat.unwrap_or(65535),
        }
    }

    /// Returns the calling convention.
    pub fn abi(self) -> ExternAbi
        ensures { result ≡ abi_in self }
    {
        let number = self.flags % 64;
        if number <= 6 {
            ExternAbi::from_packed(number)
        } else {
            ExternAbi::Unadjusted
        }
    }

    /// Returns whether the function is safe.
    pub fn is_safe(self) -> bool
        ensures { result ≡ is_safe_in self }
    {
        self.flags % 128 >= 64
    }

    /// Returns whether the function is safe, as a [`Safety`].
    pub fn safety(self) -> Safety
        ensures { result ≡ safety_in self }
    {
        if self.is_safe() {
            Safety::Safe
        } else {
            Safety::Unsafe
        }
    }

    /// Returns whether the function is variadic.
    pub fn c_variadic(self) -> bool
        ensures { result ≡ is_variadic_in self }
    {
        self.flags >= 128
    }

    /// Returns the index of the splatted argument, if there is one. The result meets the condition of
    /// [`FnSigKind::set_splat`].
    pub fn splat(self) -> Option<u16>
        ensures is { result ≡ splat_in self }
        ensures fits { FitsSplat result }
    {
        if self.splat == 65535 {
            None
        } else {
            Some(self.splat)
        }
    }

    /// Returns the same parts with another calling convention.
    pub fn set_abi(self, abi: ExternAbi) -> FnSigKind
        ensures { result ≡ packed abi (safety_in self) (is_variadic_in self) (splat_in self) }
    {
        FnSigKind::pack(abi, self.safety(), self.c_variadic(), self.splat())
    }

    /// Returns the same parts, safe or unsafe.
    pub fn set_safety(self, safety: Safety) -> FnSigKind
        ensures { result ≡ packed (abi_in self) safety (is_variadic_in self) (splat_in self) }
    {
        FnSigKind::pack(self.abi(), safety, self.c_variadic(), self.splat())
    }

    /// Returns the same parts, variadic or not.
    pub fn set_c_variadic(self, c_variadic: bool) -> FnSigKind
        ensures { result ≡ packed (abi_in self) (safety_in self) c_variadic (splat_in self) }
    {
        FnSigKind::pack(self.abi(), self.safety(), c_variadic, self.splat())
    }

    /// Returns whether this index of a splatted argument can be kept: whether it is `None` or at most 65534.
    pub fn fits_splat(index: Option<u16>) -> bool
        ensures { IsTrue result ↔ FitsSplat index }
    {
        match index {
            Some(index) => index < 65535,
            None => true,
        }
    }

    /// Returns the same parts with another splatted argument, or none. Its index has to be at most 65534;
    /// [`FnSigKind::fits_splat`] tests it. No call compares it with the number of inputs.
    pub fn set_splat(self, index: Option<u16>) -> FnSigKind
        requires { FitsSplat index }
        ensures { result ≡ packed (abi_in self) (safety_in self) (is_variadic_in self) index }
    {
        FnSigKind::pack(self.abi(), self.safety(), self.c_variadic(), index)
    }
}

/// The parts of a function pointer type other than its types.
#[derive(Clone, Copy, Debug, PartialEq, Eq, Hash)]
pub struct FnHeader {
    /// Its calling convention, whether it is safe and variadic, and its splatted argument.
    pub fn_sig_kind: FnSigKind,
}

impl FnHeader {
    /// Returns whether the function is variadic.
    pub fn c_variadic(self) -> bool
        ensures { result ≡ is_variadic_in self.fn_sig_kind }
    {
        self.fn_sig_kind.c_variadic()
    }

    /// Returns whether the function is safe.
    pub fn safety(self) -> Safety
        ensures { result ≡ safety_in self.fn_sig_kind }
    {
        self.fn_sig_kind.safety()
    }

    /// Returns the calling convention.
    pub fn abi(self) -> ExternAbi
        ensures { result ≡ abi_in self.fn_sig_kind }
    {
        self.fn_sig_kind.abi()
    }

    /// Returns the index of the splatted argument, if there is one.
    pub fn splat(self) -> Option<u16>
        ensures is { result ≡ splat_in self.fn_sig_kind }
        ensures fits { FitsSplat result }
    {
        self.fn_sig_kind.splat()
    }

    /// Returns the header of a safe function of Rust's convention that is not variadic and splats no argument.
    pub fn dummy() -> FnHeader
        ensures { result ≡ plain_header }
    {
        FnHeader {
            fn_sig_kind: FnSigKind::new(ExternAbi::Rust, Safety::Safe, false),
        }
    }
}

/// The signature of a function.
#[derive(Clone, Copy, Debug, PartialEq, Eq, Hash)]
pub struct FnSig {
    /// The types of the inputs in order, then the output's.
    pub inputs_and_output: Tys,
    /// Its calling convention, whether it is safe and variadic, and its splatted argument.
    pub fn_sig_kind: FnSigKind,
}

impl FnSig {
    /// Returns a view of the inputs. Reading the view requires that the list isn't empty.
    pub fn inputs(self) -> FnInputTys
        ensures { result ≡ record { inputs_and_output = self.inputs_and_output } }
    {
        let FnSig {
            inputs_and_output,
            ..
        } = self;
        FnInputTys::from_parts(inputs_and_output)
    }

    /// Returns whether the function is variadic.
    pub fn c_variadic(self) -> bool
        ensures { result ≡ is_variadic_in self.fn_sig_kind }
    {
        let FnSig { fn_sig_kind, .. } = self;
        fn_sig_kind.c_variadic()
    }

    /// Returns whether the function is safe.
    pub fn safety(self) -> Safety
        ensures { result ≡ safety_in self.fn_sig_kind }
    {
        let FnSig { fn_sig_kind, .. } = self;
        fn_sig_kind.safety()
    }

    /// Returns the calling convention.
    pub fn abi(self) -> ExternAbi
        ensures { result ≡ abi_in self.fn_sig_kind }
    {
        let FnSig { fn_sig_kind, .. } = self;
        fn_sig_kind.abi()
    }

    /// Returns the index of the splatted argument, if there is one.
    pub fn splat(self) -> Option<u16>
        ensures is { result ≡ splat_in self.fn_sig_kind }
        ensures fits { FitsSplat result }
    {
        let FnSig { fn_sig_kind, .. } = self;
        fn_sig_kind.splat()
    }

    /// Returns whether a function of this signature can be called as the closure traits call it: whether it is safe, of
    /// Rust's convention, and not variadic.
    pub fn is_fn_trait_compatible(self) -> bool
        ensures { IsTrue result ↔ IsCompatible self.fn_sig_kind }
    {
        if self.c_variadic() || !self.fn_sig_kind.is_safe() {
            return false;
        }
        self.abi() == ExternAbi::Rust
    }

    /// Returns the same signature, safe or unsafe. The splatted argument stays.
    pub fn set_safety(self, safety: Safety) -> FnSig
        ensures types { result.inputs_and_output ≡ self.inputs_and_output }
        ensures kind { result.fn_sig_kind ≡ packed (abi_in self.fn_sig_kind) safety
            (is_variadic_in self.fn_sig_kind) (splat_in self.fn_sig_kind) }
    {
        FnSig {
            inputs_and_output: self.inputs_and_output,
            fn_sig_kind: self.fn_sig_kind.set_safety(safety),
        }
    }

    /// Returns a signature with the empty list of types, and with the other parts of [`FnHeader::dummy`].
    pub fn dummy() -> FnSig
        ensures types { result.inputs_and_output ≡ handle 0 }
        ensures kind { result.fn_sig_kind ≡ plain_header.fn_sig_kind }
    {
        FnSig {
            inputs_and_output: Tys::default(),
            fn_sig_kind: FnHeader::dummy().fn_sig_kind,
        }
    }
}

impl Binder<FnSig> {
    /// Returns the inputs, under the same binder.
    pub fn inputs(self) -> Binder<FnInputTys>
        ensures value { result.value ≡ record { inputs_and_output = self.value.inputs_and_output } }
        ensures bound_vars { result.bound_vars ≡ self.bound_vars }
    {
        let sig = self.skip_binder();
        Binder::bind_with_vars(sig.inputs(), self.bound_vars())
    }

    /// Returns the types of the inputs in order, then the output's, under the same binder.
    pub fn inputs_and_output(self) -> Binder<Tys>
        ensures value { result.value ≡ self.value.inputs_and_output }
        ensures bound_vars { result.bound_vars ≡ self.bound_vars }
    {
        let sig = self.skip_binder();
        Binder::bind_with_vars(sig.inputs_and_output, self.bound_vars())
    }

    /// Returns the parts of the signature other than its types.
    pub fn fn_sig_kind(self) -> FnSigKind
        ensures { result ≡ self.value.fn_sig_kind }
    {
        self.skip_binder().fn_sig_kind
    }

    /// Returns whether the function is variadic.
    pub fn c_variadic(self) -> bool
        ensures { result ≡ is_variadic_in self.value.fn_sig_kind }
    {
        self.fn_sig_kind().c_variadic()
    }

    /// Returns whether the function is safe.
    pub fn safety(self) -> Safety
        ensures { result ≡ safety_in self.value.fn_sig_kind }
    {
        self.fn_sig_kind().safety()
    }

    /// Returns the calling convention.
    pub fn abi(self) -> ExternAbi
        ensures { result ≡ abi_in self.value.fn_sig_kind }
    {
        self.fn_sig_kind().abi()
    }

    /// Returns the index of the splatted argument, if there is one.
    pub fn splat(self) -> Option<u16>
        ensures is { result ≡ splat_in self.value.fn_sig_kind }
        ensures fits { FitsSplat result }
    {
        self.fn_sig_kind().splat()
    }

    /// Returns whether a function of this signature can be called as the closure traits call it, as
    /// [`FnSig::is_fn_trait_compatible`] does.
    pub fn is_fn_trait_compatible(&self) -> bool
        ensures { IsTrue result ↔ IsCompatible self.now.value.fn_sig_kind }
    {
        let sig = self.skip_binder();
        sig.is_fn_trait_compatible()
    }

    /// Returns the types of the signature under its binder, and its other parts, as a function pointer holds them.
    pub fn split(self) -> (Binder<FnSigTys>, FnHeader)
        ensures types { result.0 ≡ types_in self }
        ensures header { result.1 ≡ header_in self }
    {
        let FnSig {
            inputs_and_output,
            fn_sig_kind,
        } = self.skip_binder();
        let types = Binder::bind_with_vars(FnSigTys { inputs_and_output }, self.bound_vars());
        (types, FnHeader { fn_sig_kind })
    }
}

impl Binder<FnSigTys> {
    /// Returns the signature of these types and these other parts. This undoes [`Binder::split`].
    pub fn with(self, header: FnHeader) -> Binder<FnSig>
        ensures { result ≡ joined self header }
    {
        let FnSigTys { inputs_and_output } = self.skip_binder();
        let FnHeader { fn_sig_kind } = header;
        let sig = FnSig {
            inputs_and_output,
            fn_sig_kind,
        };
        Binder::bind_with_vars(sig, self.bound_vars())
    }

    /// Returns the inputs, under the same binder.
    pub fn inputs(self) -> Binder<FnInputTys>
        ensures value { result.value ≡ record { inputs_and_output = self.value.inputs_and_output } }
        ensures bound_vars { result.bound_vars ≡ self.bound_vars }
    {
        let types = self.skip_binder();
        Binder::bind_with_vars(types.inputs(), self.bound_vars())
    }

    /// Returns the types of the inputs in order, then the output's, under the same binder.
    pub fn inputs_and_output(self) -> Binder<Tys>
        ensures value { result.value ≡ self.value.inputs_and_output }
        ensures bound_vars { result.bound_vars ≡ self.bound_vars }
    {
        let types = self.skip_binder();
        Binder::bind_with_vars(types.inputs_and_output, self.bound_vars())
    }
}

/// The types that a coroutine keeps while it is suspended, and the assumptions on their regions.
#[derive(Clone, Copy, Debug, PartialEq, Eq, Hash)]
pub struct CoroutineWitnessTypes {
    /// The types of the values that it keeps.
    pub types: Tys,
    /// The assumptions on their regions.
    pub assumptions: RegionAssumptions,
}
