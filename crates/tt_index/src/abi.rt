//! Calling conventions.

ghost use Rattle.std.specs.Prelude.{◌≡◌, ◌≤◌};
ghost use Rattle.tt_index.specs.Abi.{abi_number, abi_of};

/// The calling convention of a function, as `extern "C"` names it.
#[derive(Clone, Copy, Debug, PartialEq, Eq, PartialOrd, Ord, Hash)]
pub enum ExternAbi {
    /// Rust's own convention.
    Rust,
    /// The platform's C convention.
    C {
        /// Whether a panic may unwind out of the call: `extern "C-unwind"`.
        unwind: bool,
    },
    /// The convention of the operating system's functions.
    System {
        /// Whether a panic may unwind out of the call: `extern "system-unwind"`.
        unwind: bool,
    },
    /// Rust's own convention with the arguments in a tuple, as the closure traits pass them.
    RustCall,
    /// The convention of intrinsics without the platform's adjustments.
    Unadjusted,
}

impl ExternAbi {
    /// Returns the convention's number, from 0 to 6 in the order of the variants, with `unwind` false before true.
    pub fn as_packed(self) -> u8
        ensures number { result ≡ abi_number self }
        ensures within { result ≤ 6 }
        ensures back { abi_of result ≡ self }
    {
        match self {
            ExternAbi::Rust => 0,
            ExternAbi::C { unwind: false } => 1,
            ExternAbi::C { unwind: true } => 2,
            ExternAbi::System { unwind: false } => 3,
            ExternAbi::System { unwind: true } => 4,
            ExternAbi::RustCall => 5,
            ExternAbi::Unadjusted => 6,
        }
    }

    /// Returns the convention that has this number. The number has to be at most 6; a comparison tests it.
    pub fn from_packed(packed: u8) -> ExternAbi
        requires { packed ≤ 6 }
        ensures abi { result ≡ abi_of packed }
        ensures back { abi_number result ≡ packed }
    {
        match packed {
            0 => ExternAbi::Rust,
            1 => ExternAbi::C { unwind: false },
            2 => ExternAbi::C { unwind: true },
            3 => ExternAbi::System { unwind: false },
            4 => ExternAbi::System { unwind: true },
            5 => ExternAbi::RustCall,
            6 => ExternAbi::Unadjusted,
            _ => unreachable!(),
        }
    }
}
