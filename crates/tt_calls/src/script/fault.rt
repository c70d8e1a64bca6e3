//! Why a script did not run to its end.

use std::alloc::AllocError;
use thiserror::Error;

/// Why a script did not run to its end.
#[derive(Clone, Copy, Debug, PartialEq, Eq, Drop, Error)]
pub enum Fault {
    /// A read failed, or 4294967295 reads did not reach the end of the input. Nothing was written.
    #[error("the input could not be read to its end: nothing was written")]
    Input,
    /// A write failed. It is unspecified how much was written.
    #[error("the output could not be written: how much went out is not known")]
    Output,
    /// Memory was refused outside of the calls. Only the line `run refused Memory` was written.
    #[error("memory was refused outside of the calls: only `run refused Memory` was written")]
    Memory,
}

impl From<AllocError> for Fault {
    fn from(_: AllocError) -> Fault {
        Fault::Memory
    }
}
