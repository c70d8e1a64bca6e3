//! Why a source gives no program.

ghost use Rattle.std.specs.Prelude.{◌≡◌};

use crate::message::Message;
use std::alloc::{AllocError, AllocFailed};
use thiserror::Error;

/// Why a source gives no program.
#[derive(Debug, PartialEq, Eq, Drop, Error)]
pub enum SyntaxError {
    /// The source is wrong, as the message says.
    #[error("{0}")]
    Wrong(Message),
    /// The allocator refused memory.
    #[error("out of memory")]
    Memory,
}

impl From<AllocError> for SyntaxError {
    ghost use Rattle.checker_syntax.specs.declared.syntax_error.SyntaxError.TheVariants.{Memory};

    ghost from_gives = { λ _ error. error ≡ Memory };

    fn from(_: AllocError) -> SyntaxError {
        SyntaxError::Memory
    }
}

impl<T: Drop> From<AllocFailed<T>> for SyntaxError {
    ghost use Rattle.checker_syntax.specs.declared.syntax_error.SyntaxError.TheVariants.{Memory};

    ghost from_gives = { λ _ error. error ≡ Memory };

    fn from(_: AllocFailed<T>) -> SyntaxError {
        SyntaxError::Memory
    }
}
