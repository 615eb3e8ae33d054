//! Why nothing is read.

ghost use Rattle.std.specs.Prelude.{◌≡◌};
ghost use Rattle.line_forms.specs.declared.read_error.ReadError.TheVariants.{Memory};

use std::alloc::{AllocError, AllocFailed};

/// Why a part of a line isn't read.
#[derive(Clone, Copy, PartialEq, Eq)]
pub enum ReadError {
    /// What stands there isn't of the form.
    Malformed,
    /// An expression that stands there is deeper than `MAX_DEPTH`, and nothing before it is malformed.
    TooDeep,
    Memory,
}

impl From<AllocError> for ReadError {
    ghost from_gives = { λ _ e. e ≡ Memory };

    fn from(_error: AllocError) -> ReadError {
        ReadError::Memory
    }
}

impl<T: Drop> From<AllocFailed<T>> for ReadError {
    ghost from_gives = { λ _ e. e ≡ Memory };

    fn from(_error: AllocFailed<T>) -> ReadError {
        ReadError::Memory
    }
}
