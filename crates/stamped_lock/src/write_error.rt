//! Why a section in write mode has no answer.
ghost use Rattle.std.specs.Prelude.{◌≡◌};
ghost use Rattle.stamped_lock.specs.declared.write_error.WriteError.TheVariants as variant;

use crate::mismatch::Mismatch;
use std::error::Error;
use std::fmt;

/// Why a section in write mode has no answer.
#[derive(Clone, Copy, PartialEq, Eq, Debug, Drop)]
pub enum WriteError {
    /// 1: no version is left, and write mode can't be acquired any more. The closure has not run.
    Spent,
    /// 2: the closure ran, but before its end another thread had released the lock. Its answer is
    /// dropped, and what it did stands.
    Mismatch,
}

impl fmt::Display for WriteError {
    fn fmt<W: fmt::Write>(&self, f: &mut fmt::Formatter<W>) -> fmt::Result {
        match self {
            WriteError::Spent => write!(f, "the lock has no version left to write"),
            WriteError::Mismatch => write!(f, "the lock was released before its section ended"),
        }
    }
}

impl Error for WriteError {}

impl From<Mismatch> for WriteError {
    ghost from_gives = { λ _ e. e ≡ variant.Mismatch };

    fn from(_mismatch: Mismatch) -> WriteError {
        WriteError::Mismatch
    }
}
