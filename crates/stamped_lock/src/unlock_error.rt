//! Why a release was not made.
ghost use Rattle.std.specs.Prelude.{◌≡◌};
ghost use Rattle.stamped_lock.specs.declared.unlock_error.UnlockError.TheVariants as variant;

use crate::mismatch::Mismatch;
use stamp_threads::Lost;
use std::error::Error;
use std::fmt;

/// Why a release that is tried once was not made. The lock is as it was.
#[derive(Clone, Copy, PartialEq, Eq, Debug, Drop)]
pub enum UnlockError {
    /// 1: the stamp matches no held mode that the call releases.
    Mismatch,
    /// 2: its exchange lost, as `Lost` says. The call can be made again.
    Lost(Lost),
}

impl fmt::Display for UnlockError {
    fn fmt<W: fmt::Write>(&self, f: &mut fmt::Formatter<W>) -> fmt::Result {
        match self {
            UnlockError::Mismatch => write!(
                f,
                "the stamp matches no held mode that the call releases"
            ),
            UnlockError::Lost(_) => write!(f, "another thread changed the lock: try again"),
        }
    }
}

impl Error for UnlockError {}

impl From<Mismatch> for UnlockError {
    ghost from_gives = { λ _ e. e ≡ variant.Mismatch };

    fn from(_mismatch: Mismatch) -> UnlockError {
        UnlockError::Mismatch
    }
}

impl From<Lost> for UnlockError {
    ghost from_gives = { λ lost e. e ≡ variant.Lost lost };

    fn from(lost: Lost) -> UnlockError {
        UnlockError::Lost(lost)
    }
}
