//! Why a text could not be read or written.

ghost use Rattle.std.specs.Prelude.{◌≡◌};
ghost use Rattle.stamp_history.specs.declared.read_error.ReadError.TheVariants.{Memory};

use crate::field::Field;
use stamp_machines::ScriptError;
use std::alloc::{AllocError, AllocFailed};
use thiserror::Error;

/// What is wrong with a text: the first fault in the order of its fields. Nothing is kept after
/// any of these.
#[derive(Clone, Copy, Debug, PartialEq, Eq, Error)]
pub enum ReadError {
    /// 1: not UTF-8, or not one JSON value of a depth and of numbers that can be read.
    #[error("not json")]
    NotJson,
    /// 2: JSON that is no history, at this field.
    #[error("not a history: {0}")]
    NotHistory(Field),
    /// 3: a value of the right kind outside its range.
    #[error("over a limit: {0}")]
    Limit(Field),
    /// 4: an allocation was refused. It may come before each of the others.
    #[error("memory")]
    Memory,
    /// 5: JSON that is no replay or script, at this field. Its text says script of both.
    #[error("not a script: {0}")]
    NotScript(Field),
    /// 6: a script whose parts do not suit one another.
    #[error("script refused: {0:?}")]
    BadScript(ScriptError),
}

impl From<AllocError> for ReadError {
    ghost from_gives = { λ _ e. e ≡ Memory };

    fn from(_refused: AllocError) -> ReadError {
        ReadError::Memory
    }
}

impl<T: Drop> From<AllocFailed<T>> for ReadError {
    ghost from_gives = { λ _ e. e ≡ Memory };

    fn from(_refused: AllocFailed<T>) -> ReadError {
        ReadError::Memory
    }
}
