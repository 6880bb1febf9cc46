//! Why the text of a replay was not answered.

ghost use Rattle.std.specs.Prelude.{◌≡◌};
ghost use Rattle.stamp_history.specs.declared.answer_error.AnswerError.TheVariants.{Refused};
ghost use Rattle.stamp_history.specs.declared.read_error.ReadError.TheVariants.{Memory};

use crate::read_error::ReadError;
use std::alloc::{AllocError, AllocFailed};
use std::error::Error;
use std::fmt;

/// Why the text of a replay was not answered. Nothing is kept after either.
#[derive(Clone, Copy, Debug, PartialEq, Eq)]
pub enum AnswerError {
    /// 1: the reading's refusal, `Memory` among them.
    Refused(ReadError),
    /// 2: this call, counted from 0, would wait.
    Waits(u64),
}

impl fmt::Display for AnswerError {
    fn fmt<W: fmt::Write>(&self, f: &mut fmt::Formatter<W>) -> fmt::Result {
        match self {
            AnswerError::Refused(refusal) => write!(f, "{refusal}"),
            AnswerError::Waits(call) => write!(f, "call {call} would wait"),
        }
    }
}

impl Error for AnswerError {}

impl From<ReadError> for AnswerError {
    ghost from_gives = { λ fault e. e ≡ Refused fault };

    fn from(fault: ReadError) -> AnswerError {
        AnswerError::Refused(fault)
    }
}

impl From<AllocError> for AnswerError {
    ghost from_gives = { λ _ e. e ≡ Refused Memory };

    fn from(_refused: AllocError) -> AnswerError {
        AnswerError::Refused(ReadError::Memory)
    }
}

impl<T: Drop> From<AllocFailed<T>> for AnswerError {
    ghost from_gives = { λ _ e. e ≡ Refused Memory };

    fn from(_refused: AllocFailed<T>) -> AnswerError {
        AnswerError::Refused(ReadError::Memory)
    }
}
