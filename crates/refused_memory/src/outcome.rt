//! How a call ended.
use stamp_core::ReplayError;
use stamp_history::{AnswerError, ReadError};
use stamp_machines::RunError;
use std::alloc::{AllocError, AllocFailed};

#[derive(Clone, Copy)]
pub(crate) enum Outcome {
    Right,
    Refused,
    Wrong,
}

impl Outcome {
    pub(crate) fn right_if(holds: bool) -> Outcome {
        if holds {
            Outcome::Right
        } else {
            Outcome::Wrong
        }
    }

    pub(crate) fn of(answer: Result<bool, Outcome>) -> Outcome {
        match answer {
            Ok(holds) => Outcome::right_if(holds),
            Err(outcome) => outcome,
        }
    }

    /// That of both: wrong where one is, or else refused where one is.
    pub(crate) fn and(self, other: Outcome) -> Outcome {
        match (self, other) {
            (Outcome::Wrong, _) | (_, Outcome::Wrong) => Outcome::Wrong,
            (Outcome::Refused, _) | (_, Outcome::Refused) => Outcome::Refused,
            _ => Outcome::Right,
        }
    }
}

impl From<AllocError> for Outcome {
    fn from(_refused: AllocError) -> Outcome {
        Outcome::Refused
    }
}

impl<T: Drop> From<AllocFailed<T>> for Outcome {
    fn from(_refused: AllocFailed<T>) -> Outcome {
        Outcome::Refused
    }
}

impl From<RunError> for Outcome {
    fn from(error: RunError) -> Outcome {
        match error {
            RunError::Memory => Outcome::Refused,
            RunError::TooManySteps => Outcome::Wrong,
        }
    }
}

impl From<ReplayError> for Outcome {
    fn from(error: ReplayError) -> Outcome {
        match error {
            ReplayError::Memory => Outcome::Refused,
            ReplayError::Waits(_) => Outcome::Wrong,
        }
    }
}

impl From<ReadError> for Outcome {
    fn from(error: ReadError) -> Outcome {
        match error {
            ReadError::Memory => Outcome::Refused,
            _ => Outcome::Wrong,
        }
    }
}

impl From<AnswerError> for Outcome {
    fn from(error: AnswerError) -> Outcome {
        match error {
            AnswerError::Refused(refusal) => Outcome::from(refusal),
            AnswerError::Waits(_) => Outcome::Wrong,
        }
    }
}
