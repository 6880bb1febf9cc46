//! Why a script is refused.

use std::error::Error;
use std::fmt;

/// What is wrong with a script of calls and steps: the first that holds, in this order.
#[derive(Clone, Copy, Debug, PartialEq, Eq)]
pub enum ScriptError {
    /// 1: more than 64 threads.
    TooManyThreads,
    /// 2: a thread with more than 10,000 calls.
    TooManyCalls,
    /// 3: more than 1,000,000 steps.
    TooManySteps,
    /// 4: the position of the first step that is of no thread.
    NoSuchThread(u64),
    /// 5: a width above 16, words of another length than the width, or a call of the record where
    /// there is none.
    RecordWidth,
}

impl fmt::Display for ScriptError {
    fn fmt<W: fmt::Write>(&self, f: &mut fmt::Formatter<W>) -> fmt::Result {
        match self {
            ScriptError::TooManyThreads => write!(f, "more than 64 threads"),
            ScriptError::TooManyCalls => write!(f, "a thread of more than 10000 calls"),
            ScriptError::TooManySteps => write!(f, "more than 1000000 steps"),
            ScriptError::NoSuchThread(step) => write!(f, "no thread at step {step}"),
            ScriptError::RecordWidth => write!(f, "a call does not suit the width of the record"),
        }
    }
}

impl Error for ScriptError {}
