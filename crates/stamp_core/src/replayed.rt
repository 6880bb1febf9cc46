//! Calls taken one after the other, from the opening word.
ghost use Rattle.std.specs.Prelude.{◌≡◌, ◌<◌, IfErr, IsTrue, length};
ghost use Rattle.std.specs.List.{All};
ghost use Rattle.stamp_core.specs.Call.{is_lock_call};
ghost use Rattle.stamp_core.specs.Replayed.{Replays};

use crate::call::Call;
use crate::decision::transition;
use crate::limits::Limits;
use crate::reply::Reply;
use crate::word::Word;
use std::alloc::{AllocError, AllocFailed, Global};
use std::error::Error;
use std::fmt;

/// What calls were answered, and the word that they left.
#[derive(Drop)]
pub struct Replayed {
    /// One for each call.
    pub replies: Vec<Reply>,
    /// The word after the last call.
    pub word: Word,
}

/// Why calls were not replayed. Nothing is kept after either.
#[derive(Clone, Copy, Debug, PartialEq, Eq)]
pub enum ReplayError {
    /// 1: this call, counted from 0, would wait.
    Waits(u64),
    /// 2: an allocation was refused.
    Memory,
}

impl fmt::Display for ReplayError {
    fn fmt<W: fmt::Write>(&self, f: &mut fmt::Formatter<W>) -> fmt::Result {
        match self {
            ReplayError::Waits(call) => write!(f, "call {call} would wait"),
            ReplayError::Memory => write!(f, "out of memory"),
        }
    }
}

impl Error for ReplayError {}

impl From<AllocError> for ReplayError {
    ghost use Rattle.stamp_core.specs.declared.replayed.ReplayError.TheVariants.{Memory};

    ghost from_gives = { λ _ e. e ≡ Memory };

    fn from(_refused: AllocError) -> ReplayError {
        ReplayError::Memory
    }
}

impl<T: Drop> From<AllocFailed<T>> for ReplayError {
    ghost use Rattle.stamp_core.specs.declared.replayed.ReplayError.TheVariants.{Memory};

    ghost from_gives = { λ _ e. e ≡ Memory };

    fn from(_refused: AllocFailed<T>) -> ReplayError {
        ReplayError::Memory
    }
}

/// Takes calls of the lock one after the other, from the opening word. It refuses as 1 `Waits` or
/// 2 `Memory`, the second perhaps before the first, and keeps nothing then. An empty list takes no memory.
pub fn replay(alloc: Global, limits: Limits, calls: &[Call]) -> Result<Replayed, ReplayError>
    requires { All (λ call. IsTrue (is_lock_call call)) calls.now }
    ensures replays { Replays limits calls.now result }
    ensures memory { IfErr result (λ e. e ≡ ReplayError.Memory → 0 < length calls.now) }
{
    let mut word = Word::opening_in(limits.layout());
    let mut replies = Vec::new(alloc);
    for (i, call) in calls.iter().enumerate() {
        let Some((next, reply)) = transition(limits, word, *call) else {
            return Err(ReplayError::Waits(i as u64));
        };
        replies.push(reply)?;
        word = next;
    }
    Ok(Replayed { replies, word })
}
