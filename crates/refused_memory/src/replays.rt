//! Replays: of calls, and of a text.
use crate::outcome::Outcome;
use stamp_core::{Call, Layout, Limits, ReplayError, replay};
use stamp_history::{read_replay, replay_text, write_replay};
use std::alloc::Global;

const TEXT: &[u8] = br#"{"calls":[["try_read"],["to_write",257]],"readers":1,"versions":1}"#;

const LINE: &[u8] = b"{\"replies\":[257,384],\"word\":384}";

/// Whether the calls of `TEXT`, taken one after the other, are replied as in `LINE`.
pub(crate) fn is_replayed(alloc: Global, limits: Limits) -> Result<bool, Outcome> {
    let done = replay(alloc, limits, &[Call::TryRead, Call::ToWrite(257)])?;
    let text = write_replay(alloc, &done)?;
    let is_done = done.word.bits() == 384 && done.replies.len() == 2;
    Ok(is_done && text.as_slice() == LINE)
}

/// Whether the text is read as it says, and answered.
pub(crate) fn is_answered(alloc: Global) -> Result<bool, Outcome> {
    let (limits, calls) = read_replay(alloc, TEXT)?;
    let text = replay_text(alloc, TEXT)?;
    let is_read = limits.layout() == Layout::One && calls.len() == 2;
    Ok(is_read && text.as_slice() == LINE)
}

/// The fourth call waits, after three replies.
pub(crate) fn replay_waits_outcome(alloc: Global, limits: Limits) -> Outcome {
    let calls = [
        Call::TryRead,
        Call::Validate(257),
        Call::ReadCount,
        Call::WriteLock,
    ];
    match replay(alloc, limits, &calls) {
        Err(ReplayError::Waits(3)) => Outcome::Right,
        Err(ReplayError::Memory) => Outcome::Refused,
        _ => Outcome::Wrong,
    }
}
