//! The answer to the text of a replay, without its calls and replies as lists.

ghost use Rattle.std.specs.Prelude.{◌≡◌, ◌<◌, length, map, IfErr};
ghost use Rattle.stamp_core.specs.LockCall.{call_as};
ghost use Rattle.stamp_history.specs.ReplayAnswer.{AnswersReplayText};
ghost use Rattle.stamp_history.specs.inner.ReplayAnswer.{RepliesTo};

use crate::answer_error::AnswerError;
use crate::json_text::{push_comma, push_reply, push_text};
use crate::read_error::ReadError;
use crate::replay_reading::read_lock_calls;
use crate::replay_writing::push_word;
use stamp_core::{Limits, LockCall, Word, transition};
use std::alloc::Global;

/// Takes the calls one after the other, and appends the list of their replies.
fn push_replies_to(
    text: &mut Vec<u8>,
    limits: Limits,
    calls: &[LockCall],
) -> Result<Word, AnswerError>
    ensures { RepliesTo limits (map call_as calls.now) text.old.items text.new.items result }
{
    push_text(text, "[")?;
    let mut word = Word::opening_in(limits.layout());
    for (index, call) in calls.iter().enumerate() {
        let Some((next, reply)) = transition(limits, word, call.as_call()) else {
            return Err(AnswerError::Waits(index as u64));
        };
        push_comma(text, index)?;
        push_reply(text, &reply)?;
        word = next;
    }
    push_text(text, "]")?;
    Ok(word)
}

/// Answers the text of a replay by the compact text that `write_replay` writes. Errors: 1
/// `Refused`, with what `read_replay` refuses, or with `Memory`, which may come before any other; 2
/// `Waits`, with the first call, counted from 0, that would wait. Nothing is kept after either.
/// Unlike `read_replay`, `replay` and `write_replay` together it keeps no list of `Call` or of
/// `Reply`, each of which has room for the words of a record.
pub fn replay_text(alloc: Global, bytes: &[u8]) -> Result<Vec<u8>, AnswerError>
    ensures answers { AnswersReplayText bytes.now result }
    ensures memory { IfErr result (λ e. e ≡ AnswerError.Refused ReadError.Memory
        → 0 < length bytes.now) }
{
    let (limits, calls) = read_lock_calls(alloc, bytes)?;
    let mut text = Vec::new(alloc);
    push_text(&mut text, "{\"replies\":")?;
    let word = push_replies_to(&mut text, limits, &calls)?;
    push_word(&mut text, word.bits())?;
    Ok(text)
}
