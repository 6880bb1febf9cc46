//! A replay out of its text.

ghost use Rattle.std.specs.Prelude.{◌≡◌, ◌<◌, IsTrue, IfOk, IfErr, length, map};
ghost use Rattle.std.specs.List.{All};
ghost use Rattle.stamp_core.specs.Call.{is_lock_call};
ghost use Rattle.stamp_core.specs.LockCall.{call_as};
ghost use Rattle.stamp_history.specs.Gives.{Gives};
ghost use Rattle.stamp_history.specs.Replay.{replay_of, replay_view};
ghost use Rattle.stamp_history.specs.inner.Replay.{replay_as};

use crate::json_values::json;
use crate::limit_fields::read_limits;
use crate::read_error::ReadError;
use crate::replay_fields::{check_top, read_calls};
use crate::text_kind::TextKind;
use stamp_core::{Call, Limits, LockCall};
use std::alloc::{AllocError, Global};

/// The limits and the calls of a replay.
#[tactic(auto, unfolding(crate::specs::Replay::replay_of, crate::specs::Replay::replay_in))]
pub(crate) fn read_lock_calls(
    alloc: Global,
    bytes: &[u8],
) -> Result<(Limits, Vec<LockCall>), ReadError>
    ensures replay { Gives ReadError.Memory replay_as result (replay_of bytes.now) }
    ensures some { IfOk result (λ _. 0 < length bytes.now) }
    ensures memory { IfErr result (λ e. e ≡ ReadError.Memory → 0 < length bytes.now) }
{
    let value = json(alloc, bytes)?;
    check_top(&value)?;
    let limits = read_limits(TextKind::Replay, &value)?;
    let calls = read_calls(alloc, &value)?;
    Ok((limits, calls))
}

fn calls_of(alloc: Global, lock_calls: &[LockCall]) -> Result<Vec<Call>, AllocError>
    ensures calls { IfOk result (λ calls. calls.items ≡ map call_as lock_calls.now) }
    ensures lock_call { IfOk result (λ calls. All (λ call. IsTrue (is_lock_call call)) calls.items) }
{
    let mut calls = Vec::with_capacity(alloc, lock_calls.len())?;
    for call in lock_calls {
        calls.push(call.as_call())?;
    }
    Ok(calls)
}

/// Reads the limits and the calls of a replay from its text, or tells the first fault. That is in
/// the order of the fields: top, layout, readers, versions, calls, and each call. Of a field the
/// kind is tested before the range. Errors: 1 `NotJson`; 5 `NotScript`, with the field of another
/// kind; 3 `Limit`, with the field out of range; 4 `Memory`, which may come before these. Nothing
/// is kept after any.
pub fn read_replay(alloc: Global, bytes: &[u8]) -> Result<(Limits, Vec<Call>), ReadError>
    ensures replay { Gives ReadError.Memory replay_view result (replay_of bytes.now) }
    ensures lock_call { IfOk result (λ read. All (λ call. IsTrue (is_lock_call call)) read.1.items) }
    ensures memory { IfErr result (λ e. e ≡ ReadError.Memory → 0 < length bytes.now) }
{
    let (limits, lock_calls) = read_lock_calls(alloc, bytes)?;
    Ok((limits, calls_of(alloc, &lock_calls)?))
}
