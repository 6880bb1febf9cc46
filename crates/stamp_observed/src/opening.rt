//! The calls that bring a new lock, and a new record, to where a window begins.
ghost use Rattle.std.specs.Prelude.{IfOk, IsTrue};
ghost use Rattle.std.specs.List.{All};
ghost use Rattle.stamp_core.specs.Call.{is_lock_call};

use stamp_core::{Call, Entry, Limits, ReplayError, Replayed, Reply, Word, Words, replay};
use stamp_explain::{Observation, Returned};
use std::alloc::{AllocError, Global};

/// What lock and record are in.
#[derive(Clone, Copy)]
pub struct State {
    /// The lock's word.
    pub word: Word,
    /// The words that the record holds; none are those of a new record, all zeros.
    pub content: Option<Words>,
}

/// Those of the calls that are of the lock.
fn lock_calls(alloc: Global, calls: &[Call]) -> Result<Vec<Call>, AllocError>
    ensures { IfOk result (λ found. All (λ call. IsTrue (is_lock_call call)) found.items) }
{
    let mut found = Vec::new(alloc);
    for call in calls {
        if call.is_lock_call() {
            found.push(*call)?;
        }
    }
    Ok(found)
}

/// What the lock's calls are answered and leave, one after the other on a new lock; nothing where one waits.
fn replayed(alloc: Global, limits: Limits, calls: &[Call]) -> Result<Option<Replayed>, AllocError> {
    let calls = lock_calls(alloc, calls)?;
    match replay(alloc, limits, &calls) {
        Ok(replayed) => Ok(Some(replayed)),
        Err(ReplayError::Waits(_)) => Ok(None),
        Err(ReplayError::Memory) => Err(AllocError),
    }
}

/// The words that a call puts, if it does.
fn words_put(call: &Call, reply: &Reply) -> Option<Words> {
    match *call {
        Call::Put(words) => Some(words),
        Call::PutIf(_, words) if matches!(reply, Reply::Yes) => Some(words),
        _ => None,
    }
}

/// The words of the last put of an order.
fn content_after(order: &[Entry]) -> Option<Words> {
    for k in 0..order.len() {
        let entry = &order[order.len() - 1 - k];
        if let Some(words) = words_put(&entry.call, &entry.reply) {
            return Some(words);
        }
    }
    None
}

/// What lock and record are in after the calls of an order.
pub(crate) fn state_after(
    alloc: Global,
    limits: Limits,
    order: &[Entry],
) -> Result<Option<State>, AllocError> {
    let mut calls = Vec::with_capacity(alloc, order.len())?;
    for entry in order {
        calls.push(entry.call)?;
    }
    let Some(replayed) = replayed(alloc, limits, &calls)? else {
        return Ok(None);
    };
    Ok(Some(State {
        word: replayed.word,
        content: content_after(order),
    }))
}

/// Appends write acquisitions that are released at once.
fn push_writes(calls: &mut Vec<Call>, count: u64) -> Result<(), AllocError> {
    for _ in 0..count {
        calls.push(Call::TryWrite)?;
        calls.push(Call::TryUnlockWrite)?;
    }
    Ok(())
}

fn push_reads(calls: &mut Vec<Call>, count: u64) -> Result<(), AllocError> {
    for _ in 0..count {
        calls.push(Call::TryRead)?;
    }
    Ok(())
}

/// The calls that bring a new lock to this word, but for so many of its versions.
fn calls_to(alloc: Global, word: Word, versions: u64) -> Result<Vec<Call>, AllocError> {
    let mut calls = Vec::new(alloc);
    let writes = word.writes().saturating_sub(versions);
    if word.is_writing() {
        push_writes(&mut calls, writes.saturating_sub(1))?;
        calls.push(Call::TryWrite)?;
    } else {
        push_writes(&mut calls, writes)?;
        push_reads(&mut calls, word.readers())?;
    }
    Ok(calls)
}

/// Appends a call that is over before the next one begins.
fn push_over(opening: &mut Vec<Observation>, call: Call, reply: Reply) -> Result<(), AllocError> {
    let first = (opening.len() as u64).saturating_mul(2);
    opening.push(Observation {
        thread: 0,
        call,
        first,
        returned: Some(Returned {
            last: first.saturating_add(1),
            reply,
        }),
    })?;
    Ok(())
}

/// The calls that bring a new lock and a new record to this state, but for so many of its versions. They are
/// over, one after the other. Nothing where the lock can't be brought there.
pub(crate) fn opening_of(
    alloc: Global,
    limits: Limits,
    state: State,
    versions: u64,
) -> Result<Option<Vec<Observation>>, AllocError> {
    let calls = calls_to(alloc, state.word, versions)?;
    let Some(replayed) = replayed(alloc, limits, &calls)? else {
        return Ok(None);
    };
    let mut opening = Vec::new(alloc);
    if let Some(words) = state.content {
        push_over(&mut opening, Call::Put(words), Reply::Done)?;
    }
    for (call, reply) in calls.iter().zip(replayed.replies.iter()) {
        push_over(&mut opening, *call, *reply)?;
    }
    Ok(Some(opening))
}
