//! The script that is timed.
ghost use Rattle.std.specs.Prelude.{◌≡◌, ◌<◌, ◌≤◌};

use crate::words::all_of;
use stamp_core::{Layout, Limits, Words};
use stamp_machines::{Arg, Script, ScriptCall, ScriptError};
use std::alloc::{AllocError, Global};

/// Why there is no such script.
#[derive(Clone, Copy)]
pub enum MixError {
    /// 1: an allocation was refused.
    Memory,
    /// 2: more than 1,000,000 steps, or a record of more than 16 words.
    Script,
}

impl From<AllocError> for MixError {
    fn from(_: AllocError) -> Self {
        MixError::Memory
    }
}

impl From<ScriptError> for MixError {
    fn from(_: ScriptError) -> Self {
        MixError::Script
    }
}

const THREADS: u64 = 64;

const CALLS: u64 = 10_000;

/// How many calls of the lock there are before they come again.
const ROUND: u64 = 13;

/// The stamp of the thread's call that is this many calls before this one.
fn before(thread: u64, index: u64, calls: u64) -> Arg {
    Arg::Of(thread, index.saturating_sub(calls))
}

/// A call of the lock: each that takes a stamp is given that of a call before it.
fn lock_call(thread: u64, index: u64) -> ScriptCall {
    match index % ROUND {
        0 => ScriptCall::TryRead,
        1 => ScriptCall::Validate(before(thread, index, 1)),
        2 => ScriptCall::UnlockRead(before(thread, index, 2)),
        3 => ScriptCall::TryWrite,
        4 => ScriptCall::Validate(before(thread, index, 1)),
        5 => ScriptCall::UnlockWrite(before(thread, index, 2)),
        6 => ScriptCall::TryRead,
        7 => ScriptCall::ToWrite(before(thread, index, 1)),
        8 => ScriptCall::Unlock(before(thread, index, 1)),
        9 => ScriptCall::Unlock(before(thread, index, 3)),
        10 => ScriptCall::Optimistic,
        11 => ScriptCall::ToRead(before(thread, index, 1)),
        _ => ScriptCall::ToOptimistic(before(thread, index, 1)),
    }
}

/// A call of the record: every fortieth is a put.
fn record_call(index: u64, words: &Words) -> ScriptCall {
    if index % 40 == 0 {
        ScriptCall::Put(*words)
    } else {
        ScriptCall::Get
    }
}

fn call_at(thread: u64, index: u64, words: &Option<Words>) -> ScriptCall {
    match words {
        Some(words) => record_call(index, words),
        None => lock_call(thread, index),
    }
}

/// The thread that makes the steps of this stretch.
fn thread_of(stretch: u64) -> u64
    requires { stretch < 1_000_000 }
    ensures { result < 64 }
{
    (stretch * 2_654_435_761) % 4_294_967_296 / 67_108_864
}

/// How many steps a stretch has: a call of the record has many.
fn steps_at_a_stretch(width: u64) -> u64
    ensures { 0 < result }
{
    if width > 0 { 100 } else { 1 }
}

/// The calls of a thread. Those of a record put the thread's own number.
fn calls_of(alloc: Global, thread: u64, width: u64) -> Result<Vec<ScriptCall>, AllocError> {
    let words = all_of(width, thread);
    let mut calls = Vec::with_capacity(alloc, CALLS as usize)?;
    for index in 0..CALLS {
        calls.push(call_at(thread, index, &words))?;
    }
    Ok(calls)
}

fn threads_of(alloc: Global, width: u64) -> Result<Vec<Vec<ScriptCall>>, AllocError> {
    let mut threads = Vec::new(alloc);
    for thread in 0..THREADS {
        threads.push(calls_of(alloc, thread, width)?)?;
    }
    Ok(threads)
}

fn steps_of(alloc: Global, count: u64, at_a_stretch: u64) -> Result<Vec<u64>, AllocError>
    requires count { count ≤ 1_000_000 }
    requires stretch { 0 < at_a_stretch }
{
    let mut steps = Vec::new(alloc);
    for position in 0..count {
        steps.push(thread_of(position / at_a_stretch))?;
    }
    Ok(steps)
}

/// A script of 64 threads and this many steps.
pub fn script_of(alloc: Global, count: u64, width: u64) -> Result<Script, MixError> {
    if count > 1_000_000 || width > 16 {
        return Err(MixError::Script);
    }
    let threads = threads_of(alloc, width)?;
    let steps = steps_of(alloc, count, steps_at_a_stretch(width))?;
    Ok(Script::new(Limits::widest(Layout::One), width, threads, steps)?)
}
