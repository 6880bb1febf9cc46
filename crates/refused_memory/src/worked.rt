//! Worked examples with the whole of what comes of them.
ghost use Rattle.std.specs.Prelude.{◌≡◌, length};

use crate::booking::book_of_one_outcome;
use crate::orders::{SERVED, orders_outcome};
use crate::outcome::Outcome;
use crate::running::{running_lock_outcome, running_record_outcome};
use crate::schedules::step_again;
use stamp_core::{Call, Limits, replay};
use stamp_history::{read_history, read_script, write_history, write_replay};
use stamp_machines::{Run, RunError, Script, Stepped, run};
use std::alloc::Global;

/// An observation that a writer outdates, and a writer's stamp that the next writer outdates.
const CALLS: [Call; 8] = [
    Call::Optimistic,
    Call::TryWrite,
    Call::Optimistic,
    Call::Validate(256),
    Call::UnlockWrite(384),
    Call::Validate(384),
    Call::TryWrite,
    Call::Validate(384),
];

const REPLIES: &[u8] = br#"{"replies":[256,384,0,"no","done","yes",640,"no"],"word":640}"#;

/// A get of two words that a put of another thread comes between.
const GET_BESIDE_PUT: &[u8] =
    br#"{"readers":127,"steps":[0,0,1,1,1,1,1,0,0,0,0,0,0,0,0],"threads":[[["get"]],[["put",[7,9]]]],"versions":1000,"width":2}"#;

const BOTH_WORDS: &[u8] =
    br#"{"entries":[{"call":["put",[7,9]],"first":2,"last":6,"point":6,"reply":"done","thread":1},{"call":["get"],"first":0,"last":14,"point":14,"reply":[7,9],"thread":0}],"format":1,"readers":127,"versions":1000,"width":2}"#;

/// A lost exchange, after which the call is tried again on a free word.
pub(crate) const LOST: &[u8] =
    br#"{"readers":127,"steps":[0,1,1,1,1,0,0],"threads":[[["try_write"]],[["try_write"],["unlock_write",[1,0]]]],"versions":1000,"width":0}"#;

/// What that is run to.
pub(crate) const LOST_RUN: &[u8] =
    br#"{"entries":[{"call":["try_write"],"first":1,"last":2,"point":2,"reply":384,"thread":1},{"call":["unlock_write",384],"first":3,"last":4,"point":4,"reply":"done","thread":1},{"call":["try_write"],"first":0,"last":6,"point":6,"reply":640,"thread":0}],"format":1,"readers":127,"versions":1000,"width":0}"#;

fn is_replayed(alloc: Global, limits: Limits) -> Result<bool, Outcome> {
    let done = replay(alloc, limits, &CALLS)?;
    let text = write_replay(alloc, &done)?;
    Ok(text.as_slice() == REPLIES)
}

fn is_same(one: &Stepped, other: &Stepped) -> bool {
    match (one, other) {
        (Stepped::Idle, Stepped::Idle) | (Stepped::Going, Stepped::Going) => true,
        (Stepped::Ended(one), Stepped::Ended(other)) => one == other,
        _ => false,
    }
}

/// Whether a run whose refused steps are made again tells, has and leaves after each step what one does that was never
/// refused. Of the two one alone is refused.
fn are_alike(alloc: Global, script: &Script) -> Result<bool, RunError> {
    let mut again = Run::start(alloc, script)?;
    let mut smooth = Run::start(alloc, script)?;
    for thread in script.steps() {
        let stepped = step_again(&mut again, *thread)?;
        let other = smooth.step(*thread)?;
        let is_left = again.finished() == smooth.finished() && again.word() == smooth.word();
        if !is_same(&stepped, &other) || !is_left {
            return Ok(false);
        }
    }
    Ok(again.steps() == script.steps())
}

fn is_run(alloc: Global) -> Result<bool, Outcome> {
    let script = read_script(alloc, GET_BESIDE_PUT)?;
    let record = run(alloc, &script)?;
    let text = write_history(alloc, &record)?;
    Ok(text.as_slice() == BOTH_WORDS && are_alike(alloc, &script)?)
}

fn is_read_and_written(alloc: Global) -> Result<bool, Outcome> {
    let history = read_history(alloc, LOST_RUN)?;
    let text = write_history(alloc, &history)?;
    Ok(history.entries().len() == 3 && text.as_slice() == LOST_RUN)
}

/// Each example, one after another.
pub(crate) fn worked_outcome(alloc: Global) -> Outcome {
    let (Ok(limits), Ok(one)) = (Limits::new(127, 1_000), Limits::new(1, 1)) else {
        return Outcome::Wrong;
    };
    let outcomes = [
        Outcome::of(is_replayed(alloc, limits)),
        Outcome::of(is_run(alloc)),
        Outcome::of(is_read_and_written(alloc)),
        book_of_one_outcome(alloc, limits),
        running_lock_outcome(alloc, one),
        running_record_outcome(alloc, one),
        orders_outcome(alloc, &SERVED),
    ];
    let mut all = Outcome::Right;
    for outcome in outcomes {
        all = all.and(outcome);
    }
    all
}
