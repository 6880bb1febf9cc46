//! What the tests make limits and small events of, and that there is room for one more.
ghost use Rattle.std.specs.Prelude.{◌≡◌, OnOk, false};

use stamp_core::{Call, Limits, Reply, Words};
use stamp_explain::{Observation, Returned};
use stamp_watch::{Event, SmallCall, SmallReply, StreamEvent};
use std::test::Fail;

pub(crate) fn limits(readers: u64, versions: u64) -> Result<Limits, Fail> {
    Limits::new(readers, versions).map_err(|_| Fail::from("limits"))
}

pub(crate) fn words(row: &[u64]) -> Result<Words, Fail> {
    Ok(Words::new(row).ok_or("words")?)
}

/// These words as a reply.
pub(crate) fn content(row: &[u64]) -> Result<Reply, Fail> {
    Ok(Reply::Content(words(row)?))
}

/// A call of this thread from the one position to the other, which is answered so.
pub(crate) fn returned(
    thread: u64,
    call: Call,
    first: u64,
    last: u64,
    reply: Reply,
) -> Observation {
    Observation {
        thread,
        call,
        first,
        returned: Some(Returned { last, reply }),
    }
}

/// The same event as a judge takes it, if each content has one word.
pub(crate) fn small(event: &Event) -> Result<StreamEvent, Fail> {
    Ok(StreamEvent::of(event).ok_or("not small")?)
}

/// A call that begins in the lane.
pub(crate) fn calls(lane: u64, call: Call) -> Event {
    Event::Begins(lane, call)
}

/// A stamp that is returned in the lane.
pub(crate) fn stamps(lane: u64, stamp: u64) -> Event {
    Event::Returns(lane, Reply::Stamp(stamp))
}

/// Another reply that is returned in the lane.
pub(crate) fn says(lane: u64, reply: Reply) -> Event {
    Event::Returns(lane, reply)
}

/// The content of this number is put in the lane.
pub(crate) fn puts(lane: u64, number: u64) -> Event {
    Event::Begins(lane, SmallCall::Put(number).as_call())
}

/// The content of the second number is put in the lane, if the record holds that of the first.
pub(crate) fn puts_if(lane: u64, expected: u64, number: u64) -> Event {
    Event::Begins(lane, SmallCall::PutIf(expected, number).as_call())
}

/// The put or the release of the lane returns.
pub(crate) fn done(lane: u64) -> Event {
    Event::Returns(lane, Reply::Done)
}

/// A get begins in the lane.
pub(crate) fn gets(lane: u64) -> Event {
    Event::Begins(lane, Call::Get)
}

/// It returns the content of this number.
pub(crate) fn got(lane: u64, number: u64) -> Event {
    Event::Returns(lane, SmallReply::Content(number).as_reply())
}

/// A judge that isn't full can number one more event.
pub(crate) fn not_full(is_full: bool) -> Result<(), Fail>
    ensures { OnOk result (is_full ≡ false) }
{
    if is_full {
        Err(Fail::from("full"))
    } else {
        Ok(())
    }
}

/// Fails if it isn't so.
pub(crate) fn must(is: bool, what: &'static str) -> Result<(), Fail> {
    if is { Ok(()) } else { Err(Fail::from(what)) }
}
