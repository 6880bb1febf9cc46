//! The calls that end at events of a run.
ghost use Rattle.std.specs.Prelude.{◌≡◌};
ghost use Rattle.stamp_watch.specs.EndedCall.{begun_in, begun_then, ended_by};

use crate::stream_event::StreamEvent;
use stamp_core::{Call, Reply};
use stamp_runs::Event;

/// A call that ends at an event of a run.
#[derive(Clone, Copy, Debug, PartialEq, Eq)]
pub struct EndedCall {
    /// Its lane.
    pub lane: u64,
    /// The call.
    pub call: Call,
    /// What it was answered; `None` where it was withdrawn.
    pub reply: Option<Reply>,
}

/// The last call of the lane once the event came, if it was this one before.
fn begun_then(lane: u64, last: Option<Call>, event: &StreamEvent) -> Option<Call>
    ensures { result ≡ begun_then lane last event.now }
{
    match event.as_event() {
        Event::Begins(other, call) => { if other == lane { Some(call) } else { last } }
        Event::Returns(_, _) => last,
        Event::Withdraws(_) => last,
    }
}

/// The last call that begins in the lane among these events.
pub(crate) fn begun_in(events: &[StreamEvent], lane: u64) -> Option<Call>
    ensures { result ≡ begun_in lane events.now }
{
    let mut last = None;
    for event in events {
        last = begun_then(lane, last, event);
    }
    last
}

/// The call that the event ends, if it ends one that began among those before it.
pub(crate) fn ended_by(event: &StreamEvent, before: &[StreamEvent]) -> Option<EndedCall>
    ensures { result ≡ ended_by event.now before.now }
{
    let (lane, reply) = match event.as_event() {
        Event::Begins(_, _) => return None,
        Event::Returns(lane, reply) => (lane, Some(reply)),
        Event::Withdraws(lane) => (lane, None),
    };
    let call = begun_in(before, lane)?;
    Some(EndedCall { lane, call, reply })
}
