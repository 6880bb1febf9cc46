//! The lanes that have an open call, and which events may come then.
ghost use Rattle.std.specs.Prelude.{◌≡◌, ◌↔◌, IfOk, IsTrue};
ghost use Rattle.stamp_watch.specs.inner.Judging.{IsFreeLane, IsTakenLane, AreTaken, IsBusyThen};

use crate::stream_event::{SmallEvent, StreamEvent};
use stamp_runs::Event;
use stamp_sets::{has_lane, with_lane, without_lane};
use std::alloc::{AllocError, Global};

/// Whether the lane is one of 64, and not among these.
fn is_free(busy: u64, lane: u64) -> bool
    ensures { IsTrue result ↔ IsFreeLane busy lane }
{
    lane < 64 && !has_lane(busy, lane)
}

/// Whether the lane is one of 64, and among these.
fn is_taken(busy: u64, lane: u64) -> bool
    ensures { IsTrue result ↔ IsTakenLane busy lane }
{
    lane < 64 && has_lane(busy, lane)
}

/// The lanes with an open call after the event, if it may come where these have one.
pub(crate) fn busy_with(busy: u64, event: &StreamEvent) -> Option<u64>
    ensures { IsBusyThen busy event.now result }
{
    match event.small() {
        SmallEvent::Begins(lane, _) => {
            if is_free(busy, lane as u64) {
                Some(with_lane(busy, lane as u64))
            } else {
                None
            }
        }
        SmallEvent::Returns(lane, _) | SmallEvent::Withdraws(lane) => {
            if is_taken(busy, lane as u64) {
                Some(without_lane(busy, lane as u64))
            } else {
                None
            }
        }
    }
}

/// The events, from the first on, that are in form.
pub(crate) fn in_form(alloc: Global, events: &[Event]) -> Result<Vec<StreamEvent>, AllocError>
    ensures { IfOk result (λ taken. AreTaken events.now taken.items) }
{
    let mut taken = Vec::new(alloc);
    let mut busy = 0;
    for event in events {
        let Some(small) = StreamEvent::of(event) else {
            return Ok(taken);
        };
        let Some(after) = busy_with(busy, &small) else {
            return Ok(taken);
        };
        taken.push(small)?;
        busy = after;
    }
    Ok(taken)
}
