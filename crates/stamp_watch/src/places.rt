//! The lanes of events.
ghost use Rattle.std.specs.Prelude.{◌≡◌, MatchOption};
ghost use Rattle.stamp_runs.specs.Run.{lane_of};
ghost use Rattle.stamp_watch.specs.Ahead.{IsSpared};
ghost use Rattle.stamp_watch.specs.inner.Delay.{IsFirstOfLaneAt};

use crate::stream_event::{SmallEvent, StreamEvent};

pub(crate) fn lane_of(event: &StreamEvent) -> u64
    ensures { result ≡ lane_of event.now }
{
    match event.small() {
        SmallEvent::Begins(lane, _) => lane as u64,
        SmallEvent::Returns(lane, _) => lane as u64,
        SmallEvent::Withdraws(lane) => lane as u64,
    }
}

/// The place of the first of these events that is of the lane.
pub(crate) fn place_of(events: &[StreamEvent], lane: u64) -> Option<usize>
    ensures { MatchOption result (IsSpared events.now lane) (λ place. IsFirstOfLaneAt events.now lane place) }
{
    for (place, event) in events.iter().enumerate() {
        if lane_of(event) == lane {
            return Some(place);
        }
    }
    None
}
