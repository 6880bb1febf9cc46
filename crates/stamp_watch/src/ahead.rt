//! How calls end.
ghost use Rattle.std.specs.Prelude.{◌≡◌, ◌+◌, ◌^◌, ◌<◌, length};
ghost use Rattle.stamp_watch.specs.AsObserved.{ending_of};
ghost use Rattle.stamp_watch.specs.Foretold.{told_as};
ghost use Rattle.stamp_watch.specs.inner.Judging.{IsEndBy};

use crate::stream_event::{SmallEvent, StreamEvent};
use stamp_sets::Ending;

/// How the event with this number ends the call of the lane, if it does.
fn end_by(event: &StreamEvent, lane: u64, number: u64) -> Option<Ending>
    ensures { IsEndBy event.now lane number result }
{
    match event.small() {
        SmallEvent::Begins(_, _) => None,
        SmallEvent::Returns(other, reply) => {
            if other as u64 == lane {
                Some(Ending::Returns(reply, number))
            } else {
                None
            }
        }
        SmallEvent::Withdraws(other) => {
            if other as u64 == lane {
                Some(Ending::Withdraws)
            } else {
                None
            }
        }
    }
}

/// How the open call of the lane ends among these events, the first of which has this number.
pub(crate) fn end_ahead(events: &[StreamEvent], lane: u64, first: u64) -> Ending
    requires { first + length events.now < 2 ^ 64 }
    ensures { told_as result ≡ ending_of lane first events.now }
{
    for (k, event) in events.iter().enumerate() {
        if let Some(end) = end_by(event, lane, first + k as u64) {
            return end;
        }
    }
    Ending::Never
}
