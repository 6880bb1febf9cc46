//! Events that may not come where they come.

ghost use Rattle.stamped_watch.specs.Finding.{IsMisplacedSo};

use stamp_watch::{Event, StreamEvent};

/// Why an event may not come.
#[derive(Clone, Copy, Debug, PartialEq, Eq)]
pub(crate) enum Misplaced {
    /// Its lane is none of 0 to 63.
    Lane,
    /// It begins a call in a lane that has an open one.
    Open,
    /// It ends a call in a lane that has no open one.
    Idle,
}

/// Why the event may not come, where it may not.
pub(crate) fn why_misplaced(event: &StreamEvent) -> Misplaced
    ensures { IsMisplacedSo event.now result }
{
    let (lane, why) = match event.as_event() {
        Event::Begins(lane, _) => (lane, Misplaced::Open),
        Event::Returns(lane, _) | Event::Withdraws(lane) => (lane, Misplaced::Idle),
    };
    if lane > 63 { Misplaced::Lane } else { why }
}
