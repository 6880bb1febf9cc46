//! Events that wait, and how many of each lane do.
ghost use Rattle.std.specs.Prelude.{◌≡◌, ◌+◌, ◌^◌, ◌<◌, ◌++◌, ◌∷◌, ◌↔◌, IsTrue, OnOk, [], length};
ghost use Rattle.stamp_runs.specs.Run.{lane_of};
ghost use Rattle.stamp_watch.specs.Waiting.{IsCounted};
ghost use Rattle.stamp_watch.specs.inner.Delay.{IsAloneInFront};

use crate::places::lane_of;
use crate::stream_event::{SmallEvent, StreamEvent};
use std::alloc::{AllocError, Global};
use std::collections::VecDeque;
use std::slice::from_ref;

/// Events that wait, in their order.
#[derive(Drop)]
pub(crate) struct Waiting {
    pub(crate) events: VecDeque<StreamEvent>,
    /// How many there are of each lane.
    counts: [u64; 64],
}

/// Puts an event behind these.
fn put_behind(events: &mut VecDeque<StreamEvent>, event: &StreamEvent) -> Result<(), AllocError>
    ensures { OnOk result (events.new.items ≡ events.old.items ++ event.now ∷ []) }
{
    events.extend(from_ref(event))
}

impl Waiting {
    pub(crate) fn new(alloc: Global) -> Waiting
        ensures counted { IsCounted result }
        ensures none { result.events.items ≡ [] }
    {
        Waiting {
            events: VecDeque::new(alloc),
            counts: [0; 64],
        }
    }

    pub(crate) fn len(&self) -> usize
        ensures { result ≡ length self.now.events.items }
    {
        self.events.len()
    }

    /// One more event, behind the others.
    pub(crate) fn push(&mut self, event: &StreamEvent) -> Result<(), AllocError>
        requires lane { lane_of event.now < 64 }
        requires room { length self.old.events.items + 1 < 2 ^ 64 }
        requires counted { IsCounted self.old }
        ensures items { OnOk result (self.new.events.items ≡ self.old.events.items ++ event.now ∷ []) }
        ensures counted { OnOk result (IsCounted self.new) }
    {
        put_behind(&mut self.events, event)?;
        let lane = lane_of(event) as usize;
        self.counts[lane] += 1;
        Ok(())
    }

    /// The first event, which waits no longer.
    pub(crate) fn pop(&mut self) -> StreamEvent
        requires some { 0 < length self.old.events.items }
        requires counted { IsCounted self.old }
        ensures items { self.old.events.items ≡ result ∷ self.new.events.items }
        ensures counted { IsCounted self.new }
    {
        let event = match self.events.pop_front() {
            Some(event) => event,
            None => unreachable!(),
        };
        let lane = lane_of(&event) as usize;
        self.counts[lane] -= 1;
        event
    }

    /// Whether the first event begins a call, and no other event of its lane waits.
    pub(crate) fn is_alone_in_front(&self) -> bool
        requires counted { IsCounted self.now }
        ensures { IsTrue result ↔ IsAloneInFront self.now.events.items }
    {
        let Some(event) = self.events.front() else {
            return false;
        };
        match event.small() {
            SmallEvent::Begins(lane, _) => self.counts[lane as usize] == 1,
            _ => false,
        }
    }
}
