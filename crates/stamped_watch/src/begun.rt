//! The calls of a run as an observer tells them, up to one of its events.
ghost use Rattle.std.specs.Prelude.{◌≡◌, ◌+◌, ◌++◌, IfOk, None, Some, fold, length, option_map, slice_set};
ghost use Rattle.stamp_watch.specs.Start.{waiting_of};
ghost use Rattle.stamped_watch.specs.Calls.{Told, begun, open_in, return, returned_in, told_first, told_with};
ghost use Rattle.stamped_watch.specs.Calls.{IsTold, under_way};

use stamp_core::{Call, Reply};
use stamp_explain::{Observation, Returned};
use stamp_watch::{Event, Judge, StreamEvent};
use std::alloc::{AllocError, Global};

/// The lanes of a judge.
const LANES: usize = 64;

/// A call that has begun, and where.
#[derive(Clone, Copy)]
pub(crate) struct Begun {
    call: Call,
    first: u64,
}

/// The calls of a run so far: those that are open, by their lanes, and those that have returned. One that is withdrawn
/// is left out.
#[derive(Drop)]
pub(crate) struct Calls {
    lanes: Vec<Option<Begun>>,
    returned: Vec<Observation>,
}

impl Calls {
    /// Those that are open at a start of the judge's events, and have taken no effect there.
    pub(crate) fn at_start(alloc: Global, judge: &Judge, start: usize) -> Result<Calls, AllocError>
        ensures { IfOk result (λ calls. IsTold calls (told_first (waiting_of judge.now.course.base start))) }
    {
        let mut lanes = Vec::with_capacity(alloc, LANES)?;
        for lane in 0..LANES as u64 {
            let begun = match judge.waiting_at(start, lane) {
                Some(call) => Some(Begun { call, first: 0 }),
                None => None,
            };
            lanes.push(begun)?;
        }
        Ok(Calls {
            lanes,
            returned: Vec::new(alloc),
        })
    }

    /// The open call of this lane.
    fn open_in(&self, lane: u64) -> Option<Begun>
        ensures { result ≡ open_in self.now.lanes.items lane }
    {
        match self.lanes.as_slice().get(lane as usize) {
            Some(begun) => *begun,
            None => None,
        }
    }

    /// This is the open call of the lane now.
    fn put(&mut self, lane: u64, begun: Option<Begun>)
        ensures lanes { self.new.lanes.items ≡ slice_set self.old.lanes.items lane begun }
        ensures returned { self.new.returned ≡ self.old.returned }
    {
        if (lane as usize) < self.lanes.len() {
            self.lanes[lane as usize] = begun;
        }
    }

    /// The call of this lane returns at this position; one that was in effect at the start is left out.
    fn give(&mut self, lane: u64, last: u64, reply: Reply) -> Result<(), AllocError>
        ensures lanes { IfOk result (λ _. self.new.lanes.items ≡ slice_set self.old.lanes.items lane None) }
        ensures returned { IfOk result (λ _. self.new.returned.items
            ≡ self.old.returned.items ++ returned_in self.old.lanes.items lane (return last reply)) }
    {
        if let Some(begun) = self.open_in(lane) {
            self.returned.push(Observation {
                thread: lane,
                call: begun.call,
                first: begun.first,
                returned: Some(Returned { last, reply }),
            })?;
        }
        self.put(lane, None);
        Ok(())
    }

    /// One more event, at this position.
    fn push(&mut self, event: &StreamEvent, position: u64) -> Result<(), AllocError>
        ensures { IfOk result (λ _. (told : Told) → told.events + 1 ≡ position → IsTold self.old told
            → IsTold self.new (told_with told event.now)) }
    {
        match event.as_event() {
            Event::Begins(lane, call) => self.put(
                lane,
                Some(Begun {
                    call,
                    first: position,
                }),
            ),
            Event::Returns(lane, reply) => self.give(lane, position, reply)?,
            Event::Withdraws(lane) => self.put(lane, None),
        }
        Ok(())
    }

    /// These events come, at the positions from 1 on.
    pub(crate) fn push_all(&mut self, events: &[StreamEvent]) -> Result<(), AllocError>
        ensures { IfOk result (λ _. (told : Told) → told.events ≡ 0 → IsTold self.old told
            → IsTold self.new (fold told_with told events.now)) }
    {
        for (i, event) in events.iter().enumerate() {
            self.push(event, i as u64 + 1)?;
        }
        Ok(())
    }

    /// Where the open call of this lane began, if it has one. It is no longer among them.
    pub(crate) fn take(&mut self, lane: u64) -> Option<u64>
        ensures first { result ≡ option_map (λ call. call.first) (open_in self.old.lanes.items lane) }
        ensures lanes { self.new.lanes.items ≡ slice_set self.old.lanes.items lane None }
        ensures returned { self.new.returned ≡ self.old.returned }
    {
        let first = match self.open_in(lane) {
            Some(begun) => Some(begun.first),
            None => None,
        };
        self.put(lane, None);
        first
    }

    /// All of them; the open ones are under way.
    pub(crate) fn observations(&self, alloc: Global) -> Result<Vec<Observation>, AllocError>
        ensures { IfOk result (λ all. all.items
            ≡ self.now.returned.items ++ under_way self.now.lanes.items) }
    {
        let mut all = Vec::from_slice(alloc, self.returned.as_slice())?;
        for lane in 0..LANES as u64 {
            if let Some(begun) = self.open_in(lane) {
                all.push(Observation {
                    thread: lane,
                    call: begun.call,
                    first: begun.first,
                    returned: None,
                })?;
            }
        }
        Ok(all)
    }
}
