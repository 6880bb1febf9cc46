//! Where the events that a judge keeps begin. It doesn't know in which of some positions the lock and its lanes are
//! there, and in which the record: each of the one with each of the other is a start. From one of them at least the
//! events are explained as far as the run is.
ghost use Rattle.std.specs.Prelude.{◌≡◌, ◌^◌, ◌-◌, ◌<◌, IsSome, MatchOption, min};
ghost use Rattle.stamp_watch.specs.Start.{BeganLateBy, IsJudgeUpTo, content_of, place_of, starts_of, waiting_of, word_of};

use crate::late::LateJudge;
use crate::online::Judge;
use crate::stream_event::StreamEvent;
use stamp_core::{Call, Limits};

/// The places of the lock's position and of the record's at a start.
#[derive(Clone, Copy)]
pub(crate) struct Start {
    word: usize,
    content: usize,
}

impl Judge {
    /// The limits of the lock.
    pub fn limits(&self) -> Limits
        ensures { result ≡ self.now.course.base.limits }
    {
        self.course.base.limits()
    }

    /// The events that it keeps.
    pub fn kept_events(&self) -> &[StreamEvent]
        ensures { result.now ≡ self.now.course.events.items }
    {
        self.course.events.as_slice()
    }

    /// The number of the first event that it keeps.
    pub fn first_kept(&self) -> u64
        ensures { result ≡ self.now.course.first }
    {
        self.course.first
    }

    /// How many starts there are: positions of the lock and of the record that are possible before the events that it
    /// keeps.
    pub fn starts(&self) -> usize
        ensures { result ≡ min (starts_of self.now.course.base) (2 ^ 64 - 1) }
    {
        let base = &self.course.base;
        base.contents().saturating_mul(base.positions())
    }

    /// The places at a start, where there is one.
    fn start(&self, start: usize) -> Option<Start>
        ensures { result ≡ place_of self.now.course.base start }
    {
        let base = &self.course.base;
        let words = base.positions();
        if words == 0 || start / words >= base.contents() {
            return None;
        }
        Some(Start {
            word: start % words,
            content: start / words,
        })
    }

    /// The number of the lock's word at a start; none where there is no such start.
    pub fn word_at(&self, start: usize) -> Option<u64>
        ensures word { result ≡ word_of self.now.course.base start }
        ensures there { start < starts_of self.now.course.base → IsSome result }
    {
        let at = self.start(start)?;
        self.course.base.word_at(at.word)
    }

    /// The number of the record's content at a start; none where there is no such start.
    pub fn content_at(&self, start: usize) -> Option<u64>
        ensures content { result ≡ content_of self.now.course.base start }
        ensures there { start < starts_of self.now.course.base → IsSome result }
    {
        let at = self.start(start)?;
        self.course.base.content_at(at.content)
    }

    /// The call that is open in the lane at a start and has taken no effect there, if there is one.
    pub fn waiting_at(&self, start: usize, lane: u64) -> Option<Call>
        ensures { result ≡ waiting_of self.now.course.base start lane }
    {
        let at = self.start(start)?;
        let call = self.course.base.waiting_at(at.word, at.content, lane)?;
        Some(call.as_call())
    }
}

impl LateJudge {
    /// The judge of the events as they came, up to the one with this number; none where one of them begins a call that
    /// begins late.
    pub fn judge_up_to(&self, number: u64) -> Option<&Judge>
        ensures { MatchOption result (BeganLateBy self.now number)
            (λ judge. IsJudgeUpTo self.now number judge.now) }
    {
        match self.delay.first_late {
            Some(first) if first <= number => None,
            _ => Some(&self.delay.judge),
        }
    }
}
