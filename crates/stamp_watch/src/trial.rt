//! Other replies that are tried at a return of a run.
ghost use Rattle.std.specs.Prelude.{◌≡◌, ◌≤◌, false, IfOk, List, length, take, drop};
ghost use Rattle.stamp_core.specs.Limits.{Bounds};
ghost use Rattle.stamp_watch.specs.Form.{is_busy_after};
ghost use Rattle.stamp_watch.specs.Verdict.{AreOfLanes};
ghost use Rattle.stamp_watch.specs.inner.Judging.{IsOutcome};
ghost use Rattle.stamp_watch.specs.inner.Trial.{IsBaseOf, IsTrial, IsTrialOfSome, IsTried, MayReturn, with_return};

use crate::judge::{Outcome, end_told, judge_rest, step};
use crate::stream_event::StreamEvent;
use stamp_core::Limits;
use stamp_sets::{Progress, SmallReply, Watch};
use std::alloc::{AllocError, Global};

/// A watch behind so many events of a run.
#[derive(Drop)]
pub(crate) struct Base {
    watch: Watch,
    place: usize,
}

/// A watch behind the events before this place; behind none, where they are not explained or too many positions are
/// possible.
fn base_at(
    alloc: Global,
    limits: Limits,
    events: &[StreamEvent],
    place: usize,
    most: u64,
) -> Result<Base, AllocError>
    requires form { AreOfLanes events.now }
    requires within { place ≤ length events.now }
    ensures { IfOk result (IsBaseOf limits events.now place) }
{
    let mut watch = Watch::new(alloc, limits)?;
    for k in 0..place {
        let event = &events[k];
        let ends = end_told(event, &events[k + 1..], k as u64 + 1);
        let progress = step(&mut watch, event, ends, most)?;
        if !matches!(progress, Progress::Going) {
            let watch = Watch::new(alloc, limits)?;
            return Ok(Base { watch, place: 0 });
        }
    }
    Ok(Base { watch, place })
}

/// A run up to a return: a watch behind so many of its events, from which it is judged with each reply that is tried.
#[derive(Drop)]
pub(crate) struct Trial {
    alloc: Global,
    base: Watch,
    first: usize,
    pub(crate) events: Vec<StreamEvent>,
    pub(crate) lane: u8,
    most: u64,
}

impl Trial {
    /// The call of the lane begins at this place of the run, and may return behind it.
    pub(crate) fn new(
        alloc: Global,
        limits: Limits,
        events: Vec<StreamEvent>,
        lane: u8,
        begins: usize,
        most: u64,
    ) -> Result<Trial, AllocError>
        requires may { MayReturn events.items lane }
        requires within { begins ≤ length events.items }
        requires free { is_busy_after (take begins events.items) lane ≡ false }
        ensures trial { IfOk result (IsTrial limits) }
        ensures run { IfOk result (λ trial. trial.events.items ≡ events.items) }
        ensures lane { IfOk result (λ trial. trial.lane ≡ lane) }
        ensures most { IfOk result (λ trial. trial.most ≡ most) }
    {
        let base = base_at(alloc, limits, events.as_slice(), begins, most)?;
        Ok(Trial {
            alloc,
            base: base.watch,
            first: base.place,
            events,
            lane,
            most,
        })
    }

    /// Judges the run with this reply at its end.
    fn judge_with(&self, reply: SmallReply) -> Result<Outcome, AllocError>
        requires { IsTrialOfSome self.now }
        ensures { IfOk result (λ outcome. (limits : Bounds) → IsTrial limits self.now
            → IsOutcome limits self.now.first (take self.now.first self.now.events.items)
            (drop self.now.first (with_return self.now reply)) self.now.most outcome) }
    {
        let mut events = Vec::from_slice(self.alloc, &self.events.as_slice()[self.first..])?;
        events.push(StreamEvent::returns(self.lane, reply))?;
        let start = self.base.copied()?;
        judge_rest(start, self.first as u64, events.as_slice(), self.most)
    }

    /// Whether the call could have returned with this reply. Nothing where too many positions are possible.
    pub(crate) fn is_possible(&self, reply: SmallReply) -> Result<Option<bool>, AllocError>
        requires { IsTrialOfSome self.now }
        ensures { IfOk result (λ answer. (limits : Bounds) → IsTrial limits self.now
            → IsTried limits self.now reply answer) }
    {
        let outcome = self.judge_with(reply)?;
        match outcome {
            Outcome::Explained => Ok(Some(true)),
            Outcome::Unexplained(_) => Ok(Some(false)),
            Outcome::TooMany(_) => Ok(None),
        }
    }
}
