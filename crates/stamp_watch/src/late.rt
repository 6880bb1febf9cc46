//! Judging a run with calls that are open for long, while it goes on.
//!
//! In front of a judge an event waits if it begins a call that hasn't ended, and so do those behind it. A call that is
//! open for longer than many events is put aside, and begins later: once its end comes in. What is explained then is
//! explained as the run stands, since a call that begins later may do less. Nothing is lost by that if a call that began
//! and returned shortly before issued a stamp of an older version: versions never fall, so the late call took effect
//! after that one began. So a run with calls that wait for long is judged to its end, and where it is stuck is found.
ghost use Rattle.std.specs.Prelude.{◌≡◌, ◌+◌, ◌*◌, ◌^◌, ◌<◌, ◌≤◌, ◌↔◌, [], ⊤, IfOk, IfSome, MatchOption, None, Some, List, ℕ, false, length};
ghost use Rattle.stamp_core.specs.Limits.{Bounds};
ghost use Rattle.stamp_runs.specs.declared.event.Event.{Event};
ghost use Rattle.stamp_watch.specs.Delay.{kept_of};
ghost use Rattle.stamp_watch.specs.EndedCall.{IsEndedAt, ended_from};
ghost use Rattle.stamp_watch.specs.Late.{IsLateVerdict};
ghost use Rattle.stamp_watch.specs.SoFar.{IsExplainedUpTo, open_calls};
ghost use Rattle.stamp_watch.specs.Possible.{items_in};
ghost use Rattle.stamp_watch.specs.PossibleLate.{IsToldLaterOf, KeepsLater, KeepsSomeLater};
ghost use Rattle.stamp_watch.specs.LateJudge.{HasFoundNothingLater, HasRoomForOneLater, IsLateFoundThen, IsLateGiven, IsLateJudge, IsLateJudgeOfSome, EndsInRunLate, KeepsEndLate};
ghost use Rattle.stamp_watch.specs.inner.Judging.{MayComeIn, SetsBusy};

use crate::delay::Delay;
use crate::ended_call::EndedCall;
use crate::lanes::busy_with;
use crate::late_verdict::LateVerdict;
use crate::so_far::lanes_in;
use crate::stream_event::StreamEvent;
use stamp_core::{Call, Limits, Reply};
use std::alloc::{AllocError, Global};

/// Judges a run of a lock and its record event by event, from a new lock on. It is as `Judge`, but a call may be open
/// for as long as it likes, and is never too far from its end: where it is open for more than many events, it begins
/// later. What is found is what a `Judge` would find, if it is shown of each such call that nothing is lost. After an
/// `Err` it is of no more use.
#[derive(Drop)]
pub struct LateJudge {
    pub(crate) delay: Delay,
    pub(crate) busy: u64,
    found: Option<LateVerdict>,
}

impl LateJudge {
    /// The judge of a lock with these limits and its record, before any event. More than `most` positions before an
    /// event are too many to go on. A call begins later if it is open for all but 64 of `ahead` events. So `ahead` is rather
    /// thousands; where it is 64 or less, each call begins late.
    pub fn new(
        alloc: Global,
        limits: Limits,
        most: u64,
        ahead: usize,
    ) -> Result<LateJudge, AllocError>
        ensures judge { IfOk result (λ judge. IsLateJudge limits most ahead [] judge) }
        ensures known { IfOk result (λ judge. IsLateJudgeOfSome judge) }
        ensures none { IfOk result HasFoundNothingLater }
    {
        let delay = Delay::new(alloc, limits, most, ahead)?;
        Ok(LateJudge {
            delay,
            busy: 0,
            found: None,
        })
    }

    /// Takes an event that may come there, after which these lanes have an open call.
    fn take(&mut self, event: &StreamEvent, busy: u64) -> Result<Option<LateVerdict>, AllocError>
        requires some { IsLateJudgeOfSome self.old }
        requires room { HasRoomForOneLater self.old }
        requires none { self.old.found ≡ None }
        requires may { MayComeIn self.old.busy event.now }
        requires busy { SetsBusy self.old.busy event.now busy }
        ensures found { IfOk result (λ found. IsLateFoundThen event.now self.old found) }
        ensures given { IfOk result (λ _. IsLateGiven event.now self.old self.new) }
        ensures known { IfOk result (λ _. IsLateJudgeOfSome self.new) }
        ensures told { IfOk result (λ found. self.new.found ≡ found) }
    {
        self.busy = busy;
        let found = self.delay.push(event)?;
        let Some(verdict) = found else {
            return Ok(None);
        };
        let finding = self.delay.finding(verdict);
        self.found = Some(finding);
        Ok(Some(finding))
    }

    /// Ends with an event that may not come there.
    fn break_off(&mut self, event: &StreamEvent) -> Result<Option<LateVerdict>, AllocError>
        requires some { IsLateJudgeOfSome self.old }
        requires room { HasRoomForOneLater self.old }
        requires none { self.old.found ≡ None }
        requires not { ¬ MayComeIn self.old.busy event.now }
        ensures found { IfOk result (λ found. IsLateFoundThen event.now self.old found) }
        ensures given { IfOk result (λ _. IsLateGiven event.now self.old self.new) }
        ensures known { IfOk result (λ _. IsLateJudgeOfSome self.new) }
        ensures told { IfOk result (λ found. self.new.found ≡ found) }
    {
        let finding = self.delay.break_off()?;
        self.found = Some(finding);
        Ok(Some(finding))
    }

    /// Looks at one more event.
    fn look_at(&mut self, event: &StreamEvent) -> Result<Option<LateVerdict>, AllocError>
        requires some { IsLateJudgeOfSome self.old }
        requires room { HasRoomForOneLater self.old }
        requires none { self.old.found ≡ None }
        ensures found { IfOk result (λ found. IsLateFoundThen event.now self.old found) }
        ensures given { IfOk result (λ _. IsLateGiven event.now self.old self.new) }
        ensures known { IfOk result (λ _. IsLateJudgeOfSome self.new) }
        ensures told { IfOk result (λ found. self.new.found ≡ found) }
    {
        match busy_with(self.busy, event) {
            Some(busy) => self.take(event, busy),
            None => self.break_off(event),
        }
    }

    /// One more event: what is found of the run, whatever comes later, if anything is.
    pub fn push(&mut self, event: &StreamEvent) -> Result<Option<LateVerdict>, AllocError>
        requires some { IsLateJudgeOfSome self.old }
        requires room { HasRoomForOneLater self.old }
        ensures found { IfOk result (λ found. IsLateFoundThen event.now self.old found) }
        ensures given { IfOk result (λ _. IsLateGiven event.now self.old self.new) }
        ensures known { IfOk result (λ _. IsLateJudgeOfSome self.new) }
        ensures told { IfOk result (λ found. self.new.found ≡ found) }
    {
        match self.found {
            Some(finding) => Ok(Some(finding)),
            None => self.look_at(event),
        }
    }

    /// How many events it keeps: few, however long the run is.
    pub fn kept(&self) -> usize
        requires { IsLateJudgeOfSome self.now }
        ensures many { kept_of self.now.delay < 2 ^ 64 → result ≡ kept_of self.now.delay }
        ensures few { (limits : Bounds) (most ahead : ℕ) (run : List Event)
            → IsLateJudge limits most ahead run self.now → result ≤ 4 * (ahead + 1024) }
    {
        self.delay.kept()
    }

    /// Whether it can't number one more event.
    pub fn is_full(&self) -> bool
        ensures { (result ≡ false) ↔ HasRoomForOneLater self.now }
    {
        self.delay.is_full()
    }

    /// How many events it was given, where nothing is found of them.
    pub fn count(&self) -> u64
        requires some { IsLateJudgeOfSome self.now }
        requires none { HasFoundNothingLater self.now }
        ensures { (limits : Bounds) (most ahead : ℕ) (run : List Event)
            → IsLateJudge limits most ahead run self.now → result ≡ length run }
    {
        self.delay.count()
    }

    /// So many of the events that it was given are explained, from the first on, where nothing is found of them. Of
    /// the others there are no more than twice `ahead`, and 64.
    pub fn explained(&self) -> u64
        requires some { IsLateJudgeOfSome self.now }
        requires none { HasFoundNothingLater self.now }
        ensures { (limits : Bounds) (most ahead : ℕ) (run : List Event)
            → IsLateJudge limits most ahead run self.now → IsExplainedUpTo limits run (2 * ahead + 64) result }
    {
        self.delay.judge.explained()
    }

    /// How many calls are open behind the events that it was given, where nothing is found of them.
    pub fn open_calls(&self) -> u64
        requires none { HasFoundNothingLater self.now }
        ensures { (limits : Bounds) (most ahead : ℕ) (run : List Event)
            → IsLateJudge limits most ahead run self.now → result ≡ open_calls run }
    {
        lanes_in(self.busy)
    }

    /// The call that the event with this number ends, if its beginning is kept. Where the run was found stuck at the
    /// event it is kept, and it is the call that ends there. Elsewhere, if a call that begins before the event was put
    /// aside, it is one of the run with that call begun later.
    pub fn ended_at(&self, number: u64) -> Option<EndedCall>
        ensures kept { result
            ≡ ended_from self.now.delay.judge.course.first self.now.delay.judge.course.events.items number }
        ensures call { (limits : Bounds) (run : List Event) → KeepsLater limits run self.now
            → MatchOption self.now.delay.first_late ⊤ (λ first. number < first)
            → IfSome result (λ ended. IsEndedAt run number ended) }
    {
        self.delay.judge.ended_at(number)
    }

    /// Which replies the call could have had that returns at the event with this number, as `Judge::possible_at` tells.
    /// Nothing, too, where a call before the event was put aside. It can be asked also once the judge has finished.
    pub fn possible_at(&self, number: u64, call: &Call) -> Result<Option<Vec<Reply>>, AllocError>
        requires { KeepsSomeLater self.now }
        ensures { IfOk result (λ told. IsToldLaterOf self.now number call.now (items_in told)) }
    {
        if self.delay.is_late_by(number) {
            return Ok(None);
        }
        if self.delay.judge.return_at(number).is_none() {
            return Ok(None);
        }
        self.delay.judge.possible_at(number, call)
    }

    /// What is found of the run if it ends here: a call that has not ended never ends. The judge takes no more events
    /// then.
    pub fn finish(&mut self) -> Result<LateVerdict, AllocError>
        requires { IsLateJudgeOfSome self.old }
        ensures verdict { IfOk result (λ finding. (limits : Bounds) (most ahead : ℕ) (run : List Event)
            → IsLateJudge limits most ahead run self.old → IsLateVerdict limits run most ahead finding) }
        ensures keeps { IfOk result (λ _. (limits : Bounds) (most ahead : ℕ) (run : List Event)
            → IsLateJudge limits most ahead run self.old → KeepsLater limits run self.new) }
        ensures tells { IfOk result (KeepsEndLate self.new.delay) }
        ensures there { IfOk result (λ finding. (limits : Bounds) (most ahead : ℕ) (run : List Event)
            → IsLateJudge limits most ahead run self.old → EndsInRunLate run self.new.delay finding) }
        ensures window { IfOk result (λ _. self.new.delay.ahead ≡ self.old.delay.ahead) }
        ensures most { IfOk result (λ _. self.new.delay.judge.most ≡ self.old.delay.judge.most) }
    {
        match self.found {
            Some(finding) => Ok(finding),
            None => self.delay.rest(),
        }
    }
}
