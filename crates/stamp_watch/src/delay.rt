//! The events of a run that wait before a judge is given them.
//!
//! An event waits if it begins a call whose end hasn't come, and all events behind it do. Once so many wait, the call
//! is put aside: it begins when its end comes in, before the events that wait then. As long as a call is aside, that
//! many events wait, so that its end finds some of calls that returned older stamps. If it finds one, nothing is lost
//! by the call's late beginning.
ghost use Rattle.std.specs.Prelude.{◌≡◌, ◌+◌, ◌*◌, ◌↔◌, false, true, ◌^◌, ◌<◌, ◌≤◌, ◌++◌, ◌∷◌, ℕ, List, [], IfOk, IsSome, IsTrue, MatchOption, Some, None, ⊤, length};
ghost use Rattle.stamp_core.specs.Limits.{AreInRange, Bounds};
ghost use Rattle.stamp_runs.specs.Run.{lane_of};
ghost use Rattle.stamp_runs.specs.declared.event.Event.{Event};
ghost use Rattle.stamp_watch.specs.Issued.{LosesNothing};
ghost use Rattle.stamp_watch.specs.Ahead.{IsSpared};
ghost use Rattle.stamp_watch.specs.Delay.{IsDelayed, IsSmallDelay, kept_of};
ghost use Rattle.stamp_watch.specs.Judge.{IsJudge, IsJudgeOfSome};
ghost use Rattle.stamp_watch.specs.Late.{IsLateFound};
ghost use Rattle.stamp_watch.specs.LateJudge.{EndsInRunLate, KeepsEndLate};
ghost use Rattle.stamp_watch.specs.Possible.{KeepsBase};
ghost use Rattle.stamp_watch.specs.PossibleLate.{KeepsDelayed};
ghost use Rattle.stamp_watch.specs.Verdict.{AreOfLanes};
ghost use Rattle.stamp_watch.specs.inner.Delay.{HasBegun, HasHandedOn, HasRoomFor, IsFindingBy, IsFindingOf, IsLateBreak, IsLateRest, IsOfLaneAt, IsReady, IsReadyFor, IsSettled, IsShownBy, IsWaitingOn, found_by};

use crate::issued::{returns_older, version_issued};
use crate::late_verdict::LateVerdict;
use crate::online::{Judge, broken_off};
use crate::places::{lane_of, place_of};
use crate::stream_event::StreamEvent;
use crate::verdict::Verdict;
use crate::waiting::Waiting;
use stamp_core::Limits;
use std::alloc::{AllocError, Global};
use std::slice::from_ref;

/// So many calls may be open at a time.
const LANES: usize = 64;

/// A judge, and the events that it was not given yet: those that wait, and the beginnings that are aside.
#[derive(Drop)]
pub(crate) struct Delay {
    alloc: Global,
    limits: Limits,
    pub(crate) judge: Judge,
    /// So many events may wait.
    ahead: usize,
    waiting: Waiting,
    aside: Vec<StreamEvent>,
    /// So many events came before those that wait.
    passed: u64,
    /// The number of the first call that was put aside.
    pub(crate) first_late: Option<u64>,
    /// The first events of the run that show that nothing is lost by the calls that began late, if any do: so many.
    shown: Option<u64>,
}

/// What comes of the first event that waits.
#[derive(Clone, Copy)]
pub(crate) enum Handed {
    /// It waits on.
    Waits,
    /// It waits no longer.
    Passes,
    /// The judge was given it, and this is found.
    Finds(Verdict),
}

/// Gives a judge these events, as long as it has found nothing.
fn give(judge: &mut Judge, events: &[StreamEvent]) -> Result<(), AllocError>
    requires some { IsJudgeOfSome judge.old }
    requires room { HasRoomFor (length events.now) judge.old }
    ensures given { IfOk result (λ _. (limits : Bounds) (most ahead : ℕ) (run : List Event)
        → IsJudge limits most ahead run judge.old → IsJudge limits most ahead (run ++ events.now) judge.new) }
    ensures kept { IfOk result (λ _. (limits : Bounds) (most ahead : ℕ) (run : List Event)
        → IsJudge limits most ahead run judge.old → KeepsBase limits run judge.old
        → KeepsBase limits (run ++ events.now) judge.new) }
    ensures known { IfOk result (λ _. IsJudgeOfSome judge.new) }
{
    for event in events {
        if judge.has_found() {
            return Ok(());
        }
        judge.push(event)?;
    }
    Ok(())
}

impl Delay {
    /// That of a run without events, whose judge looks at so many events for the end of a call, and at 64 at least.
    /// Among those calls may begin late, one in each lane, so 64 fewer wait. So each call ends among those.
    pub(crate) fn new(
        alloc: Global,
        limits: Limits,
        most: u64,
        ahead: usize,
    ) -> Result<Delay, AllocError>
        ensures delayed { IfOk result (λ delay. IsDelayed limits most ahead [] delay) }
        ensures going { IfOk result (λ delay. delay.judge.found ≡ None) }
        ensures none { IfOk result (λ delay. delay.waiting.events.items ≡ []) }
    {
        let window = ahead.saturating_sub(LANES);
        let judge = Judge::new(alloc, limits, most, window + LANES)?;
        Ok(Delay {
            alloc,
            limits,
            judge,
            ahead: window,
            waiting: Waiting::new(alloc),
            aside: Vec::new(alloc),
            passed: 0,
            first_late: None,
            shown: Some(0),
        })
    }

    /// How many events the run has so far.
    pub(crate) fn count(&self) -> u64
        requires { self.now.passed + length self.now.waiting.events.items < 2 ^ 64 }
        ensures { result ≡ self.now.passed + length self.now.waiting.events.items }
    {
        self.passed + self.waiting.len() as u64
    }

    /// Whether one more event can't be numbered.
    pub(crate) fn is_full(&self) -> bool
        ensures { (result ≡ false) ↔ (self.now.passed + length self.now.waiting.events.items + 1 < 2 ^ 64) }
    {
        u64::MAX - self.passed <= self.waiting.len() as u64
    }

    /// Whether a call was put aside that begins at this event or before it.
    pub(crate) fn is_late_by(&self, number: u64) -> bool
        ensures before { result ≡ false → MatchOption self.now.first_late ⊤ (λ first. number < first) }
        ensures late { IsTrue result → ¬ MatchOption self.now.first_late ⊤ (λ first. number < first) }
    {
        match self.first_late {
            Some(first) => first <= number,
            None => false,
        }
    }

    /// How many events it keeps.
    pub(crate) fn kept(&self) -> usize
        requires { (most : ℕ) × (ahead : ℕ) × IsSmallDelay most ahead self.now }
        ensures many { kept_of self.now < 2 ^ 64 → result ≡ kept_of self.now }
        ensures few { (most ahead : ℕ) → IsSmallDelay most ahead self.now → result ≤ 4 * (ahead + 1024) }
    {
        let held = self.waiting.len().saturating_add(self.aside.len());
        held.saturating_add(self.judge.kept())
    }

    /// Whether events that wait show that nothing is lost, if this call begins before them, whose end comes in.
    fn loses_nothing(&self, begun: &StreamEvent, end: &StreamEvent) -> Result<bool, AllocError>
        ensures shows { IfOk result (λ shows. IsTrue shows
            ↔ LosesNothing self.now.limits begun.now end.now self.now.waiting.events.items) }
        ensures range { IfOk result (λ shows. IsTrue shows → AreInRange self.now.limits) }
    {
        let Some(version) = version_issued(self.limits, begun, end) else {
            return Ok(false);
        };
        let (front, back) = self.waiting.events.as_slices();
        let mut events = Vec::from_slice(self.alloc, front)?;
        events.extend_from_slice(back)?;
        Ok(returns_older(self.limits, events.as_slice(), version))
    }

    /// By how many events it is shown that nothing is lost by the calls that began late, once this one does, whose end
    /// comes in.
    fn shown_by(&self, begun: &StreamEvent, end: &StreamEvent) -> Result<Option<u64>, AllocError>
        requires room { self.now.passed + length self.now.waiting.events.items + 1 < 2 ^ 64 }
        ensures shown { IfOk result (IsShownBy self.now begun.now end.now) }
        ensures range { IfOk result (λ shown. IsSome shown → AreInRange self.now.limits) }
    {
        if self.shown.is_none() {
            return Ok(None);
        }
        if self.loses_nothing(begun, end)? {
            Ok(Some(self.count() + 1))
        } else {
            Ok(None)
        }
    }

    /// Begins the call that is aside at this place, whose end comes in.
    fn begin_late(&mut self, place: usize, end: &StreamEvent) -> Result<Option<Verdict>, AllocError>
        requires ready { IsReadyFor end.now self.old }
        requires room { self.old.passed + length self.old.waiting.events.items + 1 < 2 ^ 64 }
        requires few { length self.old.waiting.events.items ≤ self.old.ahead }
        requires there { IsOfLaneAt self.old.aside.items (lane_of end.now) place }
        ensures begun { IfOk result (λ _. (limits : Bounds) (most ahead : ℕ) (run : List Event)
            → IsDelayed limits most ahead run self.old → AreOfLanes (run ++ end.now ∷ [])
            → HasBegun limits most ahead run end.now self.new) }
        ensures told { IfOk result (λ found. self.new.judge.found ≡ found) }
        ensures spared { IfOk result (λ _. IsSpared self.new.aside.items (lane_of end.now)) }
        ensures waiting { IfOk result (λ _. self.new.waiting ≡ self.old.waiting) }
        ensures others { IfOk result (λ _. (self.new.passed ≡ self.old.passed) × (self.new.ahead ≡ self.old.ahead)) }
    {
        let begun = self.aside.remove(place);
        self.shown = self.shown_by(&begun, end)?;
        self.judge.push(&begun)
    }

    /// Begins the call of this event's lane that is aside, if one is.
    fn begin_aside(&mut self, end: &StreamEvent) -> Result<Option<Verdict>, AllocError>
        requires ready { IsReadyFor end.now self.old }
        requires room { self.old.passed + length self.old.waiting.events.items + 1 < 2 ^ 64 }
        requires few { length self.old.waiting.events.items ≤ self.old.ahead }
        ensures begun { IfOk result (λ _. (limits : Bounds) (most ahead : ℕ) (run : List Event)
            → IsDelayed limits most ahead run self.old → AreOfLanes (run ++ end.now ∷ [])
            → HasBegun limits most ahead run end.now self.new) }
        ensures told { IfOk result (λ found. self.new.judge.found ≡ found) }
        ensures spared { IfOk result (λ _. IsSpared self.new.aside.items (lane_of end.now)) }
        ensures waiting { IfOk result (λ _. self.new.waiting ≡ self.old.waiting) }
        ensures others { IfOk result (λ _. (self.new.passed ≡ self.old.passed) × (self.new.ahead ≡ self.old.ahead)) }
    {
        match place_of(self.aside.as_slice(), lane_of(end)) {
            Some(place) => self.begin_late(place, end),
            None => Ok(None),
        }
    }

    /// Whether the first event that waits has to wait on, which is alone or not.
    fn waits_on(&self, alone: bool) -> bool
        ensures { IsWaitingOn self.now alone result }
    {
        if self.waiting.len() > self.ahead {
            return false;
        }
        alone || !self.aside.is_empty()
    }

    /// Hands on the first event that waits, unless it has to wait on.
    fn hand_on(&mut self) -> Result<Handed, AllocError>
        requires ready { IsReady self.old }
        requires some { 0 < length self.old.waiting.events.items }
        requires few { length self.old.waiting.events.items ≤ self.old.ahead + 1 }
        requires room { self.old.passed + length self.old.waiting.events.items < 2 ^ 64 }
        ensures delayed { IfOk result (λ _. (limits : Bounds) (most ahead : ℕ) (run : List Event)
            → IsDelayed limits most ahead run self.old → IsDelayed limits most ahead run self.new) }
        ensures told { IfOk result (λ handed. self.new.judge.found ≡ found_by handed) }
        ensures handed { IfOk result (HasHandedOn self.old self.new) }
    {
        let alone = self.waiting.is_alone_in_front();
        if self.waits_on(alone) {
            return Ok(Handed::Waits);
        }
        let number = self.passed;
        let event = self.waiting.pop();
        self.passed += 1;
        if alone {
            self.aside.extend_from_slice(from_ref(&event))?;
            if self.first_late.is_none() {
                self.first_late = Some(number);
            }
            return Ok(Handed::Passes);
        }
        match self.judge.push(&event)? {
            Some(verdict) => Ok(Handed::Finds(verdict)),
            None => Ok(Handed::Passes),
        }
    }

    /// Hands on the events that needn't wait, until something is found.
    fn hand_all_on(&mut self) -> Result<Option<Verdict>, AllocError>
        requires ready { IsReady self.old }
        requires few { length self.old.waiting.events.items ≤ self.old.ahead + 1 }
        requires room { self.old.passed + length self.old.waiting.events.items < 2 ^ 64 }
        ensures delayed { IfOk result (λ _. (limits : Bounds) (most ahead : ℕ) (run : List Event)
            → IsDelayed limits most ahead run self.old → IsDelayed limits most ahead run self.new) }
        ensures told { IfOk result (λ found. self.new.judge.found ≡ found) }
        ensures few { IfOk result (λ found. (found ≡ None → length self.new.waiting.events.items ≤ self.old.ahead)
            × (length self.new.waiting.events.items ≤ self.old.ahead + 1)) }
    {
        'waiting: while self.waiting.len() > 0 {
            let handed = self.hand_on()?;
            match handed {
                Handed::Waits => return Ok(None),
                Handed::Passes => {}
                Handed::Finds(verdict) => return Ok(Some(verdict)),
            }
        }
        Ok(None)
    }

    /// One more event, which may come there.
    pub(crate) fn push(&mut self, event: &StreamEvent) -> Result<Option<Verdict>, AllocError>
        requires ready { IsReadyFor event.now self.old }
        requires room { self.old.passed + length self.old.waiting.events.items + 1 < 2 ^ 64 }
        requires few { length self.old.waiting.events.items ≤ self.old.ahead }
        ensures delayed { IfOk result (λ _. (limits : Bounds) (most ahead : ℕ) (run : List Event)
            → IsDelayed limits most ahead run self.old → AreOfLanes (run ++ event.now ∷ [])
            → IsDelayed limits most ahead (run ++ event.now ∷ []) self.new) }
        ensures told { IfOk result (λ found. self.new.judge.found ≡ found) }
        ensures few { IfOk result (λ found. (found ≡ None → length self.new.waiting.events.items ≤ self.old.ahead)
            × (length self.new.waiting.events.items ≤ self.old.ahead + 1)) }
    {
        let begun = self.begin_aside(event)?;
        self.waiting.push(event)?;
        match begun {
            Some(verdict) => Ok(Some(verdict)),
            None => self.hand_all_on(),
        }
    }

    /// Whether nothing is lost by the calls that began late, as the events up to this one show.
    fn is_settled(&self, number: u64) -> bool
        ensures { IsTrue result ↔ IsSettled self.now.aside.items self.now.shown number }
    {
        if !self.aside.is_empty() {
            return false;
        }
        match self.shown {
            Some(count) => count.saturating_sub(1) <= number,
            None => false,
        }
    }

    /// What this verdict tells of a run whose first call that was put aside has this number.
    fn finding_by(&self, first: u64, verdict: Verdict) -> LateVerdict
        ensures { IsFindingBy self.now.aside.items self.now.shown first verdict result }
    {
        match verdict {
            Verdict::Explained => LateVerdict::Is(verdict),
            Verdict::Stuck(k) => if k < first || self.is_settled(k) {
                LateVerdict::Is(verdict)
            } else {
                LateVerdict::Late(k)
            },
            Verdict::StuckWithin(k, m) => {
                if m <= first {
                    LateVerdict::Is(verdict)
                } else {
                    LateVerdict::Late(k)
                }
            }
            Verdict::Undecided(k, _) => LateVerdict::Late(k),
            Verdict::Broken(_) => LateVerdict::Is(verdict),
        }
    }

    /// What this verdict tells of the run.
    fn finding_of(&self, verdict: Verdict) -> LateVerdict
        ensures { IsFindingOf self.now.aside.items self.now.shown self.now.first_late verdict result }
    {
        match self.first_late {
            Some(number) => self.finding_by(number, verdict),
            None => LateVerdict::Is(verdict),
        }
    }

    /// What the judge's verdict tells of the run, whatever comes later.
    pub(crate) fn finding(&self, verdict: Verdict) -> LateVerdict
        requires { self.now.judge.found ≡ Some verdict }
        ensures found { (limits : Bounds) (most ahead : ℕ) (run : List Event)
            → IsDelayed limits most ahead run self.now → IsLateFound limits run most ahead result }
        ensures tells { (limits : Bounds) (most ahead : ℕ) (run : List Event)
            → IsDelayed limits most ahead run self.now → KeepsEndLate self.now result }
        ensures there { (limits : Bounds) (most ahead : ℕ) (run : List Event)
            → IsDelayed limits most ahead run self.now → EndsInRunLate run self.now result }
    {
        self.finding_of(verdict)
    }

    /// Gives the judge all that it was not given.
    fn give_all(&mut self) -> Result<(), AllocError>
        requires ready { IsReady self.old }
        requires room { self.old.passed + length self.old.waiting.events.items < 2 ^ 64 }
        ensures given { IfOk result (λ _. (limits : Bounds) (most ahead : ℕ) (run : List Event)
            → IsJudge limits most ahead run self.old.judge
            → IsJudge limits most ahead (run ++ (self.old.aside.items ++ self.old.waiting.events.items)) self.new.judge) }
        ensures kept { IfOk result (λ _. (limits : Bounds) (most ahead : ℕ) (run : List Event)
            → IsJudge limits most ahead run self.old.judge → KeepsBase limits run self.old.judge
            → KeepsBase limits (run ++ (self.old.aside.items ++ self.old.waiting.events.items)) self.new.judge) }
        ensures known { IfOk result (λ _. IsJudgeOfSome self.new.judge) }
        ensures same { IfOk result (λ _. (self.new.aside ≡ self.old.aside) × (self.new.waiting ≡ self.old.waiting)
            × (self.new.first_late ≡ self.old.first_late) × (self.new.shown ≡ self.old.shown)) }
        ensures window { IfOk result (λ _. self.new.ahead ≡ self.old.ahead) }
    {
        give(&mut self.judge, self.aside.as_slice())?;
        let (front, back) = self.waiting.events.as_slices();
        give(&mut self.judge, front)?;
        give(&mut self.judge, back)
    }

    /// What is found of the run if it ends here. The delay is of no more use then.
    pub(crate) fn rest(&mut self) -> Result<LateVerdict, AllocError>
        requires ready { IsReady self.old }
        requires few { length self.old.waiting.events.items ≤ self.old.ahead }
        requires room { self.old.passed + length self.old.waiting.events.items < 2 ^ 64 }
        ensures rest { IfOk result (λ finding. (limits : Bounds) (most ahead : ℕ) (run : List Event)
            → IsDelayed limits most ahead run self.old → IsLateRest limits run most ahead finding) }
        ensures small { IfOk result (λ _. (most ahead : ℕ) → IsSmallDelay most ahead self.old → IsSmallDelay most ahead self.new) }
        ensures keeps { IfOk result (λ _. (limits : Bounds) (most ahead : ℕ) (run : List Event)
            → IsDelayed limits most ahead run self.old → KeepsDelayed limits run self.new) }
        ensures tells { IfOk result (KeepsEndLate self.new) }
        ensures there { IfOk result (λ finding. (limits : Bounds) (most ahead : ℕ) (run : List Event)
            → IsDelayed limits most ahead run self.old → EndsInRunLate run self.new finding) }
        ensures window { IfOk result (λ _. self.new.ahead ≡ self.old.ahead) }
    {
        self.give_all()?;
        let verdict = self.judge.finish()?;
        Ok(self.finding_of(verdict))
    }

    /// What is found of the run if its next event may not come there. The delay is of no more use then.
    pub(crate) fn break_off(&mut self) -> Result<LateVerdict, AllocError>
        requires ready { IsReady self.old }
        requires few { length self.old.waiting.events.items ≤ self.old.ahead }
        requires room { self.old.passed + length self.old.waiting.events.items < 2 ^ 64 }
        ensures broken { IfOk result (λ finding. (limits : Bounds) (most ahead : ℕ) (run : List Event)
            → IsDelayed limits most ahead run self.old → IsLateBreak limits run most ahead finding) }
        ensures small { IfOk result (λ _. (most ahead : ℕ) → IsSmallDelay most ahead self.old → IsSmallDelay most ahead self.new) }
        ensures keeps { IfOk result (λ _. (limits : Bounds) (most ahead : ℕ) (run : List Event)
            → IsDelayed limits most ahead run self.old → KeepsDelayed limits run self.new) }
        ensures tells { IfOk result (KeepsEndLate self.new) }
        ensures there { IfOk result (λ finding. (limits : Bounds) (most ahead : ℕ) (run : List Event)
            → IsDelayed limits most ahead run self.old → EndsInRunLate run self.new finding) }
        ensures window { IfOk result (λ _. self.new.ahead ≡ self.old.ahead) }
    {
        let number = self.count();
        self.give_all()?;
        let rest = self.judge.finish()?;
        let broken = broken_off(rest, number);
        Ok(self.finding_of(broken))
    }
}
