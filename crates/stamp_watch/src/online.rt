//! Judging a run while it goes on.
//!
//! A judge is given a run event by event. It keeps a base, which is a watch, the events behind it, and a watch that has
//! seen the first of these. An event is seen once it is known how its call ends, so a watch is told nothing that isn't
//! so, whatever comes later: what was explained stays explained, and the base can judge each run that ends behind what
//! was seen. Where the watch keeps no position, the run is not explained with the events that are known, and the
//! first event that shows it is found from the base, by halving. What is found is final.
//!
//! A copy of the watch, once the ends of its open calls were seen, is the new base, and the events before it are let go
//! of. A call that is open for more events than were allowed ends the judging, so few events are kept.
ghost use Rattle.std.specs.Prelude.{◌≡◌, ◌+◌, ◌*◌, ◌≤◌, ◌↔◌, [], IfOk, IfSome, None, Some, List, ℕ, false, length};
ghost use Rattle.stamp_core.specs.Limits.{Bounds};
ghost use Rattle.stamp_runs.specs.declared.event.Event.{Event};
ghost use Rattle.stamp_watch.specs.Course.{IsRest, KeepsEndOf};
ghost use Rattle.stamp_watch.specs.EndedCall.{IsEndedAt, ended_from};
ghost use Rattle.stamp_watch.specs.Judge.{HasFoundNothing, HasRoomForOne, IsFoundThen, IsGiven, IsJudge, IsJudgeOfSome};
ghost use Rattle.stamp_watch.specs.Possible.{IsKeeping, KeepsBase, KeepsOn};
ghost use Rattle.stamp_watch.specs.Verdict.{IsVerdict};
ghost use Rattle.stamp_watch.specs.inner.Course.{broken_off};
ghost use Rattle.stamp_watch.specs.inner.Judging.{MayComeIn, SetsBusy};

use crate::course::Course;
use crate::ended_call::{EndedCall, ended_by};
use crate::lanes::busy_with;
use crate::stream_event::StreamEvent;
use crate::verdict::Verdict;
use stamp_core::Limits;
use std::alloc::{AllocError, Global};

/// Judges a run of a lock and its record event by event, from a new lock on. An event is looked at once it is known how
/// each call ends that began before it. So the judge keeps the events from the first call on that has not ended, and
/// those that it may judge again. Once it has found that the run is not explained, or that it can't tell, it looks no
/// further. After an `Err` it is of no more use.
#[derive(Drop)]
pub struct Judge {
    pub(crate) most: u64,
    ahead: usize,
    pub(crate) busy: u64,
    pub(crate) course: Course,
    found: Option<Verdict>,
}

/// What is found of a run whose next event, with this number, may not come there.
pub(crate) fn broken_off(rest: Verdict, number: u64) -> Verdict
    ensures { result ≡ broken_off rest number }
{
    match rest {
        Verdict::Explained => Verdict::Broken(number),
        other => other,
    }
}

impl Judge {
    /// The judge of a lock with these limits and its record, before any event. More than `most` positions before an
    /// event are too many to go on, and so is a call that none of `ahead` events behind its beginning ends.
    pub fn new(alloc: Global, limits: Limits, most: u64, ahead: usize) -> Result<Judge, AllocError>
        ensures judge { IfOk result (λ judge. IsJudge limits most ahead [] judge) }
        ensures known { IfOk result (λ judge. IsJudgeOfSome judge) }
        ensures none { IfOk result HasFoundNothing }
        ensures kept { IfOk result (λ judge. KeepsBase limits [] judge) }
        ensures keeping { IfOk result IsKeeping }
    {
        let course = Course::new(alloc, limits)?;
        Ok(Judge {
            most,
            ahead,
            busy: 0,
            course,
            found: None,
        })
    }

    /// Takes an event that may come there, after which these lanes have an open call.
    fn take(&mut self, event: &StreamEvent, busy: u64) -> Result<Option<Verdict>, AllocError>
        requires some { IsJudgeOfSome self.old }
        requires room { HasRoomForOne self.old }
        requires none { self.old.found ≡ None }
        requires may { MayComeIn self.old.busy event.now }
        requires busy { SetsBusy self.old.busy event.now busy }
        ensures found { IfOk result (λ found. IsFoundThen event.now self.old found) }
        ensures given { IfOk result (λ _. IsGiven event.now self.old self.new) }
        ensures known { IfOk result (λ _. IsJudgeOfSome self.new) }
        ensures told { IfOk result (λ found. self.new.found ≡ found) }
        ensures kept { IfOk result (λ _. KeepsOn event.now self.old self.new) }
    {
        self.course.add(event)?;
        self.busy = busy;
        let found = self.course.go_on(self.most, self.ahead)?;
        self.found = found;
        Ok(found)
    }

    /// Ends with an event that may not come there.
    fn break_off(&mut self, event: &StreamEvent) -> Result<Option<Verdict>, AllocError>
        requires some { IsJudgeOfSome self.old }
        requires none { self.old.found ≡ None }
        requires not { ¬ MayComeIn self.old.busy event.now }
        ensures found { IfOk result (λ found. IsFoundThen event.now self.old found) }
        ensures given { IfOk result (λ _. IsGiven event.now self.old self.new) }
        ensures known { IfOk result (λ _. IsJudgeOfSome self.new) }
        ensures told { IfOk result (λ found. self.new.found ≡ found) }
        ensures kept { IfOk result (λ _. KeepsOn event.now self.old self.new) }
    {
        let rest = self.course.rest(self.most)?;
        let verdict = broken_off(rest, self.course.count());
        self.found = Some(verdict);
        Ok(self.found)
    }

    /// Looks at one more event.
    fn look_at(&mut self, event: &StreamEvent) -> Result<Option<Verdict>, AllocError>
        requires some { IsJudgeOfSome self.old }
        requires room { HasRoomForOne self.old }
        requires none { self.old.found ≡ None }
        ensures found { IfOk result (λ found. IsFoundThen event.now self.old found) }
        ensures given { IfOk result (λ _. IsGiven event.now self.old self.new) }
        ensures known { IfOk result (λ _. IsJudgeOfSome self.new) }
        ensures told { IfOk result (λ found. self.new.found ≡ found) }
        ensures kept { IfOk result (λ _. KeepsOn event.now self.old self.new) }
    {
        match busy_with(self.busy, event) {
            Some(busy) => self.take(event, busy),
            None => self.break_off(event),
        }
    }

    /// One more event: what is found of the run, whatever comes later, if anything is.
    pub fn push(&mut self, event: &StreamEvent) -> Result<Option<Verdict>, AllocError>
        requires some { IsJudgeOfSome self.old }
        requires room { HasRoomForOne self.old }
        ensures found { IfOk result (λ found. IsFoundThen event.now self.old found) }
        ensures given { IfOk result (λ _. IsGiven event.now self.old self.new) }
        ensures known { IfOk result (λ _. IsJudgeOfSome self.new) }
        ensures told { IfOk result (λ found. self.new.found ≡ found) }
        ensures kept { IfOk result (λ _. KeepsOn event.now self.old self.new) }
        ensures keeping { IfOk result (λ _. IsKeeping self.old → IsKeeping self.new) }
    {
        match self.found {
            Some(verdict) => Ok(Some(verdict)),
            None => self.look_at(event),
        }
    }

    /// Whether it has found something.
    pub(crate) fn has_found(&self) -> bool
        ensures { (result ≡ false) ↔ (self.now.found ≡ None) }
    {
        self.found.is_some()
    }

    /// How many events it keeps: few, however long the run is.
    pub fn kept(&self) -> usize
        ensures many { result ≡ length self.now.course.events.items }
        ensures few { (limits : Bounds) (most ahead : ℕ) (run : List Event)
            → IsJudge limits most ahead run self.now → result ≤ 3 * (ahead + 1024) }
    {
        self.course.events.len()
    }

    /// Whether it can't number one more event.
    pub fn is_full(&self) -> bool
        ensures { (result ≡ false) ↔ HasRoomForOne self.now }
    {
        u64::MAX - self.course.first <= self.course.events.len() as u64
    }

    /// How many events it was given, where nothing is found of them.
    pub fn count(&self) -> u64
        requires some { IsJudgeOfSome self.now }
        requires none { HasFoundNothing self.now }
        ensures { (limits : Bounds) (most ahead : ℕ) (run : List Event)
            → IsJudge limits most ahead run self.now → result ≡ length run }
    {
        self.course.count()
    }

    /// The call that the event with this number ends, among the events that are kept.
    fn kept_end(&self, number: u64) -> Option<EndedCall>
        ensures { result ≡ ended_from self.now.course.first self.now.course.events.items number }
    {
        let at = number.checked_sub(self.course.first)? as usize;
        let events = self.course.events.as_slice();
        let event = events.get(at)?;
        ended_by(event, &events[..at])
    }

    /// The call that the event with this number ends, if its beginning is kept. It is where the run was found stuck at
    /// the event.
    pub fn ended_at(&self, number: u64) -> Option<EndedCall>
        ensures kept { result ≡ ended_from self.now.course.first self.now.course.events.items number }
        ensures call { (limits : Bounds) (run : List Event) → KeepsBase limits run self.now
            → IfSome result (λ ended. IsEndedAt run number ended) }
    {
        self.kept_end(number)
    }

    /// What is found of the run if it ends here: a call that has not ended never ends.
    pub fn finish(&self) -> Result<Verdict, AllocError>
        requires { IsJudgeOfSome self.now }
        ensures verdict { IfOk result (λ verdict. (limits : Bounds) (most ahead : ℕ) (run : List Event)
            → IsJudge limits most ahead run self.now → IsVerdict limits run most (Some ahead) verdict) }
        ensures rest { IfOk result (λ verdict. (limits : Bounds) (most ahead : ℕ) (run : List Event)
            → IsJudge limits most ahead run self.now → IsRest limits run most (Some ahead) verdict) }
        ensures tells { IfOk result (KeepsEndOf self.now.course) }
    {
        match self.found {
            Some(verdict) => Ok(verdict),
            None => self.course.rest(self.most),
        }
    }
}
