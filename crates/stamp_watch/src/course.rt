//! The part of a run that is kept while it is judged.
ghost use Rattle.std.specs.Prelude.{◌≡◌, ◌+◌, ◌^◌, ◌<◌, ◌≤◌, ◌∷◌, ◌++◌, [], ⊤, IfOk, OnOk, IsTrue, List, MatchOption, Option, ℕ, false, length};
ghost use Rattle.stamp_core.specs.Limits.{Bounds};
ghost use Rattle.stamp_runs.specs.declared.event.Event.{Event};
ghost use Rattle.stamp_watch.specs.Verdict.{AreOfLanes};
ghost use Rattle.stamp_watch.specs.Course.{HasRoom, IsCourse, IsRest, IsSmall, KeepsEndOf};
ghost use Rattle.stamp_watch.specs.inner.Course.{HasGoneOn, HasLetGo, IsEndAtFront, IsFresh, IsFront, IsKnown, IsOneLonger, IsOnCourse, IsOnward, IsToldBy, IsUnknown};
ghost use Rattle.stamp_watch.specs.inner.Kept.{StaysKept};

use crate::judge::{Outcome, end_told, find_stuck, judge_rest, step};
use crate::stream_event::{SmallEvent, StreamEvent};
use crate::verdict::{Verdict, Why};
use stamp_core::Limits;
use stamp_sets::{Ending, Progress, Watch};
use std::alloc::{AllocError, Global};
use std::mem::replace;
use std::slice::from_ref;

/// So many events at least are let go of at a time.
const ENOUGH: usize = 1024;

/// A run so far, from a place on: the events behind the first ones, a watch that has seen those first ones, and one
/// that has also seen some of the events. Each call that a watch has seen begin ends among the events, where it is
/// known how: for the first watch among those that the second has seen. So the runs that end at any event that the
/// second watch has not seen can be judged from the first. A third watch, a copy of the second one at an earlier
/// place, takes the place of the first once the ends of its open calls were seen: the events before it are let go of.
#[derive(Drop)]
pub(crate) struct Course {
    pub(crate) alloc: Global,
    pub(crate) base: Watch,
    pub(crate) first: u64,
    pub(crate) events: Vec<StreamEvent>,
    pub(crate) watch: Watch,
    pub(crate) seen: usize,
    /// So many events behind the first one that was not seen are known not to end its call.
    pub(crate) looked: usize,
    pub(crate) spare: Watch,
    /// The spare watch has seen so many of the events.
    pub(crate) place: usize,
    /// Its open calls end among so many events behind those.
    pub(crate) reach: usize,
}

/// What comes of a step.
#[derive(Clone, Copy)]
pub(crate) enum Onward {
    /// None was made: how the call of the next event ends is not known yet.
    Waits,
    /// One more event was seen.
    Steps,
    /// This was found of the run.
    Finds(Verdict),
}

/// Whether it is known how the call ends that begins by this event. Other events are known.
fn is_known(event: &StreamEvent, ends: Ending) -> bool
    ensures known { IsTrue result → IsKnown event.now ends }
    ensures unknown { result ≡ false → IsUnknown event.now ends }
{
    match event.small() {
        SmallEvent::Begins(_, _) => !matches!(ends, Ending::Never),
        SmallEvent::Returns(_, _) => true,
        SmallEvent::Withdraws(_) => true,
    }
}

impl Course {
    /// That of a new lock with these limits, before any event.
    pub(crate) fn new(alloc: Global, limits: Limits) -> Result<Course, AllocError>
        ensures course { IfOk result (λ course. IsCourse limits [] course) }
        ensures small { IfOk result (λ course. (ahead : ℕ) → IsSmall ahead course) }
    {
        let base = Watch::new(alloc, limits)?;
        let watch = base.copied()?;
        let spare = watch.copied()?;
        let events = Vec::new(alloc);
        Ok(Course {
            alloc,
            base,
            first: 0,
            events,
            watch,
            seen: 0,
            looked: 0,
            spare,
            place: 0,
            reach: 0,
        })
    }

    /// How many events the run has so far.
    pub(crate) fn count(&self) -> u64
        requires { HasRoom self.now }
        ensures { result ≡ self.now.first + length self.now.events.items }
    {
        self.first + self.events.len() as u64
    }

    /// One more event, which may come there.
    pub(crate) fn add(&mut self, event: &StreamEvent) -> Result<(), AllocError>
        ensures course { OnOk result ((limits : Bounds) (run : List Event) → IsCourse limits run self.old
            → AreOfLanes (run ++ event.now ∷ []) → IsCourse limits (run ++ event.now ∷ []) self.new) }
        ensures longer { OnOk result (IsOneLonger self.old self.new) }
    {
        self.events.extend_from_slice(from_ref(event))?;
        Ok(())
    }

    /// How the call ends that begins by this event, at the front, as far as is known.
    fn end_at_front(&self, event: &StreamEvent) -> Ending
        requires on { IsOnCourse self.now }
        requires room { HasRoom self.now }
        requires front { IsFront self.now event.now }
        ensures { IsEndAtFront self.now event.now result }
    {
        let from = self.seen + 1 + self.looked;
        let events = self.events.as_slice();
        end_told(event, &events[from..], self.first + from as u64)
    }

    /// Sees this event, at the front, whose call ends so.
    fn see(&mut self, event: &StreamEvent, ends: Ending, most: u64) -> Result<Onward, AllocError>
        requires on { IsOnCourse self.old }
        requires room { HasRoom self.old }
        requires front { IsFront self.old event.now }
        requires told { IsEndAtFront self.old event.now ends }
        requires known { IsKnown event.now ends }
        ensures onward { IfOk result (λ onward. (ahead : ℕ) → IsOnward most ahead self.old self.new onward) }
        ensures small { IfOk result (λ _. (ahead : ℕ) → IsFresh ahead self.old → IsSmall ahead self.new) }
        ensures kept { IfOk result (λ _. StaysKept self.old self.new) }
        ensures tells { IfOk result (IsToldBy self.new) }
    {
        let number = self.first + self.seen as u64;
        let progress = step(&mut self.watch, event, ends, most)?;
        match progress {
            Progress::Going => {
                self.seen += 1;
                self.looked = 0;
                Ok(Onward::Steps)
            }
            Progress::Dead => {
                let verdict = find_stuck(
                    &self.base,
                    self.first,
                    self.events.as_slice(),
                    self.seen,
                    most,
                )?;
                Ok(Onward::Finds(verdict))
            }
            Progress::TooMany => { Ok(Onward::Finds(Verdict::Undecided(number, Why::TooMany))) }
            Progress::Refused => unreachable!(),
        }
    }

    /// Sees one more event, if how its call ends is known. It is looked for among so many events ahead.
    fn step_on(&mut self, most: u64, ahead: usize) -> Result<Onward, AllocError>
        requires on { IsOnCourse self.old }
        requires room { HasRoom self.old }
        requires more { self.old.seen < length self.old.events.items }
        ensures onward { IfOk result (λ onward. IsOnward most ahead self.old self.new onward) }
        ensures small { IfOk result (λ _. IsFresh ahead self.old → IsSmall ahead self.new) }
        ensures kept { IfOk result (λ _. StaysKept self.old self.new) }
        ensures tells { IfOk result (IsToldBy self.new) }
    {
        let events = self.events.as_slice();
        let event = events[self.seen];
        let ends = self.end_at_front(&event);
        if is_known(&event, ends) {
            return self.see(&event, ends, most);
        }
        self.looked = self.events.len() - self.seen - 1;
        if self.looked < ahead {
            return Ok(Onward::Waits);
        }
        let number = self.first + self.seen as u64;
        Ok(Onward::Finds(Verdict::Undecided(number, Why::TooFar)))
    }

    /// Whether the spare watch can be the base, and it is time: enough events were seen behind it, and not fewer than
    /// were not seen.
    fn is_ripe(&self) -> bool
        requires { IsOnCourse self.now }
        ensures ripe { IsTrue result → self.now.place + self.now.reach ≤ self.now.seen }
        ensures unripe { result ≡ false → (ahead : ℕ) → IsSmall ahead self.now → IsFresh ahead self.now }
    {
        if self.seen < self.place + self.reach {
            return false;
        }
        let fresh = self.seen - self.place;
        if fresh < ENOUGH {
            return false;
        }
        self.events.len() - self.seen <= fresh
    }

    /// Makes the spare watch the base, if it can be and it is time, and lets go of the events before it. The spare
    /// watch is a copy of the other one then.
    fn let_go(&mut self) -> Result<(), AllocError>
        requires on { IsOnCourse self.old }
        requires room { HasRoom self.old }
        ensures go { OnOk result (HasLetGo self.old self.new) }
        ensures small { OnOk result ((ahead : ℕ) → IsSmall ahead self.old → IsFresh ahead self.new) }
    {
        if !self.is_ripe() {
            return Ok(());
        }
        let copy = self.watch.copied()?;
        let events = self.events.as_slice();
        let rest = Vec::from_slice(self.alloc, &events[self.place..])?;
        self.base = replace(&mut self.spare, copy);
        self.events = rest;
        self.first += self.place as u64;
        self.seen -= self.place;
        self.place = self.seen;
        self.reach = self.events.len() - self.seen;
        Ok(())
    }

    /// Sees event after event, as far as it is known how their calls end: what is found of the run then, if anything
    /// is. The end of a call is looked for among so many events ahead.
    pub(crate) fn go_on(&mut self, most: u64, ahead: usize) -> Result<Option<Verdict>, AllocError>
        requires on { IsOnCourse self.old }
        requires room { HasRoom self.old }
        ensures found { IfOk result (λ found. HasGoneOn most ahead self.old self.new found) }
        ensures small { IfOk result (λ _. IsSmall ahead self.old → IsSmall ahead self.new) }
        ensures kept { IfOk result (λ _. StaysKept self.old self.new) }
        ensures tells { IfOk result (λ found. MatchOption found ⊤ (KeepsEndOf self.new)) }
    {
        'unseen: while self.seen < self.events.len() {
            self.let_go()?;
            let onward = self.step_on(most, ahead)?;
            match onward {
                Onward::Waits => return Ok(None),
                Onward::Steps => {}
                Onward::Finds(verdict) => return Ok(Some(verdict)),
            }
        }
        Ok(None)
    }

    /// Judges the run as one that ends here: a call that has not ended never ends.
    pub(crate) fn rest(&self, most: u64) -> Result<Verdict, AllocError>
        requires on { IsOnCourse self.now }
        requires room { HasRoom self.now }
        ensures rest { IfOk result (λ verdict. (ahead : Option ℕ) (limits : Bounds) (run : List Event)
            → IsCourse limits run self.now → IsRest limits run most ahead verdict) }
        ensures tells { IfOk result (KeepsEndOf self.now) }
    {
        let start = self.watch.copied()?;
        let number = self.first + self.seen as u64;
        let events = self.events.as_slice();
        let outcome = judge_rest(start, number, &events[self.seen..], most)?;
        match outcome {
            Outcome::Explained => Ok(Verdict::Explained),
            Outcome::Unexplained(k) => {
                let explained = self.seen + k;
                find_stuck(
                    &self.base,
                    self.first,
                    self.events.as_slice(),
                    explained,
                    most,
                )
            }
            Outcome::TooMany(k) => Ok(Verdict::Undecided(number + k as u64, Why::TooMany)),
        }
    }
}
