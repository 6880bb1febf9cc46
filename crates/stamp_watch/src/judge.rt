//! Judging runs that are in memory.
ghost use Rattle.std.specs.Prelude.{◌≡◌, ◌+◌, ◌^◌, ◌<◌, [], ◌∷◌, ◌++◌, IfOk, List, None, Option, ℕ, length};
ghost use Rattle.stamp_core.specs.Limits.{Bounds};
ghost use Rattle.stamp_runs.specs.declared.event.Event.{Event};
ghost use Rattle.stamp_sets.specs.Tracing.{StaysTraced};
ghost use Rattle.stamp_sets.specs.Watch.{IsTaken, IsUntold, IsWatched, IsWatching};
ghost use Rattle.stamp_watch.specs.Verdict.{AreOfLanes, IsVerdict};
ghost use Rattle.stamp_watch.specs.Judging.{IsFound, IsJudging};
ghost use Rattle.stamp_watch.specs.inner.Judging.{AreTaken, GivesUpAmong, HasSeen, HasSeenAll, IsManyAtReturn, StopsAtReturn, IsBase, IsEndTold, IsJudgingOn, IsOutcome, IsStep, IsStuckAmong, IsStuckBehind, IsStuckFrom};

use crate::ahead::end_ahead;
use crate::lanes::in_form;
use crate::stream_event::{SmallEvent, StreamEvent};
use crate::verdict::{Verdict, Why};
use stamp_core::Limits;
use stamp_runs::Event;
use stamp_sets::{Ending, Progress, Watch};
use std::alloc::{AllocError, Global};

/// What is found of events behind others, which are all in form.
#[derive(Clone, Copy)]
pub(crate) enum Outcome {
    /// They are explained.
    Explained,
    /// They are not explained. So many of them are.
    Unexplained(usize),
    /// So many of them are explained, and behind those too many positions are possible.
    TooMany(usize),
}

/// How the call that begins by this event ends among those ahead, the first of which has this number. Of another
/// event it says nothing.
pub(crate) fn end_told(event: &StreamEvent, ahead: &[StreamEvent], first: u64) -> Ending
    requires { first + length ahead.now < 2 ^ 64 }
    ensures { IsEndTold event.now first ahead.now result }
{
    match event.small() {
        SmallEvent::Begins(lane, _) => end_ahead(ahead, lane as u64, first),
        SmallEvent::Returns(_, _) => Ending::Never,
        SmallEvent::Withdraws(_) => Ending::Never,
    }
}

/// One more event of a run. Of a call that begins the watch is told that it ends so.
pub(crate) fn step(
    watch: &mut Watch,
    event: &StreamEvent,
    ends: Ending,
    most: u64,
) -> Result<Progress, AllocError>
    requires { IsWatched watch.old }
    ensures step { IfOk result (λ progress. (limits : Bounds) (n : ℕ) (past ahead : List Event)
        → IsEndTold event.now (n + 1) ahead ends
        → IsJudging limits n past (event.now ∷ ahead) watch.old
        → IsStep limits n past event.now ahead most watch.new progress) }
    ensures at_return { IfOk result (λ progress. IsManyAtReturn event.now progress) }
    ensures traced { IfOk result (λ progress. IsTaken progress → StaysTraced event.now watch.old watch.new) }
{
    match event.small() {
        SmallEvent::Begins(lane, call) => watch.begins(lane as u64, call, ends),
        SmallEvent::Returns(lane, reply) => watch.returns(lane as u64, reply, most),
        SmallEvent::Withdraws(lane) => watch.withdraws(lane as u64),
    }
}

/// Judges the events that come behind those that the watch has seen: a call that does not end among them never ends.
/// Where they are explained, the watch has seen them, too, and is traced if it was.
pub(crate) fn judge_on(
    watch: &mut Watch,
    first: u64,
    events: &[StreamEvent],
    most: u64,
) -> Result<Outcome, AllocError>
    requires room { first + length events.now < 2 ^ 64 }
    requires judging { IsJudgingOn first events.now watch.old }
    ensures outcome { IfOk result (λ outcome. (limits : Bounds) (past : List Event)
        → IsJudging limits first past events.now watch.old
        → IsOutcome limits first past events.now most outcome) }
    ensures at_return { IfOk result (λ outcome. StopsAtReturn events.now outcome) }
    ensures seen { IfOk result (λ outcome. outcome ≡ Outcome.Explained
        → HasSeen first events.now watch.old watch.new) }
{
    for (k, event) in events.iter().enumerate() {
        let ends = end_told(event, &events[k + 1..], first + k as u64 + 1);
        let progress = step(watch, event, ends, most)?;
        match progress {
            Progress::Going => {}
            Progress::Dead => return Ok(Outcome::Unexplained(k)),
            Progress::TooMany => return Ok(Outcome::TooMany(k)),
            Progress::Refused => unreachable!(),
        }
    }
    Ok(Outcome::Explained)
}

/// The same from a watch that is no longer needed.
pub(crate) fn judge_rest(
    start: Watch,
    first: u64,
    events: &[StreamEvent],
    most: u64,
) -> Result<Outcome, AllocError>
    requires room { first + length events.now < 2 ^ 64 }
    requires judging { IsJudgingOn first events.now start }
    ensures outcome { IfOk result (λ outcome. (limits : Bounds) (past : List Event)
        → IsJudging limits first past events.now start
        → IsOutcome limits first past events.now most outcome) }
    ensures at_return { IfOk result (λ outcome. StopsAtReturn events.now outcome) }
{
    let mut watch = start;
    judge_on(&mut watch, first, events, most)
}

/// Finds where events that are not explained are stuck, by judging shorter and shorter runs from this watch on. So
/// many of the events are explained.
pub(crate) fn find_stuck(
    base: &Watch,
    first: u64,
    events: &[StreamEvent],
    explained: usize,
    most: u64,
) -> Result<Verdict, AllocError>
    requires within { explained < length events.now }
    requires room { first + length events.now < 2 ^ 64 }
    requires stuck { IsStuckFrom first explained events.now base.now }
    ensures found { IfOk result (λ verdict. (ahead : Option ℕ) (limits : Bounds) (past : List Event)
        → IsBase limits first explained past events.now base.now
        → IsStuckBehind limits past events.now explained
        → IsFound limits (past ++ events.now) most ahead verdict) }
    ensures among { IfOk result (IsStuckAmong (first + explained) (first + length events.now)) }
{
    let mut low = explained;
    let mut high = events.len();
    while low + 1 < high {
        let middle = low + (high - low) / 2;
        let start = base.copied()?;
        let outcome = judge_rest(start, first, &events[..middle], most)?;
        match outcome {
            Outcome::Explained => low = middle,
            Outcome::Unexplained(_) => high = middle,
            Outcome::TooMany(_) => {
                return Ok(Verdict::StuckWithin(first + low as u64, first + high as u64));
            }
        }
    }
    Ok(Verdict::Stuck(first + low as u64))
}

/// Judges the events, from the first on, that are in form, of a run of so many, with a watch that has seen none. Where
/// they are explained, the watch has seen them, and is traced if it was.
pub(crate) fn judge_by(
    alloc: Global,
    limits: Limits,
    watch: &mut Watch,
    taken: &[StreamEvent],
    many: usize,
    most: u64,
) -> Result<Verdict, AllocError>
    requires lanes { AreOfLanes taken.now }
    requires watching { IsWatching [] watch.old }
    requires untold { IsUntold watch.old limits }
    ensures verdict { IfOk result (λ verdict. (run : List Event) → AreTaken run taken.now
        → length run ≡ many → IsVerdict limits run most None verdict) }
    ensures among { IfOk result (λ verdict. GivesUpAmong taken.now verdict) }
    ensures seen { IfOk result (λ verdict. verdict ≡ Verdict.Explained
        → HasSeenAll many taken.now watch.old watch.new) }
{
    let outcome = judge_on(watch, 0, taken, most)?;
    match outcome {
        Outcome::Explained => {
            if taken.len() == many {
                Ok(Verdict::Explained)
            } else {
                Ok(Verdict::Broken(taken.len() as u64))
            }
        }
        Outcome::Unexplained(k) => {
            let base = Watch::new(alloc, limits)?;
            find_stuck(&base, 0, taken, k, most)
        }
        Outcome::TooMany(k) => Ok(Verdict::Undecided(k as u64, Why::TooMany)),
    }
}

/// The same with a watch of its own.
pub(crate) fn judge_taken(
    alloc: Global,
    limits: Limits,
    taken: &[StreamEvent],
    many: usize,
    most: u64,
) -> Result<Verdict, AllocError>
    requires { AreOfLanes taken.now }
    ensures verdict { IfOk result (λ verdict. (run : List Event) → AreTaken run taken.now
        → length run ≡ many → IsVerdict limits run most None verdict) }
    ensures among { IfOk result (λ verdict. GivesUpAmong taken.now verdict) }
{
    let mut watch = Watch::new(alloc, limits)?;
    judge_by(alloc, limits, &mut watch, taken, many, most)
}

/// Judges a run of a lock and its record that is in memory, from a new lock on: whether it is explained, and if not, at
/// which event it is stuck. More than `most` positions before an event are too many to go on. A run that is not
/// explained may be judged again up to 64 times, each time up to an earlier event. A call may be open for as long as it
/// likes.
pub fn judge_run(
    alloc: Global,
    limits: Limits,
    events: &[Event],
    most: u64,
) -> Result<Verdict, AllocError>
    ensures { IfOk result (IsVerdict limits events.now most None) }
{
    let taken = in_form(alloc, events)?;
    judge_taken(alloc, limits, taken.as_slice(), events.len(), most)
}
