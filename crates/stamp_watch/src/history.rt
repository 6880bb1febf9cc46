//! Judging observed histories, as the runs of their events.
ghost use Rattle.std.specs.Prelude.{◌≡◌, ◌<◌, ◌≤◌, [], IfOk, OnOk, Some, length, slice_get};
ghost use Rattle.stamp_explain.specs.Observed.{IsObserved};
ghost use Rattle.stamp_sets.specs.Watch.{IsUntold, IsWatching};
ghost use Rattle.stamp_watch.specs.AsEvents.{AreMomentsOf};
ghost use Rattle.stamp_watch.specs.History.{IsAnswer, IsJudged};
ghost use Rattle.stamp_watch.specs.inner.History.{IsFirstReturn, IsLastReturn, IsToldRun};
ghost use Rattle.stamp_watch.specs.inner.Judging.{HasSeenAll};
ghost use Rattle.stamp_watch.specs.declared.moments.Moment.{Moment};

use crate::judge::judge_by;
use crate::moments::{Moment, moments_of};
use crate::named_run::{names_for, numbered_run};
use crate::ordering::entries_in_order;
use crate::stream_event::StreamEvent;
use crate::verdict::Verdict;
use stamp_core::Record;
use stamp_explain::{Observed, recorded_in_order};
use stamp_sets::Watch;
use std::alloc::{AllocError, Global};
use std::error::Error;
use std::fmt;

/// Why a history isn't explained. Entries count from 0. Nothing is kept after any of them.
#[derive(Clone, Copy, Debug, PartialEq, Eq)]
pub enum ExplainError {
    /// 1: it is explained until this entry returns, and no longer: no order explains it.
    Stuck(usize),
    /// 2: no order explains it. It is explained until the first of these entries returns, and no longer once the other
    /// one has, which returns later: the first return that no order explains is one of the two, or lies between them.
    /// Which one is undecided, since more positions are possible than are kept.
    StuckWithin(usize, usize),
    /// 3: whether an order explains it isn't known. It is explained until this entry returns, and just before that
    /// more positions are possible than are kept.
    Undecided(usize),
    /// 4: an allocation was refused.
    Memory,
}

impl fmt::Display for ExplainError {
    ghost use Rattle.std.specs.Prelude.{Some};
    ghost use Rattle.stamp_watch.specs.History.{explain_error_text};

    ghost output = { λ e. Some (explain_error_text e) };

    fn fmt<W: fmt::Write>(&self, f: &mut fmt::Formatter<W>) -> fmt::Result {
        match self {
            ExplainError::Stuck(entry) => write!(
                f,
                "no order explains the return of entry {}",
                entry
            ),
            ExplainError::StuckWithin(first, last) => write!(
                f,
                "no order explains the return of entry {}, or a later one up to that of entry {}",
                first, last
            ),
            ExplainError::Undecided(entry) => {
                write!(f, "undecided at the return of entry {}", entry)
            }
            ExplainError::Memory => write!(f, "out of memory"),
        }
    }
}

impl Error for ExplainError {}

impl From<AllocError> for ExplainError {
    ghost use Rattle.stamp_watch.specs.declared.history.ExplainError.TheVariants.{Memory};

    ghost from_gives = { λ _ e. e ≡ Memory };

    fn from(_refused: AllocError) -> ExplainError {
        ExplainError::Memory
    }
}

/// The events at these moments with their contents by number, up to a return that tells a content of another width
/// than the record's: no order explains that.
fn told_at(
    alloc: Global,
    observed: &Observed,
    moments: &[Moment],
) -> Result<Vec<StreamEvent>, AllocError>
    requires observed { IsObserved observed.now }
    requires moments { AreMomentsOf observed.now.entries moments.now }
    ensures { IfOk result (λ told. IsToldRun observed.now moments.now told.items) }
{
    let mut names = names_for(alloc, observed)?;
    numbered_run(alloc, &mut names, observed, moments)
}

/// The place of the first return among these moments from this one on.
fn first_return(moments: &[Moment], from: usize) -> Option<usize>
    ensures { IsFirstReturn moments.now from result }
{
    for place in from..moments.len() {
        if moments[place].is_return {
            return Some(place);
        }
    }
    None
}

/// The place of the last return among these moments before this one.
fn last_return(moments: &[Moment], to: usize) -> Option<usize>
    requires { to ≤ length moments.now }
    ensures { IsLastReturn moments.now to result }
{
    for place in (0..to).rev() {
        if moments[place].is_return {
            return Some(place);
        }
    }
    None
}

/// The entry whose call begins or returns at the moment of this place.
fn entry_at(moments: &[Moment], place: u64) -> usize
    requires { place < length moments.now }
    ensures { (moment : Moment) → slice_get moments.now place ≡ Some moment → result ≡ moment.entry }
{
    moments[place as usize].entry
}

/// Judges the history with these moments, whose run is told by these events, with a watch that has seen none of them.
/// Where it is explained, the watch has seen them all, and is traced if it was.
fn judged(
    alloc: Global,
    observed: &Observed,
    watch: &mut Watch,
    moments: &[Moment],
    told: &[StreamEvent],
    most: u64,
) -> Result<(), ExplainError>
    requires observed { IsObserved observed.now }
    requires moments { AreMomentsOf observed.now.entries moments.now }
    requires told { IsToldRun observed.now moments.now told.now }
    requires watching { IsWatching [] watch.old }
    requires untold { IsUntold watch.old observed.now.limits }
    ensures judged { IsJudged observed.now most result }
    ensures seen { OnOk result (HasSeenAll (length moments.now) told.now watch.old watch.new) }
{
    let verdict = judge_by(alloc, observed.limits(), watch, told, moments.len(), most)?;
    match verdict {
        Verdict::Explained => Ok(()),
        Verdict::Stuck(k) => Err(ExplainError::Stuck(entry_at(moments, k))),
        Verdict::Broken(k) => Err(ExplainError::Stuck(entry_at(moments, k))),
        Verdict::Undecided(k, _) => Err(ExplainError::Undecided(entry_at(moments, k))),
        Verdict::StuckWithin(k, m) => {
            let Some(first) = first_return(moments, k as usize) else {
                unreachable!()
            };
            let Some(last) = last_return(moments, m as usize) else {
                unreachable!()
            };
            if first == last {
                return Err(ExplainError::Stuck(entry_at(moments, first as u64)));
            }
            Err(ExplainError::StuckWithin(
                entry_at(moments, first as u64),
                entry_at(moments, last as u64),
            ))
        }
    }
}

/// Judges an observed history: whether some order of its calls explains it, in which a single-threaded lock and record
/// give its calls these replies. It goes through the history once, event by event, and keeps the positions of lock and
/// record that are possible. Refuses as 1 `Stuck` or 2 `StuckWithin`, where no order explains the history, as 3
/// `Undecided`, where that isn't known, or as 4 `Memory`, where an allocation was refused. It refuses as 2 or 3 only
/// where more than `most` different positions of the lock, or of the record, are possible before some event. A history
/// that isn't explained is judged again up to some twenty times, each time up to an earlier event.
pub fn judge_history(alloc: Global, observed: &Observed, most: u64) -> Result<(), ExplainError>
    requires { IsObserved observed.now }
    ensures { IsJudged observed.now most result }
{
    let moments = moments_of(alloc, observed)?;
    let told = told_at(alloc, observed, moments.as_slice())?;
    let mut watch = Watch::new(alloc, observed.limits())?;
    judged(
        alloc,
        observed,
        &mut watch,
        moments.as_slice(),
        told.as_slice(),
        most,
    )
}

/// Finds an order that explains an observed history, and answers a recorded history of it. In that
/// order a single-threaded lock and record give its calls these replies, and each call has a point.
/// Position p becomes the positions 64 p to 64 p + 63; a call under way that took effect ends with
/// the history, and one that didn't is left out. It keeps how positions were come to, and so
/// needs more memory than `judge_history`. It refuses as that does.
pub fn explain(alloc: Global, observed: &Observed, most: u64) -> Result<Record, ExplainError>
    requires { IsObserved observed.now }
    ensures { IsAnswer observed.now most result }
{
    let moments = moments_of(alloc, observed)?;
    let told = told_at(alloc, observed, moments.as_slice())?;
    let mut watch = Watch::traced(alloc, observed.limits())?;
    judged(
        alloc,
        observed,
        &mut watch,
        moments.as_slice(),
        told.as_slice(),
        most,
    )?;
    let Some(effects) = watch.order(alloc)? else {
        unreachable!()
    };
    let order = entries_in_order(alloc, observed, moments.as_slice(), effects.as_slice())?;
    let made = recorded_in_order(alloc, observed, order.as_slice())?;
    Ok(made)
}
