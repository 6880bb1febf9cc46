//! The first call of an observed history that an observer can't have seen.

ghost use Rattle.std.specs.Prelude.{◌<◌, IfOk, MatchOption};
ghost use Rattle.std.specs.List.{All, AllPairs};
ghost use Rattle.stamp_explain.specs.Observed.{IsLow, IsInterval, DoNotOverlap};
ghost use Rattle.stamp_observed.specs.Suited.{AreSuited};
ghost use Rattle.stamp_observed.specs.ObservedFault.{IsObservedJudgement};
ghost use Rattle.stamp_observed.specs.inner.ObservedFault.{AreIntervalsTo, IsFirstOverlap};

use crate::spans::none_overlap;
use stamp_explain::{Observation, Observed, is_interval};
use std::alloc::{AllocError, Global};

/// What a call of an observed history breaks.
#[derive(Clone, Copy, Debug, PartialEq, Eq)]
pub enum ObservedWhy {
    /// 1: it was over before it began.
    Interval,
    /// 2: it overlaps a call of its thread that is listed before it. A call that is under way overlaps
    /// each that begins later.
    Overlap,
}

/// The first fault of an observed history.
#[derive(Clone, Copy, Debug, PartialEq, Eq)]
pub struct ObservedFault {
    /// The first entry that breaks something beside those listed before it, counted from 0.
    pub entry: u64,
    /// The first thing that it breaks.
    pub why: ObservedWhy,
}

/// How many calls come before the first that is over before it began.
fn intervals_of(entries: &[Observation]) -> usize
    ensures { AreIntervalsTo entries.now result }
{
    for (i, entry) in entries.iter().enumerate() {
        if !is_interval(entry) {
            return i;
        }
    }
    entries.len()
}

/// The first call that overlaps one of its thread before it.
fn first_overlap(alloc: Global, entries: &[Observation]) -> Result<Option<usize>, AllocError>
    requires low { All IsLow entries.now }
    requires intervals { All IsInterval entries.now }
    requires threads { All (λ e. e.thread < 64) entries.now }
    ensures { IfOk result (λ found. MatchOption found (AllPairs DoNotOverlap entries.now)
        (λ i. IsFirstOverlap entries.now i)) }
{
    if none_overlap(alloc, entries)? {
        return Ok(None);
    }
    // Of the first so many none overlap; of the first so many some do.
    let mut without = 0;
    let mut too_many = entries.len();
    while too_many - without > 1 {
        let middle = without + (too_many - without) / 2;
        if none_overlap(alloc, &entries[..middle])? {
            without = middle;
        } else {
            too_many = middle;
        }
    }
    Ok(Some(without))
}

/// The first entry of an observed history that an observer can't have seen, and why. That is the
/// first, in the order in which they are listed, that is over before it began or that overlaps one
/// of its thread that is listed before it; none where the history may be observed. Threads are
/// below 64 and calls suit the width, as in each history of `read_observed`. It sorts the entries
/// by where they begin, some twenty times where two overlap. It refuses only for want of memory.
pub fn fault_of(alloc: Global, observed: &Observed) -> Result<Option<ObservedFault>, AllocError>
    requires { AreSuited observed.now }
    ensures { IfOk result (λ found. IsObservedJudgement observed.now found) }
{
    let entries = observed.entries();
    let count = intervals_of(entries);
    match first_overlap(alloc, &entries[..count])? {
        Some(i) => Ok(Some(ObservedFault {
            entry: i as u64,
            why: ObservedWhy::Overlap,
        })),
        None if count < entries.len() => Ok(Some(ObservedFault {
            entry: count as u64,
            why: ObservedWhy::Interval,
        })),
        None => Ok(None),
    }
}
