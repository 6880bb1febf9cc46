//! Calls that don't matter, left out of a small history.
ghost use Rattle.std.specs.Prelude.{IfOk, IfSome};
ghost use Rattle.stamp_observed.specs.Small.{IsStuckAs};
ghost use Rattle.stamp_observed.specs.inner.Fault.{IsFaultOf};

use crate::candidate::Candidate;
use crate::fault::Fault;
use crate::gaps::{Gap, Holder, Sweep};
use crate::judging_again::{Found, found_of};
use crate::renumbering::stamp_of;
use crate::versions::{last_version, version_wanted};
use stamp_core::{Call, Reply};
use stamp_explain::{Observation, Observed};
use std::alloc::{AllocError, Global};

/// About how many calls are judged at most while some are left out.
const MOST_JUDGED: usize = 3_000_000;

/// The candidate with other calls before its last one.
fn with_others(candidate: &Candidate, others: Vec<Observation>) -> Candidate {
    Candidate {
        versions: candidate.versions,
        others,
        first: candidate.first,
        last: candidate.last,
    }
}

/// The candidate without the calls from one place to another.
fn without_part(
    alloc: Global,
    candidate: &Candidate,
    from: usize,
    to: usize,
) -> Result<Candidate, AllocError> {
    let mut others = Vec::new(alloc);
    for (i, call) in candidate.others.iter().enumerate() {
        if i < from || i >= to {
            others.push(*call)?;
        }
    }
    Ok(with_others(candidate, others))
}

/// The stamp that a call was answered, unless that is 0.
fn stamp_answered(call: &Observation) -> Option<u64> {
    match &call.returned {
        None => None,
        Some(returned) => match returned.reply {
            Reply::Stamp(stamp) if stamp != 0 => Some(stamp),
            _ => None,
        },
    }
}

/// Whether the call released the mode whose stamp it took.
fn is_release(call: &Observation) -> bool {
    matches!(
        call.call,
        Call::UnlockWrite(_) | Call::UnlockRead(_) | Call::Unlock(_) | Call::ToOptimistic(_)
    )
}

/// The candidate without the calls at two places.
fn without_two(
    alloc: Global,
    candidate: &Candidate,
    first: usize,
    second: usize,
) -> Result<Candidate, AllocError> {
    let mut others = Vec::new(alloc);
    for (i, call) in candidate.others.iter().enumerate() {
        if i != first && i != second {
            others.push(*call)?;
        }
    }
    Ok(with_others(candidate, others))
}

/// A hold that is followed: who has it, and its stamp.
#[derive(Clone, Copy)]
struct Hold {
    holder: Holder,
    thread: u64,
    stamp: u64,
    /// Whether anyone else has released it.
    is_over: bool,
}

impl Hold {
    /// Whether the call may be one of the hold.
    fn may_have(&self, call: &Observation) -> bool {
        match self.holder {
            Holder::Thread => call.thread == self.thread,
            Holder::Anyone => !self.is_over,
        }
    }

    /// Whether the call is one of the hold, which then has the stamp that this was answered.
    fn follows(&mut self, call: &Observation) -> bool {
        if !self.may_have(call) || stamp_of(&call.call) != Some(self.stamp) {
            return false;
        }
        if let Some(stamp) = stamp_answered(call) {
            self.stamp = stamp;
        }
        self.is_over = is_release(call);
        true
    }
}

/// The candidate without the call at this place and those behind it that are made with the stamp that it got.
/// Nothing where it got none.
fn without_hold(
    alloc: Global,
    candidate: &Candidate,
    place: usize,
    holder: Holder,
) -> Result<Option<Candidate>, AllocError> {
    let Some(begun) = candidate.others.get(place) else {
        return Ok(None);
    };
    let Some(stamp) = stamp_answered(begun) else {
        return Ok(None);
    };
    let mut hold = Hold {
        holder,
        thread: begun.thread,
        stamp,
        is_over: false,
    };
    let mut others = Vec::new(alloc);
    for (i, call) in candidate.others.iter().enumerate() {
        if i < place || (i > place && !hold.follows(call)) {
            others.push(*call)?;
        }
    }
    Ok(Some(with_others(candidate, others)))
}

/// The candidate without these calls; nothing where there are none such.
fn without_gap(
    alloc: Global,
    candidate: &Candidate,
    gap: Gap,
) -> Result<Option<Candidate>, AllocError> {
    match gap {
        Gap::Part(from, to) => Ok(Some(without_part(alloc, candidate, from, to)?)),
        Gap::Hold(place, holder) => without_hold(alloc, candidate, place, holder),
        Gap::Two(first, second) => Ok(Some(without_two(alloc, candidate, first, second)?)),
    }
}

/// The version to which a small history has to come, if what was found comes to it.
fn version_kept(observed: &Observed, fault: &Fault, found: &Found) -> u64 {
    let layout = observed.limits().layout();
    version_wanted(layout, fault, found.candidate.versions).min(last_version(
        layout,
        found.candidate.others.as_slice(),
    ))
}

/// The candidate with its history, if that is found to be stuck as the run is, and comes to this version: so the
/// stamp that the fault's call takes is one of the past, and not of what is to come, and a stale one is stale there.
fn fewer_found(
    alloc: Global,
    observed: &Observed,
    fault: &Fault,
    candidate: Candidate,
    version: u64,
    most: u64,
) -> Result<Option<Found>, AllocError>
    requires { IsFaultOf observed.now most fault.now }
    ensures { IfOk result (λ found. IfSome found (λ f. IsStuckAs observed.now most fault.now.entry f.small)) }
{
    let layout = observed.limits().layout();
    if last_version(layout, candidate.others.as_slice()) < version {
        return Ok(None);
    }
    found_of(alloc, observed, fault, candidate, most)
}

/// What is found without these calls, if that is stuck as the run is.
fn found_without(
    alloc: Global,
    observed: &Observed,
    fault: &Fault,
    found: &Found,
    gap: Gap,
    version: u64,
    most: u64,
) -> Result<Option<Found>, AllocError>
    requires { IsFaultOf observed.now most fault.now }
    ensures { IfOk result (λ found. IfSome found (λ f. IsStuckAs observed.now most fault.now.entry f.small)) }
{
    match without_gap(alloc, &found.candidate, gap)? {
        Some(tried) => fewer_found(alloc, observed, fault, tried, version, most),
        None => Ok(None),
    }
}

/// Leaves out calls of what was found, as long as that is stuck as the run is: until no call can be left out alone,
/// no hold with all its calls, and no two calls, where they aren't too many; or until about 3,000,000 calls have been
/// judged.
pub(crate) fn without_more(
    alloc: Global,
    observed: &Observed,
    fault: &Fault,
    mut found: Found,
    most: u64,
) -> Result<Found, AllocError>
    requires fault { IsFaultOf observed.now most fault.now }
    requires found { IsStuckAs observed.now most fault.now.entry found.small }
    ensures { IfOk result (λ f. IsStuckAs observed.now most fault.now.entry f.small) }
{
    let version = version_kept(observed, fault, &found);
    let mut sweep = Sweep::over(found.candidate.others.len());
    let mut judged: usize = 0;
    for _ in 0..MOST_JUDGED {
        let calls = found.candidate.others.len();
        judged = judged.saturating_add(calls);
        let Some(gap) = sweep.next_gap(calls) else {
            return Ok(found);
        };
        if judged > MOST_JUDGED {
            return Ok(found);
        }
        if let Some(smaller) = found_without(alloc, observed, fault, &found, gap, version, most)? {
            found = smaller;
            sweep.left_out();
        }
    }
    Ok(found)
}
