//! What may be a small history.
ghost use Rattle.std.specs.Prelude.{◌≡◌, IfOk, IfSome, IsTrue};
ghost use Rattle.stamp_core.specs.Layout.{units_of};
ghost use Rattle.stamp_explain.specs.Observed.{IsObserved, observed_as};
ghost use Rattle.stamp_observed.specs.Suited.{AreSuited};
ghost use Rattle.stamp_observed.specs.inner.Candidate.{stand_in, history_of};

use crate::fault::Fault;
use crate::judging::fault_of;
use crate::renumbering::{renumbered_call, renumbered_reply};
use stamp_core::{Layout, MOST_THREADS};
use stamp_explain::{Observation, Observed, Returned};
use std::alloc::{AllocError, Global};

/// What may be a small history: some calls, and behind them one that stands for that of the fault.
#[derive(Drop)]
pub(crate) struct Candidate {
    /// How many versions its stamps have less than those of the run.
    pub(crate) versions: u64,
    /// The calls before the last one.
    pub(crate) others: Vec<Observation>,
    /// Where the last one begins.
    pub(crate) first: u64,
    /// Where the last one returns.
    pub(crate) last: u64,
}

/// Whether threads are below 64, and the calls suit the width.
fn are_suited(observed: &Observed) -> bool
    ensures { IsTrue result → AreSuited observed.now }
{
    for entry in observed.entries() {
        if entry.thread >= MOST_THREADS || !entry.call.suits(observed.width()) {
            return false;
        }
    }
    true
}

/// The history of these calls, under the limits of another one, if an observer may tell it.
pub(crate) fn history_of_calls(
    alloc: Global,
    other: &Observed,
    calls: Vec<Observation>,
) -> Result<Option<Observed>, AllocError>
    ensures observed { IfOk result (λ made. IfSome made (λ h. IsObserved h)) }
    ensures same { IfOk result (λ made. IfSome made (λ h. h
        ≡ observed_as other.now.limits other.now.width calls.items)) }
{
    let Some(made) = Observed::of(other.limits(), other.width(), calls) else {
        return Ok(None);
    };
    if !are_suited(&made) {
        return Ok(None);
    }
    match fault_of(alloc, &made)? {
        None => Ok(Some(made)),
        Some(_) => Ok(None),
    }
}

/// The call that stands for that of the fault.
fn stand_in(layout: Layout, fault: &Fault, candidate: &Candidate) -> Observation
    ensures { result ≡ stand_in (units_of layout) fault.now candidate.now }
{
    Observation {
        thread: fault.call.thread,
        call: renumbered_call(layout, candidate.versions, &fault.call.call),
        first: candidate.first,
        returned: Some(Returned {
            last: candidate.last,
            reply: renumbered_reply(layout, candidate.versions, &fault.returned.reply),
        }),
    }
}

/// The history of a candidate, if an observer may tell it.
pub(crate) fn history_of(
    alloc: Global,
    observed: &Observed,
    fault: &Fault,
    candidate: &Candidate,
) -> Result<Option<Observed>, AllocError>
    ensures observed { IfOk result (λ made. IfSome made (λ h. IsObserved h)) }
    ensures same { IfOk result (λ made. IfSome made (λ h. h
        ≡ history_of observed.now fault.now candidate.now)) }
{
    let mut calls = candidate.others.to_vec(alloc)?;
    calls.push(stand_in(observed.limits().layout(), fault, candidate))?;
    history_of_calls(alloc, observed, calls)
}
