//! Whether a candidate is stuck as the run is.
ghost use Rattle.std.specs.Prelude.{IfOk, IfSome, IsTrue, Some, map};
ghost use Rattle.std.specs.List.{All, Contains};
ghost use Rattle.stamp_core.specs.Layout.{units_of};
ghost use Rattle.stamp_explain.specs.Cut.{IsStuck};
ghost use Rattle.stamp_explain.specs.Observed.{IsObserved, IsReturnAt};
ghost use Rattle.stamp_observed.specs.Renumbering.{renumbered_reply};
ghost use Rattle.stamp_observed.specs.Small.{ArePossibleToo, HaveSame, IsStuckAs, renumbered_possible};
ghost use Rattle.stamp_observed.specs.inner.Fault.{IsFaultOf, replies_in};
ghost use Rattle.stamp_observed.specs.inner.Over.{IsOverBy};

use crate::candidate::{Candidate, history_of};
use crate::fault::Fault;
use crate::issued::is_shown_by;
use crate::renumbering::renumbered_replies;
use stamp_core::{Layout, Reply};
use stamp_explain::{Observation, Observed};
use stamp_watch::{ExplainError, PossibleError, judge_history, possible_at};
use std::alloc::{AllocError, Global};

/// A candidate that is stuck as the run is, and its history.
#[derive(Drop)]
pub(crate) struct Found {
    pub(crate) candidate: Candidate,
    pub(crate) small: Observed,
}

fn is_among(replies: &[Reply], reply: &Reply) -> bool
    ensures { IsTrue result → Contains replies.now reply.now }
{
    for other in replies {
        if other.is_same(reply) {
            return true;
        }
    }
    false
}

fn are_among(replies: &[Reply], others: &[Reply]) -> bool
    ensures { IsTrue result → All (Contains replies.now) others.now }
{
    for other in others {
        if !is_among(replies, other) {
            return false;
        }
    }
    true
}

fn have_same(replies: &[Reply], others: &[Reply]) -> bool
    ensures { IsTrue result → HaveSame replies.now others.now }
{
    are_among(others, replies) && are_among(replies, others)
}

/// Whether the history is found to be stuck at the return of this entry.
pub(crate) fn is_stuck_at(
    alloc: Global,
    small: &Observed,
    place: usize,
    most: u64,
) -> Result<bool, AllocError>
    requires { IsObserved small.now }
    ensures { IfOk result (λ found. IsTrue found → IsStuck small.now place) }
{
    match judge_history(alloc, small, most) {
        Err(ExplainError::Stuck(entry)) => Ok(entry == place),
        Err(ExplainError::Memory) => Err(AllocError),
        _ => Ok(false),
    }
}

/// Whether these replies, renumbered, are those that the call of this entry could have had.
fn are_possible(
    alloc: Global,
    layout: Layout,
    versions: u64,
    replies: &[Reply],
    small: &Observed,
    place: usize,
    most: u64,
) -> Result<bool, AllocError>
    requires observed { IsObserved small.now }
    requires returned { IsReturnAt small.now.entries place }
    ensures { IfOk result (λ found. IsTrue found → ArePossibleToo small.now place
        (Some (map (renumbered_reply (units_of layout) versions) replies.now))) }
{
    let wanted = renumbered_replies(alloc, layout, versions, replies)?;
    match possible_at(alloc, small, place, most) {
        Ok(found) => Ok(have_same(wanted.as_slice(), found.as_slice())),
        Err(PossibleError::Undecided) => Ok(false),
        Err(PossibleError::Memory) => Err(AllocError),
    }
}

/// Whether the replies that were possible in the run are, renumbered, those that the call of this entry could
/// have had. Where they are undecided in the run, nothing is asked.
fn has_same_possible(
    alloc: Global,
    layout: Layout,
    versions: u64,
    fault: &Fault,
    small: &Observed,
    place: usize,
    most: u64,
) -> Result<bool, AllocError>
    requires observed { IsObserved small.now }
    requires returned { IsReturnAt small.now.entries place }
    ensures { IfOk result (λ found. IsTrue found → ArePossibleToo small.now place
        (renumbered_possible (units_of layout) versions (replies_in fault.now.possible))) }
{
    match &fault.possible {
        None => Ok(true),
        Some(replies) => are_possible(
            alloc,
            layout,
            versions,
            replies.as_slice(),
            small,
            place,
            most,
        ),
    }
}

/// Whether the call begins no later than at this position, and hasn't returned later.
fn is_over_by(call: &Observation, last: u64) -> bool
    ensures { IsTrue result → IsOverBy last call.now }
{
    match &call.returned {
        None => call.first <= last,
        Some(returned) => call.first <= last && returned.last <= last,
    }
}

/// Whether nothing in the history is later than this position.
fn are_over_by(small: &Observed, last: u64) -> bool
    ensures { IsTrue result → All (IsOverBy last) small.now.entries }
{
    for call in small.entries() {
        if !is_over_by(call, last) {
            return false;
        }
    }
    true
}

/// The candidate with its history, if that is found to be stuck as the run is.
pub(crate) fn found_of(
    alloc: Global,
    observed: &Observed,
    fault: &Fault,
    candidate: Candidate,
    most: u64,
) -> Result<Option<Found>, AllocError>
    requires { IsFaultOf observed.now most fault.now }
    ensures { IfOk result (λ found. IfSome found (λ f. IsStuckAs observed.now most fault.now.entry f.small)) }
{
    let Some(small) = history_of(alloc, observed, fault, &candidate)? else {
        return Ok(None);
    };
    if !are_over_by(&small, candidate.last) {
        return Ok(None);
    }
    let layout = observed.limits().layout();
    if !is_shown_by(layout, &candidate, &small, fault) {
        return Ok(None);
    }
    let place = candidate.others.len();
    if !is_stuck_at(alloc, &small, place, most)? {
        return Ok(None);
    }
    if has_same_possible(
        alloc,
        layout,
        candidate.versions,
        fault,
        &small,
        place,
        most,
    )? {
        Ok(Some(Found { candidate, small }))
    } else {
        Ok(None)
    }
}
