//! A small history that begins where lock and record are in a state, and is stuck at the return of a call.
ghost use Rattle.std.specs.Prelude.{◌+◌, IfOk, IfSome, IsTrue, length};
ghost use Rattle.stamp_core.specs.LockEvent.{write_count};
ghost use Rattle.stamp_core.specs.Word.{HoldsForEvents};
ghost use Rattle.stamp_observed.specs.Behind.{IfSmall, IsFoundBehind, IsStuckWith, IsStuckWithFew};
ghost use Rattle.stamp_observed.specs.inner.Behind.{IsFaultWith, IsStuckBehind, LeavesOutFew};

use crate::candidate::{Candidate, history_of};
use crate::fault::Fault;
use crate::issued::writes_by;
use crate::judging_again::is_stuck_at;
use crate::opening::{State, opening_of};
use crate::small::small_of;
use crate::window::{OlderStamps, behind, versions_left_out};
use stamp_core::Limits;
use stamp_explain::{Observation, Observed};
use std::alloc::{AllocError, Global};
use std::snapshot::Snapshot;

/// A history that is stuck at the return of this entry.
#[derive(Drop)]
struct StuckHistory {
    history: Observed,
    place: usize,
    /// Where that is.
    last: u64,
    /// How many versions are left out.
    versions: u64,
}

/// What was sought and not found: a small history that is stuck where a call returned, behind a state of lock and
/// record. `small_behind` alone makes one.
#[derive(Drop)]
pub struct Sought {
    limits: Limits,
    width: u64,
    state: State,
    /// The other calls.
    others: Snapshot<Vec<Observation>>,
    ended: Observation,
    most: u64,
}

/// How a search for a small history ends.
#[derive(Drop)]
pub enum SearchEnd {
    /// This one is found.
    Small(Observed),
    /// None is.
    NotFound(Sought),
}

/// Whether those that are left out, and those that can be left out once more, are no more versions than this.
fn leaves_out_few(found: &StuckHistory, most: u64) -> bool
    ensures { IsTrue result → LeavesOutFew most found.now }
{
    let writes = writes_by(found.history.entries(), found.last);
    writes <= most && found.versions <= most - writes
}

/// The fault of a call that has returned. Which replies were possible isn't asked.
fn fault_with(ended: &Observation) -> Option<Fault>
    ensures { IfSome result (λ fault. IsFaultWith ended.now fault) }
{
    match ended.returned {
        None => None,
        Some(returned) => Some(Fault {
            entry: 0,
            call: *ended,
            returned,
            possible: None,
            stamp: None,
            writes: 0,
        }),
    }
}

/// These calls and that of the fault, behind calls that bring a new lock to where they begin, but for so many versions.
fn candidate_behind(
    alloc: Global,
    limits: Limits,
    state: State,
    others: &[Observation],
    fault: &Fault,
    versions: u64,
) -> Result<Option<Candidate>, AllocError> {
    let Some(opening) = opening_of(alloc, limits, state, versions)? else {
        return Ok(None);
    };
    let cut = Candidate {
        versions: 0,
        others: Vec::new(alloc),
        first: fault.call.first,
        last: fault.returned.last,
    };
    Ok(Some(behind(opening, others, &cut, limits.layout(), versions)?))
}

/// The history of a candidate, if it is found to be stuck at its last call. The empty history tells limits and width.
fn stuck_as_told(
    alloc: Global,
    none: &Observed,
    fault: &Fault,
    candidate: &Candidate,
    most: u64,
) -> Result<Option<StuckHistory>, AllocError>
    ensures { (ended : Observation) → IsFaultWith ended fault.now
        → IfOk result (λ found. IfSome found (λ stuck. IsStuckBehind none.now.limits none.now.width ended stuck)) }
{
    let Some(history) = history_of(alloc, none, fault, candidate)? else {
        return Ok(None);
    };
    let place = candidate.others.len();
    if is_stuck_at(alloc, &history, place, most)? {
        Ok(Some(StuckHistory {
            history,
            place,
            last: candidate.last,
            versions: candidate.versions,
        }))
    } else {
        Ok(None)
    }
}

/// That of these calls behind an opening without so many versions, if there are so many.
fn stuck_behind(
    alloc: Global,
    none: &Observed,
    state: State,
    others: &[Observation],
    fault: &Fault,
    versions: Option<u64>,
    most: u64,
) -> Result<Option<StuckHistory>, AllocError>
    ensures { (ended : Observation) → IsFaultWith ended fault.now
        → IfOk result (λ found. IfSome found (λ stuck. IsStuckBehind none.now.limits none.now.width ended stuck)) }
{
    let Some(versions) = versions else {
        return Ok(None);
    };
    match candidate_behind(alloc, none.limits(), state, others, fault, versions)? {
        Some(candidate) => stuck_as_told(alloc, none, fault, &candidate, most),
        None => Ok(None),
    }
}

/// The history of these calls behind an opening, if it is found to be stuck at the call of the fault: with the stamps
/// of this call, if they aren't much older, or else without them, or else with them all the same.
fn any_stuck_behind(
    alloc: Global,
    none: &Observed,
    state: State,
    others: &[Observation],
    fault: &Fault,
    most: u64,
) -> Result<Option<StuckHistory>, AllocError>
    ensures { (ended : Observation) → IsFaultWith ended fault.now
        → IfOk result (λ found. IfSome found (λ stuck. IsStuckBehind none.now.limits none.now.width ended stuck)) }
{
    let mut tried = None;
    for older in [
        OlderStamps::Kept,
        OlderStamps::Dropped,
        OlderStamps::AllKept,
    ] {
        let versions = versions_left_out(none.limits().layout(), &state, fault, older);
        if versions == tried {
            continue;
        }
        tried = versions;
        let stuck = stuck_behind(alloc, none, state, others, fault, versions, most)?;
        if stuck.is_some() {
            return Ok(stuck);
        }
    }
    Ok(None)
}

/// The small history, if one is found.
fn small_if_any(
    alloc: Global,
    limits: Limits,
    width: u64,
    state: &State,
    others: &[Observation],
    ended: &Observation,
    most: u64,
) -> Result<Option<Observed>, AllocError>
    ensures stuck { IfOk result (λ found. IfSome found (λ small. IsStuckWith limits width ended.now small)) }
    ensures few { IfOk result (λ found. IfSome found (λ small. HoldsForEvents state.now.word (λ events.
        IsStuckWithFew limits width (write_count events + length others.now + 1) ended.now small))) }
{
    let Some(none) = Observed::of(limits, width, Vec::new(alloc)) else {
        return Ok(None);
    };
    let Some(fault) = fault_with(ended) else {
        return Ok(None);
    };
    let Some(stuck) = any_stuck_behind(alloc, &none, *state, others, &fault, most)? else {
        return Ok(None);
    };
    let versions = state.word.writes().saturating_add(others.len() as u64);
    if !leaves_out_few(&stuck, versions.saturating_add(1)) {
        return Ok(None);
    }
    Ok(Some(small_of(alloc, &stuck.history, stuck.place, most)?))
}

/// A small history that begins where the lock and a record of this width are in this state, and is stuck at the return
/// of a call: it is by the same thread, with the same call and reply, stamps count versions from a later one on, and
/// nothing is later, as `small_of` says. No more versions are left out than the word has write acquisitions, and one
/// for each call here. It is judged by `judge_history`, and made small. It refuses only for want of memory.
///
/// Tested, not proved: when one is found. It is made of this call and others, which needn't be over by then, at positions
/// from there on; calls that bring a new lock and a new record to the state come before them. There is none where the
/// call hasn't returned, where lock and record can't be brought to the state, where the calls are none that an observer
/// may tell, or too many, and where they are explained behind the state, stuck at another return, or undecided, since
/// more than `most` different positions are possible.
pub fn small_behind(
    alloc: Global,
    limits: Limits,
    width: u64,
    state: &State,
    others: Vec<Observation>,
    ended: &Observation,
    most: u64,
) -> Result<SearchEnd, AllocError>
    ensures found { IfOk result (λ found. IsFoundBehind limits width state.now others.items ended.now most found) }
    ensures few { IfOk result (λ found. IfSmall found (λ small. HoldsForEvents state.now.word (λ events.
        IsStuckWithFew limits width (write_count events + length others.items + 1) ended.now small))) }
{
    match small_if_any(alloc, limits, width, state, others.as_slice(), ended, most)? {
        Some(small) => Ok(SearchEnd::Small(small)),
        None => Ok(SearchEnd::NotFound(Sought {
            limits,
            width,
            state: *state,
            others: Snapshot::of(&others),
            ended: *ended,
            most,
        })),
    }
}
