//! Windows at the end of an order: the calls that take effect there, behind an opening that brings a new lock to
//! where the window begins.
use crate::candidate::Candidate;
use crate::fault::Fault;
use crate::opening::{State, opening_of, state_after};
use crate::renumbering::{renumbered_call, renumbered_reply};
use crate::versions::versions_before_fault;
use stamp_core::{Entry, Layout};
use stamp_explain::{Observation, Observed, Returned};
use std::alloc::{AllocError, Global};

/// The most versions that an opening makes for the sake of older stamps.
const MOST_OLDER: u64 = 8;

/// The most that it makes where nothing else will do.
const MOST_MADE: u64 = 4096;

/// Whether the stamps of the fault's call keep their versions, also where these are older than the window.
#[derive(Clone, Copy)]
pub(crate) enum OlderStamps {
    /// They do, if they aren't much older.
    Kept,
    /// They become 0.
    Dropped,
    /// They do, though that takes many more calls.
    AllKept,
}

/// How many of these versions are left out, so that the fault's stamps keep theirs; nothing where more than this number
/// would have to be made.
fn versions_kept(layout: Layout, released: u64, fault: &Fault, most: u64) -> Option<u64> {
    let versions = released.min(versions_before_fault(layout, fault));
    if released - versions <= most {
        Some(versions)
    } else {
        None
    }
}

/// How many versions are left out before a window that begins in this state; nothing where older stamps would
/// take too many.
pub(crate) fn versions_left_out(
    layout: Layout,
    state: &State,
    fault: &Fault,
    older: OlderStamps,
) -> Option<u64> {
    let released = if state.word.is_writing() {
        state.word.writes().saturating_sub(1)
    } else {
        state.word.writes()
    };
    match older {
        OlderStamps::Dropped => Some(released),
        OlderStamps::Kept => versions_kept(layout, released, fault, MOST_OLDER),
        OlderStamps::AllKept => versions_kept(layout, released, fault, MOST_MADE),
    }
}

/// The threads of these calls and where they began, in order.
fn beginnings(alloc: Global, order: &[Entry]) -> Result<Vec<(u64, u64)>, AllocError> {
    let mut keys = Vec::with_capacity(alloc, order.len())?;
    for entry in order {
        keys.push((entry.thread, entry.first / 64))?;
    }
    keys.sort()?;
    Ok(keys)
}

fn has_call(beginnings: &[(u64, u64)], call: &Observation) -> bool {
    beginnings.binary_search(&(call.thread, call.first)).is_ok()
}

/// The calls that didn't take effect before the window, nor behind it.
fn calls_from(
    alloc: Global,
    calls: &[Observation],
    gone: &[(u64, u64)],
    late: &[(u64, u64)],
) -> Result<Vec<Observation>, AllocError> {
    let mut left = Vec::new(alloc);
    for call in calls {
        if !has_call(gone, call) && !has_call(late, call) {
            left.push(*call)?;
        }
    }
    Ok(left)
}

/// How the calls of a window are written anew.
#[derive(Clone, Copy)]
struct Anew {
    layout: Layout,
    /// How many versions are left out.
    versions: u64,
    /// The position at which the window begins.
    from: u64,
    /// The position that this becomes.
    to: u64,
}

impl Anew {
    fn position(&self, position: u64) -> u64 {
        position.saturating_sub(self.from).saturating_add(self.to)
    }

    fn returned(&self, returned: &Returned) -> Returned {
        Returned {
            last: self.position(returned.last),
            reply: renumbered_reply(self.layout, self.versions, &returned.reply),
        }
    }

    fn call(&self, call: &Observation) -> Observation {
        let returned = match &call.returned {
            None => None,
            Some(returned) => Some(self.returned(returned)),
        };
        Observation {
            thread: call.thread,
            call: renumbered_call(self.layout, self.versions, &call.call),
            first: self.position(call.first),
            returned,
        }
    }
}

/// Where the first of these calls begins, or at this position, if that comes before.
fn first_of(calls: &[Observation], position: u64) -> u64 {
    let mut first = position;
    for call in calls {
        first = first.min(call.first);
    }
    first
}

/// The calls of a window behind its opening.
pub(crate) fn behind(
    opening: Vec<Observation>,
    calls: &[Observation],
    cut: &Candidate,
    layout: Layout,
    versions: u64,
) -> Result<Candidate, AllocError> {
    let anew = Anew {
        layout,
        versions,
        from: first_of(calls, cut.first),
        to: (opening.len() as u64).saturating_mul(2),
    };
    let mut others = opening;
    for call in calls {
        others.push(anew.call(call))?;
    }
    Ok(Candidate {
        versions,
        others,
        first: anew.position(cut.first),
        last: anew.position(cut.last),
    })
}

/// The calls of a cut that take effect behind those that begin an order, and not behind these late ones, with an
/// opening. Nothing where the call of the fault is one of those before, or there is no such opening.
pub(crate) fn window_behind(
    alloc: Global,
    observed: &Observed,
    fault: &Fault,
    cut: &Candidate,
    gone: &[Entry],
    late: &[Entry],
    older: OlderStamps,
) -> Result<Option<Candidate>, AllocError> {
    let limits = observed.limits();
    let gone_calls = beginnings(alloc, gone)?;
    if has_call(&gone_calls, &fault.call) {
        return Ok(None);
    }
    let Some(state) = state_after(alloc, limits, gone)? else {
        return Ok(None);
    };
    let Some(versions) = versions_left_out(limits.layout(), &state, fault, older) else {
        return Ok(None);
    };
    let Some(opening) = opening_of(alloc, limits, state, versions)? else {
        return Ok(None);
    };
    let late_calls = beginnings(alloc, late)?;
    let calls = calls_from(alloc, &cut.others, &gone_calls, &late_calls)?;
    Ok(Some(behind(opening, &calls, cut, limits.layout(), versions)?))
}
