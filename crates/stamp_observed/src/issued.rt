//! Which stamps were issued, and which stay where versions are left out.
ghost use Rattle.std.specs.Prelude.{◌≡◌, ◌↔◌, IsTrue, Any};
ghost use Rattle.stamp_core.specs.Layout.{units_of};
ghost use Rattle.stamp_observed.specs.Issued.{IsBy, Issues, StaysAnswered, asks_to_write, writes_by};
ghost use Rattle.stamp_observed.specs.inner.Fault.{HasStamp, IsShownBy, IsStampShown};

use crate::candidate::Candidate;
use crate::fault::Fault;
use crate::renumbering::{renumbered_stamp, stamp_of};
use stamp_core::{Call, Layout, Reply};
use stamp_explain::{Observation, Observed};

/// A stamp that a call takes, and which was issued before.
#[derive(Clone, Copy)]
pub(crate) struct IssuedStamp {
    /// The stamp.
    pub(crate) stamp: u64,
    /// The thread to which it was issued, if that is the one of the call.
    pub(crate) by: Option<u64>,
}

/// Whether the call is one of this thread; or, with none, of any.
pub(crate) fn is_by(by: Option<u64>, thread: u64) -> bool
    ensures { (e : Observation) → e.thread ≡ thread → IsTrue result ↔ IsBy by e }
{
    match by {
        None => true,
        Some(own) => thread == own,
    }
}

/// Whether the call, of this thread or of any, had returned before this position, and was answered this stamp.
fn issues(call: &Observation, by: Option<u64>, position: u64, stamp: u64) -> bool
    ensures { IsTrue result ↔ Issues by position stamp call.now }
{
    if !is_by(by, call.thread) {
        return false;
    }
    match &call.returned {
        None => false,
        Some(returned) => match returned.reply {
            Reply::Stamp(answered) => returned.last < position && answered == stamp,
            _ => false,
        },
    }
}

/// Whether one of these calls, of this thread or of any, which had returned before this position, was answered this
/// stamp.
fn is_issued(calls: &[Observation], by: Option<u64>, position: u64, stamp: u64) -> bool
    ensures { IsTrue result ↔ Any (Issues by position stamp) calls.now }
{
    for call in calls {
        if issues(call, by, position, stamp) {
            return true;
        }
    }
    false
}

/// The stamp that the call takes, if one of these calls, which had returned before it, was answered it: by its own
/// thread, if one of this was. 0 is none.
pub(crate) fn issued_stamp(calls: &[Observation], call: &Observation) -> Option<IssuedStamp>
    ensures { HasStamp calls.now call.now result }
{
    let stamp = stamp_of(&call.call)?;
    if stamp == 0 {
        return None;
    }
    let own = Some(call.thread);
    if is_issued(calls, own, call.first, stamp) {
        return Some(IssuedStamp { stamp, by: own });
    }
    if is_issued(calls, None, call.first, stamp) {
        return Some(IssuedStamp { stamp, by: None });
    }
    None
}

/// Whether the call acquires write mode, if anything.
fn asks_to_write(call: &Call) -> bool
    ensures { result ≡ asks_to_write call.now }
{
    matches!(call, Call::TryWrite | Call::WriteLock | Call::ToWrite(_))
}

/// How many of these calls that acquire write mode, if anything, had begun by this position.
pub(crate) fn writes_by(calls: &[Observation], last: u64) -> u64
    ensures { result ≡ writes_by last calls.now }
{
    let mut writes: u64 = 0;
    for call in calls {
        if call.first <= last && asks_to_write(&call.call) {
            writes += 1;
        }
    }
    writes
}

/// Whether the reply is 0 only where it was, with so many versions left out.
fn stays_answered(layout: Layout, versions: u64, reply: &Reply) -> bool
    ensures { IsTrue result → StaysAnswered (units_of layout) versions reply.now }
{
    match *reply {
        Reply::Stamp(stamp) => stamp == 0 || renumbered_stamp(layout, versions, stamp) != 0,
        _ => true,
    }
}

/// Whether these calls issue the stamp, if there is one, before this position, with so many versions left out.
fn is_stamp_shown(
    layout: Layout,
    versions: u64,
    calls: &[Observation],
    position: u64,
    found: Option<IssuedStamp>,
) -> bool
    ensures { IsTrue result → IsStampShown (units_of layout) versions calls.now position found }
{
    match found {
        None => true,
        Some(issued) => {
            let renumbered = renumbered_stamp(layout, versions, issued.stamp);
            renumbered != 0 && is_issued(calls, issued.by, position, renumbered)
        }
    }
}

/// Whether the history of a candidate shows of the fault what it has to.
pub(crate) fn is_shown_by(
    layout: Layout,
    candidate: &Candidate,
    small: &Observed,
    fault: &Fault,
) -> bool
    ensures { IsTrue result → IsShownBy (units_of layout) candidate.now small.now.entries fault.now }
{
    candidate.versions <= fault.writes
        && stays_answered(layout, candidate.versions, &fault.returned.reply)
        && is_stamp_shown(
            layout,
            candidate.versions,
            small.entries(),
            candidate.first,
            fault.stamp,
        )
}
