//! Calls that issue stamps, and which versions these tell.
ghost use Rattle.stamp_watch.specs.Issued.{IssuesOf, IssuesOlder, IssuesStamp, ReturnsOlder};
ghost use Rattle.std.specs.Prelude.{◌↔◌, IsSome, IsTrue, MatchOption, ℕ};
ghost use Rattle.stamp_core.specs.Layout.{units_of};
ghost use Rattle.stamp_core.specs.Limits.{AreInRange};
ghost use Rattle.stamp_core.specs.Stamp.{IsStamp};

use crate::places::{lane_of, place_of};
use crate::stream_event::StreamEvent;
use stamp_core::{Call, Layout, Limits, Reply, StampKind, stamp_kind_in};
use stamp_runs::Event;

/// Whether the call issues a stamp, and takes none.
fn issues_stamp(call: &Call) -> bool
    ensures { IsTrue result ↔ IssuesStamp call.now }
{
    match call {
        Call::WriteLock => true,
        Call::TryWrite => true,
        Call::Optimistic => true,
        Call::TryRead => true,
        Call::ReadLock => true,
        _ => false,
    }
}

/// The version that the number is a stamp of, if it is one.
pub(crate) fn version_of(layout: Layout, stamp: u64) -> Option<u64>
    ensures { MatchOption result ((k : ℕ) → ¬ IsStamp (units_of layout) k stamp)
        (λ k. IsStamp (units_of layout) k stamp) }
{
    match stamp_kind_in(layout, stamp) {
        StampKind::Write(version) => Some(version),
        StampKind::Read(version, _) => Some(version),
        StampKind::Optimistic(version) => Some(version),
        StampKind::Neither => None,
    }
}

/// The version of the stamp that the call issues which begins by the one event and returns by the other.
pub(crate) fn version_issued(limits: Limits, begun: &StreamEvent, end: &StreamEvent) -> Option<u64>
    ensures issued { MatchOption result ((k : ℕ) → ¬ IssuesOf limits k begun.now end.now)
        (λ k. IssuesOf limits k begun.now end.now) }
    ensures range { IsSome result → AreInRange limits }
{
    let Event::Begins(lane, call) = begun.as_event() else {
        return None;
    };
    let Event::Returns(other, Reply::Stamp(stamp)) = end.as_event() else {
        return None;
    };
    if other != lane {
        return None;
    }
    if !issues_stamp(&call) {
        return None;
    }
    version_of(limits.layout(), stamp)
}

/// Whether the call that begins by the event returns among those behind it, with a stamp that it issues, of an older
/// version.
fn issues_older(limits: Limits, begun: &StreamEvent, behind: &[StreamEvent], version: u64) -> bool
    ensures { IsTrue result ↔ IssuesOlder limits version begun.now behind.now }
{
    let Some(place) = place_of(behind, lane_of(begun)) else {
        return false;
    };
    match version_issued(limits, begun, &behind[place]) {
        Some(issued) => issued < version,
        None => false,
    }
}

/// Whether there is such a call among these events.
pub(crate) fn returns_older(limits: Limits, events: &[StreamEvent], version: u64) -> bool
    ensures { IsTrue result ↔ ReturnsOlder limits version events.now }
{
    for (place, event) in events.iter().enumerate() {
        if issues_older(limits, event, &events[place + 1..], version) {
            return true;
        }
    }
    false
}
