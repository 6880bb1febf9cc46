//! The points of an order, and the recorded history that has them.
ghost use Rattle.std.specs.Prelude.{◌≡◌, ◌≤◌, ◌<◌, [], IfOk};
ghost use Rattle.std.specs.List.{All};
ghost use Rattle.stamp_core.specs.Record.{recorded, IsRecorded};
ghost use Rattle.stamp_explain.specs.Observed.{IsObserved, IsLow};
ghost use Rattle.stamp_explain.specs.Points.{HasPoints, IsLastTold, told_until};
ghost use Rattle.stamp_explain.specs.inner.Points.{IsLinearizationOf, entry_with_point, position_at, earlier_at};

use crate::observed::{Observation, Observed};
use stamp_core::{Entry, Record, Reply};
use std::alloc::{AllocError, Global};

/// A call that took effect: its index in the history, and its reply.
#[derive(Clone, Copy)]
pub(crate) struct OrderedCall {
    pub(crate) index: usize,
    pub(crate) reply: Reply,
}

/// A point in two parts: its position, and how many calls take effect there earlier.
#[derive(Clone, Copy)]
struct PointParts {
    position: u64,
    earlier: u64,
}

/// The point of a call that began at this position: the next one, or the first at that position, if it is later.
fn point_for(next: PointParts, first: u64) -> PointParts
    ensures position { result.position ≡ position_at next.position first }
    ensures earlier { result.earlier ≡ earlier_at next.position next.earlier first }
{
    if next.position < first {
        PointParts {
            position: first,
            earlier: 0,
        }
    } else {
        next
    }
}

/// The last position that is told of a call.
fn last_of(entry: &Observation) -> u64
    requires { IsLow entry.now }
    ensures told { result ≡ told_until entry.now }
    ensures low { result < 288230376151711744 }
{
    match &entry.returned {
        None => entry.first,
        Some(returned) => entry.first.max(returned.last),
    }
}

/// The last position that is told of a history.
fn end_of(entries: &[Observation]) -> u64
    requires { All IsLow entries.now }
    ensures told { IsLastTold entries.now result }
    ensures low { result < 288230376151711744 }
{
    let mut end = 0;
    for entry in entries {
        end = end.max(last_of(entry));
    }
    end
}

/// The entry of a call that takes effect at this point, in a history that ends at this position.
fn entry_of(entry: &Observation, reply: Reply, end: u64, point: u64) -> Entry
    requires low { IsLow entry.now }
    requires end { end < 288230376151711744 }
    ensures { result ≡ entry_with_point entry.now reply end point }
{
    let last = match &entry.returned {
        None => end,
        Some(returned) => returned.last,
    };
    Entry {
        thread: entry.thread,
        call: entry.call,
        reply,
        first: 64 * entry.first,
        point,
        last: 64 * last + 63,
    }
}

/// The entries of the calls of an order, with their points.
fn entries_of(
    alloc: Global,
    observed: &Observed,
    order: &[OrderedCall],
) -> Result<Vec<Entry>, AllocError>
    requires observed { IsObserved observed.now }
    requires order { IsLinearizationOf observed.now order.now }
    ensures points { IfOk result (λ es. HasPoints observed.now
        (recorded observed.now.limits observed.now.width es.items [])) }
    ensures recorded { IfOk result (λ es. IsRecorded (recorded observed.now.limits observed.now.width es.items [])) }
{
    let entries = observed.entries();
    let end = end_of(entries);
    let mut next = PointParts {
        position: 0,
        earlier: 0,
    };
    let mut made = Vec::with_capacity(alloc, order.len())?;
    for call in order {
        let entry = &entries[call.index];
        let parts = point_for(next, entry.first);
        let point = 64 * parts.position + parts.earlier;
        made.push(entry_of(entry, call.reply, end, point))?;
        next = PointParts {
            position: parts.position,
            earlier: parts.earlier + 1,
        };
    }
    Ok(made)
}

/// The recorded history of an order: each call takes effect at the position where it began, or at that of the
/// call before it, if that is later.
pub(crate) fn recorded_with_points(
    alloc: Global,
    observed: &Observed,
    order: &[OrderedCall],
) -> Result<Record, AllocError>
    requires observed { IsObserved observed.now }
    requires order { IsLinearizationOf observed.now order.now }
    ensures { IfOk result (λ made. HasPoints observed.now made) }
{
    let entries = entries_of(alloc, observed, order)?;
    let Some(record) = Record::of(observed.limits(), observed.width(), entries) else {
        unreachable!();
    };
    Ok(record)
}
