//! A history up to the return of a call.
ghost use Rattle.std.specs.Prelude.{◌≡◌, IfOk};
ghost use Rattle.stamp_explain.specs.Cut.{cut_entry, seen_at};
ghost use Rattle.stamp_explain.specs.Observed.{IsObserved};

use crate::observed::{Observation, Observed};
use std::alloc::{AllocError, Global};

/// The call as it stands there: one that returns later is under way.
fn cut_entry(entry: &Observation, last: u64, bound: usize, i: usize) -> Observation
    ensures { result ≡ cut_entry last bound i entry.now }
{
    let Some(returned) = &entry.returned else {
        return *entry;
    };
    if returned.last < last || (returned.last == last && i < bound) {
        return *entry;
    }
    Observation {
        thread: entry.thread,
        call: entry.call,
        first: entry.first,
        returned: None,
    }
}

/// What an observer has seen at this position: what returned before it, and of the calls that returned
/// at it those listed below the bound; what begins later isn't there.
pub(crate) fn seen_at(
    alloc: Global,
    observed: &Observed,
    last: u64,
    bound: usize,
) -> Result<Observed, AllocError>
    requires { IsObserved observed.now }
    ensures { IfOk result (λ seen. seen ≡ seen_at last bound observed.now) }
{
    let mut seen = Vec::new(alloc);
    for (i, entry) in observed.entries().iter().enumerate() {
        if entry.first <= last {
            seen.push(cut_entry(entry, last, bound, i))?;
        }
    }
    match Observed::of(observed.limits(), observed.width(), seen) {
        Some(made) => Ok(made),
        None => unreachable!(),
    }
}
