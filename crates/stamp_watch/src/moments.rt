//! The moments of an observed history, in their order: a run's events.
ghost use Rattle.std.specs.Prelude.{◌≡◌, IfOk, length};
ghost use Rattle.stamp_watch.specs.AsEvents.{AreMomentsOf, IsEventAt, IsMomentOf};
ghost use Rattle.stamp_watch.specs.inner.AsEvents.{AreListed};

use stamp_explain::{Observation, Observed};
use stamp_runs::Event;
use std::alloc::{AllocError, Global};

/// A call of an observed history begins, or returns.
#[derive(Clone, Copy, Debug, PartialEq, Eq)]
pub struct Moment {
    /// The index of its entry.
    pub entry: usize,
    /// The position at which it begins or returns.
    pub position: u64,
    /// Whether it returns.
    pub is_return: bool,
}

/// The moments of these entries, entry by entry.
fn listed(alloc: Global, entries: &[Observation]) -> Result<Vec<Moment>, AllocError>
    ensures { IfOk result (λ moments. AreListed entries.now (length entries.now) moments.items) }
{
    let mut moments = Vec::new(alloc);
    for (i, entry) in entries.iter().enumerate() {
        moments.push(Moment {
            entry: i,
            position: entry.first,
            is_return: false,
        })?;
        if let Some(returned) = &entry.returned {
            moments.push(Moment {
                entry: i,
                position: returned.last,
                is_return: true,
            })?;
        }
    }
    Ok(moments)
}

/// The moments of an observed history, in their order: where calls begin and return, as the events of a run.
pub fn moments_of(alloc: Global, observed: &Observed) -> Result<Vec<Moment>, AllocError>
    ensures { IfOk result (λ moments. AreMomentsOf observed.now.entries moments.items) }
{
    let mut moments = listed(alloc, observed.entries())?;
    moments.sort_by_key(|moment| (moment.position, moment.is_return, moment.entry))?;
    Ok(moments)
}

/// The event at a moment of an observed history: a call begins there in the lane of its thread, or it returns.
pub fn event_at(observed: &Observed, moment: &Moment) -> Event
    requires { IsMomentOf observed.now.entries moment.now }
    ensures { IsEventAt observed.now.entries moment.now result }
{
    let entry = &observed.entries()[moment.entry];
    match &entry.returned {
        Some(returned) if moment.is_return => Event::Returns(entry.thread, returned.reply),
        _ => Event::Begins(entry.thread, entry.call),
    }
}
