//! How positions were come to: links from each to the one before it, and the events between them.
ghost use Rattle.std.specs.Prelude.{◌≡◌, OnOk, []};
ghost use Rattle.stamp_sets.specs.inner.Layer.{Adds};
ghost use Rattle.stamp_sets.specs.inner.Trail.{AddsBy, HasNoted};

use crate::position::{Position, is_among};
use std::alloc::{AllocError, Global};

/// How a position was come to from another: a call that returns is free no more; the call of a lane takes effect; it
/// does and overwrites; or it is hidden. Calls that read take effect with it.
#[derive(Clone, Copy)]
pub(crate) enum Way {
    Fixes,
    Takes,
    Frees,
    Hides,
}

/// A position was come to from another by the call of this lane.
#[derive(Clone, Copy)]
pub(crate) struct Link {
    pub(crate) way: Way,
    pub(crate) lane: u64,
    pub(crate) from: Position,
    pub(crate) to: Position,
}

/// What a trail has: a call began, was withdrawn, or returned; or a position was come to.
#[derive(Clone, Copy)]
pub(crate) enum Entry {
    Begins(u64),
    Withdraws,
    Returns(u64),
    Comes(Link),
}

/// How the positions of an event were come to, the last at the end; or nothing, if it is off.
#[derive(Drop)]
pub(crate) struct Trail {
    pub(crate) is_on: bool,
    pub(crate) entries: Vec<Entry>,
}

impl Trail {
    /// The trail of an event, before anything is come to. It takes no memory.
    pub(crate) fn new(alloc: Global, is_on: bool) -> Trail
        ensures on { result.is_on ≡ is_on }
        ensures none { result.entries.items ≡ [] }
    {
        Trail {
            is_on,
            entries: Vec::new(alloc),
        }
    }

    /// Takes it down, if it is on.
    #[inline(always)]
    pub(crate) fn note(&mut self, entry: Entry) -> Result<(), AllocError>
        ensures { OnOk result (HasNoted self.old self.new entry) }
    {
        if self.is_on {
            self.entries.push(entry)?;
        }
        Ok(())
    }
}

/// Adds the position that was come to, if it is not there, and takes down how.
pub(crate) fn add_by(
    list: &mut Vec<Position>,
    trail: &mut Trail,
    link: Link,
) -> Result<(), AllocError>
    ensures adds { OnOk result (Adds list.old.items list.new.items link.to) }
    ensures noted { OnOk result (AddsBy link list.old.items list.new.items trail.old trail.new) }
{
    if !is_among(list.as_slice(), &link.to) {
        list.push(link.to)?;
        trail.note(Entry::Comes(link))?;
    }
    Ok(())
}
