//! Positions by their numbers.
ghost use Rattle.std.specs.Prelude.{◌≡◌, ◌↔◌, IsTrue, OnOk};
ghost use Rattle.std.specs.List.{Contains};
ghost use Rattle.stamp_sets.specs.inner.Layer.{Adds};

use std::alloc::AllocError;

/// The number of the object's state, and as bits the lanes whose open call is in effect, and those whose call is free: it
/// is not in effect, or took effect unseen just before the last one that overwrote.
#[derive(Clone, Copy)]
pub(crate) struct Position {
    pub(crate) state: u64,
    pub(crate) in_effect: u64,
    pub(crate) free: u64,
}

impl Position {
    pub(crate) fn is_same(&self, other: &Position) -> bool
        ensures { IsTrue result ↔ (self.now ≡ other.now) }
    {
        self.state == other.state && self.in_effect == other.in_effect && self.free == other.free
    }
}

pub(crate) fn is_among(list: &[Position], position: &Position) -> bool
    ensures { IsTrue result ↔ Contains list.now position.now }
{
    for other in list {
        if other.is_same(position) {
            return true;
        }
    }
    false
}

/// Adds the position, if it is not there.
pub(crate) fn add(list: &mut Vec<Position>, position: Position) -> Result<(), AllocError>
    ensures { OnOk result (Adds list.old.items list.new.items position) }
{
    if !is_among(list.as_slice(), &position) {
        list.push(position)?;
    }
    Ok(())
}
