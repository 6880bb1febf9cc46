//! What lock and record were at a moment.

use stamp_core::Words;

/// Who holds the lock.
#[derive(Clone, Copy, Debug, PartialEq, Eq)]
pub enum Mode {
    /// Nobody.
    Free,
    /// So many readers.
    Reading(u64),
    /// A writer.
    Writing,
}

/// What lock and record are after some calls.
#[derive(Clone, Copy, Debug, PartialEq, Eq)]
pub struct State {
    /// Who holds the lock.
    pub mode: Mode,
    /// How often write mode was acquired so far.
    pub version: u64,
    /// What the record holds, if there is one.
    pub content: Option<Words>,
}

/// What lock and record are from a point on.
#[derive(Clone, Copy, Debug, PartialEq, Eq)]
pub struct Moment {
    /// Where a call took effect.
    pub point: u64,
    /// What that call left.
    pub state: State,
}
