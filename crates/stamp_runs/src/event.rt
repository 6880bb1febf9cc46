//! The events of a run.

use stamp_core::{Call, Reply};

/// An event of a run, with the number of its lane. A lane has one call at a time: it is free again once its call has
/// returned or was withdrawn. The events of a run stand in the order of their tickets.
#[derive(Clone, Copy, Debug, PartialEq, Eq)]
pub enum Event {
    /// A call begins in this lane, which was free.
    Begins(u64, Call),
    /// The call of this lane returns, with this reply.
    Returns(u64, Reply),
    /// The call of this lane ends and took no effect: it was interrupted, threw, or gave up.
    Withdraws(u64),
}
