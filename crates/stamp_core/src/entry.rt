//! One call of a recorded history.

use crate::call::Call;
use crate::reply::Reply;

/// A call by a thread, with its reply and three positions. Positions are any numbers that rise.
#[derive(Clone, Copy, Debug, PartialEq, Eq)]
pub struct Entry {
    /// The thread, 0 to 63.
    pub thread: u64,
    /// What was called.
    pub call: Call,
    /// What it was answered.
    pub reply: Reply,
    /// Where it began.
    pub first: u64,
    /// Where it took effect: its linearization point.
    pub point: u64,
    /// Where it ended.
    pub last: u64,
}
