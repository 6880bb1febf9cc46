//! What is found of a run in which calls may be open for long.

use crate::verdict::Verdict;

/// What is found of a run in which calls may be open for long. Its events are numbered from 0.
#[derive(Clone, Copy, Debug, PartialEq, Eq)]
pub enum LateVerdict {
    /// This verdict.
    Is(Verdict),
    /// The run is explained before the event with this number, which may come there, and is not judged further. Calls
    /// were open for all but 64 of the events that are looked at, and begin later. A judge of the run with those
    /// beginnings gave up at this event; or it was stuck there, and of one of the calls that are open so long, be it a
    /// later one, it isn't shown by then that nothing is lost.
    Late(u64),
}
