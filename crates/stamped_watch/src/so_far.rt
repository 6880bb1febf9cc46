//! How far a stream is judged, as a line.

ghost use Rattle.std.specs.Prelude.{◌≡◌, IfOk, string_bytes};
ghost use Rattle.stamped_watch.specs.Progress.{progress_text};

use std::alloc::{AllocError, Global};

/// How far a stream is judged.
#[derive(Clone, Copy)]
pub(crate) struct SoFar {
    /// So many calls began and were not withdrawn.
    pub(crate) calls: u64,
    /// Up to this event it is explained.
    pub(crate) explained: u64,
    /// So many calls are open.
    pub(crate) under_way: u64,
}

/// The line of that, with its line feed.
pub(crate) fn progress_line(alloc: Global, so_far: SoFar) -> Result<String, AllocError>
    ensures { IfOk result (λ text. string_bytes text
        ≡ progress_text so_far.calls so_far.explained so_far.under_way) }
{
    let SoFar {
        calls,
        explained,
        under_way,
    } = so_far;
    format!(in alloc;
        "stamped_watch: {calls} calls, explained up to event {explained}, {under_way} open\n"
    )
}
