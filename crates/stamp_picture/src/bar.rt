//! The bar of a call.
ghost use Rattle.std.specs.Prelude.{◌≡◌};
ghost use Rattle.stamp_picture.specs.Bars.{bar_of};

use crate::window::Window;
use stamp_core::{Call, Entry, Reply};

/// A call in its thread's lane.
#[derive(Clone, Copy, Debug, PartialEq, Eq)]
pub struct Bar {
    /// Which entry of the history it is, counted from 0.
    pub entry: u64,
    /// The lane: the thread's number.
    pub lane: u64,
    /// Where the call began.
    pub first: u64,
    /// Where the call took effect.
    pub point: u64,
    /// Where the call ended.
    pub last: u64,
    /// What was called.
    pub call: Call,
    /// What it was answered.
    pub reply: Reply,
    /// Where the part that is drawn begins: at the position of the window that is nearest to the
    /// call's beginning.
    pub begin: u64,
    /// Where the part that is drawn ends.
    pub end: u64,
    /// Whether the point is in the window.
    pub point_shown: bool,
}

impl Bar {
    /// The bar of the entry of this number, in a window.
    pub(crate) fn of(window: Window, number: u64, entry: &Entry) -> Bar
        ensures { result ≡ bar_of window number entry.now }
    {
        Bar {
            entry: number,
            lane: entry.thread,
            first: entry.first,
            point: entry.point,
            last: entry.last,
            call: entry.call,
            reply: entry.reply,
            begin: window.nearest(entry.first.min(entry.last)),
            end: window.nearest(entry.first.max(entry.last)),
            point_shown: window.contains(entry.point),
        }
    }
}
