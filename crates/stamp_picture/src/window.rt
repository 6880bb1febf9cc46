//! The part of a history that is drawn.
ghost use Rattle.std.specs.Prelude.{◌≡◌};
ghost use Rattle.stamp_picture.specs.Window.{overlaps, meets, contains, nearest, precedes};

use stamp_core::Entry;

/// Positions, from the first to the last that is drawn.
#[derive(Clone, Copy, Debug, PartialEq, Eq)]
pub struct Window {
    /// The first position.
    pub from: u64,
    /// The last position.
    pub to: u64,
}

impl Window {
    /// The window of all positions.
    pub fn all() -> Window
        ensures { result ≡ record { from = 0; to = 18446744073709551615 } }
    {
        Window {
            from: 0,
            to: u64::MAX,
        }
    }

    /// Whether the entry's interval has a position in the window.
    fn overlaps(&self, entry: &Entry) -> bool
        ensures { result ≡ overlaps self.now entry.now }
    {
        self.from.max(entry.first.min(entry.last)) <= self.to.min(entry.first.max(entry.last))
    }

    /// Whether the entry is drawn.
    pub(crate) fn meets(&self, entry: &Entry) -> bool
        ensures { result ≡ meets self.now entry.now }
    {
        self.overlaps(entry) || self.contains(entry.point)
    }

    /// The position of the window that is nearest to this one.
    pub(crate) fn nearest(&self, position: u64) -> u64
        ensures { result ≡ nearest self.now position }
    {
        self.from.max(position.min(self.to))
    }

    /// Whether the point lies in the window.
    pub(crate) fn contains(&self, point: u64) -> bool
        ensures { result ≡ contains self.now point }
    {
        self.from <= point && point <= self.to
    }

    /// Whether the point lies before the window.
    pub(crate) fn is_after(&self, point: u64) -> bool
        ensures { result ≡ precedes point self.now }
    {
        point < self.from
    }
}
