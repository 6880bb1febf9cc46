//! Stamps.
ghost use Rattle.std.specs.Prelude.{◌≡◌, ◌<◌};
ghost use Rattle.stamp_core.specs.Layout.{units_of};
ghost use Rattle.stamp_core.specs.StampKind.{HasKind};
ghost use Rattle.stamp_threads.specs.MayReply.{stamp_or_zero};

use stamp_core::{Layout, StampKind, stamp_kind_in};
use std::marker::Model;

/// The number that stands for an acquired mode, by which it is validated, converted or released. It
/// is never 0. A stamp can be copied, and used by any thread.
#[derive(Clone, Copy, PartialEq, Eq, Debug)]
pub struct Stamp {
    number: u64,
}

impl Model for Stamp {
    ghost use Rattle.std.specs.Prelude.{ℕ, ◌<◌};

    ghost Value = { ℕ };

    ghost view = { λ s. s.number };

    ghost invariant = { λ s. 0 < s.number };

    ghost inverse = { λ n. record { number = n } };
}

impl Stamp {
    /// The stamp of this number. None for 0, which Java answers where a mode was not acquired.
    #[inline(always)]
    pub fn new(number: u64) -> Option<Stamp>
        ensures { stamp_or_zero result ≡ number }
    {
        if number == 0 {
            None
        } else {
            Some(Stamp { number })
        }
    }

    /// The stamp of a number that is known not to be 0.
    #[inline(always)]
    pub(crate) fn of_some(number: u64) -> Stamp
        requires { 0 < number }
        ensures { result ≡ number }
    {
        Stamp { number }
    }

    /// The number, as Java has it.
    #[inline(always)]
    pub fn number(self) -> u64
        ensures number { result ≡ self }
        ensures some { 0 < result }
    {
        self.number
    }

    /// What it is a stamp of in this layout, by its number. That is a write acquisition, a read
    /// hold or an optimistic read of a lock of this layout, or neither. `StampedLock::new` makes
    /// locks of layout 1.
    pub fn kind_in(self, layout: Layout) -> StampKind
        ensures { HasKind (units_of layout) self result }
    {
        stamp_kind_in(layout, self.number)
    }
}
