//! What machines are made for.
ghost use Rattle.std.specs.Prelude.{◌≡◌};
ghost use Rattle.stamp_machines.specs.MachineState.{record_limits};

use stamp_core::Limits;

/// The limits of the lock, and the width of the record in words, 0 for none.
#[derive(Clone, Copy)]
pub struct Shape {
    /// Those of the lock, and not of the record's own.
    pub limits: Limits,
    /// 0 to 16.
    pub width: u64,
}

impl Shape {
    /// How many words the record has.
    pub(crate) fn word_count(&self) -> usize
        ensures { result ≡ self.now.width }
    {
        self.width as usize
    }

    /// The limits of the record's own lock: the widest of the layout.
    pub(crate) fn record_limits(&self) -> Limits
        ensures { result ≡ record_limits self.now }
    {
        Limits::widest(self.limits.layout())
    }
}
