//! The results of reads or writes, one after the other.

ghost use Rattle.std.specs.Prelude.{◌≡◌, ◌++◌, ◌∷◌, []};
ghost use Rattle.stamp_cli.specs.KeptResults.{results_in};

use std::io;
use std::snapshot::Snapshot;

/// The results so far. No memory holds them: only contracts see a snapshot.
#[derive(Drop)]
pub(crate) enum KeptResults {
    /// There was none.
    Empty,
    /// Those before the last, and the last.
    After(Snapshot<KeptResults>, Snapshot<io::Result<usize>>),
}

impl KeptResults {
    /// Adds a result.
    pub(crate) fn push(&mut self, last: &io::Result<usize>)
        ensures { results_in self.new ≡ results_in self.old ++ last.now ∷ [] }
    {
        *self = KeptResults::After(Snapshot::of(self), Snapshot::of(last));
    }
}
