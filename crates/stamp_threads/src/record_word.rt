//! The lock word of a record: a lock's word, whose write acquisitions are the puts.
ghost use Rattle.std.specs.Prelude.{◌≡◌, false};
ghost use Rattle.stamp_threads.specs.RecordWord.{word_with};

use stamp_core::{Layout, Word};

/// The word of a new record.
pub fn opening_word(layout: Layout) -> u64
    ensures { result ≡ word_with layout 0 false }
{
    Word::opening_in(layout).bits()
}

/// The word of a record after one put, which got write mode and released it.
#[tactic(auto, using(stamp_core::proofs::TwoLayouts::either_layout))]
pub fn word_after_one_put(layout: Layout) -> u64
    ensures { result ≡ word_with layout 1 false }
{
    let held = opening_word(layout) + layout.writer_unit();
    layout.released(held)
}
