//! What a pass of a record knows. But for the shape, no value of these types is made: they stand in
//! contracts and proofs alone.
ghost use Rattle.std.specs.Prelude.{◌≡◌};

use crate::pass_view::PassView;
use stamp_core::{Call, KnownLayout, Limits, Reply};
use std::collections::LinkedList;
use std::snapshot::Snapshot;

/// The limits of a record's lock word, of which the readers don't matter, and its width in words. It
/// is not the `Shape` of `stamp_machines`, whose limits are those of the lock that stands beside the
/// record, and whose width is 0 where there is no record.
#[derive(Clone, Copy)]
pub struct RecordShape {
    /// The limits: their layout and their versions count.
    pub limits: Limits,
    /// How many words there are, 1 to 4,096.
    pub width: usize,
}

impl RecordShape {
    /// The shape itself. Where `L` fixes the layout, the compiler sees it.
    #[inline(always)]
    pub(crate) fn seen<L: KnownLayout>(self) -> RecordShape
        requires { L.seen self.limits.layout ≡ self.limits.layout }
        ensures { result ≡ self }
    {
        RecordShape {
            limits: self.limits.seen::<L>(),
            width: self.width,
        }
    }
}

/// What the rule of a record reads: its shape, the content that its first pass put, if it did, and
/// whether passes may enter.
#[derive(Drop)]
pub struct RecordKey {
    /// The record's shape.
    pub shape: RecordShape,
    /// The lock word and the words behind it where its first pass put these when it was made; none for a
    /// record that begins with zeros.
    pub first: Option<Snapshot<Vec<u64>>>,
    /// Whether passes may enter by a shared reference.
    pub enterable: bool,
}

/// What a pass made, in the one history of a record.
pub enum RecordEvent {
    /// A write mark: it got write mode.
    Mark,
    /// A call, with its reply.
    Called(Call, Reply),
}

/// Where a pass stands in what it is making.
pub enum RecordPhase {
    /// Between two calls.
    Idle,
    /// It has write mode, and stores its words.
    Writing {
        /// How many puts were made before it got write mode.
        puts: u64,
        /// The words that it puts.
        words: LinkedList<u64>,
        /// How many of them it has stored, from the first on.
        stored: u64,
    },
    /// It found nobody in write mode, and loads the words.
    Loading {
        /// How many puts were made when its first load found the lock word.
        puts: u64,
        /// The words that it has loaded so far, in their order.
        words: LinkedList<u64>,
    },
}

/// The passes that a seat of the table holds: one, and two while they meet.
pub type RecordPasses = LinkedList<PassView<RecordEvent, RecordPhase>>;
