//! What is found of a run.

/// What is found of a run. Its events are numbered from 0.
#[derive(Clone, Copy, Debug, PartialEq, Eq)]
pub enum Verdict {
    /// The run is explained.
    Explained,
    /// The run is explained before the event with this number, and not with it.
    Stuck(u64),
    /// The run is explained before the event with the first number, and is not explained before that with the second:
    /// it is stuck at the first or between them. Of the run that ends halfway between them more positions than were
    /// allowed are possible just before some event.
    StuckWithin(u64, u64),
    /// The run is explained before the event with this number, which may come there. For this cause it is not judged
    /// further.
    Undecided(u64, Why),
    /// The run is explained before the event with this number, and the event may not come there: its lane is none of
    /// 0 to 63, it begins a call where one is open or ends one where none is, or a content of its call or reply has
    /// more words than one.
    Broken(u64),
}

/// Why a run is not judged further at an event.
#[derive(Clone, Copy, Debug, PartialEq, Eq)]
pub enum Why {
    /// Just before it more positions of the lock, or of the record, than were allowed are possible.
    TooMany,
    /// It begins a call that is open for more events than were allowed.
    TooFar,
}
