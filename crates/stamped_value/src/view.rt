//! What a seat of a guarded value knows and holds. No value of these types is made: they stand in contracts and
//! proofs alone.
use stamp_core::{Call, Reply};
use stamp_threads::PassView;
use std::collections::LinkedList;

/// The mode that a seat holds, by the stamp that it was answered.
pub enum Held {
    /// None.
    Free,
    /// Read mode.
    Reading(u64),
    /// Write mode.
    Writing(u64),
}

/// What a seat knows of a guarded value.
pub struct ValueView<T> {
    /// Its pass at the lock: its name, what it knows of the one history, and the calls that it made itself.
    pub pass: PassView<(Call, Reply), ()>,
    /// The values that it knows of, the first value first. Each release of write mode leaves one more.
    pub values: LinkedList<T>,
    /// The mode that it holds.
    pub held: Held,
}
