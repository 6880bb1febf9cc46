//! What a pass knows. No value of these types is made: they stand in contracts and proofs alone.
use std::collections::LinkedList;

/// An entry of the one history: what the pass of this name made. Of a lock it is a call with its reply.
pub struct LogEntry<E> {
    /// The name of the pass.
    pub name: LinkedList<u64>,
    /// What it made.
    pub made: E,
}

/// The view of a pass: what it knows, beside its name. The name is a root and a path. The first pass
/// has the root 0, and each that enters the next one; their paths are empty. The j-th split of a pass,
/// counted from 0, gives one of the same root, whose path has j more at its end.
pub struct PassView<E, P> {
    /// The root, and the path.
    pub name: LinkedList<u64>,
    /// How often it was split.
    pub splits: u64,
    /// What it knows: a beginning of the one history.
    pub known: LinkedList<LogEntry<E>>,
    /// The calls that it made itself.
    pub own: LinkedList<E>,
    /// Where it stands in what it is making; nothing for a lock, whose calls take effect by one step.
    pub phase: P,
    /// What the accesses of its calls found at the lock word, the oldest first. So contracts can
    /// say how many of these a call keeps. How often it looks at a record's words, or at the lock
    /// word by no pass, is the code's, as is an access that changes neither the word nor what a
    /// pass knows.
    pub found: LinkedList<u64>,
}
