//! Laws of the sequential lock. Each function does nothing; its contract is the law, over the
//! definitions alone.
ghost use Rattle.stamp_core.specs.Laws.{StampValidity, HeldIsValid, LegalIsWellFormed, TestsAreExact, DecisionsAreTransitions, OnlyLockingWaits, LinearizedByEntries};

/// In a legal history an issued stamp is valid, after any later calls, exactly where none of them
/// acquired write mode.
pub fn stamp_validity()
    ensures { StampValidity }
{}

/// What is held is valid.
pub fn held_is_valid()
    ensures { HeldIsValid }
{}

/// The events of a legal history are well-formed: one writer or readers alone, at every moment.
pub fn legal_is_well_formed()
    ensures { LegalIsWellFormed }
{}

/// The tests that the transitions go by are the facts that a stamp is valid, matches the writer,
/// or matches readers.
pub fn tests_are_exact()
    ensures { TestsAreExact }
{}

/// The decision on a number is the call's transition, for all events that the number represents.
pub fn decisions_are_transitions()
    ensures { DecisionsAreTransitions }
{}

/// Of the lock's calls `WriteLock` and `ReadLock` alone can wait.
pub fn only_locking_waits()
    ensures { OnlyLockingWaits }
{}

/// Entries are linearized exactly where those before the last are and the last may follow them.
pub fn linearized_by_entries()
    ensures { LinearizedByEntries }
{}
