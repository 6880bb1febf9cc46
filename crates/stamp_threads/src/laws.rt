//! What holds of any two passes that meet. Each function does nothing; its contract is the law, over
//! the definitions alone.
ghost use Rattle.stamp_threads.specs.Laws.{LockPassesAgree, RecordPassesAgree};

/// Passes of a lock that meet agreed before they met: both knew a part of one legal history. What
/// one knew begins what the other knew, and what it knew of the other's calls are the first of
/// these.
pub fn lock_passes_agree()
    ensures { LockPassesAgree }
{}

/// Passes of a record that meet agreed before they met: both knew a part of one legal log.
pub fn record_passes_agree()
    ensures { RecordPassesAgree }
{}
