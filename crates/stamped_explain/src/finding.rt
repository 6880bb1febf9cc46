//! What is found of an observed history.

ghost use Rattle.std.specs.Prelude.{IfOk};
ghost use Rattle.stamp_explain.specs.Observed.{IsObserved};
ghost use Rattle.stamp_observed.specs.Suited.{AreSuited};
ghost use Rattle.stamped_explain.specs.Finding.{IsFinding, IsLinearizedIfMade};

use stamp_core::Record;
use stamp_explain::Observed;
use stamp_observed::{ObservedFault, fault_of};
use stamp_watch::{ExplainError, explain};
use std::alloc::{AllocError, Global};

/// What is found of an observed history.
#[derive(Drop)]
pub(crate) enum Finding {
    /// An observer can't have seen it, for this fault.
    Faulty(ObservedFault),
    /// A recorded history that explains it.
    Explained(Record),
    /// It is explained until this entry returns, and no longer.
    Stuck(usize),
    /// No order explains it. It is explained until the first of these entries returns, and no longer once the other
    /// one has.
    StuckWithin(usize, usize),
    /// It is explained until this entry returns. Just before that more positions are possible than are kept.
    Undecided(usize),
}

/// What is found of a history that may be observed.
fn judged(alloc: Global, observed: &Observed, most: u64) -> Result<Finding, AllocError>
    requires { IsObserved observed.now }
    ensures found { IfOk result (λ found. IsFinding observed.now most found) }
    ensures made { IfOk result (λ found. IsLinearizedIfMade found) }
{
    match explain(alloc, observed, most) {
        Ok(record) => Ok(Finding::Explained(record)),
        Err(ExplainError::Stuck(entry)) => Ok(Finding::Stuck(entry)),
        Err(ExplainError::StuckWithin(first, last)) => Ok(Finding::StuckWithin(first, last)),
        Err(ExplainError::Undecided(entry)) => Ok(Finding::Undecided(entry)),
        Err(ExplainError::Memory) => Err(AllocError),
    }
}

/// What is found: a fault of the observation, or else what the judge of its events finds, which keeps at most `most`
/// positions of the lock, and of the record.
pub(crate) fn finding_of(
    alloc: Global,
    observed: &Observed,
    most: u64,
) -> Result<Finding, AllocError>
    requires { AreSuited observed.now }
    ensures found { IfOk result (λ found. IsFinding observed.now most found) }
    ensures made { IfOk result (λ found. IsLinearizedIfMade found) }
{
    match fault_of(alloc, observed)? {
        Some(fault) => Ok(Finding::Faulty(fault)),
        None => judged(alloc, observed, most),
    }
}
