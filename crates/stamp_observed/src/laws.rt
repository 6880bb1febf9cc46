//! Laws of the faults of observed histories. Each function does nothing; its contract is the law, over the
//! definitions alone.
ghost use Rattle.stamp_observed.specs.ObservedLaws.{ObservedFaultsAreExact, OneObservedVerdict};

/// What has a fault can't have been observed.
pub fn faults_are_exact()
    ensures { ObservedFaultsAreExact }
{}

/// There is one judgement at most: `fault_of` answers it.
pub fn one_verdict()
    ensures { OneObservedVerdict }
{}
