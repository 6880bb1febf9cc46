//! Laws of checks. Each function does nothing; its contract is the law, over the definitions alone.
ghost use Rattle.stamp_check.specs.CheckLaws.{FaultsAreExact, OneVerdict};

/// What has a fault is not linearized.
pub fn faults_are_exact()
    ensures { FaultsAreExact }
{}

/// There is one judgement of a recorded history at most: `check` answers it.
pub fn one_verdict()
    ensures { OneVerdict }
{}
