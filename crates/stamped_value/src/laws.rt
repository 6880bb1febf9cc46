//! What holds of any two handles that meet. The function does nothing; its contract is the law, over
//! the definitions alone.
ghost use Rattle.stamped_value.specs.Met.{HandlesAgree};

/// Handles that meet agreed before they met: both knew a part of one legal history, and the values
/// that one knew begin those that the other knew.
pub fn handles_agree<T>()
    ensures { HandlesAgree T }
{}
