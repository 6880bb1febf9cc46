//! Why an observed history was not answered, and the line that says so.

ghost use Rattle.std.specs.Prelude.{◌≡◌, IfOk, IsOkUnless, string_bytes};
ghost use Rattle.stamp_cli.specs.declared.faults.ServeFault.TheVariants.{Memory};
ghost use Rattle.stamped_explain.specs.declared.faults.ExplainFault.TheVariants.{Serve};
ghost use Rattle.stamped_explain.specs.FaultText.{explain_fault_text};

use stamp_cli::{ServeFault, named_fault_line};
use std::alloc::{AllocError, AllocFailed, Global};

/// Why there is no answer.
#[derive(Clone, Copy, Debug, PartialEq, Eq)]
pub enum ExplainFault {
    /// What `stamped` would refuse so, too.
    Serve(ServeFault),
    /// There was no input, not a byte.
    NoInput,
}

impl From<ServeFault> for ExplainFault {
    ghost from_gives = { λ fault e. e ≡ Serve fault };

    fn from(fault: ServeFault) -> ExplainFault {
        ExplainFault::Serve(fault)
    }
}

impl From<AllocError> for ExplainFault {
    ghost from_gives = { λ _ e. e ≡ Serve Memory };

    fn from(_refused: AllocError) -> ExplainFault {
        ExplainFault::Serve(ServeFault::Memory)
    }
}

impl<T: Drop> From<AllocFailed<T>> for ExplainFault {
    ghost from_gives = { λ _ e. e ≡ Serve Memory };

    fn from(_refused: AllocFailed<T>) -> ExplainFault {
        ExplainFault::Serve(ServeFault::Memory)
    }
}

/// The fault's line for standard error, without its line feed. It refuses only for want of memory.
pub fn fault_line(alloc: Global, fault: &ExplainFault) -> Result<String, ServeFault>
    ensures text { IfOk result (λ line. string_bytes line ≡ explain_fault_text fault.now) }
    ensures refused { IsOkUnless result ServeFault.Memory }
{
    match fault {
        ExplainFault::Serve(fault) => named_fault_line(alloc, "stamped_explain", fault),
        ExplainFault::NoInput => Ok(String::from_str(alloc, "stamped_explain: no input")?),
    }
}
