//! The run that is timed.
ghost use Rattle.std.specs.Prelude.{◌≡◌, ◌<◌, ◌++◌, ◌∷◌, [], length, IfOk, OnOk};

use stamp_core::Call;
use stamp_machines::{Run, RunError, Script, Stepped};
use std::alloc::Global;

/// The call that ended, if one did.
fn ended(stepped: &Stepped) -> Option<Call> {
    match stepped {
        Stepped::Ended(entry) => Some(entry.call),
        _ => None,
    }
}

/// One step, of which only the refusal is reported.
fn advance(run: &mut Run<'_>, thread: u64) -> Result<(), RunError>
    requires { thread < length run.old.script.threads }
    ensures { OnOk result (run.new ≡ record run.old { steps = run.old.steps ++ thread ∷ [] }) }
{
    match run.step(thread) {
        Ok(stepped) => {
            let _ = ended(&stepped);
            Ok(())
        }
        Err(refusal) => Err(refusal),
    }
}

/// Runs a script to its end, one step after the other.
pub fn run_of(alloc: Global, script: &Script) -> Result<Run<'_>, RunError>
    ensures { IfOk result (λ r. r ≡ record { script = script.now; steps = script.now.steps }) }
{
    let mut run = Run::start(alloc, script)?;
    for thread in script.steps() {
        advance(&mut run, *thread)?;
    }
    Ok(run)
}
