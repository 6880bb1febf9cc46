//! A script from its first step to its last.
ghost use Rattle.std.specs.Prelude.{◌≡◌, All, IfOk, OnErr};
ghost use Rattle.stamp_core.specs.Linearized.{IsLinearized};
ghost use Rattle.stamp_machines.specs.RecordedRun.{recorded_run, reported_run};

use crate::running::{Run, RunError};
use crate::script::Script;
use crate::tally::Tally;
use stamp_core::Record;
use std::alloc::Global;

/// Runs a script to its end. The recorded history has an entry for each finished call, in the order
/// of their last steps, which are their points, and no report. The one error is 6 `Memory`, after
/// which nothing is kept.
pub fn run(alloc: Global, script: &Script) -> Result<Record, RunError>
    ensures record { IfOk result (λ r. r ≡ recorded_run script.now) }
    ensures linearized { IfOk result (λ r. IsLinearized r) }
    ensures points { IfOk result (λ r. All (λ e. e.point ≡ e.last) r.entries) }
    ensures memory { OnErr result (result ≡ Err RunError.Memory) }
{
    let mut run = Run::start(alloc, script)?;
    for thread in script.steps() {
        run.make_step(*thread)?;
    }
    Ok(run.into_record())
}

/// As `run`, with a report of what each call took. It has a pair for each entry: its own steps, and
/// the steps of others between its first and its last that changed the lock's word (and not those
/// that changed the record's own lock).
pub fn run_reported(alloc: Global, script: &Script) -> Result<Record, RunError>
    ensures record { IfOk result (λ r. r ≡ reported_run script.now) }
    ensures linearized { IfOk result (λ r. IsLinearized r) }
    ensures points { IfOk result (λ r. All (λ e. e.point ≡ e.last) r.entries) }
    ensures memory { OnErr result (result ≡ Err RunError.Memory) }
{
    let mut run = Run::start(alloc, script)?;
    let mut tally = Tally::new(alloc, script.thread_count())?;
    for thread in script.steps() {
        run.step_counted(*thread, &mut tally)?;
    }
    Ok(run.into_reported(tally.report))
}
