//! Scripts, whose runs ask for memory as they go.
ghost use Rattle.std.specs.Prelude.{◌≡◌, ◌<◌, length};

use crate::outcome::Outcome;
use stamp_core::Entry;
use stamp_history::{check, migrate, read_history, read_script, write_history, write_run};
use stamp_machines::{Completions, Run, RunError, Script, Stepped, run, run_reported};
use std::alloc::Global;

const SCRIPT: &[u8] =
    br#"{"readers":1,"steps":[0,0,1,1],"threads":[[["try_write"]],[["unlock",[0,0]]]],"versions":1,"width":0}"#;

const HISTORY: &[u8] =
    br#"{"entries":[{"call":["try_write"],"first":0,"last":1,"point":1,"reply":384,"thread":0},{"call":["unlock",384],"first":2,"last":3,"point":3,"reply":"done","thread":1}],"format":1,"readers":1,"versions":1,"width":0}"#;

/// Two threads that alternate: readers who come and go, more often than a list begins with room for, and a
/// put and a get of two words.
const LONG_SCRIPT: &[u8] =
    br#"{"readers":127,"steps":[0,1,0,1,0,1,0,1,0,1,0,1,0,1,0,1,0,1,0,1,0,1,0,1,0,1,0,1,0,1,0,1,0,1,0,1,0,1,0,1,0,1,0,1,0,1,0,1],"threads":[[["try_read"],["unlock_read",[0,0]],["try_read"],["unlock_read",[0,2]],["try_read"],["unlock_read",[0,4]],["try_read"],["unlock_read",[0,6]],["try_read"],["unlock_read",[0,8]],["try_read"],["unlock_read",[0,10]]],[["put",[7,9]],["get"]]],"versions":1000,"width":2}"#;

/// Makes a step, and once more where memory was refused.
pub(crate) fn step_again(run: &mut Run, thread: u64) -> Result<Stepped, RunError>
    requires { thread < length run.old.script.threads }
    ensures { run.new.script ≡ run.old.script }
{
    match run.step(thread) {
        Err(RunError::Memory) => run.step(thread),
        other => other,
    }
}

/// What a step reported is what the run has.
fn is_told(run: &Run, stepped: &Stepped) -> bool {
    match stepped {
        Stepped::Ended(entry) => run.finished().last() == Some(entry),
        Stepped::Going | Stepped::Idle => true,
    }
}

/// Steps through the script; the end is that of a run that was never refused.
fn ends_alike(alloc: Global, script: &Script, entries: &[Entry]) -> Result<bool, RunError> {
    let mut run = Run::start(alloc, script)?;
    for thread in script.steps() {
        let stepped = step_again(&mut run, *thread)?;
        if !is_told(&run, &stepped) {
            return Ok(false);
        }
    }
    Ok(run.finished() == entries && run.word().bits() == 256 && run.steps() == script.steps())
}

/// Goes on to the next finished call, and once more where memory was refused.
fn advance_again(completions: &mut Completions) -> Result<(), RunError> {
    match completions.advance() {
        Err(RunError::Memory) => completions.advance(),
        other => other,
    }
}

/// The finished calls are passed on, each once; none is lost where memory was refused.
fn are_handed_on(alloc: Global, script: &Script, entries: &[Entry]) -> Result<bool, RunError> {
    let mut completions = Completions::start(alloc, script)?;
    for entry in entries {
        advance_again(&mut completions)?;
        if completions.get() != Some(entry) {
            return Ok(false);
        }
    }
    advance_again(&mut completions)?;
    Ok(completions.get().is_none())
}

/// Whether a script is run as it should be: with a report and without one, step by step, and with its
/// finished calls passed on. A step that is made again after a refusal is right, and so are finished
/// calls that are asked for again. The put takes five steps, beside two changes of the word by
/// readers.
pub(crate) fn are_runs_alike(alloc: Global) -> Result<bool, Outcome> {
    let script = read_script(alloc, LONG_SCRIPT)?;
    let record = run(alloc, &script)?;
    let reported = run_reported(alloc, &script)?;
    let (entries, report) = (record.entries(), reported.report());
    let is_run = entries.len() == 14 && record.report().is_empty();
    let is_reported = report.len() == 14 && report.contains(&(5, 2));
    let is_stepped = ends_alike(alloc, &script, entries)?;
    let is_handed_on = are_handed_on(alloc, &script, entries)?;
    Ok(is_run && is_reported && is_stepped && is_handed_on)
}

/// Whether the history that a script's text is run to has its text, the run's entries kept or not.
pub(crate) fn is_written(alloc: Global) -> Result<bool, Outcome> {
    let script = read_script(alloc, SCRIPT)?;
    let record = run(alloc, &script)?;
    let text = write_history(alloc, &record)?;
    let run_text = write_run(alloc, &script)?;
    Ok(text.as_slice() == HISTORY && run_text.as_slice() == HISTORY)
}

/// Whether a history's text is judged, read and written again in layout 2.
pub(crate) fn is_judged(alloc: Global) -> Result<bool, Outcome> {
    let history = read_history(alloc, HISTORY)?;
    let is_ok = check(&history) == Ok(2);
    match migrate(history) {
        Ok(migrated) => Ok(is_ok && !write_history(alloc, &migrated)?.is_empty()),
        Err(_) => Ok(false),
    }
}
