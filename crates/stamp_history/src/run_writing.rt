//! The text of the history that a script is run to, written while it runs.

ghost use Rattle.std.specs.Prelude.{◌≡◌, ◌++◌, OnOk, IfOk, IsOkUnless};
ghost use Rattle.serde_json.specs.Written.{compact_text};
ghost use Rattle.stamp_machines.specs.RecordedRun.{recorded_run};
ghost use Rattle.stamp_history.specs.HistoryText.{entries_data, history_data, history_text};

use crate::history_writing::{push_after_entries, push_entry};
use crate::json_text::{push_comma_if, push_text};
use crate::read_error::ReadError;
use stamp_machines::{Completions, RunError, Script};
use std::alloc::{AllocError, Global};

/// A refusal of `Completions`, which is for want of memory alone.
fn refused(error: RunError) -> AllocError
    requires { error ≡ RunError.Memory }
{
    match error {
        RunError::Memory => AllocError,
        RunError::TooManySteps => unreachable!(),
    }
}

/// Appends the list of the entries to come.
fn push_completions(text: &mut Vec<u8>, completions: &mut Completions) -> Result<(), AllocError>
    ensures { OnOk result (text.new.items
        ≡ text.old.items ++ compact_text (entries_data completions.old.rest)) }
{
    push_text(text, "[")?;
    let mut is_later = false;
    loop {
        completions.advance().map_err(refused)?;
        let Some(entry) = completions.get() else {
            break;
        };
        push_comma_if(text, is_later)?;
        push_entry(text, entry)?;
        is_later = true;
    }
    push_text(text, "]")?;
    Ok(())
}

fn push_run(text: &mut Vec<u8>, alloc: Global, script: &Script) -> Result<(), AllocError>
    ensures { OnOk result (text.new.items
        ≡ text.old.items ++ compact_text (history_data (recorded_run script.now))) }
{
    push_text(text, "{\"entries\":")?;
    let mut completions = Completions::start(alloc, script).map_err(refused)?;
    push_completions(text, &mut completions)?;
    push_after_entries(text, &script.limits(), script.width(), &[])?;
    Ok(())
}

/// Runs a script and writes its history, as `run` and `write_history` do, without keeping it. Each
/// entry is written when its call ends. The one error is 4 `Memory`, after which nothing is kept.
#[tactic(auto, unfolding(crate::specs::HistoryText::history_text))]
pub fn write_run(alloc: Global, script: &Script) -> Result<Vec<u8>, ReadError>
    ensures text { IfOk result (λ text. text.items ≡ history_text (recorded_run script.now)) }
    ensures refused { IsOkUnless result ReadError.Memory }
{
    let mut text = Vec::new(alloc);
    push_run(&mut text, alloc, script)?;
    Ok(text)
}
