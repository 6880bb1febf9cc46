//! A script out of its text.

ghost use Rattle.std.specs.Prelude.{◌≡◌, ◌<◌, IfErr, length, map};
ghost use Rattle.stamp_machines.specs.ScriptFault.{thread_calls};
ghost use Rattle.stamp_history.specs.Gives.{Gives};
ghost use Rattle.stamp_history.specs.ScriptReading.{faultless, script_of};

use crate::json_values::json;
use crate::limit_fields::read_limits;
use crate::read_error::ReadError;
use crate::script_fields::{check_top, read_steps, read_threads, read_width};
use crate::text_kind::TextKind;
use stamp_core::Limits;
use stamp_machines::{Script, ScriptCall};
use std::alloc::Global;

/// The script of these parts, or the first way in which they do not suit one another.
fn script_from(
    limits: Limits,
    width: u64,
    threads: Vec<Vec<ScriptCall>>,
    steps: Vec<u64>,
) -> Result<Script, ReadError>
    ensures { result ≡ faultless (record {
      limits = limits;
      width = width;
      threads = map thread_calls threads.items;
      steps = steps.items;
    }) }
{
    match Script::new(limits, width, threads, steps) {
        Ok(script) => Ok(script),
        Err(fault) => Err(ReadError::BadScript(fault)),
    }
}

/// Reads a script from its text, or tells the first fault. That is in the order of the fields: top,
/// layout, readers, versions, width, threads, each call of each thread, steps, and each step. Of a
/// field the kind is tested before the range; the range of the width is the script's. Errors: 1
/// `NotJson`; 5 `NotScript`, with the field of another kind; 3 `Limit`, with the field out of
/// range; 6 `BadScript`, with the first fault of a script whose fields were all read; 4 `Memory`,
/// which may come before these. Nothing is kept after any.
#[tactic(auto, unfolding(crate::specs::ScriptReading::script_of, crate::specs::ScriptReading::script_in))]
pub fn read_script(alloc: Global, bytes: &[u8]) -> Result<Script, ReadError>
    ensures read { Gives ReadError.Memory (λ script. script) result (script_of bytes.now) }
    ensures memory { IfErr result (λ e. e ≡ ReadError.Memory → 0 < length bytes.now) }
{
    let value = json(alloc, bytes)?;
    check_top(&value)?;
    let limits = read_limits(TextKind::Script, &value)?;
    let width = read_width(&value)?;
    // The steps are read first, since the threads use the value up. Their fault comes second.
    let steps = read_steps(alloc, &value);
    let threads = read_threads(alloc, value)?;
    let steps = steps?;
    script_from(limits, width, threads, steps)
}
