//! A recorded history out of its text.

ghost use Rattle.std.specs.Prelude.{◌≡◌, ◌<◌, IfErr, length};
ghost use Rattle.serde_json.specs.View.{view};
ghost use Rattle.stamp_core.specs.Record.{recorded, IsRecorded};
ghost use Rattle.stamp_history.specs.Gives.{Gives};
ghost use Rattle.stamp_history.specs.History.{recorded_in, recorded_of};

use crate::history_fields::{check_format, check_top, read_entries, read_report, read_width};
use crate::json_values::json;
use crate::limit_fields::read_limits;
use crate::read_error::ReadError;
use crate::text_kind::TextKind;
use serde_json::Value;
use stamp_core::{Entry, Limits, Record};
use std::alloc::Global;

/// A recorded history whose parts were found to suit one another.
fn recorded_from(limits: Limits, width: u64, entries: Vec<Entry>, report: Vec<(u64, u64)>) -> Record
    requires { IsRecorded (recorded limits width entries.items report.items) }
    ensures { result ≡ recorded limits width entries.items report.items }
{
    match Record::of_reported(limits, width, entries, report) {
        Some(made) => made,
        None => unreachable!(),
    }
}

#[tactic(auto, unfolding(crate::specs::History::recorded_in))]
fn recorded_in(alloc: Global, value: &Value) -> Result<Record, ReadError>
    ensures { Gives ReadError.Memory (λ found. found) result (recorded_in (view value.now)) }
{
    check_top(value)?;
    check_format(value)?;
    let limits = read_limits(TextKind::History, value)?;
    let width = read_width(value)?;
    let entries = read_entries(alloc, width, value)?;
    let report = read_report(alloc, entries.len(), value)?;
    Ok(recorded_from(limits, width, entries, report))
}

/// Reads a recorded history from its text, or tells the first fault. That is in the order of the
/// fields: top, format, layout, readers, versions, width, entries, each entry, and report. Of a
/// field the kind is tested before the range. With the key `layout` the format is 2, without it 1;
/// the key `report` may be there in both. Errors: 1 `NotJson`; 2 `NotHistory`, with the field of
/// another kind, which is an entry's too where its call does not suit the width; 3 `Limit`, with
/// the field out of range; 4 `Memory`, which may come before these. Nothing is kept after any.
#[tactic(auto, unfolding(crate::specs::History::recorded_of))]
pub fn read_history(alloc: Global, bytes: &[u8]) -> Result<Record, ReadError>
    ensures read { Gives ReadError.Memory (λ found. found) result (recorded_of bytes.now) }
    ensures memory { IfErr result (λ e. e ≡ ReadError.Memory → 0 < length bytes.now) }
{
    let value = json(alloc, bytes)?;
    recorded_in(alloc, &value)
}
