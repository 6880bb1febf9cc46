//! An observed history out of its text.

ghost use Rattle.std.specs.Prelude.{◌≡◌, ◌<◌, IfOk, IfErr, length};
ghost use Rattle.serde_json.specs.View.{view};
ghost use Rattle.stamp_explain.specs.Observed.{observed_as, IsSmall};
ghost use Rattle.stamp_history.specs.Gives.{Gives};
ghost use Rattle.stamp_observed.specs.ObservedReading.{observed_in, observed_of};
ghost use Rattle.stamp_observed.specs.Suited.{AreSuited};

use crate::observed_fields::{check_top, read_entries};
use serde_json::Value;
use stamp_core::Limits;
use stamp_explain::{Observation, Observed};
use stamp_history::{ReadError, TextKind, check_format, json, read_limits, read_width};
use std::alloc::Global;

/// An observed history whose parts were found in their ranges.
fn observed_from(limits: Limits, width: u64, entries: Vec<Observation>) -> Observed
    requires { IsSmall (observed_as limits width entries.items) }
    ensures { result ≡ observed_as limits width entries.items }
{
    match Observed::of(limits, width, entries) {
        Some(made) => made,
        None => unreachable!(),
    }
}

#[tactic(auto, unfolding(crate::specs::ObservedReading::observed_in))]
fn observed_in(alloc: Global, value: &Value) -> Result<Observed, ReadError>
    ensures read { Gives ReadError.Memory (λ found. found) result (observed_in (view value.now)) }
    ensures suited { IfOk result (λ found. AreSuited found) }
{
    check_top(value)?;
    check_format(value)?;
    let limits = read_limits(TextKind::History, value)?;
    let width = read_width(value)?;
    let entries = read_entries(alloc, width, value)?;
    Ok(observed_from(limits, width, entries))
}

/// Reads an observed history from its JSON text, or tells its first fault. The order is that of the
/// fields, which are those of a history without a report: top, format, layout, readers, versions,
/// width, entries and each entry. An entry has the keys `call`, `first`, `last`, `reply` and
/// `thread`, or, where the call is under way, `call`, `first` and `thread`. Its thread is below 64,
/// and its positions are below 2 to the 58. Errors: 1 `NotJson`; 2 `NotHistory`, with the field of
/// another kind, which is an entry's too where its call does not suit the width; 3 `Limit`, with
/// the field out of range; 4 `Memory`, which may come before these. Nothing is kept after any.
#[tactic(auto, unfolding(crate::specs::ObservedReading::observed_of))]
pub fn read_observed(alloc: Global, bytes: &[u8]) -> Result<Observed, ReadError>
    ensures read { Gives ReadError.Memory (λ found. found) result (observed_of bytes.now) }
    ensures suited { IfOk result (λ found. AreSuited found) }
    ensures memory { IfErr result (λ e. e ≡ ReadError.Memory → 0 < length bytes.now) }
{
    let value = json(alloc, bytes)?;
    observed_in(alloc, &value)
}
