//! The fields of a replay beside its limits, each over one JSON value.

ghost use Rattle.std.specs.Prelude.{◌≡◌};
ghost use Rattle.std.specs.Result.{result_map_both};
ghost use Rattle.serde_json.specs.View.{view, items_view};
ghost use Rattle.stamp_core.specs.LockCall.{call_as};
ghost use Rattle.stamp_history.specs.Gives.{Gives};
ghost use Rattle.stamp_history.specs.JsonReading.{each};
ghost use Rattle.stamp_history.specs.ReplayFields as field;
ghost use Rattle.stamp_history.specs.inner.Replay.{calls_as};

use crate::field::Field;
use crate::json_values::{has_keys, list_under};
use crate::lock_calls::lock_call_of;
use crate::read_error::ReadError;
use crate::text_kind::TextKind;
use serde_json::Value;
use stamp_core::LockCall;
use std::alloc::Global;

/// The most calls of a replay.
const MOST_REPLAYED: usize = 640_000;

/// Tests which keys the object has.
pub(crate) fn check_top(value: &Value) -> Result<(), ReadError>
    ensures { result ≡ field.top (view value.now) }
{
    if has_keys(value, &["calls", "readers", "versions"])
        || has_keys(value, &["calls", "layout", "readers", "versions"])
    {
        Ok(())
    } else {
        Err(TextKind::Replay.mistake(Field::Top))
    }
}

#[tactic(auto, using(crate::proofs::ItemLengths::lengths))]
fn listed_calls(value: &Value) -> Result<&[Value], ReadError>
    ensures { result_map_both (λ list. items_view list.now) (λ e. e) result
        ≡ field.listed_calls (view value.now) }
{
    match list_under(value, "calls") {
        None => Err(TextKind::Replay.mistake(Field::Calls)),
        Some(list) if list.len() > MOST_REPLAYED => Err(ReadError::Limit(Field::Calls)),
        Some(list) => Ok(list.as_slice()),
    }
}

fn call_at(index: u64, value: &Value) -> Result<LockCall, ReadError>
    ensures { result_map_both call_as (λ e. e) result ≡ field.call_at index (view value.now) }
{
    lock_call_of(value).ok_or(TextKind::Replay.mistake(Field::Call(index)))
}

fn calls_in(alloc: Global, list: &[Value]) -> Result<Vec<LockCall>, ReadError>
    ensures { Gives ReadError.Memory calls_as result
        (each field.call_at 0 (items_view list.now)) }
{
    let mut calls = Vec::with_capacity(alloc, list.len())?;
    for (index, value) in list.iter().enumerate() {
        calls.push(call_at(index as u64, value)?)?;
    }
    Ok(calls)
}

/// The calls under the key `calls`.
#[tactic(auto, unfolding(crate::specs::ReplayFields::calls))]
pub(crate) fn read_calls(alloc: Global, value: &Value) -> Result<Vec<LockCall>, ReadError>
    ensures { Gives ReadError.Memory calls_as result (field.calls (view value.now)) }
{
    calls_in(alloc, listed_calls(value)?)
}
