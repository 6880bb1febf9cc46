//! The fields of an observed history that a history has not, each over one JSON value.

ghost use Rattle.std.specs.Prelude.{◌≡◌, option_and_then};
ghost use Rattle.serde_json.specs.View.{view, items_view};
ghost use Rattle.stamp_history.specs.Gives.{Gives};
ghost use Rattle.stamp_history.specs.JsonReading.{each};
ghost use Rattle.stamp_observed.specs.ObservationValue as call;
ghost use Rattle.stamp_observed.specs.ObservedFields as field;

use crate::observations::observation_of;
use serde_json::Value;
use stamp_core::{Call, MOST_THREADS, Reply};
use stamp_explain::{END_OF_POSITIONS, Observation, Returned};
use stamp_history::{Field, ReadError, has_keys, listed_entries};
use std::alloc::Global;

/// Tests which keys the object has.
pub(crate) fn check_top(value: &Value) -> Result<(), ReadError>
    ensures { result ≡ field.top (view value.now) }
{
    let first = ["entries", "format", "readers", "versions", "width"];
    let second = [
        "entries", "format", "layout", "readers", "versions", "width",
    ];
    if has_keys(value, &first) || has_keys(value, &second) {
        Ok(())
    } else {
        Err(ReadError::NotHistory(Field::Top))
    }
}

fn suited(width: u64, entry: Observation) -> Option<Observation>
    ensures { result ≡ field.suited width entry }
{
    if entry.call.suits(width) {
        Some(entry)
    } else {
        None
    }
}

fn suited_entry(width: u64, value: &Value) -> Option<Observation>
    ensures { result ≡ option_and_then (field.suited width) (call.observation (view value.now)) }
{
    let entry = observation_of(value)?;
    let (_call, _returned, _reply): (Call, Option<Returned>, Option<Reply>) = (
        entry.call,
        entry.returned,
        None,
    );
    suited(width, entry)
}

fn ends_in_range(returned: &Option<Returned>) -> bool
    ensures { result ≡ field.ends_in_range returned.now }
{
    match returned {
        None => true,
        Some(returned) => returned.last < END_OF_POSITIONS,
    }
}

/// Whether the thread is below 64, and the positions below 2 to the 58.
fn is_in_range(entry: &Observation) -> bool
    ensures { result ≡ field.is_in_range entry.now }
{
    entry.thread < MOST_THREADS && entry.first < END_OF_POSITIONS && ends_in_range(&entry.returned)
}

fn entry_at(width: u64, index: u64, value: &Value) -> Result<Observation, ReadError>
    ensures { result ≡ field.entry_at width index (view value.now) }
{
    match suited_entry(width, value) {
        None => Err(ReadError::NotHistory(Field::Entry(index))),
        Some(entry) => {
            if is_in_range(&entry) {
                Ok(entry)
            } else {
                Err(ReadError::Limit(Field::Entry(index)))
            }
        }
    }
}

fn entries_in(alloc: Global, width: u64, list: &[Value]) -> Result<Vec<Observation>, ReadError>
    ensures { Gives ReadError.Memory (λ entries. entries.items) result
        (each (field.entry_at width) 0 (items_view list.now)) }
{
    let mut entries = Vec::with_capacity(alloc, list.len())?;
    for (index, value) in list.iter().enumerate() {
        let entry = entry_at(width, index as u64, value)?;
        let (_call, _returned, _reply): (Call, Option<Returned>, Option<Reply>) = (
            entry.call,
            entry.returned,
            None,
        );
        entries.push(entry)?;
    }
    Ok(entries)
}

/// The calls under the key `entries`, each one that suits the width.
#[tactic(auto, unfolding(crate::specs::ObservedFields::entries))]
pub(crate) fn read_entries(
    alloc: Global,
    width: u64,
    value: &Value,
) -> Result<Vec<Observation>, ReadError>
    ensures { Gives ReadError.Memory (λ entries. entries.items) result
        (field.entries width (view value.now)) }
{
    let list = listed_entries(value)?;
    entries_in(alloc, width, list)
}
