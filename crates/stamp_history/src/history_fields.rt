//! The fields of a history, each over one JSON value.

ghost use Rattle.std.specs.Prelude.{◌≡◌, ◌||◌, option_and_then};
ghost use Rattle.std.specs.Result.{result_map_both};
ghost use Rattle.serde_json.specs.Find.{as_array};
ghost use Rattle.serde_json.specs.View.{view, items_view};
ghost use Rattle.stamp_history.specs.EntryValue as entry;
ghost use Rattle.stamp_history.specs.Gives.{Gives};
ghost use Rattle.stamp_history.specs.HistoryFields as field;
ghost use Rattle.stamp_history.specs.JsonValue as json;
ghost use Rattle.stamp_history.specs.JsonReading.{each};

use crate::field::Field;
use crate::history_entries::entry_of;
use crate::json_values::{has_key, has_keys, list_under, whole_under};
use crate::read_error::ReadError;
use serde_json::Value;
use stamp_core::{Call, Entry, MOST_ENTRIES, MOST_THREADS, MOST_WORDS, Reply};
use std::alloc::Global;

/// The keys of format 1.
fn has_keys_of_one(value: &Value) -> bool
    ensures { result ≡ (json.has_keys field.keys (view value.now)
        || json.has_keys field.keys_with_report (view value.now)) }
{
    has_keys(
        value,
        &["entries", "format", "readers", "versions", "width"],
    ) || has_keys(
        value,
        &[
            "entries", "format", "readers", "report", "versions", "width",
        ],
    )
}

/// The keys of format 2.
fn has_keys_of_two(value: &Value) -> bool
    ensures { result ≡ (json.has_keys field.keys_with_layout (view value.now)
        || json.has_keys field.keys_with_both (view value.now)) }
{
    has_keys(
        value,
        &[
            "entries", "format", "layout", "readers", "versions", "width",
        ],
    ) || has_keys(
        value,
        &[
            "entries", "format", "layout", "readers", "report", "versions", "width",
        ],
    )
}

/// Tests which keys the object has: those of format 1 or of format 2.
pub(crate) fn check_top(value: &Value) -> Result<(), ReadError>
    ensures { result ≡ field.top (view value.now) }
{
    if has_keys_of_one(value) || has_keys_of_two(value) {
        Ok(())
    } else {
        Err(ReadError::NotHistory(Field::Top))
    }
}

fn is_number(found: Option<u64>, number: u64) -> bool
    ensures { result ≡ field.is_number number found }
{
    match found {
        Some(other) => other == number,
        None => false,
    }
}

/// Tests that the format of a text suits its layout. The key `format` has the number 2 beside the
/// key `layout`, and 1 without it. Errors: 2 `NotHistory` where it has another.
pub fn check_format(value: &Value) -> Result<(), ReadError>
    ensures { result ≡ field.format (view value.now) }
{
    let format = if has_key(value, "layout") { 2 } else { 1 };
    if is_number(whole_under(value, "format"), format) {
        Ok(())
    } else {
        Err(ReadError::NotHistory(Field::Format))
    }
}

/// Reads how many words the guarded record has, 0 where there is none. Errors: 2 `NotHistory` where
/// the key `width` has no whole number, and 3 `Limit` where that is over 16.
pub fn read_width(value: &Value) -> Result<u64, ReadError>
    ensures { result ≡ field.width (view value.now) }
{
    match whole_under(value, "width") {
        None => Err(ReadError::NotHistory(Field::Width)),
        Some(width) if width <= MOST_WORDS as u64 => Ok(width),
        Some(_) => Err(ReadError::Limit(Field::Width)),
    }
}

/// The items under the key `entries`, not read yet. Errors: 2 `NotHistory` where there is no list,
/// and 3 `Limit` where it has over 640,000.
#[tactic(auto, using(crate::proofs::ItemLengths::lengths))]
pub fn listed_entries(value: &Value) -> Result<&[Value], ReadError>
    ensures { result_map_both (λ list. items_view list.now) (λ e. e) result
        ≡ field.listed_entries (view value.now) }
{
    match list_under(value, "entries") {
        None => Err(ReadError::NotHistory(Field::Entries)),
        Some(list) if list.len() > MOST_ENTRIES => Err(ReadError::Limit(Field::Entries)),
        Some(list) => Ok(list.as_slice()),
    }
}

fn suited(width: u64, entry: Entry) -> Option<Entry>
    ensures { result ≡ field.suited width entry }
{
    if entry.call.suits(width) {
        Some(entry)
    } else {
        None
    }
}

fn suited_entry(width: u64, value: &Value) -> Option<Entry>
    ensures { result ≡ option_and_then (field.suited width) (entry.entry (view value.now)) }
{
    let entry = entry_of(value)?;
    // The types that an entry holds have to be named where one is dropped.
    let (_call, _reply): (Call, Reply) = (entry.call, entry.reply);
    suited(width, entry)
}

fn entry_at(width: u64, index: u64, value: &Value) -> Result<Entry, ReadError>
    ensures { result ≡ field.entry_at width index (view value.now) }
{
    match suited_entry(width, value) {
        None => Err(ReadError::NotHistory(Field::Entry(index))),
        Some(entry) => {
            if entry.thread < MOST_THREADS {
                Ok(entry)
            } else {
                Err(ReadError::Limit(Field::Entry(index)))
            }
        }
    }
}

fn entries_in(alloc: Global, width: u64, list: &[Value]) -> Result<Vec<Entry>, ReadError>
    ensures { Gives ReadError.Memory (λ entries. entries.items) result
        (each (field.entry_at width) 0 (items_view list.now)) }
{
    let mut entries = Vec::with_capacity(alloc, list.len())?;
    for (index, value) in list.iter().enumerate() {
        let entry = entry_at(width, index as u64, value)?;
        // The types that an entry holds have to be named where one is dropped.
        let (_call, _reply): (Call, Reply) = (entry.call, entry.reply);
        entries.push(entry)?;
    }
    Ok(entries)
}

/// The entries under the key `entries`, each with a call that suits the width.
#[tactic(auto, unfolding(crate::specs::HistoryFields::entries))]
pub(crate) fn read_entries(
    alloc: Global,
    width: u64,
    value: &Value,
) -> Result<Vec<Entry>, ReadError>
    ensures { Gives ReadError.Memory (λ entries. entries.items) result
        (field.entries width (view value.now)) }
{
    let list = listed_entries(value)?;
    entries_in(alloc, width, list)
}

#[tactic(auto, using(crate::proofs::PairLengths::pair_short, crate::proofs::PairLengths::pair_long))]
fn listed_pair(list: &[Value]) -> Option<(u64, u64)>
    ensures { result ≡ field.listed_pair (items_view list.now) }
{
    match list {
        [own, changes] => Some((own.as_u64()?, changes.as_u64()?)),
        _ => None,
    }
}

fn pair_of(value: &Value) -> Option<(u64, u64)>
    ensures { result ≡ option_and_then field.listed_pair (as_array (view value.now)) }
{
    listed_pair(value.as_array()?)
}

fn pairs_in(alloc: Global, list: &[Value]) -> Result<Vec<(u64, u64)>, ReadError>
    ensures { Gives ReadError.Memory (λ pairs. pairs.items) result
        (each field.pair_at 0 (items_view list.now)) }
{
    let mut pairs = Vec::with_capacity(alloc, list.len())?;
    for value in list {
        pairs.push(pair_of(value).ok_or(ReadError::NotHistory(Field::Report))?)?;
    }
    Ok(pairs)
}

#[tactic(auto, using(crate::proofs::ItemLengths::lengths))]
fn listed_report(count: usize, value: &Value) -> Result<&[Value], ReadError>
    ensures { result_map_both (λ list. items_view list.now) (λ e. e) result
        ≡ field.listed_report count (view value.now) }
{
    match list_under(value, "report") {
        Some(list) if list.len() == count => Ok(list.as_slice()),
        _ => Err(ReadError::NotHistory(Field::Report)),
    }
}

#[tactic(auto, unfolding(crate::specs::HistoryFields::reported))]
fn read_reported(alloc: Global, count: usize, value: &Value) -> Result<Vec<(u64, u64)>, ReadError>
    ensures { Gives ReadError.Memory (λ pairs. pairs.items) result
        (field.reported count (view value.now)) }
{
    let list = listed_report(count, value)?;
    pairs_in(alloc, list)
}

/// The report of this many entries; none where the key is absent.
pub(crate) fn read_report(
    alloc: Global,
    count: usize,
    value: &Value,
) -> Result<Vec<(u64, u64)>, ReadError>
    ensures { Gives ReadError.Memory (λ pairs. pairs.items) result
        (field.report count (view value.now)) }
{
    if has_key(value, "report") {
        read_reported(alloc, count, value)
    } else {
        Ok(Vec::new(alloc))
    }
}
