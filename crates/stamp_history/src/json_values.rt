//! What is asked of a JSON value.

ghost use Rattle.std.specs.Prelude.{◌≡◌, ◌<◌, IfOk, IfErr, length, map, is_some, option_map};
ghost use Rattle.std.specs.List.{list_all};
ghost use Rattle.serde_json.specs.Find.{get, get_member, as_array};
ghost use Rattle.serde_json.specs.View.{view, items_view, members_view};
ghost use Rattle.stamp_history.specs.Gives.{Gives};
ghost use Rattle.stamp_history.specs.JsonValue as spec;
ghost use Rattle.stamp_history.specs.JsonReading.{json_of};

use crate::read_error::ReadError;
use serde_json::{Map, Value};
use std::alloc::Global;

/// Reads a JSON value from bytes. Errors: 1 `NotJson`; 4 `Memory`, which may come before it, but
/// never of no bytes.
pub fn json(alloc: Global, bytes: &[u8]) -> Result<Value, ReadError>
    ensures read { Gives ReadError.Memory view result (json_of bytes.now) }
    ensures some { IfOk result (λ _. 0 < length bytes.now) }
    ensures memory { IfErr result (λ e. e ≡ ReadError.Memory → 0 < length bytes.now) }
{
    match Value::from_slice(alloc, bytes) {
        Ok(value) => Ok(value),
        Err(fault) if fault.is_memory() => Err(ReadError::Memory),
        Err(_) => Err(ReadError::NotJson),
    }
}

/// Whether the value is an object of so many members.
pub fn has_members(value: &Value, count: usize) -> bool
    ensures { result ≡ spec.has_members count (view value.now) }
{
    match value.as_object() {
        Some(members) => members.len() == count,
        None => false,
    }
}

/// Whether the value is an object with this key.
pub(crate) fn has_key(value: &Value, key: &str) -> bool
    ensures { result ≡ spec.has_key key.now (view value.now) }
{
    value.get(key).is_some()
}

fn has_each(value: &Value, keys: &[&str]) -> bool
    ensures { result
        ≡ list_all (λ key. is_some (get key.now (view value.now))) keys.now }
{
    keys.iter().all(|key| value.get(*key).is_some())
}

/// Whether the value is an object with these keys and no others.
pub fn has_keys(value: &Value, keys: &[&str]) -> bool
    ensures { result ≡ spec.has_keys (map (λ key. key.now) keys.now) (view value.now) }
{
    has_members(value, keys.len()) && has_each(value, keys)
}

/// The whole number under a key, if the value is an object that has one there.
pub fn whole_under(value: &Value, key: &str) -> Option<u64>
    ensures { result ≡ spec.whole_under key.now (view value.now) }
{
    value.get(key)?.as_u64()
}

/// The list under a key.
pub(crate) fn list_under<'v>(value: &'v Value, key: &str) -> Option<&'v Vec<Value>>
    ensures { option_map (λ list. items_view list.now.items) result
        ≡ spec.list_under key.now (view value.now) }
{
    value.get(key)?.as_array()
}

/// Takes the list from a JSON value; `None` where it is none.
pub(crate) fn as_list(value: Value) -> Option<Vec<Value>>
    ensures { option_map (λ list. items_view list.items) result ≡ as_array (view value) }
{
    match value {
        Value::Array(list) => Some(list),
        _ => None,
    }
}

fn take_member(mut members: Map<String, Value>, key: &str) -> Option<Value>
    ensures { option_map view result ≡ get_member key.now (members_view members.entries) }
{
    members.remove(key)
}

/// The list under a key, taken out of the value, the rest of which is dropped.
pub(crate) fn take_list(value: Value, key: &str) -> Option<Vec<Value>>
    ensures { option_map (λ list. items_view list.items) result
        ≡ spec.list_under key.now (view value) }
{
    match value {
        Value::Object(members) => as_list(take_member(members, key)?),
        _ => None,
    }
}
