//! The calls of a script out of JSON values.

ghost use Rattle.std.specs.Prelude.{◌≡◌};
ghost use Rattle.serde_json.specs.View.{view, items_view};
ghost use Rattle.stamp_history.specs.ScriptCallValue as spec;

use crate::words_value::words_of;
use serde_json::Value;
use stamp_machines::{Arg, ScriptCall};

#[tactic(auto, using(crate::proofs::ScriptCallLengths::stamp_short, crate::proofs::ScriptCallLengths::stamp_long))]
fn stamp_of_call(list: &[Value]) -> Option<Arg>
    ensures { result ≡ spec.stamp_of_call (items_view list.now) }
{
    match list {
        [thread, call] => Some(Arg::Of(thread.as_u64()?, call.as_u64()?)),
        _ => None,
    }
}

fn stamp_of(value: &Value) -> Option<Arg>
    ensures { result ≡ spec.stamp (view value.now) }
{
    match value.as_array() {
        Some(list) => stamp_of_call(list),
        None => Some(Arg::Number(value.as_u64()?)),
    }
}

fn plain_call(name: &str) -> Option<ScriptCall>
    ensures { result ≡ spec.plain_call name.now }
{
    match name {
        "try_write" => Some(ScriptCall::TryWrite),
        "try_read" => Some(ScriptCall::TryRead),
        "write_lock" => Some(ScriptCall::WriteLock),
        "read_lock" => Some(ScriptCall::ReadLock),
        "optimistic" => Some(ScriptCall::Optimistic),
        "try_unlock_write" => Some(ScriptCall::TryUnlockWrite),
        "try_unlock_read" => Some(ScriptCall::TryUnlockRead),
        "is_write_locked" => Some(ScriptCall::IsWriteLocked),
        "is_read_locked" => Some(ScriptCall::IsReadLocked),
        "read_count" => Some(ScriptCall::ReadCount),
        "get" => Some(ScriptCall::Get),
        _ => None,
    }
}

fn stamp_call(name: &str, stamp: Arg) -> Option<ScriptCall>
    ensures { result ≡ spec.stamp_call name.now stamp }
{
    match name {
        "validate" => Some(ScriptCall::Validate(stamp)),
        "unlock_write" => Some(ScriptCall::UnlockWrite(stamp)),
        "unlock_read" => Some(ScriptCall::UnlockRead(stamp)),
        "unlock" => Some(ScriptCall::Unlock(stamp)),
        "to_write" => Some(ScriptCall::ToWrite(stamp)),
        "to_read" => Some(ScriptCall::ToRead(stamp)),
        "to_optimistic" => Some(ScriptCall::ToOptimistic(stamp)),
        _ => None,
    }
}

fn call_with(name: &str, argument: &Value) -> Option<ScriptCall>
    ensures { result ≡ spec.call_with name.now (view argument.now) }
{
    match name {
        "put" => Some(ScriptCall::Put(words_of(argument)?)),
        _ => stamp_call(name, stamp_of(argument)?),
    }
}

fn call_with_two(name: &str, expected: &Value, new: &Value) -> Option<ScriptCall>
    ensures { result ≡ spec.call_with_two name.now (view expected.now) (view new.now) }
{
    match name {
        "put_if" => Some(ScriptCall::PutIf(words_of(expected)?, words_of(new)?)),
        _ => None,
    }
}

#[tactic(auto, using(crate::proofs::ScriptCallLengths::listed_call_none, crate::proofs::ScriptCallLengths::listed_call_long))]
fn listed_call(list: &[Value]) -> Option<ScriptCall>
    ensures { result ≡ spec.listed_call (items_view list.now) }
{
    match list {
        [name] => plain_call(name.as_str()?),
        [name, argument] => call_with(name.as_str()?, argument),
        [name, expected, new] => call_with_two(name.as_str()?, expected, new),
        _ => None,
    }
}

/// Reads a call of a script from a JSON value; `None` where it is none of the twenty.
pub(crate) fn script_call_of(value: &Value) -> Option<ScriptCall>
    ensures { result ≡ spec.script_call (view value.now) }
{
    listed_call(value.as_array()?)
}
