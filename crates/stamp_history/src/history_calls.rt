//! The calls of a history out of JSON values.

ghost use Rattle.std.specs.Prelude.{◌≡◌};
ghost use Rattle.serde_json.specs.View.{view};
ghost use Rattle.stamp_history.specs.HistoryCall as spec;

use crate::lock_calls::lock_call;
use crate::script_calls::script_call_of;
use serde_json::Value;
use stamp_core::Call;
use stamp_machines::ScriptCall;

/// The call, if its stamp is a number.
fn as_call(call: ScriptCall) -> Option<Call>
    ensures { result ≡ spec.as_call call }
{
    match call {
        ScriptCall::Get => Some(Call::Get),
        ScriptCall::Put(words) => Some(Call::Put(words)),
        ScriptCall::PutIf(expected, words) => Some(Call::PutIf(expected, words)),
        of_lock => Some(lock_call(of_lock)?.as_call()),
    }
}

/// Reads a call of a history from a JSON value. `None` where it is none of the twenty, or its stamp
/// is no number.
pub fn history_call_of(value: &Value) -> Option<Call>
    ensures { result ≡ spec.history_call (view value.now) }
{
    as_call(script_call_of(value)?)
}
