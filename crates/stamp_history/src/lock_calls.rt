//! The lock's calls out of JSON values.

ghost use Rattle.std.specs.Prelude.{◌≡◌, option_and_then, option_map};
ghost use Rattle.serde_json.specs.View.{view};
ghost use Rattle.stamp_core.specs.LockCall.{call_as};
ghost use Rattle.stamp_history.specs.HistoryCall as history;
ghost use Rattle.stamp_history.specs.LockCall as spec;

use crate::script_calls::script_call_of;
use serde_json::Value;
use stamp_core::LockCall;
use stamp_machines::{Arg, ScriptCall};

/// The stamp, if it is a number.
fn plain_number(stamp: Arg) -> Option<u64>
    ensures { result ≡ history.plain_number stamp }
{
    match stamp {
        Arg::Number(number) => Some(number),
        Arg::Of(_, _) => None,
    }
}

/// The call, if it is the lock's and its stamp is a number.
pub(crate) fn lock_call(call: ScriptCall) -> Option<LockCall>
    ensures { option_map call_as result ≡ option_and_then spec.if_of_lock (history.as_call call) }
{
    match call {
        ScriptCall::TryWrite => Some(LockCall::TryWrite),
        ScriptCall::TryRead => Some(LockCall::TryRead),
        ScriptCall::WriteLock => Some(LockCall::WriteLock),
        ScriptCall::ReadLock => Some(LockCall::ReadLock),
        ScriptCall::Optimistic => Some(LockCall::Optimistic),
        ScriptCall::Validate(stamp) => Some(LockCall::Validate(plain_number(stamp)?)),
        ScriptCall::UnlockWrite(stamp) => Some(LockCall::UnlockWrite(plain_number(stamp)?)),
        ScriptCall::UnlockRead(stamp) => Some(LockCall::UnlockRead(plain_number(stamp)?)),
        ScriptCall::Unlock(stamp) => Some(LockCall::Unlock(plain_number(stamp)?)),
        ScriptCall::ToWrite(stamp) => Some(LockCall::ToWrite(plain_number(stamp)?)),
        ScriptCall::ToRead(stamp) => Some(LockCall::ToRead(plain_number(stamp)?)),
        ScriptCall::ToOptimistic(stamp) => Some(LockCall::ToOptimistic(plain_number(stamp)?)),
        ScriptCall::TryUnlockWrite => Some(LockCall::TryUnlockWrite),
        ScriptCall::TryUnlockRead => Some(LockCall::TryUnlockRead),
        ScriptCall::IsWriteLocked => Some(LockCall::IsWriteLocked),
        ScriptCall::IsReadLocked => Some(LockCall::IsReadLocked),
        ScriptCall::ReadCount => Some(LockCall::ReadCount),
        ScriptCall::Get | ScriptCall::Put(_) | ScriptCall::PutIf(_, _) => None,
    }
}

/// Reads a call of the lock from a JSON value; `None` where it is none of the seventeen, or its stamp is no
/// number.
pub(crate) fn lock_call_of(value: &Value) -> Option<LockCall>
    ensures { option_map call_as result ≡ spec.lock_call (view value.now) }
{
    lock_call(script_call_of(value)?)
}
