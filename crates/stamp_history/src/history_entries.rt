//! Replies and entries out of JSON values.

ghost use Rattle.std.specs.Prelude.{◌≡◌};
ghost use Rattle.serde_json.specs.View.{view};
ghost use Rattle.stamp_history.specs.EntryValue as spec;
ghost use Rattle.stamp_history.specs.ReplyValue as reply;

use crate::history_calls::history_call_of;
use crate::json_values::{has_members, whole_under};
use crate::words_value::words_of;
use serde_json::Value;
use stamp_core::{Entry, Reply};

fn named_reply(name: &str) -> Option<Reply>
    ensures { result ≡ reply.named_reply name.now }
{
    match name {
        "yes" => Some(Reply::Yes),
        "no" => Some(Reply::No),
        "done" => Some(Reply::Done),
        "mismatch" => Some(Reply::Mismatch),
        _ => None,
    }
}

fn count_reply(value: &Value) -> Option<Reply>
    ensures { result ≡ reply.count_reply (view value.now) }
{
    if has_members(value, 1) {
        Some(Reply::Count(whole_under(value, "count")?))
    } else {
        None
    }
}

/// Reads a reply from a JSON value. It is a stamp, a name, a count or words; `None` where it is
/// none.
pub fn reply_of(value: &Value) -> Option<Reply>
    ensures { result ≡ reply.reply (view value.now) }
{
    match value {
        Value::String(name) => named_reply(name.as_str()),
        Value::Array(_) => Some(Reply::Content(words_of(value)?)),
        Value::Object(_) => count_reply(value),
        _ => Some(Reply::Stamp(value.as_u64()?)),
    }
}

/// Reads an entry from a JSON value; `None` where it is none.
#[tactic(auto, unfolding(crate::specs::EntryValue::entry))]
pub(crate) fn entry_of(value: &Value) -> Option<Entry>
    ensures { result ≡ spec.entry (view value.now) }
{
    let call = history_call_of(value.get("call")?)?;
    let first = whole_under(value, "first")?;
    let last = whole_under(value, "last")?;
    let point = whole_under(value, "point")?;
    let reply = reply_of(value.get("reply")?)?;
    let thread = whole_under(value, "thread")?;
    if has_members(value, 6) {
        Some(Entry {
            thread,
            call,
            reply,
            first,
            point,
            last,
        })
    } else {
        None
    }
}
