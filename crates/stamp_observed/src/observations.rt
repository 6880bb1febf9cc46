//! Calls of an observed history out of JSON values.

ghost use Rattle.std.specs.Prelude.{◌≡◌};
ghost use Rattle.serde_json.specs.View.{view};
ghost use Rattle.stamp_observed.specs.ObservationValue as spec;

use serde_json::Value;
use stamp_explain::{Observation, Returned};
use stamp_history::{has_members, history_call_of, reply_of, whole_under};

#[tactic(auto, unfolding(crate::specs::ObservationValue::returned))]
fn returned_of(value: &Value) -> Option<Returned>
    ensures { result ≡ spec.returned (view value.now) }
{
    let last = whole_under(value, "last")?;
    let reply = reply_of(value.get("reply")?)?;
    if has_members(value, 5) {
        Some(Returned { last, reply })
    } else {
        None
    }
}

fn end_of(value: &Value) -> Option<Option<Returned>>
    ensures { result ≡ spec.end (view value.now) }
{
    if has_members(value, 3) {
        Some(None)
    } else {
        Some(Some(returned_of(value)?))
    }
}

/// Reads an observed call from a JSON value; `None` where it is none.
#[tactic(auto, unfolding(crate::specs::ObservationValue::observation))]
pub(crate) fn observation_of(value: &Value) -> Option<Observation>
    ensures { result ≡ spec.observation (view value.now) }
{
    let call = history_call_of(value.get("call")?)?;
    let first = whole_under(value, "first")?;
    let thread = whole_under(value, "thread")?;
    let returned = end_of(value)?;
    Some(Observation {
        thread,
        call,
        first,
        returned,
    })
}
