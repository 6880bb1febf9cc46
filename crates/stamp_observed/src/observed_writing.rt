//! The text of an observed history.

ghost use Rattle.std.specs.Prelude.{◌≡◌, ◌++◌, true, Ok, IfOk, OnOk, IsOkUnless, MatchOption};
ghost use Rattle.std.specs.List.{All};
ghost use Rattle.serde_json.specs.Data.{Members};
ghost use Rattle.serde_json.specs.Written.{compact_text, members_text};
ghost use Rattle.stamp_core.specs.Limits.{AreInRange};
ghost use Rattle.stamp_observed.specs.inner.ProgramValue.{ReturnIsProgramValue, ObservationIsProgramValue};
ghost use Rattle.stamp_observed.specs.ObservedReading.{observed_of};
ghost use Rattle.stamp_observed.specs.ObservedText.{with_return, observation_data, observations_data};
ghost use Rattle.stamp_observed.specs.ObservedText.{observed_data, observed_text};
ghost use Rattle.stamp_observed.specs.Suited.{AreSuited};

use stamp_explain::{Observation, Observed, Returned};
use stamp_history::{
    ReadError, push_after_entries, push_call, push_comma, push_numbered, push_reply, push_text,
};
use std::alloc::{AllocError, Global};

/// About the bytes of a call's text, where it has no words.
const CALL_BYTES: usize = 112;

/// Appends where the call returned and what, if it did.
fn push_return(text: &mut Vec<u8>, returned: &Option<Returned>) -> Result<(), AllocError>
    ensures text { OnOk result ((rest : Members) → text.new.items ++ members_text true rest
        ≡ text.old.items ++ members_text true (with_return returned.now rest)) }
    ensures program_value { OnOk result (MatchOption returned.now (Unit {0}) ReturnIsProgramValue) }
{
    if let Some(returned) = returned {
        push_numbered(text, ",\"last\":", returned.last)?;
        push_text(text, ",\"reply\":")?;
        push_reply(text, &returned.reply)?;
    }
    Ok(())
}

/// Appends a call as a JSON object, its keys in rising order.
fn push_observation(text: &mut Vec<u8>, entry: &Observation) -> Result<(), AllocError>
    ensures text { OnOk result (text.new.items
        ≡ text.old.items ++ compact_text (observation_data entry.now)) }
    ensures program_value { OnOk result (ObservationIsProgramValue entry.now) }
{
    push_text(text, "{\"call\":")?;
    push_call(text, &entry.call)?;
    push_numbered(text, ",\"first\":", entry.first)?;
    push_return(text, &entry.returned)?;
    push_numbered(text, ",\"thread\":", entry.thread)?;
    push_text(text, "}")?;
    Ok(())
}

fn push_observations(text: &mut Vec<u8>, entries: &[Observation]) -> Result<(), AllocError>
    ensures text { OnOk result (text.new.items
        ≡ text.old.items ++ compact_text (observations_data entries.now)) }
    ensures program_value { OnOk result (All ObservationIsProgramValue entries.now) }
{
    push_text(text, "[")?;
    for (index, entry) in entries.iter().enumerate() {
        push_comma(text, index)?;
        push_observation(text, entry)?;
    }
    push_text(text, "]")?;
    Ok(())
}

fn push_observed(text: &mut Vec<u8>, observed: &Observed) -> Result<(), AllocError>
    ensures text { OnOk result (text.new.items
        ≡ text.old.items ++ compact_text (observed_data observed.now)) }
    ensures program_value { OnOk result (All ObservationIsProgramValue observed.now.entries) }
    ensures range { OnOk result (AreInRange observed.now.limits) }
{
    push_text(text, "{\"entries\":")?;
    push_observations(text, observed.entries())?;
    push_after_entries(text, &observed.limits(), observed.width(), &[])?;
    Ok(())
}

/// The compact JSON text of an observed history, its keys in the order of their bytes. It is of
/// format 1 where the layout is 1, else of format 2 with the key `layout`. It reads as that history
/// where each thread is below 64 and each call suits the width. The one error is 4 `Memory`, after
/// which nothing is kept.
#[tactic(auto, unfolding(crate::specs::ObservedText::observed_text))]
pub fn write_observed(alloc: Global, observed: &Observed) -> Result<Vec<u8>, ReadError>
    ensures text { IfOk result (λ text. text.items ≡ observed_text observed.now) }
    ensures again { AreSuited observed.now
        → IfOk result (λ text. observed_of text.items ≡ Ok observed.now) }
    ensures refused { IsOkUnless result ReadError.Memory }
{
    let bytes = CALL_BYTES.saturating_mul(observed.entries().len() + 1);
    let mut text = Vec::with_capacity(alloc, bytes)?;
    push_observed(&mut text, observed)?;
    Ok(text)
}
