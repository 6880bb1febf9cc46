//! The data of a page, as JSON.

ghost use Rattle.std.specs.Prelude.{◌≡◌, ◌++◌, OnOk, IsOkUnless, codes};
ghost use Rattle.serde_json.specs.Written.{compact_text};
ghost use Rattle.stamp_history.specs.HistoryText.{history_text};
ghost use Rattle.stamp_history.specs.ReplayText.{reply_data, replies_data};
ghost use Rattle.stamp_cli.specs.CheckText.{why_text};
ghost use Rattle.stamped_picture.specs.PageData.{due_text, fault_text, observed_why_text, order_text, possible_text};
ghost use Rattle.stamped_picture.specs.PageData.{wrong_text, stuck_text, explanation_text, recorded_text, observed_data_text};
ghost use Rattle.stamped_picture.specs.PageData.{place_text};

use crate::explanation::{Explanation, StuckReturn};
use stamp_check::Why;
use stamp_cli::ServeFault;
use stamp_core::{Record, Reply};
use stamp_explain::Observed;
use stamp_history::{push_comma, push_numbered, push_reply, push_text, write_history};
use stamp_observed::{ObservedWhy, write_observed};
use stamp_picture::Fault;
use std::alloc::{AllocError, Global};

fn why_text(why: Why) -> &'static str
    ensures { result.now ≡ why_text why }
{
    match why {
        Why::Interval => "interval",
        Why::Order => "order",
        Why::Overlap => "overlap",
        Why::Reply => "reply",
    }
}

fn observed_why_text(why: ObservedWhy) -> &'static str
    ensures { result.now ≡ observed_why_text why }
{
    match why {
        ObservedWhy::Interval => "interval",
        ObservedWhy::Overlap => "overlap",
    }
}

/// Appends the number of a faulty entry and what it breaks, and the end of the object.
fn push_place(text: &mut Vec<u8>, entry: u64, why: &str) -> Result<(), AllocError>
    ensures { OnOk result (text.new.items ≡ text.old.items ++ place_text entry why.now) }
{
    push_numbered(text, "\"entry\":", entry)?;
    push_text(text, ",\"why\":\"")?;
    push_text(text, why)?;
    push_text(text, "\"}")
}

/// Appends the reply that was due, or null where the call would have waited.
fn push_due(text: &mut Vec<u8>, due: &Option<Reply>) -> Result<(), AllocError>
    ensures { OnOk result (text.new.items ≡ text.old.items ++ due_text due.now) }
{
    match due {
        None => push_text(text, "null"),
        Some(reply) => push_reply(text, reply),
    }
}

/// Appends the first fault of a recorded history.
fn push_fault(text: &mut Vec<u8>, fault: &Fault) -> Result<(), AllocError>
    ensures { OnOk result (text.new.items ≡ text.old.items ++ fault_text fault.now) }
{
    push_text(text, ",\"wrong\":{\"due\":")?;
    push_due(text, &fault.due)?;
    push_text(text, ",")?;
    push_place(text, fault.bad.entry, why_text(fault.bad.why))
}

/// Appends the verdict on a recorded history, where it is bad.
fn push_verdict(text: &mut Vec<u8>, verdict: &Result<u64, Fault>) -> Result<(), AllocError>
    ensures { OnOk result (text.new.items ≡ text.old.items ++ wrong_text verdict.now) }
{
    match verdict {
        Ok(_) => Ok(()),
        Err(fault) => push_fault(text, fault),
    }
}

fn push_replies(text: &mut Vec<u8>, replies: &[Reply]) -> Result<(), AllocError>
    ensures { OnOk result (text.new.items
        ≡ text.old.items ++ compact_text (replies_data replies.now)) }
{
    push_text(text, "[")?;
    for (index, reply) in replies.iter().enumerate() {
        push_comma(text, index)?;
        push_reply(text, reply)?;
    }
    push_text(text, "]")?;
    Ok(())
}

/// Appends the replies that were possible, or null where that is undecided.
fn push_possible(text: &mut Vec<u8>, possible: &Option<Vec<Reply>>) -> Result<(), AllocError>
    ensures { OnOk result (text.new.items ≡ text.old.items ++ possible_text possible.now) }
{
    match possible {
        None => push_text(text, "null"),
        Some(replies) => push_replies(text, replies.as_slice()),
    }
}

/// Appends the text of a recorded history behind its key.
fn push_history(
    alloc: Global,
    text: &mut Vec<u8>,
    key: &str,
    history: &Record,
) -> Result<(), ServeFault>
    ensures text { OnOk result (text.new.items ≡ text.old.items ++ (key.now ++ history_text history.now)) }
    ensures memory { IsOkUnless result ServeFault.Memory }
{
    push_text(text, key)?;
    text.extend_from_slice(&write_history(alloc, history)?)?;
    Ok(())
}

/// Appends what explains a history up to a return, if that is known.
fn push_order(alloc: Global, text: &mut Vec<u8>, order: &Option<Record>) -> Result<(), ServeFault>
    ensures text { OnOk result (text.new.items ≡ text.old.items ++ order_text order.now) }
    ensures memory { IsOkUnless result ServeFault.Memory }
{
    match order {
        None => Ok(()),
        Some(order) => push_history(alloc, text, ",\"order\":", order),
    }
}

/// Appends a return that no order explains.
fn push_stuck(alloc: Global, text: &mut Vec<u8>, stuck: &StuckReturn) -> Result<(), ServeFault>
    ensures text { OnOk result (text.new.items ≡ text.old.items ++ stuck_text stuck.now) }
    ensures memory { IsOkUnless result ServeFault.Memory }
{
    push_order(alloc, text, &stuck.order)?;
    push_text(text, ",\"possible\":")?;
    push_possible(text, &stuck.possible)?;
    push_numbered(text, ",\"stuck\":", stuck.entry as u64)?;
    Ok(())
}

/// Appends what explains an observed history.
fn push_explanation(
    alloc: Global,
    text: &mut Vec<u8>,
    found: &Explanation,
) -> Result<(), ServeFault>
    ensures text { OnOk result (text.new.items ≡ text.old.items ++ explanation_text found.now) }
    ensures memory { IsOkUnless result ServeFault.Memory }
{
    match found {
        Explanation::Faulty(fault) => {
            push_text(text, ",\"wrong\":{")?;
            push_place(text, fault.entry, observed_why_text(fault.why))?;
        }
        Explanation::Explained(order) => push_history(alloc, text, ",\"order\":", order)?,
        Explanation::Stuck(stuck) => push_stuck(alloc, text, stuck)?,
        Explanation::StuckWithin(entry, _) => {
            push_numbered(text, ",\"unexplained\":", *entry as u64)?;
        }
        Explanation::Undecided(entry) => push_numbered(text, ",\"undecided\":", *entry as u64)?,
    }
    Ok(())
}

/// Appends the data of a recorded history with this verdict.
pub(crate) fn push_recorded(
    alloc: Global,
    text: &mut Vec<u8>,
    history: &Record,
    verdict: &Result<u64, Fault>,
) -> Result<(), ServeFault>
    ensures text { OnOk result (text.new.items ≡ text.old.items ++ recorded_text history.now verdict.now) }
    ensures memory { IsOkUnless result ServeFault.Memory }
{
    push_history(alloc, text, "{\"recorded\":", history)?;
    push_verdict(text, verdict)?;
    push_text(text, "}")?;
    Ok(())
}

/// Appends the data of an observed history, of which this is found.
pub(crate) fn push_observed(
    alloc: Global,
    text: &mut Vec<u8>,
    observed: &Observed,
    found: &Explanation,
) -> Result<(), ServeFault>
    ensures text { OnOk result (text.new.items ≡ text.old.items ++ observed_data_text observed.now found.now) }
    ensures memory { IsOkUnless result ServeFault.Memory }
{
    push_text(text, "{\"observed\":")?;
    text.extend_from_slice(&write_observed(alloc, observed)?)?;
    push_explanation(alloc, text, found)?;
    push_text(text, "}")?;
    Ok(())
}
