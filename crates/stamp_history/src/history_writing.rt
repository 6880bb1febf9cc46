//! The text of a recorded history.

ghost use Rattle.std.specs.Prelude.{◌≡◌, ◌++◌, codes, true, Ok, IfOk, OnOk, IsOkUnless};
ghost use Rattle.serde_json.specs.Data.{no_items, item, Members, member};
ghost use Rattle.serde_json.specs.Written.{compact_text, items_text, members_text};
ghost use Rattle.stamp_history.specs.ReplayText.{number_data, words_data};
ghost use Rattle.std.specs.List.{All};
ghost use Rattle.stamp_core.specs.Limits.{AreInRange};
ghost use Rattle.stamp_history.specs.History.{recorded_of};
ghost use Rattle.stamp_history.specs.HistoryLaws.{IsU64, CallIsU64, EntryIsU64, PairIsU64, AreU64};
ghost use Rattle.stamp_history.specs.HistoryText as spec;
ghost use Rattle.stamp_history.specs.HistoryText.{arguments, call_data, entry_data, entries_data};
ghost use Rattle.stamp_history.specs.HistoryText.{pair_data, report_data, format_of, with_layout};
ghost use Rattle.stamp_history.specs.HistoryText.{with_report, after_entries, history_data};
ghost use Rattle.stamp_history.specs.HistoryText.{history_text};

use crate::json_text::{push_comma, push_numbered, push_reply, push_text, push_words};
use crate::read_error::ReadError;
use stamp_core::{Call, Entry, Layout, Limits, Record, Words};
use std::alloc::{AllocError, Global};

/// About the bytes of an entry's text, where it has no words.
const ENTRY_BYTES: usize = 128;

fn call_name(call: &Call) -> &'static str
    ensures { result.now ≡ spec.call_name call.now }
{
    match call {
        Call::TryWrite => "try_write",
        Call::TryRead => "try_read",
        Call::WriteLock => "write_lock",
        Call::ReadLock => "read_lock",
        Call::Optimistic => "optimistic",
        Call::Validate(_) => "validate",
        Call::UnlockWrite(_) => "unlock_write",
        Call::UnlockRead(_) => "unlock_read",
        Call::Unlock(_) => "unlock",
        Call::ToWrite(_) => "to_write",
        Call::ToRead(_) => "to_read",
        Call::ToOptimistic(_) => "to_optimistic",
        Call::TryUnlockWrite => "try_unlock_write",
        Call::TryUnlockRead => "try_unlock_read",
        Call::IsWriteLocked => "is_write_locked",
        Call::IsReadLocked => "is_read_locked",
        Call::ReadCount => "read_count",
        Call::Get => "get",
        Call::Put(_) => "put",
        Call::PutIf(_, _) => "put_if",
    }
}

fn push_stamp(text: &mut Vec<u8>, stamp: u64) -> Result<(), AllocError>
    ensures text { OnOk result (text.new.items
        ≡ text.old.items ++ items_text true (item (number_data stamp) no_items)) }
    ensures numbers { IsU64 stamp }
{
    push_numbered(text, ",", stamp)?;
    push_text(text, "]")
}

fn push_put(text: &mut Vec<u8>, words: &Words) -> Result<(), AllocError>
    ensures text { OnOk result (text.new.items
        ≡ text.old.items ++ items_text true (item (words_data words.now) no_items)) }
    ensures numbers { OnOk result (All IsU64 words.now) }
{
    push_text(text, ",")?;
    push_words(text, words)?;
    push_text(text, "]")
}

fn push_put_if(text: &mut Vec<u8>, expected: &Words, words: &Words) -> Result<(), AllocError>
    ensures text { OnOk result (text.new.items
        ≡ text.old.items ++ items_text true (arguments (Call.PutIf expected.now words.now))) }
    ensures numbers { OnOk result (CallIsU64 (Call.PutIf expected.now words.now)) }
{
    push_text(text, ",")?;
    push_words(text, expected)?;
    push_put(text, words)
}

/// Appends what the call takes, and the end of the list.
fn push_arguments(text: &mut Vec<u8>, call: &Call) -> Result<(), AllocError>
    ensures text { OnOk result (text.new.items
        ≡ text.old.items ++ items_text true (arguments call.now)) }
    ensures numbers { OnOk result (CallIsU64 call.now) }
{
    match call {
        Call::Validate(stamp)
        | Call::UnlockWrite(stamp)
        | Call::UnlockRead(stamp)
        | Call::Unlock(stamp)
        | Call::ToWrite(stamp)
        | Call::ToRead(stamp)
        | Call::ToOptimistic(stamp) => push_stamp(text, *stamp),
        Call::Put(words) => push_put(text, words),
        Call::PutIf(expected, words) => push_put_if(text, expected, words),
        _ => push_text(text, "]"),
    }
}

/// Appends a call as JSON. Only want of memory refuses; what the text holds then isn't said.
pub fn push_call(text: &mut Vec<u8>, call: &Call) -> Result<(), AllocError>
    ensures text { OnOk result (text.new.items
        ≡ text.old.items ++ compact_text (call_data call.now)) }
    ensures numbers { OnOk result (CallIsU64 call.now) }
{
    push_text(text, "[\"")?;
    push_text(text, call_name(call))?;
    push_text(text, "\"")?;
    push_arguments(text, call)?;
    Ok(())
}

/// Appends an entry as a JSON object, its keys in rising order.
pub(crate) fn push_entry(text: &mut Vec<u8>, entry: &Entry) -> Result<(), AllocError>
    ensures text { OnOk result (text.new.items
        ≡ text.old.items ++ compact_text (entry_data entry.now)) }
    ensures numbers { OnOk result (EntryIsU64 entry.now) }
{
    push_text(text, "{\"call\":")?;
    push_call(text, &entry.call)?;
    push_numbered(text, ",\"first\":", entry.first)?;
    push_numbered(text, ",\"last\":", entry.last)?;
    push_numbered(text, ",\"point\":", entry.point)?;
    push_text(text, ",\"reply\":")?;
    push_reply(text, &entry.reply)?;
    push_numbered(text, ",\"thread\":", entry.thread)?;
    push_text(text, "}")?;
    Ok(())
}

fn push_entries(text: &mut Vec<u8>, entries: &[Entry]) -> Result<(), AllocError>
    ensures text { OnOk result (text.new.items
        ≡ text.old.items ++ compact_text (entries_data entries.now)) }
    ensures numbers { OnOk result (All EntryIsU64 entries.now) }
{
    push_text(text, "[")?;
    for (index, entry) in entries.iter().enumerate() {
        push_comma(text, index)?;
        push_entry(text, entry)?;
    }
    push_text(text, "]")?;
    Ok(())
}

fn push_pair(text: &mut Vec<u8>, pair: (u64, u64)) -> Result<(), AllocError>
    ensures text { OnOk result (text.new.items ≡ text.old.items ++ compact_text (pair_data pair)) }
    ensures numbers { OnOk result (PairIsU64 pair) }
{
    push_numbered(text, "[", pair.0)?;
    push_numbered(text, ",", pair.1)?;
    push_text(text, "]")
}

fn push_pairs(text: &mut Vec<u8>, pairs: &[(u64, u64)]) -> Result<(), AllocError>
    ensures text { OnOk result (text.new.items
        ≡ text.old.items ++ compact_text (report_data pairs.now)) }
    ensures numbers { OnOk result (All PairIsU64 pairs.now) }
{
    push_text(text, "[")?;
    for (index, pair) in pairs.iter().enumerate() {
        push_comma(text, index)?;
        push_pair(text, *pair)?;
    }
    push_text(text, "]")?;
    Ok(())
}

/// Appends the format, and the layout where it is the second.
fn push_format(text: &mut Vec<u8>, layout: Layout) -> Result<(), AllocError>
    ensures { OnOk result ((rest : Members) → text.new.items ++ members_text true rest
        ≡ text.old.items ++ members_text true
        (member (codes "format") (number_data (format_of layout)) (with_layout layout rest))) }
{
    match layout {
        Layout::One => push_numbered(text, ",\"format\":", 1)?,
        Layout::Two => {
            push_numbered(text, ",\"format\":", 2)?;
            push_numbered(text, ",\"layout\":", 2)?;
        }
    }
    Ok(())
}

/// Appends the report, if there is one.
fn push_report(text: &mut Vec<u8>, report: &[(u64, u64)]) -> Result<(), AllocError>
    ensures text { OnOk result ((rest : Members) → text.new.items ++ members_text true rest
        ≡ text.old.items ++ members_text true (with_report report.now rest)) }
    ensures numbers { OnOk result (All PairIsU64 report.now) }
{
    if report.is_empty() {
        return Ok(());
    }
    push_text(text, ",\"report\":")?;
    push_pairs(text, report)?;
    Ok(())
}

/// Appends what comes after the entries in the text of a history, and the end of the object. Only
/// want of memory refuses; what the text holds then isn't said.
pub fn push_after_entries(
    text: &mut Vec<u8>,
    limits: &Limits,
    width: u64,
    report: &[(u64, u64)],
) -> Result<(), AllocError>
    ensures text { OnOk result (text.new.items ≡ text.old.items
        ++ members_text true (after_entries limits.now width report.now)) }
    ensures numbers { OnOk result (All PairIsU64 report.now) }
    ensures range { OnOk result (AreInRange limits.now) }
{
    push_format(text, limits.layout())?;
    push_numbered(text, ",\"readers\":", limits.readers())?;
    push_report(text, report)?;
    push_numbered(text, ",\"versions\":", limits.versions())?;
    push_numbered(text, ",\"width\":", width)?;
    push_text(text, "}")?;
    Ok(())
}

fn push_history(text: &mut Vec<u8>, history: &Record) -> Result<(), AllocError>
    ensures text { OnOk result (text.new.items
        ≡ text.old.items ++ compact_text (history_data history.now)) }
    ensures numbers { OnOk result (AreU64 history.now) }
    ensures range { OnOk result (AreInRange history.now.limits) }
{
    push_text(text, "{\"entries\":")?;
    push_entries(text, history.entries())?;
    push_after_entries(text, &history.limits(), history.width(), history.report())?;
    Ok(())
}

/// Writes a recorded history as compact text, which `read_history` reads as that history. Its keys
/// are in the order of their bytes. It is of format 1 where the layout is 1, else of format 2 with
/// the key `layout`; with the key `report` where the report is not empty. The one error is 4
/// `Memory`, after which nothing is kept.
#[tactic(auto, unfolding(crate::specs::HistoryText::history_text))]
pub fn write_history(alloc: Global, history: &Record) -> Result<Vec<u8>, ReadError>
    ensures text { IfOk result (λ text. text.items ≡ history_text history.now) }
    ensures again { IfOk result (λ text. recorded_of text.items ≡ Ok history.now) }
    ensures refused { IsOkUnless result ReadError.Memory }
{
    let bytes = ENTRY_BYTES.saturating_mul(history.entries().len() + 1);
    let mut text = Vec::with_capacity(alloc, bytes)?;
    push_history(&mut text, history)?;
    Ok(text)
}
