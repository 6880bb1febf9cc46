//! JSON values appended to a text.

ghost use Rattle.std.specs.Prelude.{◌≡◌, ◌≤◌, ◌++◌, OnOk, length, nat_lt};
ghost use Rattle.std.specs.List.{All};
ghost use Rattle.serde_json.specs.Written.{comma_if, compact_text};
ghost use Rattle.stamp_core.specs.Record.{HasFewWords};
ghost use Rattle.stamp_history.specs.HistoryLaws.{IsU64, ReplyIsU64};
ghost use Rattle.stamp_history.specs.ReplayText.{number_data, words_data, reply_data};

use itoa::Buffer;
use stamp_core::{Reply, Words};
use std::alloc::AllocError;

/// Appends a piece of text as it is. Only want of memory refuses; what the text holds then isn't
/// said.
pub fn push_text(text: &mut Vec<u8>, piece: &str) -> Result<(), AllocError>
    ensures { OnOk result (text.new.items ≡ text.old.items ++ piece.now) }
{
    text.extend_from_slice(piece.as_bytes())
}

/// Appends the number.
pub(crate) fn push_number(text: &mut Vec<u8>, number: u64) -> Result<(), AllocError>
    ensures text { OnOk result (text.new.items
        ≡ text.old.items ++ compact_text (number_data number)) }
    ensures numbers { IsU64 number }
{
    let mut digits = Buffer::new();
    push_text(text, digits.format(number))
}

/// Appends what stands before a number, and the number. Only want of memory refuses; what the text
/// holds then isn't said.
pub fn push_numbered(text: &mut Vec<u8>, before: &str, number: u64) -> Result<(), AllocError>
    ensures text { OnOk result (text.new.items
        ≡ text.old.items ++ (before.now ++ compact_text (number_data number))) }
    ensures numbers { IsU64 number }
{
    push_text(text, before)?;
    push_number(text, number)
}

/// Appends the comma before a later item.
pub(crate) fn push_comma_if(text: &mut Vec<u8>, is_later: bool) -> Result<(), AllocError>
    ensures { OnOk result (text.new.items ≡ text.old.items ++ comma_if is_later) }
{
    if is_later {
        push_text(text, ",")?;
    }
    Ok(())
}

/// Appends the comma before an item that is not the first. Only want of memory refuses; what the
/// text holds then isn't said.
pub fn push_comma(text: &mut Vec<u8>, index: usize) -> Result<(), AllocError>
    ensures { OnOk result (text.new.items ≡ text.old.items ++ comma_if (nat_lt 0 index)) }
{
    push_comma_if(text, index > 0)
}

fn push_numbers(text: &mut Vec<u8>, numbers: &[u64]) -> Result<(), AllocError>
    ensures text { OnOk result (text.new.items
        ≡ text.old.items ++ compact_text (words_data numbers.now)) }
    ensures numbers { OnOk result (All IsU64 numbers.now) }
{
    push_text(text, "[")?;
    for (index, number) in numbers.iter().enumerate() {
        push_comma(text, index)?;
        push_number(text, *number)?;
    }
    push_text(text, "]")?;
    Ok(())
}

/// Appends the list of the words.
pub(crate) fn push_words(text: &mut Vec<u8>, words: &Words) -> Result<(), AllocError>
    ensures text { OnOk result (text.new.items
        ≡ text.old.items ++ compact_text (words_data words.now)) }
    ensures numbers { OnOk result (All IsU64 words.now) }
    ensures some { 1 ≤ length words.now }
    ensures few { length words.now ≤ 16 }
{
    // Asks how many there are, by which the prover knows that these are 1 to 16.
    let _count = words.len();
    push_numbers(text, words.as_slice())
}

#[tactic(auto, unfolding(serde_json::proofs::OnLiterals::serde_json_on_literals))]
fn push_count(text: &mut Vec<u8>, count: u64) -> Result<(), AllocError>
    ensures text { OnOk result (text.new.items
        ≡ text.old.items ++ compact_text (reply_data (Reply.Count count))) }
    ensures numbers { IsU64 count }
{
    push_numbered(text, "{\"count\":", count)?;
    push_text(text, "}")
}

/// Appends a reply as JSON. Only want of memory refuses; what the text holds then isn't said.
#[tactic(auto, unfolding(serde_json::proofs::OnLiterals::serde_json_on_literals))]
pub fn push_reply(text: &mut Vec<u8>, reply: &Reply) -> Result<(), AllocError>
    ensures text { OnOk result (text.new.items
        ≡ text.old.items ++ compact_text (reply_data reply.now)) }
    ensures numbers { OnOk result (ReplyIsU64 reply.now) }
    ensures words { OnOk result (HasFewWords reply.now) }
{
    match reply {
        Reply::Stamp(stamp) => push_number(text, *stamp),
        Reply::Yes => push_text(text, "\"yes\""),
        Reply::No => push_text(text, "\"no\""),
        Reply::Done => push_text(text, "\"done\""),
        Reply::Mismatch => push_text(text, "\"mismatch\""),
        Reply::Count(count) => push_count(text, *count),
        Reply::Content(words) => push_words(text, words),
    }
}
