//! The text of what a replay answered.

ghost use Rattle.std.specs.Prelude.{◌≡◌, ◌++◌, true, codes, OnOk, IfOk, IsOkUnless};
ghost use Rattle.serde_json.specs.Data.{no_members, member};
ghost use Rattle.serde_json.specs.Written.{compact_text, members_text};
ghost use Rattle.stamp_history.specs.ReplayText.{number_data, replies_data, replayed_data, replayed_text};

use crate::json_text::{push_comma, push_numbered, push_reply, push_text};
use crate::read_error::ReadError;
use stamp_core::{Replayed, Reply};
use std::alloc::{AllocError, Global};

/// Appends the word's number under its key, and the end of the object.
#[tactic(auto, unfolding(serde_json::proofs::OnLiterals::serde_json_on_literals))]
pub(crate) fn push_word(text: &mut Vec<u8>, word: u64) -> Result<(), AllocError>
    ensures { OnOk result (text.new.items ≡ text.old.items
        ++ members_text true (member (codes "word") (number_data word) no_members)) }
{
    push_numbered(text, ",\"word\":", word)?;
    push_text(text, "}")
}

fn push_replies(text: &mut Vec<u8>, replies: &[Reply]) -> Result<(), AllocError>
    ensures { OnOk result (text.new.items
        ≡ text.old.items ++ compact_text (replies_data replies.now)) }
{
    push_text(text, "[")?;
    for (index, reply) in replies.iter().enumerate() {
        push_comma(text, index)?;
        push_reply(text, reply)?;
    }
    push_text(text, "]")?;
    Ok(())
}

fn push_replayed(text: &mut Vec<u8>, done: &Replayed) -> Result<(), AllocError>
    ensures { OnOk result (text.new.items ≡ text.old.items
        ++ compact_text (replayed_data done.now.replies.items done.now.word.bits)) }
{
    push_text(text, "{\"replies\":")?;
    push_replies(text, &done.replies)?;
    push_word(text, done.word.bits())?;
    Ok(())
}

/// Writes the compact text of the replies and of the word's number. It is as
/// `{"replies":[256,"yes"],"word":256}`. The one error is 4 `Memory`, after which nothing is kept.
#[tactic(auto, unfolding(crate::specs::ReplayText::replayed_text))]
pub fn write_replay(alloc: Global, done: &Replayed) -> Result<Vec<u8>, ReadError>
    ensures text { IfOk result (λ text. text.items
        ≡ replayed_text done.now.replies.items done.now.word.bits) }
    ensures refused { IsOkUnless result ReadError.Memory }
{
    let mut text = Vec::new(alloc);
    push_replayed(&mut text, done)?;
    Ok(text)
}
