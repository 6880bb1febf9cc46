//! The replies that were possible where a stream is stuck, as a text.

ghost use Rattle.std.specs.Prelude.{◌≡◌, IfOk, Some, string_bytes};
ghost use Rattle.stamped_watch.specs.Possible.{others_text, possible_text};

use stamp_core::Reply;
use std::alloc::{AllocError, Global};

/// The replies as texts, each behind a comma.
fn others_text(alloc: Global, replies: &[Reply]) -> Result<String, AllocError>
    ensures { IfOk result (λ text. string_bytes text ≡ others_text replies.now) }
{
    let mut text = String::new(alloc);
    for reply in replies {
        let label = reply.to_string(alloc)?;
        text.push_str(", ")?;
        text.push_str(&label)?;
    }
    Ok(text)
}

/// The replies that were possible, as a text.
pub(crate) fn possible_text(alloc: Global, replies: &[Reply]) -> Result<String, AllocError>
    ensures { IfOk result (λ text. string_bytes text ≡ possible_text (Some replies.now)) }
{
    let Some(first) = replies.first() else {
        return format!(in alloc; "; no reply was found possible");
    };
    let others = others_text(alloc, &replies[1..])?;
    format!(in alloc; "; possible: {first}{others}")
}
