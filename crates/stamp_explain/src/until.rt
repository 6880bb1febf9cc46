//! What an observer has seen when a call returns, with another reply of it or none.
ghost use Rattle.std.specs.Prelude.{IfOk};
ghost use Rattle.stamp_explain.specs.Observed.{IsObserved, IsReturnAt};
ghost use Rattle.stamp_explain.specs.Possible.{IsSeenUntil};

use crate::cut::seen_at;
use crate::observed::Observed;
use crate::possible::with_reply;
use stamp_core::Reply;
use std::alloc::{AllocError, Global};

/// What an observer has seen when the call of this entry has returned, with this reply in place of
/// its own; or, with none, just before it returns. What returns later is under way there, and what
/// begins later is left out, so that an entry's number may change. An observer may tell it, too.
/// Only want of memory refuses.
pub fn seen_until(
    alloc: Global,
    observed: &Observed,
    entry: usize,
    reply: Option<Reply>,
) -> Result<Observed, AllocError>
    requires observed { IsObserved observed.now }
    requires returned { IsReturnAt observed.now.entries entry }
    ensures seen { IfOk result (λ seen. IsSeenUntil observed.now entry reply seen) }
    ensures told { IfOk result (λ seen. IsObserved seen) }
{
    let observation = &observed.entries()[entry];
    let Some(returned) = &observation.returned else {
        unreachable!();
    };
    let Some(reply) = reply else {
        return seen_at(alloc, observed, returned.last, entry);
    };
    let tried = with_reply(alloc, observed, entry, *observation, *returned, reply)?;
    seen_at(alloc, &tried, returned.last, entry + 1)
}
