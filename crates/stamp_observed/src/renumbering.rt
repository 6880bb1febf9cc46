//! Stamps renumbered, as the lock issues them where its first write acquisitions are left out.
ghost use Rattle.std.specs.Prelude.{◌≡◌, IfOk, map};
ghost use Rattle.stamp_core.specs.Layout.{units_of};
ghost use Rattle.stamp_observed.specs.Issued.{stamp_taken};
ghost use Rattle.stamp_observed.specs.Renumbering.{renumbered_stamp, renumbered_call, renumbered_reply};

use stamp_core::{Call, Layout, Reply};
use std::alloc::{AllocError, Global};

/// What one write acquisition adds to a number.
#[tactic(auto, unfolding(stamp_core::specs::Layout::units_of))]
fn version_unit(layout: Layout) -> u64
    ensures { result ≡ (units_of layout).version }
{
    match layout {
        Layout::One => 256,
        Layout::Two => 131_072,
    }
}

/// The stamp with so many versions less.
pub(crate) fn renumbered_stamp(layout: Layout, versions: u64, stamp: u64) -> u64
    ensures { result ≡ renumbered_stamp (units_of layout) versions stamp }
{
    let unit = version_unit(layout);
    if stamp < unit {
        return stamp;
    }
    match versions.checked_mul(unit) {
        Some(less) if less <= stamp - unit => stamp - less,
        _ => 0,
    }
}

/// The stamp that the call takes, if it takes one.
pub(crate) fn stamp_of(call: &Call) -> Option<u64>
    ensures { result ≡ stamp_taken call.now }
{
    match *call {
        Call::Validate(stamp)
        | Call::UnlockWrite(stamp)
        | Call::UnlockRead(stamp)
        | Call::Unlock(stamp)
        | Call::ToWrite(stamp)
        | Call::ToRead(stamp)
        | Call::ToOptimistic(stamp) => Some(stamp),
        _ => None,
    }
}

pub(crate) fn renumbered_call(layout: Layout, versions: u64, call: &Call) -> Call
    ensures { result ≡ renumbered_call (units_of layout) versions call.now }
{
    match *call {
        Call::Validate(stamp) => Call::Validate(renumbered_stamp(layout, versions, stamp)),
        Call::UnlockWrite(stamp) => Call::UnlockWrite(renumbered_stamp(layout, versions, stamp)),
        Call::UnlockRead(stamp) => Call::UnlockRead(renumbered_stamp(layout, versions, stamp)),
        Call::Unlock(stamp) => Call::Unlock(renumbered_stamp(layout, versions, stamp)),
        Call::ToWrite(stamp) => Call::ToWrite(renumbered_stamp(layout, versions, stamp)),
        Call::ToRead(stamp) => Call::ToRead(renumbered_stamp(layout, versions, stamp)),
        Call::ToOptimistic(stamp) => Call::ToOptimistic(renumbered_stamp(layout, versions, stamp)),
        other => other,
    }
}

pub(crate) fn renumbered_reply(layout: Layout, versions: u64, reply: &Reply) -> Reply
    ensures { result ≡ renumbered_reply (units_of layout) versions reply.now }
{
    match *reply {
        Reply::Stamp(stamp) => Reply::Stamp(renumbered_stamp(layout, versions, stamp)),
        other => other,
    }
}

pub(crate) fn renumbered_replies(
    alloc: Global,
    layout: Layout,
    versions: u64,
    replies: &[Reply],
) -> Result<Vec<Reply>, AllocError>
    ensures { IfOk result (λ made. made.items
        ≡ map (renumbered_reply (units_of layout) versions) replies.now) }
{
    let mut made = Vec::with_capacity(alloc, replies.len())?;
    for reply in replies {
        made.push(renumbered_reply(layout, versions, reply))?;
    }
    Ok(made)
}
