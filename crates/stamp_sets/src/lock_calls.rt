//! What calls of the lock do alike, and when their replies tell of no change.
ghost use Rattle.std.specs.Prelude.{◌≡◌, IsTrue, MatchOption, ⊤};
ghost use Rattle.stamp_core.specs.Layout.{units_of};
ghost use Rattle.stamp_core.specs.LockCall.{call_as};
ghost use Rattle.stamp_core.specs.LockDecision.{reply_as};
ghost use Rattle.stamp_sets.specs.Unchanging.{changes_nothing};
ghost use Rattle.stamp_runs.specs.LockRun.{DoSame};
ghost use Rattle.stamp_sets.specs.inner.Alike.{IsReadOf, ReleasesRead};
ghost use Rattle.stamp_sets.specs.inner.Stamps.{is_this_stamp};

use stamp_core::{Layout, Limits, LockCall, LockReply, StampKind, stamp_kind_in};

fn is_stamp(reply: LockReply, stamp: u64) -> bool
    ensures { result ≡ is_this_stamp (reply_as reply) stamp }
{
    match reply {
        LockReply::Stamp(number) => number == stamp,
        _ => false,
    }
}

/// The version of the number, if it is a read stamp.
fn read_version(layout: Layout, stamp: u64) -> Option<u64>
    ensures { MatchOption result ⊤ (λ version. IsReadOf (units_of layout) version stamp) }
{
    match stamp_kind_in(layout, stamp) {
        StampKind::Read(version, _) => Some(version),
        _ => None,
    }
}

/// The version of the read stamp by which the call releases read mode, if it does.
fn released_version(call: LockCall, layout: Layout) -> Option<u64>
    ensures { MatchOption result ⊤ (λ version. ReleasesRead (units_of layout) version (call_as call)) }
{
    match call {
        LockCall::UnlockRead(stamp) => read_version(layout, stamp),
        LockCall::Unlock(stamp) => read_version(layout, stamp),
        _ => None,
    }
}

/// Whether both calls do the same: they are one call, or release read mode by stamps of one version.
pub(crate) fn does_same(limits: Limits, call: LockCall, other: LockCall) -> bool
    ensures { IsTrue result → DoSame limits (call_as call) (call_as other) }
{
    if call == other {
        return true;
    }
    let layout = limits.layout();
    let Some(version) = released_version(call, layout) else {
        return false;
    };
    match released_version(other, layout) {
        Some(others) => version == others,
        None => false,
    }
}

/// Whether the reply tells that the call changed nothing.
pub(crate) fn is_unchanging(call: LockCall, reply: LockReply) -> bool
    ensures { result ≡ changes_nothing (call_as call) (reply_as reply) }
{
    match call {
        LockCall::Optimistic
        | LockCall::Validate(_)
        | LockCall::IsWriteLocked
        | LockCall::IsReadLocked
        | LockCall::ReadCount => true,
        LockCall::TryWrite | LockCall::TryRead | LockCall::WriteLock => is_stamp(reply, 0),
        LockCall::UnlockWrite(_) | LockCall::UnlockRead(_) | LockCall::Unlock(_) => {
            matches!(reply, LockReply::Mismatch)
        }
        LockCall::ToWrite(stamp) | LockCall::ToRead(stamp) | LockCall::ToOptimistic(stamp) => {
            is_stamp(reply, 0) || is_stamp(reply, stamp)
        }
        LockCall::TryUnlockWrite | LockCall::TryUnlockRead => matches!(reply, LockReply::No),
        LockCall::ReadLock => false,
    }
}
