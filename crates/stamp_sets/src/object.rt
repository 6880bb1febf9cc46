//! The object whose runs are judged: a lock, or the record that it guards.
ghost use Rattle.std.specs.Prelude.{◌≡◌, IsTrue};
ghost use Rattle.stamp_runs.specs.Run.{AreAlike};
ghost use Rattle.stamp_sets.specs.Judged.{guarded, judged, left_by, lock, may_be_done};
ghost use Rattle.stamp_sets.specs.Kept.{may_be_free};
ghost use Rattle.stamp_sets.specs.SmallCall.{call_of};
ghost use Rattle.stamp_sets.specs.declared.object.Object.{Object};
ghost use Rattle.stamp_sets.specs.Unchanging.{small_unchanging};
ghost use Rattle.stamp_sets.specs.inner.Effect.{ChangesNothing, IsEffect, IsOverwritingTo};
ghost use Rattle.stamp_sets.specs.inner.State.{IsState};

use crate::ending::is_same_reply;
use crate::lock_calls;
use crate::open_call::OpenCall;
use crate::small_call::{SmallCall, SmallReply};
use stamp_core::{Limits, LockDecision, LockReply, Word, decide_lock};

/// A judged object: a lock with these limits; or a record, by the numbers of its contents.
#[derive(Clone, Copy)]
pub(crate) enum Object {
    Lock(Limits),
    Record,
}

/// The number of a lock's word at first.
fn lock_opening(limits: Limits) -> u64
    ensures { (lock limits).holds result (lock limits).start }
{
    Word::opening_in(limits.layout()).bits()
}

/// What a call of the lock leaves: as `state_after`.
#[inline(always)]
fn lock_after(limits: Limits, state: u64, begun: &OpenCall) -> Option<u64>
    requires { IsState (lock limits) state }
    ensures { IsEffect (lock limits) state begun.now result }
{
    let SmallCall::OfLock(call) = begun.asks else {
        return None;
    };
    match decide_lock(limits, limits.word(state), &call.as_call()) {
        LockDecision::Answer(reply) => {
            if begun.ends.is_return(SmallReply::OfLock(reply)) {
                Some(state)
            } else {
                None
            }
        }
        LockDecision::Change(next, reply) => {
            if begun.ends.may_get(SmallReply::OfLock(reply)) {
                Some(next.bits())
            } else {
                None
            }
        }
        LockDecision::Wait => None,
    }
}

/// What a call of the record leaves: as `state_after`.
fn record_after(state: u64, begun: &OpenCall) -> Option<u64>
    ensures { IsEffect guarded state begun.now result }
{
    match begun.asks {
        SmallCall::OfLock(_) => None,
        SmallCall::Get => {
            if begun.ends.is_return(SmallReply::Content(state)) {
                Some(state)
            } else {
                None
            }
        }
        SmallCall::Put(next) => {
            if begun.ends.may_get(SmallReply::OfLock(LockReply::Done)) {
                Some(next)
            } else {
                None
            }
        }
        SmallCall::PutIf(expected, number) => {
            if expected == state {
                if begun.ends.may_get(SmallReply::OfLock(LockReply::Yes)) {
                    Some(number)
                } else {
                    None
                }
            } else if begun.ends.is_return(SmallReply::OfLock(LockReply::No)) {
                Some(state)
            } else {
                None
            }
        }
    }
}

/// The number of the content that a put leaves, if it may be answered.
fn put_leaves(begun: &OpenCall) -> Option<u64>
    ensures { result ≡ left_by begun.now.asks (may_be_done begun.now.ends) }
{
    let SmallCall::Put(number) = begun.asks else {
        return None;
    };
    if begun.ends.may_get(SmallReply::OfLock(LockReply::Done)) {
        Some(number)
    } else {
        None
    }
}

impl Object {
    /// The number of its state at first.
    pub(crate) fn opening(&self) -> u64
        ensures { (judged self.now).holds result (judged self.now).start }
    {
        match self {
            Object::Lock(limits) => lock_opening(*limits),
            Object::Record => 0,
        }
    }

    /// The number of the state once the call has taken effect in this one, with a reply that it may get. Nothing also
    /// where the call never ends and would change nothing.
    #[inline(always)]
    pub(crate) fn state_after(&self, state: u64, begun: &OpenCall) -> Option<u64>
        requires { IsState (judged self.now) state }
        ensures { IsEffect (judged self.now) state begun.now result }
    {
        match self {
            Object::Lock(limits) => lock_after(*limits, state, begun),
            Object::Record => record_after(state, begun),
        }
    }

    /// The number of the state that the call leaves wherever it takes effect, if it leaves one, with a reply that it may
    /// get. So does a put; no call of a lock does.
    pub(crate) fn overwrites(&self, begun: &OpenCall) -> Option<u64>
        ensures value { result ≡ (judged self.now).overwrites begun.now }
        ensures leaves { IsOverwritingTo (judged self.now) begun.now result }
    {
        match self {
            Object::Lock(_) => None,
            Object::Record => put_leaves(begun),
        }
    }

    /// Whether the call may be free: it is the record's, and it overwrites, or the reply that is told of it is one by
    /// which it changes nothing.
    pub(crate) fn may_be_free(&self, begun: &OpenCall) -> bool
        ensures { result ≡ may_be_free (judged self.now) begun.now }
    {
        let Object::Record = self else {
            return false;
        };
        if self.overwrites(begun).is_some() {
            return true;
        }
        begun.is_unchanging()
    }

    /// Whether both calls do the same in any state.
    pub(crate) fn does_same(&self, call: SmallCall, other: SmallCall) -> bool
        ensures { IsTrue result → AreAlike (judged self.now).step (call_of call) (call_of other) }
    {
        if call == other {
            return true;
        }
        let Object::Lock(limits) = self else {
            return false;
        };
        let SmallCall::OfLock(first) = call else {
            return false;
        };
        match other {
            SmallCall::OfLock(second) => lock_calls::does_same(*limits, first, second),
            _ => false,
        }
    }
}

/// Whether the reply tells that the call changed nothing, of whatever object.
pub(crate) fn is_unchanging(call: SmallCall, reply: SmallReply) -> bool
    ensures value { result ≡ small_unchanging call reply }
    ensures unchanging { IsTrue result → (object : Object) → ChangesNothing (judged object) call reply }
{
    match call {
        SmallCall::OfLock(call) => match reply {
            SmallReply::OfLock(reply) => lock_calls::is_unchanging(call, reply),
            SmallReply::Content(_) => false,
        },
        SmallCall::Get => true,
        SmallCall::Put(_) => false,
        SmallCall::PutIf(_, _) => is_same_reply(reply, SmallReply::OfLock(LockReply::No)),
    }
}
