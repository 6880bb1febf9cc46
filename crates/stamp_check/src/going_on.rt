//! What lock and record do at one call of a history.
ghost use Rattle.std.specs.Prelude.{◌≡◌, ◌↔◌, IsTrue, MatchOption};
ghost use Rattle.stamp_core.specs.Word.{IsAdmitted, word_at};
ghost use Rattle.stamp_core.specs.Call.{is_lock_call};
ghost use Rattle.stamp_core.specs.LockDecision.{reply_as};
ghost use Rattle.stamp_check.specs.inner.GoesOn.{LockGoesOn, RecordGoesOn};

use stamp_core::{Call, Limits, LockDecision, LockReply, Reply, Words, decide_lock};

/// Whether the lock's answer is this reply. Built into its caller, where the answer then needs no
/// place in memory.
#[inline(always)]
fn is_answer(answer: LockReply, reply: &Reply) -> bool
    ensures { IsTrue result ↔ (reply_as answer ≡ reply.now) }
{
    match *reply {
        Reply::Stamp(stamp) => matches!(answer, LockReply::Stamp(issued) if issued == stamp),
        Reply::Yes => matches!(answer, LockReply::Yes),
        Reply::No => matches!(answer, LockReply::No),
        Reply::Done => matches!(answer, LockReply::Done),
        Reply::Mismatch => matches!(answer, LockReply::Mismatch),
        Reply::Count(count) => matches!(answer, LockReply::Count(counted) if counted == count),
        Reply::Content(_) => false,
    }
}

#[inline(always)]
fn where_answered(bits: u64, answer: LockReply, reply: &Reply) -> Option<u64>
    ensures { MatchOption result (¬ (reply_as answer ≡ reply.now))
        (λ next. (reply_as answer ≡ reply.now) × (next ≡ bits)) }
{
    if is_answer(answer, reply) {
        Some(bits)
    } else {
        None
    }
}

/// The number of the word after a call of the lock, where this is its reply.
pub(crate) fn lock_goes_on(limits: Limits, bits: u64, call: &Call, reply: &Reply) -> Option<u64>
    requires admitted { IsAdmitted limits (word_at limits bits) }
    requires lock_call { IsTrue (is_lock_call call.now) }
    ensures { LockGoesOn limits bits call.now reply.now result }
{
    match decide_lock(limits, limits.word(bits), call) {
        LockDecision::Answer(answer) => where_answered(bits, answer, reply),
        LockDecision::Change(next, answer) => where_answered(next.bits(), answer, reply),
        LockDecision::Wait => None,
    }
}

/// The content after a call of the record, where this is its reply.
pub(crate) fn record_goes_on(content: &Words, call: &Call, reply: &Reply) -> Option<Words>
    ensures { RecordGoesOn content.now call.now reply.now result }
{
    match *call {
        Call::Get => {
            if reply.is_same(&Reply::Content(*content)) {
                Some(*content)
            } else {
                None
            }
        }
        Call::Put(words) => {
            if reply.is_same(&Reply::Done) {
                Some(words)
            } else {
                None
            }
        }
        Call::PutIf(expected, words) => put_if(content, expected, words, reply),
        _ => None,
    }
}

fn put_if(content: &Words, expected: Words, words: Words, reply: &Reply) -> Option<Words>
    ensures { RecordGoesOn content.now (Call.PutIf expected words) reply.now result }
{
    if content.is_same(&expected) {
        if reply.is_same(&Reply::Yes) {
            Some(words)
        } else {
            None
        }
    } else if reply.is_same(&Reply::No) {
        Some(*content)
    } else {
        None
    }
}
