//! What a call of the lock does with the word that it finds. Its replies have no room for the words
//! of a record.
ghost use Rattle.std.specs.Prelude.{◌≡◌, IsTrue};
ghost use Rattle.stamp_core.specs.Call.{is_lock_call};
ghost use Rattle.stamp_core.specs.Word.{IsAdmitted};
ghost use Rattle.stamp_core.specs.Decision.{Decides, StampIsBelowTop};
ghost use Rattle.stamp_core.specs.CountedDecision.{decision};
ghost use Rattle.stamp_core.specs.LockDecision.{reply_as, decision_as};

use crate::call::Call;
use crate::call_table::decided;
use crate::decision::Decision;
use crate::limits::Limits;
use crate::reply::Reply;
use crate::word::Word;

/// What a call of the lock is answered: as `Reply`, without `Content`.
#[derive(Clone, Copy, Debug, PartialEq, Eq)]
pub enum LockReply {
    /// A stamp, or 0 where the mode was not acquired.
    Stamp(u64),
    /// What was asked is so; or the release without a stamp was made.
    Yes,
    /// It is not so; or nothing was released.
    No,
    /// The release by a stamp was made.
    Done,
    /// Nothing was released, since the stamp matches no held mode that the call releases
    /// (`IllegalMonitorStateException` in Java).
    Mismatch,
    /// How many readers there are.
    Count(u64),
}

/// What a call of the lock is to do with the word that it finds: as `Decision`, in fewer bytes.
#[derive(Clone, Copy, Debug, PartialEq, Eq)]
pub enum LockDecision {
    /// To leave the word, and answer this.
    Answer(LockReply),
    /// To put this word in its place, and answer this.
    Change(Word, LockReply),
    /// To look again later.
    Wait,
}

impl LockReply {
    /// The same reply, among those of lock and record.
    #[inline(always)]
    pub fn as_reply(self) -> Reply
        ensures { result ≡ reply_as self }
    {
        match self {
            LockReply::Stamp(stamp) => Reply::Stamp(stamp),
            LockReply::Yes => Reply::Yes,
            LockReply::No => Reply::No,
            LockReply::Done => Reply::Done,
            LockReply::Mismatch => Reply::Mismatch,
            LockReply::Count(count) => Reply::Count(count),
        }
    }
}

impl LockDecision {
    /// The same decision, with room for any reply.
    #[inline(always)]
    pub fn as_decision(self) -> Decision
        ensures { result ≡ decision_as self }
    {
        match self {
            LockDecision::Answer(reply) => Decision::Answer(reply.as_reply()),
            LockDecision::Change(new, reply) => Decision::Change(new, reply.as_reply()),
            LockDecision::Wait => Decision::Wait,
        }
    }
}

/// As `decide`, in fewer bytes: its replies have no room for the words of a record.
#[inline(always)]
pub fn decide_lock(limits: Limits, word: Word, call: &Call) -> LockDecision
    requires admitted { IsAdmitted limits word }
    requires lock_call { IsTrue (is_lock_call call.now) }
    ensures decides { Decides limits word call.now (decision_as result) }

    // For the crates above: the decision is a function of the number, and its stamp leaves room.
    ensures number { decision_as result ≡ decision limits word.bits call.now }
    ensures fits { StampIsBelowTop (decision_as result) }
{
    limits.known();
    decided(limits, word, call)
}
