//! What a call does with the word that it finds.
ghost use Rattle.std.specs.Prelude.{◌≡◌, IsTrue};
ghost use Rattle.stamp_core.specs.Call.{is_lock_call};
ghost use Rattle.stamp_core.specs.Word.{IsAdmitted};
ghost use Rattle.stamp_core.specs.Decision.{Decides, IsTransition, StampIsBelowTop};
ghost use Rattle.stamp_core.specs.CountedDecision.{decision};

use crate::call::Call;
use crate::limits::Limits;
use crate::lock_decision::decide_lock;
use crate::reply::Reply;
use crate::word::Word;

/// What a call is to do with the word that it finds.
#[derive(Clone, Copy, Debug, PartialEq, Eq)]
pub enum Decision {
    /// It is answered, and the word stays.
    Answer(Reply),
    /// The word is to become this other one, and then the call is answered.
    Change(Word, Reply),
    /// It waits: `WriteLock` and `ReadLock` alone do.
    Wait,
}

/// Decides a call of the lock by the word found, which is one that the limits admit.
#[inline(always)]
pub fn decide(limits: Limits, word: Word, call: Call) -> Decision
    requires admitted { IsAdmitted limits word }
    requires lock_call { IsTrue (is_lock_call call) }
    ensures decides { Decides limits word call result }

    // For the crates above: the decision is a function of the number, and its stamp leaves room.
    ensures number { result ≡ decision limits word.bits call }
    ensures fits { StampIsBelowTop result }
{
    decide_lock(limits, word, &call).as_decision()
}

/// What a call of the lock makes of a word that the limits admit: the word after it, and the reply.
/// `None` where the call waits.
pub fn transition(limits: Limits, word: Word, call: Call) -> Option<(Word, Reply)>
    requires admitted { IsAdmitted limits word }
    requires lock_call { IsTrue (is_lock_call call) }
    ensures { IsTransition limits word call result }
{
    match decide(limits, word, call) {
        Decision::Answer(reply) => Some((word, reply)),
        Decision::Change(next, reply) => Some((next, reply)),
        Decision::Wait => None,
    }
}
