//! A lock call under way: a load, and exchanges until one wins or the word found decides the call.
//! It has seen the word that it is to change, or has seen none, and then has to load it.
ghost use Rattle.std.specs.Prelude.{◌≡◌, ◌↔◌, ℕ, Some, IsTrue};
ghost use Rattle.stamp_core.specs.Word.{IsAdmitted, word_at};
ghost use Rattle.stamp_machines.specs.LocalAccess.{with_lock};
ghost use Rattle.stamp_machines.specs.inner.LocalAccess.{lock_after};
ghost use Rattle.stamp_machines.specs.LockPhase.{phase_plan, phase_after};
ghost use Rattle.stamp_machines.specs.LockCallSteps.{Plans, PhaseLeads};
ghost use Rattle.stamp_machines.specs.IsLockPhase.{IsLockPhase};
ghost use Rattle.stamp_machines.specs.inner.IsLockPhase.{phase_turn, IsPhaseTurn};

use crate::access::Access;
use stamp_core::{Call, Limits, LockDecision, Reply, decide_lock};
use std::ops::ControlFlow;

/// The next access of a lock call, on the word `at`: an exchange of the word seen for the one that the
/// call changes it to, and a load where none was seen.
#[inline(always)]
pub(crate) fn lock_access(at: usize, limits: Limits, call: &Call, seen: Option<u64>) -> Access
    requires { IsLockPhase limits call.now seen }
    ensures plan { result ≡ with_lock at (phase_plan limits call.now seen) }
    ensures plans { Plans (record { at = at; limits = limits; call = call.now; seen = seen })
        result }
{
    let Some(old) = seen else {
        return Access::Load(at);
    };
    // By this call the prover knows that the limits are in range.
    let _ = limits.layout();
    match decide_lock(limits, limits.word(old), call) {
        LockDecision::Change(new, _) => Access::Cas(at, old, new.bits()),
        LockDecision::Answer(_) | LockDecision::Wait => Access::Load(at),
    }
}

/// Decides a lock call on the word that its access has found. Gives the word after the access, and
/// where the call goes on: to an exchange from this word, which was seen, or to a load. Where it
/// has ended, its reply is written to `reply`.
#[inline(always)]
pub(crate) fn decide_on(
    limits: Limits,
    call: &Call,
    seen: Option<u64>,
    found: u64,
    reply: &mut Reply,
) -> (u64, ControlFlow<(), Option<u64>>)
    requires phase { IsLockPhase limits call.now seen }
    requires word { IsAdmitted limits (word_at limits found) }
    ensures word { result.0 ≡ lock_after (phase_plan limits call.now seen) found }
    ensures turn { phase_turn result.1 reply.new ≡ phase_after limits call.now seen found }
    ensures changing { IsPhaseTurn limits call.now (phase_turn result.1 reply.new) }
    ensures leads { (at : ℕ) →
        PhaseLeads (record { at = at; limits = limits; call = call.now; seen = seen }) found
        (phase_turn result.1 reply.new) }
{
    // By this call the prover knows that the limits are in range.
    let _ = limits.layout();
    match decide_lock(limits, limits.word(found), call) {
        LockDecision::Answer(lock_reply) => {
            *reply = lock_reply.as_reply();
            (found, ControlFlow::Break(()))
        }
        LockDecision::Change(new, lock_reply) => {
            if is_seen(seen, found) {
                *reply = lock_reply.as_reply();
                (new.bits(), ControlFlow::Break(()))
            } else {
                (found, ControlFlow::Continue(Some(found)))
            }
        }
        LockDecision::Wait => (found, ControlFlow::Continue(None)),
    }
}

/// Whether this word is the one that was seen.
#[inline(always)]
fn is_seen(seen: Option<u64>, found: u64) -> bool
    ensures { IsTrue result ↔ (seen ≡ Some found) }
{
    match seen {
        Some(old) => found == old,
        None => false,
    }
}
