//! A call as a machine that makes one access a step.
ghost use Rattle.std.specs.Prelude.{◌≡◌, ◌<◌, ◌≤◌, IsTrue, IfSome, length};
ghost use Rattle.stamp_core.specs.Call.{is_lock_call, call_suits};
ghost use Rattle.stamp_machines.specs.LockCallSteps.{Plans, LockCallLeads, lock_phase};
ghost use Rattle.stamp_machines.specs.MachinePhase.{phase_in, phase_of, MachineLeads};
ghost use Rattle.stamp_machines.specs.MachineState.{start};
ghost use Rattle.stamp_machines.specs.Machine.{plan_of, after_access, IsFound};
ghost use Rattle.stamp_core.specs.Word.{IsAdmitted, word_at};
ghost use Rattle.stamp_machines.specs.Machine.{after_in, IsFoundIn};
ghost use Rattle.stamp_machines.specs.MachineState.{MachineState, OnLock, record_limits};
ghost use Rattle.stamp_machines.specs.Access.{index_of, words_after, found_by};
ghost use Rattle.stamp_machines.specs.inner.MachineTurn.{turn_of};
ghost use Rattle.stamp_machines.specs.MachineFields.{stage_at, own_call_in, IsStage, IsOwnLockCall};
ghost use Rattle.stamp_machines.specs.inner.MachineFields.{turn_in, IsNextStage};
ghost use Rattle.stamp_machines.specs.RecordStage.{call_for};

use crate::access::{Access, FIRST_WORD, LOCK, RECORD_LOCK, make};
use crate::loaded_words::LoadedWords;
use crate::lock_phase::{decide_on, lock_access};
use crate::shape::Shape;
use crate::stage::{
    OwnLockCall, Stage, after_check, after_copy, after_lock_load, after_own_call, after_read,
    after_store, call_for, first_stage, new_word, released_reply,
};
use stamp_core::{Call, Reply};
use std::marker::Model;
use std::ops::ControlFlow;

/// A call that is made one access at a time: `plan` tells the next one, and `resume` goes on by
/// what it found.
#[derive(Drop)]
pub struct Machine {
    shape: Shape,
    call: Call,
    loaded: LoadedWords,
    stage: Stage,
}

/// What `resume` gives: the machine, to go on, or the reply of the call that has ended.
#[derive(Drop)]
pub enum Turn {
    /// The call goes on.
    Going(Machine),
    /// The call has ended, with this reply.
    Done(Reply),
}

impl Model for Machine {
    ghost use Rattle.stamp_machines.specs.MachineState.{MachineState};

    ghost Value = { MachineState };

    ghost use Rattle.stamp_machines.specs.MachineFields.{machine_state_of, IsAtStage};

    ghost view = { machine_state_of };

    ghost invariant = { IsAtStage };
}

/// Where a lock call goes on after its access has found this at word 0, the word of the lock.
#[inline(always)]
fn after_on_lock(
    shape: &Shape,
    call: &Call,
    loaded: &LoadedWords,
    seen: Option<u64>,
    found: u64,
    reply: &mut Reply,
) -> ControlFlow<(), Stage>
    requires stage { IsStage shape.now call.now loaded.now (Stage.OnLock seen) }
    requires found { IsFoundIn shape.now (stage_at call.now loaded.now (Stage.OnLock seen)) found }
    ensures after { turn_in shape.now call.now loaded.now reply.new result
        ≡ after_in shape.now call.now found (stage_at call.now loaded.now (Stage.OnLock seen)) }
    ensures sound { IsNextStage shape.now call.now loaded.now loaded.now result }
    ensures leads { LockCallLeads (lock_phase
        (record {
          shape = shape.now;
          call = call.now;
          stage = stage_at call.now loaded.now (Stage.OnLock seen);
        })) found
        (turn_in shape.now call.now loaded.now reply.new result) }
    ensures phase { IfSome
        (phase_in shape.now call.now (stage_at call.now loaded.now (Stage.OnLock seen)))
        (λ p. MachineLeads p found (turn_in shape.now call.now loaded.now reply.new result)) }
{
    let (_, next) = decide_on(shape.limits, call, seen, found, reply);
    let seen = next?;
    ControlFlow::Continue(Stage::OnLock { seen })
}

/// Where a call of the record goes on from a lock call on the record's own lock, after an access
/// has found this at its word, word 1.
#[inline(always)]
fn after_locking(
    shape: &Shape,
    call: &Call,
    own_call: OwnLockCall,
    seen: Option<u64>,
    loaded: &mut LoadedWords,
    found: u64,
    reply: &mut Reply,
) -> ControlFlow<(), Stage>
    requires stage { IsStage shape.now call.now loaded.old (Stage.Locking own_call seen) }
    requires found { IsFoundIn shape.now (stage_at call.now loaded.old (Stage.Locking own_call seen))
        found }
    ensures after { turn_in shape.now call.now loaded.new reply.new result
        ≡ after_in shape.now call.now found
        (stage_at call.now loaded.old (Stage.Locking own_call seen)) }
    ensures sound { IsNextStage shape.now call.now loaded.old loaded.new result }
    ensures phase { IfSome
        (phase_in shape.now call.now (stage_at call.now loaded.old (Stage.Locking own_call seen)))
        (λ p. MachineLeads p found (turn_in shape.now call.now loaded.new reply.new result)) }
{
    let limits = shape.record_limits();
    let (_, next) = decide_on(limits, &call_for(own_call), seen, found, reply);
    match next {
        ControlFlow::Continue(seen) => ControlFlow::Continue(Stage::Locking { own_call, seen }),
        ControlFlow::Break(()) => after_own_call(shape, call, own_call, loaded, reply),
    }
}

/// Where a call goes on from a stage after its access has found this. Where it has ended, its reply
/// is written to `reply`.
#[inline(always)]
fn next(
    shape: &Shape,
    call: &Call,
    loaded: &mut LoadedWords,
    stage: Stage,
    found: u64,
    reply: &mut Reply,
) -> ControlFlow<(), Stage>
    requires stage { IsStage shape.now call.now loaded.old stage }
    requires found { IsFoundIn shape.now (stage_at call.now loaded.old stage) found }
    ensures after { turn_in shape.now call.now loaded.new reply.new result
        ≡ after_in shape.now call.now found (stage_at call.now loaded.old stage) }
    ensures sound { IsNextStage shape.now call.now loaded.old loaded.new result }
    ensures leads { IsTrue (is_lock_call call.now) →
        LockCallLeads (lock_phase
        (record {
          shape = shape.now;
          call = call.now;
          stage = stage_at call.now loaded.old stage;
        })) found
        (turn_in shape.now call.now loaded.new reply.new result) }
    ensures phase { IfSome (phase_in shape.now call.now (stage_at call.now loaded.old stage))
        (λ p. MachineLeads p found (turn_in shape.now call.now loaded.new reply.new result)) }
{
    match stage {
        Stage::OnLock { seen } => after_on_lock(shape, call, loaded, seen, found, reply),
        Stage::LoadingLock => ControlFlow::Continue(after_lock_load(shape, call, loaded, found)),
        Stage::Copying { at_first } => after_copy(shape, call, at_first, loaded, found, reply),
        Stage::Locking { own_call, seen } => {
            after_locking(shape, call, own_call, seen, loaded, found, reply)
        }
        Stage::Reading { stamp } => ControlFlow::Continue(after_read(
            shape, call, stamp, loaded, found,
        )),
        Stage::Checking { stamp } => {
            ControlFlow::Continue(after_check(shape, call, stamp, loaded, found))
        }
        Stage::Storing { stamp, stored: i } => {
            ControlFlow::Continue(after_store(shape, call, stamp, i, loaded, found))
        }
        Stage::Releasing { is_stored, .. } => {
            *reply = released_reply(call, is_stored);
            ControlFlow::Break(())
        }
    }
}

impl Machine {
    /// The machine of a call, before its first access. The call suits the shape's width, which is
    /// 16 at most.
    #[inline(always)]
    pub fn start(call: Call, shape: Shape) -> Machine
        requires suits { IsTrue (call_suits shape.width call) }
        requires width { shape.width ≤ 16 }
        ensures { result ≡ start shape call }
    {
        let stage = first_stage(&shape, &call);
        Machine {
            shape,
            call,
            loaded: LoadedWords::none(),
            stage,
        }
    }

    /// The call that is being made.
    pub fn call(&self) -> Call
        ensures { result ≡ self.now.call }
    {
        self.call
    }

    /// The access that comes next. It is the same until the machine is resumed. A call of a lock
    /// loads the lock's word until it has seen one that it changes, and then exchanges that for the
    /// one that it leaves. A call of the record makes such calls on the record's lock, and releases
    /// a write lock by an exchange of its write stamp.
    #[inline(always)]
    pub fn plan(&self) -> Access
        ensures plan { result ≡ plan_of self.now }
        ensures plans { IsTrue (is_lock_call self.now.call) → Plans (lock_phase self.now) result }
        ensures phase { IfSome (phase_of self.now) (λ p. Plans p.state result) }
    {
        match self.stage {
            Stage::OnLock { seen } => lock_access(LOCK, self.shape.limits, &self.call, seen),
            Stage::LoadingLock => Access::Load(RECORD_LOCK),
            Stage::Copying { .. } => {
                if self.loaded.len() < self.shape.word_count() {
                    Access::Load(FIRST_WORD + self.loaded.len())
                } else {
                    Access::Load(RECORD_LOCK)
                }
            }
            Stage::Locking { own_call, seen } => {
                let limits = self.shape.record_limits();
                lock_access(RECORD_LOCK, limits, &call_for(own_call), seen)
            }
            Stage::Reading { .. } | Stage::Checking { .. } => {
                Access::Load(FIRST_WORD + self.loaded.len())
            }
            Stage::Storing { stored, .. } => Access::Store(
                FIRST_WORD + stored,
                new_word(&self.call, stored),
            ),
            Stage::Releasing { stamp, .. } => {
                // A write stamp is the number of the word while it is held: the exchange is from it.
                let released = self.shape.limits.layout().released(stamp);
                Access::Cas(RECORD_LOCK, stamp, released)
            }
        }
    }

    /// Goes on after the planned access. `found` is the value that stood there before it. A call of
    /// a lock ends where its exchange won or the word found answers it. Where it doesn't end, it is
    /// to change the word found, or loads again, which only `WriteLock` and `ReadLock` do, where
    /// they have to wait. A call of the record goes on or ends after its calls of the lock, by
    /// their replies.
    ///
    /// A value found at a lock's word has to be a word that the lock's limits admit. The limits of
    /// the record's own lock are the widest of the layout. Where a call of the record is in a lock
    /// call on that lock, the word found there must have a version left. So whoever drives machines
    /// by hand has to stop before the versions are spent; a run never comes to their end. What is
    /// found at a record's word, or by a releasing exchange, may be any number.
    pub fn resume(self, found: u64) -> Turn
        requires { IsFound self found }
        ensures after { result ≡ after_access self found }
        ensures leads { IsTrue (is_lock_call self.call) → LockCallLeads (lock_phase self) found result }
        ensures phase { IfSome (phase_of self) (λ p. MachineLeads p found result) }
    {
        let mut machine = self;
        let mut reply = Reply::Done;
        if machine.go_on(found, &mut reply) {
            Turn::Done(reply)
        } else {
            Turn::Going(machine)
        }
    }

    /// Makes the planned access and goes on after it, in place. Tells whether the call has ended:
    /// then its reply stands in `reply`, and where the machine stands is of no account. For speed
    /// an access of word 0 has a way of its own: `plan` would decide the lock call on the word
    /// seen, and `go_on` on the word found; here it is decided once, on the word found.
    #[inline(always)]
    pub(crate) fn access(&mut self, words: &mut [u64], reply: &mut Reply) -> bool
        requires inside { index_of (plan_of self.old) < length words.old }
        requires word { IsFound self.old (found_by (plan_of self.old) words.old) }
        ensures words { words.new ≡ words_after (plan_of self.old) words.old }
        ensures after { turn_of self.new reply.new result
            ≡ after_access self.old (found_by (plan_of self.old) words.old) }
        ensures call { self.new.call ≡ self.old.call }
    {
        let Stage::OnLock { seen } = self.stage else {
            let found = make(words, self.plan());
            return self.go_on(found, reply);
        };
        let (word, next) = decide_on(self.shape.limits, &self.call, seen, words[LOCK], reply);
        words[LOCK] = word;
        match next {
            ControlFlow::Continue(seen) => {
                self.stage = Stage::OnLock { seen };
                false
            }
            ControlFlow::Break(()) => true,
        }
    }

    /// Goes on as `resume` does, in place, and tells whether the call has ended. Then its reply
    /// stands in `reply`, and where the machine stands is of no account.
    #[inline(always)]
    pub(crate) fn go_on(&mut self, found: u64, reply: &mut Reply) -> bool
        requires { IsFound self.old found }
        ensures after { turn_of self.new reply.new result ≡ after_access self.old found }
        ensures leads { IsTrue (is_lock_call self.old.call) →
            LockCallLeads (lock_phase self.old) found (turn_of self.new reply.new result) }
        ensures phase { IfSome (phase_of self.old)
            (λ p. MachineLeads p found (turn_of self.new reply.new result)) }
        ensures call { self.new.call ≡ self.old.call }
    {
        match next(
            &self.shape,
            &self.call,
            &mut self.loaded,
            self.stage,
            found,
            reply,
        ) {
            ControlFlow::Continue(stage) => {
                self.stage = stage;
                false
            }
            ControlFlow::Break(()) => true,
        }
    }
}
