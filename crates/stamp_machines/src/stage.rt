//! Where a call stands between two of its accesses, and where each access leads.
ghost use Rattle.std.specs.Prelude.{◌≡◌, ◌<◌, ◌≤◌, ◌^◌, ◌==◌, ◌++◌, ◌∷◌, [], ℕ, List, length};
ghost use Rattle.std.specs.Prelude.{slice_index, IsTrue, None};
ghost use Rattle.stamp_core.specs.Call.{is_lock_call, call_suits};
ghost use Rattle.stamp_core.specs.Decision.{stamp_in};
ghost use Rattle.stamp_core.specs.Word.{IsAdmitted, word_at};
ghost use Rattle.stamp_machines.specs.LockNumber.{counts_at};
ghost use Rattle.stamp_machines.specs.Job.{job_of_call, new_words, is_get, expects, stored_reply};
ghost use Rattle.stamp_machines.specs.RecordStage.{after, unchanged, all_read, own_call_done};
ghost use Rattle.stamp_machines.specs.RecordStage.{claimed, call_for};
ghost use Rattle.stamp_machines.specs.RecordStage as on_record;
ghost use Rattle.stamp_machines.specs.MachineState.{first_stage, record_limits};
ghost use Rattle.stamp_machines.specs.Machine.{record_turn};
ghost use Rattle.stamp_machines.specs.MachineFields.{stage_at, own_call_in, job_or_get, released_reply, IsStage};
ghost use Rattle.stamp_machines.specs.MachineFields.{IsRecordCall, IsPutCall, IsOwnLockCall};
ghost use Rattle.stamp_machines.specs.inner.MachineFields.{going_at, turn_in, IsNextStage};

use crate::loaded_words::LoadedWords;
use crate::shape::Shape;
use stamp_core::{Call, Limits, Reply, Words};
use std::ops::ControlFlow;

/// A lock call on the record's lock, and what its end leads to.
#[derive(Clone, Copy)]
pub(crate) enum OwnLockCall {
    /// A read lock to read under.
    Share,
    /// The words are read, and are the reply.
    Leave { stamp: u64 },
    /// The words are not those expected.
    Refuse { stamp: u64 },
    /// The words are those expected: the read lock is to become a write lock.
    Upgrade { stamp: u64 },
    /// The read lock could not become a write lock: it is released, and a write lock comes next.
    ReleaseFirst { stamp: u64 },
    /// A write lock.
    Claim,
}

/// Where a call stands between two of its accesses. A word that was seen is one that a lock call is
/// to change.
#[derive(Clone, Copy)]
pub(crate) enum Stage {
    /// A call of the lock, on word 0.
    OnLock {
        seen: Option<u64>,
    },
    /// The record's lock has to be loaded.
    LoadingLock,
    /// It was found free, as `at_first`, and words are being loaded without a lock.
    Copying {
        at_first: u64,
    },
    /// A lock call on the record's lock.
    Locking {
        own_call: OwnLockCall,
        seen: Option<u64>,
    },
    /// Words are being loaded under a read lock.
    Reading {
        stamp: u64,
    },
    /// Words are being loaded under a write lock, to be compared.
    Checking {
        stamp: u64,
    },
    /// Words are being stored under a write lock.
    Storing {
        stamp: u64,
        stored: usize,
    },
    /// The write lock is to be released, after the words were stored or were not those expected.
    Releasing {
        stamp: u64,
        is_stored: bool,
    },
}

/// The stamp in a reply, 0 where it has none.
pub(crate) fn stamp_in(reply: &Reply) -> u64
    ensures { result ≡ stamp_in reply.now }
{
    match reply {
        Reply::Stamp(stamp) => *stamp,
        Reply::Yes
        | Reply::No
        | Reply::Done
        | Reply::Mismatch
        | Reply::Count(_)
        | Reply::Content(_) => 0,
    }
}

fn expects(call: &Call, words: &Words) -> bool
    ensures { result ≡ expects (job_or_get call.now) words.now }
{
    match call {
        Call::PutIf(expected, _) => words.is_same(expected),
        _ => true,
    }
}

fn is_get(call: &Call) -> bool
    ensures { result ≡ is_get (job_or_get call.now) }
{
    !matches!(call, Call::Put(_) | Call::PutIf(_, _))
}

/// The word of this index that the call stores.
#[inline(always)]
pub(crate) fn new_word(call: &Call, i: usize) -> u64
    requires { i < length (new_words (job_or_get call.now)) }
    ensures { result ≡ slice_index (new_words (job_or_get call.now)) i }
{
    match call {
        Call::Put(words) | Call::PutIf(_, words) => words.as_slice()[i],
        _ => 0,
    }
}

/// The lock's call that this own lock call makes.
#[inline(always)]
pub(crate) fn call_for(own_call: OwnLockCall) -> Call
    ensures call { (loaded : List ℕ) → result ≡ call_for (own_call_in loaded own_call) }
    ensures lock_call { IsTrue (is_lock_call result) }
{
    match own_call {
        OwnLockCall::Share => Call::ReadLock,
        OwnLockCall::Leave { stamp }
        | OwnLockCall::Refuse { stamp }
        | OwnLockCall::ReleaseFirst { stamp } => { Call::UnlockRead(stamp) }
        OwnLockCall::Upgrade { stamp } => Call::ToWrite(stamp),
        OwnLockCall::Claim => Call::WriteLock,
    }
}

/// Nobody writes.
fn is_free(limits: Limits, found: u64) -> bool
    requires { IsAdmitted limits (word_at limits found) }
    ensures { result ≡ ((counts_at limits found).writers == 0) }
{
    // By this call the prover knows that the limits are in range.
    let _ = limits.layout();
    !limits.word(found).is_writing()
}

/// Nobody writes, nor has since `at_first` was found.
fn is_unchanged(limits: Limits, at_first: u64, found: u64) -> bool
    requires word { IsAdmitted limits (word_at limits found) }
    requires at_first { IsAdmitted limits (word_at limits at_first) }
    ensures { result ≡ unchanged limits at_first found }
{
    // By this call the prover knows that the limits are in range.
    let _ = limits.layout();
    let now = limits.word(found);
    !now.is_writing() && now.writes() == limits.word(at_first).writes()
}

/// A lock call on the record's lock, before its first access.
fn locking(shape: &Shape, call: &Call, loaded: &LoadedWords, own_call: OwnLockCall) -> Stage
    requires { IsOwnLockCall shape.now call.now loaded.now own_call }
    ensures after { going_at shape.now call.now loaded.now result
        ≡ record_turn shape.now call.now (job_or_get call.now)
        (on_record.Going (on_record.Locking (own_call_in loaded.now own_call) None)) }
    ensures sound { IsStage shape.now call.now loaded.now result }
{
    Stage::Locking {
        own_call,
        seen: None,
    }
}

/// Where a get goes on after its first load of the record's lock has found this.
#[inline(always)]
pub(crate) fn after_lock_load(
    shape: &Shape,
    call: &Call,
    loaded: &mut LoadedWords,
    found: u64,
) -> Stage
    requires call { IsRecordCall shape.now call.now }
    requires word { IsAdmitted (record_limits shape.now) (word_at (record_limits shape.now) found) }
    ensures after { going_at shape.now call.now loaded.new result
        ≡ record_turn shape.now call.now (job_or_get call.now)
        (after (record_limits shape.now) shape.now.width (job_or_get call.now) (on_record.LoadingLock)
        found) }
    ensures sound { IsStage shape.now call.now loaded.new result }
{
    loaded.clear();
    if is_free(shape.record_limits(), found) {
        Stage::Copying { at_first: found }
    } else {
        locking(shape, call, loaded, OwnLockCall::Share)
    }
}

/// Where a get that copies without a lock goes on after a load has found this: one of a word, or,
/// after the last word, the second one of the lock.
#[inline(always)]
pub(crate) fn after_copy(
    shape: &Shape,
    call: &Call,
    at_first: u64,
    loaded: &mut LoadedWords,
    found: u64,
    reply: &mut Reply,
) -> ControlFlow<(), Stage>
    requires call { IsRecordCall shape.now call.now }
    requires at_first { IsAdmitted (record_limits shape.now)
        (word_at (record_limits shape.now) at_first) }
    requires length { length loaded.old ≤ shape.now.width }
    requires word { shape.now.width ≤ length loaded.old →
        IsAdmitted (record_limits shape.now) (word_at (record_limits shape.now) found) }
    ensures after { turn_in shape.now call.now loaded.new reply.new result
        ≡ record_turn shape.now call.now (job_or_get call.now)
        (after (record_limits shape.now) shape.now.width (job_or_get call.now)
        (on_record.Copying at_first loaded.old) found) }
    ensures sound { IsNextStage shape.now call.now loaded.old loaded.new result }
{
    if loaded.len() < shape.word_count() {
        loaded.push(found);
        ControlFlow::Continue(Stage::Copying { at_first })
    } else if is_unchanged(shape.record_limits(), at_first, found) {
        *reply = Reply::Content(loaded.words());
        ControlFlow::Break(())
    } else {
        ControlFlow::Continue(locking(shape, call, loaded, OwnLockCall::Share))
    }
}

/// Where a call that reads under a read lock goes on after its load of a word has found this.
#[inline(always)]
pub(crate) fn after_read(
    shape: &Shape,
    call: &Call,
    stamp: u64,
    loaded: &mut LoadedWords,
    found: u64,
) -> Stage
    requires call { IsRecordCall shape.now call.now }
    requires length { length loaded.old < shape.now.width }
    ensures after { going_at shape.now call.now loaded.new result
        ≡ record_turn shape.now call.now (job_or_get call.now)
        (after (record_limits shape.now) shape.now.width (job_or_get call.now)
        (on_record.Reading stamp loaded.old) found) }
    ensures sound { IsStage shape.now call.now loaded.new result }
{
    loaded.push(found);
    if loaded.len() < shape.word_count() {
        Stage::Reading { stamp }
    } else {
        all_read(shape, call, stamp, loaded)
    }
}

fn all_read(shape: &Shape, call: &Call, stamp: u64, loaded: &LoadedWords) -> Stage
    requires call { IsRecordCall shape.now call.now }
    requires some { 1 ≤ length loaded.now }
    ensures after { going_at shape.now call.now loaded.now result
        ≡ record_turn shape.now call.now (job_or_get call.now)
        (all_read (job_or_get call.now) stamp loaded.now) }
    ensures sound { IsStage shape.now call.now loaded.now result }
{
    if is_get(call) {
        locking(shape, call, loaded, OwnLockCall::Leave { stamp })
    } else if expects(call, &loaded.words()) {
        locking(shape, call, loaded, OwnLockCall::Upgrade { stamp })
    } else {
        locking(shape, call, loaded, OwnLockCall::Refuse { stamp })
    }
}

/// Where a `PutIf` that compares under a write lock goes on after its load of a word has found
/// this.
#[inline(always)]
pub(crate) fn after_check(
    shape: &Shape,
    call: &Call,
    stamp: u64,
    loaded: &mut LoadedWords,
    found: u64,
) -> Stage
    requires call { IsPutCall shape.now call.now }
    requires length { length loaded.old < shape.now.width }
    requires fits { stamp < 2 ^ 63 }
    ensures after { going_at shape.now call.now loaded.new result
        ≡ record_turn shape.now call.now (job_or_get call.now)
        (after (record_limits shape.now) shape.now.width (job_or_get call.now)
        (on_record.Checking stamp loaded.old) found) }
    ensures sound { IsStage shape.now call.now loaded.new result }
{
    loaded.push(found);
    if loaded.len() < shape.word_count() {
        Stage::Checking { stamp }
    } else if expects(call, &loaded.words()) {
        Stage::Storing { stamp, stored: 0 }
    } else {
        Stage::Releasing {
            stamp,
            is_stored: false,
        }
    }
}

/// The reply of a call that has stored its words.
fn stored_reply(call: &Call) -> Reply
    ensures { result ≡ stored_reply (job_or_get call.now) }
{
    match call {
        Call::PutIf(_, _) => Reply::Yes,
        _ => Reply::Done,
    }
}

/// The reply of a call that has released its write lock.
pub(crate) fn released_reply(call: &Call, is_stored: bool) -> Reply
    ensures { result ≡ released_reply (job_or_get call.now) is_stored }
{
    if is_stored {
        stored_reply(call)
    } else {
        Reply::No
    }
}

/// Where a call goes on after it has stored the word of this index.
#[inline(always)]
pub(crate) fn after_store(
    shape: &Shape,
    call: &Call,
    stamp: u64,
    stored: usize,
    loaded: &LoadedWords,
    found: u64,
) -> Stage
    requires call { IsPutCall shape.now call.now }
    requires length { stored < shape.now.width }
    requires fits { stamp < 2 ^ 63 }
    ensures after { going_at shape.now call.now loaded.now result
        ≡ record_turn shape.now call.now (job_or_get call.now)
        (after (record_limits shape.now) shape.now.width (job_or_get call.now)
        (on_record.Storing stamp stored) found) }
    ensures sound { IsStage shape.now call.now loaded.now result }
{
    if stored + 1 < shape.word_count() {
        Stage::Storing {
            stamp,
            stored: stored + 1,
        }
    } else {
        Stage::Releasing {
            stamp,
            is_stored: true,
        }
    }
}

fn claimed(shape: &Shape, call: &Call, stamp: u64, loaded: &mut LoadedWords) -> Stage
    requires call { IsPutCall shape.now call.now }
    requires fits { stamp < 2 ^ 63 }
    ensures after { going_at shape.now call.now loaded.new result
        ≡ record_turn shape.now call.now (job_or_get call.now) (claimed (job_or_get call.now) stamp) }
    ensures sound { IsStage shape.now call.now loaded.new result }
{
    loaded.clear();
    match call {
        Call::PutIf(_, _) => Stage::Checking { stamp },
        _ => Stage::Storing { stamp, stored: 0 },
    }
}

/// The conversion answered this stamp, 0 where it could not be.
fn upgraded(shape: &Shape, call: &Call, stamp: u64, loaded: &LoadedWords, got: u64) -> Stage
    requires call { IsPutCall shape.now call.now }
    requires fits { got < 2 ^ 63 }
    ensures after { going_at shape.now call.now loaded.now result
        ≡ record_turn shape.now call.now (job_or_get call.now)
        (own_call_done (job_or_get call.now) (on_record.Upgrade stamp) got) }
    ensures sound { IsStage shape.now call.now loaded.now result }
{
    if got == 0 {
        locking(shape, call, loaded, OwnLockCall::ReleaseFirst { stamp })
    } else {
        Stage::Storing {
            stamp: got,
            stored: 0,
        }
    }
}

/// Words are to be loaded under the read lock of this stamp.
fn read_locked(shape: &Shape, call: &Call, stamp: u64, loaded: &mut LoadedWords) -> Stage
    requires { IsRecordCall shape.now call.now }
    ensures after { going_at shape.now call.now loaded.new result
        ≡ record_turn shape.now call.now (job_or_get call.now)
        (on_record.Going (on_record.Reading stamp [])) }
    ensures sound { IsStage shape.now call.now loaded.new result }
{
    loaded.clear();
    Stage::Reading { stamp }
}

/// Where a call goes on after a lock call on the record's lock has ended with the reply that stands
/// in `reply`. Where the call itself has ended by that, its own reply is written there.
pub(crate) fn after_own_call(
    shape: &Shape,
    call: &Call,
    own_call: OwnLockCall,
    loaded: &mut LoadedWords,
    reply: &mut Reply,
) -> ControlFlow<(), Stage>
    requires own_call { IsOwnLockCall shape.now call.now loaded.old own_call }
    requires fits { stamp_in reply.old < 2 ^ 63 }
    ensures after { turn_in shape.now call.now loaded.new reply.new result
        ≡ record_turn shape.now call.now (job_or_get call.now)
        (own_call_done (job_or_get call.now) (own_call_in loaded.old own_call) (stamp_in reply.old)) }
    ensures sound { IsNextStage shape.now call.now loaded.old loaded.new result }
{
    let got = stamp_in(reply);
    match own_call {
        OwnLockCall::Share => ControlFlow::Continue(read_locked(shape, call, got, loaded)),
        OwnLockCall::Leave { .. } => {
            *reply = Reply::Content(loaded.words());
            ControlFlow::Break(())
        }
        OwnLockCall::Refuse { .. } => {
            *reply = Reply::No;
            ControlFlow::Break(())
        }
        OwnLockCall::Upgrade { stamp } => {
            ControlFlow::Continue(upgraded(shape, call, stamp, loaded, got))
        }
        OwnLockCall::ReleaseFirst { .. } => ControlFlow::Continue(locking(
            shape,
            call,
            loaded,
            OwnLockCall::Claim,
        )),
        OwnLockCall::Claim => ControlFlow::Continue(claimed(shape, call, got, loaded)),
    }
}

/// The stage before the first access.
#[inline(always)]
pub(crate) fn first_stage(shape: &Shape, call: &Call) -> Stage
    requires suits { IsTrue (call_suits shape.now.width call.now) }
    requires width { shape.now.width ≤ 16 }
    ensures sound { (loaded : List ℕ) → IsStage shape.now call.now loaded result }
    ensures stage { (loaded : List ℕ) →
        stage_at call.now loaded result ≡ first_stage (job_of_call call.now) }
{
    match call {
        Call::Get => Stage::LoadingLock,
        Call::Put(_) => Stage::Locking {
            own_call: OwnLockCall::Claim,
            seen: None,
        },
        Call::PutIf(_, _) => Stage::Locking {
            own_call: OwnLockCall::Share,
            seen: None,
        },
        _ => Stage::OnLock { seen: None },
    }
}
