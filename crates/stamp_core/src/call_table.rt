//! The call table on the word: one function for each row, without a quantifier. The longest rows are
//! built into the table here, the others by LLVM: all of them would be too long for a caller that
//! builds in the table.
#![tactic(auto, using(crate::proofs::OneHolder::one_holder))]

ghost use Rattle.std.specs.Prelude.{◌≡◌, if◌then◌else◌};
ghost use Rattle.stamp_core.specs.CountedDecision.{decision_of};
ghost use Rattle.stamp_core.specs.LockDecision.{decision_as};

use crate::call::Call;
use crate::limits::Limits;
use crate::lock_decision::{LockDecision, LockReply};
use crate::word::Word;

#[inline(always)]
pub(crate) fn decided(limits: Limits, word: Word, call: &Call) -> LockDecision
    requires { word.layout ≡ limits.layout }
    ensures { decision_as result ≡ decision_of limits word call.now }
{
    match *call {
        Call::TryWrite => try_write(limits, word),
        Call::TryRead => try_read(limits, word),
        Call::WriteLock => write_lock(limits, word),
        Call::ReadLock => read_lock(limits, word),
        Call::Optimistic => optimistic(limits, word),
        Call::Validate(stamp) => validate(limits, word, stamp),
        Call::UnlockWrite(stamp) => unlock_write(limits, word, stamp),
        Call::UnlockRead(stamp) => unlock_read(limits, word, stamp),
        Call::Unlock(stamp) => unlock(limits, word, stamp),
        Call::ToWrite(stamp) => to_write(limits, word, stamp),
        Call::ToRead(stamp) => to_read(limits, word, stamp),
        Call::ToOptimistic(stamp) => to_optimistic(limits, word, stamp),
        Call::TryUnlockWrite => try_unlock_write(limits, word),
        Call::TryUnlockRead => try_unlock_read(limits, word),
        Call::IsWriteLocked => yes_where(word.has_writer()),
        Call::IsReadLocked => yes_where(word.reader_count() > 0),
        Call::ReadCount => LockDecision::Answer(LockReply::Count(word.reader_count())),
        // Never reached, since `decide_lock` is given calls of the lock alone.
        Call::Get | Call::Put(_) | Call::PutIf(_, _) => LockDecision::Wait,
    }
}

fn zero() -> LockDecision
    ensures { result ≡ LockDecision.Answer (LockReply.Stamp 0) }
{
    LockDecision::Answer(LockReply::Stamp(0))
}

fn yes_where(holds: bool) -> LockDecision
    ensures { result ≡ LockDecision.Answer (if holds then LockReply.Yes else LockReply.No) }
{
    LockDecision::Answer(if holds { LockReply::Yes } else { LockReply::No })
}

/// Answers the stamp that the new word is.
fn gets(word: Word) -> LockDecision
    ensures { result ≡ LockDecision.Change word (LockReply.Stamp word.bits) }
{
    LockDecision::Change(word, LockReply::Stamp(word.bits()))
}

fn try_write(limits: Limits, word: Word) -> LockDecision
    requires { word.layout ≡ limits.layout }
    ensures { decision_as result ≡ decision_of limits word Call.TryWrite }
{
    if word.may_write(limits) {
        gets(word.with_writer())
    } else {
        zero()
    }
}

fn try_read(limits: Limits, word: Word) -> LockDecision
    requires { word.layout ≡ limits.layout }
    ensures { decision_as result ≡ decision_of limits word Call.TryRead }
{
    if word.may_read(limits) {
        gets(word.with_reader())
    } else {
        zero()
    }
}

#[inline(always)]
fn write_lock(limits: Limits, word: Word) -> LockDecision
    requires { word.layout ≡ limits.layout }
    ensures { decision_as result ≡ decision_of limits word Call.WriteLock }
{
    if word.write_count() == limits.versions() {
        zero()
    } else if word.may_write(limits) {
        gets(word.with_writer())
    } else {
        LockDecision::Wait
    }
}

fn read_lock(limits: Limits, word: Word) -> LockDecision
    requires { word.layout ≡ limits.layout }
    ensures { decision_as result ≡ decision_of limits word Call.ReadLock }
{
    if word.may_read(limits) {
        gets(word.with_reader())
    } else {
        LockDecision::Wait
    }
}

fn optimistic(limits: Limits, word: Word) -> LockDecision
    requires { word.layout ≡ limits.layout }
    ensures { decision_as result ≡ decision_of limits word Call.Optimistic }
{
    if word.has_writer() {
        zero()
    } else {
        LockDecision::Answer(LockReply::Stamp(word.optimistic_stamp()))
    }
}

fn validate(limits: Limits, word: Word, stamp: u64) -> LockDecision
    requires { word.layout ≡ limits.layout }
    ensures { decision_as result ≡ decision_of limits word (Call.Validate stamp) }
{
    yes_where(word.validates(stamp))
}

fn unlock_write(limits: Limits, word: Word, stamp: u64) -> LockDecision
    requires { word.layout ≡ limits.layout }
    ensures { decision_as result ≡ decision_of limits word (Call.UnlockWrite stamp) }
{
    if word.holds_write(stamp) {
        LockDecision::Change(word.without_writer(), LockReply::Done)
    } else {
        LockDecision::Answer(LockReply::Mismatch)
    }
}

fn unlock_read(limits: Limits, word: Word, stamp: u64) -> LockDecision
    requires { word.layout ≡ limits.layout }
    ensures { decision_as result ≡ decision_of limits word (Call.UnlockRead stamp) }
{
    if word.holds_read(stamp) {
        LockDecision::Change(word.without_reader(), LockReply::Done)
    } else {
        LockDecision::Answer(LockReply::Mismatch)
    }
}

fn unlock(limits: Limits, word: Word, stamp: u64) -> LockDecision
    requires { word.layout ≡ limits.layout }
    ensures { decision_as result ≡ decision_of limits word (Call.Unlock stamp) }
{
    if word.holds_write(stamp) {
        LockDecision::Change(word.without_writer(), LockReply::Done)
    } else if word.holds_read(stamp) {
        LockDecision::Change(word.without_reader(), LockReply::Done)
    } else {
        LockDecision::Answer(LockReply::Mismatch)
    }
}

#[inline(always)]
fn to_write(limits: Limits, word: Word, stamp: u64) -> LockDecision
    requires { word.layout ≡ limits.layout }
    ensures { decision_as result ≡ decision_of limits word (Call.ToWrite stamp) }
{
    if word.holds_write(stamp) {
        LockDecision::Answer(LockReply::Stamp(stamp))
    } else if word.holds_read(stamp)
        && word.reader_count() == 1
        && word.write_count() < limits.versions()
    {
        gets(word.without_reader().with_writer())
    } else if word.may_write(limits) && stamp == word.optimistic_stamp() {
        gets(word.with_writer())
    } else {
        zero()
    }
}

#[inline(always)]
fn to_read(limits: Limits, word: Word, stamp: u64) -> LockDecision
    requires { word.layout ≡ limits.layout }
    ensures { decision_as result ≡ decision_of limits word (Call.ToRead stamp) }
{
    if word.holds_write(stamp) {
        gets(word.without_writer().with_reader())
    } else if word.holds_read(stamp) {
        LockDecision::Answer(LockReply::Stamp(stamp))
    } else if word.may_read(limits) && stamp == word.optimistic_stamp() {
        gets(word.with_reader())
    } else {
        zero()
    }
}

#[inline(always)]
fn to_optimistic(limits: Limits, word: Word, stamp: u64) -> LockDecision
    requires { word.layout ≡ limits.layout }
    ensures { decision_as result ≡ decision_of limits word (Call.ToOptimistic stamp) }
{
    if word.holds_write(stamp) {
        let next = word.without_writer();
        LockDecision::Change(next, LockReply::Stamp(next.bits()))
    } else if word.holds_read(stamp) {
        let next = word.without_reader();
        LockDecision::Change(next, LockReply::Stamp(next.optimistic_stamp()))
    } else if !word.has_writer() && stamp == word.optimistic_stamp() {
        LockDecision::Answer(LockReply::Stamp(stamp))
    } else {
        zero()
    }
}

fn try_unlock_write(limits: Limits, word: Word) -> LockDecision
    requires { word.layout ≡ limits.layout }
    ensures { decision_as result ≡ decision_of limits word Call.TryUnlockWrite }
{
    if word.has_writer() {
        LockDecision::Change(word.without_writer(), LockReply::Yes)
    } else {
        LockDecision::Answer(LockReply::No)
    }
}

fn try_unlock_read(limits: Limits, word: Word) -> LockDecision
    requires { word.layout ≡ limits.layout }
    ensures { decision_as result ≡ decision_of limits word Call.TryUnlockRead }
{
    if word.reader_count() > 0 {
        LockDecision::Change(word.without_reader(), LockReply::Yes)
    } else {
        LockDecision::Answer(LockReply::No)
    }
}
