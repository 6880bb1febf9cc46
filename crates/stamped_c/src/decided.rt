//! The decision on the numbers that a C program gives. What is wrong with them is told in code of its
//! own, so that a call of which all is well doesn't pass through it.
ghost use Rattle.std.specs.Prelude.{ℕ, ◌≡◌, Some, IsTrue};
ghost use Rattle.stamp_core.specs.Call.{is_lock_call};
ghost use Rattle.stamp_core.specs.Word.{IsAdmitted};
ghost use Rattle.stamped_c.specs.Codes.{call_by_code};
ghost use Rattle.stamped_c.specs.Answers.{IsDecidedOn, IsDecidedUnder, IsDecidedIn, IsDecided};
ghost use Rattle.stamped_c.specs.inner.Answers.{InC};

use crate::checks::{checked_layout, checked_word, limits_in};
use crate::error::CError;
use crate::structs::{CDecision, CLimits};
use stamp_core::{Call, Layout, Limits, Word, decide_lock};

/// What this call does with a word that the limits admit.
#[inline(always)]
fn called(limits: Limits, word: Word, call: Call) -> CDecision
    requires admitted { IsAdmitted limits word }
    requires lock_call { IsTrue (is_lock_call call) }
    ensures { (code stamp : ℕ) → call_by_code code stamp ≡ Some call
        → InC (IsDecidedOn limits word code stamp) word.bits result }
{
    CDecision::made(word.bits(), decide_lock(limits, word, &call))
}

/// What the call that a number names does with a word that the limits admit. Each call is decided in
/// code of its own, where it is known. `LAYOUT` isn't read: by it this code is compiled once for each
/// layout, with the units as constants.
fn decided_on<const LAYOUT: u32>(limits: Limits, word: Word, code: u32, stamp: u64) -> CDecision
    requires { IsAdmitted limits word }
    ensures { InC (IsDecidedOn limits word code stamp) word.bits result }
{
    match code {
        1 => called(limits, word, Call::TryWrite),
        2 => called(limits, word, Call::TryRead),
        3 => called(limits, word, Call::WriteLock),
        4 => called(limits, word, Call::ReadLock),
        5 => called(limits, word, Call::Optimistic),
        6 => called(limits, word, Call::Validate(stamp)),
        7 => called(limits, word, Call::UnlockWrite(stamp)),
        8 => called(limits, word, Call::UnlockRead(stamp)),
        9 => called(limits, word, Call::Unlock(stamp)),
        10 => called(limits, word, Call::ToWrite(stamp)),
        11 => called(limits, word, Call::ToRead(stamp)),
        12 => called(limits, word, Call::ToOptimistic(stamp)),
        13 => called(limits, word, Call::TryUnlockWrite),
        14 => called(limits, word, Call::TryUnlockRead),
        15 => called(limits, word, Call::IsWriteLocked),
        16 => called(limits, word, Call::IsReadLocked),
        17 => called(limits, word, Call::ReadCount),
        _ => CDecision::error(CError::UnknownCall),
    }
}

/// The decision on the word of a number.
#[inline(always)]
fn decided_under<const LAYOUT: u32>(limits: Limits, number: u64, code: u32, stamp: u64) -> CDecision
    ensures { InC (IsDecidedUnder limits number code stamp) number result }
{
    match checked_word(limits, number) {
        Ok(word) => decided_on::<LAYOUT>(limits, word, code, stamp),
        Err(error) => CDecision::error(error),
    }
}

/// The decision under the limits of a layout.
#[inline(always)]
fn decided_in<const LAYOUT: u32>(
    layout: Layout,
    given: CLimits,
    number: u64,
    code: u32,
    stamp: u64,
) -> CDecision
    ensures { InC (IsDecidedIn layout given number code stamp) number result }
{
    match limits_in(layout, given.readers, given.versions) {
        Ok(limits) => decided_under::<LAYOUT>(limits, number, code, stamp),
        Err(error) => CDecision::error(error),
    }
}

/// What the call of this code does with the word of this number, or the first error of what was given.
pub(crate) fn decided(given: CLimits, number: u64, code: u32, stamp: u64) -> CDecision
    ensures { InC (IsDecided given number code stamp) number result }
{
    match checked_layout(given.layout) {
        Ok(Layout::One) => decided_in::<1>(Layout::One, given, number, code, stamp),
        Ok(Layout::Two) => decided_in::<2>(Layout::Two, given, number, code, stamp),
        Err(error) => CDecision::error(error),
    }
}
