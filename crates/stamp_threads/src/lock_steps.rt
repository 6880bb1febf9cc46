//! The steps on the running word, by the seats of its table.
ghost use Rattle.std.specs.Prelude.{◌≡◌, IsTrue, true};
ghost use Rattle.stamp_core.specs.Call.{is_lock_call};
ghost use Rattle.stamp_core.specs.Word.{word_at};
ghost use Rattle.stamp_core.specs.Decision.{Changes};
ghost use Rattle.stamp_threads.specs.PassView.{after_split, split_off};
ghost use Rattle.stamp_threads.specs.inner.Seats.{both, StandsAlone};
ghost use Rattle.stamp_threads.specs.LockPass.{first_of, HasEntered};
ghost use Rattle.stamp_threads.specs.inner.LockPass.{second_of, IsAtSeat, AreAtSeat};
ghost use Rattle.stamp_threads.specs.inner.LockRule.{Loaded, Exchanged};
ghost use Rattle.stamp_threads.specs.LockPassesMet.{LockPassesMet};

use crate::lock_rule::{
    CallStep, EnterLockStep, ExchangeStep, LoadStep, LockKey, LockPasses, LockRule, MeetLockStep,
    PartSeatsStep, ShareSeatStep, SplitStep,
};
use crate::patience::Patience;
use atomic_table::{Seat, Shared as SharedTable};
use stamp_core::{Call, Reply};
use std::sync::Wait;

/// The table of a running lock: one word.
pub type LockTable = SharedTable<(), LockPasses, LockKey, LockRule>;

/// A seat of it, which a pass has.
pub type LockSeat = Seat<(), LockPasses>;

/// Loads the word. The call is made by it where it changes nothing.
#[inline(always)]
pub fn load<C: CallStep>(table: &LockTable, seat: &mut LockSeat, call: &Call) -> u64
    requires step { (C.limits ≡ table.now.key.limits) × (C.call ≡ call.now) }
    requires lock_call { IsTrue (is_lock_call call.now) }
    requires seat { IsAtSeat table.now.table_id seat.old.table_id seat.old.me }
    ensures seat { IsAtSeat table.now.table_id seat.new.table_id seat.new.me }
    ensures learned { let v = first_of seat.old.me.0 in
        Loaded table.now.key.limits call.now v result (first_of seat.new.me.0) }
{
    // The call stands in the contract alone.
    let _ = call;
    table.load::<LoadStep<C>>(seat, 0)
}

/// Makes the call by an exchange. By one that finds another word, a pass learns what it would by a load.
#[inline(always)]
pub fn exchange<C: CallStep>(
    table: &LockTable,
    seat: &mut LockSeat,
    call: &Call,
    old: u64,
    new: u64,
) -> u64
    requires step { (C.limits ≡ table.now.key.limits) × (C.call ≡ call.now) }
    requires lock_call { IsTrue (is_lock_call call.now) }
    requires seat { IsAtSeat table.now.table_id seat.old.table_id seat.old.me }
    requires changes { let limits = table.now.key.limits in
        (reply : Reply) × Changes limits (word_at limits old) call.now (word_at limits new) reply }
    ensures seat { IsAtSeat table.now.table_id seat.new.table_id seat.new.me }
    ensures learned { let v = first_of seat.old.me.0 in
        Exchanged table.now.key.limits call.now old v result (first_of seat.new.me.0) }
{
    // The call stands in the contract alone.
    let _ = call;
    table.compare_exchange::<ExchangeStep<C>>(seat, 0, old, new)
}

/// A new seat, made by a load: its pass has the next root.
pub fn enter<C: CallStep>(table: &LockTable) -> LockSeat
    requires step { C.limits ≡ table.now.key.limits }
    requires enterable { table.now.key.enterable ≡ true }
    requires table { table.now.table_id.words ≡ 1 }
    ensures seat { IsAtSeat table.now.table_id result.table_id result.me }
    ensures entered { HasEntered table.now.key.limits (first_of result.me.0) }
{
    let (_, seat) = table.load_new_seat::<EnterLockStep<C>>(0);
    seat
}

/// A new seat, whose pass has a name that the first one gives.
pub fn split(table: &LockTable, seat: &mut LockSeat) -> LockSeat
    requires seat { IsAtSeat table.now.table_id seat.old.table_id seat.old.me }
    ensures given { StandsAlone seat.old.table_id seat.new (after_split (first_of seat.old.me.0)) }
    ensures new { StandsAlone seat.old.table_id result (split_off (first_of seat.old.me.0)) }
{
    table.split_seat::<SplitStep>(seat)
}

/// A load by a seat that holds two passes: it shows that both knew beginnings of one history.
pub fn load_both<C: CallStep>(table: &LockTable, seat: &mut LockSeat)
    requires step { C.limits ≡ table.now.key.limits }
    requires seat { AreAtSeat table.now.table_id seat.old.table_id seat.old.me }
    ensures seat { AreAtSeat table.now.table_id seat.new.table_id seat.new.me }
    ensures met { let old = seat.old.me.0 in let new = seat.new.me.0 in
        LockPassesMet table.now.key.limits (first_of old) (second_of old) (first_of new) (second_of new) }
{
    table.load::<MeetLockStep<C>>(seat, 0);
}

/// Puts both passes on one seat.
pub fn share_seat(table: &LockTable, seat: &mut LockSeat, other: LockSeat)
    requires seat { IsAtSeat table.now.table_id seat.old.table_id seat.old.me }
    requires other { IsAtSeat table.now.table_id other.table_id other.me }
    ensures table { seat.new.table_id ≡ seat.old.table_id }
    ensures both { seat.new.me ≡ both (first_of seat.old.me.0) (first_of other.me.0) }
{
    table.join_seat::<ShareSeatStep>(seat, other);
}

/// Puts the two passes of a seat on two seats.
pub fn part_seats(table: &LockTable, seat: &mut LockSeat) -> LockSeat
    requires seat { AreAtSeat table.now.table_id seat.old.table_id seat.old.me }
    ensures first { StandsAlone seat.old.table_id seat.new (first_of seat.old.me.0) }
    ensures second { StandsAlone seat.old.table_id result (second_of seat.old.me.0) }
{
    table.split_seat::<PartSeatsStep>(seat)
}

/// Rests after a load that found this word, on which a call waits. A sleep ends early where the low half of
/// the word differs by then.
pub fn rest<R: Wait>(rt: &R, table: &LockTable, patience: &mut Patience, found: u64)
    requires { table.now.table_id.words ≡ 1 }
{
    if let Some(nap) = patience.nap() {
        // The sleep compares no more bits than these. Each single change of the word changes them.
        let low = (found & 0xffff_ffff) as u32;
        table.park_timeout(rt, 0, low, nap);
    }
}
