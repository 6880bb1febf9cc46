//! The steps on the word of a guarded value, by the seats of its table.
ghost use Rattle.std.specs.Prelude.{◌≡◌, IsTrue, Some, true};
ghost use Rattle.stamp_core.specs.Call.{is_lock_call};
ghost use Rattle.stamp_core.specs.Limits.{AreInRange};
ghost use Rattle.stamp_core.specs.Word.{word_at};
ghost use Rattle.stamp_core.specs.Decision.{Changes};
ghost use Rattle.stamp_core.specs.declared.call.Call.TheVariants.{UnlockRead};
ghost use Rattle.stamp_core.specs.declared.reply.Reply.{Reply};
ghost use Rattle.lent_table.specs.Table.{step};
ghost use Rattle.stamped_value.specs.Held.{HasHold};
ghost use Rattle.stamped_value.specs.inner.Held.{MayCall};
ghost use Rattle.stamped_value.specs.inner.VersionRule.{LoadTells, ExchangeTells, TakenTells};
ghost use Rattle.stamped_value.specs.inner.VersionRule.{EnterTells, MeetTells, FollowTells};
ghost use Rattle.stamped_value.specs.declared.view.Held.TheVariants.{Free, Reading};

use crate::rule::{
    BesideStep, CallStep, EnterStep, ExchangeStep, FollowStep, LoadStep, MeetStep, OpenStep,
    TakeStep, ValueKey, VersionRule,
};
use crate::view::ValueView;
use lent_table::{Seat, Shared};
use stamp_core::Call;
use stamp_threads::Patience;
use std::sync::Wait;

/// The table of a guarded value.
pub type ValueTable<T> = Shared<T, ValueView<T>, ValueKey<T>, VersionRule>;

/// A seat of it.
pub type ValueSeat<T> = Seat<T, ValueView<T>>;

/// Loads the word. The call is made by it where it changes nothing.
#[inline(always)]
pub fn load<T, C: CallStep>(table: &ValueTable<T>, seat: &mut ValueSeat<T>, call: &Call) -> u64
    requires step { (C.limits ≡ table.now.key.limits) × (C.call ≡ call.now) }
    requires lock_call { IsTrue (is_lock_call call.now) }
    requires table { seat.old.table_id ≡ table.now.table_id }
    ensures table { seat.new.table_id ≡ table.now.table_id }
    ensures learned { LoadTells table.now.key.limits call.now seat.old.me result seat.new.me }
{
    // The call stands in the contract alone.
    let _ = call;
    table.load::<LoadStep<C>>(seat)
}

/// Makes the call by an exchange. By one that finds another word, a seat learns what it would by a load.
#[inline(always)]
pub fn exchange<T, C: CallStep>(
    table: &ValueTable<T>,
    seat: &mut ValueSeat<T>,
    call: &Call,
    old: u64,
    new: u64,
) -> u64
    requires step { (C.limits ≡ table.now.key.limits) × (C.call ≡ call.now) }
    requires lock_call { IsTrue (is_lock_call call.now) }
    requires in_range { AreInRange table.now.key.limits }
    requires table { seat.old.table_id ≡ table.now.table_id }
    requires may { MayCall call.now seat.old.me.0.held }
    requires hold { HasHold seat.old.me.0.held seat.old.me.0.values seat.old.me.1 }
    requires changes { let limits = table.now.key.limits in
        (reply : Reply) × Changes limits (word_at limits old) call.now (word_at limits new) reply }
    ensures table { seat.new.table_id ≡ table.now.table_id }
    ensures learned { ExchangeTells table.now.key.limits call.now (step old new) seat.old.me result seat.new.me }
{
    // The call stands in the contract alone.
    let _ = call;
    table.compare_exchange::<ExchangeStep<C>>(seat, old, new)
}

/// Releases read mode by taking one from the word, whatever that is, and tells the word that it found. While
/// there is the reader, its release takes one from each word; so it is the call's load and exchange in one.
#[inline(always)]
pub fn take_reader<T, C: CallStep>(
    table: &ValueTable<T>,
    seat: &mut ValueSeat<T>,
    stamp: u64,
) -> u64
    requires step { (C.limits ≡ table.now.key.limits) × (C.call ≡ UnlockRead stamp) }
    requires in_range { AreInRange table.now.key.limits }
    requires table { seat.old.table_id ≡ table.now.table_id }
    requires held { seat.old.me.0.held ≡ Reading stamp }
    requires hold { HasHold seat.old.me.0.held seat.old.me.0.values seat.old.me.1 }
    ensures table { seat.new.table_id ≡ table.now.table_id }
    ensures taken { TakenTells table.now.key.limits (UnlockRead stamp) seat.old.me result seat.new.me }
{
    // The stamp stands in the contract alone.
    let _ = stamp;
    table.fetch_sub::<TakeStep<C>>(seat, 1)
}

/// A new seat, made by a load: its pass has the next root.
pub fn enter<T, C: OpenStep<T>>(table: &ValueTable<T>) -> ValueSeat<T>
    requires step { (C.limits ≡ table.now.key.limits) × (C.first ≡ Some table.now.key.first.value) }
    requires enterable { table.now.key.enterable ≡ true }
    ensures table { result.table_id ≡ table.now.table_id }
    ensures entered { EnterTells table.now.key.limits (Some table.now.key.first.value) result.me }
{
    let (_, seat) = table.enter::<EnterStep<C>>();
    seat
}

/// Loads the word beside another seat. The seat then knows the whole history and all values, of which both
/// knew a part.
pub fn meet<T, C: BesideStep<T>>(
    table: &ValueTable<T>,
    seat: &mut ValueSeat<T>,
    other: &mut ValueSeat<T>,
)
    requires step { (C.limits ≡ table.now.key.limits) × (C.other ≡ other.old.me.0) }
    requires table { (seat.old.table_id ≡ table.now.table_id) × (other.old.table_id ≡ table.now.table_id) }
    ensures table { seat.new.table_id ≡ table.now.table_id }
    ensures met { MeetTells table.now.key.limits other.old.me.0 seat.old.me seat.new.me }
    ensures other { other.new ≡ other.old }
{
    table.load_beside::<MeetStep<C>>(seat, other);
}

/// Loads the word beside another seat. The seat, which holds no mode, then knows just what the other does.
pub fn follow<T, C: BesideStep<T>>(
    table: &ValueTable<T>,
    seat: &mut ValueSeat<T>,
    other: &mut ValueSeat<T>,
)
    requires step { C.other ≡ other.old.me.0 }
    requires table { (seat.old.table_id ≡ table.now.table_id) × (other.old.table_id ≡ table.now.table_id) }
    requires free { seat.old.me.0.held ≡ Free }
    ensures table { seat.new.table_id ≡ table.now.table_id }
    ensures followed { FollowTells other.old.me.0 seat.old.me seat.new.me }
    ensures other { other.new ≡ other.old }
{
    table.load_beside::<FollowStep<C>>(seat, other);
}

/// Rests after a load that found this word, on which a call waits. A sleep ends early where the low half of
/// the word differs by then.
pub fn rest<T, R: Wait>(rt: &R, table: &ValueTable<T>, patience: &mut Patience, found: u64) {
    if let Some(nap) = patience.nap() {
        // The sleep compares no more bits than these. Each single change of the word changes them.
        table.park_timeout(rt, (found & 0xffff_ffff) as u32, nap);
    }
}
