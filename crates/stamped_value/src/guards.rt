//! The guards of a guarded value.
ghost use Rattle.std.specs.Prelude.{◌≡◌, IfOk, IfErr};
ghost use types.Logic.{sem};
ghost use Rattle.lent_table.specs.Table.{reads, writes};
ghost use Rattle.stamp_core.specs.declared.call.Call.TheVariants.{UnlockWrite, UnlockRead, ToWrite, ToRead};
ghost use Rattle.stamp_core.specs.declared.reply.Reply.TheVariants.{Stamp, Done};
ghost use Rattle.stamped_value.specs.Held.{stamp_held};
ghost use Rattle.stamped_value.specs.Leaving.{LeftReleased, LeftWritten, a_seat_left};
ghost use Rattle.stamped_value.specs.Outcomes.{WritesLast, WritesWhatRead, ReadsWhatWritten, LeavesWhatWritten};
ghost use Rattle.stamped_value.specs.ValueCalls.{Calls};
ghost use Rattle.stamped_value.specs.Releases.{Releases, ReleasesWritten, ReleasesTo};
ghost use Rattle.stamped_value.specs.declared.view.Held.TheVariants.{Reading, Writing};

use crate::guarded::Guarded;
use crate::handle::ValueHandle;
use crate::steps::ValueSeat;
use crate::view::ValueView;
use lent_table::Left;
use stamp_core::{Call, LockReply};
use std::marker::Model;
use std::sync::Wait;

/// Read mode of a guarded value, by its stamp, and the value to read. Other readers may have it too,
/// and no writer.
///
/// It is seen as its lock, what it knows, and the value that it reads. Where it is dropped, it
/// releases read mode as `release` does.
pub struct ReadGuard<'a, T, R: Wait> {
    pub(crate) rt: &'a R,
    pub(crate) value: &'a Guarded<T>,
    pub(crate) seat: ValueSeat<T>,
    pub(crate) stamp: u64,
}

impl<'a, T, R: Wait> Model for ReadGuard<'a, T, R> {
    ghost use Rattle.stamped_value.specs.ValueLock.{ValueToken};
    ghost use Rattle.stamped_value.specs.declared.view.Held.TheVariants.{Reading};
    ghost use Rattle.stamped_value.specs.Seated.{IsSeated};

    ghost Value = { ValueToken T };

    ghost view = { λ g. record { lock = g.value.now; me = g.seat.me } };

    ghost invariant = { λ g. IsSeated g.value.now (Reading g.stamp) g.seat.table_id g.seat.me };
}

/// Write mode of a guarded value, by its stamp, and the value to write, alone.
///
/// It is seen as its lock, what it knows, and the value that it has written so far. Where it is
/// dropped, it releases write mode as `release` does.
pub struct WriteGuard<'a, T, R: Wait> {
    pub(crate) rt: &'a R,
    pub(crate) value: &'a Guarded<T>,
    pub(crate) seat: ValueSeat<T>,
    pub(crate) stamp: u64,
}

impl<'a, T, R: Wait> Model for WriteGuard<'a, T, R> {
    ghost use Rattle.stamped_value.specs.ValueLock.{ValueToken};
    ghost use Rattle.stamped_value.specs.declared.view.Held.TheVariants.{Writing};
    ghost use Rattle.stamped_value.specs.Seated.{IsSeated};

    ghost Value = { ValueToken T };

    ghost view = { λ g. record { lock = g.value.now; me = g.seat.me } };

    ghost invariant = { λ g. IsSeated g.value.now (Writing g.stamp) g.seat.table_id g.seat.me };
}

impl<T, R: Wait> Drop for ReadGuard<'_, T, R> {
    /// Releases read mode (`unlockRead`).
    fn drop(self)
        ensures released { Releases self.entry }
        ensures* left { sem 𝓛 (a_seat_left T.row (LeftReleased self.entry)) }
    {
        self.leave().tell();
    }
}

impl<T, R: Wait> Drop for WriteGuard<'_, T, R> {
    /// Releases write mode (`unlockWrite`), and leaves what was written as the last value.
    fn drop(self)
        ensures released { ReleasesWritten self.entry }
        ensures* left { sem 𝓛 (a_seat_left T.row (LeftWritten self.entry)) }
    {
        self.leave().tell();
    }
}

impl<'a, T, R: Wait> ReadGuard<'a, T, R> {
    /// The stamp of its read mode.
    pub fn stamp(&self) -> u64
        ensures { self.now.me.0.held ≡ Reading result }
    {
        self.stamp
    }

    /// Releases read mode (`unlockRead`), by one step on the word, which waits for nobody.
    pub fn release(self) -> ValueHandle<'a, T>
        ensures { Calls (UnlockRead (stamp_held self.entry.me.0.held)) Done self.entry result }
    {
        let ReadGuard {
            rt: _,
            value,
            mut seat,
            stamp,
        } = self;
        value.release_read(&mut seat, stamp);
        ValueHandle { value, seat }
    }

    /// Releases read mode to an optimistic stamp (`tryConvertToOptimisticRead`), which it tells beside
    /// the handle. The stamp is never 0, and stands for the value that was read: `is_last` tells by it
    /// whether this still is the last one. It waits for nobody, and tries again where another thread
    /// came between.
    pub fn release_optimistic(self) -> (ValueHandle<'a, T>, u64)
        ensures { (x : _) × (self.entry.me.1 ≡ reads x) × ReleasesTo result.1 x self.entry result.0 }
    {
        let ReadGuard {
            rt,
            value,
            mut seat,
            stamp,
        } = self;
        let LockReply::Stamp(new) = value.call(rt, &mut seat, Call::ToOptimistic(stamp)) else {
            unreachable!()
        };
        (ValueHandle { value, seat }, new)
    }

    // Releases read mode, and gives up the seat.
    fn leave(self) -> Left<ValueView<T>>
        ensures { LeftReleased self.entry result }
    {
        self.release().leave()
    }

    /// Converts to write mode, where there is no other reader and a version is left
    /// (`tryConvertToWriteLock`): the value is the one that was read. Otherwise it gives the guard
    /// back, by which the call was made and answered 0. It waits for nobody, and tries again where
    /// another thread came between.
    pub fn upgrade(self) -> Result<WriteGuard<'a, T, R>, ReadGuard<'a, T, R>>
        ensures ok { IfOk result (λ g.
            Calls (ToWrite (stamp_held self.entry.me.0.held)) (Stamp (stamp_held g.me.0.held)) self.entry g) }
        ensures same { IfOk result (λ g. WritesWhatRead self.entry.me g.me) }
        ensures last { IfOk result (λ g. WritesLast g.me) }
        ensures err { IfErr result (λ g.
            Calls (ToWrite (stamp_held self.entry.me.0.held)) (Stamp 0) self.entry g) }
        ensures kept { IfErr result (λ g. (g.me.0.held ≡ self.entry.me.0.held) × (g.me.1 ≡ self.entry.me.1)) }
    {
        let ReadGuard {
            rt,
            value,
            mut seat,
            stamp,
        } = self;
        let LockReply::Stamp(new) = value.call(rt, &mut seat, Call::ToWrite(stamp)) else {
            unreachable!()
        };
        if new == 0 {
            return Err(ReadGuard {
                rt,
                value,
                seat,
                stamp,
            });
        }
        Ok(WriteGuard {
            rt,
            value,
            seat,
            stamp: new,
        })
    }
}

impl<'a, T, R: Wait> WriteGuard<'a, T, R> {
    /// The stamp of its write mode.
    pub fn stamp(&self) -> u64
        ensures { self.now.me.0.held ≡ Writing result }
    {
        self.stamp
    }

    /// Releases write mode (`unlockWrite`), and leaves what was written as the last value. It waits
    /// for nobody, and tries again where another thread came between.
    pub fn release(self) -> ValueHandle<'a, T>
        ensures made { Calls (UnlockWrite (stamp_held self.entry.me.0.held)) Done self.entry result }
        ensures leaves { LeavesWhatWritten self.entry.me result.me }
    {
        let WriteGuard {
            rt,
            value,
            mut seat,
            stamp,
        } = self;
        let _ = value.call(rt, &mut seat, Call::UnlockWrite(stamp));
        ValueHandle { value, seat }
    }

    /// Releases write mode to an optimistic stamp (`tryConvertToOptimisticRead`), which it tells beside
    /// the handle, and leaves what was written as the last value. The stamp is never 0, and stands for
    /// this value: `is_last` tells by it whether it still is the last one. It waits for nobody, and
    /// tries again where another thread came between.
    pub fn release_optimistic(self) -> (ValueHandle<'a, T>, u64)
        ensures { (x : _) × (self.entry.me.1 ≡ writes x) × ReleasesTo result.1 x self.entry result.0 }
    {
        let WriteGuard {
            rt,
            value,
            mut seat,
            stamp,
        } = self;
        let LockReply::Stamp(new) = value.call(rt, &mut seat, Call::ToOptimistic(stamp)) else {
            unreachable!()
        };
        (ValueHandle { value, seat }, new)
    }

    // Releases write mode, and gives up the seat.
    fn leave(self) -> Left<ValueView<T>>
        ensures { LeftWritten self.entry result }
    {
        self.release().leave()
    }

    /// Converts to read mode (`tryConvertToReadLock`), with no writer between: the value is the one
    /// that was written. It waits for nobody, and tries again where another thread came between.
    pub fn downgrade(self) -> ReadGuard<'a, T, R>
        ensures made { Calls (ToRead (stamp_held self.entry.me.0.held)) (Stamp (stamp_held result.me.0.held))
            self.entry result }
        ensures same { ReadsWhatWritten self.entry.me result.me }
    {
        let WriteGuard {
            rt,
            value,
            mut seat,
            stamp,
        } = self;
        let LockReply::Stamp(new) = value.call(rt, &mut seat, Call::ToRead(stamp)) else {
            unreachable!()
        };
        ReadGuard {
            rt,
            value,
            seat,
            stamp: new,
        }
    }

    /// Beside a writer's guard there is no reader's of the same lock.
    pub fn no_reader<S: Wait>(&mut self, other: &mut ReadGuard<'_, T, S>)
        ensures same { (self.new ≡ self.old) × (other.new ≡ other.old) }
        ensures apart { other.old.lock.table ≡ self.old.lock.table → ⊥ }
    {
        self.seat.alone(&mut other.seat);
    }

    /// Beside a writer's guard there is no other of the same lock.
    pub fn no_writer<S: Wait>(&mut self, other: &mut WriteGuard<'_, T, S>)
        ensures same { (self.new ≡ self.old) × (other.new ≡ other.old) }
        ensures apart { other.old.lock.table ≡ self.old.lock.table → ⊥ }
    {
        self.seat.alone(&mut other.seat);
    }
}
