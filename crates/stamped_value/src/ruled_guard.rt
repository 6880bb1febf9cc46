//! The guard of a value that keeps to a rule.
ghost use Rattle.std.specs.Prelude.{◌≡◌};
ghost use types.Logic.{sem};
ghost use Rattle.lent_table.specs.Table.{reads};
ghost use Rattle.stamp_core.specs.declared.call.Call.TheVariants.{UnlockRead};
ghost use Rattle.stamp_core.specs.declared.reply.Reply.TheVariants.{Done};
ghost use Rattle.stamped_value.specs.Held.{stamp_held};
ghost use Rattle.stamped_value.specs.Leaving.{LeftReleased, a_seat_left};
ghost use Rattle.stamped_value.specs.Values.{IsLastOf};
ghost use Rattle.stamped_value.specs.ValueCalls.{Calls};
ghost use Rattle.stamped_value.specs.Releases.{Releases, ReleasesTo};
ghost use Rattle.stamped_value.specs.declared.view.Held.TheVariants.{Reading};

use crate::guards::ReadGuard;
use crate::kept::{Kept, ValueRule};
use crate::ruled_handle::RuledHandle;
use crate::view::ValueView;
use lent_table::Left;
use std::marker::Model;
use std::ops::Deref;
use std::sync::Wait;

/// Read mode of a value that keeps to a rule, and the value to read: a reference to it, of which the
/// rule holds. Other readers may have it too, and no writer.
///
/// It is seen as a `ReadGuard` is. Where it is dropped, it releases read mode as `release` does.
pub struct RuledReadGuard<'a, T, K: ValueRule<T>, R: Wait> {
    pub(crate) inner: ReadGuard<'a, Kept<T, K>, R>,
}

impl<'a, T, K: ValueRule<T>, R: Wait> Model for RuledReadGuard<'a, T, K, R> {
    ghost use Rattle.stamped_value.specs.ValueLock.{ValueToken};

    ghost Value = { ValueToken T };

    ghost view = { λ g. g.inner };
}

impl<T, K: ValueRule<T>, R: Wait> Drop for RuledReadGuard<'_, T, K, R> {
    /// Releases read mode (`unlockRead`).
    fn drop(self)
        ensures released { Releases self.entry }
        ensures* left { sem 𝓛 (a_seat_left T.row (LeftReleased self.entry)) }
    {
        self.leave().tell();
    }
}

impl<T, K: ValueRule<T>, R: Wait> Deref for RuledReadGuard<'_, T, K, R> {
    type Target = T;

    ghost deref_gives = { λ g x. K.holds x × (g.me.1 ≡ reads x) × IsLastOf g.me.0.values x };

    /// The value: the last one that the guard knows. It keeps to the rule.
    fn deref(&self) -> &T
        ensures rule { K.holds result.now }
        ensures value { self.now.me.1 ≡ reads result.now }
        ensures last { IsLastOf self.now.me.0.values result.now }
    {
        self.inner.deref().get()
    }
}

impl<'a, T, K: ValueRule<T>, R: Wait> RuledReadGuard<'a, T, K, R> {
    /// The stamp of its read mode.
    pub fn stamp(&self) -> u64
        ensures { self.now.me.0.held ≡ Reading result }
    {
        self.inner.stamp()
    }

    /// Releases read mode (`unlockRead`), by one step on the word, which waits for nobody.
    pub fn release(self) -> RuledHandle<'a, T, K>
        ensures { Calls (UnlockRead (stamp_held self.entry.me.0.held)) Done self.entry result }
    {
        let Self { inner } = self;
        RuledHandle {
            inner: inner.release(),
        }
    }

    // Releases read mode, and gives up the seat.
    fn leave(self) -> Left<ValueView<Kept<T, K>>>
        ensures { LeftReleased self.entry result }
    {
        self.release().leave()
    }

    /// Releases read mode to an optimistic stamp of the value that was read, as
    /// `ReadGuard::release_optimistic` (`tryConvertToOptimisticRead`).
    pub fn release_optimistic(self) -> (RuledHandle<'a, T, K>, u64)
        ensures { (x : _) × (self.entry.me.1 ≡ reads x) × ReleasesTo result.1 x self.entry result.0 }
    {
        let Self { inner } = self;
        let (inner, stamp) = inner.release_optimistic();
        (RuledHandle { inner }, stamp)
    }
}
