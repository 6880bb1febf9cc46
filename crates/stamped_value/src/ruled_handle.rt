//! The handles of a value that keeps to a rule.
ghost use Rattle.std.specs.Prelude.{◌≡◌, IfOk, IfErr, IfSome, IsNone, true};
ghost use Rattle.std.specs.Fn.{FnReturnsAt, FnOnceReturnsAt, FnOnceReturnsAtMut};
ghost use types.Logic.{sem};
ghost use Rattle.stamp_core.specs.declared.call.Call.TheVariants.{TryRead, ReadLock, WriteLock};
ghost use Rattle.stamp_core.specs.declared.reply.Reply.TheVariants.{Stamp};
ghost use Rattle.stamped_value.specs.Asks.{AsksIsLast, AsksStamp};
ghost use Rattle.stamped_value.specs.Held.{stamp_held};
ghost use Rattle.stamped_value.specs.Leaving.{IsLeft, a_seat_left};
ghost use Rattle.stamped_value.specs.Sections.{ReadSection, ReadsByStamp, WriteSection};
ghost use Rattle.stamped_value.specs.ValueCalls.{Calls};
ghost use Rattle.stamped_value.specs.WriteIf.{WriteIfSection};

use crate::handle::ValueHandle;
use crate::kept::{Kept, ValueRule};
use crate::ruled_guard::RuledReadGuard;
use crate::spent::Spent;
use crate::view::ValueView;
use lent_table::Left;
use std::marker::Model;
use std::sync::Wait;

/// One thread's way to a value that keeps to a rule. It holds nothing of it. A handle can be moved to
/// another thread, and can't be copied.
///
/// It is seen as a `ValueHandle` is.
pub struct RuledHandle<'a, T, K: ValueRule<T>> {
    pub(crate) inner: ValueHandle<'a, Kept<T, K>>,
}

impl<'a, T, K: ValueRule<T>> Model for RuledHandle<'a, T, K> {
    ghost use Rattle.stamped_value.specs.ValueLock.{ValueToken};

    ghost Value = { ValueToken T };

    ghost view = { λ h. h.inner };
}

impl<T, K: ValueRule<T>> Drop for RuledHandle<'_, T, K> {
    /// Leaves the lock.
    fn drop(self)
        ensures* left { sem 𝓛 (a_seat_left T.row (IsLeft self.entry)) }
    {
        self.leave().tell();
    }
}

impl<T, K: ValueRule<T>> RuledHandle<'_, T, K> {
    // Gives up the seat, as the handle knows it.
    pub(crate) fn leave(self) -> Left<ValueView<Kept<T, K>>>
        ensures { IsLeft self.entry result }
    {
        let RuledHandle { inner } = self;
        inner.leave()
    }
}

impl<'a, T, K: ValueRule<T>> RuledHandle<'a, T, K> {
    /// Acquires read mode if there is no writer and room for a reader (`tryReadLock`). Otherwise it
    /// gives the handle back, by which the call was made and answered 0. It waits for nobody, and
    /// tries again where another thread came between.
    pub fn try_read<R: Wait>(
        self,
        rt: &'a R,
    ) -> Result<RuledReadGuard<'a, T, K, R>, RuledHandle<'a, T, K>>
        ensures ok { IfOk result (λ g. Calls TryRead (Stamp (stamp_held g.me.0.held)) self.entry g) }
        ensures err { IfErr result (λ h. Calls TryRead (Stamp 0) self.entry h) }
    {
        let RuledHandle { inner } = self;
        match inner.try_read(rt) {
            Ok(inner) => Ok(RuledReadGuard { inner }),
            Err(inner) => Err(RuledHandle { inner }),
        }
    }

    /// Acquires read mode, and waits while there is a writer or no room (`readLock`).
    pub fn read<R: Wait>(self, rt: &'a R) -> RuledReadGuard<'a, T, K, R>
        ensures { Calls ReadLock (Stamp (stamp_held result.me.0.held)) self.entry result }
    {
        let RuledHandle { inner } = self;
        RuledReadGuard {
            inner: inner.read(rt),
        }
    }

    /// Runs the closure on the value in read mode, beside other readers: acquires it (it waits as
    /// `read` does), runs the closure and releases. The closure may rely on the rule.
    pub fn read_with<A: Drop, R: Wait, F: FnOnce(&T) -> A>(&mut self, rt: &R, f: F) -> A
        requires { (x : _) → K.holds x.now → F.pre f x }
        ensures { ReadSection (λ x. K.holds x × FnOnceReturnsAt F.FnOnce f x result) self.old self.new }
    {
        self.inner.read_with(
            rt,
            |kept: &Kept<T, K>| -> A
                requires { (x : _) → K.holds x.now → F.pre f x }
                ensures { K.holds kept.now × FnOnceReturnsAt F.FnOnce f kept.now result }
            { f(kept.get()) },
        )
    }

    /// Runs the closure as `read_with` does, and tells the stamp by which it read, for `is_last`.
    pub fn read_stamped<A: Drop, R: Wait, F: FnOnce(&T) -> A>(&mut self, rt: &R, f: F) -> (A, u64)
        requires { (x : _) → K.holds x.now → F.pre f x }
        ensures { ReadsByStamp (λ x. K.holds x × FnOnceReturnsAt F.FnOnce f x result.0) result.1 self.old self.new }
    {
        self.inner.read_stamped(
            rt,
            |kept: &Kept<T, K>| -> A
                requires { (x : _) → K.holds x.now → F.pre f x }
                ensures { K.holds kept.now × FnOnceReturnsAt F.FnOnce f kept.now result }
            { f(kept.get()) },
        )
    }

    /// Runs the closure on the value in write mode, alone: acquires it (it waits as `write` does),
    /// runs the closure and releases. `None` where no version was left: the closure has not run. The
    /// closure may rely on the rule, and leaves a value that keeps it.
    pub fn write_with<A: Drop, R: Wait, F: FnOnce(&mut T) -> A>(
        &mut self,
        rt: &R,
        f: F,
    ) -> Option<A>
        requires may { (x : _) → K.holds x.now → F.pre f x }
        requires keeps { (x : _) (a : A) (y : _) → K.holds x.now → F.post f x a y → K.holds y.now }
        ensures section { IfSome result (λ a.
            WriteSection (λ x y. K.holds x × K.holds y × FnOnceReturnsAtMut F.FnOnce f x a y) self.old self.new) }
        ensures spent { IsNone result → Calls WriteLock (Stamp 0) self.old self.new }
    {
        self.inner.write_with(
            rt,
            |kept: &mut Kept<T, K>| -> A
                requires may { (x : _) → K.holds x.now → F.pre f x }
                requires keeps { (x : _) (a : A) (y : _) → K.holds x.now → F.post f x a y → K.holds y.now }
                ensures { K.holds kept.old × K.holds kept.new × FnOnceReturnsAtMut F.FnOnce f kept.old result kept.new }
            { kept.change(f) },
        )
    }

    /// Runs the second closure on the value in write mode, where the first answers true of it, as
    /// `ValueHandle::write_if`: `None` where that answers false. Both may rely on the rule, and the
    /// second on the test, too. It leaves a value that keeps the rule.
    ///
    /// It waits as `read_with` and `write_with` do. `Spent` where no version was left: the second
    /// closure has not run, and nothing was changed.
    pub fn write_if<A: Drop, R: Wait, P: Fn(&T) -> bool, F: FnOnce(&mut T) -> A>(
        &mut self,
        rt: &R,
        test: P,
        then: F,
    ) -> Result<Option<A>, Spent>
        requires test { (x : _) → K.holds x.now → P.pre test x }
        requires then { (x : _) → K.holds x.now → FnReturnsAt P.Fn test x.now true → F.pre then x }
        requires keeps { (x : _) (a : A) (y : _) →
            K.holds x.now → FnReturnsAt P.Fn test x.now true → F.post then x a y → K.holds y.now }
        ensures { WriteIfSection (λ yes x. K.holds x × FnReturnsAt P.Fn test x yes)
            (λ a x y. K.holds x × K.holds y × FnOnceReturnsAtMut F.FnOnce then x a y) result self.old self.new }
    {
        self.inner.write_if(
            rt,
            |kept: &Kept<T, K>| -> bool
                requires { (x : _) → K.holds x.now → P.pre test x }
                ensures { K.holds kept.now × FnReturnsAt P.Fn test kept.now result }
            { test(kept.get()) },
            |kept: &mut Kept<T, K>| -> A
                requires may { (x : _) → x.now ≡ kept.old → K.holds x.now → F.pre then x }
                requires keeps { (x : _) (a : A) (y : _) →
                    x.now ≡ kept.old → K.holds x.now → F.post then x a y → K.holds y.now }
                ensures { K.holds kept.old × K.holds kept.new
                    × FnOnceReturnsAtMut F.FnOnce then kept.old result kept.new }
            { kept.change(then) },
        )
    }

    /// Whether the value that a read stamp or an optimistic stamp stands for is still the last one, as
    /// `ValueHandle::is_last`.
    pub fn is_last(&mut self, stamp: u64) -> bool
        ensures { AsksIsLast stamp result self.old self.new }
    {
        self.inner.is_last(stamp)
    }

    /// The optimistic stamp of the last value, as `ValueHandle::optimistic`; 0 where a writer is there.
    pub fn optimistic(&mut self) -> u64
        ensures { AsksStamp result self.old self.new }
    {
        self.inner.optimistic()
    }
}
