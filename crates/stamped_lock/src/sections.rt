//! Sections: a closure between two calls of the lock.
ghost use Rattle.std.specs.Fn.{FnOnceReturns, FnOnceReturnsAt, FnReturnsAt, CalledAt};
ghost use Rattle.stamped_lock.specs.Sections.{WriteSection, ReadSection, OptimisticSection};
ghost use Rattle.stamped_lock.specs.Sections.{OptimisticSectionMut};

use crate::entered::Entered;
use crate::handle::LockHandle;
use crate::mismatch::Mismatch;
use crate::write_error::WriteError;
use stamp_core::KnownLayout;
use std::sync::Wait;

impl<'a, L: KnownLayout> LockHandle<'a, L> {
    /// Runs the closure in write mode: acquires it (it waits as `write` does), runs the closure and
    /// releases. The closure gets what the handle stands on, as it is in between.
    ///
    /// `Spent` where no version was left: the closure has not run. `Mismatch` where another thread
    /// had released the lock before the closure ended, by this stamp or without one: the closure
    /// was not alone then, so its answer is dropped. What it did stands.
    pub fn write_with<T: Drop, R: Wait, F: FnOnce(&Entered<'a>) -> T>(
        &mut self,
        rt: &R,
        f: F,
    ) -> Result<T, WriteError>
        requires { F.IsAlwaysCallable f }
        ensures { WriteSection (λ t m. FnOnceReturnsAt F.FnOnce f m t) result self.old self.new }
    {
        let Some(stamp) = self.write(rt) else {
            return Err(WriteError::Spent);
        };
        let answer = f(self.entered());
        match self.unlock_write(stamp) {
            Ok(()) => Ok(answer),
            Err(_) => Err(WriteError::Mismatch),
        }
    }

    /// Runs the closure in read mode: acquires it (it waits as `read` does), runs the closure and
    /// releases. The closure gets what the handle stands on, as it is in between.
    ///
    /// `Mismatch` where others had released every read hold before the closure ended: a writer may
    /// have come then, so its answer is dropped. What it did stands.
    pub fn read_with<T: Drop, R: Wait, F: FnOnce(&Entered<'a>) -> T>(
        &mut self,
        rt: &R,
        f: F,
    ) -> Result<T, Mismatch>
        requires { F.IsAlwaysCallable f }
        ensures { ReadSection (λ t m. FnOnceReturnsAt F.FnOnce f m t) result self.old self.new }
    {
        let stamp = self.read(rt);
        let answer = f(self.entered());
        self.unlock_read(rt, stamp)?;
        Ok(answer)
    }

    /// Runs the closure in write mode, as `write_with` does, where it takes nothing. It waits and refuses
    /// as that does.
    pub fn in_write_mode<T: Drop, R: Wait, F: FnOnce() -> T>(
        &mut self,
        rt: &R,
        f: F,
    ) -> Result<T, WriteError>
        requires { F.IsAlwaysCallable f }
        ensures { WriteSection (λ t m. FnOnceReturns F.FnOnce f tt t) result self.old self.new }
    {
        self.write_with(rt, |_| f())
    }

    /// Runs the closure in read mode, as `read_with` does, where it takes nothing. It waits and refuses as
    /// that does.
    pub fn in_read_mode<T: Drop, R: Wait, F: FnOnce() -> T>(
        &mut self,
        rt: &R,
        f: F,
    ) -> Result<T, Mismatch>
        requires { F.IsAlwaysCallable f }
        ensures { ReadSection (λ t m. FnOnceReturns F.FnOnce f tt t) result self.old self.new }
    {
        self.read_with(rt, |_| f())
    }

    /// Runs the closure between an optimistic stamp and its validation, or else in read mode. It
    /// answers what the closure did while nobody acquired write mode. Where there is a writer, or
    /// one comes, the closure runs again in read mode, as in `read_with`: it may run twice, and
    /// what it reads first may be torn.
    ///
    /// It waits and refuses as `read_with` does, and only then.
    pub fn read_optimistically<T: Drop, R: Wait, F: Fn(&Entered<'a>) -> T>(
        &mut self,
        rt: &R,
        f: F,
    ) -> Result<T, Mismatch>
        requires { F.IsAlwaysCallable f }
        ensures { OptimisticSection (λ t m. FnReturnsAt F.Fn f m t) result self.old self.new }
    {
        self.read_lent(rt, &f)
    }

    /// As `read_optimistically`, by a lent closure that may change what it captures, as a buffer.
    /// Its last run is the one whose answer is given. Where it runs again, it finds what its first
    /// run left, which may come of torn reads.
    pub fn read_optimistically_mut<T: Drop, R: Wait, F: FnMut(&Entered<'a>) -> T>(
        &mut self,
        rt: &R,
        f: &mut F,
    ) -> Result<T, Mismatch>
        requires { F.IsAlwaysCallable f.old }
        ensures { OptimisticSectionMut (CalledAt F.FnMut) f.old f.new result self.old self.new }
    {
        let Some(stamp) = self.try_optimistic_read() else {
            return self.read_with_mut(rt, f);
        };
        let filled = f(self.entered());
        let unwritten = self.validate(stamp);
        if unwritten {
            return Ok(filled);
        }
        self.read_with_mut(rt, f)
    }

    /// `read_with`, by a closure that may change what it captures, and that is lent.
    fn read_with_mut<T: Drop, R: Wait, F: FnMut(&Entered<'a>) -> T>(
        &mut self,
        rt: &R,
        f: &mut F,
    ) -> Result<T, Mismatch>
        requires { F.IsAlwaysCallable f.old }
        ensures { ReadSection (λ t m. CalledAt F.FnMut f.old m t f.new) result self.old self.new }
    {
        let held = self.read(rt);
        let answer = f(self.entered());
        self.unlock_read(rt, held)?;
        Ok(answer)
    }

    /// `read_optimistically`, by a closure that is lent.
    pub(crate) fn read_lent<T: Drop, R: Wait, F: Fn(&Entered<'a>) -> T>(
        &mut self,
        rt: &R,
        f: &F,
    ) -> Result<T, Mismatch>
        requires { F.IsAlwaysCallable f.now }
        ensures { OptimisticSection (λ t m. FnReturnsAt F.Fn f.now m t) result self.old self.new }
    {
        let Some(stamp) = self.try_optimistic_read() else {
            return self.read_with_lent(rt, f);
        };
        let answer = f(self.entered());
        let valid = self.validate(stamp);
        if valid {
            return Ok(answer);
        }
        self.read_with_lent(rt, f)
    }

    /// `read_with`, by a closure that is lent.
    fn read_with_lent<T: Drop, R: Wait, F: Fn(&Entered<'a>) -> T>(
        &mut self,
        rt: &R,
        f: &F,
    ) -> Result<T, Mismatch>
        requires { F.IsAlwaysCallable f.now }
        ensures { ReadSection (λ t m. FnReturnsAt F.Fn f.now m t) result self.old self.new }
    {
        let held = self.read(rt);
        let answer = f(self.entered());
        self.unlock_read(rt, held)?;
        Ok(answer)
    }
}
