//! The guards of a lock: a mode that is held until its guard is dropped.
ghost use Rattle.std.specs.Prelude.{◌≡◌, Some, None, IfOk, IfErr};
ghost use Rattle.stamp_core.specs.declared.call.Call.TheVariants.{WriteLock, ReadLock, TryWrite, TryRead};
ghost use Rattle.stamp_core.specs.declared.call.Call.TheVariants.{UnlockWrite, UnlockRead, ToWrite, ToRead};
ghost use Rattle.stamped_lock.specs.Made.{Made};
ghost use Rattle.stamped_lock.specs.Replies.{stamped, released};
ghost use Rattle.stamped_lock.specs.Guards.{CanRelease};

use crate::handle::LockHandle;
use crate::mismatch::Mismatch;
use crate::stamp::Stamp;
use stamp_core::{KnownLayout, LayoutOne};
use std::marker::Model;
use std::sync::Wait;

/// Read mode, until it is dropped: the drop releases it by its stamp, as `unlock_read` does. So no
/// early return forgets it.
///
/// It has the handle that acquired it, and `release` gives that back. Anybody may release by its
/// stamp, so another thread may have done so before: the drop leaves the lock as it is then, and
/// `release` says so.
pub struct LockReadGuard<'r, 'a, R: Wait, L: KnownLayout = LayoutOne> {
    handle: LockHandle<'a, L>,
    rt: &'r R,
    stamp: Stamp,
}

impl<'r, 'a, R: Wait, L: KnownLayout> Model for LockReadGuard<'r, 'a, R, L> {
    ghost use Rattle.stamped_lock.specs.Guards.{GuardView};

    ghost Value = { GuardView };

    ghost view = { λ g. record { handle = g.handle; stamp = g.stamp } };
}

/// Write mode, until it is dropped: the drop releases it by its stamp, as `unlock_write` does. So no
/// early return forgets it.
///
/// It has the handle that acquired it, and `release` gives that back. Anybody may release by its
/// stamp, so another thread may have done so before: the drop leaves the lock as it is then, and
/// `release` says so.
pub struct LockWriteGuard<'r, 'a, R: Wait, L: KnownLayout = LayoutOne> {
    handle: LockHandle<'a, L>,
    rt: &'r R,
    stamp: Stamp,
}

impl<'r, 'a, R: Wait, L: KnownLayout> Model for LockWriteGuard<'r, 'a, R, L> {
    ghost use Rattle.stamped_lock.specs.Guards.{GuardView};

    ghost Value = { GuardView };

    ghost view = { λ g. record { handle = g.handle; stamp = g.stamp } };
}

impl<'a, L: KnownLayout> LockHandle<'a, L> {
    /// Acquires write mode for a guard (`writeLock`), and waits as `write` does. Where no version is
    /// left it gives the handle back.
    pub fn write_guard<'r, R: Wait>(
        mut self,
        rt: &'r R,
    ) -> Result<LockWriteGuard<'r, 'a, R, L>, LockHandle<'a, L>>
        ensures ok { IfOk result (λ g. Made WriteLock (stamped (Some g.stamp)) self.entry g.handle) }
        ensures err { IfErr result (λ h. Made WriteLock (stamped None) self.entry h) }
    {
        match self.write(rt) {
            Some(stamp) => Ok(LockWriteGuard {
                handle: self,
                rt,
                stamp,
            }),
            None => Err(self),
        }
    }

    /// Acquires write mode for a guard if nobody holds the lock (`tryWriteLock`), as `try_write` does.
    /// Where somebody does, or no version is left, it gives the handle back.
    pub fn try_write_guard<'r, R: Wait>(
        mut self,
        rt: &'r R,
    ) -> Result<LockWriteGuard<'r, 'a, R, L>, LockHandle<'a, L>>
        ensures ok { IfOk result (λ g. Made TryWrite (stamped (Some g.stamp)) self.entry g.handle) }
        ensures err { IfErr result (λ h. Made TryWrite (stamped None) self.entry h) }
    {
        match self.try_write(rt) {
            Some(stamp) => Ok(LockWriteGuard {
                handle: self,
                rt,
                stamp,
            }),
            None => Err(self),
        }
    }

    /// Acquires read mode for a guard (`readLock`), and waits as `read` does.
    pub fn read_guard<'r, R: Wait>(mut self, rt: &'r R) -> LockReadGuard<'r, 'a, R, L>
        ensures { Made ReadLock (stamped (Some result.stamp)) self.entry result.handle }
    {
        let stamp = self.read(rt);
        LockReadGuard {
            handle: self,
            rt,
            stamp,
        }
    }

    /// Acquires read mode for a guard if there is no writer, and room for a reader (`tryReadLock`), as
    /// `try_read` does. Otherwise it gives the handle back.
    pub fn try_read_guard<'r, R: Wait>(
        mut self,
        rt: &'r R,
    ) -> Result<LockReadGuard<'r, 'a, R, L>, LockHandle<'a, L>>
        ensures ok { IfOk result (λ g. Made TryRead (stamped (Some g.stamp)) self.entry g.handle) }
        ensures err { IfErr result (λ h. Made TryRead (stamped None) self.entry h) }
    {
        match self.try_read(rt) {
            Some(stamp) => Ok(LockReadGuard {
                handle: self,
                rt,
                stamp,
            }),
            None => Err(self),
        }
    }
}

impl<'r, 'a, R: Wait, L: KnownLayout> LockReadGuard<'r, 'a, R, L> {
    /// The stamp of its read mode.
    pub fn stamp(&self) -> Stamp
        ensures { result ≡ self.now.stamp }
    {
        self.stamp
    }

    /// Releases read mode (`unlockRead`), as a drop does, and gives the handle back. `Mismatch` where
    /// others had released every read hold: the lock is as it was.
    pub fn release(self) -> (LockHandle<'a, L>, Result<(), Mismatch>)
        ensures { Made (UnlockRead self.entry.stamp) (released result.1) self.entry.handle result.0 }
    {
        let LockReadGuard {
            mut handle,
            rt,
            stamp,
        } = self;
        let released = handle.unlock_read(rt, stamp);
        (handle, released)
    }

    /// Converts it to write mode (`tryConvertToWriteLock`), if there is no other reader, and a version
    /// is left. Otherwise, or where another thread released it, it gives the guard back: the lock is as
    /// it was. It waits for no holder.
    pub fn upgrade(self) -> Result<LockWriteGuard<'r, 'a, R, L>, LockReadGuard<'r, 'a, R, L>>
        ensures ok { IfOk result (λ g.
            Made (ToWrite self.entry.stamp) (stamped (Some g.stamp)) self.entry.handle g.handle) }
        ensures err { IfErr result (λ g. Made (ToWrite self.entry.stamp) (stamped None) self.entry.handle g.handle) }
        ensures kept { IfErr result (λ g. g.stamp ≡ self.entry.stamp) }
    {
        let LockReadGuard {
            mut handle,
            rt,
            stamp,
        } = self;
        match handle.try_convert_to_write(rt, stamp) {
            Some(stamp) => Ok(LockWriteGuard { handle, rt, stamp }),
            None => Err(LockReadGuard { handle, rt, stamp }),
        }
    }
}

impl<'r, 'a, R: Wait, L: KnownLayout> LockWriteGuard<'r, 'a, R, L> {
    /// The stamp of its write mode.
    pub fn stamp(&self) -> Stamp
        ensures { result ≡ self.now.stamp }
    {
        self.stamp
    }

    /// Releases write mode (`unlockWrite`), as a drop does, and gives the handle back. `Mismatch` where
    /// another thread had released it: the lock is as it was.
    pub fn release(self) -> (LockHandle<'a, L>, Result<(), Mismatch>)
        ensures { Made (UnlockWrite self.entry.stamp) (released result.1) self.entry.handle result.0 }
    {
        let LockWriteGuard {
            mut handle,
            rt: _,
            stamp,
        } = self;
        let released = handle.unlock_write(stamp);
        (handle, released)
    }

    /// Converts it to read mode (`tryConvertToReadLock`), with no writer between. Where another thread
    /// released it, it gives the guard back: the lock is as it was. It waits for no holder.
    pub fn downgrade(self) -> Result<LockReadGuard<'r, 'a, R, L>, LockWriteGuard<'r, 'a, R, L>>
        ensures ok { IfOk result (λ g.
            Made (ToRead self.entry.stamp) (stamped (Some g.stamp)) self.entry.handle g.handle) }
        ensures err { IfErr result (λ g. Made (ToRead self.entry.stamp) (stamped None) self.entry.handle g.handle) }
        ensures kept { IfErr result (λ g. g.stamp ≡ self.entry.stamp) }
    {
        let LockWriteGuard {
            mut handle,
            rt,
            stamp,
        } = self;
        match handle.try_convert_to_read(rt, stamp) {
            Some(stamp) => Ok(LockReadGuard { handle, rt, stamp }),
            None => Err(LockWriteGuard { handle, rt, stamp }),
        }
    }
}

impl<'r, 'a, R: Wait, L: KnownLayout> Drop for LockReadGuard<'r, 'a, R, L> {
    fn drop(self)
        ensures { CanRelease (UnlockRead self.entry.stamp) self.entry.handle }
    {
        let LockReadGuard {
            mut handle,
            rt,
            stamp,
        } = self;
        let _ = handle.unlock_read(rt, stamp);
    }
}

impl<'r, 'a, R: Wait, L: KnownLayout> Drop for LockWriteGuard<'r, 'a, R, L> {
    fn drop(self)
        ensures { CanRelease (UnlockWrite self.entry.stamp) self.entry.handle }
    {
        let LockWriteGuard {
            mut handle,
            rt: _,
            stamp,
        } = self;
        let _ = handle.unlock_write(stamp);
    }
}
