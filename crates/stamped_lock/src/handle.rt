//! The handles of a lock.
ghost use Rattle.std.specs.Prelude.{◌≡◌, IfOk, IsTrue, Some};
ghost use Rattle.stamp_core.specs.Call.{is_lock_call};
ghost use Rattle.stamp_core.specs.Layout.{units_of};
ghost use Rattle.stamp_core.specs.StampKind.{HasKind};
ghost use Rattle.stamp_core.specs.declared.call.Call.TheVariants.{TryWrite, TryRead, WriteLock};
ghost use Rattle.stamp_core.specs.declared.call.Call.TheVariants.{ReadLock, Optimistic, Validate};
ghost use Rattle.stamp_core.specs.declared.call.Call.TheVariants.{UnlockWrite, UnlockRead, Unlock};
ghost use Rattle.stamp_core.specs.declared.call.Call.TheVariants.{ToWrite, ToRead, ToOptimistic};
ghost use Rattle.stamp_core.specs.declared.call.Call.TheVariants.{TryUnlockWrite, TryUnlockRead};
ghost use Rattle.stamp_core.specs.declared.call.Call.TheVariants.{IsWriteLocked, IsReadLocked};
ghost use Rattle.stamp_core.specs.declared.call.Call.TheVariants.{ReadCount};
ghost use Rattle.stamp_core.specs.declared.reply.Reply.TheVariants.{Count};
ghost use Rattle.stamp_threads.specs.Made.{try_form};
ghost use Rattle.stamp_threads.specs.MayReply.{MayReply};
ghost use Rattle.stamp_threads.specs.PassView.{after_split, split_off};
ghost use Rattle.stamped_lock.specs.Accesses.{AccessesOnce, AccessesOnceOrTwice};
ghost use Rattle.stamped_lock.specs.Made.{Made, MadeOrLost};
ghost use Rattle.stamped_lock.specs.Replies.{stamped, tested, released};
ghost use Rattle.stamped_lock.specs.inner.Replies.{NeverLoses, AsksOnly};

use crate::answers::{count_in, some_stamp_in, stamp_unless_zero, test_in, was_released};
use crate::entered::Entered;
use crate::mismatch::Mismatch;
use crate::stamp::Stamp;
use stamp_core::{Call, KnownLayout, LayoutOne, Reply, StampKind};
use stamp_threads::{Lost, Pass, RunningLock};
use std::marker::{Model, PhantomData};
use std::sync::Wait;

/// One thread's way to the lock. A handle can be moved to another thread, and can't be copied;
/// `split` makes another one.
///
/// It has no bytes but the lock's reference. What a thread acquires belongs to the stamp, and not to
/// the handle: dropping a handle releases nothing.
///
/// `L` says what is known of the lock's layout, as in `StampedLock`.
#[derive(Drop)]
pub struct LockHandle<'a, L: KnownLayout = LayoutOne> {
    entered: Entered<'a>,
    known: PhantomData<L>,
    ghost layout: { L.seen entered.running.limits.layout ≡ entered.running.limits.layout },
}

impl<'a, L: KnownLayout> Model for LockHandle<'a, L> {
    ghost use Rattle.std.specs.Prelude.{◌≡◌};
    ghost use Rattle.stamped_lock.specs.LockHandleView.{LockHandleView};

    ghost Value = { LockHandleView };

    ghost view = { λ h. h.entered };
}

impl<'a, L: KnownLayout> LockHandle<'a, L> {
    /// The handle of a lock and a pass of it.
    pub(crate) fn new(running: &'a RunningLock, pass: Pass) -> LockHandle<'a, L>
        requires table { pass.table ≡ running.now.table }
        requires layout { L.seen running.now.limits.layout ≡ running.now.limits.layout }
        ensures running { result.running ≡ running.now }
        ensures pass { result.pass ≡ pass.view }
    {
        LockHandle {
            entered: Entered::new(running, pass),
            known: PhantomData,
        }
    }

    /// What it stands on.
    #[inline(always)]
    pub(crate) fn entered(&self) -> &Entered<'a>
        ensures { result.now ≡ self.now }
    {
        &self.entered
    }

    /// Makes the call: it waits where the call does, and tries again where its exchange lost.
    #[inline(always)]
    pub(crate) fn call<R: Wait>(&mut self, rt: &R, call: Call) -> Reply
        requires { IsTrue (is_lock_call call) }
        ensures made { Made call result self.old self.new }
        ensures reply { MayReply call result }
    {
        self.entered.call::<L, R>(rt, call)
    }

    /// Makes a call that waits for nobody, and isn't tried again.
    #[inline(always)]
    pub(crate) fn by_once(&mut self, call: Call) -> Result<Reply, Lost>
        requires lock_call { IsTrue (is_lock_call call) }
        requires at_once { try_form call ≡ call }
        ensures made { MadeOrLost call (λ r. r) result self.old self.new }
        ensures reply { IfOk result (λ r. MayReply call r) }
        ensures accesses { AccessesOnceOrTwice self.old self.new }
    {
        self.entered.once::<L>(call)
    }

    /// Makes a call that can't lose: by one load, and at most one exchange where it doesn't only ask.
    #[inline(always)]
    fn once_surely(&mut self, call: Call) -> Reply
        requires { NeverLoses call }
        ensures made { Made call result self.old self.new }
        ensures reply { MayReply call result }
        ensures accesses { AccessesOnceOrTwice self.old self.new }
        ensures asked { AsksOnly call → AccessesOnce self.old self.new }
    {
        match self.entered.once::<L>(call) {
            Ok(reply) => reply,
            Err(_) => unreachable!(),
        }
    }

    /// Acquires write mode (`writeLock`). It waits while anybody holds the lock. None where no version
    /// is left: a lock of `StampedLock::new` has 2^55-2 of them.
    #[inline(always)]
    pub fn write<R: Wait>(&mut self, rt: &R) -> Option<Stamp>
        ensures { Made WriteLock (stamped result) self.old self.new }
    {
        stamp_unless_zero(self.call(rt, Call::WriteLock))
    }

    /// Acquires write mode if nobody holds the lock (`tryWriteLock`). None where somebody does, or no
    /// version is left. It waits for no holder.
    #[inline(always)]
    pub fn try_write<R: Wait>(&mut self, rt: &R) -> Option<Stamp>
        ensures { Made TryWrite (stamped result) self.old self.new }
    {
        stamp_unless_zero(self.call(rt, Call::TryWrite))
    }

    /// Acquires read mode (`readLock`). It waits while there is a writer, or no room for a reader.
    #[inline(always)]
    pub fn read<R: Wait>(&mut self, rt: &R) -> Stamp
        ensures { Made ReadLock (stamped (Some result)) self.old self.new }
    {
        some_stamp_in(self.call(rt, Call::ReadLock))
    }

    /// Acquires read mode if there is no writer, and room for a reader (`tryReadLock`). It waits for no
    /// holder.
    #[inline(always)]
    pub fn try_read<R: Wait>(&mut self, rt: &R) -> Option<Stamp>
        ensures { Made TryRead (stamped result) self.old self.new }
    {
        stamp_unless_zero(self.call(rt, Call::TryRead))
    }

    /// An optimistic stamp, to be validated later (`tryOptimisticRead`). None while there is a
    /// writer. It holds nothing, so it isn't released. One load.
    #[inline(always)]
    pub fn try_optimistic_read(&mut self) -> Option<Stamp>
        ensures made { Made Optimistic (stamped result) self.old self.new }
        ensures accesses { AccessesOnce self.old self.new }
    {
        self.entered.optimistic::<L>()
    }

    /// Whether nobody acquired write mode since the stamp was issued (`validate`). Also true of a stamp
    /// whose mode is held. One load.
    #[inline(always)]
    pub fn validate(&mut self, stamp: Stamp) -> bool
        ensures made { Made (Validate stamp) (tested result) self.old self.new }
        ensures accesses { AccessesOnce self.old self.new }
    {
        test_in(self.once_surely(Call::Validate(stamp.number())))
    }

    /// Releases write mode (`unlockWrite`). `Mismatch` where the stamp doesn't match it: the lock
    /// is as it was. It never waits, and tries nothing again: while the stamp matches write mode,
    /// nobody else can change the lock but by releasing it.
    #[inline(always)]
    pub fn unlock_write(&mut self, stamp: Stamp) -> Result<(), Mismatch>
        ensures made { Made (UnlockWrite stamp) (released result) self.old self.new }
        ensures accesses { AccessesOnceOrTwice self.old self.new }
    {
        was_released(self.once_surely(Call::UnlockWrite(stamp.number())))
    }

    /// Releases one hold of read mode (`unlockRead`). `Mismatch` where the stamp doesn't match one:
    /// the lock is as it was.
    #[inline(always)]
    pub fn unlock_read<R: Wait>(&mut self, rt: &R, stamp: Stamp) -> Result<(), Mismatch>
        ensures { Made (UnlockRead stamp) (released result) self.old self.new }
    {
        was_released(self.call(rt, Call::UnlockRead(stamp.number())))
    }

    /// Releases the mode that the stamp matches (`unlock`). `Mismatch` where it matches none that
    /// is held: the lock is as it was.
    #[inline(always)]
    pub fn unlock<R: Wait>(&mut self, rt: &R, stamp: Stamp) -> Result<(), Mismatch>
        ensures { Made (Unlock stamp) (released result) self.old self.new }
    {
        was_released(self.call(rt, Call::Unlock(stamp.number())))
    }

    /// Converts a stamp to write mode (`tryConvertToWriteLock`). It does so from write mode with
    /// the same stamp, from read mode if there is no other reader, from an optimistic stamp if it
    /// is valid and nobody holds the lock. After it release by the new stamp alone. None otherwise:
    /// the lock is as it was, and the old stamp still stands. It waits for no holder.
    pub fn try_convert_to_write<R: Wait>(&mut self, rt: &R, stamp: Stamp) -> Option<Stamp>
        ensures { Made (ToWrite stamp) (stamped result) self.old self.new }
    {
        stamp_unless_zero(self.call(rt, Call::ToWrite(stamp.number())))
    }

    /// Converts a stamp to read mode (`tryConvertToReadLock`). It does so from write mode, from
    /// read mode with the same stamp, from an optimistic stamp if it is valid and there is room for
    /// a reader. After it release by the new stamp alone. None otherwise: the lock is as it was,
    /// and the old stamp still stands. It waits for no holder.
    pub fn try_convert_to_read<R: Wait>(&mut self, rt: &R, stamp: Stamp) -> Option<Stamp>
        ensures { Made (ToRead stamp) (stamped result) self.old self.new }
    {
        stamp_unless_zero(self.call(rt, Call::ToRead(stamp.number())))
    }

    /// Converts a stamp to an optimistic one (`tryConvertToOptimisticRead`). It releases the mode
    /// that the stamp matches; a valid optimistic stamp is answered itself. After it release
    /// nothing by the old stamp. None otherwise: the lock is as it was. It waits for no holder.
    pub fn try_convert_to_optimistic<R: Wait>(&mut self, rt: &R, stamp: Stamp) -> Option<Stamp>
        ensures { Made (ToOptimistic stamp) (stamped result) self.old self.new }
    {
        stamp_unless_zero(self.call(rt, Call::ToOptimistic(stamp.number())))
    }

    /// Releases write mode without a stamp, if it is held (`tryUnlockWrite`). False where it isn't. It
    /// is meant for recovery after an error.
    pub fn try_unlock_write<R: Wait>(&mut self, rt: &R) -> bool
        ensures { Made TryUnlockWrite (tested result) self.old self.new }
    {
        test_in(self.call(rt, Call::TryUnlockWrite))
    }

    /// Releases one hold of read mode without a stamp, if there is one (`tryUnlockRead`). False where
    /// there is none. It is meant for recovery after an error.
    pub fn try_unlock_read<R: Wait>(&mut self, rt: &R) -> bool
        ensures { Made TryUnlockRead (tested result) self.old self.new }
    {
        test_in(self.call(rt, Call::TryUnlockRead))
    }

    /// Whether write mode is held (`isWriteLocked`). One load.
    #[inline(always)]
    pub fn is_write_locked(&mut self) -> bool
        ensures made { Made IsWriteLocked (tested result) self.old self.new }
        ensures accesses { AccessesOnce self.old self.new }
    {
        test_in(self.once_surely(Call::IsWriteLocked))
    }

    /// Whether read mode is held (`isReadLocked`). One load.
    #[inline(always)]
    pub fn is_read_locked(&mut self) -> bool
        ensures made { Made IsReadLocked (tested result) self.old self.new }
        ensures accesses { AccessesOnce self.old self.new }
    {
        test_in(self.once_surely(Call::IsReadLocked))
    }

    /// How many hold read mode (`getReadLockCount`). One load.
    #[inline(always)]
    pub fn read_count(&mut self) -> u64
        ensures made { Made ReadCount (Count result) self.old self.new }
        ensures accesses { AccessesOnce self.old self.new }
    {
        count_in(self.once_surely(Call::ReadCount))
    }

    /// What the stamp is a stamp of, by its number (`isWriteLockStamp`, `isReadLockStamp`,
    /// `isOptimisticReadStamp`). That is a write acquisition, a read hold or an optimistic read of
    /// a lock of this layout, or neither. No access: it may have been released since.
    pub fn kind(&self, stamp: Stamp) -> StampKind
        ensures { HasKind (units_of self.now.running.limits.layout) stamp result }
    {
        stamp.kind_in(self.entered.limits().layout())
    }

    /// One more handle of the same lock. It knows as much as this one, and has made no call.
    pub fn split(&mut self) -> LockHandle<'a, L>
        ensures running { (self.new.running ≡ self.old.running)
            × (result.running ≡ self.old.running) }
        ensures given { self.new.pass ≡ after_split self.old.pass }
        ensures new { result.pass ≡ split_off self.old.pass }
    {
        LockHandle {
            entered: self.entered.split(),
            known: PhantomData,
        }
    }
}
