//! The calls of a handle that are tried once: one load and at most one exchange, whatever others do.
//! `Lost` says when they fail so.
ghost use Rattle.stamp_core.specs.declared.call.Call.TheVariants.{TryWrite, TryRead, UnlockWrite};
ghost use Rattle.stamp_core.specs.declared.call.Call.TheVariants.{UnlockRead, Unlock, ToWrite};
ghost use Rattle.stamp_core.specs.declared.call.Call.TheVariants.{ToRead, ToOptimistic};
ghost use Rattle.stamp_core.specs.declared.call.Call.TheVariants.{TryUnlockWrite, TryUnlockRead};
ghost use Rattle.stamped_lock.specs.Accesses.{AccessesOnceOrTwice};
ghost use Rattle.stamped_lock.specs.Made.{MadeOrLost, UnlockedOrLost};
ghost use Rattle.stamped_lock.specs.Replies.{stamped, tested};

use crate::answers::{stamp_unless_zero, test_in, was_released};
use crate::handle::LockHandle;
use crate::stamp::Stamp;
use crate::unlock_error::UnlockError;
use stamp_core::{Call, KnownLayout};
use stamp_threads::Lost;

impl<'a, L: KnownLayout> LockHandle<'a, L> {
    /// `try_write`, tried once. Where it fails as `Lost`, nothing was acquired.
    #[inline(always)]
    pub fn try_write_once(&mut self) -> Result<Option<Stamp>, Lost>
        ensures made { MadeOrLost TryWrite stamped result self.old self.new }
        ensures accesses { AccessesOnceOrTwice self.old self.new }
    {
        let reply = self.by_once(Call::TryWrite)?;
        Ok(stamp_unless_zero(reply))
    }

    /// `try_read`, tried once. Where it fails as `Lost`, nothing was acquired.
    #[inline(always)]
    pub fn try_read_once(&mut self) -> Result<Option<Stamp>, Lost>
        ensures made { MadeOrLost TryRead stamped result self.old self.new }
        ensures accesses { AccessesOnceOrTwice self.old self.new }
    {
        let reply = self.by_once(Call::TryRead)?;
        Ok(stamp_unless_zero(reply))
    }

    /// `unlock_read`, tried once. Where it fails as `Lost`, nothing was released.
    #[inline(always)]
    pub fn unlock_read_once(&mut self, stamp: Stamp) -> Result<(), UnlockError>
        ensures made { UnlockedOrLost (UnlockRead stamp) result self.old self.new }
        ensures accesses { AccessesOnceOrTwice self.old self.new }
    {
        let reply = self.by_once(Call::UnlockRead(stamp.number()))?;
        was_released(reply)?;
        Ok(())
    }

    /// `unlock`, tried once. Where it fails as `Lost`, nothing was released.
    #[inline(always)]
    pub fn unlock_once(&mut self, stamp: Stamp) -> Result<(), UnlockError>
        ensures made { UnlockedOrLost (Unlock stamp) result self.old self.new }
        ensures accesses { AccessesOnceOrTwice self.old self.new }
    {
        let reply = self.by_once(Call::Unlock(stamp.number()))?;
        was_released(reply)?;
        Ok(())
    }

    /// `try_convert_to_write`, tried once. Where it fails as `Lost`, the old stamp still stands.
    #[inline(always)]
    pub fn try_convert_to_write_once(&mut self, stamp: Stamp) -> Result<Option<Stamp>, Lost>
        ensures made { MadeOrLost (ToWrite stamp) stamped result self.old self.new }
        ensures accesses { AccessesOnceOrTwice self.old self.new }
    {
        let reply = self.by_once(Call::ToWrite(stamp.number()))?;
        Ok(stamp_unless_zero(reply))
    }

    /// `try_convert_to_read`, tried once. Where it fails as `Lost`, the old stamp still stands.
    #[inline(always)]
    pub fn try_convert_to_read_once(&mut self, stamp: Stamp) -> Result<Option<Stamp>, Lost>
        ensures made { MadeOrLost (ToRead stamp) stamped result self.old self.new }
        ensures accesses { AccessesOnceOrTwice self.old self.new }
    {
        let reply = self.by_once(Call::ToRead(stamp.number()))?;
        Ok(stamp_unless_zero(reply))
    }

    /// `try_convert_to_optimistic`, tried once. Where it fails as `Lost`, the old stamp still stands.
    #[inline(always)]
    pub fn try_convert_to_optimistic_once(&mut self, stamp: Stamp) -> Result<Option<Stamp>, Lost>
        ensures made { MadeOrLost (ToOptimistic stamp) stamped result self.old self.new }
        ensures accesses { AccessesOnceOrTwice self.old self.new }
    {
        let reply = self.by_once(Call::ToOptimistic(stamp.number()))?;
        Ok(stamp_unless_zero(reply))
    }

    /// `try_unlock_write`, tried once. Where it fails as `Lost`, nothing was released.
    #[inline(always)]
    pub fn try_unlock_write_once(&mut self) -> Result<bool, Lost>
        ensures made { MadeOrLost TryUnlockWrite tested result self.old self.new }
        ensures accesses { AccessesOnceOrTwice self.old self.new }
    {
        let reply = self.by_once(Call::TryUnlockWrite)?;
        Ok(test_in(reply))
    }

    /// `try_unlock_read`, tried once. Where it fails as `Lost`, nothing was released.
    #[inline(always)]
    pub fn try_unlock_read_once(&mut self) -> Result<bool, Lost>
        ensures made { MadeOrLost TryUnlockRead tested result self.old self.new }
        ensures accesses { AccessesOnceOrTwice self.old self.new }
    {
        let reply = self.by_once(Call::TryUnlockRead)?;
        Ok(test_in(reply))
    }
}
