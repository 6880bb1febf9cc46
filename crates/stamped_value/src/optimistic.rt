//! What a thread learns of a guarded value without a mode: whether the value that a stamp stands for
//! is the last one.
ghost use Rattle.stamped_value.specs.Asks.{AsksIsLast, AsksStamp};

use crate::handle::ValueHandle;
use stamp_core::{Call, LockReply};

impl<'a, T> ValueHandle<'a, T> {
    /// Whether the value that a read stamp or an optimistic stamp stands for is still the last one:
    /// no writer is there, and none has been since the stamp was issued (`validate` in Java). It may
    /// be asked with any number. With a write stamp it answers no, also where the lock's own `Validate`
    /// says yes: the handle holds no write mode. It makes one load, takes nothing, and waits for nobody.
    pub fn is_last(&mut self, stamp: u64) -> bool
        ensures { AsksIsLast stamp result self.old self.new }
    {
        self.value.ask_is_last(&mut self.seat, stamp)
    }

    /// The optimistic stamp of the last value, by which `is_last` tells later whether it still is the
    /// last; 0 where a writer is there (`tryOptimisticRead` in Java). It makes one load, takes nothing,
    /// and waits for nobody.
    pub fn optimistic(&mut self) -> u64
        ensures { AsksStamp result self.old self.new }
    {
        match self.value.ask(&mut self.seat, Call::Optimistic) {
            LockReply::Stamp(stamp) => stamp,
            _ => unreachable!(),
        }
    }
}
