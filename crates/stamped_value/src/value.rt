//! A value behind a stamped lock.
ghost use Rattle.std.specs.Prelude.{◌≡◌, IfOk, IfErr};
ghost use types.Logic.{sem};
ghost use Rattle.stamp_threads.specs.LockPass.{HasEntered};
ghost use Rattle.stamped_value.specs.Ends.{EndsAs, table_ended};
ghost use Rattle.stamped_value.specs.Values.{HasValues, Opens};
ghost use Rattle.stamped_value.specs.declared.view.Held.TheVariants.{Free};

use crate::guarded::Guarded;
use crate::handle::ValueHandle;
use crate::view::ValueView;
use lent_table::Ended;
use stamp_core::Limits;
use std::alloc::Global;
use std::marker::Model;

/// A value of any type behind a stamped lock, which threads share by reference. They come to the
/// value by handles and guards. Where the lock is dropped the value is dropped too.
#[derive(Drop)]
pub struct StampedValue<T> {
    guarded: Guarded<T>,
}

impl<T> Model for StampedValue<T> {
    ghost use Rattle.std.specs.Prelude.{◌≡◌, true};
    ghost use Rattle.stamped_value.specs.ValueLock.{ValueLock};

    ghost Value = { ValueLock T };

    ghost view = { λ l. l.guarded };

    ghost invariant = { λ l. l.guarded.enterable ≡ true };
}

impl<T: Drop> StampedValue<T> {
    /// A lock that nobody holds, with its first value. The value comes back where memory is wanting;
    /// nothing was made then. That nobody holds it no contract says.
    pub fn new(alloc: Global, limits: Limits, value: T) -> Result<StampedValue<T>, T>
        ensures ok { IfOk result (λ lock. (lock.limits ≡ limits) × (lock.first ≡ value)) }
        ensures err { IfErr result (λ x. x ≡ value) }
    {
        match Guarded::new(alloc, limits, value) {
            Ok(guarded) => Ok(StampedValue { guarded }),
            Err(value) => Err(value),
        }
    }
}

impl<T> StampedValue<T> {
    /// Its limits: the layout of its lock, the most readers at a time, and the most write
    /// acquisitions in all.
    pub fn limits(&self) -> Limits
        ensures { result ≡ self.now.limits }
    {
        self.guarded.limits
    }

    /// A handle, by which one thread comes to the value. It has made no call. No contract says that
    /// the history it knows is all that happened before: to order its calls after another handle's,
    /// let both `meet` first. It takes one load and no memory.
    pub fn enter(&self) -> ValueHandle<'_, T>
        ensures lock { result.lock ≡ self.now }
        ensures entered { HasEntered self.now.limits result.me.0.pass }
        ensures first { Opens self.now.first result.me.0.values }
        ensures values { HasValues self.now.limits result.me.0.pass.known result.me.0.values }
        ensures free { result.me.0.held ≡ Free }
    {
        self.guarded.enter()
    }

    /// The last value, once all handles and guards are gone. An error where a writer's guard was
    /// leaked, as by `mem::forget`: it has the value as that writer left it, of which nothing is known.
    /// That takes the place of poison in std's lock. A leaked reader's guard is no error.
    pub fn into_inner(self) -> Result<T, T>
        ensures ends { (views : _) × EndsAs self.limits self.first result views }
        ensures* ended { sem 𝓛 (table_ended T.row self.table (EndsAs self.limits self.first result)) }
    {
        let (value, ended) = self.close();
        ended.tell();
        value
    }

    // The same, and that the table ended.
    pub(crate) fn close(self) -> (Result<T, T>, Ended<ValueView<T>>)
        ensures ends { EndsAs self.limits self.first result.0 result.1.views }
        ensures table { result.1.table_id ≡ self.table }
    {
        let StampedValue { guarded } = self;
        guarded.close()
    }
}
