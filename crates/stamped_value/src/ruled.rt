//! A value that keeps to a rule of the user's.
ghost use Rattle.std.specs.Prelude.{◌≡◌, IfOk, IfErr};
ghost use types.Logic.{sem};
ghost use Rattle.stamp_threads.specs.LockPass.{HasEntered};
ghost use Rattle.stamped_value.specs.Ends.{EndsWith, table_ended};
ghost use Rattle.stamped_value.specs.Values.{HasValues, Opens};
ghost use Rattle.stamped_value.specs.declared.view.Held.TheVariants.{Free};

use crate::kept::{Kept, ValueRule};
use crate::ruled_handle::RuledHandle;
use crate::value::StampedValue;
use crate::view::ValueView;
use lent_table::Ended;
use stamp_core::Limits;
use std::alloc::Global;
use std::marker::Model;

/// A value of any type behind a stamped lock, as a `StampedValue`, that keeps to a rule: whoever
/// reads may rely on it, and each section that writes leaves a value that keeps it.
#[derive(Drop)]
pub struct RuledValue<T, K: ValueRule<T>> {
    inner: StampedValue<Kept<T, K>>,
}

impl<T, K: ValueRule<T>> Model for RuledValue<T, K> {
    ghost use Rattle.stamped_value.specs.ValueLock.{ValueLock};

    ghost Value = { ValueLock T };

    ghost view = { λ l. l.inner };
}

impl<T: Drop, K: ValueRule<T>> RuledValue<T, K> {
    /// A lock that nobody holds, with its first value, which keeps to the rule. The value comes back
    /// where memory is wanting; nothing was made then. That nobody holds it no contract says.
    pub fn new(alloc: Global, limits: Limits, value: T) -> Result<RuledValue<T, K>, T>
        requires { K.holds value }
        ensures ok { IfOk result (λ lock. (lock.limits ≡ limits) × (lock.first ≡ value)) }
        ensures err { IfErr result (λ x. x ≡ value) }
    {
        match StampedValue::new(alloc, limits, Kept::new(value)) {
            Ok(inner) => Ok(RuledValue { inner }),
            Err(kept) => Err(kept.into_value()),
        }
    }
}

impl<T, K: ValueRule<T>> RuledValue<T, K> {
    /// Its limits: the layout of its lock, the most readers at a time, and the most write
    /// acquisitions in all.
    pub fn limits(&self) -> Limits
        ensures { result ≡ self.now.limits }
    {
        self.inner.limits()
    }

    /// A handle, by which one thread comes to the value. It has made no call. No contract says that
    /// the history it knows is all that happened before. It takes one load and no memory.
    pub fn enter(&self) -> RuledHandle<'_, T, K>
        ensures lock { result.lock ≡ self.now }
        ensures entered { HasEntered self.now.limits result.me.0.pass }
        ensures first { Opens self.now.first result.me.0.values }
        ensures values { HasValues self.now.limits result.me.0.pass.known result.me.0.values }
        ensures free { result.me.0.held ≡ Free }
    {
        RuledHandle {
            inner: self.inner.enter(),
        }
    }

    /// The value, once all handles and guards are gone. It keeps to the rule, and is the last one
    /// where no writer is left. None is, since sections release their mode and there is no writer's
    /// guard to leak; but no contract says so.
    pub fn into_inner(self) -> T
        ensures rule { K.holds result }
        ensures ends { (views : _) × EndsWith self.limits self.first result views }
        ensures* ended { sem 𝓛 (table_ended T.row self.table (EndsWith self.limits self.first result)) }
    {
        let (value, ended) = self.close();
        ended.tell();
        value
    }

    // The same, and that the table ended.
    fn close(self) -> (T, Ended<ValueView<Kept<T, K>>>)
        ensures rule { K.holds result.0 }
        ensures ends { EndsWith self.limits self.first result.0 result.1.views }
        ensures table { result.1.table_id ≡ self.table }
    {
        let RuledValue { inner } = self;
        let (result, ended) = inner.close();
        match result {
            Ok(kept) | Err(kept) => (kept.into_value(), ended),
        }
    }
}
