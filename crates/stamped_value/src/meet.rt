//! Handles that share what they know.
ghost use Rattle.std.specs.Prelude.{◌≡◌};
ghost use Rattle.stamped_value.specs.Met.{HandlesMet};

use crate::handle::ValueHandle;
use crate::kept::ValueRule;
use crate::ruled_handle::RuledHandle;
use crate::steps::{follow, meet};
use std::marker::Brand;

impl<T> ValueHandle<'_, T> {
    /// Lets two handles of one lock share what they know: each then knows what either knew, of the
    /// lock's history and of its values. So a call by either handle comes after all calls that both
    /// made before: let handles meet where threads come together, as after a join. It makes two loads,
    /// takes nothing, and waits for nobody. How far the handles agreed before,
    /// `laws::handles_agree` says.
    pub fn meet(&mut self, other: &mut ValueHandle<'_, T>)
        requires { other.old.lock ≡ self.old.lock }
        ensures { HandlesMet self.old other.old self.new other.new }
    {
        let value = self.value;
        let table = &value.table.shared;
        meet::<T, Brand>(table, &mut self.seat, &mut other.seat);
        follow::<T, Brand>(table, &mut other.seat, &mut self.seat);
    }
}

impl<T, K: ValueRule<T>> RuledHandle<'_, T, K> {
    /// Lets two handles of one lock share what they know, as `ValueHandle::meet`.
    pub fn meet(&mut self, other: &mut RuledHandle<'_, T, K>)
        requires { other.old.lock ≡ self.old.lock }
        ensures { HandlesMet self.old other.old self.new other.new }
    {
        self.inner.meet(&mut other.inner);
    }
}
