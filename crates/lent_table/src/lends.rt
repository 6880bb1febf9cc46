//! The value, for as long as a seat that has it is borrowed.
// A file of its own: the clause of `value_mut` names the row of `Seat`, which the file that declares `Seat` can't import.
ghost use Rattle.std.specs.Prelude.{◌≡◌, Some, IsSome};
ghost use types.Logic.{sem};
ghost use denote.Follow.{follows};
ghost use Rattle.lent_table.specs.contracts.shared.Seat.{the_row};
ghost use Rattle.lent_table.specs.Table.{writes, value_of};
ghost use Rattle.lent_table.specs.Written.{seat_with};

use crate::shared::{Seat, Shared, TableRule};

impl<T, V> Seat<T, V> {
    /// The value, to write. When the borrow ends, the seat has what was written through it.
    pub fn value_mut<'a, K, P: TableRule<T, V, K>>(
        &'a mut self,
        table: &'a Shared<T, V, K, P>,
    ) -> &'a mut T
        requires { (self.old.table_id ≡ table.now.table_id) × ((x : T) × (self.old.me.1 ≡ writes x)) }
        ensures* writes_back { sem 𝓛 (follows (the_row T.row V.row) T.row self.entry.ghost_name result.ghost_name (seat_with self.old)) }
        ensures value { self.old.me.1 ≡ writes result.now }
    {
        unsafe { &mut *table.value }
    }

    /// The value, to read. A seat that may write it sees what it wrote last.
    pub fn value_ref<'a, K, P: TableRule<T, V, K>>(&'a self, table: &'a Shared<T, V, K, P>) -> &'a T
        requires { (self.now.table_id ≡ table.now.table_id) × IsSome (value_of self.now.me.1) }
        ensures { value_of self.now.me.1 ≡ Some result.now }
    {
        unsafe { &*table.value }
    }
}
