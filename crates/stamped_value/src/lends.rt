//! The value, for as long as a guard is borrowed.
// A file of its own: the clause of `deref_mut` names the row of `WriteGuard`, which the file that declares it
// can't import.
ghost use Rattle.std.specs.Prelude.{◌≡◌, []};
ghost use mir.Syntax.{named};
ghost use types.Logic.{sem};
ghost use denote.Follow.{follows};
ghost use Rattle.lent_table.specs.Table.{reads, writes};
ghost use Rattle.stamped_value.specs.contracts.guards.WriteGuard.{the_row};
ghost use Rattle.stamped_value.specs.ValueLock.{token_with};
ghost use Rattle.stamped_value.specs.Values.{IsLastOf};

use crate::guards::{ReadGuard, WriteGuard};
use std::ops::{Deref, DerefMut};
use std::sync::Wait;

impl<T, R: Wait> Deref for ReadGuard<'_, T, R> {
    type Target = T;

    ghost deref_gives = { λ g x. (g.me.1 ≡ reads x) × IsLastOf g.me.0.values x };

    /// The value: the last one that the guard knows.
    fn deref(&self) -> &T
        ensures value { self.now.me.1 ≡ reads result.now }
        ensures last { IsLastOf self.now.me.0.values result.now }
    {
        let value = self.value;
        self.seat.value_ref(&value.table.shared)
    }
}

impl<T, R: Wait> Deref for WriteGuard<'_, T, R> {
    type Target = T;

    ghost deref_gives = { λ g x. g.me.1 ≡ writes x };

    /// The value, as the guard has written it so far.
    fn deref(&self) -> &T
        ensures value { self.now.me.1 ≡ writes result.now }
    {
        let value = self.value;
        self.seat.value_ref(&value.table.shared)
    }
}

// The row gives the guard's lifetime as `named 1`: its number in this signature, by which callers learn of it.
impl<T, R: Wait> DerefMut for WriteGuard<'_, T, R> {
    ghost deref_mut_gives = { λ g x. g.me.1 ≡ writes x };

    /// The value, to write. When the borrow ends, the guard has what was written through it.
    fn deref_mut(&mut self) -> &mut T
        ensures* writes_back { sem 𝓛 (follows (the_row (record { mir = named 1; lft = [] }) T.row R.row) T.row
            self.entry.ghost_name result.ghost_name (token_with self.old)) }
        ensures value { self.old.me.1 ≡ writes result.now }
    {
        let value = self.value;
        self.seat.value_mut(&value.table.shared)
    }
}
