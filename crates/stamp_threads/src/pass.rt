//! The passes of a lock.
use crate::lock_steps::LockSeat;
use std::marker::Model;

/// A token of what its holder knows of a lock. It has no bytes, can be moved to another thread or
/// dropped, can't be copied, and belongs to the lock that gave it. What it knows stands in
/// contracts alone: the lock keeps no history.
#[derive(Drop)]
pub struct Pass {
    pub(crate) seat: LockSeat,
}

impl Model for Pass {
    ghost use Rattle.std.specs.Prelude.{◌≡◌};
    ghost use Rattle.stamp_threads.specs.Seats.{alone};
    ghost use Rattle.stamp_threads.specs.LockPass.{LockToken, first_of};

    ghost Value = { LockToken };

    ghost view = { λ p. record { table = p.seat.table_id; view = first_of p.seat.me.0 } };

    ghost invariant = { λ p. p.seat.me ≡ alone (first_of p.seat.me.0) };
}
