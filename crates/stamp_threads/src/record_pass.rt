//! The passes of a record.
use crate::record_steps::RecordSeat;
use std::marker::Model;

/// A token of what its holder knows of a record. It has no bytes, can be moved to another thread
/// and can't be copied, and belongs to the record that gave it. It may be dropped. What it knows
/// stands in contracts alone: the record keeps no history.
#[derive(Drop)]
pub struct RecordPass {
    pub(crate) seat: RecordSeat,
}

impl Model for RecordPass {
    ghost use Rattle.std.specs.Prelude.{◌≡◌};
    ghost use Rattle.stamp_threads.specs.Seats.{alone};
    ghost use Rattle.stamp_threads.specs.declared.record_view.RecordPhase.TheVariants.{Idle};
    ghost use Rattle.stamp_threads.specs.RecordPass.{RecordToken, IsConsistentIn, first_of};

    ghost Value = { RecordToken };

    ghost view = { λ p. record { table = p.seat.table_id; view = first_of p.seat.me.0 } };

    ghost invariant = { λ p. (p.seat.me ≡ alone (first_of p.seat.me.0))
        × ((first_of p.seat.me.0).phase ≡ Idle)
        × IsConsistentIn p.seat.table_id (first_of p.seat.me.0) };
}
