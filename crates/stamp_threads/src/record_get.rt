//! A get, from its first load to its last.
ghost use Rattle.std.specs.Prelude.{◌≡◌, ◌≤◌, IfOk, IfErr, length};
ghost use Rattle.stamp_threads.specs.declared.record_view.RecordPhase.TheVariants.{Idle};
ghost use Rattle.stamp_threads.specs.RecordPass.{first_of};
ghost use Rattle.stamp_threads.specs.inner.RecordPass.{IsAtSeat};
ghost use Rattle.stamp_threads.specs.RecordCall.{WasGot, GetRefused};

use crate::faults::GetFault;
use crate::record_rule::ContentRule;
use crate::record_steps::{RecordSeat, RecordTable, confirm, load_all, load_for_get};
use crate::record_view::RecordShape;
use std::marker::Brand;

/// Gets the words: one load, a load a word, and one load.
#[inline(always)]
pub fn get_words<P: ContentRule>(
    table: &RecordTable<P>,
    shape: RecordShape,
    seat: &mut RecordSeat,
    into: &mut [u64],
) -> Result<(), GetFault>
    requires shape { (table.now.key.shape ≡ shape) × (shape.width ≤ 4096) }
    requires long { length into.old ≡ shape.width }
    requires seat { IsAtSeat table.now.table_id shape seat.old.table_id seat.old.me }
    requires idle { (first_of seat.old.me.0).phase ≡ Idle }
    ensures seat { IsAtSeat table.now.table_id shape seat.new.table_id seat.new.me }
    ensures long { length into.new ≡ length into.old }
    ensures ok { let v = first_of seat.old.me.0 in let w = first_of seat.new.me.0 in
        IfOk result (λ _. WasGot P.holds shape into.new v w) }
    ensures err { let v = first_of seat.old.me.0 in let w = first_of seat.new.me.0 in
        IfErr result (λ fault. GetRefused shape v fault w) }
{
    // `Brand` stands for what a step's contract speaks of: this shape and the words loaded.
    let loaded = load_for_get::<Brand, P>(table, seat);
    if shape.limits.layout().has_writer(loaded) {
        return Err(GetFault::Busy(loaded));
    }
    load_all(table, seat, into);
    let found = confirm::<Brand, P>(table, seat, into);
    if found != loaded {
        return Err(GetFault::Lost { loaded, found });
    }
    Ok(())
}
