//! What comes before words are put over others: these are loaded, and seen to stand together.
ghost use Rattle.std.specs.Prelude.{◌≡◌, ◌≤◌, ◌↔◌, IfOk, IfErr, IsTrue, length};
ghost use Rattle.stamp_threads.specs.declared.record_view.RecordPhase.TheVariants.{Idle};
ghost use Rattle.stamp_threads.specs.RecordPass.{first_of};
ghost use Rattle.stamp_threads.specs.inner.RecordPass.{IsAtSeat};
ghost use Rattle.stamp_threads.specs.RecordCall.{HasSeen, GetRefused};
ghost use Rattle.stamp_threads.specs.inner.RecordCall.{SeenOrDenied};

use crate::faults::GetFault;
use crate::record_rule::ContentRule;
use crate::record_steps::{RecordSeat, RecordTable, deny, load_all, load_for_get, see};
use crate::record_view::RecordShape;
use std::marker::Brand;

/// Gets the words as `get_words` does, but makes no call: one load, a load a word, and one load. Gives
/// the lock word.
#[inline(always)]
pub fn see_words<P: ContentRule>(
    table: &RecordTable<P>,
    shape: RecordShape,
    seat: &mut RecordSeat,
    into: &mut [u64],
) -> Result<u64, GetFault>
    requires shape { (table.now.key.shape ≡ shape) × (shape.width ≤ 4096) }
    requires long { length into.old ≡ shape.width }
    requires seat { IsAtSeat table.now.table_id shape seat.old.table_id seat.old.me }
    requires idle { (first_of seat.old.me.0).phase ≡ Idle }
    ensures seat { IsAtSeat table.now.table_id shape seat.new.table_id seat.new.me }
    ensures long { length into.new ≡ length into.old }
    ensures ok { let v = first_of seat.old.me.0 in let w = first_of seat.new.me.0 in
        IfOk result (λ word. HasSeen P.holds shape word into.new v w) }
    ensures err { let v = first_of seat.old.me.0 in let w = first_of seat.new.me.0 in
        IfErr result (λ fault. GetRefused shape v fault w) }
{
    let loaded = load_for_get::<Brand, P>(table, seat);
    if shape.limits.layout().has_writer(loaded) {
        return Err(GetFault::Busy(loaded));
    }
    load_all(table, seat, into);
    let found = see::<Brand, P>(table, seat, into);
    if found != loaded {
        return Err(GetFault::Lost { loaded, found });
    }
    Ok(loaded)
}

fn are_same(xs: &[u64], ys: &[u64]) -> bool
    ensures { IsTrue result ↔ (xs.now ≡ ys.now) }
{
    xs == ys
}

/// Sees the words as `see_words` does, into words of the caller's, where they are the expected ones, and
/// gives the lock word. Where they are others, a put_if of these words is made and answered no.
#[inline(always)]
pub fn see_or_deny<P: ContentRule>(
    table: &RecordTable<P>,
    shape: RecordShape,
    seat: &mut RecordSeat,
    expected: &[u64],
    words: &[u64],
    into: &mut [u64],
) -> Result<Option<u64>, GetFault>
    requires shape { (table.now.key.shape ≡ shape) × (shape.width ≤ 4096) }
    requires long { length into.old ≡ shape.width }
    requires seat { IsAtSeat table.now.table_id shape seat.old.table_id seat.old.me }
    requires idle { (first_of seat.old.me.0).phase ≡ Idle }
    ensures seat { IsAtSeat table.now.table_id shape seat.new.table_id seat.new.me }
    ensures ok { let v = first_of seat.old.me.0 in let w = first_of seat.new.me.0 in
        IfOk result (λ seen. SeenOrDenied P.holds shape expected.now words.now seen v w) }
    ensures err { let v = first_of seat.old.me.0 in let w = first_of seat.new.me.0 in
        IfErr result (λ fault. GetRefused shape v fault w) }
{
    let loaded = load_for_get::<Brand, P>(table, seat);
    if shape.limits.layout().has_writer(loaded) {
        return Err(GetFault::Busy(loaded));
    }
    load_all(table, seat, into);
    let same = are_same(into, expected);
    if same {
        let again = see::<Brand, P>(table, seat, into);
        if again != loaded {
            return Err(GetFault::Lost {
                loaded,
                found: again,
            });
        }
        return Ok(Some(loaded));
    }
    let again = deny::<Brand, P>(table, seat, into, expected, words);
    if again != loaded {
        return Err(GetFault::Lost {
            loaded,
            found: again,
        });
    }
    Ok(None)
}
