//! Updates by a handle of the function's own, by one thread and by several of one record. Each adds one
//! to each word.
ghost use Rattle.std.specs.Prelude.{◌≤◌};

use crate::threads::sum_of;
use stamped_lock::{AnyContent, RecordHandle, StampedRecord};
use std::sync::Wait;
use std::thread::Threads;

/// Each word and one.
#[inline(always)]
fn one_more<const N: usize>(row: &[u64; N]) -> [u64; N] {
    let mut more = *row;
    for word in &mut more {
        *word = word.wrapping_add(1);
    }
    more
}

/// How many of the updates succeeded.
#[inline(never)]
pub fn updates<const N: usize, R: Wait>(
    rt: &R,
    mut handle: RecordHandle<'_, N, AnyContent>,
    calls: u64,
) -> u64
    requires { N ≤ 16 }
{
    let mut good = 0u64;
    for _ in 0..calls {
        if handle.update(rt, one_more::<N>).is_ok() {
            good = good.wrapping_add(1);
        }
    }
    good
}

/// How many updates of this many threads succeeded; 0 where the words didn't grow by as many.
pub fn updates_by<R: AllocGlobal + Threads + Wait + Sync>(
    rt: &R,
    record: &StampedRecord<2, AnyContent>,
    threads: usize,
    calls: u64,
) -> u64 {
    let [one, other] = record.enter().get(rt);
    let part = |_: usize| updates(rt, record.enter(), calls);
    let good = sum_of(rt, threads, &part);
    if record.enter().get(rt) == [one.wrapping_add(good), other.wrapping_add(good)] {
        good
    } else {
        0
    }
}
