//! What calls cost that meet nobody: so little that they can't have let other threads run for long.
ghost use Rattle.std.specs.Prelude.{◌≡◌, length};

use crate::fixtures::{Ask, Row, made, right_rows};
use crate::ticking::Ticking;
use stamped_lock::{AnyContent, StampedCell, StampedLock, StampedRecord, StampedWideRecord};
use std::alloc::Global;
use std::io;
use std::sync::Wait;
use std::sync::atomic::{AtomicU64, Ordering};
use std::test::Fail;
use std::time::{CpuClock, Duration};

/// Whether the work is done, and takes less of the processor's time than a million additions, at least in one of
/// five trials. It doesn't depend on how fast the processor is, nor on what others do.
fn is_cheap<R: CpuClock, F: Fn() -> bool>(rt: &R, work: &F) -> io::Result<bool>
    requires { F.IsAlwaysCallable work.now }
{
    let number = AtomicU64::new(0);
    for _ in 0..5u64 {
        let start = rt.thread_cpu_time()?;
        let done = work();
        let between = rt.thread_cpu_time()?;
        for _ in 0..1_000_000u64 {
            number.fetch_add(1, Ordering::SeqCst);
        }
        let yardstick = rt.thread_cpu_time()?.saturating_sub(between);
        if !done || between.saturating_sub(start) < yardstick {
            return Ok(done);
        }
    }
    Ok(false)
}

/// Each call of a lock.
const EACH: [Row; 29] = [
    (Ask::Optimistic, 0, 256),
    (Ask::Validate, 256, 1),
    (Ask::Write, 0, 384),
    (Ask::IsWriteLocked, 0, 1),
    (Ask::UnlockWrite, 384, 1),
    (Ask::TryWrite, 0, 640),
    (Ask::Unlock, 640, 1),
    (Ask::Read, 0, 769),
    (Ask::IsReadLocked, 0, 1),
    (Ask::ReadCount, 0, 1),
    (Ask::UnlockRead, 769, 1),
    (Ask::TryRead, 0, 769),
    (Ask::TryUnlockRead, 0, 1),
    (Ask::ToRead, 768, 769),
    (Ask::ToWrite, 769, 896),
    (Ask::ToOptimistic, 896, 1024),
    (Ask::TryWriteOnce, 0, 1152),
    (Ask::TryUnlockWriteOnce, 0, 1),
    (Ask::TryReadOnce, 0, 1281),
    (Ask::UnlockReadOnce, 1281, 1),
    (Ask::ToReadOnce, 1280, 1281),
    (Ask::ToWriteOnce, 1281, 1408),
    (Ask::ToOptimisticOnce, 1408, 1536),
    (Ask::TryReadOnce, 0, 1537),
    (Ask::UnlockOnce, 1537, 1),
    (Ask::TryReadOnce, 0, 1537),
    (Ask::TryUnlockReadOnce, 0, 1),
    (Ask::Write, 0, 1664),
    (Ask::TryUnlockWrite, 0, 1),
];

/// Makes each call of a new lock, twenty times.
fn calls_a_lock<R: Wait>(rt: &R, alloc: Global) -> bool {
    for _ in 0..20u64 {
        let Ok(lock) = StampedLock::new(alloc) else {
            return false;
        };
        if right_rows(rt, &lock, &EACH, false) != EACH.len() {
            return false;
        }
    }
    true
}

/// Tries three times to acquire each mode beside a writer.
fn tries_in_vain<R: Wait>(rt: &R, lock: &StampedLock) -> bool {
    let mut handle = lock.enter();
    for time in [Duration::from_millis(4), Duration::from_millis(4)] {
        let ticking = Ticking::new(rt, lock, (0, 0));
        if !matches!(handle.try_write_for(&ticking, time), Ok(None)) {
            return false;
        }
    }
    true
}

/// Makes each call of a record, twenty times.
fn calls_a_record<R: Wait>(rt: &R, record: &StampedRecord<2, AnyContent>) -> bool {
    let mut handle = record.enter();
    for _ in 0..20u64 {
        let (turn, may_turn) = (
            |w: &[u64; 2]| -> [u64; 2] { [w[1], w[0]] },
            |w: &[u64; 2]| -> Option<[u64; 2]> { Some([w[1], w[0]]) },
        );
        let puts = handle.put(rt, [5, 7]).is_ok() && handle.put_once([5, 7]).is_ok();
        let gets = handle.get(rt) == [5, 7] && handle.get_once() == Ok([5, 7]);
        let updates = handle.update(rt, turn) == Ok([5, 7])
            && handle.update_once(turn) == Ok([7, 5])
            && handle.try_update(rt, may_turn) == Ok([5, 7]);
        let put_ifs = handle.put_if(rt, [7, 5], [1, 2]) == Ok(true)
            && handle.put_if_once([1, 3], [5, 7]) == Ok(false);
        if !(puts && gets && updates && put_ifs) {
            return false;
        }
    }
    true
}

/// Makes each call of a cell, twenty times.
fn calls_a_cell<R: Wait>(rt: &R, cell: &StampedCell<1, bool>) -> bool {
    let mut handle = cell.enter();
    for _ in 0..20u64 {
        let updates = handle.put(rt, true).is_ok()
            && handle.update(rt, |it: &bool| -> bool { !*it }) == Ok(true)
            && handle.try_update(rt, |it: &bool| -> Option<bool> { Some(!*it) }) == Ok(false);
        if !(updates && handle.get(rt) && handle.put_if(rt, true, false) == Ok(true)) {
            return false;
        }
    }
    true
}

/// Makes each call of a record of many words, twenty times.
fn calls_many_words<R: Wait>(rt: &R, record: &StampedWideRecord<3, AnyContent>) -> bool {
    let mut handle = record.enter();
    let mut old = [0; 3];
    let mut new = [0; 3];
    let turn = |words: &mut [u64]|
        requires { length words.old ≡ 3 }
        ensures { length words.new ≡ 3 }
    {
        words.reverse();
    };
    for _ in 0..20u64 {
        let puts = handle.put_from(rt, &[1, 2, 3]).is_ok()
            && handle.put_from_once(&[1, 2, 3]).is_ok();
        let updates = handle.update_in(rt, &mut old, &mut new, turn).is_ok()
            && handle.update_in_once(&mut old, &mut new, turn).is_ok();
        handle.get_into(rt, &mut old);
        if !(puts && updates && handle.get_into_once(&mut new).is_ok() && old == new) {
            return false;
        }
    }
    true
}

#[test]
fn a_call_that_meets_nobody_costs_little(rt: HostRuntime) -> Result<(), Fail> {
    let rt = &rt;
    let (Ok(record), Ok(cell), Ok(wide)) = (
        StampedRecord::new(rt.alloc(), [0, 0]),
        StampedCell::new(rt.alloc(), true),
        StampedWideRecord::new(rt.alloc(), &[0; 3]),
    ) else {
        return Err(Fail::from("no memory for a record"));
    };
    let lock = made(rt.alloc())?;
    assert!(rt; is_cheap(rt, &|| calls_a_lock(rt, rt.alloc()))?);
    assert!(rt; is_cheap(rt, &|| calls_a_record(rt, &record))?);
    assert!(rt; is_cheap(rt, &|| calls_a_cell(rt, &cell))?);
    assert!(rt; is_cheap(rt, &|| calls_many_words(rt, &wide))?);
    lock.enter().try_write(rt);
    assert!(rt; is_cheap(rt, &|| tries_in_vain(rt, &lock))?);
    Ok(())
}
