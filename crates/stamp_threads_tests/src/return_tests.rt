//! Calls that have to come back.
ghost use Rattle.std.specs.Prelude.{◌≡◌, true};

use crate::enter_tests::enterable_lock;
use crate::lock_tests::{answers, made};
use crate::looks::{is_reached, let_come};
use stamp_core::{Call, Layout, Reply};
use stamp_threads::{Pass, RunningLock};
use std::alloc::Global;
use std::sync::atomic::{AtomicU64, Ordering};
use std::sync::{Arc, Barrier, Wait};
use std::test::Fail;
use std::thread;
use std::thread::Threads;

/// A call, and what it answers.
type Row = (Call, Reply);

/// Where a thread meets the test, or another thread, before its first call, and what it tells.
#[derive(Drop)]
struct Told {
    both: Barrier,
    /// How many calls were answered as they should.
    right: AtomicU64,
}

impl Told {
    fn new() -> Told {
        Told {
            both: Barrier::new(2),
            right: AtomicU64::new(0),
        }
    }
}

/// Tries to write by this pass, and tells whether the call was answered as it should.
fn try_write_once<R: Wait>(rt: &R, lock: &RunningLock, mut pass: Pass, told: &Told)
    requires { pass.table ≡ lock.now.table }
{
    told.both.wait(rt);
    if lock.call(rt, &mut pass, Call::TryWrite) == Reply::Stamp(384) {
        told.right.fetch_add(1, Ordering::SeqCst);
    }
}

/// Nobody joins the thread: where its call never comes back, the test ends nevertheless. So it is in all tests here.
#[test]
fn a_call_of_the_first_pass_of_a_new_lock_comes_back(rt: HostRuntime) -> Result<(), Fail> {
    let (lock, pass) = made(rt.alloc(), Layout::One, 127)?;
    let told = Arc::new(rt.alloc(), Told::new())?;
    let theirs = Arc::try_clone(&told)?;
    thread::spawn(
        &rt,
        move ||
            requires { pass.table ≡ lock.table }
        { try_write_once(&rt, &lock, pass, &theirs) },
    )?;
    told.both.wait(&rt);
    assert!(rt; is_reached(&told.right, 1));
    Ok(())
}

/// A lock, and what a thread that makes calls on it tells.
#[derive(Drop)]
struct Watched {
    lock: RunningLock,
    told: Told,
    ghost enterable: { lock.enterable ≡ true },
}

impl Watched {
    /// A new lock of this layout with room for so many readers.
    fn new(alloc: Global, layout: Layout, readers: u64) -> Result<Arc<Watched, Global>, Fail> {
        let (lock, pass) = enterable_lock(alloc, layout, readers)?;
        drop(pass);
        let told = Told::new();
        Ok(Arc::new(alloc, Watched { lock, told })?)
    }

    /// Makes these calls one after another, up to the first that is answered otherwise.
    fn make_calls<R: Wait>(&self, rt: &R, rows: &[Row]) {
        let mut pass = self.lock.enter();
        self.told.both.wait(rt);
        for (call, reply) in rows.iter() {
            if !call.is_lock_call() || self.lock.call(rt, &mut pass, *call) != *reply {
                return;
            }
            self.told.right.fetch_add(1, Ordering::SeqCst);
        }
    }

    /// Reads and releases 100,000 times, and counts as one right answer then. Where another thread does so beside it,
    /// exchanges are lost.
    fn lose_exchanges<R: Wait>(&self, rt: &R) {
        let mut pass = self.lock.enter();
        self.told.both.wait(rt);
        for _ in 0..100_000u64 {
            self.lock.call(rt, &mut pass, Call::TryRead);
            self.lock.call(rt, &mut pass, Call::TryUnlockRead);
        }
        self.told.right.fetch_add(1, Ordering::SeqCst);
    }
}

/// Starts a thread that makes these calls, and meets it.
fn start<const N: usize, R: Threads + Wait + Copy + Send + 'static>(
    rt: &R,
    watched: &Arc<Watched, Global>,
    rows: [Row; N],
) -> Result<(), Fail> {
    let (own, theirs) = (*rt, Arc::try_clone(watched)?);
    thread::spawn(rt, move || theirs.make_calls(&own, &rows))?;
    watched.told.both.wait(rt);
    Ok(())
}

const ON_A_FREE_LOCK: [Row; 1] = [(Call::TryWrite, Reply::Stamp(384))];

#[test]
fn a_call_on_a_free_lock_comes_back(rt: HostRuntime) -> Result<(), Fail> {
    let watched = Watched::new(rt.alloc(), Layout::One, 127)?;
    start(&rt, &watched, ON_A_FREE_LOCK)?;
    assert!(rt; is_reached(&watched.told.right, 1));
    Ok(())
}

const WITHOUT_A_WAIT: [Row; 20] = [
    (Call::TryWrite, Reply::Stamp(384)),
    (Call::IsWriteLocked, Reply::Yes),
    (Call::Validate(384), Reply::Yes),
    (Call::UnlockWrite(384), Reply::Done),
    (Call::TryRead, Reply::Stamp(513)),
    (Call::IsReadLocked, Reply::Yes),
    (Call::ReadCount, Reply::Count(1)),
    (Call::UnlockRead(513), Reply::Done),
    (Call::ReadLock, Reply::Stamp(513)),
    (Call::ToWrite(513), Reply::Stamp(640)),
    (Call::ToWrite(640), Reply::Stamp(640)),
    (Call::ToRead(640), Reply::Stamp(769)),
    (Call::ToRead(769), Reply::Stamp(769)),
    (Call::ToOptimistic(769), Reply::Stamp(768)),
    (Call::ToOptimistic(768), Reply::Stamp(768)),
    (Call::Optimistic, Reply::Stamp(768)),
    (Call::WriteLock, Reply::Stamp(896)),
    (Call::Unlock(896), Reply::Done),
    (Call::TryUnlockWrite, Reply::No),
    (Call::TryUnlockRead, Reply::No),
];

#[test]
fn each_call_that_need_not_wait_comes_back(rt: HostRuntime) -> Result<(), Fail> {
    let watched = Watched::new(rt.alloc(), Layout::One, 127)?;
    start(&rt, &watched, WITHOUT_A_WAIT)?;
    let right = &watched.told.right;
    assert!(rt;
        is_reached(right, 20),
        "row {}",
        right.load(Ordering::SeqCst)
    );
    Ok(())
}

/// The call by which one holds a lock with room for one reader, and its stamp; and the call of one who waits
/// meanwhile, and its stamp.
const WAITS: [(Layout, Call, u64, Call, u64); 8] = [
    (Layout::One, Call::ReadLock, 257, Call::ReadLock, 257),
    (Layout::One, Call::ReadLock, 257, Call::WriteLock, 384),
    (Layout::One, Call::WriteLock, 384, Call::ReadLock, 513),
    (Layout::One, Call::WriteLock, 384, Call::WriteLock, 640),
    (
        Layout::Two,
        Call::ReadLock,
        131_073,
        Call::ReadLock,
        131_073,
    ),
    (
        Layout::Two,
        Call::ReadLock,
        131_073,
        Call::WriteLock,
        196_608,
    ),
    (
        Layout::Two,
        Call::WriteLock,
        196_608,
        Call::ReadLock,
        262_145,
    ),
    (
        Layout::Two,
        Call::WriteLock,
        196_608,
        Call::WriteLock,
        327_680,
    ),
];

#[test]
fn one_who_leaves_lets_in_one_who_waits(rt: HostRuntime) -> Result<(), Fail> {
    for (layout, holds, held, waits, stamp) in WAITS {
        let watched = Watched::new(rt.alloc(), layout, 1)?;
        let lock = &watched.lock;
        let mut first = lock.enter();
        let reply = Reply::Stamp(held);
        assert!(rt; holds.is_lock_call() && answers(lock, &mut first, holds, reply));
        start(&rt, &watched, [(waits, Reply::Stamp(stamp))])?;
        let_come();
        assert!(rt; watched.told.right.load(Ordering::SeqCst) == 0);
        assert!(rt; answers(lock, &mut first, Call::Unlock(held), Reply::Done));
        assert!(rt; is_reached(&watched.told.right, 1));
    }
    Ok(())
}

#[test]
fn a_call_that_loses_exchanges_comes_back(rt: HostRuntime) -> Result<(), Fail> {
    for layout in [Layout::One, Layout::Two] {
        let watched = Watched::new(rt.alloc(), layout, 127)?;
        for _ in 0..2u64 {
            let theirs = Arc::try_clone(&watched)?;
            thread::spawn(&rt, move || theirs.lose_exchanges(&rt))?;
        }
        assert!(rt; is_reached(&watched.told.right, 2));
    }
    Ok(())
}
