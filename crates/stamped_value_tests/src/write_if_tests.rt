//! Sections in write mode where a test holds.
use crate::fixtures::{made, made_in, read_at_once};
use stamp_core::Layout;
use stamped_value::{Spent, ValueHandle};
use std::sync::{Barrier, Wait};
use std::test::Fail;
use std::thread;
use std::thread::join;

/// Adds one where the number is below the bound: what it was.
fn add_below<R: Wait>(
    rt: &R,
    handle: &mut ValueHandle<'_, u64>,
    bound: u64,
) -> Result<Option<u64>, Spent> {
    handle.write_if(
        rt,
        |number: &u64| *number < bound,
        |number: &mut u64| {
            let old = *number;
            *number = old.wrapping_add(1);
            old
        },
    )
}

#[test]
fn it_writes_where_the_test_holds_and_else_takes_no_write_mode(
    rt: HostRuntime,
) -> Result<(), Fail> {
    for (layout, stamps) in [(Layout::One, [256, 512]), (Layout::Two, [131_072, 262_144])] {
        let value = made_in(rt.alloc(), layout, (2, 9), 7u64)?;
        let mut handle = value.enter();
        assert!(rt; add_below(&rt, &mut handle, 7) == Ok(None));
        assert!(rt; handle.optimistic() == stamps[0]);
        assert!(rt; add_below(&rt, &mut handle, 8) == Ok(Some(7)));
        assert!(rt; handle.optimistic() == stamps[1]);
        assert!(rt; add_below(&rt, &mut handle, 8) == Ok(None));
        assert!(rt; handle.optimistic() == stamps[1]);
        assert!(rt; *read_at_once(&rt, handle)? == 8);
    }
    Ok(())
}

#[test]
fn without_a_version_it_tests_and_does_not_write(rt: HostRuntime) -> Result<(), Fail> {
    for layout in [Layout::One, Layout::Two] {
        let value = made_in(rt.alloc(), layout, (2, 1), 7u64)?;
        let mut handle = value.enter();
        assert!(rt; add_below(&rt, &mut handle, 9) == Ok(Some(7)));
        assert!(rt; add_below(&rt, &mut handle, 9) == Err(Spent));
        assert!(rt; add_below(&rt, &mut handle, 8) == Ok(None));
        assert!(rt; *read_at_once(&rt, handle)? == 8);
    }
    Ok(())
}

#[test]
fn it_says_why_it_did_not_write(rt: HostRuntime) -> Result<(), Fail> {
    let text = format!(in rt.alloc(); "{Spent}")?;
    assert!(rt; text.as_str() == "the lock has no version left to write");
    Ok(())
}

/// Adds to the number while it is below the bound: how often it did.
fn add_up_to<R: Wait>(rt: &R, mut handle: ValueHandle<'_, u64>, bound: u64) -> u64 {
    let mut added = 0u64;
    for _ in 0..bound {
        match add_below(rt, &mut handle, bound) {
            Ok(Some(_)) => added = added.wrapping_add(1),
            Ok(None) | Err(Spent) => return added,
        }
    }
    added
}

#[test]
fn threads_that_add_below_a_bound_reach_it_and_never_pass_it(rt: HostRuntime) -> Result<(), Fail> {
    let value = made(rt.alloc(), 0u64)?;
    let (some, others) = join(
        &rt,
        || add_up_to(&rt, value.enter(), 2_000),
        || add_up_to(&rt, value.enter(), 2_000),
    );
    assert!(rt; some.wrapping_add(others) == 2_000);
    assert!(rt; value.into_inner() == Ok(2_000));
    Ok(())
}

/// Reads until the other thread has tested, and a little longer: what it finds.
fn read_meanwhile<R: Wait>(rt: &R, handle: ValueHandle<'_, u64>, both: &Barrier) -> u64 {
    let reader = handle.read(rt);
    both.wait(rt);
    for _ in 0..20u64 {
        thread::yield_now();
    }
    *reader
}

/// Adds one below ten once the other thread reads: what it was.
fn add_beside<R: Wait>(
    rt: &R,
    mut handle: ValueHandle<'_, u64>,
    both: &Barrier,
) -> Result<Option<u64>, Spent> {
    both.wait(rt);
    add_below(rt, &mut handle, 10)
}

#[test]
fn beside_a_reader_it_waits_and_tests_once_more(rt: HostRuntime) -> Result<(), Fail> {
    let (value, both) = (made(rt.alloc(), 7u64)?, Barrier::new(2));
    let (read, old) = join(
        &rt,
        || read_meanwhile(&rt, value.enter(), &both),
        || add_beside(&rt, value.enter(), &both),
    );
    assert!(rt; read == 7 && old == Ok(Some(7)));
    assert!(rt; value.into_inner() == Ok(8));
    Ok(())
}
