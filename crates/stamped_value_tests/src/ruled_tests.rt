//! Values that keep to a rule.
ghost use Rattle.std.specs.Prelude.{◌≤◌};

use stamp_core::{Layout, Limits};
use stamped_value::{RuledHandle, RuledReadGuard, RuledValue, Spent, ValueRule};
use std::alloc::Global;
use std::mem;
use std::sync::Wait;
use std::test::Fail;

/// A number of at most ten.
struct TenAtMost;

impl ValueRule<u64> for TenAtMost {
    ghost use Rattle.std.specs.Prelude.{◌≤◌};

    ghost holds = { λ n. n ≤ 10 };
}

/// A number that threads share.
type Ruled = RuledValue<u64, TenAtMost>;

/// The number, behind a lock of a layout for two readers, with so many versions.
fn ruled_in(alloc: Global, layout: Layout, versions: u64, first: u64) -> Result<Ruled, Fail>
    requires { first ≤ 10 }
{
    let Ok(limits) = Limits::in_layout(layout, 2, versions) else {
        return Err(Fail::from("limits"));
    };
    match Ruled::new(alloc, limits, first) {
        Ok(value) => Ok(value),
        Err(_) => Err(Fail::from("no memory for the value")),
    }
}

/// The guard of a reader that needn't wait.
fn read_at_once<'a, R: Wait>(
    rt: &'a R,
    handle: RuledHandle<'a, u64, TenAtMost>,
) -> Result<RuledReadGuard<'a, u64, TenAtMost, R>, Fail> {
    match handle.try_read(rt) {
        Ok(guard) => Ok(guard),
        Err(_) => Err(Fail::from("no reader comes")),
    }
}

/// How far a reader's number is below ten: by the rule the difference can't wrap.
fn room<R: Wait>(guard: &RuledReadGuard<'_, u64, TenAtMost, R>) -> u64
    ensures { result ≤ 10 }
{
    10 - **guard
}

#[test]
fn a_section_reads_what_keeps_the_rule_and_another_leaves_it(rt: HostRuntime) -> Result<(), Fail> {
    let value = ruled_in(rt.alloc(), Layout::One, 9, 7)?;
    let mut handle = value.enter();
    assert!(rt; handle.read_with(&rt, |n: &u64| 10 - *n) == 3);
    let old = handle.write_with(&rt, |n: &mut u64| {
        let old = *n;
        *n = 9;
        old
    });
    assert!(rt; old == Some(7));
    assert!(rt; handle.read_with(&rt, |n: &u64| 10 - *n) == 1);
    drop(handle);
    assert!(rt; 10 - value.into_inner() == 1);
    Ok(())
}

#[test]
fn a_section_relies_on_the_rule_where_it_writes(rt: HostRuntime) -> Result<(), Fail> {
    let value = ruled_in(rt.alloc(), Layout::Two, 9, 7)?;
    let mut handle = value.enter();
    assert!(rt; handle.write_with(&rt, |n: &mut u64| *n = 10 - *n) == Some(()));
    drop(handle);
    assert!(rt; value.into_inner() == 3);
    Ok(())
}

#[test]
fn without_a_version_no_section_writes(rt: HostRuntime) -> Result<(), Fail> {
    for layout in [Layout::One, Layout::Two] {
        let value = ruled_in(rt.alloc(), layout, 1, 7)?;
        let mut handle = value.enter();
        assert!(rt; handle.write_with(&rt, |n: &mut u64| *n = 8) == Some(()));
        assert!(rt; handle.write_with(&rt, |n: &mut u64| *n = 9) == None);
        assert!(rt; handle.read_with(&rt, |n: &u64| *n) == 8);
    }
    Ok(())
}

/// Adds one where the number is below the bound: what it was. By the rule and the test the sum keeps the rule.
fn add_below<R: Wait>(
    rt: &R,
    handle: &mut RuledHandle<'_, u64, TenAtMost>,
    bound: u64,
) -> Result<Option<u64>, Spent>
    requires { bound ≤ 10 }
{
    handle.write_if(
        rt,
        |n: &u64| *n < bound,
        |n: &mut u64| {
            let old = *n;
            *n = old + 1;
            old
        },
    )
}

#[test]
fn a_section_relies_on_its_test_and_the_rule_where_it_writes(rt: HostRuntime) -> Result<(), Fail> {
    for layout in [Layout::One, Layout::Two] {
        let value = ruled_in(rt.alloc(), layout, 2, 8)?;
        let mut handle = value.enter();
        assert!(rt; add_below(&rt, &mut handle, 8) == Ok(None));
        assert!(rt; add_below(&rt, &mut handle, 10) == Ok(Some(8)));
        assert!(rt; add_below(&rt, &mut handle, 10) == Ok(Some(9)));
        assert!(rt; add_below(&rt, &mut handle, 10) == Ok(None));
        drop(handle);
        assert!(rt; value.into_inner() == 10);
    }
    Ok(())
}

#[test]
fn without_a_version_a_section_tests_and_does_not_write(rt: HostRuntime) -> Result<(), Fail> {
    for layout in [Layout::One, Layout::Two] {
        let value = ruled_in(rt.alloc(), layout, 1, 7)?;
        let mut handle = value.enter();
        assert!(rt; add_below(&rt, &mut handle, 9) == Ok(Some(7)));
        assert!(rt; add_below(&rt, &mut handle, 9) == Err(Spent));
        assert!(rt; add_below(&rt, &mut handle, 8) == Ok(None));
        assert!(rt; handle.read_with(&rt, |n: &u64| *n) == 8);
    }
    Ok(())
}

#[test]
fn where_a_reader_was_forgotten_the_last_value_comes_out(rt: HostRuntime) -> Result<(), Fail> {
    let value = ruled_in(rt.alloc(), Layout::One, 9, 7)?;
    mem::forget(value.enter().read(&rt));
    assert!(rt; 10 - value.into_inner() == 3);
    Ok(())
}

#[test]
fn guards_read_side_by_side_and_are_released(rt: HostRuntime) -> Result<(), Fail> {
    let value = ruled_in(rt.alloc(), Layout::One, 9, 7)?;
    let first = value.enter().read(&rt);
    let second = read_at_once(&rt, value.enter())?;
    assert!(rt; (room(&first), room(&second)) == (3, 3));
    assert!(rt; (first.stamp(), second.stamp()) == (257, 258));
    let third = value.enter().try_read(&rt);
    assert!(rt; third.is_err());
    let second = second.release();
    let again = read_at_once(&rt, second)?;
    assert!(rt; *again == 7 && first.stamp() == 257);
    Ok(())
}

#[test]
fn a_guard_that_is_dropped_lets_a_section_write(rt: HostRuntime) -> Result<(), Fail> {
    let value = ruled_in(rt.alloc(), Layout::Two, 9, 7)?;
    let read = {
        let reader = value.enter().read(&rt);
        *reader
    };
    assert!(rt; read == 7);
    let mut handle = value.enter();
    assert!(rt; handle.write_with(&rt, |n: &mut u64| *n = 8) == Some(()));
    assert!(rt; *handle.read(&rt) == 8);
    Ok(())
}

#[test]
fn the_stamp_of_a_section_is_of_the_last_value_until_a_writer_comes(
    rt: HostRuntime,
) -> Result<(), Fail> {
    let value = ruled_in(rt.alloc(), Layout::One, 9, 7)?;
    let mut handle = value.enter();
    assert!(rt; handle.optimistic() == 256 && handle.is_last(256));
    let (room, stamp) = handle.read_stamped(&rt, |n: &u64| 10 - *n);
    assert!(rt; room == 3 && handle.is_last(stamp));
    assert!(rt; handle.write_with(&rt, |n: &mut u64| *n = 8) == Some(()));
    assert!(rt; !handle.is_last(stamp) && !handle.is_last(256) && handle.optimistic() == 512);
    Ok(())
}

#[test]
fn a_guard_is_released_to_the_optimistic_stamp_of_its_value(rt: HostRuntime) -> Result<(), Fail> {
    let value = ruled_in(rt.alloc(), Layout::One, 9, 7)?;
    let (mut handle, stamp) = value.enter().read(&rt).release_optimistic();
    assert!(rt; stamp == 256 && handle.is_last(stamp));
    assert!(rt; handle.write_with(&rt, |n: &mut u64| *n = 8) == Some(()));
    assert!(rt; !handle.is_last(stamp));
    Ok(())
}

#[test]
fn a_lock_tells_its_limits(rt: HostRuntime) -> Result<(), Fail> {
    for layout in [Layout::One, Layout::Two] {
        let limits = ruled_in(rt.alloc(), layout, 3, 7)?.limits();
        assert!(rt; limits.layout() == layout);
        assert!(rt; (limits.readers(), limits.versions()) == (2, 3));
    }
    Ok(())
}
