//! Stamps and their numbers.
use crate::fixtures::{made_in, made_with};
use stamped_lock::{EitherLayout, KnownLayout, Layout, LayoutTwo, Stamp, StampKind, StampedLock};
use std::sync::Wait;
use std::test::Fail;

#[test]
fn each_number_but_zero_is_a_stamp_of_a_kind(rt: HostRuntime) -> Result<(), Fail> {
    assert!(rt; Stamp::new(0).is_none());
    for (number, layout, want) in [
        (1, Layout::One, StampKind::Neither),
        (128, Layout::One, StampKind::Neither),
        (256, Layout::One, StampKind::Optimistic(0)),
        (257, Layout::One, StampKind::Read(0, 1)),
        (384, Layout::One, StampKind::Write(1)),
        (512, Layout::One, StampKind::Optimistic(1)),
        (u64::MAX, Layout::One, StampKind::Neither),
        (384, Layout::Two, StampKind::Neither),
        (196_608, Layout::Two, StampKind::Write(1)),
    ] {
        let stamp = Stamp::new(number).ok_or("no stamp")?;
        assert!(rt;
            stamp.number() == number && stamp.kind_in(layout) == want,
            "at {number}"
        );
    }
    Ok(())
}

/// Whether the lock has these limits, and its handle takes a stamp for one of its layout.
fn knows_its_layout<L: KnownLayout, R: Wait>(
    rt: &R,
    lock: &StampedLock<L>,
    shape: (Layout, u64, u64),
) -> bool {
    let limits = lock.limits();
    let mut handle = lock.enter();
    (limits.layout(), limits.readers(), limits.versions()) == shape
        && matches!(handle.try_write(rt), Some(stamp) if handle.kind(stamp) == StampKind::Write(1))
}

/// A write stamp of layout 2 is none of layout 1: only the lock knows which to ask of.
#[test]
fn a_handle_knows_its_lock_s_layout(rt: HostRuntime) -> Result<(), Fail> {
    let (one, two) = ((Layout::One, 9, 20), (Layout::Two, 9, 20));
    let first = made_with(rt.alloc(), (9, 20))?;
    let second = made_in::<LayoutTwo>(rt.alloc(), Layout::Two, (9, 20))?;
    let either = made_in::<EitherLayout>(rt.alloc(), Layout::Two, (9, 20))?;
    assert!(rt; knows_its_layout(&rt, &first, one));
    assert!(rt; knows_its_layout(&rt, &second, two) && knows_its_layout(&rt, &either, two));
    Ok(())
}

#[test]
fn a_lock_is_made_with_another_s_limits(rt: HostRuntime) -> Result<(), Fail> {
    let (first, second) = (
        made_with(rt.alloc(), (9, 20))?,
        made_in::<LayoutTwo>(rt.alloc(), Layout::Two, (9, 20))?,
    );
    let Ok(like_the_first) = StampedLock::with_limits(rt.alloc(), first.limits()) else {
        return Err(Fail::from("no memory for the lock"));
    };
    let Ok(like_the_second) = StampedLock::<LayoutTwo>::in_layout(rt.alloc(), second.limits())
    else {
        return Err(Fail::from("no memory for the lock"));
    };
    assert!(rt; knows_its_layout(&rt, &like_the_first, (Layout::One, 9, 20)));
    assert!(rt; knows_its_layout(&rt, &like_the_second, (Layout::Two, 9, 20)));
    Ok(())
}
