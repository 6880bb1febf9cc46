//! Locks of few readers and versions, in both layouts.
use crate::fixtures::{made_in, read_at_once, refused_reader, refused_writer, writing};
use stamp_core::{Layout, Limits};
use std::test::Fail;

#[test]
fn a_lock_tells_its_limits(rt: HostRuntime) -> Result<(), Fail> {
    for layout in [Layout::One, Layout::Two] {
        let limits = made_in(rt.alloc(), layout, (2, 3), 7u64)?.limits();
        assert!(rt; limits.layout() == layout);
        assert!(rt; (limits.readers(), limits.versions()) == (2, 3));
    }
    Ok(())
}

#[test]
fn a_lock_of_two_readers_refuses_a_third(rt: HostRuntime) -> Result<(), Fail> {
    for layout in [Layout::One, Layout::Two] {
        let value = made_in(rt.alloc(), layout, (2, 0), 7u64)?;
        let first = read_at_once(&rt, value.enter())?;
        let second = read_at_once(&rt, value.enter())?;
        let third = refused_reader(&rt, value.enter())?;
        first.release();
        let third = read_at_once(&rt, third)?;
        assert!(rt; (*second, *third) == (7, 7));
        second.release();
        third.release();
    }
    Ok(())
}

#[test]
fn without_a_version_a_writer_is_refused_and_its_handle_reads(rt: HostRuntime) -> Result<(), Fail> {
    for layout in [Layout::One, Layout::Two] {
        let value = made_in(rt.alloc(), layout, (2, 1), 7u64)?;
        let mut writer = writing(&rt, value.enter())?;
        *writer = 8;
        let Err(handle) = writer.release().write(&rt) else {
            return Err(Fail::from("a second version"));
        };
        let reader = refused_writer(&rt, handle)?.read(&rt);
        let Err(reader) = reader.upgrade() else {
            return Err(Fail::from("a second version, by an upgrade"));
        };
        assert!(rt; *reader == 8);
        reader.release();
        assert!(rt; value.into_inner() == Ok(8));
    }
    Ok(())
}

#[test]
fn a_lock_of_the_widest_limits_is_made_and_a_sole_reader_becomes_the_writer(
    rt: HostRuntime,
) -> Result<(), Fail> {
    for layout in [Layout::One, Layout::Two] {
        let widest = Limits::widest(layout);
        let value = made_in(
            rt.alloc(),
            layout,
            (widest.readers(), widest.versions()),
            7u64,
        )?;
        let Ok(mut writer) = read_at_once(&rt, value.enter())?.upgrade() else {
            return Err(Fail::from("a sole reader is refused"));
        };
        *writer = 8;
        writer.release();
        assert!(rt; value.into_inner() == Ok(8));
    }
    Ok(())
}
