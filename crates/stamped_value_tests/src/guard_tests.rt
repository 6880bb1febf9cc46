//! Readers and writers of one thread, and their stamps.
use crate::fixtures::{
    made, made_in, read_at_once, refused_reader, refused_writer, upgraded, write_at_once, writing,
};
use stamp_core::Layout;
use std::test::Fail;

#[test]
fn what_a_writer_leaves_is_what_the_next_reader_and_the_next_writer_find(
    rt: HostRuntime,
) -> Result<(), Fail> {
    let value = made(rt.alloc(), 7u64)?;
    let reader = value.enter().read(&rt);
    assert!(rt; *reader == 7);
    let mut writer = writing(&rt, reader.release())?;
    assert!(rt; *writer == 7);
    *writer = 8;
    assert!(rt; *writer == 8);
    let reader = writer.release().read(&rt);
    assert!(rt; *reader == 8);
    let mut writer = writing(&rt, reader.release())?;
    assert!(rt; *writer == 8);
    *writer += 1;
    let next = writing(&rt, writer.release())?;
    assert!(rt; *next == 9);
    next.release();
    Ok(())
}

#[test]
fn readers_read_beside_each_other_and_keep_a_writer_out(rt: HostRuntime) -> Result<(), Fail> {
    let value = made(rt.alloc(), 7u64)?;
    let first = value.enter().read(&rt);
    let second = read_at_once(&rt, value.enter())?;
    let third = value.enter().read(&rt);
    let handle = refused_writer(&rt, value.enter())?;
    assert!(rt; (*first, *second, *third) == (7, 7, 7));
    first.release();
    third.release();
    let handle = refused_writer(&rt, handle)?;
    assert!(rt; *second == 7);
    second.release();
    let writer = write_at_once(&rt, handle)?;
    assert!(rt; *writer == 7);
    writer.release();
    Ok(())
}

#[test]
fn beside_a_writer_all_are_refused_and_their_handles_are_good_later(
    rt: HostRuntime,
) -> Result<(), Fail> {
    let value = made(rt.alloc(), 7u64)?;
    let mut writer = write_at_once(&rt, value.enter())?;
    let reads_later = refused_reader(&rt, value.enter())?;
    let writes_later = refused_writer(&rt, value.enter())?;
    *writer = 8;
    writer.release();
    let reader = read_at_once(&rt, reads_later)?;
    assert!(rt; *reader == 8);
    reader.release();
    let writer = write_at_once(&rt, writes_later)?;
    assert!(rt; *writer == 8);
    writer.release();
    Ok(())
}

#[test]
fn an_upgrade_of_the_sole_reader_keeps_the_value_and_others_out(
    rt: HostRuntime,
) -> Result<(), Fail> {
    let value = made(rt.alloc(), 7u64)?;
    let reader = value.enter().read(&rt);
    assert!(rt; *reader == 7);
    let mut writer = upgraded(reader)?;
    assert!(rt; *writer == 7);
    let other = refused_reader(&rt, value.enter())?;
    *writer = 8;
    writer.release();
    let reader = read_at_once(&rt, other)?;
    assert!(rt; *reader == 8);
    reader.release();
    Ok(())
}

#[test]
fn an_upgrade_beside_another_reader_is_refused_and_both_read_on(
    rt: HostRuntime,
) -> Result<(), Fail> {
    let value = made(rt.alloc(), 7u64)?;
    let first = value.enter().read(&rt);
    let second = value.enter().read(&rt);
    let stamp = second.stamp();
    let Err(second) = second.upgrade() else {
        return Err(Fail::from("an upgrade beside a reader"));
    };
    assert!(rt; second.stamp() == stamp);
    assert!(rt; (*first, *second) == (7, 7));
    let handle = refused_writer(&rt, first.release())?;
    assert!(rt; *second == 7);
    let writer = upgraded(second)?;
    assert!(rt; *writer == 7);
    writer.release();
    write_at_once(&rt, handle)?.release();
    Ok(())
}

#[test]
fn a_downgrade_lets_readers_in_and_keeps_writers_out(rt: HostRuntime) -> Result<(), Fail> {
    let value = made(rt.alloc(), 7u64)?;
    let mut writer = writing(&rt, value.enter())?;
    *writer = 8;
    let reader = writer.downgrade();
    let handle = refused_writer(&rt, value.enter())?;
    let other = read_at_once(&rt, value.enter())?;
    assert!(rt; (*reader, *other) == (8, 8));
    reader.release();
    other.release();
    let writer = write_at_once(&rt, handle)?;
    assert!(rt; *writer == 8);
    writer.release();
    Ok(())
}

#[test]
fn stamps_are_those_of_any_lock(rt: HostRuntime) -> Result<(), Fail> {
    for (layout, readers, version, next) in [
        (Layout::One, [257, 258], 384, [513, 640, 769]),
        (
            Layout::Two,
            [131_073, 131_074],
            196_608,
            [262_145, 327_680, 393_217],
        ),
    ] {
        let value = made_in(rt.alloc(), layout, (2, 2), 7u64)?;
        let (one, two) = (value.enter().read(&rt), value.enter().read(&rt));
        assert!(rt; [one.stamp(), two.stamp()] == readers);
        two.release();
        let writer = write_at_once(&rt, one.release())?;
        assert!(rt; writer.stamp() == version);
        let reader = writer.release().read(&rt);
        let as_reader = reader.stamp();
        let writer = upgraded(reader)?;
        let as_writer = writer.stamp();
        let reader = writer.downgrade();
        assert!(rt; [as_reader, as_writer, reader.stamp()] == next);
        reader.release();
    }
    Ok(())
}

/// The laws do nothing when they run: both guards are good afterwards.
#[test]
fn guards_that_stand_side_by_side_are_of_two_locks(rt: HostRuntime) -> Result<(), Fail> {
    let (one, two) = (made(rt.alloc(), 7u64)?, made(rt.alloc(), 8u64)?);
    let mut writer = writing(&rt, one.enter())?;
    let mut reader = two.enter().read(&rt);
    writer.no_reader(&mut reader);
    assert!(rt; (*writer, *reader) == (7, 8));
    let mut other = upgraded(reader)?;
    writer.no_writer(&mut other);
    assert!(rt; (*writer, *other) == (7, 8));
    writer.release();
    other.release();
    Ok(())
}
