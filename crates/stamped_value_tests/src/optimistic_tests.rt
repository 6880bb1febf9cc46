//! What a handle tells of stamps, without a mode.
use crate::fixtures::{made_in, read_at_once, write_at_once};
use stamp_core::Layout;
use std::test::Fail;

#[test]
fn the_value_of_a_stamp_is_the_last_until_a_writer_comes(rt: HostRuntime) -> Result<(), Fail> {
    for (layout, stamps) in [
        (Layout::One, [256, 257, 384, 512]),
        (Layout::Two, [131_072, 131_073, 196_608, 262_144]),
    ] {
        let [first, as_reader, as_writer, next] = stamps;
        let value = made_in(rt.alloc(), layout, (2, 1), 7u64)?;
        let mut handle = value.enter();
        assert!(rt; handle.optimistic() == first && handle.is_last(first));
        let reader = read_at_once(&rt, value.enter())?;
        assert!(rt; reader.stamp() == as_reader && handle.is_last(as_reader));
        let writer = write_at_once(&rt, reader.release())?;
        assert!(rt; writer.stamp() == as_writer && handle.optimistic() == 0);
        assert!(rt; !handle.is_last(first) && !handle.is_last(as_writer));
        writer.release();
        assert!(rt; handle.optimistic() == next && handle.is_last(next));
        assert!(rt; !handle.is_last(as_reader) && !handle.is_last(as_writer) && !handle.is_last(0));
    }
    Ok(())
}

#[test]
fn a_guard_is_released_to_the_optimistic_stamp_of_its_value(rt: HostRuntime) -> Result<(), Fail> {
    for (layout, [first, next]) in [(Layout::One, [256, 512]), (Layout::Two, [131_072, 262_144])] {
        let value = made_in(rt.alloc(), layout, (2, 1), 7u64)?;
        let other = read_at_once(&rt, value.enter())?;
        let (mut handle, stamp) = read_at_once(&rt, value.enter())?.release_optimistic();
        assert!(rt; stamp == first && handle.is_last(stamp));
        other.release();
        let mut writer = write_at_once(&rt, handle)?;
        *writer = 8;
        let (mut handle, stamp) = writer.release_optimistic();
        assert!(rt; stamp == next && handle.is_last(stamp) && !handle.is_last(first));
        assert!(rt; *read_at_once(&rt, handle)? == 8);
    }
    Ok(())
}
