use crate::fixtures::{done, gets, limits, puts, puts_if, small};
use stamp_core::{Call, LockReply, Reply};
use stamp_watch::candidates::candidates;
use stamp_watch::{Event, SmallReply};
use std::test::Fail;

/// Whether these are the replies that the open call of the lane may be given next, by a lock for up to 2 readers, in
/// this order.
fn tells(
    rt: &impl AllocGlobal,
    events: &[Event],
    lane: u8,
    expected: &[SmallReply],
) -> Result<bool, Fail> {
    let mut taken = Vec::new(rt.alloc());
    for event in events {
        taken.push(small(event)?)?;
    }
    let told = candidates(rt.alloc(), limits(2, 1000)?, taken.as_slice(), lane)?;
    Ok(told.as_slice() == expected)
}

fn stamp(number: u64) -> SmallReply {
    SmallReply::OfLock(LockReply::Stamp(number))
}

fn count(number: u64) -> SmallReply {
    SmallReply::OfLock(LockReply::Count(number))
}

#[test]
fn a_free_lane_is_given_nothing(rt: HostRuntime) -> Result<(), Fail> {
    assert!(rt; tells(&rt, &[], 0, &[])?);
    assert!(rt; tells(&rt, &[puts(0, 7), done(0), gets(1)], 0, &[])?);
    Ok(())
}

const ASKS: [Event; 3] = [
    Event::Begins(0, Call::ReadCount),
    Event::Begins(1, Call::IsWriteLocked),
    Event::Begins(2, Call::UnlockRead(257)),
];

const ANSWERS: [SmallReply; 2] = [
    SmallReply::OfLock(LockReply::Yes),
    SmallReply::OfLock(LockReply::No),
];

const RELEASES: [SmallReply; 2] = [
    SmallReply::OfLock(LockReply::Done),
    SmallReply::OfLock(LockReply::Mismatch),
];

#[test]
fn plain_replies_are_told(rt: HostRuntime) -> Result<(), Fail> {
    assert!(rt; tells(&rt, &ASKS, 0, &[count(0), count(1), count(2)])?);
    assert!(rt; tells(&rt, &ASKS, 1, &ANSWERS)?);
    assert!(rt; tells(&rt, &ASKS, 2, &RELEASES)?);
    Ok(())
}

/// The stamps are those of Java's lock: a version adds 256, a writer is 128, a reader 1.
const WRITES: [Event; 6] = [
    Event::Begins(0, Call::WriteLock),
    Event::Returns(0, Reply::Stamp(384)),
    Event::Begins(0, Call::UnlockWrite(384)),
    Event::Returns(0, Reply::Done),
    Event::Begins(1, Call::WriteLock),
    Event::Begins(2, Call::ToWrite(512)),
];

#[test]
fn a_writer_has_the_stamps_of_new_versions(rt: HostRuntime) -> Result<(), Fail> {
    let first = [Event::Begins(0, Call::TryWrite)];
    assert!(rt; tells(&rt, &first, 0, &[stamp(0), stamp(384)])?);
    assert!(rt; tells(&rt, &WRITES, 1, &[stamp(0), stamp(640), stamp(896)])?);
    assert!(rt;
        tells(
            &rt,
            &WRITES,
            2,
            &[stamp(0), stamp(512), stamp(640), stamp(896)]
        )?
    );
    Ok(())
}

const READS: [Event; 5] = [
    Event::Begins(1, Call::Optimistic),
    Event::Begins(0, Call::WriteLock),
    Event::Returns(0, Reply::Stamp(384)),
    Event::Begins(0, Call::ToRead(384)),
    Event::Begins(2, Call::ReadLock),
];

#[test]
fn a_reader_has_the_stamps_of_versions_since_it_began(rt: HostRuntime) -> Result<(), Fail> {
    assert!(rt; tells(&rt, &READS, 1, &[stamp(0), stamp(256), stamp(512)])?);
    assert!(rt;
        tells(
            &rt,
            &READS,
            0,
            &[stamp(0), stamp(384), stamp(513), stamp(514)]
        )?
    );
    assert!(rt; tells(&rt, &READS, 2, &[stamp(0), stamp(513), stamp(514)])?);
    Ok(())
}

/// Whether a get may be given the contents that are left.
fn tells_what_is_left(rt: &impl AllocGlobal, expected: &[SmallReply]) -> Result<bool, Fail> {
    let overwritten = [
        puts(0, 7),
        done(0),
        puts(1, 8),
        puts_if(3, 7, 5),
        puts(0, 9),
        done(0),
        gets(2),
        puts(0, 9),
    ];
    tells(rt, &overwritten, 2, expected)
}

const AT_FIRST: [SmallReply; 2] = [SmallReply::Content(0), SmallReply::Content(8)];

const LEFT: [SmallReply; 3] = [
    SmallReply::Content(5),
    SmallReply::Content(8),
    SmallReply::Content(9),
];

#[test]
fn a_get_has_what_may_be_left_since_the_last_put(rt: HostRuntime) -> Result<(), Fail> {
    assert!(rt; tells(&rt, &[puts(1, 8), gets(2)], 2, &AT_FIRST)?);
    assert!(rt; tells_what_is_left(&rt, &LEFT)?);
    Ok(())
}
