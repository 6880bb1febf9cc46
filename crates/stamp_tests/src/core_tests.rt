use crate::fixtures::limits;
use stamp_core::{
    Call, CoreError, Decision, Entry, Layout, Limits, LockCall, LockDecision, LockReply, Record,
    ReplayError, Reply, StampKind, Word, Words, decide, decide_lock, is_lock_stamp,
    is_lock_stamp_in, is_optimistic_stamp, is_optimistic_stamp_in, is_read_stamp, is_read_stamp_in,
    is_write_stamp, is_write_stamp_in, replay, respell, stamp_kind, stamp_kind_in, transition,
};
use std::alloc::{AllocError, Global};
use std::test::Fail;

#[test]
fn limits_are_refused_exactly_outside_the_ranges(rt: HostRuntime) {
    let most = 36_028_797_018_963_966;
    let most_in_two = 70_368_744_177_662;
    let table = [
        (Layout::One, 1, 0, true),
        (Layout::One, 127, most, true),
        (Layout::One, 0, 0, false),
        (Layout::One, 128, 0, false),
        (Layout::One, 127, most + 1, false),
        (Layout::Two, 65_535, most_in_two, true),
        (Layout::Two, 0, 0, false),
        (Layout::Two, 65_536, 0, false),
        (Layout::Two, 1, most_in_two + 1, false),
    ];
    for (layout, readers, versions, is_taken) in table {
        match Limits::in_layout(layout, readers, versions) {
            Ok(limits) => {
                assert!(rt; is_taken, "{readers} {versions}");
                let held = (limits.layout(), limits.readers(), limits.versions());
                assert!(rt; held == (layout, readers, versions));
            }
            Err(CoreError::LimitsOutOfRange) => assert!(rt; !is_taken, "{readers} {versions}"),
        }
    }
    assert!(rt; Limits::widest(Layout::Two).readers() == 65_535);
}

#[test]
fn a_layout_has_its_numbers(rt: HostRuntime) {
    let table = [
        (Layout::One, 127, 36_028_797_018_963_966, 384, 512),
        (Layout::Two, 65_535, 70_368_744_177_662, 196_608, 262_144),
    ];
    for (layout, readers, versions, stamp, released) in table {
        assert!(rt; layout.most_readers() == readers);
        assert!(rt; layout.most_versions() == versions);
        assert!(rt; stamp < 1_000_000);
        assert!(rt; layout.released(stamp) == released);
        assert!(rt; layout.writer_unit() == released - stamp);
        assert!(rt; layout.has_writer(stamp) && !layout.has_writer(released));
        let widest = Limits::widest(layout);
        assert!(rt; (widest.readers(), widest.versions()) == (readers, versions));
    }
}

#[test]
#[tactic(auto, unfolding(stamp_core::specs::Layout::units_of))]
fn a_number_has_its_writes(rt: HostRuntime) {
    let new = (Layout::One.writes_of(256), Layout::Two.writes_of(131_072));
    assert!(rt; new == (0, 0));
    let held = (Layout::One.writes_of(384), Layout::Two.writes_of(196_608));
    assert!(rt; held == (1, 1));
    let released = (Layout::One.writes_of(512), Layout::Two.writes_of(262_144));
    assert!(rt; released == (1, 1));
}

/// The number of the word that limits make of an admitted word's number.
fn made_again(limits: Limits, word: Word) -> Option<u64> {
    if limits.admits(word) {
        Some(limits.word(word.bits()).bits())
    } else {
        None
    }
}

#[test]
fn limits_make_a_word_of_an_admitted_number(rt: HostRuntime) -> Result<(), Fail> {
    let limits = limits(127, 1000)?;
    assert!(rt; made_again(limits, Word::opening()) == Some(256));
    assert!(rt; made_again(limits, Word::opening_in(Layout::Two)) == None);
    Ok(())
}

#[test]
fn a_word_shows_its_version_and_holders(rt: HostRuntime) -> Result<(), Fail> {
    let table = [
        (Layout::One, 256, 0, 0, false),
        (Layout::One, 383, 0, 127, false),
        (Layout::One, 384, 1, 0, true),
        (Layout::One, 512, 1, 0, false),
        (Layout::Two, 131_072, 0, 0, false),
        (Layout::Two, 196_608, 1, 0, true),
        (Layout::Two, 262_145, 1, 1, false),
    ];
    for (layout, bits, writes, readers, is_writing) in table {
        let word = Word::from_bits_in(layout, bits).ok_or("no word")?;
        assert!(rt; (word.layout(), word.bits()) == (layout, bits));
        assert!(rt;
            (word.writes(), word.readers()) == (writes, readers),
            "{bits}"
        );
        assert!(rt; word.is_writing() == is_writing, "{bits}");
    }
    assert!(rt; Word::opening().bits() == 256);
    assert!(rt; Word::opening_in(Layout::Two).bits() == 131_072);
    Ok(())
}

#[test]
fn numbers_of_no_state_make_no_word(rt: HostRuntime) {
    for bits in [0, 128, 255, 385, 9_223_372_036_854_775_680, u64::MAX] {
        assert!(rt; Word::from_bits(bits).is_none(), "{bits}");
    }
    assert!(rt; Word::from_bits(9_223_372_036_854_775_679).is_some());
    assert!(rt; Word::from_bits_in(Layout::Two, 196_609).is_none());
}

#[test]
fn limits_admit_words_of_their_layout_within_them(rt: HostRuntime) -> Result<(), Fail> {
    let narrow = limits(2, 1)?;
    for (bits, is_admitted) in [
        (258, true),
        (259, false),
        (384, true),
        (512, true),
        (640, false),
    ] {
        let word = Word::from_bits(bits).ok_or("no word")?;
        assert!(rt; narrow.admits(word) == is_admitted, "{bits}");
        assert!(rt;
            narrow.word_from_bits(bits) == is_admitted.then_some(word),
            "{bits}"
        );
    }
    assert!(rt; narrow.word_from_bits(255).is_none());
    assert!(rt; !narrow.admits(Word::opening_in(Layout::Two)));
    Ok(())
}

/// The number that a decision leaves and its reply; nothing where the call waits.
fn decided(limits: Limits, bits: u64, call: Call) -> Result<Option<(u64, Reply)>, Fail> {
    let word = Word::from_bits(bits).ok_or("no word")?;
    if !limits.admits(word) || !call.is_lock_call() {
        return Err(Fail::from("not admitted"));
    }
    match decide(limits, word, call) {
        Decision::Answer(reply) => Ok(Some((bits, reply))),
        Decision::Change(next, reply) => Ok(Some((next.bits(), reply))),
        Decision::Wait => Ok(None),
    }
}

#[test]
fn a_decision_answers_changes_or_waits(rt: HostRuntime) -> Result<(), Fail> {
    let limits = limits(127, 1000)?;
    let taken = decided(limits, 256, Call::TryWrite)?;
    assert!(rt; taken == Some((384, Reply::Stamp(384))));
    let valid = decided(limits, 256, Call::Validate(256))?;
    assert!(rt; valid == Some((256, Reply::Yes)));
    let waits = decided(limits, 257, Call::WriteLock)?;
    assert!(rt; waits == None);
    Ok(())
}

#[test]
fn the_lock_decides_alike_without_room_for_words(rt: HostRuntime) -> Result<(), Fail> {
    let limits = limits(127, 1000)?;
    let opening = Word::opening();
    assert!(rt; limits.admits(opening));
    for call in [Call::TryRead, Call::Validate(256), Call::ReadCount] {
        assert!(rt; call.is_lock_call());
        let decision = decide_lock(limits, opening, &call);
        assert!(rt; decision.as_decision() == decide(limits, opening, call));
    }
    assert!(rt; LockReply::Count(3).as_reply() == Reply::Count(3));
    assert!(rt; LockDecision::Wait.as_decision() == Decision::Wait);
    Ok(())
}

#[test]
fn a_transition_gives_the_next_word_and_the_reply(rt: HostRuntime) -> Result<(), Fail> {
    let limits = limits(127, 1000)?;
    let opening = Word::opening();
    assert!(rt; limits.admits(opening));
    let (held, reply) = transition(limits, opening, Call::WriteLock).ok_or("it waits")?;
    assert!(rt; held.bits() == 384);
    assert!(rt; reply == Reply::Stamp(384));
    Ok(())
}

#[test]
fn the_widest_limits_end_where_the_numbers_do(rt: HostRuntime) -> Result<(), Fail> {
    let widest = Limits::widest(Layout::One);
    let spent = 9_223_372_036_854_775_552;
    let table = [
        (spent, Call::TryWrite, spent, 0),
        (spent, Call::ToWrite(spent), spent, 0),
        (spent, Call::TryRead, spent + 1, spent + 1),
        (spent - 256, Call::TryWrite, spent - 128, spent - 128),
    ];
    for (bits, call, after, stamp) in table {
        let word = Word::from_bits(bits).ok_or("no word")?;
        assert!(rt; widest.admits(word));
        let (next, reply) = transition(widest, word, call).ok_or("it waits")?;
        assert!(rt; next.bits() == after);
        assert!(rt; reply == Reply::Stamp(stamp));
    }
    Ok(())
}

#[test]
fn calls_are_replayed_from_the_opening_word(rt: HostRuntime) -> Result<(), Fail> {
    let calls = [
        Call::TryRead,
        Call::ReadCount,
        Call::TryUnlockRead,
        Call::UnlockRead(257),
    ];
    let done = replay(rt.alloc(), limits(127, 1000)?, &calls)
        .ok()
        .ok_or("refused")?;
    let replies = [
        Reply::Stamp(257),
        Reply::Count(1),
        Reply::Yes,
        Reply::Mismatch,
    ];
    assert!(rt; done.replies.as_slice() == replies.as_slice());
    assert!(rt; done.word.bits() == 256);
    Ok(())
}

#[test]
fn a_replay_stops_at_the_first_call_that_waits(rt: HostRuntime) -> Result<(), Fail> {
    let calls = [Call::TryRead, Call::WriteLock, Call::WriteLock];
    let refused = replay(rt.alloc(), limits(127, 1000)?, &calls).err();
    assert!(rt; refused == Some(ReplayError::Waits(1)));
    let spent = replay(rt.alloc(), limits(127, 0)?, &calls)
        .ok()
        .ok_or("refused")?;
    assert!(rt; spent.word.bits() == 257);
    Ok(())
}

#[test]
fn stamps_are_told_by_their_spelling(rt: HostRuntime) {
    let table = [
        (Layout::One, 384, StampKind::Write(1)),
        (Layout::One, 257, StampKind::Read(0, 1)),
        (Layout::One, 256, StampKind::Optimistic(0)),
        (Layout::One, 128, StampKind::Neither),
        (Layout::One, 0, StampKind::Neither),
        (Layout::One, 385, StampKind::Neither),
        (Layout::One, 9_223_372_036_854_775_808, StampKind::Neither),
        (
            Layout::One,
            9_223_372_036_854_775_424,
            StampKind::Write(36_028_797_018_963_966),
        ),
        (
            Layout::One,
            9_223_372_036_854_775_679,
            StampKind::Read(36_028_797_018_963_966, 127),
        ),
        (Layout::Two, 384, StampKind::Neither),
        (Layout::Two, 131_072, StampKind::Optimistic(0)),
        (Layout::Two, 196_607, StampKind::Read(0, 65_535)),
        (Layout::Two, 196_608, StampKind::Write(1)),
        (Layout::Two, 196_609, StampKind::Neither),
        (
            Layout::Two,
            9_223_372_036_854_579_200,
            StampKind::Write(70_368_744_177_662),
        ),
    ];
    for (layout, stamp, kind) in table {
        assert!(rt; stamp_kind_in(layout, stamp) == kind, "{stamp}");
        let is_write = matches!(kind, StampKind::Write(_));
        let is_read = matches!(kind, StampKind::Read(_, _));
        let is_optimistic = matches!(kind, StampKind::Optimistic(_));
        assert!(rt; is_write_stamp_in(layout, stamp) == is_write, "{stamp}");
        assert!(rt; is_read_stamp_in(layout, stamp) == is_read, "{stamp}");
        assert!(rt;
            is_lock_stamp_in(layout, stamp) == (is_write || is_read),
            "{stamp}"
        );
        assert!(rt;
            is_optimistic_stamp_in(layout, stamp) == is_optimistic,
            "{stamp}"
        );
    }
}

#[test]
fn the_plain_stamp_tests_are_those_of_layout_one(rt: HostRuntime) {
    for stamp in [0, 128, 256, 257, 384, 196_608] {
        assert!(rt; stamp_kind(stamp) == stamp_kind_in(Layout::One, stamp));
        assert!(rt; is_write_stamp(stamp) == is_write_stamp_in(Layout::One, stamp));
        assert!(rt; is_read_stamp(stamp) == is_read_stamp_in(Layout::One, stamp));
        assert!(rt; is_lock_stamp(stamp) == is_lock_stamp_in(Layout::One, stamp));
        assert!(rt; is_optimistic_stamp(stamp) == is_optimistic_stamp_in(Layout::One, stamp));
    }
}

#[test]
fn stamps_are_respelled_in_layout_two(rt: HostRuntime) {
    let table = [
        (256, 131_072),
        (257, 131_073),
        (383, 131_199),
        (384, 196_608),
        (512, 262_144),
        (513, 262_145),
        (640, 327_680),
        (128, 0),
        (0, 0),
        (18_014_398_509_481_600, 9_223_372_036_854_579_200),
        (18_014_398_509_481_856, 0),
        (9_223_372_036_854_775_424, 0),
    ];
    for (stamp, respelled) in table {
        assert!(rt; respell(stamp) == respelled, "{stamp}");
    }
}

#[test]
fn words_are_one_to_sixteen(rt: HostRuntime) -> Result<(), Fail> {
    let sixteen = [7; 16];
    assert!(rt; Words::new(&[]).is_none());
    assert!(rt; Words::new(&[0; 17]).is_none());
    let words = Words::new(&sixteen).ok_or("sixteen words")?;
    assert!(rt; words.as_slice() == sixteen.as_slice());
    let two = Words::new(&[7, 9]).ok_or("two words")?;
    assert!(rt; (two.len(), two.as_slice()) == (2, [7, 9].as_slice()));
    assert!(rt; two.is_same(&two) && !two.is_same(&Words::zeros(2)));
    assert!(rt; Words::zeros(2) != two);
    assert!(rt; Reply::Content(two).is_same(&Reply::Content(two)));
    assert!(rt; !Reply::Content(two).is_same(&Reply::Done));
    assert!(rt; !Reply::Count(1).is_same(&Reply::Stamp(1)));
    Ok(())
}

fn entry(thread: u64, call: Call, reply: Reply) -> Entry {
    Entry {
        thread,
        call,
        reply,
        first: 0,
        point: 1,
        last: 2,
    }
}

fn entries_of(alloc: Global, entry: Entry, count: usize) -> Result<Vec<Entry>, AllocError> {
    let (_call, _reply): (Call, Reply) = (entry.call, entry.reply);
    vec![in alloc; entry; count]
}

#[test]
fn a_record_is_refused_exactly_where_an_entry_does_not_suit_it(
    rt: HostRuntime,
) -> Result<(), Fail> {
    let limits = limits(127, 1000)?;
    let two = Words::zeros(2);
    let table = [
        (0, entry(63, Call::TryRead, Reply::Done), 1, true),
        (16, entry(63, Call::TryRead, Reply::Done), 640_000, true),
        (0, entry(63, Call::TryRead, Reply::Done), 640_001, false),
        (17, entry(63, Call::TryRead, Reply::Done), 1, false),
        (0, entry(64, Call::TryRead, Reply::Done), 1, false),
        (0, entry(0, Call::Get, Reply::Content(two)), 1, false),
        (2, entry(0, Call::Get, Reply::Content(two)), 1, true),
        (2, entry(0, Call::Put(two), Reply::Done), 1, true),
        (3, entry(0, Call::Put(two), Reply::Done), 1, false),
        (
            2,
            entry(0, Call::PutIf(two, Words::zeros(1)), Reply::No),
            1,
            false,
        ),
    ];
    for (width, entry, count, is_taken) in table {
        let entries = entries_of(rt.alloc(), entry, count)?;
        let made = Record::of(limits, width, entries);
        assert!(rt; made.is_some() == is_taken, "{width} {count}");
        if let Some(record) = made {
            assert!(rt; (record.width(), record.entries().len()) == (width, count));
            assert!(rt; record.limits().versions() == 1000);
            assert!(rt; record.report().is_empty());
        }
    }
    Ok(())
}

#[test]
fn a_report_has_a_pair_for_each_entry_or_none(rt: HostRuntime) -> Result<(), Fail> {
    let limits = limits(127, 1000)?;
    for (pairs, is_taken) in [(0, true), (1, false), (2, true), (3, false)] {
        let entries = entries_of(rt.alloc(), entry(0, Call::TryRead, Reply::Done), 2)?;
        let report = vec![in rt.alloc(); (2, 0); pairs]?;
        let made = Record::of_reported(limits, 0, entries, report);
        assert!(rt; made.is_some() == is_taken, "{pairs}");
        if let Some(record) = made {
            let (_limits, width, entries, report) = record.into_parts();
            assert!(rt; (width, entries.len(), report.len()) == (0, 2, pairs));
        }
    }
    Ok(())
}

#[test]
fn record_calls_are_told_from_lock_calls(rt: HostRuntime) {
    let one = Words::zeros(1);
    for (call, is_lock_call) in [
        (Call::TryWrite, true),
        (Call::ReadCount, true),
        (Call::Get, false),
        (Call::Put(one), false),
        (Call::PutIf(one, one), false),
    ] {
        assert!(rt; call.is_lock_call() == is_lock_call);
        assert!(rt; call.suits(1));
        assert!(rt; call.suits(0) == is_lock_call);
    }
}

#[test]
fn a_lock_call_is_its_call_in_few_bytes(rt: HostRuntime) {
    let own = LockCall::of(&Call::ToRead(256));
    assert!(rt; own == Some(LockCall::ToRead(256)));
    assert!(rt; LockCall::ToRead(256).as_call() == Call::ToRead(256));
    assert!(rt; LockCall::of(&Call::Get) == None);
}
