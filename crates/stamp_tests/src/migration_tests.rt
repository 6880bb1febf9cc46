use crate::fixtures::{entry, limits};
use stamp_check::{BadReply, migrate};
use stamp_core::{Call, Entry, Layout, Limits, Record, Reply};
use std::alloc::Global;
use std::test::Fail;

/// The write stamp of layout 1 after those whose versions layout 2 has.
const FAR: u64 = 18_014_398_509_481_856;

/// One call, alone at position 0.
fn alone(call: Call, reply: Reply) -> Entry {
    entry(0, call, reply, (0, 0, 0))
}

fn recorded(alloc: Global, limits: Limits, entries: &[Entry]) -> Result<Record, Fail> {
    let entries = entries.to_vec(alloc)?;
    let record = Record::of(limits, 0, entries).ok_or("no record")?;
    Ok(record)
}

fn refusal(alloc: Global, entries: &[Entry]) -> Result<BadReply, Fail> {
    let record = recorded(alloc, limits(127, 1000)?, entries)?;
    let bad = migrate(record).err().ok_or("migrated")?;
    Ok(bad)
}

#[test]
fn a_bad_reply_hands_the_record_back(rt: HostRuntime) -> Result<(), Fail> {
    for number in [128, 255, 385, FAR, FAR + 128, u64::MAX] {
        let entries = [
            alone(Call::Unlock(128), Reply::Done),
            alone(Call::TryWrite, Reply::Stamp(number)),
            alone(Call::TryWrite, Reply::Stamp(128)),
        ];
        let bad = refusal(rt.alloc(), &entries)?;
        assert!(rt; bad.entry == 1, "{number}");
        assert!(rt; bad.unchanged.entries() == entries.as_slice(), "{number}");
        let limits = bad.unchanged.limits();
        assert!(rt; (limits.layout(), limits.versions()) == (Layout::One, 1000));
    }
    Ok(())
}
