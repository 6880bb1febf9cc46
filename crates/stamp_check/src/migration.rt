//! Recorded histories of layout 1, spelled anew in layout 2.
ghost use Rattle.std.specs.Prelude.{◌≡◌, ◌↔◌, map, IsOk, IfOk, IfErr, IsTrue, MatchOption};
ghost use Rattle.stamp_core.specs.Linearized.{IsLinearized};
ghost use Rattle.stamp_check.specs.SameJudgement.{HaveSameJudgement};
ghost use Rattle.stamp_check.specs.Migration.{respelling, respelled_call, respelled_reply, respelled_entry, respelled_record, widened, migrated, CanRespell, AllCanRespell, CanMigrate, IsFirstForeign, IsBadReply};

use stamp_core::{Call, CoreError, Entry, Layout, Limits, Record, Reply, respell};
use std::error::Error;
use std::fmt;

/// Why a history is not migrated (1), and the history. An entry was answered a number which is
/// neither 0 nor a stamp of layout 1 of a version up to 2^46-2.
#[derive(Drop)]
pub struct BadReply {
    /// The first such entry, counted from 0.
    pub entry: u64,
    /// The history as it was.
    pub unchanged: Record,
}

impl fmt::Debug for BadReply {
    fn fmt<W: fmt::Write>(&self, f: &mut fmt::Formatter<W>) -> fmt::Result {
        write!(f, "BadReply {{ entry: {} }}", self.entry)
    }
}

impl fmt::Display for BadReply {
    fn fmt<W: fmt::Write>(&self, f: &mut fmt::Formatter<W>) -> fmt::Result {
        write!(
            f,
            "entry {}: its reply is no stamp that layout 2 has",
            self.entry
        )
    }
}

impl Error for BadReply {}

fn respelling(stamp: u64) -> u64
    ensures { result ≡ respelling stamp }
{
    respell(stamp)
}

fn respelled_call(call: &Call) -> Call
    ensures { result ≡ respelled_call call.now }
{
    match *call {
        Call::Validate(stamp) => Call::Validate(respelling(stamp)),
        Call::UnlockWrite(stamp) => Call::UnlockWrite(respelling(stamp)),
        Call::UnlockRead(stamp) => Call::UnlockRead(respelling(stamp)),
        Call::Unlock(stamp) => Call::Unlock(respelling(stamp)),
        Call::ToWrite(stamp) => Call::ToWrite(respelling(stamp)),
        Call::ToRead(stamp) => Call::ToRead(respelling(stamp)),
        Call::ToOptimistic(stamp) => Call::ToOptimistic(respelling(stamp)),
        other => other,
    }
}

fn respelled_reply(reply: &Reply) -> Reply
    ensures { result ≡ respelled_reply reply.now }
{
    match *reply {
        Reply::Stamp(stamp) => Reply::Stamp(respelling(stamp)),
        other => other,
    }
}

fn can_respell(reply: &Reply) -> bool
    ensures { IsTrue result ↔ CanRespell reply.now }
{
    match *reply {
        Reply::Stamp(stamp) => stamp == 0 || respelling(stamp) != 0,
        _ => true,
    }
}

fn first_foreign(entries: &[Entry]) -> Option<usize>
    ensures { MatchOption result (AllCanRespell entries.now) (λ i. IsFirstForeign entries.now i) }
{
    for (i, entry) in entries.iter().enumerate() {
        if !can_respell(&entry.reply) {
            return Some(i);
        }
    }
    None
}

fn respelled_entry(entry: &Entry) -> Entry
    ensures { result ≡ respelled_entry entry.now }
{
    Entry {
        call: respelled_call(&entry.call),
        reply: respelled_reply(&entry.reply),
        ..*entry
    }
}

fn respelled_entries(mut entries: Vec<Entry>) -> Vec<Entry>
    ensures { result.items ≡ map respelled_entry entries.items }
{
    for entry in entries.iter_mut() {
        *entry = respelled_entry(entry);
    }
    entries
}

fn widened(limits: &Limits) -> Limits
    ensures { result ≡ widened limits.now }
{
    let versions = limits.versions().min(Layout::Two.most_versions());
    match Limits::in_layout(Layout::Two, limits.readers(), versions) {
        Ok(widened) => widened,
        Err(CoreError::LimitsOutOfRange) => unreachable!(),
    }
}

fn in_layout_two(history: Record) -> Record
    ensures { result ≡ respelled_record history }
{
    let (limits, width, entries, report) = history.into_parts();
    let entries = respelled_entries(entries);
    match Record::of_reported(widened(&limits), width, entries, report) {
        Some(migrated) => migrated,
        None => unreachable!(),
    }
}

/// Spells a recorded history of layout 1 in layout 2, where `check` says the same of it. Stamps
/// that calls take and replies keep their kind, version and count there, and a number that is no
/// stamp, or is of a version that layout 2 has not, becomes 0. The limits become those of layout 2
/// with the same readers, and with the versions, or 2^46-2 where they are more. All else stays, and
/// a history of layout 2 comes back as it is. One of layout 1 is refused as 1 `BadReply`, exactly
/// where some call was answered a number other than 0 that is no stamp which layout 2 can spell;
/// the refusal returns the history. A linearized history has no such reply, and is never refused.
pub fn migrate(history: Record) -> Result<Record, BadReply>
    ensures ok { IsOk result ↔ CanMigrate history }
    ensures migrated { IfOk result (λ r. r ≡ migrated history) }
    ensures judgement { IfOk result (λ r. HaveSameJudgement r history) }
    ensures linearized { IsLinearized history → IsOk result }
    ensures bad { IfErr result (λ bad. IsBadReply history bad.entry) }
    ensures unchanged { IfErr result (λ bad. bad.unchanged ≡ history) }
{
    match history.limits().layout() {
        Layout::Two => Ok(history),
        Layout::One => match first_foreign(history.entries()) {
            None => Ok(in_layout_two(history)),
            Some(entry) => Err(BadReply {
                entry: entry as u64,
                unchanged: history,
            }),
        },
    }
}
