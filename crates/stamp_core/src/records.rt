//! Recorded histories.
ghost use Rattle.std.specs.Prelude.{◌≡◌, ◌≤◌, ◌↔◌, [], length, IsSome, IfSome, IsTrue};
ghost use Rattle.std.specs.List.{All};
ghost use Rattle.stamp_core.specs.Record.{recorded, IsRecorded, EntrySuits, HasFewWords, RepliesFit};

use crate::entry::Entry;
use crate::limits::Limits;
use crate::reply::Reply;
use crate::words::MOST_WORDS;
use std::marker::Model;

/// The most entries of a recorded history.
pub const MOST_ENTRIES: usize = 640_000;

/// The most threads of a recorded history.
pub const MOST_THREADS: u64 = 64;

/// A recorded history: the calls of a lock, and of the record that it guards, if there is one. The
/// record has `width` words, and width 0 is none. A report has a pair for each entry: the steps
/// that the call took, and the steps of others meanwhile that changed the lock's word.
#[derive(Drop)]
pub struct Record {
    limits: Limits,
    width: u64,
    entries: Vec<Entry>,
    report: Vec<(u64, u64)>,
}

impl Model for Record {
    ghost use Rattle.stamp_core.specs.Record.{Recorded, recorded, IsRecorded, RepliesFit};

    ghost Value = { Recorded };

    ghost view = { λ r. recorded r.limits r.width r.entries.items r.report.items };

    ghost invariant = { λ r. IsRecorded (recorded r.limits r.width r.entries.items r.report.items)
        × RepliesFit r.entries.items };
}

/// Touches the words of a reply, by which the prover knows how many there are.
fn known_reply(reply: &Reply)
    ensures { HasFewWords reply.now }
{
    if let Reply::Content(words) = reply {
        let _ = words.len();
    }
}

/// The entry can stand in a recorded history of this width.
fn entry_suits(width: u64, entry: &Entry) -> bool
    ensures suits { IsTrue result ↔ EntrySuits width entry.now }
    ensures reply { HasFewWords entry.now.reply }
{
    known_reply(&entry.reply);
    entry.thread < MOST_THREADS && entry.call.suits(width)
}

fn all_suit(width: u64, entries: &[Entry]) -> bool
    ensures suit { IsTrue result ↔ All (EntrySuits width) entries.now }
    ensures replies { IsTrue result → RepliesFit entries.now }
{
    for entry in entries {
        if !entry_suits(width, entry) {
            return false;
        }
    }
    true
}

impl Record {
    /// Makes a recorded history with no report. There is none exactly where the entries are over
    /// 640,000, the width is over 16, a thread is 64 or more, or a call does not suit the width;
    /// the entries are dropped then (tested, not proved).
    pub fn of(limits: Limits, width: u64, entries: Vec<Entry>) -> Option<Record>
        ensures some { IsSome result ↔ IsRecorded (recorded limits width entries.items []) }
        ensures same { IfSome result (λ made. made ≡ recorded limits width entries.items []) }
    {
        let report = Vec::new(*entries.allocator());
        Record::of_reported(limits, width, entries, report)
    }

    /// Makes a recorded history with a report, which is empty or has a pair for each entry. Where
    /// it isn't so, and where `of` gives none, there is none, and both lists are dropped (tested,
    /// not proved).
    pub fn of_reported(
        limits: Limits,
        width: u64,
        entries: Vec<Entry>,
        report: Vec<(u64, u64)>,
    ) -> Option<Record>
        ensures some { IsSome result
            ↔ IsRecorded (recorded limits width entries.items report.items) }
        ensures same { IfSome result (λ made. made
            ≡ recorded limits width entries.items report.items) }
    {
        let reported = report.is_empty() || report.len() == entries.len();
        if width <= MOST_WORDS as u64
            && entries.len() <= MOST_ENTRIES
            && reported
            && all_suit(width, entries.as_slice())
        {
            Some(Record {
                limits,
                width,
                entries,
                report,
            })
        } else {
            None
        }
    }

    /// Takes a recorded history apart: limits, width, entries and report, which make it again.
    pub fn into_parts(self) -> (Limits, u64, Vec<Entry>, Vec<(u64, u64)>)
        ensures parts { self ≡ recorded result.0 result.1 result.2.items result.3.items }
        ensures known { IsRecorded self }
        ensures replies { RepliesFit result.2.items }
    {
        let Record {
            limits,
            width,
            entries,
            report,
        } = self;
        (limits, width, entries, report)
    }

    /// The limits of the lock.
    pub fn limits(&self) -> Limits
        ensures { result ≡ self.now.limits }
    {
        self.limits
    }

    /// How many words the guarded record has; 0 where there is none.
    pub fn width(&self) -> u64
        ensures { result ≡ self.now.width }
    {
        self.width
    }

    /// The calls, in the order in which they are listed.
    pub fn entries(&self) -> &[Entry]
        ensures entries { result.now ≡ self.now.entries }
        ensures known { IsRecorded self.now }
        ensures replies { RepliesFit self.now.entries }
    {
        self.entries.as_slice()
    }

    /// For each entry its own steps and the changes of others meanwhile, or nothing at all.
    pub fn report(&self) -> &[(u64, u64)]
        ensures { result.now ≡ self.now.report }
    {
        self.report.as_slice()
    }
}
