//! What a call is answered.
ghost use Rattle.std.specs.Prelude.{◌≡◌, ◌↔◌, IsTrue};

use crate::words::Words;
use std::fmt;

/// What a call is answered. A stamp of 0 is the stamp of failure.
#[derive(Clone, Copy, Debug, PartialEq, Eq)]
pub enum Reply {
    /// A stamp, or 0 where the mode was not acquired.
    Stamp(u64),
    /// What was asked is so; or the release without a stamp, or the `PutIf`, was made.
    Yes,
    /// It is not so; or nothing was released, or put.
    No,
    /// The release by a stamp, or the `Put`, was made.
    Done,
    /// Nothing was released, since the stamp matches no held mode that the call releases
    /// (`IllegalMonitorStateException` in Java).
    Mismatch,
    /// How many readers there are.
    Count(u64),
    /// The words of the record.
    Content(Words),
}

impl fmt::Display for Reply {
    ghost use Rattle.std.specs.Prelude.{Some};
    ghost use Rattle.stamp_core.specs.Texts.{reply_text};

    ghost output = { λ reply. Some (reply_text reply) };

    fn fmt<W: fmt::Write>(&self, f: &mut fmt::Formatter<W>) -> fmt::Result {
        match self {
            Reply::Stamp(stamp) => write!(f, "{stamp}"),
            Reply::Yes => write!(f, "yes"),
            Reply::No => write!(f, "no"),
            Reply::Done => write!(f, "done"),
            Reply::Mismatch => write!(f, "mismatch"),
            Reply::Count(count) => write!(f, "count {count}"),
            Reply::Content(words) => write!(f, "{}", words),
        }
    }
}

fn is_this_stamp(reply: &Reply, stamp: u64) -> bool
    ensures { IsTrue result ↔ (reply.now ≡ Reply.Stamp stamp) }
{
    match *reply {
        Reply::Stamp(other) => other == stamp,
        _ => false,
    }
}

fn is_this_count(reply: &Reply, count: u64) -> bool
    ensures { IsTrue result ↔ (reply.now ≡ Reply.Count count) }
{
    match *reply {
        Reply::Count(other) => other == count,
        _ => false,
    }
}

fn is_this_content(reply: &Reply, words: &Words) -> bool
    ensures { IsTrue result ↔ (reply.now ≡ Reply.Content words.now) }
{
    match reply {
        Reply::Content(other) => other.is_same(words),
        _ => false,
    }
}

impl Reply {
    /// Whether they are the same reply. Unlike `==` its contract says so in the crates above too.
    pub fn is_same(&self, other: &Reply) -> bool
        ensures { IsTrue result ↔ (self.now ≡ other.now) }
    {
        match other {
            Reply::Stamp(stamp) => is_this_stamp(self, *stamp),
            Reply::Yes => matches!(self, Reply::Yes),
            Reply::No => matches!(self, Reply::No),
            Reply::Done => matches!(self, Reply::Done),
            Reply::Mismatch => matches!(self, Reply::Mismatch),
            Reply::Count(count) => is_this_count(self, *count),
            Reply::Content(words) => is_this_content(self, words),
        }
    }
}
