//! Whether a recorded history is linearized by its points.
ghost use Rattle.stamp_check.specs.Judgement.{IsJudgement};

use crate::walk::Walk;
use stamp_core::Record;
use std::error::Error;
use std::fmt;

/// What an entry breaks.
#[derive(Clone, Copy, Debug, PartialEq, Eq)]
pub enum Why {
    /// 1: its point does not lie between its first and its last position.
    Interval,
    /// 2: its point is not above that of the entry before.
    Order,
    /// 3: it began before an earlier entry of its thread had ended.
    Overlap,
    /// 4: its reply is not that of the lock or the record there; a call that would wait has none.
    Reply,
}

/// The first fault of a history.
#[derive(Clone, Copy, Debug, PartialEq, Eq)]
pub struct Bad {
    /// The first entry that breaks something, counted from 0.
    pub entry: u64,
    /// The first thing that it breaks, in the order of `Why`.
    pub why: Why,
}

impl fmt::Display for Bad {
    fn fmt<W: fmt::Write>(&self, f: &mut fmt::Formatter<W>) -> fmt::Result {
        let entry = self.entry;
        match self.why {
            Why::Interval => write!(
                f,
                "entry {entry}: its point is not between its first and last"
            ),
            Why::Order => write!(f, "entry {entry}: its point is not above the one before"),
            Why::Overlap => write!(
                f,
                "entry {entry}: it began before its thread's last call ended"
            ),
            Why::Reply => write!(f, "entry {entry}: the lock would have answered otherwise"),
        }
    }
}

impl Error for Bad {}

/// Checks that a history's entries are linearized by their points, or tells the first fault. It
/// walks once over them, in the order of the list, and answers how many they are. It takes no
/// memory, and does not look at the report.
pub fn check(history: &Record) -> Result<u64, Bad>
    ensures { IsJudgement history.now result }
{
    let limits = history.limits();
    let entries = history.entries();
    let mut walk = Walk::start(limits, history.width());
    for (i, entry) in entries.iter().enumerate() {
        if let Some(why) = walk.advance(limits, entry) {
            return Err(Bad {
                entry: i as u64,
                why,
            });
        }
    }
    Ok(entries.len() as u64)
}
