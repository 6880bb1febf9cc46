//! A run of calls, one after the other.
ghost use Rattle.std.specs.Prelude.{◌≡◌};
ghost use Rattle.timings.specs.DecidedRun.{run_after, taken, answered, last_stamp, reply_number};

use crate::cycle::{CYCLE, call_at};
use stamp_core::{Decision, Limits, Reply, Word, decide};

/// How far a run has come.
#[derive(Clone, Copy)]
pub struct Run {
    /// The word's number.
    pub number: u64,
    /// The stamp that was answered last; 0 before the first.
    pub stamp: u64,
    /// The replies so far as the digits of a number in base 31, modulo 2^64.
    pub sum: u64,
}

fn number_of(reply: &Reply) -> u64
    ensures { result ≡ reply_number reply.now }
{
    match *reply {
        Reply::Stamp(stamp) => stamp,
        Reply::Yes => 1,
        Reply::No => 2,
        Reply::Done => 3,
        Reply::Mismatch => 4,
        Reply::Count(count) => count.wrapping_add(5),
        Reply::Content(_) => 0,
    }
}

fn last_stamp(before: u64, reply: &Reply) -> u64
    ensures { result ≡ last_stamp before reply.now }
{
    match *reply {
        Reply::Stamp(stamp) => stamp,
        _ => before,
    }
}

impl Run {
    fn answered(self, number: u64, reply: Reply) -> Run
        ensures { result ≡ answered self number reply }
    {
        Run {
            number,
            stamp: last_stamp(self.stamp, &reply),
            sum: self.sum.wrapping_mul(31).wrapping_add(number_of(&reply)),
        }
    }

    fn taken(self, decision: Decision) -> Run
        ensures { result ≡ taken self decision }
    {
        match decision {
            Decision::Answer(reply) => self.answered(self.number, reply),
            Decision::Change(word, reply) => self.answered(word.bits(), reply),
            Decision::Wait => self,
        }
    }
}

/// Makes this many calls from the opening word. One that waits is passed over.
pub fn run_of(limits: Limits, calls: u64) -> Run
    ensures { result ≡ run_after limits calls }
{
    let mut run = Run {
        number: Word::opening_in(limits.layout()).bits(),
        stamp: 0,
        sum: 0,
    };
    for i in 0..calls {
        let call = call_at(i % CYCLE, run.stamp);
        let word = limits.word(run.number);
        run = run.taken(decide(limits, word, call));
    }
    run
}
