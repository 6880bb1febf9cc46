//! Times what the libraries do: `timings WHAT [NUMBER..]` writes its lines to standard error.
//!
//! WHAT is `decide`, `steps`, `check`, `lock`, `record`, `value`, `write_waits` or `read_waits`, and each
//! has its own numbers. Where nothing is given, each is timed once, for a moment. Any other argument is
//! refused, with status 2.
#![tactic(auto)]

ghost use Rattle.std.specs.Prelude.{◌≡◌, ◌≤◌, IfOk, IfSome};

mod check;
mod cycle;
mod decide;
mod line;
mod lock;
mod record;
mod steps;
mod threads;
mod value;
mod waits;
mod words;

use std::process::ExitCode;
use std::rt::Env;
use std::sync::Wait;
use std::thread::Threads;
use std::time::Clock;
use std::{env, io};
use waits::Mode;

/// The numbers that were given. One that wasn't given, or is no number, is `None`.
#[derive(Clone, Copy)]
struct Numbers {
    first: Option<u64>,
    second: Option<u64>,
    third: Option<u64>,
}

/// What to time.
#[derive(Clone, Copy)]
enum What {
    /// Decisions on a word.
    Decide,
    /// The steps of a run.
    Steps,
    /// The judging of a record.
    Check,
    /// Calls on a lock.
    Lock,
    /// Puts and gets on a record.
    Record,
    /// Reads and writes of a value behind a lock.
    Value,
    /// Threads that wait for this mode.
    Waits(Mode),
}

/// All of it by its arguments, in the order of the libraries.
const ALL: [(&str, What); 8] = [
    ("decide", What::Decide),
    ("steps", What::Steps),
    ("check", What::Check),
    ("lock", What::Lock),
    ("record", What::Record),
    ("value", What::Value),
    ("write_waits", What::Waits(Mode::Write)),
    ("read_waits", What::Waits(Mode::Read)),
];

impl What {
    fn time<R: AllocGlobal + Clock + Eprint + Threads + Wait + Sync>(
        self,
        rt: &R,
        numbers: Numbers,
    ) -> io::Result<()> {
        match self {
            What::Decide => decide::time(rt, numbers),
            What::Steps => steps::time(rt, numbers),
            What::Check => check::time(rt, numbers),
            What::Lock => lock::time(rt, numbers),
            What::Record => record::time(rt, numbers),
            What::Value => value::time(rt, numbers),
            What::Waits(mode) => waits::time(rt, mode, numbers),
        }
    }
}

/// An argument as a number, if it is there and is one.
fn number_of(arg: Option<String>) -> Option<u64> {
    arg?.parse().ok()
}

fn main(rt: HostRuntime) -> io::Result<ExitCode> {
    let mut args = env::args(&rt)?.skip(1);
    let wanted = args.next();
    let numbers = Numbers {
        first: number_of(args.next()),
        second: number_of(args.next()),
        third: number_of(args.next()),
    };
    let mut is_known = false;
    for (arg, what) in ALL {
        let is_wanted = match &wanted {
            Some(wanted) => wanted.as_str() == arg,
            None => true,
        };
        if is_wanted {
            what.time(&rt, numbers)?;
            is_known = true;
        }
    }
    if is_known {
        return Ok(ExitCode::SUCCESS);
    }
    eprintln!(&rt; "timings: no such thing to time")?;
    Ok(ExitCode::from(2))
}
