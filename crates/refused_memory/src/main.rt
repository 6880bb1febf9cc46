//! Makes each call that takes memory, once. `test` runs this with each allocation refused, one in each run.
//! A run in which a call answers that memory was refused ends with status 1; each other answer
//! than the right one is printed, and ends with status 0. With a word, `make`, `check` or `migrate`,
//! it makes records, and does no more than that with them; with `large` it takes a large script through each
//! call, and prints how much each answered; with `worked` it makes the calls of worked examples; with `own` or
//! `guard` it makes locks that own a value, and by `guard` goes on with their handles and guards; with one of
//! `refusals` it makes calls that are refused for another cause.
#![tactic(auto)]

mod booking;
mod fault_lines;
mod judging;
mod large;
mod large_text;
mod orders;
mod outcome;
mod pipes;
mod refusals;
mod refused_records;
mod refused_scripts;
mod replays;
mod ruled_values;
mod running;
mod schedules;
mod sharing;
mod texts;
mod values;
mod worked;

use crate::booking::book_outcome;
use crate::fault_lines::fault_lines_outcome;
use crate::judging::{Task, task_outcome};
use crate::large::large_outcome;
use crate::orders::{ANSWERED, orders_outcome};
use crate::outcome::Outcome;
use crate::refusals::refusal_outcome;
use crate::replays::{is_answered, is_replayed};
use crate::ruled_values::ruled_outcome;
use crate::running::{running_lock_outcome, running_record_outcome};
use crate::schedules::{are_runs_alike, is_judged, is_written};
use crate::sharing::shared_outcome;
use crate::texts::{BAD_REPLAY, BAD_SCRIPT, Reader, texts_outcome};
use crate::values::{Use, value_outcome};
use crate::worked::worked_outcome;
use stamp_core::Limits;
use std::process::ExitCode;
use std::rt::Env;
use std::sync::Wait;
use std::time::Clock;
use std::{env, io};

/// Locks that own a value: one without a rule, and one with a rule.
fn values_outcome(rt: &(impl Wait + Clock + AllocGlobal), limits: Limits, used: Use) -> Outcome {
    let alloc = rt.alloc();
    value_outcome(rt, alloc, limits, used).and(ruled_outcome(rt, alloc, limits, used))
}

/// All calls, one after the other: wrong where one is, or else refused where one is.
fn outcome_of_all(rt: &(impl Wait + Clock + AllocGlobal), limits: Limits) -> Outcome {
    let alloc = rt.alloc();
    let outcomes = [
        Outcome::of(is_replayed(alloc, limits)),
        Outcome::of(is_answered(alloc)),
        texts_outcome(alloc, Reader::Replay, &BAD_REPLAY),
        texts_outcome(alloc, Reader::Script, &BAD_SCRIPT),
        fault_lines_outcome(alloc),
        orders_outcome(alloc, &ANSWERED),
        Outcome::of(is_written(alloc)),
        Outcome::of(is_judged(alloc)),
        Outcome::of(are_runs_alike(alloc)),
        running_lock_outcome(alloc, limits),
        running_record_outcome(alloc, limits),
        book_outcome(alloc, limits),
        shared_outcome(rt, alloc, limits),
        values_outcome(rt, limits, Use::Guard),
    ];
    let mut all = Outcome::Right;
    for outcome in outcomes {
        all = all.and(outcome);
    }
    all
}

/// The outcome that the first argument asks for, or that of all where there is none.
fn outcome_given(rt: &(impl Env + Wait + Clock + Print + Eprint + AllocGlobal)) -> Outcome {
    let Ok(limits) = Limits::new(1, 1) else {
        return Outcome::Wrong;
    };
    let mut args = match env::args(rt) {
        Ok(args) => args,
        Err(fault) if fault.kind() == io::ErrorKind::OutOfMemory => return Outcome::Refused,
        Err(_) => return Outcome::Wrong,
    };
    let Some(wanted) = args.nth(1) else {
        return outcome_of_all(rt, limits);
    };
    match wanted.as_str() {
        "make" => task_outcome(rt.alloc(), Task::Make),
        "check" => task_outcome(rt.alloc(), Task::Check),
        "migrate" => task_outcome(rt.alloc(), Task::Migrate),
        "large" => large_outcome(rt),
        "own" => values_outcome(rt, limits, Use::Own),
        "guard" => values_outcome(rt, limits, Use::Guard),
        "worked" => worked_outcome(rt.alloc()),
        other => refusal_outcome(rt.alloc(), limits, other),
    }
}

fn main(rt: HostRuntime) -> io::Result<ExitCode> {
    match outcome_given(&rt) {
        Outcome::Right => {
            println!(rt; "right")?;
            Ok(ExitCode::SUCCESS)
        }
        Outcome::Refused => Ok(ExitCode::FAILURE),
        Outcome::Wrong => {
            println!(rt; "wrong")?;
            Ok(ExitCode::SUCCESS)
        }
    }
}
