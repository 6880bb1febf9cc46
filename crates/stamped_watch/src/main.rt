//! Judges a stream of a lock's events of any length: bytes in, one line out.
#![tactic(auto)]

ghost use Rattle.stamped_watch.specs.declared.help.TheConstants.{HELP};
ghost use Rattle.stamped_watch.specs.Order.{order_in};
ghost use Rattle.stamped_watch.specs.Served.{IsServed};

mod begun;
mod event_bytes;
mod finding;
mod finding_text;
mod header;
mod help;
mod in_words;
mod misplaced;
mod note;
mod orders;
mod possible;
mod run_judge;
mod serving;
mod so_far;
mod stream_judge;
mod stuck_end;
mod telling;
mod witness;

use crate::help::HELP;
use crate::orders::{WatchOrder, file_in, order_of, witness_in};
use crate::serving::serve_asked;
use stamp_cli::{
    Answered, CommandFault, Lack, Program, ServeFault, Sink, Source, named_fault_line, run,
    serve_help,
};
use std::alloc::Global;
use std::process::ExitCode;

/// The program `stamped_watch`.
struct StampedWatch;

impl Program for StampedWatch {
    type Order = WatchOrder;

    type Fault = ServeFault;

    ghost order_in = { order_in };

    ghost serves = { IsServed HELP.now };

    fn order_of(arguments: &[&str]) -> Result<WatchOrder, CommandFault> {
        order_of(arguments)
    }

    fn file_in<'a>(arguments: &[&'a str]) -> Option<&'a str> {
        file_in(arguments)
    }

    fn witness_in<'a>(arguments: &[&'a str]) -> Option<&'a str> {
        witness_in(arguments)
    }

    fn answer<S: Source, K: Sink, T: Sink, W: Sink>(
        alloc: Global,
        order: WatchOrder,
        source: &mut S,
        sink: &mut K,
        told: &mut T,
        witness: &mut W,
    ) -> Result<Answered, ServeFault> {
        match order {
            WatchOrder::Help => Ok(Answered::alone(serve_help(HELP, sink)?)),
            WatchOrder::Watch(asked) => serve_asked(alloc, asked, source, sink, told, witness),
        }
    }

    fn bad_command_line() -> &'static str {
        "stamped_watch: bad command line"
    }

    fn unopened_file() -> &'static str {
        "stamped_watch: can't open the file"
    }

    fn unwritten_witness() -> &'static str {
        "stamped_watch: can't write the witness"
    }

    fn no_witness(lack: Lack) -> &'static str {
        match lack {
            Lack::BeganLate => "stamped_watch: no witness where a call began late",
            Lack::Withdrawn => "stamped_watch: no witness of a withdrawn call",
            Lack::NotFound => "stamped_watch: no witness was found",
            Lack::Memory => "stamped_watch: no memory for the witness",
        }
    }

    fn no_note() -> &'static str {
        "stamped_watch: no memory for the note"
    }

    fn fault_line(alloc: Global, fault: &ServeFault) -> Option<String> {
        named_fault_line(alloc, "stamped_watch", fault).ok()
    }
}

fn main(rt: HostRuntime) -> ExitCode {
    run::<StampedWatch, HostRuntime>(&rt)
}
