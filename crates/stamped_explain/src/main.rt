//! Finds an order that explains an observed history: standard input in, one line out.
#![tactic(auto)]

ghost use Rattle.stamp_cli.specs.Shell.{ServesEnds};
ghost use Rattle.stamped_explain.specs.declared.help.TheConstants.{HELP};
ghost use Rattle.stamped_explain.specs.Order.{order_in};
ghost use Rattle.stamped_explain.specs.Served.{IsServed};

mod answer;
mod faults;
mod finding;
mod finding_text;
mod help;
mod note;
mod orders;
mod serving;
mod trials;

use crate::faults::{ExplainFault, fault_line};
use crate::help::HELP;
use crate::orders::{ExplainOrder, order_of};
use crate::serving::serve_asked;
use stamp_cli::{Answered, CommandFault, Program, Sink, Source, run, serve_help};
use std::alloc::Global;
use std::process::ExitCode;

/// The program `stamped_explain`.
struct StampedExplain;

impl Program for StampedExplain {
    type Order = ExplainOrder;

    type Fault = ExplainFault;

    ghost order_in = { order_in };

    ghost serves = { λ order. ServesEnds (IsServed HELP.now order) };

    fn order_of(arguments: &[&str]) -> Result<ExplainOrder, CommandFault> {
        order_of(arguments)
    }

    fn answer<S: Source, K: Sink, T: Sink, W: Sink>(
        alloc: Global,
        order: ExplainOrder,
        source: &mut S,
        sink: &mut K,
        _told: &mut T,
        _witness: &mut W,
    ) -> Result<Answered, ExplainFault> {
        match order {
            ExplainOrder::Help => Ok(Answered::alone(serve_help(HELP, sink)?)),
            ExplainOrder::Explain(asked) => serve_asked(alloc, asked, source, sink),
        }
    }

    fn bad_command_line() -> &'static str {
        "stamped_explain: bad command line"
    }

    fn no_note() -> &'static str {
        "stamped_explain: no memory for the note"
    }

    fn fault_line(alloc: Global, fault: &ExplainFault) -> Option<String> {
        fault_line(alloc, fault).ok()
    }
}

fn main(rt: HostRuntime) -> ExitCode {
    run::<StampedExplain, HostRuntime>(&rt)
}
