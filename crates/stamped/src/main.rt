//! Answers commands on a lock: arguments and standard input in, one line out.
#![tactic(auto)]

ghost use Rattle.stamp_cli.specs.Answer.{AnswersSource, most_reads_of, most_taken_of, with_line_feed};
ghost use Rattle.stamp_cli.specs.Order.{order_in};
ghost use Rattle.stamp_cli.specs.Shell.{HasServed, IsWithoutNote, ServesEnds};
ghost use Rattle.stamp_cli.specs.declared.faults.ServeFault.TheVariants.{Memory, ReadFault, WriteFault};

use stamp_cli::{
    Answered, CommandFault, Order, Program, ServeFault, Sink, Source, fault_line, order_of, run,
    serve,
};
use std::alloc::Global;
use std::process::ExitCode;

/// Serves the order, as `serve` does, and answers what the shell of a program has to tell.
fn serve_order<S: Source, K: Sink>(
    alloc: Global,
    order: Order,
    source: &mut S,
    sink: &mut K,
) -> Result<Answered, ServeFault>
    ensures { HasServed ReadFault WriteFault Memory (AnswersSource order) IsWithoutNote with_line_feed
        (most_reads_of order) (most_taken_of order)
        (record { left = S.left source.old; reads = S.reads source.old; sent = K.sent sink.old; writes = K.writes sink.old })
        (record { left = S.left source.new; reads = S.reads source.new; sent = K.sent sink.new; writes = K.writes sink.new })
        result }
{
    let verdict = serve(alloc, order, source, sink)?;
    Ok(Answered::alone(verdict))
}

/// The program `stamped`.
struct Stamped;

impl Program for Stamped {
    type Order = Order;

    type Fault = ServeFault;

    ghost order_in = { order_in };

    ghost serves = { λ order. ServesEnds (HasServed ReadFault WriteFault Memory (AnswersSource order) IsWithoutNote
        with_line_feed (most_reads_of order) (most_taken_of order)) };

    fn order_of(arguments: &[&str]) -> Result<Order, CommandFault> {
        order_of(arguments)
    }

    fn answer<S: Source, K: Sink, T: Sink, W: Sink>(
        alloc: Global,
        order: Order,
        source: &mut S,
        sink: &mut K,
        _told: &mut T,
        _witness: &mut W,
    ) -> Result<Answered, ServeFault> {
        serve_order(alloc, order, source, sink)
    }

    fn bad_command_line() -> &'static str {
        "stamped: bad command line"
    }

    fn fault_line(alloc: Global, fault: &ServeFault) -> Option<String> {
        fault_line(alloc, fault).ok()
    }
}

fn main(rt: HostRuntime) -> ExitCode {
    run::<Stamped, HostRuntime>(&rt)
}
