//! Draws a history: arguments and standard input in, one picture or page out.
#![tactic(auto)]

ghost use Rattle.stamp_cli.specs.Shell.{ServesEnds};
ghost use Rattle.stamped_picture.specs.declared.TheConstants.{MOST_POSITIONS};
ghost use Rattle.stamped_picture.specs.declared.help.TheConstants.{HELP};
ghost use Rattle.stamped_picture.specs.declared.page_text.TheConstants.{PAGE_HEAD, PAGE_TAIL};
ghost use Rattle.stamped_picture.specs.declared.style.TheConstants.{STYLE};
ghost use Rattle.stamped_picture.specs.Order.{order_in};
ghost use Rattle.stamped_picture.specs.Served.{IsServed};

mod answer;
mod explanation;
mod faults;
mod help;
mod orders;
mod page;
mod page_data;
mod page_text;
mod serving;
mod style;

use crate::faults::{PictureFault, fault_line};
use crate::help::HELP;
use crate::orders::{PictureCommand, order_of};
use crate::page_text::{PAGE_HEAD, PAGE_TAIL};
use crate::serving::{serve_asked_page, serve_drawing};
use crate::style::STYLE;
use stamp_cli::{Answered, CommandFault, Program, Sink, Source, run, serve_help};
use std::alloc::Global;
use std::process::ExitCode;

/// The most positions that are kept of the lock, and of the record.
const MOST_POSITIONS: u64 = 4_000_000;

/// The program `stamped_picture`.
struct StampedPicture;

impl Program for StampedPicture {
    type Order = PictureCommand;

    type Fault = PictureFault;

    ghost order_in = { order_in };

    ghost serves = { λ command. ServesEnds
        (IsServed MOST_POSITIONS STYLE.now PAGE_HEAD.now PAGE_TAIL.now HELP.now command) };

    fn order_of(arguments: &[&str]) -> Result<PictureCommand, CommandFault> {
        order_of(arguments)
    }

    fn answer<S: Source, K: Sink, T: Sink, W: Sink>(
        alloc: Global,
        command: PictureCommand,
        source: &mut S,
        sink: &mut K,
        _told: &mut T,
        _witness: &mut W,
    ) -> Result<Answered, PictureFault> {
        match command {
            PictureCommand::Help => Ok(Answered::alone(serve_help(HELP, sink)?)),
            PictureCommand::Draw(order) => serve_drawing(alloc, order, STYLE, source, sink),
            PictureCommand::Page => serve_asked_page(
                alloc,
                MOST_POSITIONS,
                PAGE_HEAD,
                PAGE_TAIL,
                source,
                sink,
            ),
        }
    }

    fn bad_command_line() -> &'static str {
        "stamped_picture: bad command line"
    }

    fn fault_line(alloc: Global, fault: &PictureFault) -> Option<String> {
        fault_line(alloc, fault).ok()
    }
}

fn main(rt: HostRuntime) -> ExitCode {
    run::<StampedPicture, HostRuntime>(&rt)
}
