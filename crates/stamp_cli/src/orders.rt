//! The command line.

ghost use Rattle.std.specs.Prelude.{◌≡◌, map};
ghost use Rattle.std.specs.Char.{is_ascii_digit};
ghost use Rattle.std.specs.List.{list_all};
ghost use Rattle.stamp_cli.specs.Order as order;

use stamp_core::Layout;
use std::error::Error;
use std::fmt;

/// What the program is asked to do.
#[derive(Clone, Copy, Debug, PartialEq, Eq)]
pub enum Order {
    /// Reads a replay and answers the replies to its calls.
    Replay,
    /// Reads a script, runs it and answers the history of its finished calls.
    Run,
    /// As `Run`, and tells of each finished call the steps it took and what others changed meanwhile.
    RunReported,
    /// Reads a history and says whether it is linearized by its points, or its first fault.
    Check,
    /// Reads a history and answers it as one of layout 2.
    Migrate,
    /// Says what a number is as a stamp of layout 1.
    Stamp(u64),
    /// Says what a number is as a stamp of a layout.
    StampIn(Layout, u64),
}

/// Why arguments are no command.
#[derive(Clone, Copy, Debug, PartialEq, Eq)]
pub enum CommandFault {
    /// 1: the arguments are no form of the command line.
    Bad,
}

impl fmt::Display for CommandFault {
    fn fmt<W: fmt::Write>(&self, f: &mut fmt::Formatter<W>) -> fmt::Result {
        match self {
            CommandFault::Bad => write!(f, "bad command line"),
        }
    }
}

impl Error for CommandFault {}

fn is_digits(text: &str) -> bool
    ensures { result ≡ list_all is_ascii_digit text.now }
{
    text.bytes().all(|byte| byte.is_ascii_digit())
}

/// Reads a number below 2^64 from a text of decimal digits alone. `None` where the text is none.
#[tactic(auto, using(crate::proofs::Digits::number_parsed))]
pub fn number_in(text: &str) -> Option<u64>
    ensures { result ≡ order.number_in text.now }
{
    // A sign is no digit, and `parse` would take it.
    if !is_digits(text) {
        return None;
    }
    text.parse().ok()
}

fn layout_in(text: &str) -> Option<Layout>
    ensures { result ≡ order.layout_in text.now }
{
    match text {
        "1" => Some(Layout::One),
        "2" => Some(Layout::Two),
        _ => None,
    }
}

fn one_arg(arg: &str) -> Option<Order>
    ensures { result ≡ order.one_arg arg.now }
{
    match arg {
        "replay" => Some(Order::Replay),
        "run" => Some(Order::Run),
        "check" => Some(Order::Check),
        "migrate" => Some(Order::Migrate),
        _ => None,
    }
}

fn two_args(command: &str, second: &str) -> Option<Order>
    ensures { result ≡ order.two_args command.now second.now }
{
    match command {
        "stamp" => Some(Order::Stamp(number_in(second)?)),
        "run" if second == "--report" => Some(Order::RunReported),
        _ => None,
    }
}

fn four_args(command: &str, option: &str, layout: &str, number: &str) -> Option<Order>
    ensures { result ≡ order.four_args command.now option.now layout.now number.now }
{
    match command {
        "stamp" if option == "--layout" => {
            Some(Order::StampIn(layout_in(layout)?, number_in(number)?))
        }
        _ => None,
    }
}

fn form_of(args: &[&str]) -> Option<Order>
    ensures { result ≡ order.form_of (map (λ arg. arg.now) args.now) }
{
    match args {
        [arg] => one_arg(arg),
        [command, second] => two_args(command, second),
        [command, option, layout, number] => four_args(command, option, layout, number),
        _ => None,
    }
}

/// The command that the program's arguments give. Errors: 1 `Bad` exactly where they are no form of
/// the command line.
pub fn order_of(args: &[&str]) -> Result<Order, CommandFault>
    ensures { result ≡ order.order_in (map (λ arg. arg.now) args.now) }
{
    form_of(args).ok_or(CommandFault::Bad)
}
