//! The command line.

ghost use Rattle.std.specs.Prelude.{◌≡◌};
ghost use Rattle.stamp_cli.specs.Given.{items_given, texts};
ghost use Rattle.stamped_picture.specs.Order as order;

use stamp_cli::{CommandFault, Given, Options, given_in, number_in};
use stamp_picture::Window;

/// How a picture is drawn.
#[derive(Clone, Copy)]
pub(crate) enum PictureFormat {
    /// As SVG.
    Svg,
    /// As lines of at most so many characters.
    Text(u64),
}

/// What is to be drawn.
#[derive(Clone, Copy)]
pub(crate) struct PictureOrder {
    /// How.
    pub(crate) format: PictureFormat,
    /// The part of the history.
    pub(crate) window: Window,
}

/// What the program is asked to do.
#[derive(Clone, Copy)]
pub(crate) enum PictureCommand {
    /// To tell how it is called.
    Help,
    /// To draw a picture.
    Draw(PictureOrder),
    /// To make a page.
    Page,
}

/// The options of a picture.
const OPTIONS: Options = Options {
    flags: &["--text"],
    worded: &["--width", "--from", "--to"],
};

/// The characters of a line of text, if the command line says no other number.
const PLAIN_WIDTH: u64 = 80;

fn width_in(text: &str) -> Option<u64>
    ensures { result ≡ order.width_in text.now }
{
    match number_in(text)? {
        0 => None,
        width => Some(width),
    }
}

/// Lines for a terminal, unless the word behind `--width` is no width.
fn text_of(given: &Given) -> Option<PictureFormat>
    ensures { result ≡ order.text_of (items_given given.now) }
{
    match given.word_of("--width") {
        Some(width) => Some(PictureFormat::Text(width_in(width)?)),
        None => Some(PictureFormat::Text(PLAIN_WIDTH)),
    }
}

/// How a picture is drawn by these options: `--width` stands only beside `--text`.
fn format_of(given: &Given) -> Option<PictureFormat>
    ensures { result ≡ order.format_of (items_given given.now) }
{
    if given.has("--text") {
        text_of(given)
    } else if given.has("--width") {
        None
    } else {
        Some(PictureFormat::Svg)
    }
}

/// The window from a position to one that isn't before it.
#[tactic(auto, unfolding(crate::specs::Order::window_between))]
fn window_between(from: u64, to: u64) -> Option<Window>
    ensures { result ≡ order.window_between from to }
{
    if from <= to {
        Some(Window { from, to })
    } else {
        None
    }
}

/// The part of the history that these options give: `--from` and `--to` stand only together.
fn window_of(given: &Given) -> Option<Window>
    ensures { result ≡ order.window_of (items_given given.now) }
{
    match (given.word_of("--from"), given.word_of("--to")) {
        (Some(from), Some(to)) => window_between(number_in(from)?, number_in(to)?),
        (None, None) => Some(Window::all()),
        _ => None,
    }
}

/// What is to be drawn by these options, unless a file is named.
fn drawn_by(given: &Given) -> Option<PictureOrder>
    ensures { result ≡ order.drawn_by (items_given given.now) }
{
    if given.file().is_some() {
        return None;
    }
    Some(PictureOrder {
        format: format_of(given)?,
        window: window_of(given)?,
    })
}

fn asks_for_help(args: &[&str]) -> bool
    ensures { result ≡ order.asks_for_help (texts args.now) }
{
    match args {
        [arg] => *arg == "--help",
        _ => false,
    }
}

fn asks_for_page(args: &[&str]) -> bool
    ensures { result ≡ order.asks_for_page (texts args.now) }
{
    match args {
        [arg] => *arg == "--html",
        _ => false,
    }
}

fn command_of(args: &[&str]) -> Option<PictureCommand>
    ensures { result ≡ order.command_of (texts args.now) }
{
    if asks_for_help(args) {
        return Some(PictureCommand::Help);
    }
    if asks_for_page(args) {
        return Some(PictureCommand::Page);
    }
    let given = given_in(OPTIONS, args)?;
    Some(PictureCommand::Draw(drawn_by(&given)?))
}

/// What the program's arguments ask for.
pub(crate) fn order_of(args: &[&str]) -> Result<PictureCommand, CommandFault>
    ensures { result ≡ order.order_in (texts args.now) }
{
    command_of(args).ok_or(CommandFault::Bad)
}
