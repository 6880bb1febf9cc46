//! The command line.

ghost use Rattle.std.specs.Prelude.{◌≡◌, option_map};
ghost use Rattle.stamp_cli.specs.Given.{items_given, texts};
ghost use Rattle.stamped_watch.specs.Order as order;

use stamp_cli::{CommandFault, Given, Options, given_in, number_in};

/// The most positions before an event, if the command line says no other number.
pub const MOST_POSITIONS: u64 = 1_000_000;

/// Among so many events the end of a call is looked for, if the command line says no other number.
pub const EVENTS_AHEAD: usize = 4_194_304;

/// The most events among which it may be looked for.
pub const MOST_AHEAD: u64 = 4_294_967_296;

/// How a stream is to be judged.
#[derive(Clone, Copy, Debug, PartialEq, Eq)]
pub struct Watching {
    /// The most positions before an event.
    pub most: u64,
    /// Among so many events the end of a call is looked for.
    pub ahead: usize,
    /// Whether it is told how far the stream is judged.
    pub progress: bool,
    /// Whether a witness is written of a stream that is stuck.
    pub witness: bool,
}

/// What the program is asked to do.
#[derive(Clone, Copy, Debug, PartialEq, Eq)]
pub enum WatchOrder {
    /// To tell how it is called.
    Help,
    /// To judge a stream.
    Watch(Watching),
}

/// The options of a judgement.
const OPTIONS: Options = Options {
    flags: &["--progress"],
    worded: &["--most", "--ahead", "--witness"],
};

/// So many events, if they are not too many.
fn ahead_in(text: &str) -> Option<usize>
    ensures { result ≡ order.ahead_in text.now }
{
    let ahead = number_in(text)?;
    if ahead > MOST_AHEAD {
        return None;
    }
    Some(ahead as usize)
}

/// Whether the word may name a file: it doesn't begin as an option.
fn is_file(word: &str) -> bool
    ensures { result ≡ order.is_file word.now }
{
    match word.as_bytes().first() {
        Some(first) => *first != b'-',
        None => true,
    }
}

fn most_in(given: &Given) -> Option<u64>
    ensures { result ≡ order.most_in (items_given given.now) }
{
    match given.word_of("--most") {
        Some(word) => number_in(word),
        None => Some(MOST_POSITIONS),
    }
}

fn ahead_of(given: &Given) -> Option<usize>
    ensures { result ≡ order.ahead_of (items_given given.now) }
{
    match given.word_of("--ahead") {
        Some(word) => ahead_in(word),
        None => Some(EVENTS_AHEAD),
    }
}

/// Whether a witness is asked for, unless the word behind that option names no file.
fn witness_of(given: &Given) -> Option<bool>
    ensures { result ≡ order.witness_of (items_given given.now) }
{
    match given.word_of("--witness") {
        Some(word) if is_file(word) => Some(true),
        Some(_) => None,
        None => Some(false),
    }
}

/// How a stream is to be judged by these options, unless the word behind one of them doesn't fit it.
fn watching_of(given: &Given) -> Option<Watching>
    ensures { result ≡ order.watching_of (items_given given.now) }
{
    Some(Watching {
        most: most_in(given)?,
        ahead: ahead_of(given)?,
        progress: given.has("--progress"),
        witness: witness_of(given)?,
    })
}

/// How a stream is to be judged, and what else the arguments give, if they ask for that.
fn judged_in<'b, 'a>(args: &'b [&'a str]) -> Option<(Watching, Given<'b, 'a>)>
    ensures { option_map (λ judged. (judged.0, items_given judged.1)) result ≡ order.judged_in (texts args.now) }
{
    let given = given_in(OPTIONS, args)?;
    Some((watching_of(&given)?, given))
}

fn asks_for_help(args: &[&str]) -> bool
    ensures { result ≡ order.asks_for_help (texts args.now) }
{
    match args {
        [arg] => *arg == "--help",
        _ => false,
    }
}

fn form_of(args: &[&str]) -> Option<WatchOrder>
    ensures { result ≡ order.form_of (texts args.now) }
{
    if asks_for_help(args) {
        return Some(WatchOrder::Help);
    }
    Some(WatchOrder::Watch(judged_in(args)?.0))
}

/// What the program's arguments ask for. `--help` alone asks how it is called. Otherwise a stream is judged.
/// `--progress` asks to be told how far. `--most N` gives the most positions before an event,
/// and `--ahead N` among how many events the end of a call is looked for, up to 2^32, both numbers below 2^64 in decimal
/// digits alone; without them they are 1,000,000 and 4,194,304. `--witness FILE` names a file for a witness. A file that
/// is judged may be named, too. These come in any order, each at most once. A word that begins with `-` names no file.
/// It refuses as 1 `Bad` exactly where the arguments are no such form.
pub fn order_of(args: &[&str]) -> Result<WatchOrder, CommandFault>
    ensures { result ≡ order.order_in (texts args.now) }
{
    form_of(args).ok_or(CommandFault::Bad)
}

/// The file that is judged, if the arguments ask for a judgement and name one.
pub fn file_in<'a>(args: &[&'a str]) -> Option<&'a str>
    ensures { option_map (λ file. file.now) result ≡ order.file_in (texts args.now) }
{
    judged_in(args)?.1.file()
}

/// The file for a witness, if the arguments ask for a judgement and name one.
pub fn witness_in<'a>(args: &[&'a str]) -> Option<&'a str>
    ensures { option_map (λ file. file.now) result ≡ order.witness_in (texts args.now) }
{
    judged_in(args)?.1.word_of("--witness")
}
