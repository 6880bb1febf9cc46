//! The command line.

ghost use Rattle.std.specs.Prelude.{◌≡◌};
ghost use Rattle.stamp_cli.specs.Given.{items_given, texts};
ghost use Rattle.stamped_explain.specs.Order as order;

use stamp_cli::{CommandFault, Given, Options, given_in, number_in};

/// The most positions that are kept of the lock, and of the record, if the command line says no other number.
pub const MOST_POSITIONS: u64 = 4_000_000;

/// What is written of a history that is explained.
#[derive(Clone, Copy, Debug, PartialEq, Eq)]
pub enum Form {
    /// The recorded history that was found.
    History,
    /// The line by which a check accepts that.
    Judgement,
}

/// What is told on standard error of a history that is explained.
#[derive(Clone, Copy, Debug, PartialEq, Eq)]
pub enum Told {
    /// Nothing.
    Nothing,
    /// What its calls tried.
    Trials,
}

/// What is written of a history that is stuck.
#[derive(Clone, Copy, Debug, PartialEq, Eq)]
pub enum Shown {
    /// The entry at whose return it is stuck.
    Entry,
    /// A small history that is stuck as it is.
    Small,
}

/// How an observed history is to be explained.
#[derive(Clone, Copy, Debug, PartialEq, Eq)]
pub struct Explaining {
    /// What is written of it, if it is explained.
    pub form: Form,
    /// What is told beside that.
    pub told: Told,
    /// What is written of it, if it is stuck.
    pub shown: Shown,
    /// The most positions that are kept of the lock, and of the record.
    pub most: u64,
}

/// What the program is asked to do.
#[derive(Clone, Copy, Debug, PartialEq, Eq)]
pub enum ExplainOrder {
    /// To tell how it is called.
    Help,
    /// To explain an observed history.
    Explain(Explaining),
}

/// The options of an explanation.
const OPTIONS: Options = Options {
    flags: &["--judge", "--told", "--small"],
    worded: &["--most"],
};

fn form_in(given: &Given) -> Form
    ensures { result ≡ order.form_in (items_given given.now) }
{
    if given.has("--judge") {
        Form::Judgement
    } else {
        Form::History
    }
}

fn told_in(given: &Given) -> Told
    ensures { result ≡ order.told_in (items_given given.now) }
{
    if given.has("--told") {
        Told::Trials
    } else {
        Told::Nothing
    }
}

fn shown_in(given: &Given) -> Shown
    ensures { result ≡ order.shown_in (items_given given.now) }
{
    if given.has("--small") {
        Shown::Small
    } else {
        Shown::Entry
    }
}

fn most_in(given: &Given) -> Option<u64>
    ensures { result ≡ order.most_in (items_given given.now) }
{
    match given.word_of("--most") {
        Some(word) => number_in(word),
        None => Some(MOST_POSITIONS),
    }
}

/// How a history is to be explained by these options, unless a file is named or the word behind `--most` is no number.
fn explaining_of(given: &Given) -> Option<Explaining>
    ensures { result ≡ order.explaining_of (items_given given.now) }
{
    if given.file().is_some() {
        return None;
    }
    Some(Explaining {
        form: form_in(given),
        told: told_in(given),
        shown: shown_in(given),
        most: most_in(given)?,
    })
}

fn asks_for_help(args: &[&str]) -> bool
    ensures { result ≡ order.asks_for_help (texts args.now) }
{
    match args {
        [arg] => *arg == "--help",
        _ => false,
    }
}

fn form_of(args: &[&str]) -> Option<ExplainOrder>
    ensures { result ≡ order.form_of (texts args.now) }
{
    if asks_for_help(args) {
        return Some(ExplainOrder::Help);
    }
    let given = given_in(OPTIONS, args)?;
    Some(ExplainOrder::Explain(explaining_of(&given)?))
}

/// What the program's arguments ask for. `--help` alone asks how it is called. Otherwise a history is
/// explained: `--judge` asks for a judgement of what was found, `--told` for what its calls tried, `--small`
/// for a small history of one that is stuck, and `--most N` gives the most positions, a number below
/// 2^64 in decimal digits alone; without it they are 4,000,000. These stand in any order, each at most once.
/// It refuses as 1 `Bad` exactly where the arguments are no such form.
pub fn order_of(args: &[&str]) -> Result<ExplainOrder, CommandFault>
    ensures { result ≡ order.order_in (texts args.now) }
{
    form_of(args).ok_or(CommandFault::Bad)
}
