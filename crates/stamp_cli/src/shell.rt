//! The shell of a program that answers its input: arguments, status, and lines on standard error.

ghost use Rattle.std.specs.Prelude.{◌≡◌, ℕ, List, Result, None, Ok, Err, map};
ghost use Rattle.stamp_cli.specs.declared.orders.CommandFault.{CommandFault};
ghost use Rattle.stamp_cli.specs.declared.shell.Answered.{Answered};
ghost use Rattle.stamp_cli.specs.Shell as shell;
ghost use Rattle.stamp_cli.specs.Shell.{IsEndingOf, ProgramView};

use crate::file_sink::FileSink;
use crate::line::Verdict;
use crate::orders::CommandFault;
use crate::sinks::{EprintSink, Sink, WriteSink};
use crate::sources::{ReadSource, Source};
use std::alloc::{AllocError, Global};
use std::io::Read;
use std::process::ExitCode;
use std::rt::{Env, Files};
use std::{env, fs, io};

/// Why there is no witness where one was due.
#[derive(Clone, Copy, Debug, PartialEq, Eq)]
pub enum Lack {
    /// A call that was open for long began late.
    BeganLate,
    /// The call was withdrawn.
    Withdrawn,
    /// None was found.
    NotFound,
    /// Memory for it was refused.
    Memory,
}

/// What a program has answered.
#[derive(Drop)]
pub struct Answered {
    /// What the line that was written says.
    pub verdict: Verdict,
    /// A line for standard error, without its line feed, if one is due; or memory for it was refused.
    pub note: Result<Option<String>, AllocError>,
    /// Why there is no witness, if one was due.
    pub no_witness: Option<Lack>,
}

impl Answered {
    /// An answer with this verdict, with which no note and no witness are due.
    pub fn alone(verdict: Verdict) -> Answered
        ensures { result ≡ record { verdict = verdict; note = Ok None; no_witness = None } }
    {
        Answered {
            verdict,
            note: Ok(None),
            no_witness: None,
        }
    }
}

/// How a program ends.
#[derive(Drop)]
pub enum Ending<F> {
    /// The arguments give no order.
    BadCommandLine,
    /// The file that the arguments name can't be opened.
    Unopened,
    /// It has answered.
    Answered(Answered),
    /// It wrote no answer, for this fault.
    Refused(F),
}

/// A program, as its shell sees it.
pub trait Program {
    /// What its arguments ask for.
    type Order;
    /// Why it wrote no answer.
    type Fault: From<AllocError> + Drop;

    // The order that arguments give.
    ghost order_in: { List (List ℕ) → Result Self.Order CommandFault };

    // Whether serving an order may take all ends of the program from the first to the second, with this answer.
    ghost serves: { Self.Order → ProgramView → ProgramView → Result Answered Self.Fault → Type 0 };

    /// The order that these arguments give, the program's name not among them.
    fn order_of(arguments: &[&str]) -> Result<Self::Order, CommandFault>
        ensures { result ≡ order_in (map (λ arg. arg.now) arguments.now) };

    /// The file that is read in place of standard input, if these arguments name one. A program that says nothing here
    /// reads standard input alone.
    fn file_in<'a>(_arguments: &[&'a str]) -> Option<&'a str> {
        None
    }

    /// The file for a witness of what is answered, if these arguments name one. A program that says nothing here writes
    /// none.
    fn witness_in<'a>(_arguments: &[&'a str]) -> Option<&'a str> {
        None
    }

    /// Serves the order between a source and a sink. What it tells on the way goes to the third end, and a witness of
    /// what is answered to the last.
    fn answer<S: Source, K: Sink, T: Sink, W: Sink>(
        alloc: Global,
        order: Self::Order,
        source: &mut S,
        sink: &mut K,
        told: &mut T,
        witness: &mut W,
    ) -> Result<Answered, Self::Fault>
        ensures { serves order
            (record {
              ends = record { left = S.left source.old; reads = S.reads source.old; sent = K.sent sink.old; writes = K.writes sink.old };
              told = record { sent = T.sent told.old; writes = T.writes told.old };
              witness = record { sent = W.sent witness.old; writes = W.writes witness.old };
            })
            (record {
              ends = record { left = S.left source.new; reads = S.reads source.new; sent = K.sent sink.new; writes = K.writes sink.new };
              told = record { sent = T.sent told.new; writes = T.writes told.new };
              witness = record { sent = W.sent witness.new; writes = W.writes witness.new };
            })
            result };

    /// The line that tells of arguments that give no order, without its line feed.
    fn bad_command_line() -> &'static str;

    /// The line that tells that the file which arguments name can't be opened, without its line feed.
    fn unopened_file() -> &'static str {
        "the file can't be opened"
    }

    /// The line that tells that the witness can't be written, or not all of it, without its line feed.
    fn unwritten_witness() -> &'static str {
        "the witness can't be written"
    }

    /// The line that tells why there is no witness, without its line feed.
    fn no_witness(_lack: Lack) -> &'static str {
        "there is no witness"
    }

    /// The line that tells that memory for a note was refused, without its line feed.
    fn no_note() -> &'static str {
        "no memory for the note"
    }

    /// The line that tells of a fault, without its line feed, if there is memory for it.
    fn fault_line(alloc: Global, fault: &Self::Fault) -> Option<String>;
}

/// The status that a program ends with: 0 where the answer accepts the input, 2 where the arguments
/// give no order, and else 1, also where a file can't be opened.
pub fn status_after<F>(ending: &Ending<F>) -> u8
    ensures { result ≡ shell.status_after ending.now }
{
    match ending {
        Ending::BadCommandLine => 2,
        Ending::Unopened => 1,
        Ending::Answered(answered) => match answered.verdict {
            Verdict::Accepted => 0,
            Verdict::Bad => 1,
        },
        Ending::Refused(_) => 1,
    }
}

/// What a program does on these arguments, its name not among them, between a source and a sink, and other sinks for
/// what it tells on the way, and for a witness. Where they give no order, none is touched; otherwise the order is
/// served, once.
pub fn ending_of<P: Program, S: Source, K: Sink, T: Sink, W: Sink>(
    alloc: Global,
    arguments: &[&str],
    source: &mut S,
    sink: &mut K,
    told: &mut T,
    witness: &mut W,
) -> Ending<P::Fault>
    ensures bad { (fault : CommandFault) → P.order_in (map (λ arg. arg.now) arguments.now) ≡ Err fault →
        (result ≡ Ending.BadCommandLine) × (source.new ≡ source.old) × (sink.new ≡ sink.old)
        × (told.new ≡ told.old) × (witness.new ≡ witness.old) }
    ensures served { (order : P.Order) → P.order_in (map (λ arg. arg.now) arguments.now) ≡ Ok order →
        IsEndingOf (P.serves order
        (record {
          ends = record { left = S.left source.old; reads = S.reads source.old; sent = K.sent sink.old; writes = K.writes sink.old };
          told = record { sent = T.sent told.old; writes = T.writes told.old };
          witness = record { sent = W.sent witness.old; writes = W.writes witness.old };
        })
        (record {
          ends = record { left = S.left source.new; reads = S.reads source.new; sent = K.sent sink.new; writes = K.writes sink.new };
          told = record { sent = T.sent told.new; writes = T.writes told.new };
          witness = record { sent = W.sent witness.new; writes = W.writes witness.new };
        }))
        result }
{
    let order = match P::order_of(arguments) {
        Ok(order) => order,
        Err(CommandFault::Bad) => return Ending::BadCommandLine,
    };
    match P::answer(alloc, order, source, sink, told, witness) {
        Ok(answered) => Ending::Answered(answered),
        Err(fault) => Ending::Refused(fault),
    }
}

/// The program's arguments, its name among them; none where one of them is no text.
fn arguments_given(rt: &(impl Env + AllocGlobal)) -> Result<Option<Vec<String>>, AllocError> {
    match env::args(rt) {
        Ok(args) => Ok(Some(args.collect(rt.alloc())?)),
        Err(fault) if fault.kind() == io::ErrorKind::OutOfMemory => Err(AllocError),
        Err(_) => Ok(None),
    }
}

/// What the program does on these arguments, between a reader, standard output, standard error and a witness. Where this
/// can't be written, a line tells that.
fn ending_from<P: Program, R: Read + Drop>(
    rt: &(impl Files + Print + Eprint + AllocGlobal),
    arguments: &[&str],
    reader: R,
) -> Ending<P::Fault> {
    let mut source = ReadSource::new(reader);
    let mut sink = WriteSink::new(io::writer(rt));
    let mut told = EprintSink::new(rt);
    let mut witness = FileSink::new(rt, P::witness_in(arguments));
    let ending = ending_of::<P, _, _, _, _>(
        rt.alloc(),
        arguments,
        &mut source,
        &mut sink,
        &mut told,
        &mut witness,
    );
    if witness.has_failed() {
        let _ = rt.eprintln(P::unwritten_witness());
    }
    ending
}

/// What the program does between its input, which is standard input or a file, and standard output.
fn ending_here<P: Program>(
    rt: &(impl Env + Files + Input + Print + Eprint + AllocGlobal),
) -> Result<Ending<P::Fault>, AllocError> {
    let Some(args) = arguments_given(rt)? else {
        return Ok(Ending::BadCommandLine);
    };
    let texts: Vec<&str> = args
        .iter()
        .skip(1)
        .map(|arg| arg.as_str())
        .collect(rt.alloc())?;
    let Some(path) = P::file_in(&texts) else {
        return Ok(ending_from::<P, _>(rt, &texts, rt.reader()));
    };
    match fs::open(rt, path) {
        Ok(file) => Ok(ending_from::<P, _>(rt, &texts, file)),
        Err(fault) if fault.kind() == io::ErrorKind::OutOfMemory => Err(AllocError),
        Err(_) => Ok(Ending::Unopened),
    }
}

/// Prints a line on standard error, if there is one.
fn tell(rt: &impl Eprint, line: Option<String>) {
    if let Some(line) = line {
        let _ = rt.eprintln(line);
    }
}

/// Prints what is told beside an answer.
fn tell_beside<P: Program>(rt: &impl Eprint, answered: Answered) {
    if let Some(lack) = answered.no_witness {
        let _ = rt.eprintln(P::no_witness(lack));
    }
    match answered.note {
        Ok(note) => tell(rt, note),
        Err(AllocError) => {
            let _ = rt.eprintln(P::no_note());
        }
    }
}

/// Runs a program between its input and standard output: what it does is that of `ending_of`, and its status that of
/// `status_after`. The input is standard input, or the file that its arguments name.
pub fn run<P: Program, R: Env + Files + Input + Print + Eprint + AllocGlobal>(rt: &R) -> ExitCode {
    let ending = match ending_here::<P>(rt) {
        Ok(ending) => ending,
        Err(AllocError) => Ending::Refused(P::Fault::from(AllocError)),
    };
    let status = status_after(&ending);
    match ending {
        Ending::BadCommandLine => {
            let _ = rt.eprintln(P::bad_command_line());
        }
        Ending::Unopened => {
            let _ = rt.eprintln(P::unopened_file());
        }
        Ending::Answered(answered) => tell_beside::<P>(rt, answered),
        Ending::Refused(fault) => tell(rt, P::fault_line(rt.alloc(), &fault)),
    }
    ExitCode::from(status)
}
