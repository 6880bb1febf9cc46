//! The parts of a text.

ghost use Rattle.std.specs.Prelude.{◌≡◌, Some};
ghost use Rattle.stamp_history.specs.Field.{field_name, field_text};

use std::fmt;

/// A part of a text, in which something may be wrong. Positions count from 0. What `Display` writes
/// is proved, as `call 3`; when it fails, and what it wrote then, isn't.
#[derive(Clone, Copy, Debug, PartialEq, Eq)]
pub enum Field {
    /// The object itself: which keys it has.
    Top,
    /// The number of the format: 1 or 2.
    Format,
    /// The number of the layout: 1 or 2.
    Layout,
    /// The most readers at a time: 1 to 127, in layout 2 to 65,535.
    Readers,
    /// The most write acquisitions in all: 0 to 2^55-2, in layout 2 to 2^46-2.
    Versions,
    /// How many words the record has: 0 to 16, where 0 is no record.
    Width,
    /// The calls of a replay, at most 640,000.
    Calls,
    /// The call at this position in a replay.
    Call(u64),
    /// The threads of a script, each a list of calls.
    Threads,
    /// Of the thread at the first position in a script, the call at the second.
    ThreadCall(u64, u64),
    /// The steps of a script.
    Steps,
    /// The step at this position in a script.
    Step(u64),
    /// The entries of a history, at most 640,000.
    Entries,
    /// The entry at this position in a history.
    Entry(u64),
    /// The report of a history: a pair for each entry.
    Report,
}

impl Field {
    /// The name, without the positions.
    fn name(self) -> &'static str
        ensures { result.now ≡ field_name self }
    {
        match self {
            Field::Top => "top",
            Field::Format => "format",
            Field::Layout => "layout",
            Field::Readers => "readers",
            Field::Versions => "versions",
            Field::Width => "width",
            Field::Calls => "calls",
            Field::Call(_) | Field::ThreadCall(_, _) => "call",
            Field::Threads => "threads",
            Field::Steps => "steps",
            Field::Step(_) => "step",
            Field::Entries => "entries",
            Field::Entry(_) => "entry",
            Field::Report => "report",
        }
    }
}

impl fmt::Display for Field {
    ghost output = { λ field. Some (field_text field) };

    fn fmt<W: fmt::Write>(&self, f: &mut fmt::Formatter<W>) -> fmt::Result {
        let name = self.name();
        match self {
            Field::Call(index) | Field::Step(index) | Field::Entry(index) => {
                write!(f, "{name} {index}")
            }
            Field::ThreadCall(thread, index) => write!(f, "{name} {thread} {index}"),
            _ => f.write_str(name),
        }
    }
}
