//! Laws of the program's answers, and of command lines. Each function does nothing; its contract is the law, over the
//! definitions alone.

ghost use Rattle.stamp_cli.specs.Laws.{OneAnswer, RunLinesAreAccepted, AcceptedMigrates, MigrationKeepsLines};
ghost use Rattle.stamp_cli.specs.Options.{OneReading};

/// A command has one answer to what it reads. So a line is written, and an input refused, exactly
/// where the answer is so.
pub fn one_answer()
    ensures { OneAnswer }
{}

/// `check` accepts the line of `run` where it is no longer than an input may be. Of that line, with
/// its line feed, what `check` answers is `ok` and the number of the calls that the script
/// finishes, and nothing else. So it is with a report, too.
pub fn run_lines_are_accepted()
    ensures { RunLinesAreAccepted }
{}

/// An input that `check` accepts is a linearized history, and `migrate` answers it by a line. The
/// line is the text of that history in layout 2. No refusal is an answer to it. Want of memory and
/// a failed read or write are no answers.
pub fn accepted_migrates()
    ensures { AcceptedMigrates }
{}

/// `check` answers a migration's line, if it is no longer than an input may be, as the migrated
/// input. It answers that line, with its line feed, in no other way.
pub fn migration_keeps_lines()
    ensures { MigrationKeepsLines }
{}

/// Arguments are read in one way, or in none. What they give are options, each with the word behind it if it takes
/// one, and maybe a file, none of them twice, whose words are the arguments in their order. Where they are so, that is
/// what they give.
pub fn one_reading()
    ensures { OneReading }
{}
