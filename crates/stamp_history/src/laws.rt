//! Laws of the texts, and of runs that are judged.

ghost use Rattle.stamp_history.specs.HistoryLaws.{HistoriesReadAgain, LinesReadAgain, RunsReadAgain};
ghost use Rattle.stamp_history.specs.RunLaws.{RunsAreAccepted};

/// The text of a recorded history reads as that history, in either format, with a report and without one.
pub fn histories_read_again()
    ensures { HistoriesReadAgain }
{}

/// The line of a recorded history, its text and a line feed, reads as that history.
pub fn lines_read_again()
    ensures { LinesReadAgain }
{}

/// The line of what a script that was read is run to reads as that history. That holds without a
/// report and with one.
pub fn runs_read_again()
    ensures { RunsReadAgain }
{}

/// `check` accepts what `run` and `run_reported` give, whatever the script.
pub fn runs_are_accepted()
    ensures { RunsAreAccepted }
{}
