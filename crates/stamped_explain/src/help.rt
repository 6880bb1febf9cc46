//! How the program is called.

/// The forms of the command line.
pub(crate) const HELP: &str =
    "stamped_explain [--judge] [--told] [--small] [--most N] < OBSERVED_HISTORY
  judges whether an order explains it; keeps N positions at most (4000000); options in any order
  writes the recorded history found, stuck E, undecided E or bad E WHY; status 0 for a history alone
  --judge  writes ok N in place of the history, which is checked: it has N entries
  --told   tells on standard error, of a history that is explained, how many calls overlapped or failed
  --small  writes in place of stuck E a small history that is stuck so
stamped_explain --help
";
