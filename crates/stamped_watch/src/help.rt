//! How the program is called.

/// The forms of the command line.
pub(crate) const HELP: &str =
    "stamped_watch [--progress] [--most N] [--ahead N] [--witness FILE] [FILE]
  judges a stream of a lock's events, of any length, from FILE or standard input; options in any order
  writes ok N (calls), stuck E, undecided E, bad E WHY or bad header WHY; status 0 for ok alone
  --progress on standard error tells how far the stream is judged, each 2^24 events
  --most N   before an event so many positions at most (1000000)
  --ahead N  a call open for nearly so many events is judged as if it began later (4194304, at most 4294967296)
  --witness FILE  of a stuck stream a small history that is stuck there is written to FILE
stamped_watch --help
";
