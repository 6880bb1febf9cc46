//! How the program is called.

/// The forms of the command line.
pub(crate) const HELP: &str =
    "stamped_picture [--text [--width N]] [--from A --to B] < RECORDED_HISTORY
  draws it as SVG, or with --text as lines of at most N characters (80), from position A to B alone
  says in it whether the history is in order, or its first fault; status 0 for one in order alone
stamped_picture --html < RECORDED_OR_OBSERVED_HISTORY
  writes a page that draws it in a browser, an observed one with what explains it, as far as anything does
stamped_picture --help
";
