//! The line that answers a command.

ghost use Rattle.std.specs.Prelude.{◌≡◌};

/// What a line says, and so which exit status a program ends with.
#[derive(Clone, Copy, Debug, PartialEq, Eq)]
pub enum Verdict {
    /// The line is an answer.
    Accepted,
    /// The line says that a history is bad, or isn't known to be good.
    Bad,
}

/// The line that answers a command.
#[derive(Drop)]
pub struct Line {
    /// The line, without its line feed.
    pub text: Vec<u8>,
    /// What it says.
    pub verdict: Verdict,
}

/// Makes the line of an answer from its text.
pub fn accepted(text: Vec<u8>) -> Line
    ensures text { result.text ≡ text }
    ensures verdict { result.verdict ≡ Verdict.Accepted }
{
    Line {
        text,
        verdict: Verdict::Accepted,
    }
}

/// Makes the line which says that a history is bad, or isn't known to be good.
pub fn rejected(text: Vec<u8>) -> Line
    ensures text { result.text ≡ text }
    ensures verdict { result.verdict ≡ Verdict.Bad }
{
    Line {
        text,
        verdict: Verdict::Bad,
    }
}
