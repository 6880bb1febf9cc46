//! The line of a judgement of a history.

ghost use Rattle.std.specs.Prelude.{◌≡◌, Some, Ok, Err, IfOk};
ghost use Rattle.stamp_cli.specs.CheckText.{why_text, bad_text, ok_text, judgement_text, verdict_of};

use crate::line::{Line, accepted, rejected};
use stamp_history::{Bad, Why};
use std::alloc::{AllocError, Global};
use std::fmt;

#[derive(Drop)]
struct WhyText(Why);

impl fmt::Display for WhyText {
    ghost output = { λ text. Some (why_text text.0) };

    fn fmt<W: fmt::Write>(&self, f: &mut fmt::Formatter<W>) -> fmt::Result {
        match self.0 {
            Why::Interval => write!(f, "interval"),
            Why::Order => write!(f, "order"),
            Why::Overlap => write!(f, "overlap"),
            Why::Reply => write!(f, "reply"),
        }
    }
}

#[derive(Drop)]
struct OkText(u64);

impl fmt::Display for OkText {
    ghost output = { λ text. Some (ok_text text.0) };

    fn fmt<W: fmt::Write>(&self, f: &mut fmt::Formatter<W>) -> fmt::Result {
        write!(f, "ok {}", self.0)
    }
}

#[derive(Drop)]
struct BadText(Bad);

impl fmt::Display for BadText {
    ghost output = { λ text. Some (bad_text text.0) };

    fn fmt<W: fmt::Write>(&self, f: &mut fmt::Formatter<W>) -> fmt::Result {
        write!(f, "bad {} {}", self.0.entry, WhyText(self.0.why))
    }
}

/// The line of a judgement.
pub(crate) fn line_of_judgement(alloc: Global, found: Result<u64, Bad>) -> Result<Line, AllocError>
    ensures text { IfOk result (λ line. line.text.items ≡ judgement_text found) }
    ensures verdict { IfOk result (λ line. line.verdict ≡ verdict_of found) }
{
    match found {
        Ok(count) => Ok(accepted(OkText(count).to_string(alloc)?.into_bytes())),
        Err(bad) => Ok(rejected(BadText(bad).to_string(alloc)?.into_bytes())),
    }
}
