//! What is found, as a line.

ghost use Rattle.std.specs.Prelude.{◌≡◌, Some, IfOk, IfErr, length};
ghost use Rattle.stamp_core.specs.Linearized.{IsLinearized};
ghost use Rattle.stamp_explain.specs.Cut.{IsStuck};
ghost use Rattle.stamp_explain.specs.Observed.{IsObserved};
ghost use Rattle.stamped_explain.specs.FindingText.{why_text, bad_text, explained_text, stuck_line, finding_verdict};
ghost use Rattle.stamped_explain.specs.FindingText.{IsTextOfSmall, IsStuckText, IsFindingText};
ghost use Rattle.stamped_explain.specs.Finding.{IsFinding, IsLinearizedIfMade};

use crate::finding::Finding;
use crate::orders::{Explaining, Form, Shown};
use stamp_check::check;
use stamp_cli::{Line, ServeFault, accepted, rejected};
use stamp_core::Record;
use stamp_explain::Observed;
use stamp_history::write_history;
use stamp_observed::{ObservedFault, ObservedWhy, small_of, write_observed};
use std::alloc::Global;
use std::fmt;

#[derive(Drop)]
struct WhyText(ObservedWhy);

impl fmt::Display for WhyText {
    ghost output = { λ text. Some (why_text text.0) };

    fn fmt<W: fmt::Write>(&self, f: &mut fmt::Formatter<W>) -> fmt::Result {
        match self.0 {
            ObservedWhy::Interval => write!(f, "interval"),
            ObservedWhy::Overlap => write!(f, "overlap"),
        }
    }
}

#[derive(Drop)]
struct BadText(ObservedFault);

impl fmt::Display for BadText {
    ghost output = { λ text. Some (bad_text text.0) };

    fn fmt<W: fmt::Write>(&self, f: &mut fmt::Formatter<W>) -> fmt::Result {
        write!(f, "bad {} {}", self.0.entry, WhyText(self.0.why))
    }
}

/// How many entries a check counts in a history that it accepts.
fn checked_count(made: &Record) -> u64
    requires { IsLinearized made.now }
    ensures { result ≡ length made.now.entries }
{
    match check(made) {
        Ok(count) => count,
        Err(_) => unreachable!(),
    }
}

/// The text of a history that explains: its own, or that a check accepts it.
fn text_of_explained(alloc: Global, form: Form, made: &Record) -> Result<Vec<u8>, ServeFault>
    requires { IsLinearized made.now }
    ensures text { IfOk result (λ text. text.items ≡ explained_text form made.now) }
    ensures memory { IfErr result (λ e. e ≡ ServeFault.Memory) }
{
    match form {
        Form::History => Ok(write_history(alloc, made)?),
        Form::Judgement => {
            let count = checked_count(made);
            Ok(format!(in alloc; "ok {count}")?.into_bytes())
        }
    }
}

/// The line of a history that is stuck: the entry at whose return it is.
fn entry_text(alloc: Global, entry: usize) -> Result<Vec<u8>, ServeFault>
    ensures text { IfOk result (λ text. text.items ≡ stuck_line entry) }
    ensures memory { IfErr result (λ e. e ≡ ServeFault.Memory) }
{
    Ok(format!(in alloc; "stuck {entry}")?.into_bytes())
}

/// The text of a small history that is stuck as this one is at the return of this entry.
fn small_text(
    alloc: Global,
    observed: &Observed,
    entry: usize,
    most: u64,
) -> Result<Vec<u8>, ServeFault>
    requires observed { IsObserved observed.now }
    requires stuck { IsStuck observed.now entry }
    ensures text { IfOk result (λ text. IsTextOfSmall observed.now most entry text.items) }
    ensures memory { IfErr result (λ e. e ≡ ServeFault.Memory) }
{
    let small = small_of(alloc, observed, entry, most)?;
    match write_observed(alloc, &small) {
        Ok(text) => Ok(text),
        Err(_) => Err(ServeFault::Memory),
    }
}

/// The text of a history that is stuck at the return of this entry.
fn text_of_stuck(
    alloc: Global,
    asked: Explaining,
    observed: &Observed,
    entry: usize,
) -> Result<Vec<u8>, ServeFault>
    requires observed { IsObserved observed.now }
    requires stuck { IsStuck observed.now entry }
    ensures text { IfOk result (λ text. IsStuckText asked.shown observed.now asked.most entry text.items) }
    ensures memory { IfErr result (λ e. e ≡ ServeFault.Memory) }
{
    match asked.shown {
        Shown::Entry => entry_text(alloc, entry),
        Shown::Small => small_text(alloc, observed, entry, asked.most),
    }
}

/// The line of what was found.
pub(crate) fn line_of_finding(
    alloc: Global,
    asked: Explaining,
    observed: &Observed,
    finding: &Finding,
) -> Result<Line, ServeFault>
    requires found { IsFinding observed.now asked.most finding.now }
    requires made { IsLinearizedIfMade finding.now }
    ensures text { IfOk result (λ line. IsFindingText observed.now asked finding.now line.text.items) }
    ensures verdict { IfOk result (λ line. line.verdict ≡ finding_verdict finding.now) }
    ensures memory { IfErr result (λ e. e ≡ ServeFault.Memory) }
{
    match finding {
        Finding::Explained(record) => Ok(accepted(text_of_explained(alloc, asked.form, record)?)),
        Finding::Faulty(fault) => Ok(rejected(BadText(*fault).to_string(alloc)?.into_bytes())),
        Finding::Stuck(entry) => Ok(rejected(text_of_stuck(alloc, asked, observed, *entry)?)),
        Finding::StuckWithin(entry, _) | Finding::Undecided(entry) => {
            Ok(rejected(format!(in alloc; "undecided {entry}")?.into_bytes()))
        }
    }
}
