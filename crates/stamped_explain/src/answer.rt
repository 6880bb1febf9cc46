//! The line that answers an observed history, and the note beside it.

ghost use Rattle.std.specs.Prelude.{◌≡◌, ◌≢◌, false, IfOk, IfErr, Ok, Err};
ghost use Rattle.stamp_cli.specs.Answer.{IsInputAnswer};
ghost use Rattle.stamp_cli.specs.inner.Refusal as refusal;
ghost use Rattle.stamp_cli.specs.Results.{taken_since};
ghost use Rattle.stamp_cli.specs.Serving.{HasRead};
ghost use Rattle.stamp_cli.specs.Source.{most_reads, most_taken};
ghost use Rattle.stamp_cli.specs.declared.faults.ServeFault.TheVariants.{Memory, ReadFault, WriteFault};
ghost use Rattle.stamped_explain.specs.declared.faults.ExplainFault.TheVariants.{Serve};
ghost use Rattle.stamped_explain.specs.Answer.{AnswersSource, AnswersInput, AnswersExplain, view_in};
ghost use Rattle.stamped_explain.specs.inner.Answer.{HoldsUnlessMemory, HoldsOfInputUnlessMemory, is_of_end};

use crate::faults::ExplainFault;
use crate::finding::finding_of;
use crate::finding_text::line_of_finding;
use crate::note::note_of;
use crate::orders::Explaining;
use stamp_cli::{Line, ServeFault, Source, Verdict, read_input, within};
use stamp_observed::read_observed;
use std::alloc::{AllocError, Global};

/// The verdict of the line that was written, and the note for standard error.
#[derive(Drop)]
pub struct VerdictAndNote {
    /// What the line that was written says: `Bad` unless the history is explained.
    pub verdict: Verdict,
    /// The line for standard error, without its line feed: `Some` if no order explains the history, or one
    /// does and what its calls tried is to be told, else `None`. `Err` in place of `Some`: memory for the
    /// line was refused.
    pub note: Result<Option<String>, AllocError>,
}

/// The line that answers an observed history, and the note for standard error.
#[derive(Drop)]
pub(crate) struct LineAndNote {
    /// The line that answers.
    pub(crate) line: Line,
    /// The note, as in `VerdictAndNote`.
    pub(crate) note: Result<Option<String>, AllocError>,
}

/// The line that answers what was read, and the note.
#[tactic(auto, using(stamp_cli::proofs::Refusals::inner))]
fn line_and_note_on(
    alloc: Global,
    asked: Explaining,
    input: &[u8],
) -> Result<LineAndNote, ServeFault>
    ensures answer { HoldsUnlessMemory (IsInputAnswer (AnswersExplain asked) input.now) result }
    ensures inner { IfErr result (λ e. refusal.is_of_end e ≡ false) }
{
    let observed = read_observed(alloc, within(input)?)?;
    let finding = finding_of(alloc, &observed, asked.most)?;
    let line = line_of_finding(alloc, asked, &observed, &finding)?;
    let note = note_of(alloc, &observed, &finding, asked);
    Ok(LineAndNote { line, note })
}

/// The same, unless nothing was read.
fn line_and_note_unless_empty(
    alloc: Global,
    asked: Explaining,
    input: &[u8],
) -> Result<LineAndNote, ExplainFault>
    ensures answer { HoldsOfInputUnlessMemory (AnswersInput asked input.now) result }
    ensures inner { IfErr result (λ e. is_of_end e ≡ false) }
{
    if input.is_empty() {
        return Err(ExplainFault::NoInput);
    }
    Ok(line_and_note_on(alloc, asked, input)?)
}

/// The line that answers an observed history, without its line feed, and the note.
pub(crate) fn line_and_note_of<S: Source>(
    alloc: Global,
    asked: Explaining,
    source: &mut S,
) -> Result<LineAndNote, ExplainFault>
    ensures reads { HasRead (Serve ReadFault) (Serve Memory) (S.left source.old) (S.left source.new)
        (S.reads source.old) (S.reads source.new) most_reads most_taken result }
    ensures ok { IfOk result (λ answer. AnswersSource asked (S.left source.old) (S.left source.new)
        (taken_since (S.reads source.old) (S.reads source.new)) (Ok (view_in answer))) }
    ensures err { IfErr result (λ e. e ≢ Serve ReadFault → e ≢ Serve Memory
        → AnswersSource asked (S.left source.old) (S.left source.new)
        (taken_since (S.reads source.old) (S.reads source.new)) (Err e)) }
    ensures not_written { result ≢ Err (Serve WriteFault) }
{
    let input = read_input(alloc, source)?;
    line_and_note_unless_empty(alloc, asked, &input)
}
