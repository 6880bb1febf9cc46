//! An observed history from the bytes that come in to the line that goes out.

ghost use Rattle.stamp_cli.specs.Results.{taken_since};
ghost use Rattle.stamp_cli.specs.Serving.{HasRead, HasWritten, WritesAnswer, RefusesAsDue, WritesFront};
ghost use Rattle.stamp_cli.specs.Shell.{HasServed};
ghost use Rattle.stamp_cli.specs.Source.{most_reads, most_taken};
ghost use Rattle.stamp_cli.specs.declared.faults.ServeFault.TheVariants.{Memory, ReadFault, WriteFault};
ghost use Rattle.stamped_explain.specs.declared.faults.ExplainFault.TheVariants.{Serve};
ghost use Rattle.stamped_explain.specs.Answer.{AnswersSource, AreVerdictAndNoteOf, line_with_feed};
ghost use Rattle.stamped_explain.specs.Served.{IsAnsweredBy};

use crate::answer::{LineAndNote, VerdictAndNote, line_and_note_of};
use crate::faults::ExplainFault;
use crate::orders::Explaining;
use stamp_cli::{Answered, Line, Sink, Source, write_text};
use std::alloc::Global;

/// Explains the observed history that it reads of the source, and writes one line of that. The line
/// is the recorded history found, or, if a judgement is asked for, that a check accepts this; or the
/// first fault of what can't have been observed; or the return at which no order explains it, or at
/// which that isn't known. Or it says why there is no line. Of a history that no order explains it
/// answers a line for standard error: where it is stuck, what the call answered, and all that it could
/// have answered, or that this is undecided; elsewhere, that none explains it. If that is asked for, it
/// answers one of a history that is explained, too: what its calls tried. At most `most` positions of the
/// lock, and of the record, are kept. It reads, writes and refuses as `serve` of `stamp_cli` does for a
/// check: of at most 16,777,216 bytes, and what was read is gone also after a refusal. But that nothing
/// came in is a fault of its own.
pub fn serve_explanation<S: Source, K: Sink>(
    alloc: Global,
    asked: Explaining,
    source: &mut S,
    sink: &mut K,
) -> Result<VerdictAndNote, ExplainFault>
    // However it ends, there are no more reads than these, and they take no more bytes than these.
    ensures reads { HasRead (Serve ReadFault) (Serve Memory) (S.left source.old) (S.left source.new)
        (S.reads source.old) (S.reads source.new) most_reads most_taken result }

    // The answer to all that was read is written with a line feed, and nothing else; the verdict and the note
    // are its.
    ensures ok { WritesAnswer (AnswersSource asked (S.left source.old) (S.left source.new)
        (taken_since (S.reads source.old) (S.reads source.new))) AreVerdictAndNoteOf line_with_feed
        (K.sent sink.old) (K.sent sink.new) (K.writes sink.old) (K.writes sink.new) result }

    // All that was read is refused so.
    ensures refused { RefusesAsDue (Serve ReadFault) (Serve WriteFault) (Serve Memory)
        (AnswersSource asked (S.left source.old) (S.left source.new)
        (taken_since (S.reads source.old) (S.reads source.new))) result }

    // A write that failed leaves a front of the line and is the last, and no other refusal writes.
    ensures writes { HasWritten (Serve WriteFault) (K.sent sink.old) (K.sent sink.new)
        (K.writes sink.old) (K.writes sink.new) result }
    ensures front { WritesFront (Serve WriteFault) (AnswersSource asked (S.left source.old) (S.left source.new)
        (taken_since (S.reads source.old) (S.reads source.new))) line_with_feed
        (K.sent sink.old) (K.sent sink.new) (K.writes sink.old) (K.writes sink.new) result }
{
    let LineAndNote { line, note } = line_and_note_of(alloc, asked, source)?;
    let Line { mut text, verdict } = line;
    text.push(b'\n')?;
    write_text(sink, &text)?;
    Ok(VerdictAndNote { verdict, note })
}

/// Serves an explanation, as `serve_explanation` does, and answers what the shell of a program has to tell.
pub(crate) fn serve_asked<S: Source, K: Sink>(
    alloc: Global,
    asked: Explaining,
    source: &mut S,
    sink: &mut K,
) -> Result<Answered, ExplainFault>
    ensures { HasServed (Serve ReadFault) (Serve WriteFault) (Serve Memory) (AnswersSource asked) IsAnsweredBy
        line_with_feed most_reads most_taken
        (record { left = S.left source.old; reads = S.reads source.old; sent = K.sent sink.old; writes = K.writes sink.old })
        (record { left = S.left source.new; reads = S.reads source.new; sent = K.sent sink.new; writes = K.writes sink.new })
        result }
{
    let VerdictAndNote { verdict, note } = serve_explanation(alloc, asked, source, sink)?;
    Ok(Answered {
        verdict,
        note,
        no_witness: None,
    })
}
