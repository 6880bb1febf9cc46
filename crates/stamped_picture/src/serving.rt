//! An order from the bytes that come in to the picture that goes out.

ghost use Rattle.stamp_cli.specs.Results.{taken_since};
ghost use Rattle.stamp_cli.specs.Source.{most_reads, most_taken};
ghost use Rattle.stamp_cli.specs.Shell.{HasServed};
ghost use Rattle.stamp_cli.specs.Serving.{HasRead, HasWritten, WritesAnswer, RefusesAsDue, WritesFront};
ghost use Rattle.stamp_cli.specs.declared.faults.ServeFault.TheVariants.{Memory, ReadFault, WriteFault};
ghost use Rattle.stamped_picture.specs.declared.faults.PictureFault.TheVariants.{Serve};
ghost use Rattle.stamped_picture.specs.Answer.{AnswersSource, IsVerdictOf, text_in};
ghost use Rattle.stamped_picture.specs.Page.{AnswersPageSource};
ghost use Rattle.stamped_picture.specs.Served.{IsAnsweredBy};

use crate::answer::drawing_from;
use crate::faults::PictureFault;
use crate::orders::PictureOrder;
use crate::page::page_from;
use stamp_cli::{Answered, Sink, Source, Verdict, write_text};
use std::alloc::Global;

/// Answers the order: reads all of the source and writes one picture, or says why not.
pub(crate) fn serve<S: Source, K: Sink>(
    alloc: Global,
    order: PictureOrder,
    style: &str,
    source: &mut S,
    sink: &mut K,
) -> Result<Verdict, PictureFault>
    // However it ends, there are no more reads than these, and they take no more bytes than these.
    ensures reads { HasRead (Serve ReadFault) (Serve Memory) (S.left source.old) (S.left source.new)
        (S.reads source.old) (S.reads source.new) most_reads most_taken result }

    // The picture of all that was read is written, and nothing else; the verdict is its.
    ensures ok { WritesAnswer (AnswersSource style.now order (S.left source.old) (S.left source.new)
        (taken_since (S.reads source.old) (S.reads source.new))) IsVerdictOf text_in
        (K.sent sink.old) (K.sent sink.new) (K.writes sink.old) (K.writes sink.new) result }

    // All that was read is refused so.
    ensures refused { RefusesAsDue (Serve ReadFault) (Serve WriteFault) (Serve Memory)
        (AnswersSource style.now order (S.left source.old) (S.left source.new)
        (taken_since (S.reads source.old) (S.reads source.new))) result }

    // A write that failed leaves a front of the picture and is the last, and no other refusal writes.
    ensures writes { HasWritten (Serve WriteFault) (K.sent sink.old) (K.sent sink.new)
        (K.writes sink.old) (K.writes sink.new) result }
    ensures front { WritesFront (Serve WriteFault)
        (AnswersSource style.now order (S.left source.old) (S.left source.new)
        (taken_since (S.reads source.old) (S.reads source.new))) text_in
        (K.sent sink.old) (K.sent sink.new) (K.writes sink.old) (K.writes sink.new) result }
{
    let drawing = drawing_from(alloc, order, style, source)?;
    write_text(sink, &drawing.text)?;
    Ok(drawing.verdict)
}

/// Answers a command that asks for a page: reads all of the source and writes one page, or says why not. At
/// most `most` positions of the lock, and of the record, are kept.
pub(crate) fn serve_page<S: Source, K: Sink>(
    alloc: Global,
    most: u64,
    head: &str,
    tail: &str,
    source: &mut S,
    sink: &mut K,
) -> Result<Verdict, PictureFault>
    // However it ends, there are no more reads than these, and they take no more bytes than these.
    ensures reads { HasRead (Serve ReadFault) (Serve Memory) (S.left source.old) (S.left source.new)
        (S.reads source.old) (S.reads source.new) most_reads most_taken result }

    // The page of all that was read is written, and nothing else; the verdict is its.
    ensures ok { WritesAnswer (AnswersPageSource most head.now tail.now (S.left source.old) (S.left source.new)
        (taken_since (S.reads source.old) (S.reads source.new))) IsVerdictOf text_in
        (K.sent sink.old) (K.sent sink.new) (K.writes sink.old) (K.writes sink.new) result }

    // All that was read is refused so.
    ensures refused { RefusesAsDue (Serve ReadFault) (Serve WriteFault) (Serve Memory)
        (AnswersPageSource most head.now tail.now (S.left source.old) (S.left source.new)
        (taken_since (S.reads source.old) (S.reads source.new))) result }

    // A write that failed leaves a front of the page and is the last, and no other refusal writes.
    ensures writes { HasWritten (Serve WriteFault) (K.sent sink.old) (K.sent sink.new)
        (K.writes sink.old) (K.writes sink.new) result }
    ensures front { WritesFront (Serve WriteFault)
        (AnswersPageSource most head.now tail.now (S.left source.old) (S.left source.new)
        (taken_since (S.reads source.old) (S.reads source.new))) text_in
        (K.sent sink.old) (K.sent sink.new) (K.writes sink.old) (K.writes sink.new) result }
{
    let page = page_from(alloc, most, head, tail, source)?;
    write_text(sink, &page.text)?;
    Ok(page.verdict)
}

/// Answers the order, as `serve` does, and what the shell of a program has to tell.
pub(crate) fn serve_drawing<S: Source, K: Sink>(
    alloc: Global,
    order: PictureOrder,
    style: &str,
    source: &mut S,
    sink: &mut K,
) -> Result<Answered, PictureFault>
    ensures { HasServed (Serve ReadFault) (Serve WriteFault) (Serve Memory) (AnswersSource style.now order) IsAnsweredBy
        text_in most_reads most_taken
        (record { left = S.left source.old; reads = S.reads source.old; sent = K.sent sink.old; writes = K.writes sink.old })
        (record { left = S.left source.new; reads = S.reads source.new; sent = K.sent sink.new; writes = K.writes sink.new })
        result }
{
    let verdict = serve(alloc, order, style, source, sink)?;
    Ok(Answered::alone(verdict))
}

/// Answers a command that asks for a page, as `serve_page` does, and what the shell of a program has to tell.
pub(crate) fn serve_asked_page<S: Source, K: Sink>(
    alloc: Global,
    most: u64,
    head: &str,
    tail: &str,
    source: &mut S,
    sink: &mut K,
) -> Result<Answered, PictureFault>
    ensures { HasServed (Serve ReadFault) (Serve WriteFault) (Serve Memory) (AnswersPageSource most head.now tail.now)
        IsAnsweredBy text_in most_reads most_taken
        (record { left = S.left source.old; reads = S.reads source.old; sent = K.sent sink.old; writes = K.writes sink.old })
        (record { left = S.left source.new; reads = S.reads source.new; sent = K.sent sink.new; writes = K.writes sink.new })
        result }
{
    let verdict = serve_page(alloc, most, head, tail, source, sink)?;
    Ok(Answered::alone(verdict))
}
