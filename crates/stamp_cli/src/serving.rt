//! A command from the bytes that come in to the line that goes out.

ghost use Rattle.std.specs.Prelude.{◌≡◌, length, IfOk, IfErr, OnOk, OnErr, is_err};
ghost use Rattle.std.specs.Io.KnownBytes.{Appends};
ghost use Rattle.stamp_cli.specs.Results.{Makes, any_since, taken_since};
ghost use Rattle.stamp_cli.specs.Sink.{AppendsFront};
ghost use Rattle.stamp_cli.specs.TakesNone.{takes_none};
ghost use Rattle.stamp_cli.specs.Serving.{HasRead, HasWritten, WritesAnswer, RefusesAsDue, WritesFront};
ghost use Rattle.stamp_cli.specs.Answer.{AnswersSource, IsVerdictOf, most_reads_of, most_taken_of, with_line_feed};

use crate::answer::line_of_order;
use crate::faults::ServeFault;
use crate::line::{Line, Verdict};
use crate::orders::Order;
use crate::output::write_text;
use crate::sinks::Sink;
use crate::sources::Source;
use std::alloc::Global;

/// Answers the command: reads what it needs of the source and writes one line, or says why not.
/// What it returns is `Verdict::Bad` where the line says that a history is bad, and else
/// `Verdict::Accepted`. The source and the sink may have been used before, failed ones too.
/// 1 `ReadFault` comes exactly where a read answers an error, 6 `WriteFault` exactly where a write
/// does or takes no byte; in place of the other answers 5 `Memory` may come. After 6 a beginning of
/// the line may be out, and not all of it with its line feed; any other refusal writes nothing.
/// What was read of the source is gone also after a refusal, and after 1 and 5 nothing is said of
/// what is left. An input has at most 16,777,216 bytes (one more may be taken, which shows that it
/// is too long); the readings of `stamp_history` by themselves have no such limit. There are at
/// most 16,777,217 reads, none after one that failed or took no byte, and none for a stamp. Unless
/// it ends as 1 or 5, each other command reads to the end, or to that one byte more.
pub fn serve<S: Source, K: Sink>(
    alloc: Global,
    order: Order,
    source: &mut S,
    sink: &mut K,
) -> Result<Verdict, ServeFault>
    // However it ends, there are no more reads than these, and they take no more bytes than these.
    ensures reads { HasRead ServeFault.ReadFault ServeFault.Memory (S.left source.old) (S.left source.new)
        (S.reads source.old) (S.reads source.new) (most_reads_of order) (most_taken_of order) result }

    // The answer to all that was read is written with a line feed, and nothing else; the verdict is its.
    ensures ok { WritesAnswer (AnswersSource order (S.left source.old) (S.left source.new)
        (taken_since (S.reads source.old) (S.reads source.new))) IsVerdictOf with_line_feed
        (K.sent sink.old) (K.sent sink.new) (K.writes sink.old) (K.writes sink.new) result }

    // All that was read is refused so.
    ensures refused { RefusesAsDue ServeFault.ReadFault ServeFault.WriteFault ServeFault.Memory
        (AnswersSource order (S.left source.old) (S.left source.new)
        (taken_since (S.reads source.old) (S.reads source.new))) result }

    // A write that failed leaves a front of the line and is the last, and no other refusal writes.
    ensures writes { HasWritten ServeFault.WriteFault (K.sent sink.old) (K.sent sink.new)
        (K.writes sink.old) (K.writes sink.new) result }
    ensures front { WritesFront ServeFault.WriteFault (AnswersSource order (S.left source.old) (S.left source.new)
        (taken_since (S.reads source.old) (S.reads source.new))) with_line_feed
        (K.sent sink.old) (K.sent sink.new) (K.writes sink.old) (K.writes sink.new) result }
{
    let Line { mut text, verdict } = line_of_order(alloc, order, source)?;
    text.push(b'\n')?;
    write_text(sink, &text)?;
    Ok(verdict)
}

/// Answers a command that asks how the program is called: writes this text and nothing else, whatever
/// is left to be read, and accepts. Exactly where a write does or takes no byte it refuses, as 6
/// `WriteFault`, and a front of the text is out, not all.
pub fn serve_help<K: Sink>(help: &str, sink: &mut K) -> Result<Verdict, ServeFault>
    ensures ok { OnOk result (Appends (K.sent sink.old) (K.sent sink.new) help.now) }
    ensures whole { OnOk result (Makes (K.writes sink.old) (K.writes sink.new) (length help.now)) }
    ensures verdict { IfOk result (λ verdict. verdict ≡ Verdict.Accepted) }
    ensures front { OnErr result (AppendsFront (K.sent sink.old) (K.sent sink.new) help.now) }
    ensures err { IfErr result (λ e. e ≡ ServeFault.WriteFault) }
    ensures failed { any_since takes_none (K.writes sink.old) (K.writes sink.new) ≡ is_err result }
{
    write_text(sink, help.as_bytes())?;
    Ok(Verdict::Accepted)
}
