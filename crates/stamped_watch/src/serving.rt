//! A stream from the bytes that come in to the line that goes out.

ghost use Rattle.std.specs.Prelude.{◌≡◌, ◌<◌, ◌≤◌, ℕ, [], IfOk, List, None, OnErr, length, vec_len};
ghost use Rattle.stamp_cli.specs.Results.{IsReadOrMemoryFault};
ghost use Rattle.stamp_cli.specs.Serving.{HasWritten, RefusesAsDue, WritesAnswer, WritesFront};
ghost use Rattle.stamp_cli.specs.declared.faults.ServeFault.TheVariants.{Memory, ReadFault, WriteFault};
ghost use Rattle.stamped_watch.specs.Progress.{HasTold, IsNewTelling};
ghost use Rattle.stamped_watch.specs.StreamJudge.{EndsInStream, IsFed, KeepsCall, KeepsFed, KeepsFedSome};
ghost use Rattle.stamped_watch.specs.Served.{AnswersStream, HasReadOn, HasWatched, IsAnsweredBy, IsFoundOfSource, line_of};
ghost use Rattle.stamped_watch.specs.Witness.{HasShown};
ghost use Rattle.stamped_watch.specs.inner.Served.{KeepsAll};

use crate::finding::Finding;
use crate::finding_text::line_of_finding;
use crate::note::note_of;
use crate::orders::Watching;
use crate::stream_judge::StreamJudge;
use crate::telling::Telling;
use crate::witness::{NoWitness, Shown, lack_of};
use stamp_cli::{Answered, Line, ServeFault, Sink, Source, Verdict, write_text};
use std::alloc::{AllocError, Global};

/// The most bytes of one read.
const CHUNK: usize = 65_536;

fn zeros(alloc: Global) -> Result<Vec<u8>, AllocError>
    ensures { IfOk result (λ zeros. vec_len zeros ≡ 65536) }
{
    vec![in alloc; 0u8; CHUNK]
}

/// Feeds a new judge what the source gives, until something is found of it or it ends, and tells how far it is judged.
fn fed_from<S: Source, T: Sink>(
    source: &mut S,
    chunk: &mut [u8],
    judge: &mut StreamJudge,
    telling: &mut Telling,
    told: &mut T,
    asked: Watching,
) -> Result<Finding, ServeFault>
    requires room { 0 < length chunk.old }
    requires few { length chunk.old ≤ 65536 }
    requires new { IsFed asked.most asked.ahead [] judge.old }
    requires none { judge.old.found ≡ None }
    requires telling { IsNewTelling asked.progress telling.old }
    ensures reads { HasReadOn ReadFault (S.left source.old) (S.left source.new)
        (S.reads source.old) (S.reads source.new) result }
    ensures found { IfOk result (λ finding. IsFoundOfSource asked (S.left source.old) (S.left source.new)
        (S.reads source.old) (S.reads source.new) finding) }
    ensures only { IsReadOrMemoryFault result }
    ensures told { HasTold asked (S.left source.old) (S.left source.new) (S.reads source.old) (S.reads source.new)
        (T.sent told.old) (T.sent told.new) (T.writes told.old) (T.writes told.new) result }
    ensures keeps { IfOk result (KeepsAll asked.most asked.ahead (S.left source.old) (S.left source.new)
        (S.reads source.old) (S.reads source.new) judge.new) }
    ensures tells { IfOk result (KeepsCall judge.new.judge) }
{
    'source: loop {
        let Ok(taken) = source.read(chunk) else {
            return Err(ServeFault::ReadFault);
        };
        if taken == 0 {
            return Ok(judge.end()?);
        }
        if let Some(finding) = telling.feed(judge, &chunk[..taken], told)? {
            return Ok(finding);
        }
    }
}

/// Writes a witness of a stream that is stuck, if that is asked for and one is found, or tells why there is none. Where
/// a write fails nothing more is.
fn show_witness<W: Sink>(
    asked: Watching,
    finding: &Finding,
    judge: &StreamJudge,
    witness: &mut W,
) -> Result<Shown, NoWitness>
    requires keeps { KeepsFedSome judge.now }
    requires end { KeepsCall judge.now.judge finding.now }
    ensures { (fed : List ℕ) → KeepsFed asked.most asked.ahead fed judge.now → EndsInStream fed judge.now.judge finding.now
        → HasShown asked fed finding.now (record { sent = W.sent witness.old; writes = W.writes witness.old })
        (record { sent = W.sent witness.new; writes = W.writes witness.new }) result }
{
    if !asked.witness {
        return Ok(Shown::NotDue);
    }
    let Finding::Stuck(event) = finding else {
        return Ok(Shown::NotDue);
    };
    let text = judge.witness_at(*event, asked.most)?;
    let _ = write_text(witness, &text);
    Ok(Shown::Given)
}

/// What is answered of a stream beside the line that was written.
#[derive(Drop)]
pub struct Watched {
    /// What the line says: `Bad` unless the stream is explained.
    pub verdict: Verdict,
    /// The line for standard error, without its line feed: `Some` if the stream is stuck, unexplained, or not judged
    /// further for a call that began late. `Err` in place of `Some`: memory for the line was refused.
    pub note: Result<Option<String>, AllocError>,
    /// What was done for a witness, or why there is none.
    pub shown: Result<Shown, NoWitness>,
}

/// Serves the stream with this judge, which is new, as `serve_stream` says.
fn serve_with<S: Source, K: Sink, T: Sink, W: Sink>(
    alloc: Global,
    asked: Watching,
    source: &mut S,
    sink: &mut K,
    told: &mut T,
    witness: &mut W,
    judge: &mut StreamJudge,
) -> Result<Watched, ServeFault>
    requires new { IsFed asked.most asked.ahead [] judge.old }
    requires none { judge.old.found ≡ None }
    ensures reads { HasReadOn ReadFault (S.left source.old) (S.left source.new)
        (S.reads source.old) (S.reads source.new) result }
    ensures ok { WritesAnswer (AnswersStream asked (S.left source.old) (S.left source.new)
        (S.reads source.old) (S.reads source.new)) (IsAnsweredBy asked (S.left source.old)
        (S.left source.new) (S.reads source.old) (S.reads source.new)
        (record { sent = W.sent witness.old; writes = W.writes witness.old })
        (record { sent = W.sent witness.new; writes = W.writes witness.new })) line_of
        (K.sent sink.old) (K.sent sink.new) (K.writes sink.old) (K.writes sink.new) result }
    ensures refused { RefusesAsDue ReadFault WriteFault Memory (AnswersStream asked (S.left source.old)
        (S.left source.new) (S.reads source.old) (S.reads source.new)) result }
    ensures writes { HasWritten WriteFault (K.sent sink.old) (K.sent sink.new)
        (K.writes sink.old) (K.writes sink.new) result }
    ensures front { WritesFront WriteFault (AnswersStream asked (S.left source.old) (S.left source.new)
        (S.reads source.old) (S.reads source.new)) line_of
        (K.sent sink.old) (K.sent sink.new) (K.writes sink.old) (K.writes sink.new) result }
    ensures told { HasTold asked (S.left source.old) (S.left source.new) (S.reads source.old) (S.reads source.new)
        (T.sent told.old) (T.sent told.new) (T.writes told.old) (T.writes told.new) result }
    ensures silent { OnErr result (witness.new ≡ witness.old) }
{
    let mut telling = Telling::new(alloc, asked.progress);
    let mut chunk = zeros(alloc)?;
    let finding = fed_from(source, &mut chunk, judge, &mut telling, told, asked)?;
    let Line { mut text, verdict } = line_of_finding(alloc, &finding)?;
    text.push(b'\n')?;
    write_text(sink, &text)?;
    let note = note_of(alloc, asked, &finding, judge);
    let shown = show_witness(asked, &finding, judge, witness);
    Ok(Watched {
        verdict,
        note,
        shown,
    })
}

/// Judges the stream that it reads of the source, of any length, and writes one line of that. It reads on only while
/// all but the last events that came, at most 64 and twice those looked at ahead, are explained. What it answers
/// besides is for standard error: of a stream that is stuck which call ended there and which replies were possible, and
/// else why it is not judged further, if it is not; or that memory for this was refused. It refuses as 1 `ReadFault` exactly where a read answers an error,
/// as 6 `WriteFault` exactly where a write does or takes no byte, and as 5 `Memory`; what was read is gone also after a
/// refusal. If it is asked for, it tells on the way how far the stream is judged, by a line behind each 2^24 events. A
/// write of such a line that fails, or takes no byte, is the last of those, and changes nothing else.
/// If a witness is asked for, the text of one is written where the stream is stuck: an observed history, judged by
/// `judge_history`, that is stuck at the call which returned there. Or it answers why there is none. A write of it that fails
/// changes nothing else either.
pub fn serve_stream<S: Source, K: Sink, T: Sink, W: Sink>(
    alloc: Global,
    asked: Watching,
    source: &mut S,
    sink: &mut K,
    told: &mut T,
    witness: &mut W,
) -> Result<Watched, ServeFault>
    // However it ends, there is no read after one that took no byte.
    ensures reads { HasReadOn ReadFault (S.left source.old) (S.left source.new)
        (S.reads source.old) (S.reads source.new) result }

    // The line of what is found of all that was read is written, and nothing else. The verdict and the note are its, and
    // the witness that is due was written, or there is none.
    ensures ok { WritesAnswer (AnswersStream asked (S.left source.old) (S.left source.new)
        (S.reads source.old) (S.reads source.new)) (IsAnsweredBy asked (S.left source.old)
        (S.left source.new) (S.reads source.old) (S.reads source.new)
        (record { sent = W.sent witness.old; writes = W.writes witness.old })
        (record { sent = W.sent witness.new; writes = W.writes witness.new })) line_of
        (K.sent sink.old) (K.sent sink.new) (K.writes sink.old) (K.writes sink.new) result }

    // No stream is refused.
    ensures refused { RefusesAsDue ReadFault WriteFault Memory (AnswersStream asked (S.left source.old)
        (S.left source.new) (S.reads source.old) (S.reads source.new)) result }

    // A write that failed leaves a front of the line and is the last, and no other refusal writes.
    ensures writes { HasWritten WriteFault (K.sent sink.old) (K.sent sink.new)
        (K.writes sink.old) (K.writes sink.new) result }
    ensures front { WritesFront WriteFault (AnswersStream asked (S.left source.old) (S.left source.new)
        (S.reads source.old) (S.reads source.new)) line_of
        (K.sent sink.old) (K.sent sink.new) (K.writes sink.old) (K.writes sink.new) result }

    // The lines of how far it was judged are told, whatever is answered; where it was judged to the end, each of them.
    ensures told { HasTold asked (S.left source.old) (S.left source.new) (S.reads source.old) (S.reads source.new)
        (T.sent told.old) (T.sent told.new) (T.writes told.old) (T.writes told.new) result }

    // A refusal leaves the sink for a witness as it was.
    ensures silent { OnErr result (witness.new ≡ witness.old) }
{
    let mut judge = StreamJudge::new(alloc, asked.most, asked.ahead);
    serve_with(alloc, asked, source, sink, told, witness, &mut judge)
}

/// Serves a judgement, as `serve_stream` does, and answers what the shell of a program has to tell.
pub(crate) fn serve_asked<S: Source, K: Sink, T: Sink, W: Sink>(
    alloc: Global,
    asked: Watching,
    source: &mut S,
    sink: &mut K,
    told: &mut T,
    witness: &mut W,
) -> Result<Answered, ServeFault>
    ensures { HasWatched asked
        (record {
          ends = record { left = S.left source.old; reads = S.reads source.old; sent = K.sent sink.old; writes = K.writes sink.old };
          told = record { sent = T.sent told.old; writes = T.writes told.old };
          witness = record { sent = W.sent witness.old; writes = W.writes witness.old };
        })
        (record {
          ends = record { left = S.left source.new; reads = S.reads source.new; sent = K.sent sink.new; writes = K.writes sink.new };
          told = record { sent = T.sent told.new; writes = T.writes told.new };
          witness = record { sent = W.sent witness.new; writes = W.writes witness.new };
        })
        result }
{
    let Watched {
        verdict,
        note,
        shown,
    } = serve_stream(alloc, asked, source, sink, told, witness)?;
    Ok(Answered {
        verdict,
        note,
        no_witness: lack_of(&shown),
    })
}
