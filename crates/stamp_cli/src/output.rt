//! A text, written whole.

ghost use Rattle.std.specs.Prelude.{◌≡◌, ◌<◌, ◌≤◌, length, take, IfOk, IfErr, OnOk, OnErr, is_err};
ghost use Rattle.std.specs.Io.KnownBytes.{Appends, Keeps};
ghost use Rattle.stamp_cli.specs.Results.{Makes, MakesAtMost, any_since};
ghost use Rattle.stamp_cli.specs.inner.Results.{WritesOnce};
ghost use Rattle.stamp_cli.specs.Sink.{AppendsFront};
ghost use Rattle.stamp_cli.specs.TakesNone.{takes_none};

use crate::faults::ServeFault;
use crate::sinks::Sink;

/// How many of the bytes one write takes, of which there is at least one.
fn write_some<K: Sink>(sink: &mut K, bytes: &[u8]) -> Result<usize, ServeFault>
    requires { 0 < length bytes.now }
    ensures once { WritesOnce (K.writes sink.old) (K.writes sink.new) result }
    ensures taken { IfOk result (λ n. (0 < n) × (n ≤ length bytes.now)
        × Appends (K.sent sink.old) (K.sent sink.new) (take n bytes.now)) }
    ensures none { OnErr result (Keeps (K.sent sink.old) (K.sent sink.new)) }
    ensures err { IfErr result (λ e. e ≡ ServeFault.WriteFault) }
{
    match sink.write(bytes) {
        Err(_) => Err(ServeFault::WriteFault),
        Ok(taken) => {
            if taken == 0 {
                return Err(ServeFault::WriteFault);
            }
            Ok(taken)
        }
    }
}

/// Writes the text and nothing else, by writes that each take a byte. Exactly where one answers an
/// error or takes none it refuses, as 6 `WriteFault`, makes no more, and a front of the text is
/// out, not all.
pub fn write_text<K: Sink>(sink: &mut K, text: &[u8]) -> Result<(), ServeFault>
    ensures ok { OnOk result (Appends (K.sent sink.old) (K.sent sink.new) text.now) }
    ensures whole { OnOk result (Makes (K.writes sink.old) (K.writes sink.new) (length text.now)) }
    ensures front { OnErr result (AppendsFront (K.sent sink.old) (K.sent sink.new) text.now) }
    ensures err { IfErr result (λ e. e ≡ ServeFault.WriteFault) }
    ensures writes { MakesAtMost (K.writes sink.old) (K.writes sink.new) (length text.now) (length text.now) }
    ensures failed { any_since takes_none (K.writes sink.old) (K.writes sink.new) ≡ is_err result }
{
    let mut sent = 0;
    while sent < text.len() {
        sent += write_some(sink, &text[sent..])?;
    }
    Ok(())
}
