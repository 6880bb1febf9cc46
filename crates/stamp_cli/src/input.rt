//! The input of a command, read to its end.

ghost use Rattle.std.specs.Prelude.{◌≡◌, ◌-◌, ◌<◌, ◌≤◌, length, vec_len};
ghost use Rattle.std.specs.Prelude.{IfOk, OnOk};
ghost use Rattle.stamp_cli.specs.Results.{FailsWithARead, GivesAllTaken, IsReadOrMemoryFault, MakesAtMost};
ghost use Rattle.stamp_cli.specs.Results.{ReadsToTheEnd};
ghost use Rattle.stamp_cli.specs.inner.Results.{ReadsOnce};
ghost use Rattle.stamp_cli.specs.Source.{most_bytes, most_reads, most_taken, Reads, TakesAtMost};
ghost use Rattle.stamp_cli.specs.inner.Source.{ReadsMore};

use crate::faults::ServeFault;
use crate::sources::Source;
use std::alloc::{AllocError, Global};

/// The most bytes of an input.
pub const MOST_BYTES: usize = 16_777_216;

/// The most bytes of one read.
const CHUNK: usize = 65_536;

fn zeros(alloc: Global, count: usize) -> Result<Vec<u8>, AllocError>
    ensures { IfOk result (λ zeros. vec_len zeros ≡ count) }
{
    vec![in alloc; 0u8; count]
}

/// Appends what one read gives to the input. Whether there was any.
fn read_more<S: Source>(
    source: &mut S,
    chunk: &mut [u8],
    input: &mut Vec<u8>,
) -> Result<bool, ServeFault>
    requires room { 0 < length chunk.old }
    requires within { vec_len input.old ≤ most_bytes }
    ensures once { ReadsOnce (S.reads source.old) (S.reads source.new) (most_taken - vec_len input.old)
        (vec_len input.old) (vec_len input.new) result }
    ensures more { IfOk result (λ more. ReadsMore (S.left source.old) (S.left source.new)
        input.old.items input.new.items more) }
    ensures took { TakesAtMost (S.left source.old) (S.left source.new) (most_taken - vec_len input.old) }
    ensures only { IsReadOrMemoryFault result }
{
    let room = chunk.len().min(MOST_BYTES + 1 - input.len());
    let Ok(taken) = source.read(&mut chunk[..room]) else {
        return Err(ServeFault::ReadFault);
    };
    input.extend_from_slice(&chunk[..taken])?;
    Ok(taken > 0)
}

/// Reads the input to its end, or to one byte past the most, 16,777,216. There are at most
/// 16,777,217 reads, none after one that failed or took no byte. Errors: 1 `ReadFault` exactly
/// where a read answered one, and 5 `Memory`. What was read is gone after either.
pub fn read_input<S: Source>(alloc: Global, source: &mut S) -> Result<Vec<u8>, ServeFault>
    ensures reads { MakesAtMost (S.reads source.old) (S.reads source.new) most_reads most_taken }
    ensures took { TakesAtMost (S.left source.old) (S.left source.new) most_taken }
    ensures read { IfOk result (λ input. Reads (S.left source.old) (S.left source.new) input.items) }
    ensures whole { GivesAllTaken (S.reads source.old) (S.reads source.new) result }
    ensures ends { OnOk result (ReadsToTheEnd (S.reads source.old) (S.reads source.new) most_taken) }
    ensures failed { FailsWithARead ServeFault.ReadFault (S.reads source.old) (S.reads source.new) result }
    ensures only { IsReadOrMemoryFault result }
{
    let mut input = Vec::new(alloc);
    let mut chunk = zeros(alloc, CHUNK)?;
    while input.len() <= MOST_BYTES {
        if !read_more(source, &mut chunk, &mut input)? {
            return Ok(input);
        }
    }
    Ok(input)
}
