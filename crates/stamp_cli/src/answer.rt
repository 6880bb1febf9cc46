//! The line that answers a command.

ghost use Rattle.std.specs.Prelude.{◌≡◌, ◌≢◌, ◌<◌, ◌≤◌, length, false};
ghost use Rattle.std.specs.Prelude.{IfOk, IfErr, OnOk, Ok, Err};
ghost use Rattle.stamp_cli.specs.inner.Refusal.{is_of_end};
ghost use Rattle.stamp_cli.specs.Serving.{HasRead};
ghost use Rattle.stamp_cli.specs.Results.{FailsWithARead, GivesAllTaken, IsReadOrMemoryFault, MakesAtMost, ReadsToTheEnd, taken_since};
ghost use Rattle.stamp_cli.specs.Source.{TakesAtMost, most_bytes};
ghost use Rattle.stamp_cli.specs.Answer.{AnswersSource, AnswersOrder, AnswersCheck, AnswersMigrate, AnswersReplay};
ghost use Rattle.stamp_cli.specs.Answer.{AnswersReportedRun, AnswersRun};
ghost use Rattle.stamp_cli.specs.Answer.{OrderReads, line_in, most_reads_of, most_taken_of};
ghost use Rattle.stamp_cli.specs.inner.Answer.{LineUnlessMemory, UnlessMemory};

use crate::check_text::line_of_judgement;
use crate::faults::ServeFault;
use crate::input::{MOST_BYTES, read_input};
use crate::line::{Line, accepted};
use crate::orders::Order;
use crate::sources::Source;
use crate::stamp_text::text_of_stamp;
use stamp_core::Layout;
use stamp_history::{
    check, migrate, read_history, read_script, replay_text, write_history, write_run,
};
use stamp_machines::run_reported;
use std::alloc::Global;

/// The input, where it has at most 16,777,216 bytes. Errors: 2 `TooLong` where it has more.
pub fn within(input: &[u8]) -> Result<&[u8], ServeFault>
    ensures ok { IfOk result (λ bytes. (bytes.now ≡ input.now) × (length input.now ≤ most_bytes)) }
    ensures err { IfErr result (λ e. (e ≡ ServeFault.TooLong) × (most_bytes < length input.now)) }
{
    if input.len() > MOST_BYTES {
        return Err(ServeFault::TooLong);
    }
    Ok(input)
}

/// The replies to the calls of a replay, and the word that they leave.
#[tactic(auto, using(crate::proofs::Refusals::inner))]
fn text_of_replay(alloc: Global, input: &[u8]) -> Result<Vec<u8>, ServeFault>
    ensures answer { UnlessMemory (AnswersReplay input.now) result }
    ensures inner { IfErr result (λ e. is_of_end e ≡ false) }
{
    Ok(replay_text(alloc, input)?)
}

/// The history of the calls that a script finishes.
#[tactic(auto, using(crate::proofs::Refusals::inner))]
fn text_of_run(alloc: Global, input: &[u8]) -> Result<Vec<u8>, ServeFault>
    ensures answer { UnlessMemory (AnswersRun input.now) result }
    ensures inner { IfErr result (λ e. is_of_end e ≡ false) }
{
    let script = read_script(alloc, input)?;
    Ok(write_run(alloc, &script)?)
}

/// That history, with a report.
#[tactic(auto, using(crate::proofs::Refusals::inner))]
fn text_of_reported_run(alloc: Global, input: &[u8]) -> Result<Vec<u8>, ServeFault>
    ensures answer { UnlessMemory (AnswersReportedRun input.now) result }
    ensures inner { IfErr result (λ e. is_of_end e ≡ false) }
{
    let script = read_script(alloc, input)?;
    // A script has no more steps than a run can make, so that memory alone ends one early.
    let Ok(record) = run_reported(alloc, &script) else {
        return Err(ServeFault::Memory);
    };
    Ok(write_history(alloc, &record)?)
}

/// The judgement of a history.
#[tactic(auto, using(crate::proofs::Refusals::inner))]
fn line_of_check(alloc: Global, input: &[u8]) -> Result<Line, ServeFault>
    ensures answer { LineUnlessMemory (AnswersCheck input.now) result }
    ensures inner { IfErr result (λ e. is_of_end e ≡ false) }
{
    let history = read_history(alloc, input)?;
    Ok(line_of_judgement(alloc, check(&history))?)
}

/// A history in layout 2.
#[tactic(auto, using(crate::proofs::Refusals::inner))]
fn text_of_migration(alloc: Global, input: &[u8]) -> Result<Vec<u8>, ServeFault>
    ensures answer { UnlessMemory (AnswersMigrate input.now) result }
    ensures inner { IfErr result (λ e. is_of_end e ≡ false) }
{
    match migrate(read_history(alloc, input)?) {
        Ok(migrated) => Ok(write_history(alloc, &migrated)?),
        Err(bad) => Err(ServeFault::BadReply(bad.entry)),
    }
}

/// What the command reads of its source. A stamp makes no read.
fn input_of<S: Source>(alloc: Global, order: Order, source: &mut S) -> Result<Vec<u8>, ServeFault>
    ensures reads { MakesAtMost (S.reads source.old) (S.reads source.new) (most_reads_of order) (most_taken_of order) }
    ensures took { TakesAtMost (S.left source.old) (S.left source.new) (most_taken_of order) }
    ensures read { IfOk result (λ input. OrderReads order (S.left source.old) (S.left source.new) input.items) }
    ensures whole { GivesAllTaken (S.reads source.old) (S.reads source.new) result }
    ensures ends { OnOk result (ReadsToTheEnd (S.reads source.old) (S.reads source.new) (most_taken_of order)) }
    ensures failed { FailsWithARead ServeFault.ReadFault (S.reads source.old) (S.reads source.new) result }
    ensures only { IsReadOrMemoryFault result }
{
    match order {
        Order::Stamp(_) | Order::StampIn(_, _) => Ok(Vec::new(alloc)),
        Order::Replay | Order::Run | Order::RunReported | Order::Check | Order::Migrate => {
            read_input(alloc, source)
        }
    }
}

/// The line that answers the command on this input, whose length is not tested.
fn line_of_input(alloc: Global, order: Order, input: &[u8]) -> Result<Line, ServeFault>
    ensures answer { LineUnlessMemory (AnswersOrder order input.now) result }
    ensures inner { IfErr result (λ e. is_of_end e ≡ false) }
{
    let text = match order {
        Order::Replay => text_of_replay(alloc, input)?,
        Order::Run => text_of_run(alloc, input)?,
        Order::RunReported => text_of_reported_run(alloc, input)?,
        Order::Check => return line_of_check(alloc, input),
        Order::Migrate => text_of_migration(alloc, input)?,
        Order::Stamp(stamp) => text_of_stamp(alloc, Layout::One, stamp)?,
        Order::StampIn(layout, stamp) => text_of_stamp(alloc, layout, stamp)?,
    };
    Ok(accepted(text))
}

/// The line that answers the command on what it reads of the source, without its line feed.
pub(crate) fn line_of_order<S: Source>(
    alloc: Global,
    order: Order,
    source: &mut S,
) -> Result<Line, ServeFault>
    ensures reads { HasRead ServeFault.ReadFault ServeFault.Memory (S.left source.old) (S.left source.new)
        (S.reads source.old) (S.reads source.new) (most_reads_of order) (most_taken_of order) result }
    ensures ok { IfOk result (λ line. AnswersSource order (S.left source.old) (S.left source.new)
        (taken_since (S.reads source.old) (S.reads source.new)) (Ok (line_in line))) }
    ensures err { IfErr result (λ e. e ≢ ServeFault.ReadFault → e ≢ ServeFault.Memory
        → AnswersSource order (S.left source.old) (S.left source.new)
        (taken_since (S.reads source.old) (S.reads source.new)) (Err e)) }
    ensures not_written { result ≢ Err ServeFault.WriteFault }
{
    let input = input_of(alloc, order, source)?;
    line_of_input(alloc, order, within(&input)?)
}
