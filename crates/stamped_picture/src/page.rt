//! The page that answers an input: what stands before its data, the data, and what stands behind.

ghost use Rattle.std.specs.Prelude.{◌≡◌, ◌≢◌, ◌++◌, false, IfOk, IfErr, IsOkUnless, Ok, Err};
ghost use Rattle.stamp_cli.specs.Answer.{IsInputAnswer};
ghost use Rattle.stamp_cli.specs.inner.Refusal as refusal;
ghost use Rattle.stamp_cli.specs.Results.{taken_since};
ghost use Rattle.stamp_cli.specs.Serving.{HasRead};
ghost use Rattle.stamp_cli.specs.Source.{most_reads, most_taken};
ghost use Rattle.stamp_cli.specs.declared.faults.ServeFault.TheVariants.{Memory, ReadFault, WriteFault};
ghost use Rattle.stamp_observed.specs.Suited.{AreSuited};
ghost use Rattle.stamped_picture.specs.declared.faults.PictureFault.TheVariants.{Serve};
ghost use Rattle.stamped_picture.specs.Answer.{drawing_in};
ghost use Rattle.stamped_picture.specs.Page.{AnswersPage, AnswersPageInput, AnswersPageSource, IsObservedPage, IsRecordedPage};
ghost use Rattle.stamped_picture.specs.Page.{explanation_verdict, is_at_first_entry, is_first_entry};
ghost use Rattle.stamped_picture.specs.inner.Answer.{is_of_end};
ghost use Rattle.stamped_picture.specs.inner.Page.{HoldsUnlessMemory, HoldsOfInputUnlessMemory};

use crate::answer::{Drawing, verdict_of};
use crate::explanation::{Explanation, explanation_of};
use crate::faults::PictureFault;
use crate::page_data::{push_observed, push_recorded};
use stamp_cli::{ServeFault, Source, Verdict, read_input, within};
use stamp_core::Record;
use stamp_explain::Observed;
use stamp_history::{Field, ReadError, push_text, read_history};
use stamp_observed::read_observed;
use stamp_picture::judged;
use std::alloc::Global;

fn explanation_verdict(found: &Explanation) -> Verdict
    ensures { result ≡ explanation_verdict found.now }
{
    match found {
        Explanation::Explained(_) => Verdict::Accepted,
        Explanation::Faulty(_) => Verdict::Bad,
        Explanation::Stuck(_) => Verdict::Bad,
        Explanation::StuckWithin(_, _) => Verdict::Bad,
        Explanation::Undecided(_) => Verdict::Bad,
    }
}

/// The page of a recorded history.
fn recorded_page(
    alloc: Global,
    head: &str,
    tail: &str,
    history: &Record,
) -> Result<Drawing, ServeFault>
    ensures page { IfOk result (λ page. IsRecordedPage head.now tail.now history.now (drawing_in page)) }
    ensures memory { IsOkUnless result ServeFault.Memory }
{
    let verdict = judged(history);
    let mut text = Vec::new(alloc);
    push_text(&mut text, head)?;
    push_recorded(alloc, &mut text, history, &verdict)?;
    push_text(&mut text, tail)?;
    Ok(Drawing {
        text,
        verdict: verdict_of(&verdict),
    })
}

/// The page of an observed history. At most `most` positions of the lock, and of the record, are kept.
fn observed_page(
    alloc: Global,
    most: u64,
    head: &str,
    tail: &str,
    observed: &Observed,
) -> Result<Drawing, ServeFault>
    requires { AreSuited observed.now }
    ensures page { IfOk result (λ page. IsObservedPage most head.now tail.now observed.now (drawing_in page)) }
    ensures memory { IsOkUnless result ServeFault.Memory }
{
    let found = explanation_of(alloc, observed, most)?;
    let mut text = Vec::new(alloc);
    push_text(&mut text, head)?;
    push_observed(alloc, &mut text, observed, &found)?;
    push_text(&mut text, tail)?;
    Ok(Drawing {
        text,
        verdict: explanation_verdict(&found),
    })
}

fn is_first_entry(field: Field) -> bool
    ensures { result ≡ is_first_entry field }
{
    match field {
        Field::Entry(number) => number == 0,
        _ => false,
    }
}

/// Whether a text is no recorded history since its first entry is none: so are all observed histories
/// that have an entry.
fn is_at_first_entry(error: ReadError) -> bool
    ensures { result ≡ is_at_first_entry error }
{
    match error {
        ReadError::NotHistory(field) => is_first_entry(field),
        _ => false,
    }
}

/// The page of what was read: of a recorded history, or else of an observed one.
#[tactic(auto, using(stamp_cli::proofs::Refusals::inner))]
fn page_on(
    alloc: Global,
    most: u64,
    head: &str,
    tail: &str,
    input: &[u8],
) -> Result<Drawing, ServeFault>
    ensures answer { HoldsUnlessMemory (IsInputAnswer (AnswersPage most head.now tail.now) input.now) result }
    ensures inner { IfErr result (λ e. refusal.is_of_end e ≡ false) }
{
    let input = within(input)?;
    let error = match read_history(alloc, input) {
        Ok(history) => return recorded_page(alloc, head, tail, &history),
        Err(error) => error,
    };
    if !is_at_first_entry(error) {
        return Err(ServeFault::from(error));
    }
    let observed = read_observed(alloc, input)?;
    observed_page(alloc, most, head, tail, &observed)
}

/// The same, unless nothing was read.
fn page_unless_empty(
    alloc: Global,
    most: u64,
    head: &str,
    tail: &str,
    input: &[u8],
) -> Result<Drawing, PictureFault>
    ensures answer { HoldsOfInputUnlessMemory (AnswersPageInput most head.now tail.now input.now) result }
    ensures inner { IfErr result (λ e. is_of_end e ≡ false) }
{
    if input.is_empty() {
        return Err(PictureFault::NoInput);
    }
    Ok(page_on(alloc, most, head, tail, input)?)
}

/// The page of the history that the source gives.
pub(crate) fn page_from<S: Source>(
    alloc: Global,
    most: u64,
    head: &str,
    tail: &str,
    source: &mut S,
) -> Result<Drawing, PictureFault>
    ensures reads { HasRead (Serve ReadFault) (Serve Memory) (S.left source.old) (S.left source.new)
        (S.reads source.old) (S.reads source.new) most_reads most_taken result }
    ensures ok { IfOk result (λ page. AnswersPageSource most head.now tail.now (S.left source.old) (S.left source.new)
        (taken_since (S.reads source.old) (S.reads source.new)) (Ok (drawing_in page))) }
    ensures err { IfErr result (λ e. e ≢ Serve ReadFault → e ≢ Serve Memory
        → AnswersPageSource most head.now tail.now (S.left source.old) (S.left source.new)
        (taken_since (S.reads source.old) (S.reads source.new)) (Err e)) }
    ensures not_written { result ≢ Err (Serve WriteFault) }
{
    let input = read_input(alloc, source)?;
    page_unless_empty(alloc, most, head, tail, &input)
}
