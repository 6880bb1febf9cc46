//! The picture that answers an order.

ghost use Rattle.std.specs.Prelude.{◌≡◌, ◌≢◌, ◌≤◌, ◌<◌, false, length, All, IfOk, IfErr, Ok, Err};
ghost use Rattle.stamp_picture.specs.Picture.{most_bars};
ghost use Rattle.stamp_cli.specs.Results.{taken_since};
ghost use Rattle.stamp_cli.specs.Serving.{HasRead};
ghost use Rattle.stamp_cli.specs.Source.{most_reads, most_taken};
ghost use Rattle.stamp_cli.specs.declared.faults.ServeFault.TheVariants.{Memory, ReadFault, WriteFault};
ghost use Rattle.stamped_picture.specs.declared.faults.PictureFault.TheVariants.{Serve};
ghost use Rattle.stamped_picture.specs.Answer.{IsSvg, IsDrawnAs, IsDrawnText};
ghost use Rattle.stamped_picture.specs.Answer.{AnswersSource, IsPictureAnswer, IsRefused, drawing_in, verdict_in};
ghost use Rattle.stamped_picture.specs.inner.Answer.{IsUndrawn, is_of_end};

use crate::faults::PictureFault;
use crate::orders::{PictureFormat, PictureOrder};
use stamp_cli::{MOST_BYTES, ServeFault, Source, Verdict, read_input};
use stamp_core::Record;
use stamp_history::read_history;
use stamp_picture::{Fault, Picture, picture_of, sheet_of, svg_of, text_of};
use std::alloc::{AllocError, Global};

/// The picture that answers an order.
#[derive(Drop)]
pub(crate) struct Drawing {
    /// The picture, as SVG or in characters.
    pub(crate) text: Vec<u8>,
    /// What it says of the history.
    pub(crate) verdict: Verdict,
}

pub(crate) fn verdict_of(verdict: &Result<u64, Fault>) -> Verdict
    ensures { result ≡ verdict_in verdict.now }
{
    match verdict {
        Ok(_) => Verdict::Accepted,
        Err(_) => Verdict::Bad,
    }
}

/// The boxes of a picture, as SVG.
fn svg_drawn(alloc: Global, style: &str, picture: &Picture) -> Result<Vec<u8>, AllocError>
    requires few { length picture.now.bars ≤ most_bars }
    requires lanes { All (λ bar. bar.lane < 64) picture.now.bars }
    ensures { IfOk result (λ text. IsSvg style.now picture.now text.items) }
{
    let sheet = sheet_of(alloc, picture)?;
    let text = svg_of(alloc, style, &sheet)?;
    Ok(text)
}

/// The text of a picture.
#[tactic(auto, unfolding(crate::specs::Answer::IsDrawnAs))]
fn drawn_as(
    alloc: Global,
    format: PictureFormat,
    style: &str,
    picture: &Picture,
) -> Result<Vec<u8>, AllocError>
    requires few { length picture.now.bars ≤ most_bars }
    requires lanes { All (λ bar. bar.lane < 64) picture.now.bars }
    ensures { IfOk result (λ text. IsDrawnAs format style.now picture.now text.items) }
{
    match format {
        PictureFormat::Svg => svg_drawn(alloc, style, picture),
        PictureFormat::Text(width) => text_of(alloc, picture, width as usize),
    }
}

/// The picture of a history.
fn drawing_of(
    alloc: Global,
    order: PictureOrder,
    style: &str,
    history: &Record,
) -> Result<Drawing, PictureFault>
    ensures drawn { IfOk result (λ drawing. IsDrawnText style.now order history.now (drawing_in drawing)) }
    ensures undrawn { IfErr result (λ e. e ≢ Serve Memory → IsUndrawn order.window history.now e) }
{
    let picture = picture_of(alloc, history, order.window)?;
    Ok(Drawing {
        text: drawn_as(alloc, order.format, style, &picture)?,
        verdict: verdict_of(picture.verdict()),
    })
}

/// The picture of the history that the input is. What is no history is refused as a check refuses it.
#[tactic(auto, using(stamp_cli::proofs::Refusals::inner))]
fn answer(
    alloc: Global,
    order: PictureOrder,
    style: &str,
    input: &[u8],
) -> Result<Drawing, PictureFault>
    ensures drawn { IfOk result (λ drawing. IsPictureAnswer style.now order input.now (drawing_in drawing)) }
    ensures refused { IfErr result (λ e. e ≢ Serve Memory → IsRefused order.window input.now e) }
    ensures inner { IfErr result (λ e. is_of_end e ≡ false) }
{
    if input.is_empty() {
        return Err(PictureFault::NoInput);
    }
    if input.len() > MOST_BYTES {
        return Err(PictureFault::Serve(ServeFault::TooLong));
    }
    let history = read_history(alloc, input)?;
    drawing_of(alloc, order, style, &history)
}

/// The picture of the history that the source gives.
pub(crate) fn drawing_from<S: Source>(
    alloc: Global,
    order: PictureOrder,
    style: &str,
    source: &mut S,
) -> Result<Drawing, PictureFault>
    ensures reads { HasRead (Serve ReadFault) (Serve Memory) (S.left source.old) (S.left source.new)
        (S.reads source.old) (S.reads source.new) most_reads most_taken result }
    ensures ok { IfOk result (λ drawing. AnswersSource style.now order (S.left source.old) (S.left source.new)
        (taken_since (S.reads source.old) (S.reads source.new)) (Ok (drawing_in drawing))) }
    ensures err { IfErr result (λ e. e ≢ Serve ReadFault → e ≢ Serve Memory
        → AnswersSource style.now order (S.left source.old) (S.left source.new)
        (taken_since (S.reads source.old) (S.reads source.new)) (Err e)) }
    ensures not_written { result ≢ Err (Serve WriteFault) }
{
    let input = read_input(alloc, source)?;
    answer(alloc, order, style, &input)
}
