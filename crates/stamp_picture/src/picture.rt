//! The picture of a recorded history.
ghost use Rattle.std.specs.Prelude.{◌≡◌, ◌≤◌, ◌<◌, ◌+◌, [], length, take, IfOk, IfErr, IsOk, count_by, slice_get, Some, All};
ghost use Rattle.stamp_core.specs.Record.{IsRecorded};
ghost use Rattle.stamp_picture.specs.Bars.{bars_of};
ghost use Rattle.stamp_picture.specs.Moment.{moments_of, opening_state};
ghost use Rattle.stamp_picture.specs.inner.Track.{IsTrack};
ghost use Rattle.stamp_picture.specs.Window.{meets};
ghost use Rattle.stamp_picture.specs.Picture.{IsJudged, IsPicture, IsRefused, right_in, drawn_in, most_bars};

use crate::bar::Bar;
use crate::state::{Moment, State};
use crate::track::Track;
use crate::window::Window;
use stamp_check::{Bad, check};
use stamp_core::{Call, Entry, Limits, Record, Reply};
use std::alloc::{AllocError, Global};
use std::error::Error;
use std::fmt;
use std::marker::Model;

/// The most bars of a picture.
pub const MOST_BARS: usize = 2_000;

/// A bad verdict, with the call of that entry and what was due to it.
#[derive(Clone, Copy, Debug, PartialEq, Eq)]
pub struct Fault {
    /// The entry, and what it breaks.
    pub bad: Bad,
    /// What that entry called.
    pub call: Call,
    /// What lock or record would have answered its call after the entries before it; nothing where
    /// the call would have waited.
    pub due: Option<Reply>,
}

/// Why there is no picture.
#[derive(Clone, Copy, Debug, PartialEq, Eq)]
pub enum PictureError {
    /// 1: an allocation was refused.
    Memory,
    /// 2: there would be so many bars, more than 2,000.
    TooMany(u64),
}

impl fmt::Display for PictureError {
    ghost use Rattle.std.specs.Prelude.{Some};
    ghost use Rattle.stamp_picture.specs.Picture.{error_text};

    ghost output = { λ e. Some (error_text e) };

    fn fmt<W: fmt::Write>(&self, f: &mut fmt::Formatter<W>) -> fmt::Result {
        match self {
            PictureError::Memory => write!(f, "out of memory"),
            PictureError::TooMany(count) => write!(f, "{count} entries to draw, of at most 2000"),
        }
    }
}

impl Error for PictureError {}

impl From<AllocError> for PictureError {
    ghost use Rattle.stamp_picture.specs.declared.picture.PictureError.TheVariants.{Memory};

    ghost from_gives = { λ _ e. e ≡ Memory };

    fn from(_refused: AllocError) -> PictureError {
        PictureError::Memory
    }
}

/// A history as it is drawn, as far as a window shows it. It has the verdict, a bar for each entry
/// up to the first fault, and what lock and record were after each point before that.
#[derive(Drop)]
pub struct Picture {
    verdict: Result<u64, Fault>,
    bars: Vec<Bar>,
    opening: State,
    ribbon: Vec<Moment>,
}

impl Model for Picture {
    ghost use Rattle.stamp_picture.specs.Picture.{Drawn};

    ghost Value = { Drawn };

    ghost view = { λ p. record {
      verdict = p.verdict;
      bars = p.bars.items;
      opening = p.opening;
      ribbon = p.ribbon.items;
    } };
}

impl Picture {
    /// How many entries the history has, or its first fault.
    pub fn verdict(&self) -> &Result<u64, Fault>
        ensures { result.now ≡ self.now.verdict }
    {
        &self.verdict
    }

    /// The bars, in the order of the entries. The faulty entry's is among them, if the window shows it.
    pub fn bars(&self) -> &[Bar]
        ensures { result.now ≡ self.now.bars }
    {
        self.bars.as_slice()
    }

    /// What lock and record were where the window begins.
    pub fn opening(&self) -> State
        ensures { result ≡ self.now.opening }
    {
        self.opening
    }

    /// What lock and record were after each point in the window.
    pub fn ribbon(&self) -> &[Moment]
        ensures { result.now ≡ self.now.ribbon }
    {
        self.ribbon.as_slice()
    }
}

fn track_after(limits: Limits, width: u64, entries: &[Entry]) -> Track
    requires { width ≤ 16 }
    ensures { IsTrack limits width entries.now result }
{
    let mut track = Track::start(limits, width);
    for entry in entries {
        track.advance(limits, entry);
    }
    track
}

/// The verdict of a check on a history: how many entries it has, or its first fault, with that
/// entry's call and what was due to it.
pub fn judged(history: &Record) -> Result<u64, Fault>
    ensures judged { IsJudged history.now result }
    ensures drawn { drawn_in result ≤ length history.now.entries }
    ensures right { right_in result ≤ drawn_in result }
{
    let bad = match check(history) {
        Ok(count) => return Ok(count),
        Err(bad) => bad,
    };
    let entries = history.entries();
    let limits = history.limits();
    let at = bad.entry as usize;
    let track = track_after(limits, history.width(), &entries[..at]);
    let call = entries[at].call;
    Err(Fault {
        bad,
        call,
        due: track.answer(limits, &call),
    })
}

fn shown_in(entries: &[Entry], window: Window) -> usize
    ensures { result ≡ count_by (meets window) entries.now }
{
    entries.iter().filter(|entry| window.meets(entry)).count()
}

fn bars_of(alloc: Global, entries: &[Entry], window: Window) -> Result<Vec<Bar>, AllocError>
    ensures { IfOk result (λ bars. bars.items ≡ bars_of window entries.now) }
{
    let mut bars = Vec::new(alloc);
    for (number, entry) in entries.iter().enumerate() {
        if window.meets(entry) {
            bars.push(Bar::of(window, number as u64, entry))?;
        }
    }
    Ok(bars)
}

/// The state where the window begins, and the moments in it.
fn ribbon_of(
    alloc: Global,
    limits: Limits,
    width: u64,
    entries: &[Entry],
    window: Window,
) -> Result<(State, Vec<Moment>), AllocError>
    requires { width ≤ 16 }
    ensures opening { IfOk result (λ made. made.0 ≡ opening_state limits width window entries.now) }
    ensures ribbon { IfOk result (λ made. made.1.items ≡ moments_of limits width window entries.now) }
{
    let mut track = Track::start(limits, width);
    let mut opening = track.state(limits, width);
    let mut ribbon = Vec::new(alloc);
    for entry in entries {
        track.advance(limits, entry);
        let state = track.state(limits, width);
        if window.is_after(entry.point) {
            opening = state;
        }
        if window.contains(entry.point) {
            ribbon.push(Moment {
                point: entry.point,
                state,
            })?;
        }
    }
    Ok((opening, ribbon))
}

/// How many entries are right, and how many are drawn.
fn counts_of(verdict: &Result<u64, Fault>) -> (usize, usize)
    requires { drawn_in verdict.now < 18446744073709551616 }
    ensures right { result.0 ≡ right_in verdict.now }
    ensures drawn { result.1 ≡ drawn_in verdict.now }
{
    match verdict {
        Ok(count) => (*count as usize, *count as usize),
        Err(fault) => (fault.bad.entry as usize, fault.bad.entry as usize + 1),
    }
}

/// Makes the picture of the part of a history that the window shows. Of a right history it shows
/// all entries, of a bad one those up to and with its first fault. Refused are more than 2,000
/// bars, as 2 `TooMany`, and want of memory, as 1 `Memory`; a refusal leaves nothing.
pub fn picture_of(alloc: Global, history: &Record, window: Window) -> Result<Picture, PictureError>
    ensures ok { IfOk result (λ picture. IsPicture history.now window picture) }
    ensures few { IfOk result (λ picture. length picture.bars ≤ most_bars) }
    ensures lanes { IfOk result (λ picture. All (λ bar. bar.lane < 64) picture.bars) }
    ensures refused { IfErr result (λ e. IsRefused history.now window e) }
{
    let entries = history.entries();
    let verdict = judged(history);
    let (right, drawn) = counts_of(&verdict);
    let shown = shown_in(&entries[..drawn], window);
    if shown > MOST_BARS {
        return Err(PictureError::TooMany(shown as u64));
    }
    let bars = bars_of(alloc, &entries[..drawn], window)?;
    let (limits, width) = (history.limits(), history.width());
    let (opening, ribbon) = ribbon_of(alloc, limits, width, &entries[..right], window)?;
    Ok(Picture {
        verdict,
        bars,
        opening,
        ribbon,
    })
}
