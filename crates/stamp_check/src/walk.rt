//! The walk over a history.
ghost use Rattle.std.specs.Prelude.{◌≡◌, ◌<◌, ◌≤◌, ◌↔◌, [], length, IsTrue};
ghost use Rattle.stamp_core.specs.Linearized.{HasPointInside};
ghost use Rattle.stamp_core.specs.Word.{IsAdmitted, word_at};
ghost use Rattle.stamp_core.specs.Content.{zeros};
ghost use Rattle.stamp_check.specs.inner.Walk.{IsAbove, IsWalk, Advances};

use crate::checking::Why;
use crate::going_on::{lock_goes_on, record_goes_on};
use stamp_core::{Entry, Limits, Word, Words};

/// What is kept of the entries so far.
#[derive(Drop)]
pub(crate) struct Walk {
    /// The number of the lock's word.
    pub(crate) bits: u64,
    /// What the record holds; one zero where there is no record.
    pub(crate) content: Words,
    /// The point of the last entry; `None` before the first.
    pub(crate) point: Option<u64>,
    /// For each thread the last position of its last entry; `None` where it has none.
    pub(crate) lasts: [Option<u64>; 64],
}

/// The point lies in the interval.
fn has_point_inside(entry: &Entry) -> bool
    ensures { IsTrue result ↔ HasPointInside entry.now }
{
    entry.first <= entry.point && entry.point <= entry.last
}

fn is_above(before: Option<u64>, n: u64) -> bool
    ensures { IsTrue result ↔ IsAbove before n }
{
    match before {
        None => true,
        Some(b) => b < n,
    }
}

/// What a record of this width holds at first: zeros. It is one zero where there is no record, and
/// for a width above 16, which no record has; that is by the code alone, and no contract says it.
pub fn first_content(width: u64) -> Words
    ensures { 0 < width → width ≤ 16 → result ≡ zeros width }
{
    if width == 0 || width > 16 {
        Words::zeros(1)
    } else {
        Words::zeros(width as usize)
    }
}

impl Walk {
    /// Before the first entry.
    pub(crate) fn start(limits: Limits, width: u64) -> Walk
        ensures { width ≤ 16 → IsWalk limits width [] result }
    {
        Walk {
            bits: Word::opening_in(limits.layout()).bits(),
            content: first_content(width),
            point: None,
            lasts: [None; 64],
        }
    }

    /// One entry more, or what it breaks first.
    pub(crate) fn advance(&mut self, limits: Limits, entry: &Entry) -> Option<Why>
        requires admitted { IsAdmitted limits (word_at limits self.old.bits) }
        requires thread { entry.now.thread < 64 }
        requires threads { length self.old.lasts ≡ 64 }
        ensures { Advances limits entry.now self.old self.new result }
    {
        if !has_point_inside(entry) {
            return Some(Why::Interval);
        }
        if !is_above(self.point, entry.point) {
            return Some(Why::Order);
        }
        let thread = entry.thread as usize;
        if !is_above(self.lasts[thread], entry.first) {
            return Some(Why::Overlap);
        }
        if entry.call.is_lock_call() {
            let Some(bits) = lock_goes_on(limits, self.bits, &entry.call, &entry.reply) else {
                return Some(Why::Reply);
            };
            self.bits = bits;
        } else {
            let Some(content) = record_goes_on(&self.content, &entry.call, &entry.reply) else {
                return Some(Why::Reply);
            };
            self.content = content;
        }
        self.point = Some(entry.point);
        self.lasts[thread] = Some(entry.last);
        None
    }
}
