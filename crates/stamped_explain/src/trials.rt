//! What the calls of a recorded history tried, as a text.

ghost use Rattle.std.specs.Prelude.{◌≡◌, ◌||◌, ℕ, nat_le, Some, IfOk, length, string_bytes};
ghost use Rattle.stamped_explain.specs.Trials.{overlapping, is_zero, is_no, is_attempt, is_validation};
ghost use Rattle.stamped_explain.specs.Trials.{is_conversion, failed_attempts, failed_validations};
ghost use Rattle.stamped_explain.specs.Trials.{failed_conversions, overlap_text, failed_text, trials_text};
ghost use Rattle.stamped_explain.specs.inner.Trials.{is_by, is_until, AreFirstsBehind};

use stamp_core::{Call, Entry, Reply};
use std::alloc::{AllocError, Global};
use std::fmt;

/// The lesser position, where there is one before.
fn lesser(first: Option<u64>, other: u64) -> Option<u64>
    ensures { (at : ℕ) → is_by result at ≡ (is_by first at || nat_le other at) }
{
    match first {
        None => Some(other),
        Some(first) => Some(first.min(other)),
    }
}

/// The greater position, where there is one before.
fn greater(last: Option<u64>, other: u64) -> Option<u64>
    ensures { (at : ℕ) → is_until result at ≡ (is_until last at || nat_le at other) }
{
    match last {
        None => Some(other),
        Some(last) => Some(last.max(other)),
    }
}

/// Whether it is at most this.
fn begins_by(first: Option<u64>, at: u64) -> bool
    ensures { result ≡ is_by first at }
{
    match first {
        None => false,
        Some(first) => first <= at,
    }
}

/// Whether it is at least this.
fn lasts_until(last: Option<u64>, at: u64) -> bool
    ensures { result ≡ is_until last at }
{
    match last {
        None => false,
        Some(last) => at <= last,
    }
}

/// Whether the call lasts over these positions: the last one of those before it, or the first of those behind.
fn overlaps(last: Option<u64>, entry: &Entry, first: Option<u64>) -> bool
    ensures { result ≡ (is_until last entry.now.first || is_by first entry.now.last) }
{
    lasts_until(last, entry.first) || begins_by(first, entry.last)
}

/// For each call, the last one first, the least position at which one behind it began.
fn firsts_behind(alloc: Global, entries: &[Entry]) -> Result<Vec<Option<u64>>, AllocError>
    ensures each { IfOk result (λ firsts. AreFirstsBehind entries.now firsts.items) }
    ensures all { IfOk result (λ firsts. length firsts.items ≡ length entries.now) }
{
    let mut firsts = Vec::new(alloc);
    let mut first = None;
    for k in 0..entries.len() {
        firsts.push(first)?;
        first = lesser(first, entries[entries.len() - 1 - k].first);
    }
    Ok(firsts)
}

/// How many calls overlap another, listed as they took effect.
fn overlapping(alloc: Global, entries: &[Entry]) -> Result<usize, AllocError>
    ensures { IfOk result (λ count. count ≡ overlapping entries.now) }
{
    let firsts = firsts_behind(alloc, entries)?;
    let mut last = None;
    let mut count = 0;
    for (i, entry) in entries.iter().enumerate() {
        let first = firsts[entries.len() - 1 - i];
        if overlaps(last, entry, first) {
            count += 1;
        }
        last = greater(last, entry.last);
    }
    Ok(count)
}

fn is_attempt(call: &Call) -> bool
    ensures { result ≡ is_attempt call.now }
{
    matches!(call, Call::TryWrite | Call::TryRead | Call::Optimistic)
}

fn is_validation(call: &Call) -> bool
    ensures { result ≡ is_validation call.now }
{
    matches!(call, Call::Validate(_))
}

fn is_conversion(call: &Call) -> bool
    ensures { result ≡ is_conversion call.now }
{
    matches!(
        call,
        Call::ToWrite(_) | Call::ToRead(_) | Call::ToOptimistic(_)
    )
}

fn is_zero(reply: &Reply) -> bool
    ensures { result ≡ is_zero reply.now }
{
    match reply {
        Reply::Stamp(stamp) => *stamp == 0,
        _ => false,
    }
}

fn is_no(reply: &Reply) -> bool
    ensures { result ≡ is_no reply.now }
{
    matches!(reply, Reply::No)
}

fn failed_attempts(entries: &[Entry]) -> usize
    ensures { result ≡ failed_attempts entries.now }
{
    entries
        .iter()
        .filter(|entry| is_attempt(&entry.call) && is_zero(&entry.reply))
        .count()
}

fn failed_validations(entries: &[Entry]) -> usize
    ensures { result ≡ failed_validations entries.now }
{
    entries
        .iter()
        .filter(|entry| is_validation(&entry.call) && is_no(&entry.reply))
        .count()
}

fn failed_conversions(entries: &[Entry]) -> usize
    ensures { result ≡ failed_conversions entries.now }
{
    entries
        .iter()
        .filter(|entry| is_conversion(&entry.call) && is_zero(&entry.reply))
        .count()
}

/// How many calls of how many overlapped another.
#[derive(Drop)]
struct OverlapText(usize, usize);

impl fmt::Display for OverlapText {
    ghost output = { λ text. Some (overlap_text text.0 text.1) };

    fn fmt<W: fmt::Write>(&self, f: &mut fmt::Formatter<W>) -> fmt::Result {
        write!(
            f,
            "stamped_explain: {} of {} calls overlapped another",
            self.0, self.1
        )
    }
}

/// How many calls failed.
#[derive(Drop)]
struct FailedText(usize, usize, usize);

impl fmt::Display for FailedText {
    ghost output = { λ text. Some (failed_text text.0 text.1 text.2) };

    fn fmt<W: fmt::Write>(&self, f: &mut fmt::Formatter<W>) -> fmt::Result {
        write!(
            f,
            "; failed: attempts {}, validations {}, conversions {}",
            self.0, self.1, self.2
        )
    }
}

/// What the calls tried, as a line without its line feed: how many overlapped another, and how many failed.
pub(crate) fn trials_text(alloc: Global, entries: &[Entry]) -> Result<String, AllocError>
    ensures { IfOk result (λ text. string_bytes text ≡ trials_text entries.now) }
{
    let count = overlapping(alloc, entries)?;
    let mut text = OverlapText(count, entries.len()).to_string(alloc)?;
    let failed = FailedText(
        failed_attempts(entries),
        failed_validations(entries),
        failed_conversions(entries),
    );
    text.push_str(&failed.to_string(alloc)?)?;
    Ok(text)
}
