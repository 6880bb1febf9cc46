//! How long calls keep their threads.

ghost use Rattle.std.specs.Prelude.{◌≡◌, ◌<◌, ◌↔◌, IsTrue, IfOk};
ghost use Rattle.std.specs.List.{All, AllPairs};
ghost use Rattle.stamp_explain.specs.Observed.{IsLow, IsInterval, DoNotOverlap};
ghost use Rattle.stamp_observed.specs.inner.Span.{span_of, spans_of, free_after, EndsLow, Follows, AreSorted};

use stamp_explain::{Observation, Returned};
use std::alloc::{AllocError, Global};

/// A call by a thread: where it began, and from where on the thread is free for its next call.
#[derive(Clone, Copy)]
pub(crate) struct Span {
    /// The thread, 0 to 63.
    pub(crate) thread: u64,
    /// Where the call began.
    pub(crate) first: u64,
    /// One past where the call returned; the largest number where it didn't.
    pub(crate) free: u64,
}

fn free_after(returned: &Option<Returned>) -> u64
    requires { EndsLow returned.now }
    ensures { result ≡ free_after returned.now }
{
    match returned {
        None => u64::MAX,
        Some(returned) => returned.last + 1,
    }
}

fn span_of(entry: &Observation) -> Span
    requires { IsLow entry.now }
    ensures { result ≡ span_of entry.now }
{
    Span {
        thread: entry.thread,
        first: entry.first,
        free: free_after(&entry.returned),
    }
}

fn spans_of(alloc: Global, entries: &[Observation]) -> Result<Vec<Span>, AllocError>
    requires { All IsLow entries.now }
    ensures { IfOk result (λ spans. spans.items ≡ spans_of entries.now) }
{
    let mut spans = Vec::with_capacity(alloc, entries.len())?;
    for entry in entries {
        spans.push(span_of(entry))?;
    }
    Ok(spans)
}

/// In the order in which they begin.
fn sorted(spans: Vec<Span>) -> Result<Vec<Span>, AllocError>
    ensures { IfOk result (λ sorted. AreSorted spans.items sorted.items) }
{
    let mut sorted = spans;
    sorted.sort_by_key(|span| span.first)?;
    Ok(sorted)
}

/// Whether each one begins when its thread is free.
fn follow(spans: &[Span]) -> bool
    requires threads { All (λ s. s.thread < 64) spans.now }
    requires rising { All (λ s. s.first < s.free) spans.now }
    ensures { IsTrue result ↔ AllPairs Follows spans.now }
{
    let mut free = [0; 64];
    for span in spans {
        let thread = span.thread as usize;
        if span.first < free[thread] {
            return false;
        }
        free[thread] = span.free;
    }
    true
}

/// Whether no two calls of a thread overlap. It sorts them once.
pub(crate) fn none_overlap(alloc: Global, entries: &[Observation]) -> Result<bool, AllocError>
    requires low { All IsLow entries.now }
    requires intervals { All IsInterval entries.now }
    requires threads { All (λ e. e.thread < 64) entries.now }
    ensures { IfOk result (λ none. IsTrue none ↔ AllPairs DoNotOverlap entries.now) }
{
    let spans = spans_of(alloc, entries)?;
    let sorted = sorted(spans)?;
    Ok(follow(sorted.as_slice()))
}
