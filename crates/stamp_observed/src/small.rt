//! A small history that is stuck as a long one is.
ghost use Rattle.std.specs.Prelude.{◌≤◌, IfOk, IfSome, length};
ghost use Rattle.stamp_explain.specs.Cut.{IsStuck};
ghost use Rattle.stamp_explain.specs.Observed.{IsObserved};
ghost use Rattle.stamp_observed.specs.Small.{IsStuckAs};
ghost use Rattle.stamp_observed.specs.inner.Fault.{IsFaultOf};

use crate::candidate::Candidate;
use crate::cut::{cut_at, order_of};
use crate::fault::{Fault, fault_at};
use crate::issued::is_by;
use crate::judging_again::{Found, found_of};
use crate::leaving::without_more;
use crate::versions::{last_version, version_wanted};
use crate::window::{OlderStamps, window_behind};
use stamp_core::{Entry, Reply};
use stamp_explain::{Observed, seen_until};
use std::alloc::{AllocError, Global};

/// How many calls of an order a window has, one window after the other.
const WINDOWS: [usize; 11] = [1, 2, 4, 8, 16, 32, 64, 128, 256, 512, 1024];

/// The first window that is stuck as the run is. The windows begin so many calls before the end of this part of an
/// order, and go to the end of the order.
fn window_found(
    alloc: Global,
    observed: &Observed,
    fault: &Fault,
    cut: &Candidate,
    part: &[Entry],
    older: OlderStamps,
    most: u64,
) -> Result<Option<Found>, AllocError>
    requires { IsFaultOf observed.now most fault.now }
    ensures { IfOk result (λ found. IfSome found (λ f. IsStuckAs observed.now most fault.now.entry f.small)) }
{
    for calls in WINDOWS {
        let gone = &part[..part.len().saturating_sub(calls)];
        if let Some(window) = window_behind(alloc, observed, fault, cut, gone, &[], older)? {
            let found = found_of(alloc, observed, fault, window, most)?;
            if found.is_some() {
                return Ok(found);
            }
        }
        if gone.is_empty() {
            return Ok(None);
        }
    }
    Ok(None)
}

/// Whether the call of an order had returned before that of the fault, and issued the stamp that this takes.
fn is_issuer(entry: &Entry, fault: &Fault) -> bool {
    match (entry.reply, fault.stamp) {
        (Reply::Stamp(answered), Some(issued)) => {
            answered == issued.stamp
                && is_by(issued.by, entry.thread)
                && entry.last / 64 < fault.call.first
        }
        _ => false,
    }
}

/// How many calls of an order there are up to the last one that issues the stamp of the fault's call; nothing where
/// none does.
fn calls_to_issuer(order: &[Entry], fault: &Fault) -> Option<usize>
    ensures { IfSome result (λ count. count ≤ length order.now) }
{
    for k in 0..order.len() {
        let place = order.len() - 1 - k;
        if is_issuer(&order[place], fault) {
            return Some(place + 1);
        }
    }
    None
}

/// Whether the calls of a candidate come to the version to which a small history has to come.
fn comes_to_version(observed: &Observed, fault: &Fault, candidate: &Candidate) -> bool {
    let layout = observed.limits().layout();
    let wanted = version_wanted(layout, fault, candidate.versions);
    last_version(layout, candidate.others.as_slice()) >= wanted
}

/// The first window that is stuck as the run is, of those that begin at the last one of so many calls of an order, and
/// end so many calls behind it.
fn short_window_found(
    alloc: Global,
    observed: &Observed,
    fault: &Fault,
    cut: &Candidate,
    order: &[Entry],
    count: usize,
    most: u64,
) -> Result<Option<Found>, AllocError>
    requires fault { IsFaultOf observed.now most fault.now }
    requires count { count ≤ length order.now }
    ensures { IfOk result (λ found. IfSome found (λ f. IsStuckAs observed.now most fault.now.entry f.small)) }
{
    let gone = &order[..count.saturating_sub(1)];
    for calls in WINDOWS {
        let late = &order[count.saturating_add(calls).min(order.len())..];
        let kept = OlderStamps::Kept;
        let Some(window) = window_behind(alloc, observed, fault, cut, gone, late, kept)? else {
            return Ok(None);
        };
        if comes_to_version(observed, fault, &window) {
            let found = found_of(alloc, observed, fault, window, most)?;
            if found.is_some() {
                return Ok(found);
            }
        }
    }
    Ok(None)
}

/// The first window that is stuck as the run is. It begins at the call that issued the stamp of the fault's call, or
/// before; or, if none did, near the end of the order. The stamps of the fault's call keep their versions where these
/// aren't much older, or else where nothing else will do.
fn any_window_found(
    alloc: Global,
    observed: &Observed,
    fault: &Fault,
    cut: &Candidate,
    most: u64,
) -> Result<Option<Found>, AllocError>
    requires { IsFaultOf observed.now most fault.now }
    ensures { IfOk result (λ found. IfSome found (λ f. IsStuckAs observed.now most fault.now.entry f.small)) }
{
    let Some(order) = order_of(alloc, observed, fault, cut, most)? else {
        return Ok(None);
    };
    let calls = order.entries();
    let mut part = calls;
    if let Some(count) = calls_to_issuer(calls, fault) {
        let found = short_window_found(alloc, observed, fault, cut, calls, count, most)?;
        if found.is_some() {
            return Ok(found);
        }
        part = &calls[..count];
    }
    for older in [
        OlderStamps::Kept,
        OlderStamps::Dropped,
        OlderStamps::AllKept,
    ] {
        let found = window_found(alloc, observed, fault, cut, part, older, most)?;
        if found.is_some() {
            return Ok(found);
        }
    }
    Ok(None)
}

/// What is found to be stuck as the run is: a window of it, or else the run up to the return.
fn first_found(
    alloc: Global,
    observed: &Observed,
    fault: &Fault,
    most: u64,
) -> Result<Option<Found>, AllocError>
    requires { IsFaultOf observed.now most fault.now }
    ensures { IfOk result (λ found. IfSome found (λ f. IsStuckAs observed.now most fault.now.entry f.small)) }
{
    let cut = cut_at(alloc, observed, fault)?;
    match any_window_found(alloc, observed, fault, &cut, most)? {
        Some(found) => Ok(Some(found)),
        None => found_of(alloc, observed, fault, cut, most),
    }
}

/// A small history that is stuck as this one is at the return of an entry: at the return of the same call by the
/// same thread, with the same reply, where the same replies were possible. Nothing in it is later than this return.
///
/// The versions of its stamps are counted from a later one on; a stamp of an earlier version is 0 there. No more
/// versions are left out than calls that acquire write mode, if anything, had begun by the return. A stamp that the
/// call is answered isn't left out.
///
/// Where the call takes a stamp that a call before it was answered, so it does there: the small history has a call that
/// had returned before it, and was answered this stamp, which isn't 0. It is one of its own thread, if one of this was.
///
/// Where it is undecided which replies were possible, they aren't compared. It refuses only for want of memory.
///
/// Tested, not proved: it is made of the last calls that took effect before the return, or of those from the call on
/// that issued the stamp, behind calls that bring a new lock and record to where they begin; or, where that isn't stuck
/// so, of the whole run up to the return. Calls that don't matter are left out. Each of these is judged only as far as
/// no more than `most` different positions of the lock, or of the record, are possible. Where none is found so, it is
/// what was seen of the run when the entry returned. Where the call is answered a stamp of a version that is over 8
/// later than that of the one it takes, a write acquisition comes between, and the small history needn't come to the
/// later version.
pub fn small_of(
    alloc: Global,
    observed: &Observed,
    entry: usize,
    most: u64,
) -> Result<Observed, AllocError>
    requires observed { IsObserved observed.now }
    requires stuck { IsStuck observed.now entry }
    ensures { IfOk result (λ small. IsStuckAs observed.now most entry small) }
{
    let fault = fault_at(alloc, observed, entry, most)?;
    match first_found(alloc, observed, &fault, most)? {
        Some(found) => Ok(without_more(alloc, observed, &fault, found, most)?.small),
        None => seen_until(alloc, observed, entry, Some(fault.returned.reply)),
    }
}
