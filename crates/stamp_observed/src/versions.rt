//! The versions of the stamps that calls take and are answered.
use crate::fault::Fault;
use crate::renumbering::stamp_of;
use stamp_core::{Layout, Reply, StampKind, stamp_kind_in};
use stamp_explain::Observation;

/// The most versions that can be left out of a run so that this stamp is still one.
fn versions_before(layout: Layout, stamp: u64) -> u64 {
    match stamp_kind_in(layout, stamp) {
        StampKind::Write(version) => version.saturating_sub(1),
        StampKind::Read(version, _) => version,
        StampKind::Optimistic(version) => version,
        StampKind::Neither => u64::MAX,
    }
}

/// The same of the stamp that a call is answered, if it is answered one.
fn versions_before_reply(layout: Layout, reply: &Reply) -> u64 {
    match *reply {
        Reply::Stamp(stamp) => versions_before(layout, stamp),
        _ => u64::MAX,
    }
}

/// The same of all replies.
fn versions_before_all(layout: Layout, replies: &[Reply]) -> u64 {
    let mut versions = u64::MAX;
    for reply in replies {
        versions = versions.min(versions_before_reply(layout, reply));
    }
    versions
}

/// The same of all stamps of the fault's call.
pub(crate) fn versions_before_fault(layout: Layout, fault: &Fault) -> u64 {
    let asked = match stamp_of(&fault.call.call) {
        None => u64::MAX,
        Some(stamp) => versions_before(layout, stamp),
    };
    let possible = match &fault.possible {
        None => u64::MAX,
        Some(replies) => versions_before_all(layout, replies),
    };
    versions_before_reply(layout, &fault.returned.reply)
        .min(asked)
        .min(possible)
}

/// The version of the stamp that the fault's call takes, if so many versions are left out; 0 where it takes none.
fn version_asked(layout: Layout, fault: &Fault, versions: u64) -> u64 {
    let Some(stamp) = stamp_of(&fault.call.call) else {
        return 0;
    };
    match stamp_kind_in(layout, stamp) {
        StampKind::Write(version) => version.saturating_sub(versions),
        StampKind::Read(version, _) => version.saturating_sub(versions),
        StampKind::Optimistic(version) => version.saturating_sub(versions),
        StampKind::Neither => 0,
    }
}

/// So much later than that of the stamp which the fault's call takes a version may be, to which a history has to come.
const MOST_LATER: u64 = 8;

/// The version to which a small history has to come where so many versions are left out: that of the stamp that the
/// fault's call takes. Where this was issued, and the call is answered a stamp of a later version, it is that version;
/// or the next one, where it is much later.
pub(crate) fn version_wanted(layout: Layout, fault: &Fault, versions: u64) -> u64 {
    let asked = version_asked(layout, fault, versions);
    let answered = versions_before_reply(layout, &fault.returned.reply);
    if fault.stamp.is_none() || answered == u64::MAX {
        return asked;
    }
    let later = answered.saturating_sub(versions).saturating_sub(asked);
    if later <= MOST_LATER {
        asked.saturating_add(later)
    } else {
        asked.saturating_add(1)
    }
}

/// The version of the write acquisition that a call was answered; 0 where it was answered none.
fn version_acquired(layout: Layout, call: &Observation) -> u64 {
    let Some(returned) = &call.returned else {
        return 0;
    };
    let Reply::Stamp(stamp) = returned.reply else {
        return 0;
    };
    match stamp_kind_in(layout, stamp) {
        StampKind::Write(version) => version,
        _ => 0,
    }
}

/// The version of the last write acquisition that one of the calls was answered; 0 where there is none.
pub(crate) fn last_version(layout: Layout, calls: &[Observation]) -> u64 {
    let mut last = 0;
    for call in calls {
        last = last.max(version_acquired(layout, call));
    }
    last
}
