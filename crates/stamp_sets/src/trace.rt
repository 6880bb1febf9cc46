//! How the positions of a half were come to, from its first event on.
ghost use Rattle.std.specs.Prelude.{◌≡◌, ◌<◌, ◌^◌, [], OnOk, OnErr, length};
ghost use Rattle.stamp_sets.specs.inner.Trail.{GoesOnTo};

use crate::log::Log;
use crate::trail::{Entry, Trail};
use std::alloc::{AllocError, Global};

/// What its trails had, event by event, and the number of each of its own events among all; or nothing, if it is off.
#[derive(Drop)]
pub(crate) struct Trace {
    pub(crate) is_on: bool,
    pub(crate) entries: Log<Entry>,
    pub(crate) numbers: Log<u64>,
}

impl Trace {
    /// The trace of a new half. One that is off takes no memory.
    pub(crate) fn new(alloc: Global, is_on: bool) -> Trace
        ensures on { result.is_on ≡ is_on }
        ensures none { result.entries ≡ [] }
        ensures nothing { result.numbers ≡ [] }
    {
        Trace {
            is_on,
            entries: Log::new(alloc),
            numbers: Log::new(alloc),
        }
    }

    /// How many own events it has.
    pub(crate) fn events(&self) -> u64
        ensures events { result ≡ length self.now.numbers }
        ensures small { result < 2 ^ 63 }
    {
        self.numbers.len() as u64
    }

    /// Goes on by these entries, which have one event, with this number among all, if it is on. Without memory it is as
    /// before.
    pub(crate) fn go_on(&mut self, entries: &[Entry], number: u64) -> Result<(), AllocError>
        ensures goes_on { OnOk result (GoesOnTo self.old self.new entries.now number) }
        ensures err { OnErr result (self.new ≡ self.old) }
    {
        if !self.is_on {
            return Ok(());
        }
        self.numbers.push(number)?;
        let added = self.entries.append(entries);
        if added.is_err() {
            self.numbers.take_back();
        }
        added
    }
}
