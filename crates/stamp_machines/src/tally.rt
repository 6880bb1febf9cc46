//! What the calls of a run cost, counted while they are made.
ghost use Rattle.std.specs.Prelude.{◌≡◌, ◌≤◌, ◌<◌, ℕ, [], length, vec_len, slice_set, replicate};
ghost use Rattle.std.specs.Prelude.{IfOk, OnOk, if◌then◌else◌};
ghost use Rattle.stamp_machines.specs.inner.Tally.{meter_after, meter_at, tally_of, tally_after, idle_meter};

use crate::running::Stepped;
use stamp_core::Call;
use std::alloc::{AllocError, Global};

/// A thread's call under way: its steps so far, 0 where there is none, and the changes of the
/// lock's word that are not for others to count: those before its first step, and its own since.
#[derive(Clone, Copy)]
pub(crate) struct Meter {
    pub(crate) steps: u64,
    pub(crate) not_others: u64,
}

/// The changes of the lock's word so far, a meter for each thread, and the cost of each finished
/// call: its own steps, and the changes by others meanwhile.
#[derive(Drop)]
pub(crate) struct Tally {
    pub(crate) changes: u64,
    pub(crate) meters: Vec<Meter>,
    pub(crate) report: Vec<(u64, u64)>,
}

impl Meter {
    /// The meter of a thread with no call under way.
    fn idle() -> Meter
        ensures { result ≡ idle_meter }
    {
        Meter {
            steps: 0,
            not_others: 0,
        }
    }

    /// After one more step, where the word had changed this many times before it, and this many by it.
    fn stepped(self, changes: u64, change: u64) -> Meter
        requires steps { self.steps ≤ 1000000 }
        requires not_others { self.not_others ≤ 1000000 }
        requires changes { changes ≤ 1000000 }
        requires change { change ≤ 1 }
        ensures { result ≡ meter_after changes change self }
    {
        let not_others = if self.steps == 0 {
            changes
        } else {
            self.not_others
        };
        Meter {
            steps: self.steps + 1,
            not_others: not_others + change,
        }
    }
}

fn set_meter(meters: &mut [Meter], thread: usize, meter: Meter)
    requires { thread < length meters.old }
    ensures { meters.new ≡ slice_set meters.old thread meter }
{
    meters[thread] = meter;
}

impl Tally {
    /// Before the first step, for this many threads.
    pub(crate) fn new(alloc: Global, threads: usize) -> Result<Tally, AllocError>
        ensures { IfOk result
            (λ t. tally_of t ≡ record {
              changes = 0;
              meters = replicate threads idle_meter;
              report = [];
            }) }
    {
        let mut meters = Vec::with_capacity(alloc, threads)?;
        for _ in 0..threads {
            meters.push(Meter::idle())?;
        }
        Ok(Tally {
            changes: 0,
            meters,
            report: Vec::new(alloc),
        })
    }

    /// Counts a step of the thread, and whether it changed the lock's word.
    pub(crate) fn count(
        &mut self,
        thread: usize,
        is_changed: bool,
        stepped: &Stepped,
    ) -> Result<(), AllocError>
        requires thread { thread < vec_len self.old.meters }
        requires steps { (meter_at self.old.meters.items thread).steps ≤ 1000000 }
        requires not_others { (meter_at self.old.meters.items thread).not_others ≤ self.old.changes }
        requires changes { self.old.changes ≤ 1000000 }
        ensures { OnOk result
            (tally_of self.new ≡ tally_after (tally_of self.old) thread (if is_changed then 1
            else 0) stepped.now) }
    {
        if let Stepped::Idle = stepped {
            return Ok(());
        }
        let change = if is_changed { 1 } else { 0 };
        let mut meter = self.meters[thread].stepped(self.changes, change);
        self.changes += change;
        if let Stepped::Ended(_) = stepped {
            self.report
                .push((meter.steps, self.changes - meter.not_others))?;
            meter = Meter::idle();
        }
        set_meter(&mut self.meters, thread, meter);
        Ok(())
    }
}
