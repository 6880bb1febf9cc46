//! A script that is being run.
ghost use Rattle.std.specs.Prelude.{◌≡◌, ◌<◌, ◌≤◌, ◌↔◌, [], length, IfOk, OnOk, OnErr};
ghost use Rattle.std.specs.Prelude.{slice_index, All};

use crate::access::LOCK;
use crate::script::Script;
use crate::state::{RunState, StepKind};
use crate::tally::Tally;
use stamp_core::{Entry, Record, Word};
use std::alloc::{AllocError, Global};
use std::error::Error;
use std::fmt;
use std::marker::Model;

/// The most steps of a run, and of a script.
pub const MOST_STEPS: usize = 1_000_000;

/// What a step did.
#[derive(Clone, Copy)]
pub enum Stepped {
    /// The thread has no call left.
    Idle,
    /// Its call goes on.
    Going,
    /// Its call has ended, and this is its entry.
    Ended(Entry),
}

/// Why a run refuses.
#[derive(Clone, Copy, Debug, PartialEq, Eq)]
pub enum RunError {
    /// 3: the run has made 1,000,000 steps; `Run::step` alone refuses so.
    TooManySteps,
    /// 6: an allocation was refused.
    Memory,
}

impl fmt::Display for RunError {
    fn fmt<W: fmt::Write>(&self, f: &mut fmt::Formatter<W>) -> fmt::Result {
        match self {
            RunError::TooManySteps => write!(f, "the run has made 1000000 steps"),
            RunError::Memory => write!(f, "out of memory"),
        }
    }
}

impl Error for RunError {}

impl From<AllocError> for RunError {
    ghost use Rattle.stamp_machines.specs.declared.running.RunError.{RunError};

    ghost from_gives = { λ _ e. e ≡ RunError.Memory };

    fn from(_: AllocError) -> Self {
        RunError::Memory
    }
}

/// A run of a script's threads, one step at a time. `step` is given which of them makes the next
/// step; it doesn't look at the steps that the script itself lists. `finished` has the entries so
/// far, of which `Record::of` makes a recorded history.
#[derive(Drop)]
pub struct Run<'a> {
    script: &'a Script,
    state: RunState,
    steps: Vec<u64>,
}

impl<'a> Model for Run<'a> {
    ghost use Rattle.stamp_machines.specs.RunView.{RunView};

    ghost Value = { RunView };

    ghost use Rattle.stamp_machines.specs.RunFields.{run_view_of, IsAt};

    ghost view = { run_view_of };

    ghost invariant = { IsAt };
}

impl<'a> Run<'a> {
    ghost use Rattle.stamp_machines.specs.World.{execution_of, finished_calls};
    ghost use Rattle.stamp_core.specs.Word.{Represents, word_at};
    ghost use Rattle.stamp_core.specs.History.{events_of};
    ghost use Rattle.stamp_core.specs.Linearized.{history_of, AreLinearized};
    ghost use Rattle.stamp_machines.specs.Script.{IsSound};
    ghost use Rattle.stamp_machines.specs.RunView.{with_step, HasNoStepLeft};
    ghost use Rattle.stamp_machines.specs.Stepped.{AnswersStep};
    ghost use Rattle.stamp_machines.specs.inner.StepKind.{IsOfKind, outcome_of};
    ghost use Rattle.stamp_machines.specs.inner.Tally.{tally_of, IsTallied};

    /// The run before its first step, which keeps `alloc`. It refuses as 6 `Memory` alone.
    pub fn start(alloc: Global, script: &'a Script) -> Result<Run<'a>, RunError>
        ensures ok { IfOk result (λ r. r ≡ record { script = script.now; steps = [] }) }
        ensures memory { OnErr result (result ≡ Err RunError.Memory) }
    {
        let state = RunState::new(alloc, script.shape(), script.thread_count())?;
        Ok(Run {
            script,
            state,
            steps: Vec::new(alloc),
        })
    }

    /// Makes one access of the thread's current call. The thread is below the number of the
    /// script's threads. It refuses as 3 `TooManySteps` exactly where 1,000,000 steps were made,
    /// and as 6 `Memory`; a refused step leaves the run as it was, and can be made again.
    pub fn step(&mut self, thread: u64) -> Result<Stepped, RunError>
        requires { thread < length self.old.script.threads }
        ensures ok { OnOk result (self.new ≡ with_step self.old thread) }
        ensures stepped { IfOk result
            (AnswersStep self.old.script (execution_of self.old.script self.old.steps) thread) }
        ensures err { OnErr result (self.new ≡ self.old) }
        ensures full { (result ≡ Err RunError.TooManySteps) ↔ HasNoStepLeft self.old }
    {
        let kind = self.make_step(thread)?;
        Ok(self.state.outcome(kind))
    }

    /// One access, of which the kind alone is told: the entry of a call that has ended by it is the
    /// last one.
    #[inline(always)]
    pub(crate) fn make_step(&mut self, thread: u64) -> Result<StepKind, RunError>
        requires { thread < length self.old.script.threads }
        ensures ok { OnOk result (self.new ≡ with_step self.old thread) }
        ensures kind { IfOk result
            (IsOfKind self.old.script (execution_of self.old.script self.old.steps) thread) }
        ensures err { OnErr result (self.new ≡ self.old) }
        ensures full { (result ≡ Err RunError.TooManySteps) ↔ HasNoStepLeft self.old }
    {
        if self.steps.len() == MOST_STEPS {
            return Err(RunError::TooManySteps);
        }
        let at = thread as usize;
        let position = self.steps.len() as u64;
        self.steps.reserve(1)?;
        self.state.reserve(at)?;
        let _ = self.steps.push(thread);
        Ok(self.state.step(self.script, at, position))
    }

    /// Touches a field, by which the prover knows what each run keeps to.
    fn known(&self)
        ensures sound { IsSound self.now.script }
        ensures few { length self.now.steps ≤ 1000000 }
    {
        let _ = &self.script;
    }

    /// One access, which is counted.
    pub(crate) fn step_counted(&mut self, thread: u64, tally: &mut Tally) -> Result<(), RunError>
        requires thread { thread < length self.old.script.threads }
        requires tallied { IsTallied self.old.script self.old.steps (tally_of tally.old) }
        ensures ok { OnOk result (self.new ≡ with_step self.old thread) }
        ensures tallied { OnOk result
            (IsTallied self.new.script self.new.steps (tally_of tally.new)) }
        ensures full { (result ≡ Err RunError.TooManySteps) → HasNoStepLeft self.old }
    {
        self.known();
        let before = self.word().bits();
        match self.step(thread) {
            Ok(stepped) => {
                let is_changed = self.word().bits() != before;
                tally.count(thread as usize, is_changed, &stepped)?;
                Ok(())
            }
            Err(refusal) => Err(refusal),
        }
    }

    /// The numbers of the threads that made the steps so far, idle steps too.
    pub fn steps(&self) -> &[u64]
        ensures steps { result.now ≡ self.now.steps }
        ensures sound { IsSound self.now.script }
        ensures few { length self.now.steps ≤ 1000000 }
    {
        self.known();
        &self.steps
    }

    /// The finished calls, in the order of their last steps.
    pub fn finished(&self) -> &[Entry]
        ensures entries { result.now ≡ finished_calls self.now.script self.now.steps }
        ensures linearized { AreLinearized self.now.script.limits self.now.script.width result.now }
    {
        &self.state.entries
    }

    /// The lock's word after the steps so far.
    pub fn word(&self) -> Word
        ensures word { result ≡ word_at self.now.script.limits
            (slice_index (execution_of self.now.script self.now.steps).words 0) }
        ensures represented { Represents self.now.script.limits result
            (events_of self.now.script.limits
            (history_of (finished_calls self.now.script self.now.steps))) }
    {
        self.script.limits().word(self.state.words[LOCK])
    }
}

impl<'a> Run<'a> {
    ghost use Rattle.stamp_machines.specs.inner.RecordedRun.{IsRecordedRun};
    ghost use Rattle.stamp_machines.specs.World.{finished_calls};

    /// The finished calls as a recorded history, with no report.
    pub(crate) fn into_record(self) -> Record
        ensures { IsRecordedRun self.entry [] result }
    {
        Record::of(
            self.script.limits(),
            self.script.width(),
            self.state.entries,
        )
        .unwrap()
    }

    /// The finished calls as a recorded history, with a report that has a pair for each.
    pub(crate) fn into_reported(self, report: Vec<(u64, u64)>) -> Record
        requires { length report.items ≡ length (finished_calls self.script self.steps) }
        ensures { IsRecordedRun self.entry report.items result }
    {
        Record::of_reported(
            self.script.limits(),
            self.script.width(),
            self.state.entries,
            report,
        )
        .unwrap()
    }
}
