//! The finished calls of a script, one after the other.
ghost use Rattle.std.specs.Prelude.{◌≡◌, ◌<◌, [], IfOk, OnOk, OnErr, length, option_copied};
ghost use Rattle.stamp_machines.specs.CompletionsFields.{IsAfter, completing_at};
ghost use Rattle.stamp_machines.specs.inner.CompletionsFields.{StepMade};
ghost use Rattle.stamp_machines.specs.Completing.{before_all, after_next, Stopped};

use crate::running::RunError;
use crate::script::Script;
use crate::state::{RunState, StepKind};
use stamp_core::Entry;
use std::alloc::{AllocError, Global};
use std::marker::Model;

/// The entries of `run`, one at a time: the finished calls of a script, by their last steps. The
/// script is run by its own steps. `advance` runs on to the next one, and `get` has it until then.
/// No other entry is kept: of a call before it there is only the stamp that it answered.
#[derive(Drop)]
pub struct Completions<'a> {
    script: &'a Script,
    state: RunState,
    made: usize,
}

impl<'a> Model for Completions<'a> {
    ghost use Rattle.stamp_machines.specs.Completing.{Completing};

    ghost Value = { Completing };

    ghost use Rattle.stamp_machines.specs.CompletionsFields.{completing_of, IsCompleting};

    ghost view = { completing_of };

    ghost invariant = { IsCompleting };
}

/// Makes the script's next step. No entry is kept before it, nor after it where memory is refused.
#[inline(always)]
fn make_step(script: &Script, state: &mut RunState, made: usize) -> Result<StepKind, AllocError>
    requires few { made < length script.now.steps }
    requires after { IsAfter script.now state.old made }
    requires none { state.old.entries.items ≡ [] }
    ensures ok { IfOk result (λ kind. StepMade script.now state.new made kind) }
    ensures after { OnErr result (IsAfter script.now state.new made) }
    ensures none { OnErr result (state.new.entries.items ≡ []) }
{
    let thread = script.steps()[made] as usize;
    state.reserve(thread)?;
    Ok(state.step(script, thread, made as u64))
}

/// Makes the script's steps after those made, up to the one by which a call ends, or else all.
fn run_on(script: &Script, state: &mut RunState, made: &mut usize) -> Result<(), AllocError>
    requires after { IsAfter script.now state.old made.old }
    requires none { state.old.entries.items ≡ [] }
    ensures after { IsAfter script.now state.new made.new }
    ensures ok { OnOk result (completing_at script.now state.new made.new
        ≡ after_next (completing_at script.now state.old made.old)) }
    ensures err { OnErr result (Stopped (completing_at script.now state.old made.old)
        (completing_at script.now state.new made.new)) }
{
    let steps = script.steps().len();
    while *made < steps {
        let kind = make_step(script, state, *made)?;
        *made += 1;
        if let StepKind::Ended = kind {
            return Ok(());
        }
    }
    Ok(())
}

impl<'a> Completions<'a> {
    /// The finished calls of this script, none passed on yet. `alloc` is kept. Only want of memory
    /// refuses, and leaves nothing.
    pub fn start(alloc: Global, script: &'a Script) -> Result<Completions<'a>, RunError>
        ensures ok { IfOk result (λ r. r ≡ before_all script.now) }
        ensures memory { OnErr result (result ≡ Err RunError.Memory) }
    {
        let state = RunState::new(alloc, script.shape(), script.thread_count())?;
        Ok(Completions {
            script,
            state,
            made: 0,
        })
    }

    /// Runs on until one more call has ended, or else to the script's end. Only want of memory
    /// refuses, and only where a step is left. No entry is lost then: made again, it goes on from
    /// there.
    pub fn advance(&mut self) -> Result<(), RunError>
        ensures ok { OnOk result (self.new ≡ after_next self.old) }
        ensures err { OnErr result (Stopped self.old self.new) }
        ensures memory { OnErr result (result ≡ Err RunError.Memory) }
        ensures left { OnErr result (self.old.made < length self.old.script.steps) }
    {
        self.state.entries.clear();
        run_on(self.script, &mut self.state, &mut self.made)?;
        Ok(())
    }

    /// The entry of the call by whose end `advance` stopped. There is none before it, after the
    /// last, and where `advance` was refused.
    pub fn get(&self) -> Option<&Entry>
        ensures { option_copied result ≡ self.now.last }
    {
        self.state.entries.first()
    }
}
