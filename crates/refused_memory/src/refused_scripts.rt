//! Scripts that are refused, and a run that has no step left.
ghost use Rattle.std.specs.Prelude.{◌<◌, length};

use crate::outcome::Outcome;
use stamp_core::{Limits, Words};
use stamp_machines::{MOST_STEPS, Run, RunError, Script, ScriptCall, ScriptError};
use std::alloc::{AllocError, Global};

/// What a script is made of: how many threads, how many calls each of them has, whether each is a
/// put of two words, and how many steps, which are all of the same thread.
#[derive(Clone, Copy)]
pub(crate) struct Shape {
    threads: usize,
    calls: usize,
    is_put: bool,
    steps: usize,
    stepping: u64,
    width: u64,
}

/// A script that is accepted.
const FIT: Shape = Shape {
    threads: 2,
    calls: 3,
    is_put: false,
    steps: 5,
    stepping: 1,
    width: 0,
};

/// A script of puts.
const PUTS: Shape = Shape {
    is_put: true,
    ..FIT
};

/// A shape, and how its script is refused, if it is.
type Case = (Shape, Option<ScriptError>);

/// The first four causes, and none.
pub(crate) const SHAPES: [Case; 5] = [
    (
        Shape { threads: 65, ..FIT },
        Some(ScriptError::TooManyThreads),
    ),
    (
        Shape {
            calls: 10_001,
            ..FIT
        },
        Some(ScriptError::TooManyCalls),
    ),
    (
        Shape {
            steps: 1_000_001,
            ..FIT
        },
        Some(ScriptError::TooManySteps),
    ),
    (
        Shape { stepping: 2, ..FIT },
        Some(ScriptError::NoSuchThread(0)),
    ),
    (FIT, None),
];

/// The fifth cause: a width of 17, no record, and words of another length.
pub(crate) const WIDTHS: [Case; 4] = [
    (Shape { width: 17, ..FIT }, Some(ScriptError::RecordWidth)),
    (PUTS, Some(ScriptError::RecordWidth)),
    (Shape { width: 1, ..PUTS }, Some(ScriptError::RecordWidth)),
    (Shape { width: 2, ..PUTS }, None),
];

/// The call of all threads.
fn put_or_try_read(shape: &Shape) -> ScriptCall {
    match Words::new(&[7, 9]) {
        Some(words) if shape.is_put => ScriptCall::Put(words),
        _ => ScriptCall::TryRead,
    }
}

fn threads(alloc: Global, shape: &Shape) -> Result<Vec<Vec<ScriptCall>>, AllocError> {
    let call = put_or_try_read(shape);
    let mut threads = Vec::new(alloc);
    for _ in 0..shape.threads {
        threads.push(vec![in alloc; call; shape.calls]?)?;
    }
    Ok(threads)
}

/// The script, or how it is refused.
fn made(
    alloc: Global,
    limits: Limits,
    shape: &Shape,
) -> Result<Result<Script, ScriptError>, Outcome> {
    let threads = threads(alloc, shape)?;
    let steps = vec![in alloc; shape.stepping; shape.steps]?;
    Ok(Script::new(limits, shape.width, threads, steps))
}

fn shape_outcome(alloc: Global, limits: Limits, case: &Case) -> Outcome {
    match made(alloc, limits, &case.0) {
        Ok(script) => Outcome::right_if(script.err() == case.1),
        Err(outcome) => outcome,
    }
}

/// Each shape, one after another.
pub(crate) fn shapes_outcome(alloc: Global, limits: Limits, cases: &[Case]) -> Outcome {
    let mut all = Outcome::Right;
    for case in cases {
        all = all.and(shape_outcome(alloc, limits, case));
    }
    all
}

/// A thread with three calls.
fn script(alloc: Global) -> Result<Script, Outcome> {
    let alone = Shape {
        threads: 1,
        steps: 0,
        ..FIT
    };
    let Ok(limits) = Limits::new(3, 0) else {
        return Err(Outcome::Wrong);
    };
    match made(alloc, limits, &alone)? {
        Ok(script) => Ok(script),
        Err(_) => Err(Outcome::Wrong),
    }
}

/// Steps until a step is refused: after how many, and why.
fn first_refusal(run: &mut Run) -> Option<(usize, RunError)>
    requires { 0 < length run.old.script.threads }
{
    for made in 0..=MOST_STEPS {
        if let Err(error) = run.step(0) {
            return Some((made, error));
        }
    }
    None
}

/// Whether a run that has made all its steps makes no more.
pub(crate) fn is_step_refused(alloc: Global) -> Result<bool, Outcome> {
    let script = script(alloc)?;
    if script.threads().is_empty() {
        return Ok(false);
    }
    let mut run = Run::start(alloc, &script)?;
    match first_refusal(&mut run) {
        Some((made, RunError::TooManySteps)) => {
            Ok(made == MOST_STEPS && run.finished().len() == FIT.calls)
        }
        Some((_, RunError::Memory)) => Err(Outcome::Refused),
        None => Ok(false),
    }
}
