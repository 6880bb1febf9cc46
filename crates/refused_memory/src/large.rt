//! Takes one script as large as a script may be (64 threads with 10,000 calls each, 1,000,000 steps, a record of 16
//! words) through each call that reads, runs, writes or judges one. A body that gave up for want of memory above some
//! size would keep its contract.
use crate::large_text::script_text;
use crate::outcome::Outcome;
use stamp_cli::{Order, ReadSource, Verdict, WriteSink, serve};
use stamp_history::{check, migrate, read_history, read_script, write_history};
use stamp_machines::{Run, RunError, Script, run, run_reported};
use std::alloc::Global;

/// The call that answered something else than was to come.
#[derive(Clone, Copy)]
struct Failure(&'static str);

/// How much each call answered.
#[derive(Clone, Copy, Debug)]
struct Counts {
    script_bytes: usize,
    stepped: usize,
    run: usize,
    own_steps: u64,
    changes_by_others: u64,
    history_bytes: usize,
    read: usize,
    judged: u64,
    migrated: usize,
}

/// Steps through the script, and counts the calls that finish.
fn stepped(alloc: Global, script: &Script) -> Result<usize, RunError> {
    let mut run = Run::start(alloc, script)?;
    for thread in script.steps() {
        let _ = run.step(*thread)?;
    }
    Ok(run.finished().len())
}

/// The sums of a report's pairs.
fn sums_of(report: &[(u64, u64)]) -> (u64, u64) {
    let mut own: u64 = 0;
    let mut changes: u64 = 0;
    for pair in report {
        own = own.wrapping_add(pair.0);
        changes = changes.wrapping_add(pair.1);
    }
    (own, changes)
}

/// The line that the order answers to this input.
fn served(alloc: Global, order: Order, input: &[u8]) -> Result<Vec<u8>, Failure> {
    let mut source = ReadSource::new(input);
    let mut sink = WriteSink::new(Vec::new(alloc));
    match serve(alloc, order, &mut source, &mut sink) {
        Ok(Verdict::Accepted) => Ok(sink.into_inner()),
        _ => Err(Failure("serve")),
    }
}

/// The line is the text and a line feed.
fn is_line(line: &[u8], text: &[u8]) -> bool {
    line.split_last() == Some((&b'\n', text))
}

/// Serves the texts of a script and its history, and compares the lines.
fn serve_both(alloc: Global, script: &[u8], history: &[u8]) -> Result<(), Failure> {
    let run = served(alloc, Order::Run, script)?;
    if !is_line(&run, history) {
        return Err(Failure("another history from serve"));
    }
    let check = served(alloc, Order::Check, history)?;
    if !is_line(&check, b"ok 118851") {
        return Err(Failure("another verdict from serve"));
    }
    Ok(())
}

/// Takes the script through each call.
fn counted(alloc: Global) -> Result<Counts, Failure> {
    let text = script_text(alloc).map_err(|_| Failure("script_text"))?;
    let script = read_script(alloc, &text).map_err(|_| Failure("read_script"))?;
    let stepped = stepped(alloc, &script).map_err(|_| Failure("Run::step"))?;
    let reported = run_reported(alloc, &script).map_err(|_| Failure("run_reported"))?;
    let (own_steps, changes_by_others) = sums_of(reported.report());
    let record = run(alloc, &script).map_err(|_| Failure("run"))?;
    let history = write_history(alloc, &record).map_err(|_| Failure("write_history"))?;
    let read = read_history(alloc, &history).map_err(|_| Failure("read_history"))?;
    let entries = read.entries().len();
    let judged = check(&read).map_err(|_| Failure("check"))?;
    let migrated = migrate(read).map_err(|_| Failure("migrate"))?;
    serve_both(alloc, &text, &history)?;
    Ok(Counts {
        script_bytes: text.len(),
        stepped,
        run: record.entries().len(),
        own_steps,
        changes_by_others,
        history_bytes: history.len(),
        read: entries,
        judged,
        migrated: migrated.entries().len(),
    })
}

/// Prints how much each call answered, or which answered something else.
pub(crate) fn large_outcome(rt: &(impl Print + Eprint + AllocGlobal)) -> Outcome {
    match counted(rt.alloc()) {
        Ok(counts) => Outcome::right_if(println!(rt; "{counts:?}").is_ok()),
        Err(Failure(call)) => {
            let _ = rt.eprintln(call);
            Outcome::Wrong
        }
    }
}
