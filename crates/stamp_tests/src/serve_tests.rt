use crate::line_rows::{CHECKS, MIGRATIONS, REFUSED, REPLAYS, RUNS, Row, STAMPS};
use stamp_cli::{
    CommandFault, Order, ReadSource, ServeFault, Verdict, WriteSink, fault_line, named_fault_line,
    order_of, serve, serve_help,
};
use stamp_core::Layout;
use std::alloc::Global;
use std::process::Abort;
use std::test::Fail;

/// No number, and numbers of which `stamped` tells no more than that they are no stamp. `tests/program` has the other
/// words.
#[test]
fn a_number_is_that_of_its_digits(rt: HostRuntime) {
    let table: [(&[&str], Result<Order, CommandFault>); 3] = [
        (&["stamp", "x"], Err(CommandFault::Bad)),
        (
            &["stamp", "18446744073709551615"],
            Ok(Order::Stamp(u64::MAX)),
        ),
        (
            &["stamp", "--layout", "2", "07"],
            Ok(Order::StampIn(Layout::Two, 7)),
        ),
    ];
    for (words, want) in table {
        assert!(rt; order_of(words) == want, "{words:?}");
    }
}

/// No replay has a first call that waits. `tests/program` and `tests/hostile` have the lines of the other faults.
#[test]
fn a_program_tells_a_fault_by_its_name(rt: HostRuntime) -> Result<(), Fail> {
    let line = named_fault_line(rt.alloc(), "lock", &ServeFault::Waits(3))?;
    assert!(rt; line.as_str() == "lock: call 3 waits");
    let first = fault_line(rt.alloc(), &ServeFault::Waits(0))?;
    assert!(rt; first.as_str() == "stamped: call 0 waits");
    Ok(())
}

#[test]
fn a_help_is_written_whole(rt: HostRuntime) -> Result<(), Fail> {
    let mut sink = WriteSink::new(Vec::new(rt.alloc()));
    let told = serve_help("one\ntwo\n", &mut sink);
    assert!(rt; told == Ok(Verdict::Accepted));
    assert!(rt; String::from_utf8(sink.into_inner())?.as_str() == "one\ntwo\n");
    Ok(())
}

/// What serving these words on this input answers, and what is written.
fn served(
    alloc: Global,
    words: &[&str],
    input: &str,
) -> Result<(Result<Verdict, ServeFault>, String), Fail> {
    let order = order_of(words).map_err(|_| Fail::from("no order"))?;
    let mut source = ReadSource::new(input.as_bytes());
    let mut sink = WriteSink::new(Vec::new(alloc));
    let answer = serve(alloc, order, &mut source, &mut sink);
    Ok((answer, String::from_utf8(sink.into_inner())?))
}

/// Each row's input is answered by its line, and nothing else.
fn are_answered(rt: &impl Abort, alloc: Global, rows: &[Row]) -> Result<(), Fail> {
    for (words, input, line) in rows {
        let verdict = if line.starts_with("bad ") {
            Verdict::Bad
        } else {
            Verdict::Accepted
        };
        let (answer, written) = served(alloc, words, input)?;
        assert!(rt; answer == Ok(verdict), "{words:?} {input}");
        assert!(rt;
            written.strip_suffix('\n') == Some(*line),
            "{words:?} {input}"
        );
    }
    Ok(())
}

#[test]
fn each_order_is_answered_by_its_line(rt: HostRuntime) -> Result<(), Fail> {
    are_answered(&rt, rt.alloc(), &REPLAYS)?;
    are_answered(&rt, rt.alloc(), &RUNS)?;
    are_answered(&rt, rt.alloc(), &CHECKS)?;
    are_answered(&rt, rt.alloc(), &MIGRATIONS)?;
    are_answered(&rt, rt.alloc(), &STAMPS)
}

#[test]
fn what_is_refused_is_told_by_its_line_and_nothing_is_written(rt: HostRuntime) -> Result<(), Fail> {
    for (words, input, fault, line) in REFUSED {
        let (answer, written) = served(rt.alloc(), words, input)?;
        assert!(rt; answer == Err(fault), "{words:?} {input}");
        assert!(rt; written.is_empty(), "{words:?} {input}");
        let told = fault_line(rt.alloc(), &fault)?;
        assert!(rt; told.as_str() == line);
    }
    Ok(())
}

/// The number of a history's entries.
fn entries_in(history: &str) -> usize {
    history.matches("\"call\":").count()
}

#[test]
fn each_history_that_is_run_is_judged_to_be_right(rt: HostRuntime) -> Result<(), Fail> {
    for (_, _, history) in RUNS {
        let (answer, written) = served(rt.alloc(), &["check"], history)?;
        assert!(rt; answer == Ok(Verdict::Accepted), "{history}");
        let line = format!(in rt.alloc(); "ok {}\n", entries_in(history))?;
        assert!(rt; written.as_str() == line.as_str(), "{history}");
    }
    Ok(())
}
