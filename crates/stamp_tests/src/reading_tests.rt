use stamp_core::{Call, Layout, Limits, Reply, Words};
use stamp_explain::{Observation, Returned};
use stamp_history::ReadError;
use stamp_observed::read_observed;
use std::alloc::Global;
use std::test::Fail;

fn refusal_of(alloc: Global, text: &[u8]) -> Option<ReadError> {
    match read_observed(alloc, text) {
        Ok(_) => None,
        Err(fault) => Some(fault),
    }
}

#[test]
fn calls_that_returned_and_calls_under_way_are_read(rt: HostRuntime) -> Result<(), Fail> {
    let text = br#" {"width":2, "versions":5,"readers":127,"layout":2, "format":2,"entries":[
        {"thread":63,"reply":[7,8],"last":288230376151711743,"first":9,"call":["get"]},
        {"call":["put",[7,8]],"first":288230376151711743,"thread":0},
        {"call":["unlock",3],"first":4,"last":1,"reply":"mismatch","thread":63}]} "#;
    let read = read_observed(rt.alloc(), text)?;
    let words = Words::new(&[7, 8]).ok_or("no words")?;
    let wanted = [
        Observation {
            thread: 63,
            call: Call::Get,
            first: 9,
            returned: Some(Returned {
                last: 288_230_376_151_711_743,
                reply: Reply::Content(words),
            }),
        },
        Observation {
            thread: 0,
            call: Call::Put(words),
            first: 288_230_376_151_711_743,
            returned: None,
        },
        Observation {
            thread: 63,
            call: Call::Unlock(3),
            first: 4,
            returned: Some(Returned {
                last: 1,
                reply: Reply::Mismatch,
            }),
        },
    ];
    assert!(rt; read.limits() == Limits::in_layout(Layout::Two, 127, 5)?);
    assert!(rt; read.width() == 2);
    assert!(rt; read.entries() == wanted.as_slice());
    // Without a byte `stamped_explain` doesn't come to read.
    assert!(rt; refusal_of(rt.alloc(), b"") == Some(ReadError::NotJson));
    Ok(())
}
