use stamp_observed::{read_observed, write_observed};
use std::test::Fail;

/// Texts without spaces, the keys of which rise: of either format, with a call under way, and with words.
const TEXTS: [&str; 3] = [
    r#"{"entries":[],"format":1,"readers":2,"versions":3,"width":0}"#,
    r#"{"entries":[{"call":["write_lock"],"first":1,"last":4,"reply":384,"thread":0},{"call":["unlock",384],"first":5,"thread":0}],"format":2,"layout":2,"readers":2,"versions":3,"width":0}"#,
    r#"{"entries":[{"call":["put_if",[0],[7]],"first":1,"last":4,"reply":"yes","thread":63}],"format":1,"readers":2,"versions":3,"width":1}"#,
];

#[test]
fn what_was_read_is_written_as_it_was(rt: HostRuntime) -> Result<(), Fail> {
    for text in TEXTS {
        let observed = read_observed(rt.alloc(), text.as_bytes())?;
        let written = write_observed(rt.alloc(), &observed)?;
        assert!(rt; written.as_slice() == text.as_bytes(), "{text}");
    }
    Ok(())
}
