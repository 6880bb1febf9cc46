//! What the errors say.
use stamped_lock::{Lost, Mismatch, Spent, UnlockError, UpdateError, WriteError};
use std::error::Error;
use std::test::Fail;

/// Takes any errors, as `?` does.
fn are_errors<A: Error, B: Error, C: Error, D: Error>(_: &A, _: &B, _: &C, _: &D) -> bool {
    true
}

#[test]
fn each_error_says_what_happened(rt: HostRuntime) -> Result<(), Fail> {
    let lost = UnlockError::Lost(Lost {
        loaded: 256,
        found: 384,
    });
    let said = format!(in rt.alloc();
        "{}\n{}\n{}\n{}\n{}\n{}\n{}\n{}",
        Mismatch,
        UnlockError::Mismatch,
        lost,
        WriteError::Spent,
        WriteError::Mismatch,
        Spent,
        UpdateError::Declined(7u64),
        UpdateError::<u64>::Spent
    )?;
    let want = "the stamp matches no held mode that the call releases\n\
        the stamp matches no held mode that the call releases\n\
        another thread changed the lock: try again\n\
        the lock has no version left to write\n\
        the lock was released before its section ended\n\
        no version is left to put words\n\
        the update declined the value\n\
        no version is left to put words";
    assert!(rt; said.as_str() == want);
    assert!(rt;
        are_errors(
            &Mismatch,
            &lost,
            &WriteError::Spent,
            &UpdateError::Declined(7u64)
        )
    );
    Ok(())
}
