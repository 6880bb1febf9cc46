// Five calls on a lock, one after another, in one thread.
#![tactic(auto)]

use stamp_core::{Call, Limits, replay};

fn main(rt: HostRuntime) -> anyhow::Result<()> {
    let limits = Limits::new(127, 1000)?;
    let calls = [
        Call::Optimistic,
        Call::TryWrite,
        Call::Validate(256),
        Call::UnlockWrite(384),
        Call::Validate(384),
    ];
    let replayed = replay(rt.alloc(), limits, &calls)?;
    for (call, reply) in calls.iter().zip(replayed.replies.iter()) {
        println!(rt; "{call:?}: {reply:?}")?;
    }
    println!(rt; "word: {}", replayed.word.bits())?;
    Ok(())
}
