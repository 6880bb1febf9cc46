//! Handles that share what they know.
ghost use Rattle.std.specs.Prelude.{◌≡◌};

use crate::fixtures::made;
use stamp_core::{Layout, Limits};
use stamped_value::{RuledValue, ValueHandle, ValueRule};
use std::sync::Wait;
use std::test::Fail;

/// Adds one: what the number is then, or 0 where no version is left.
fn add_one<'a, R: Wait>(rt: &'a R, handle: ValueHandle<'a, u64>) -> (u64, ValueHandle<'a, u64>)
    ensures { result.1.lock ≡ handle.entry.lock }
{
    match handle.write(rt) {
        Ok(mut writer) => {
            *writer = writer.wrapping_add(1);
            (*writer, writer.release())
        }
        Err(handle) => (0, handle),
    }
}

#[test]
fn handles_that_met_go_on_with_one_value(rt: HostRuntime) -> Result<(), Fail> {
    let value = made(rt.alloc(), 0u64)?;
    let (one, mut first) = add_one(&rt, value.enter());
    let (two, mut second) = add_one(&rt, value.enter());
    first.meet(&mut second);
    assert!(rt; (one, two) == (1, 2) && first.optimistic() == second.optimistic());
    let (three, mut second) = add_one(&rt, second);
    second.meet(&mut first);
    let (four, _) = add_one(&rt, first);
    assert!(rt; (three, four, second.read_with(&rt, |n: &u64| *n)) == (3, 4, 4));
    Ok(())
}

/// Any number.
struct Any;

impl ValueRule<u64> for Any {
    ghost holds = { λ _. Unit {0} };
}

#[test]
fn handles_of_a_ruled_value_meet(rt: HostRuntime) -> Result<(), Fail> {
    let made = RuledValue::<u64, Any>::new(rt.alloc(), Limits::widest(Layout::One), 7);
    let Ok(value) = made else {
        return Err(Fail::from("no memory for the value"));
    };
    let (mut first, mut second) = (value.enter(), value.enter());
    assert!(rt; first.write_with(&rt, |n: &mut u64| *n = 8).is_some());
    first.meet(&mut second);
    assert!(rt; second.read_with(&rt, |n: &u64| *n) == 8);
    Ok(())
}
