// A list of at most eight names: two threads put names on it, and one reads meanwhile how many places are left.
#![tactic(auto)]

use anyhow::bail;
use stamp_core::{Layout, Limits};
use stamped_value::{RuledHandle, RuledValue, ValueRule};
use std::alloc::{AllocError, Global};
use std::sync::Wait;
use std::thread::join;

/// How many names there are at most.
const PLACES: usize = 8;

/// There are no more names than places.
struct HasPlaces;

impl ValueRule<Vec<String>> for HasPlaces {
    ghost use Rattle.std.specs.Prelude.{◌≤◌, vec_len};

    ghost holds = { λ names. vec_len names ≤ 8 };
}

/// The list, as threads share it.
type Names = RuledValue<Vec<String>, HasPlaces>;

/// One thread's way to it.
type NamesHandle<'a> = RuledHandle<'a, Vec<String>, HasPlaces>;

/// Puts names on the list until no place is left.
fn put<R: Wait>(rt: &R, alloc: Global, mut names: NamesHandle<'_>) -> anyhow::Result<()> {
    for guest in 0..=PLACES {
        let name = format!(in alloc; "guest {guest}")?;
        let tried = names.write_with(rt, |names: &mut Vec<String>| -> Result<bool, AllocError> {
            if names.len() == PLACES {
                return Ok(false);
            }
            names.push(name)?;
            Ok(true)
        });
        let Some(is_put) = tried else {
            bail!("no version is left");
        };
        if !is_put? {
            break;
        }
    }
    Ok(())
}

/// The fewest places that were left in a thousand reads. By the rule the difference can't wrap.
fn fewest_left<R: Wait>(rt: &R, mut names: NamesHandle<'_>) -> usize {
    let mut fewest = PLACES;
    for _ in 0..1000 {
        let left = names.read_with(rt, |names: &Vec<String>| PLACES - names.len());
        fewest = left.min(fewest);
    }
    fewest
}

fn main(rt: HostRuntime) -> anyhow::Result<()> {
    let alloc = rt.alloc();
    let Ok(names) = Names::new(alloc, Limits::widest(Layout::One), Vec::new(alloc)) else {
        bail!("no memory for the names");
    };
    let (a, b, c) = (names.enter(), names.enter(), names.enter());
    let ((first, second), fewest) = join(
        &rt,
        || join(&rt, || put(&rt, alloc, a), || put(&rt, alloc, b)),
        || fewest_left(&rt, c),
    );
    first?;
    second?;
    let left = PLACES - names.into_inner().len();
    let is_right = left <= fewest;
    println!(rt; "right: {is_right}, left: {left}")?;
    Ok(())
}
