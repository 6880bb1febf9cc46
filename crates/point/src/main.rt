//! Two threads move a point, and two ask meanwhile how far it is from the origin.
//!
//! Each move is by 3 in one direction and by 4 in the other, so each distance is a multiple of 5. A
//! reader that saw one coordinate before a move and the other after it would find another one.
#![tactic(auto)]

mod point;
mod threads;

use anyhow::Result;
use point::Point;
use std::thread::join;
use threads::{move_by_two, watch_by_two};

fn main(rt: HostRuntime) -> Result<()> {
    let point = Point::new(rt.alloc())?;
    let (starts, watched) = join(
        &rt,
        || move_by_two(&rt, &point),
        || watch_by_two(&rt, &point),
    );
    watched?;
    println!(rt; "moves from the origin: {}", starts?)?;
    let distance = point.enter().squared_distance(&rt)?.isqrt();
    println!(rt; "distance at the end: {distance}")?;
    Ok(())
}
