// The port of each host, in one map: a thread puts a thousand in, and three look them up meanwhile, by guards.
#![tactic(auto)]

use anyhow::bail;
use stamp_core::{Layout, Limits};
use stamped_value::StampedValue;
use std::alloc::Global;
use std::collections::HashMap;
use std::sync::Wait;
use std::thread::join;

/// The port of each host whose name is known.
type Ports = HashMap<String, u64>;

/// Puts the ports of a thousand hosts into the map, each by a guard of its own. A guard is released where it
/// is dropped, so where memory is wanting, too.
fn put<R: Wait>(rt: &R, alloc: Global, ports: &StampedValue<Ports>) -> anyhow::Result<()> {
    for host in 0..1000u64 {
        let name = format!(in alloc; "host {host}")?;
        let Ok(mut writer) = ports.enter().write(rt) else {
            bail!("no version is left");
        };
        writer.insert(name, 8000 + host)?;
    }
    Ok(())
}

/// Looks a thousand hosts up: whether each that is known by then has its own port.
fn watch<R: Wait>(rt: &R, alloc: Global, ports: &StampedValue<Ports>) -> anyhow::Result<bool> {
    let mut are_right = true;
    for host in 0..1000u64 {
        let name = format!(in alloc; "host {host}")?;
        let port = ports.enter().read(rt).get(name.as_str()).copied();
        are_right = are_right && port.is_none_or(|port| port == 8000 + host);
    }
    Ok(are_right)
}

fn main(rt: HostRuntime) -> anyhow::Result<()> {
    let alloc = rt.alloc();
    let Ok(ports) = StampedValue::new(alloc, Limits::widest(Layout::One), Ports::new(alloc)) else {
        bail!("no memory for the map");
    };
    let looks = || watch(&rt, alloc, &ports);
    let ((put, one), (two, three)) = join(
        &rt,
        || join(&rt, || put(&rt, alloc, &ports), looks),
        || join(&rt, looks, looks),
    );
    put?;
    let are_right = one? && two? && three?;
    let Ok(ports) = ports.into_inner() else {
        bail!("a writer's guard was leaked");
    };
    println!(rt; "right: {are_right}, known: {}", ports.len())?;
    Ok(())
}
