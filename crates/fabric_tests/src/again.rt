//! A push of ports over a fabric that has what it sets.

use crate::fixtures::found;
use fabric_wire::{CountingWire, Fabric};
use std::process::Abort;
use std::test::Fail;
use table_push::push_ports;
use updn_routes::Routes;

/// How many SMPs a push of ports takes.
fn smps(wire: &mut CountingWire<Fabric>, routes: &Routes) -> Result<u64, Fail> {
    wire.count = 0;
    push_ports(wire, routes).or(Err("a push"))?;
    Ok(wire.count)
}

/// Ports that hold what they are to have are asked and not set: two ports 0 and the ten ports that a cable ends in, and the ten
/// once more, whether they are Active. LinearFDBTop of two switches is got and set.
fn are_set_once(
    rt: &impl Abort,
    wire: &mut CountingWire<Fabric>,
    routes: &Routes,
) -> Result<(), Fail> {
    assert!(rt; smps(wire, routes)? == 48);
    assert!(rt; smps(wire, routes)? == 26);
    Ok(())
}

#[test]
fn what_ports_have_is_not_set_again(rt: HostRuntime) -> Result<(), Fail> {
    let (wire, routes) = found(rt.alloc())?;
    let mut counting = CountingWire { wire, count: 0 };
    are_set_once(&rt, &mut counting, &routes)
}
