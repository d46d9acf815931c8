//! Sweeps of the two-switch fabric.

mod contradictions;
mod fault_texts;

use fabric_wire::SilencedWire;
use std::alloc::Global;
use std::test::Fail;
use sweep::{SweepFault, sweep};
use test_fabrics::two_switch_wire;

/// What a sweep answers if no reply comes behind so many.
fn fault_behind(alloc: Global, left: u64) -> Result<Option<SweepFault>, Fail> {
    let wire = two_switch_wire(alloc)?;
    Ok(sweep(alloc, &mut SilencedWire { wire, left }).err())
}

/// SMPs of a sweep: from each switch's ports PortInfo, from what is behind those with a cable NodeInfo, from
/// each node NodeDescription, and the SM port before all.
const SMPS: u64 = 22;

#[test]
fn a_sweep_stops_where_no_reply_comes(rt: HostRuntime) -> Result<(), Fail> {
    for left in 0..SMPS {
        assert!(rt; fault_behind(rt.alloc(), left)? == Some(SweepFault::NoReply));
    }
    assert!(rt; fault_behind(rt.alloc(), SMPS)? == None);
    Ok(())
}
