//! What the end ports of the two-switch fabric are set to.

use crate::fixtures::found;
use attr_tables::SmpAttribute;
use fabric_wire::{SmpWire, get_attribute};
use std::process::Abort;
use std::test::Fail;
use table_push::push_ports;
use updn_routes::Routes;

/// End ports by the paths to them, and their LIDs.
const ENDS: [(&[u8], u8); 6] = [
    (&[], 1),
    (&[1], 2),
    (&[1, 3], 3),
    (&[1, 2], 4),
    (&[1, 3, 1], 5),
    (&[1, 3, 2], 6),
];

/// Where GidPrefix stands in PortInfo, and behind it the LID and the subnet manager's LID; PortState, four bits.
const GID_PREFIX: usize = 8;

const STATE: usize = 32;

/// Each end port has the link-local prefix, its LID and the subnet manager's, and is Active.
fn ends_stand<W: SmpWire>(rt: &impl Abort, wire: &mut W) -> Result<(), Fail> {
    for (path, lid) in ENDS {
        let info = get_attribute(wire, 1, SmpAttribute::PortInfo, 0, path).or(Err("a Get"))?;
        let wanted = [0xfe, 0x80, 0, 0, 0, 0, 0, 0, 0, lid, 0, 1];
        assert!(rt; &info[GID_PREFIX..GID_PREFIX + 12] == wanted.as_slice());
        assert!(rt; (info[STATE] & 0x0f) == 4);
    }
    Ok(())
}

fn ends_are_reported<W: SmpWire>(
    rt: &impl Abort,
    wire: &mut W,
    routes: &Routes,
) -> Result<(), Fail> {
    push_ports(wire, routes).or(Err("a push"))?;
    ends_stand(rt, wire)
}

#[test]
fn end_ports_are_reported_their_lid_and_the_managers(rt: HostRuntime) -> Result<(), Fail> {
    let (mut fabric, routes) = found(rt.alloc())?;
    ends_are_reported(&rt, &mut fabric, &routes)
}
