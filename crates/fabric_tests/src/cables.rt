//! The cable of the two-switch fabric is cut and mended.

use attr_tables::SmpAttribute;
use fabric_parts::PortRef;
use fabric_wire::{Fabric, get_attribute};
use std::process::Abort;
use std::test::Fail;
use test_fabrics::two_switch_fabric;

/// PortState and PortPhysicalState of ports 1 to 4 of the switch at the end of a path, a hexadecimal digit each.
fn states(fabric: &mut Fabric, path: &[u8]) -> Option<u32> {
    if path.len() > 63 {
        return None;
    }
    let mut digits = 0u32;
    for port in 1..5u32 {
        let info = get_attribute(fabric, 1, SmpAttribute::PortInfo, port, path).ok()?;
        digits = digits << 8 | u32::from(info[32] % 16) << 4 | u32::from(info[33] >> 4);
    }
    Some(digits)
}

/// With all its cables, and without that to the other switch.
const WHOLE: u32 = 0x25252512;

const CUT: u32 = 0x25251212;

/// Two ports, each by the place of its node and its number, whether a cable between them is mended or cut, and what is reported then
/// of A, and of B if SMPs get there. A is node 0, B node 1 and h0 node 2; between ports 4 there is no cable, and no port is 9.
const CHANGES: [(usize, u8, usize, u8, bool, u32, Option<u32>); 10] = [
    (0, 3, 1, 3, true, WHOLE, Some(WHOLE)),
    (0, 1, 2, 1, false, WHOLE, Some(WHOLE)),
    (0, 3, 1, 1, false, WHOLE, Some(WHOLE)),
    (0, 4, 1, 4, false, WHOLE, Some(WHOLE)),
    (0, 9, 1, 9, true, WHOLE, Some(WHOLE)),
    (0, 3, 1, 3, false, CUT, None),
    (1, 3, 0, 3, false, CUT, None),
    (0, 4, 1, 4, true, CUT, None),
    (1, 3, 0, 3, true, WHOLE, Some(WHOLE)),
    (1, 3, 0, 3, false, CUT, None),
];

fn is_cut_and_mended(rt: &impl Abort, fabric: &mut Fabric) {
    for (node, port, other_node, other_port, up, at_a, at_b) in CHANGES {
        let one = PortRef { node, port };
        let other = PortRef {
            node: other_node,
            port: other_port,
        };
        fabric.set_cable(one, other, up);
        let reported = (states(fabric, &[1]), states(fabric, &[1, 3]));
        assert!(rt; reported == (Some(at_a), at_b));
    }
}

#[test]
fn a_cable_between_switches_is_cut_and_mended_and_no_other(rt: HostRuntime) -> Result<(), Fail> {
    let mut fabric = two_switch_fabric(rt.alloc())?;
    is_cut_and_mended(&rt, &mut fabric);
    Ok(())
}
