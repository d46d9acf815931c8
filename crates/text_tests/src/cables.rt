//! Lines that cut and mend a cable of the two-switch fabric.

use fabric_parts::{Cable, PortRef};
use script_lines::command_of;
use std::test::Fail;
use subnet_model::{CableCommand, Command};
use test_fabrics::TWO_SWITCHES;
use topo_file::{Topology, read};

/// Port 3 of A and of B, which are the first two nodes.
const OF_A: PortRef = PortRef { node: 0, port: 3 };

const OF_B: PortRef = PortRef { node: 1, port: 3 };

#[test]
fn a_line_names_a_cable_by_its_ends_in_either_order(rt: HostRuntime) -> Result<(), Fail> {
    let topology = read(rt.alloc(), TWO_SWITCHES.as_bytes())?;
    assert!(rt; cable_in(&topology, b"cut A/3 B/3\n") == Some(from(OF_A, OF_B, false)));
    assert!(rt; cable_in(&topology, b"mend B/3 A/3") == Some(from(OF_B, OF_A, true)));
    Ok(())
}

/// What a line does to a cable.
fn cable_in(topology: &Topology, line: &[u8]) -> Option<CableCommand> {
    match command_of(topology, line) {
        Ok(Some(Command::Cable(command))) => Some(command),
        _ => None,
    }
}

fn from(first: PortRef, second: PortRef, up: bool) -> CableCommand {
    CableCommand {
        cable: Cable { first, second },
        up,
    }
}
