//! The end ports of a discovery.

ghost use Rattle.std.specs.Prelude.{◌≡◌, ◌++◌, IfOk, OnOk};
ghost use Rattle.std.specs.List.{flat_map};
ghost use Rattle.audit_ports.specs.Ends.{ends_of, line_end, node_guid_at, switch_end, switch_guid};

use netdiscover_file::{Discovery, FarEnd, Node, PortLine};
use std::alloc::{AllocError, Global};

/// An end port, as a discovery reports it.
#[derive(Clone, Copy, Debug)]
pub(crate) struct End {
    pub(crate) guid: u64,
    /// The GUID of its node.
    pub(crate) node_guid: u64,
    pub(crate) lid: u16,
    /// Whether it is port 0 of a switch.
    pub(crate) is_switch: bool,
    /// Its number.
    pub(crate) number: u8,
    /// Of a port of an adapter the port at the other end of its cable.
    pub(crate) far: Option<FarEnd>,
}

/// The GUID of a switch's port 0, or if that is not reported its node's.
pub(crate) fn switch_guid(node: &Node) -> u64
    ensures { result ≡ switch_guid node.now }
{
    node.port_guid.unwrap_or(node.id.guid)
}

fn push_switch(ends: &mut Vec<End>, node: &Node) -> Result<(), AllocError>
    ensures { OnOk result (ends.new.items ≡ ends.old.items ++ switch_end node.now) }
{
    if !node.id.kind.is_switch() {
        return Ok(());
    }
    match node.lid {
        Some(lid) => {
            ends.push(End {
                guid: switch_guid(node),
                node_guid: node.id.guid,
                lid,
                is_switch: true,
                number: 0,
                far: None,
            })?;
            Ok(())
        }
        None => Ok(()),
    }
}

/// The GUID of the node there.
fn node_guid_at(nodes: &[Node], place: usize) -> u64
    ensures { result ≡ node_guid_at nodes.now place }
{
    nodes.get(place).map_or(0, |node| node.id.guid)
}

fn push_line(ends: &mut Vec<End>, nodes: &[Node], line: &PortLine) -> Result<(), AllocError>
    ensures { OnOk result (ends.new.items ≡ ends.old.items ++ line_end nodes.now line.now) }
{
    match (line.guid, line.lid) {
        (Some(guid), Some(lid)) => {
            ends.push(End {
                guid,
                node_guid: node_guid_at(nodes, line.port.node),
                lid,
                is_switch: false,
                number: line.port.port,
                far: Some(line.far),
            })?;
            Ok(())
        }
        _ => Ok(()),
    }
}

fn push_switches(ends: &mut Vec<End>, nodes: &[Node]) -> Result<(), AllocError>
    ensures { OnOk result (ends.new.items ≡ ends.old.items ++ flat_map switch_end nodes.now) }
{
    for node in nodes {
        push_switch(ends, node)?;
    }
    Ok(())
}

fn push_lines(ends: &mut Vec<End>, nodes: &[Node], lines: &[PortLine]) -> Result<(), AllocError>
    ensures { OnOk result (ends.new.items ≡ ends.old.items ++ flat_map (line_end nodes.now) lines.now) }
{
    for line in lines {
        push_line(ends, nodes, line)?;
    }
    Ok(())
}

/// The end ports: port 0 of each switch, then the ports of adapters and routers, each in the order of the discovery.
pub(crate) fn ends_of(alloc: Global, discovery: &Discovery) -> Result<Vec<End>, AllocError>
    ensures { IfOk result (λ ends. ends.items ≡ ends_of discovery.now) }
{
    let mut ends = Vec::new(alloc);
    push_switches(&mut ends, discovery.nodes())?;
    push_lines(&mut ends, discovery.nodes(), discovery.ports())?;
    Ok(ends)
}
