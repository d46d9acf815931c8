//! The nodes of end ports.

ghost use Rattle.std.specs.Prelude.{◌≡◌, option_map};
ghost use Rattle.fabric_tables.specs.Nodes.{node_of};

use fabric_wire::{Fabric, Node};
use subnet_model::SubnetPort;
use topo_file::Topology;

/// Where the node of an end port stands in its fabric, and the node, if the topology lists one of that name. The nodes of
/// the fabric stand as the topology lists them.
pub(crate) fn node_of<'a>(
    topology: &Topology,
    fabric: &'a Fabric,
    port: &SubnetPort,
) -> Option<(usize, &'a Node)>
    ensures { option_map (λ found. (found.0, found.1.now)) result ≡ node_of topology.now.nodes fabric.now port.now }
{
    let place = topology.index_of(port.node_name.as_slice())?;
    let node = fabric.nodes().get(place)?;
    Some((place, node))
}
