//! Where the ports of channel adapters are, looked up by their GUIDs.

ghost use Rattle.std.specs.Prelude.{◌≡◌, ◌==◌, ◌+◌, true, OnOk, IfOk, nat_eq, flat_map};
ghost use Rattle.std.specs.List.{IsDistinct, list_all};
ghost use Rattle.std.specs.Option.{option_copied};
ghost use Rattle.indexmap.specs.IndexMap.{get};
ghost use Rattle.smp_wire.specs.Good.{end_port_guids, has_a_right_count};
ghost use Rattle.smp_wire.specs.Deliveries.{adapter_at};
ghost use Rattle.fabric_wire.specs.AdapterPorts.{Finds, IsReported};

use fabric_parts::{NodeType, PortRef};
use indexmap::IndexMap;
use port_model::AdapterPort;
use smp_wire::Node;
use std::alloc::{AllocError, Global};

/// The port of a channel adapter there, if there is one.
pub fn adapter_at(nodes: &[Node], at: PortRef) -> Option<&AdapterPort>
    ensures { option_copied result ≡ adapter_at nodes.now at }
{
    match nodes.get(at.node) {
        Some(Node::Adapter(ports)) => ports.port(at.port),
        Some(Node::Switch(_)) | None => None,
    }
}

/// Where each port of a channel adapter is, by its GUID. It can only run out of memory.
pub(crate) fn places_by_guid(
    alloc: Global,
    nodes: &[Node],
) -> Result<IndexMap<u64, PortRef>, AllocError>
    requires counts { list_all has_a_right_count nodes.now ≡ true }
    requires own { IsDistinct (λ a b. a == b) (flat_map end_port_guids nodes.now) }
    ensures { IfOk result (λ places. Finds nodes.now (get nat_eq places)) }
{
    let mut places = IndexMap::new(alloc);
    for node in 0..nodes.len() {
        put_ports(nodes, node, &mut places)?;
    }
    Ok(places)
}

/// Adds the ports of the node there, if it is a channel adapter.
fn put_ports(
    nodes: &[Node],
    node: usize,
    places: &mut IndexMap<u64, PortRef>,
) -> Result<(), AllocError>
    requires counts { list_all has_a_right_count nodes.now ≡ true }
    requires own { IsDistinct (λ a b. a == b) (flat_map end_port_guids nodes.now) }
    requires reported { IsReported nodes.now (get nat_eq places.old) node 1 }
    ensures { OnOk result (IsReported nodes.now (get nat_eq places.new) (node + 1) 1) }
{
    for port in 1..NodeType::ChannelAdapter.most_ports() + 1 {
        let at = PortRef { node, port };
        if let Some(held) = adapter_at(nodes, at) {
            places.insert(held.port_guid(), at)?;
        }
    }
    Ok(())
}
