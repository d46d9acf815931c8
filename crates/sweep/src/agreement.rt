//! Whether what was reported of a fabric agrees with itself.

ghost use Rattle.std.specs.Prelude.{◌≡◌, ◌==◌, ◌&&◌, nat_le, [], length, get_or, IfOk};
ghost use Rattle.std.specs.Bool.{Decides};
ghost use Rattle.std.specs.List.{IsDistinct, list_all, list_any, range_with_len};
ghost use Rattle.sweep.specs.Graph.{IsGraph, count_at, end_guids, graph_with, hops_to, is_joined, is_linked, is_near, is_right_link, is_right_port, is_right_row, is_right_switch, is_switch_port, rise_above};
ghost use Rattle.fabric_parts.specs.declared.limits.TheConstants.{ADAPTER_PORTS, SWITCHES};

use crate::adapters::all_agree;
use crate::graph::{GraphLink, GraphPort, GraphRow, GraphSwitch};
use crate::path::PATH_HOPS;
use crate::switch_list::SwitchList;
use fabric_parts::{ADAPTER_PORTS, NodeType, PortRef, SWITCHES};
use std::alloc::{AllocError, Global};
use std::collections::HashSet;

/// Whether these are a graph. It can only run out of memory.
pub(crate) fn are_a_graph(
    alloc: Global,
    manager: u64,
    switches: &SwitchList,
    rows: &[GraphRow],
    ports: &[GraphPort],
) -> Result<bool, AllocError>
    ensures { IfOk result (λ b. Decides b (IsGraph (graph_with manager switches.now rows.now ports.now))) }
{
    if !are_few(switches.as_slice(), rows, ports) || !are_right(switches, rows, ports) {
        return Ok(false);
    }
    if !has_guid(ports, manager) || !all_agree(alloc, ports)? {
        return Ok(false);
    }
    have_own_guids(alloc, switches.as_slice(), ports)
}

/// Whether there are as many rows as switches, and no more switches and ports than a graph holds.
fn are_few(switches: &[GraphSwitch], rows: &[GraphRow], ports: &[GraphPort]) -> bool
    ensures { result ≡ (nat_le (length switches.now) SWITCHES
        && (nat_le (length ports.now) ADAPTER_PORTS && (length rows.now == length switches.now))) }
{
    switches.len() <= SWITCHES && ports.len() <= ADAPTER_PORTS && rows.len() == switches.len()
}

/// Whether each switch, link and port is one that a fabric of ours may have.
fn are_right(switches: &SwitchList, rows: &[GraphRow], ports: &[GraphPort]) -> bool
    ensures { result ≡ (list_all is_right_switch switches.now
        && (list_all (is_right_row switches.now rows.now) (range_with_len 0 (length rows.now))
        && list_all (is_right_port switches.now) ports.now)) }
{
    are_right_switches(switches.as_slice())
        && are_right_rows(switches.as_slice(), rows)
        && are_right_ports(switches, ports)
}

/// Whether each switch is right.
fn are_right_switches(switches: &[GraphSwitch]) -> bool
    ensures { result ≡ list_all is_right_switch switches.now }
{
    switches.iter().all(|switch| is_right_switch(switch))
}

/// Whether the links of each switch are right.
fn are_right_rows(switches: &[GraphSwitch], rows: &[GraphRow]) -> bool
    ensures { result ≡ list_all (is_right_row switches.now rows.now) (range_with_len 0 (length rows.now)) }
{
    (0..rows.len()).all(|place| is_right_row(switches, rows, place))
}

/// Whether each port is right.
fn are_right_ports(switches: &SwitchList, ports: &[GraphPort]) -> bool
    ensures { result ≡ list_all (is_right_port switches.now) ports.now }
{
    ports.iter().all(|port| is_right_port(switches, port))
}

/// Whether it has 1 to 36 ports, and was found by a path of 1 to 63 hops.
fn is_right_switch(switch: &GraphSwitch) -> bool
    ensures { result ≡ is_right_switch switch.now }
{
    1 <= switch.num_ports
        && switch.num_ports <= NodeType::Switch.most_ports()
        && 1 <= switch.path.len()
        && switch.path.len() <= PATH_HOPS
}

/// How many ports the switch at that place has; none, if there is no switch.
pub(crate) fn count_at(switches: &[GraphSwitch], place: usize) -> u8
    ensures { result ≡ count_at switches.now place }
{
    match switches.get(place) {
        Some(switch) => switch.num_ports,
        None => 0,
    }
}

/// The links of the switch at that place; none, if there is no switch.
pub(crate) fn links_at(rows: &[GraphRow], place: usize) -> &[GraphLink]
    ensures { result.now ≡ get_or rows.now place [] }
{
    match rows.get(place) {
        Some(row) => row.as_slice(),
        None => &[],
    }
}

/// Whether a link out of that port leads there.
pub(crate) fn is_linked(rows: &[GraphRow], here: PortRef, there: PortRef) -> bool
    ensures { result ≡ is_linked rows.now here there }
{
    links_at(rows, here.node)
        .iter()
        .any(|link| link.port == here.port && link.to == there)
}

/// Whether the ports of links rise, from above that number.
fn rise_above(last: u8, links: &[GraphLink]) -> bool
    ensures { result ≡ rise_above last links.now }
{
    let mut last = last;
    for link in links {
        if link.port <= last {
            return false;
        }
        last = link.port;
    }
    true
}

/// Whether a link is out of a port of the switch at that place, to a port of another, which leads back.
fn is_right_link(
    switches: &[GraphSwitch],
    rows: &[GraphRow],
    place: usize,
    link: &GraphLink,
) -> bool
    ensures { result ≡ is_right_link switches.now rows.now place link.now }
{
    let here = PortRef {
        node: place,
        port: link.port,
    };
    link.port <= count_at(switches, place)
        && link.to.node != place
        && is_linked(rows, link.to, here)
}

/// Whether the links of the switch at that place are right, and in the order of their ports.
fn is_right_row(switches: &[GraphSwitch], rows: &[GraphRow], place: usize) -> bool
    ensures { result ≡ is_right_row switches.now rows.now place }
{
    let links = links_at(rows, place);
    rise_above(0, links) && are_right_links(switches, rows, place, links)
}

/// Whether each of these links of the switch at that place is right.
fn are_right_links(
    switches: &[GraphSwitch],
    rows: &[GraphRow],
    place: usize,
    links: &[GraphLink],
) -> bool
    ensures { result ≡ list_all (is_right_link switches.now rows.now place) links.now }
{
    links
        .iter()
        .all(|link| is_right_link(switches, rows, place, link))
}

/// Whether some link of the switch at that place leads to one that was found earlier.
fn is_near(rows: &[GraphRow], place: usize) -> bool
    ensures { result ≡ is_near rows.now place }
{
    links_at(rows, place)
        .iter()
        .any(|link| link.to.node < place)
}

/// Whether some link of each switch but the first leads to one that was found earlier.
pub(crate) fn has_a_nearer_switch(rows: &[GraphRow]) -> bool
    ensures { result ≡ is_joined rows.now }
{
    (0..rows.len()).all(|place| place == 0 || is_near(rows, place))
}

/// Whether that is a port of a switch.
pub(crate) fn is_switch_port(switches: &[GraphSwitch], at: PortRef) -> bool
    ensures { result ≡ is_switch_port switches.now at }
{
    1 <= at.port && at.port <= count_at(switches, at.node)
}

/// How many hops the path to the switch at that place has; none, if there is no switch.
fn hops_to(switches: &[GraphSwitch], place: usize) -> usize
    ensures { result ≡ hops_to switches.now place }
{
    match switches.get(place) {
        Some(switch) => switch.path.len(),
        None => 0,
    }
}

/// Whether it is attached to a port of a switch that a path goes on from, and is one of an adapter of 1 to 8 ports.
fn is_right_port(switches: &SwitchList, port: &GraphPort) -> bool
    ensures { result ≡ is_right_port switches.now port.now }
{
    is_switch_port(switches.as_slice(), port.at)
        && 1 <= port.number
        && port.number <= port.num_ports
        && port.num_ports <= NodeType::ChannelAdapter.most_ports()
        && !switches.has(port.node_guid)
        && hops_to(switches.as_slice(), port.at.node) < PATH_HOPS
}

/// Whether one of these ports has the GUID.
fn has_guid(ports: &[GraphPort], guid: u64) -> bool
    ensures { result ≡ list_any (λ port. port.port_guid == guid) ports.now }
{
    ports.iter().any(|port| port.port_guid == guid)
}

/// Whether no two of switches and ports have one GUID. It can only run out of memory.
fn have_own_guids(
    alloc: Global,
    switches: &[GraphSwitch],
    ports: &[GraphPort],
) -> Result<bool, AllocError>
    ensures { IfOk result (λ b. Decides b (IsDistinct (λ a b. a == b) (end_guids switches.now ports.now))) }
{
    let guids = end_guids(alloc, switches, ports)?;
    are_distinct(alloc, &guids)
}

/// The GUIDs of switches and ports. It can only run out of memory.
pub(crate) fn end_guids(
    alloc: Global,
    switches: &[GraphSwitch],
    ports: &[GraphPort],
) -> Result<Vec<u64>, AllocError>
    ensures { IfOk result (λ guids. guids.items ≡ end_guids switches.now ports.now) }
{
    let of_switches = switches.iter().map(|switch| switch.guid);
    let of_ports = ports.iter().map(|port| port.port_guid);
    of_switches.chain(of_ports).collect(alloc)
}

/// Whether no two are the same. It can only run out of memory.
fn are_distinct(alloc: Global, guids: &[u64]) -> Result<bool, AllocError>
    ensures { IfOk result (λ b. Decides b (IsDistinct (λ a b. a == b) guids.now)) }
{
    let set: HashSet<u64> = guids.iter().copied().collect(alloc)?;
    Ok(set.len() == guids.len())
}
