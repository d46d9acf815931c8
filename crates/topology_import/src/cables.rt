//! The cables of the topology.

ghost use Rattle.std.specs.Prelude.{◌≡◌, ◌++◌, flat_map, OnOk, IfOk};
ghost use Rattle.topology_import.specs.Ends.{counted};
ghost use Rattle.topology_import.specs.Cables.{adapter_end, cable_at, cable_between, end_of, is_not_behind, switch_end};

use crate::ends::{EndList, counts};
use crate::nodes::switch_guid_at;
use fabric_parts::PortRef;
use netdiscover_file::{Discovery, Node, PortLine};
use std::alloc::{AllocError, Global};

/// An end of a cable: the GUID that its node has in the topology, and the number of the port there.
#[derive(Clone, Copy, PartialEq, Eq)]
pub(crate) struct End {
    pub(crate) guid: u64,
    pub(crate) port: u8,
}

/// A cable, with the line that reports it.
#[derive(Clone, Copy)]
pub(crate) struct CableMeant {
    pub(crate) first: End,
    pub(crate) second: End,
    pub(crate) line: usize,
}

/// The end port of this GUID, by its adapter and its number there.
pub(crate) fn adapter_end(ends: &EndList, guid: u64) -> End
    ensures { result ≡ adapter_end ends.now guid }
{
    let port = ends.number_of(guid);
    End {
        guid: guid.saturating_sub(u64::from(port)),
        port,
    }
}

fn switch_end(nodes: &[Node], port: PortRef) -> End
    ensures { result ≡ switch_end nodes.now port }
{
    End {
        guid: switch_guid_at(nodes, port.node),
        port: port.port,
    }
}

fn end_of(nodes: &[Node], ends: &EndList, line: &PortLine) -> End
    ensures { result ≡ end_of nodes.now ends.now line.now }
{
    match line.guid {
        Some(guid) => adapter_end(ends, guid),
        None => switch_end(nodes, line.port),
    }
}

fn is_not_behind(a: PortRef, b: PortRef) -> bool
    ensures { result ≡ is_not_behind a b }
{
    a.node < b.node || (a.node == b.node && a.port <= b.port)
}

fn push_between(
    list: &mut Vec<CableMeant>,
    nodes: &[Node],
    ends: &EndList,
    line: &PortLine,
    other: &PortLine,
) -> Result<(), AllocError>
    ensures { OnOk result (list.new.items ≡ list.old.items ++ cable_between nodes.now ends.now line.now other.now) }
{
    if is_not_behind(line.port, other.port) {
        list.push(CableMeant {
            first: end_of(nodes, ends, line),
            second: end_of(nodes, ends, other),
            line: line.line,
        })?;
    }
    Ok(())
}

fn push_at(
    list: &mut Vec<CableMeant>,
    discovery: &Discovery,
    ends: &EndList,
    line: &PortLine,
) -> Result<(), AllocError>
    ensures { OnOk result (list.new.items ≡ list.old.items ++ cable_at discovery.now ends.now line.now) }
{
    match discovery.far_line(&line.far) {
        Some(other) => push_between(list, discovery.nodes(), ends, line, other),
        None => Ok(()),
    }
}

fn counted(alloc: Global, discovery: &Discovery) -> Result<Vec<PortLine>, AllocError>
    ensures { IfOk result (λ lines. lines.items ≡ counted discovery.now) }
{
    let nodes = discovery.nodes();
    discovery
        .ports()
        .iter()
        .filter(|line| counts(nodes, *line))
        .copied()
        .collect(alloc)
}

/// Each cable once, at the first of the two ports that it joins.
pub(crate) fn cables_meant(
    alloc: Global,
    discovery: &Discovery,
    ends: &EndList,
) -> Result<Vec<CableMeant>, AllocError>
    ensures { IfOk result (λ list. list.items ≡ flat_map (cable_at discovery.now ends.now) (counted discovery.now)) }
{
    let lines = counted(alloc, discovery)?;
    let mut list = Vec::new(alloc);
    push_all(&mut list, discovery, ends, &lines)?;
    Ok(list)
}

fn push_all(
    list: &mut Vec<CableMeant>,
    discovery: &Discovery,
    ends: &EndList,
    lines: &[PortLine],
) -> Result<(), AllocError>
    ensures { OnOk result (list.new.items ≡ list.old.items ++ flat_map (cable_at discovery.now ends.now) lines.now) }
{
    for line in lines {
        push_at(list, discovery, ends, line)?;
    }
    Ok(())
}
