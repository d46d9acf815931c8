//! The end ports of a discovery, and the adapters that their GUIDs make of them.

ghost use Rattle.std.specs.Prelude.{◌≡◌, ◌++◌, [], ◌∷◌, if◌then◌else◌, length, IfOk, OnOk};
ghost use Rattle.std.specs.Option.{option_copied};
ghost use Rattle.topology_import.specs.Ends.{counts, end_with, ends, firsts, guid_of, is_above, is_below, is_end, is_first, is_port_guid, is_router, is_router_at, number_of, place_of_end, ports_from};

use crate::index::GuidIndex;
use netdiscover_file::{Discovery, Node, NodeKind, PortLine};
use std::alloc::{AllocError, Global};
use std::marker::Model;

pub(crate) fn is_router(kind: NodeKind) -> bool
    ensures { result ≡ is_router kind }
{
    match kind {
        NodeKind::Router => true,
        NodeKind::Switch => false,
        NodeKind::ChannelAdapter => false,
    }
}

fn is_router_at(nodes: &[Node], place: usize) -> bool
    ensures { result ≡ is_router_at nodes.now place }
{
    match nodes.get(place) {
        Some(node) => is_router(node.id.kind),
        None => false,
    }
}

/// Whether no router is at either end of the cable.
pub(crate) fn counts(nodes: &[Node], line: &PortLine) -> bool
    ensures { result ≡ counts nodes.now line.now }
{
    !(is_router_at(nodes, line.port.node) || is_router(line.far.node.kind))
}

fn is_end(nodes: &[Node], line: &PortLine) -> bool
    ensures { result ≡ is_end nodes.now line.now }
{
    counts(nodes, line) && line.guid.is_some()
}

/// The GUID of an end port.
pub(crate) fn guid_of(line: &PortLine) -> u64
    ensures { result ≡ guid_of line.now }
{
    line.guid.unwrap_or(0)
}

/// End ports, found by their GUIDs in constant time.
#[derive(Drop)]
pub(crate) struct EndList {
    // The GUIDs again, each at the place of its line.
    guids: GuidIndex,
    lines: Vec<PortLine>,
}

impl Model for EndList {
    ghost use Rattle.std.specs.Prelude.{◌≡◌, List, map};
    ghost use Rattle.netdiscover_file.specs.declared.port.PortLine.{PortLine};
    ghost use Rattle.topology_import.specs.Ends.{guid_of};

    ghost Value = { List PortLine };

    ghost view = { λ list. list.lines.items };

    ghost invariant = { λ list. list.guids ≡ map (λ line. guid_of line) list.lines.items };
}

impl EndList {
    fn new(alloc: Global) -> EndList
        ensures { result ≡ [] }
    {
        EndList {
            guids: GuidIndex::new(alloc),
            lines: Vec::new(alloc),
        }
    }

    /// The end ports of a discovery, in the order of their lines.
    pub(crate) fn of(alloc: Global, discovery: &Discovery) -> Result<EndList, AllocError>
        ensures { IfOk result (λ list. list ≡ ends discovery.now) }
    {
        let nodes = discovery.nodes();
        let mut list = EndList::new(alloc);
        let ports = discovery.ports();
        for line in ports {
            list.push_if_end(nodes, line)?;
        }
        Ok(list)
    }

    pub(crate) fn count(&self) -> usize
        ensures { result ≡ length self.now }
    {
        self.lines.len()
    }

    fn push_if_end(&mut self, nodes: &[Node], line: &PortLine) -> Result<(), AllocError>
        ensures { OnOk result (self.new ≡ self.old ++ (if is_end nodes.now line.now then line.now ∷ [] else [])) }
    {
        if is_end(nodes, line) {
            self.push(*line)?;
        }
        Ok(())
    }

    fn push(&mut self, line: PortLine) -> Result<(), AllocError>
        ensures { OnOk result (self.new ≡ self.old ++ line ∷ []) }
    {
        self.lines.reserve(1)?;
        self.guids.push(guid_of(&line))?;
        self.lines.push(line)?;
        Ok(())
    }

    fn as_slice(&self) -> &[PortLine]
        ensures { result.now ≡ self.now }
    {
        self.lines.as_slice()
    }

    fn place_of(&self, guid: u64) -> Option<usize>
        ensures { result ≡ place_of_end guid self.now }
    {
        self.guids.place_of(guid)
    }

    /// The line of the end port of this GUID.
    pub(crate) fn end_with(&self, guid: u64) -> Option<&PortLine>
        ensures { option_copied result ≡ end_with guid self.now }
    {
        match self.place_of(guid) {
            Some(place) => self.as_slice().get(place),
            None => None,
        }
    }

    /// Whether an end port has this GUID.
    pub(crate) fn is_port_guid(&self, guid: u64) -> bool
        ensures { result ≡ is_port_guid self.now guid }
    {
        self.place_of(guid).is_some()
    }

    fn is_below(&self, guid: u64, steps: u8) -> bool
        ensures { result ≡ is_below self.now guid steps }
    {
        u64::from(steps) <= guid && self.is_port_guid(guid - u64::from(steps))
    }

    pub(crate) fn is_above(&self, guid: u64, steps: u8) -> bool
        ensures { result ≡ is_above self.now guid steps }
    {
        match guid.checked_add(u64::from(steps)) {
            Some(above) => self.is_port_guid(above),
            None => false,
        }
    }

    /// The number of the port of this GUID at its adapter.
    pub(crate) fn number_of(&self, guid: u64) -> u8
        ensures { result ≡ number_of self.now guid }
    {
        for steps in 1..9 {
            if !self.is_below(guid, steps) {
                return steps;
            }
        }
        9
    }

    /// How many ports the adapter has of which this is the GUID of the first.
    pub(crate) fn ports_from(&self, guid: u64) -> u8
        ensures { result ≡ ports_from self.now guid }
    {
        for steps in 1..9 {
            if !self.is_above(guid, steps) {
                return steps;
            }
        }
        9
    }

    fn is_first(&self, line: &PortLine) -> bool
        ensures { result ≡ is_first self.now line.now }
    {
        !self.is_below(guid_of(line), 1)
    }

    /// The first ports of adapters, in the order of their lines.
    pub(crate) fn firsts(&self, alloc: Global) -> Result<Vec<PortLine>, AllocError>
        ensures { IfOk result (λ lines. lines.items ≡ firsts self.now) }
    {
        self.as_slice()
            .iter()
            .filter(|line| self.is_first(*line))
            .copied()
            .collect(alloc)
    }
}
