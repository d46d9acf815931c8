//! Pairs of ports that cables join, looked up in constant time.

ghost use Rattle.std.specs.Prelude.{◌≡◌, ◌||◌, [], IfOk, OnOk};
ghost use Rattle.std.specs.List.{list_any};
ghost use Rattle.topology_import.specs.Ends.{counted};
ghost use Rattle.topology_import.specs.declared.port_pairs.PortPair.{PortPair};
ghost use Rattle.topology_import.specs.PortPairs.{cable_pair, end_key, is_pair_of, is_same_pair, joins, line_key, pair_of, port_key, switch_key};

use crate::agreement::port_guid_at;
use crate::ends::counts;
use crate::nodes::switch_guid_at;
use fabric_parts::{Cable, PortRef};
use indexmap::IndexSet;
use netdiscover_file::{Discovery, PortLine};
use std::alloc::{AllocError, Global};
use std::marker::Model;
use topo_file::{LargeTopology, Node, guid_at, is_switch_at};

/// A port named by GUIDs alone: an end port by its own, a port of a switch by that of the switch and its number, from 1 on.
#[derive(Clone, Copy, Debug, PartialEq, Eq, Hash)]
pub(crate) struct PortKey {
    guid: u128,
    number: u16,
}

/// Two ports that are joined.
#[derive(Clone, Copy, Debug, PartialEq, Eq, Hash)]
pub(crate) struct PortPair {
    first: PortKey,
    second: PortKey,
}

impl PortKey {
    fn end(guid: u128) -> PortKey
        ensures { result ≡ end_key guid }
    {
        PortKey { guid, number: 0 }
    }

    fn at_switch(guid: u64, number: u8) -> PortKey
        ensures { result ≡ switch_key guid number }
    {
        PortKey {
            guid: u128::from(guid),
            number: u16::from(number) + 1,
        }
    }

    /// The port of a topology.
    pub(crate) fn of_port(nodes: &[Node], port: PortRef) -> PortKey
        ensures { result ≡ port_key nodes.now port }
    {
        if is_switch_at(nodes, port.node) {
            PortKey::at_switch(guid_at(nodes, port.node), port.port)
        } else {
            PortKey::end(port_guid_at(nodes, port))
        }
    }

    /// The port that a line reports.
    pub(crate) fn of_line(discovery: &Discovery, line: &PortLine) -> PortKey
        ensures { result ≡ line_key discovery.now line.now }
    {
        match line.guid {
            Some(guid) => PortKey::end(u128::from(guid)),
            None => {
                let guid = switch_guid_at(discovery.nodes(), line.port.node);
                PortKey::at_switch(guid, line.port.port)
            }
        }
    }
}

/// Pairs of ports.
#[derive(Drop)]
pub(crate) struct PortPairs {
    pairs: IndexSet<PortPair>,
}

impl Model for PortPairs {
    ghost use Rattle.std.specs.Prelude.{List};
    ghost use Rattle.topology_import.specs.declared.port_pairs.PortPair.{PortPair};

    ghost Value = { List PortPair };

    ghost view = { λ pairs. pairs.pairs.keys };
}

impl PortPairs {
    fn new(alloc: Global) -> PortPairs
        ensures { result ≡ [] }
    {
        PortPairs {
            pairs: IndexSet::new(alloc),
        }
    }

    fn add(&mut self, one: PortKey, other: PortKey) -> Result<(), AllocError>
        ensures { OnOk result ((pair : PortPair) → list_any (is_same_pair pair) self.new
            ≡ (list_any (is_same_pair pair) self.old || is_same_pair pair (pair_of one other))) }
    {
        self.pairs.insert(PortPair {
            first: one,
            second: other,
        })?;
        Ok(())
    }

    /// Those of the cables of a topology.
    pub(crate) fn of_cables(alloc: Global, plan: &LargeTopology) -> Result<PortPairs, AllocError>
        ensures { IfOk result (λ pairs. (pair : PortPair) → list_any (is_same_pair pair) pairs
            ≡ list_any (λ cable. is_same_pair pair (cable_pair plan.now.nodes cable)) plan.now.cables) }
    {
        let mut pairs = PortPairs::new(alloc);
        for cable in plan.cables() {
            pairs.add_cable(plan.nodes(), cable)?;
        }
        Ok(pairs)
    }

    fn add_cable(&mut self, nodes: &[Node], cable: &Cable) -> Result<(), AllocError>
        ensures { OnOk result ((pair : PortPair) → list_any (is_same_pair pair) self.new
            ≡ (list_any (is_same_pair pair) self.old || is_same_pair pair (cable_pair nodes.now cable.now))) }
    {
        self.add(
            PortKey::of_port(nodes, cable.first),
            PortKey::of_port(nodes, cable.second),
        )
    }

    /// Those of the lines of a discovery that count.
    pub(crate) fn of_lines(alloc: Global, discovery: &Discovery) -> Result<PortPairs, AllocError>
        ensures { IfOk result (λ pairs. (pair : PortPair) → list_any (is_same_pair pair) pairs
            ≡ list_any (is_pair_of discovery.now pair) (counted discovery.now)) }
    {
        let mut pairs = PortPairs::new(alloc);
        for line in discovery.ports() {
            if counts(discovery.nodes(), line) {
                pairs.add_line(discovery, line)?;
            }
        }
        Ok(pairs)
    }

    /// Adds the pair of a line, if it leads to a port.
    fn add_line(&mut self, discovery: &Discovery, line: &PortLine) -> Result<(), AllocError>
        ensures { OnOk result ((pair : PortPair) → list_any (is_same_pair pair) self.new
            ≡ (list_any (is_same_pair pair) self.old || is_pair_of discovery.now pair line.now)) }
    {
        match discovery.far_line(&line.far) {
            Some(other) => self.add(
                PortKey::of_line(discovery, line),
                PortKey::of_line(discovery, other),
            ),
            None => Ok(()),
        }
    }

    /// Whether a pair joins these two, either of them first.
    pub(crate) fn joins(&self, one: PortKey, other: PortKey) -> bool
        ensures { result ≡ joins self.now one other }
    {
        let forth = PortPair {
            first: one,
            second: other,
        };
        let back = PortPair {
            first: other,
            second: one,
        };
        self.pairs.contains(&forth) || self.pairs.contains(&back)
    }
}
