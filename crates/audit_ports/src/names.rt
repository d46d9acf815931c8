//! The ports of a topology, by their GUIDs.

ghost use Rattle.std.specs.Prelude.{◌≡◌, ◌∷◌, [], ◌++◌, None, IfOk, OnOk, fold};
ghost use Rattle.audit_ports.specs.Ends.{index_of, named, place_of, with_port};

use audit_plan::{EndGuid, ends_of};
use fabric_parts::PortRef;
use indexmap::IndexSet;
use std::alloc::{AllocError, Global};
use std::marker::Model;
use topo_file::Node;

/// Ports with different GUIDs, found by GUID in constant time.
#[derive(Drop)]
pub(crate) struct PortIndex {
    // The GUIDs again, each at the place of its port.
    guids: IndexSet<u128>,
    ports: Vec<EndGuid>,
}

impl Model for PortIndex {
    ghost use Rattle.std.specs.Prelude.{◌≡◌, List, map};
    ghost use Rattle.audit_plan.specs.declared.ends.EndGuid.{EndGuid};

    ghost Value = { List EndGuid };

    ghost view = { λ index. index.ports.items };

    ghost invariant = { λ index. index.guids.keys ≡ map (λ port. port.guid) index.ports.items };
}

impl PortIndex {
    fn new(alloc: Global) -> PortIndex
        ensures { result ≡ [] }
    {
        PortIndex {
            guids: IndexSet::new(alloc),
            ports: Vec::new(alloc),
        }
    }

    fn place_of(&self, guid: u128) -> Option<usize>
        ensures { result ≡ place_of guid self.now }
    {
        self.guids.get_index_of(&guid)
    }

    fn push(&mut self, port: EndGuid) -> Result<(), AllocError>
        requires new { place_of port.guid self.old ≡ None }
        ensures { OnOk result (self.new ≡ self.old ++ port ∷ []) }
    {
        self.ports.reserve(1)?;
        self.guids.insert(port.guid)?;
        self.ports.push(port)?;
        Ok(())
    }

    #[tactic(auto, unfolding(crate::specs::Ends::with_port))]
    fn add(&mut self, port: EndGuid) -> Result<(), AllocError>
        ensures { OnOk result (self.new ≡ with_port self.old port) }
    {
        if self.place_of(port.guid).is_some() {
            return Ok(());
        }
        self.push(port)
    }

    fn of_ports(alloc: Global, ports: &[EndGuid]) -> Result<PortIndex, AllocError>
        ensures { IfOk result (λ index. index ≡ fold with_port [] ports.now) }
    {
        let mut index = PortIndex::new(alloc);
        for port in ports {
            index.add(*port)?;
        }
        Ok(index)
    }

    /// The ports of these nodes.
    pub(crate) fn of(alloc: Global, nodes: &[Node]) -> Result<PortIndex, AllocError>
        ensures { IfOk result (λ index. index ≡ index_of nodes.now) }
    {
        let ports = ends_of(alloc, nodes)?;
        PortIndex::of_ports(alloc, &ports)
    }

    /// The port of this GUID.
    pub(crate) fn named(&self, guid: u64) -> Option<PortRef>
        ensures { result ≡ named guid self.now }
    {
        let place = self.place_of(u128::from(guid))?;
        self.ports.get(place).map(|port| port.port)
    }
}
