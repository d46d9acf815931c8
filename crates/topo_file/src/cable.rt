//! The cables of a topology.

ghost use Rattle.std.specs.Prelude.{◌≡◌, ◌++◌, [], ◌∷◌, true, IfSome, OnErr, OnOk};
ghost use Rattle.fabric_parts.specs.Cable.{is_cabled};
ghost use Rattle.topo_file.specs.Sound.{is_port};
ghost use Rattle.topo_file.specs.Cable.{may_join, port_at};

use crate::node::{Node, is_switch_at, ports_at};
use fabric_parts::{Cable, PortRef};
use indexmap::IndexSet;
use std::alloc::{AllocError, Global};
use std::marker::Model;

/// Cables in the order in which they were added; the ports that they end at are looked up in constant
/// time.
#[derive(Debug, Drop)]
pub(crate) struct CableList {
    // The ports at which the cables end.
    ends: IndexSet<PortRef>,
    cables: Vec<Cable>,
}

impl Model for CableList {
    ghost use Rattle.std.specs.Prelude.{◌≡◌, List};
    ghost use Rattle.std.specs.List.{list_any};
    ghost use Rattle.fabric_parts.specs.declared.cable.Cable.{Cable};
    ghost use Rattle.fabric_parts.specs.declared.cable.PortRef.{PortRef};
    ghost use Rattle.fabric_parts.specs.Cable.{is_cabled, is_same_port};

    ghost Value = { List Cable };

    ghost view = { λ list. list.cables.items };

    ghost invariant = { λ list. (port : PortRef) → list_any (is_same_port port) list.ends.keys ≡ is_cabled list.cables.items port };
}

impl CableList {
    pub(crate) fn new(alloc: Global) -> CableList
        ensures { result ≡ [] }
    {
        CableList {
            ends: IndexSet::new(alloc),
            cables: Vec::new(alloc),
        }
    }

    pub(crate) fn as_slice(&self) -> &[Cable]
        ensures { result.now ≡ self.now }
    {
        self.cables.as_slice()
    }

    /// Whether some cable ends at the port.
    pub(crate) fn is_cabled(&self, port: PortRef) -> bool
        ensures { result ≡ is_cabled self.now port }
    {
        self.ends.contains(&port)
    }

    /// Adds a cable at the end. It can only run out of memory, and then the list stays as it was.
    pub(crate) fn push(&mut self, cable: Cable) -> Result<(), AllocError>
        ensures ok { OnOk result (self.new ≡ self.old ++ cable ∷ []) }
        ensures err { OnErr result (self.new ≡ self.old) }
    {
        self.cables.reserve(1)?;
        self.ends.reserve(2)?;
        self.ends.insert(cable.first)?;
        self.ends.insert(cable.second)?;
        self.cables.push(cable)?;
        Ok(())
    }
}

/// The port of this number at the node there, if there is one.
pub(crate) fn port_at(nodes: &[Node], place: usize, number: u128) -> Option<PortRef>
    ensures value { result ≡ port_at nodes.now place number }
    ensures is_port { IfSome result (λ port. is_port nodes.now port ≡ true) }
{
    if number < 1 || number > u128::from(ports_at(nodes, place)) {
        return None;
    }
    Some(PortRef {
        node: place,
        port: number as u8,
    })
}

/// Whether a cable may join the nodes there: two different switches, or a switch and an adapter.
pub(crate) fn may_join(nodes: &[Node], a: usize, b: usize) -> bool
    ensures { result ≡ may_join nodes.now a b }
{
    a != b && (is_switch_at(nodes, a) || is_switch_at(nodes, b))
}
