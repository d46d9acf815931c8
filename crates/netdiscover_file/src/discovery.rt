//! What was discovered.

ghost use Rattle.std.specs.Prelude.{◌≡◌, true};
ghost use Rattle.std.specs.List.{list_all, IsDistinct};
ghost use Rattle.std.specs.Option.{option_copied};
ghost use Rattle.netdiscover_file.specs.Agreement.{far_line, stands_at_both_ends};
ghost use Rattle.netdiscover_file.specs.Node.{place_of};
ghost use Rattle.netdiscover_file.specs.Port.{line_of};
ghost use Rattle.netdiscover_file.specs.Sound.{has_other_end, has_own, is_port, shares_guid, shares_port, IsSound};

use crate::agreement::far_line;
use crate::ends::FarEnd;
use crate::node::{Node, NodeList};
use crate::port::{PortLine, PortList};
use fabric_parts::PortRef;
use std::marker::Model;

/// The nodes of a fabric, and both ends of each of its cables.
#[derive(Debug, Drop)]
pub struct Discovery {
    pub(crate) nodes: NodeList,
    pub(crate) ports: PortList,
    pub(crate) initiator: Option<u64>,
}

impl Model for Discovery {
    ghost use Rattle.netdiscover_file.specs.Discovery.{DiscoveryState};
    ghost use Rattle.netdiscover_file.specs.Sound.{IsSound};

    ghost Value = { DiscoveryState };

    ghost view = { λ discovery. record { nodes = discovery.nodes; ports = discovery.ports; initiator = discovery.initiator } };

    ghost invariant = { λ discovery. IsSound (record { nodes = discovery.nodes; ports = discovery.ports; initiator = discovery.initiator }) };
}

impl Discovery {
    /// Says all at once what is so of every discovery that was read. It does nothing.
    pub fn known_sound(&self)
        ensures { IsSound self.now }
    {
        // What a value meets is known once a field is named.
        let _ = &self.nodes;
    }

    /// The nodes, in the order of their headers.
    pub fn nodes(&self) -> &[Node]
        ensures value { result.now ≡ self.now.nodes }
        ensures own_guids { IsDistinct shares_guid result.now }
    {
        self.nodes.as_slice()
    }

    /// The lines of ports, in their order.
    pub fn ports(&self) -> &[PortLine]
        ensures value { result.now ≡ self.now.ports }
        ensures are_ports { list_all (λ line. is_port self.now.nodes line.port) result.now ≡ true }
        ensures have_own { list_all (has_own self.now.nodes) result.now ≡ true }
        ensures own_lines { IsDistinct shares_port result.now }
        ensures cables { list_all (has_other_end self.now.nodes result.now) result.now ≡ true }
        ensures found { list_all (stands_at_both_ends self.now.nodes result.now) result.now ≡ true }
    {
        self.ports.as_slice()
    }

    /// The GUID of the port at which the text was printed, if it reports one.
    pub fn initiator(&self) -> Option<u64>
        ensures { result ≡ self.now.initiator }
    {
        self.initiator
    }

    /// Where the node of this GUID stands among the nodes, looked up in constant time.
    pub fn place_of(&self, guid: u64) -> Option<usize>
        ensures { result ≡ place_of guid self.now.nodes }
    {
        self.nodes.place_of(guid)
    }

    /// The line of a port, looked up in constant time; none if it has no cable.
    pub fn line_of(&self, port: PortRef) -> Option<&PortLine>
        ensures { option_copied result ≡ line_of port self.now.ports }
    {
        self.ports.line_of(port)
    }

    /// The line of the port at the other end, looked up in constant time.
    pub fn far_line(&self, far: &FarEnd) -> Option<&PortLine>
        ensures { option_copied result ≡ far_line self.now.nodes self.now.ports far.now }
    {
        far_line(&self.nodes, &self.ports, far)
    }
}
