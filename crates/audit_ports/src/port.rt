//! What is known of an end port of a fabric.

ghost use Rattle.std.specs.Prelude.{◌≡◌};

use fabric_parts::PortRef;
use pkeys_file::KeyList;
use std::marker::Model;

/// The P_Keys that stand in a table.
#[derive(Debug, Drop)]
pub struct HeldKeys {
    /// The keys, by their indexes; empty places are left out.
    pub keys: KeyList,
    /// Whether the table has no empty place.
    pub is_full: bool,
}

/// In which direction a switch port drops packets under keys of other bases than those of its table.
#[derive(Clone, Copy, Debug, PartialEq, Eq)]
pub struct Enforcement {
    /// Those that come in.
    pub inbound: bool,
    /// Those that go out.
    pub outbound: bool,
}

/// The switch port at the other end of an adapter port's cable.
#[derive(Debug, Drop)]
pub struct FacingPort {
    /// The port, by the place of its switch among the nodes of the topology.
    pub port: PortRef,
    /// What it enforces, if that was read.
    pub enforcement: Option<Enforcement>,
    /// Its table, if that was read.
    pub table: Option<HeldKeys>,
}

/// A port between two switches that drops packets, and a base that its table lacks.
#[derive(Clone, Copy, Debug, PartialEq, Eq)]
pub struct TrunkLack {
    /// The port, by the place of its switch among the nodes of the topology.
    pub port: PortRef,
    /// The base.
    pub base: u16,
}

/// What the ports of a switch to other switches lack.
#[derive(Debug, Drop)]
pub struct TrunkLacks {
    lacks: Vec<TrunkLack>,
}

impl Model for TrunkLacks {
    ghost use Rattle.std.specs.Prelude.{List};
    ghost use Rattle.audit_ports.specs.declared.port.TrunkLack.{TrunkLack};

    ghost Value = { List TrunkLack };

    ghost view = { λ list. list.lacks.items };
}

impl TrunkLacks {
    pub(crate) fn of(lacks: Vec<TrunkLack>) -> TrunkLacks
        ensures { result ≡ lacks.items }
    {
        TrunkLacks { lacks }
    }

    /// The ports and bases.
    pub fn as_slice(&self) -> &[TrunkLack]
        ensures { result.now ≡ self.now }
    {
        self.lacks.as_slice()
    }
}

/// An end port: a port of an adapter, or port 0 of a switch.
#[derive(Debug, Drop)]
pub struct AuditedPort {
    /// The port, by the place of its node among the nodes of the topology.
    pub port: PortRef,
    /// Its GUID.
    pub guid: u64,
    /// The GUID of its node.
    pub node_guid: u64,
    /// Its LID, by the discovery.
    pub lid: u16,
    /// Whether the subnet manager runs on it.
    pub is_manager: bool,
    /// The GUID that answered at this LID, if it is another port's: LIDs moved after the discovery.
    pub moved: Option<u64>,
    /// Its table, if that was read.
    pub table: Option<HeldKeys>,
    /// The keys that the partition file gives it, no two of one base.
    pub file: KeyList,
    /// The keys that OpenSM gives it by the same file, no two of one base.
    pub opensms: KeyList,
    /// The switch port that faces it, if one does.
    pub facing: Option<FacingPort>,
    /// Of port 0 of a switch what ports of this switch lack that lead to other switches and drop packets; else nothing.
    pub lacks: TrunkLacks,
}
