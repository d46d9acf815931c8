//! Between which ports packets go.

ghost use Rattle.std.specs.Prelude.{◌≡◌, find, Some, None, IfOk};
ghost use Rattle.std.specs.Option.{option_copied};
ghost use Rattle.fabric_parts.specs.Cable.{is_same_port};
ghost use Rattle.audit_loads.specs.Talk.{may_talk};

use crate::key_classes::Keyed;
use fabric_parts::PortRef;
use pkey_rules::{KeyTable, PARTITIONS};
use std::alloc::{AllocError, Global};
use std::marker::Model;

/// An end port, and the P_Keys that it holds.
#[derive(Debug, Drop)]
pub struct PortKeys {
    /// The port.
    pub at: PortRef,
    /// Its P_Keys.
    pub keys: KeyTable<PARTITIONS>,
}

/// Between which ports packets go.
#[derive(Drop)]
pub struct Talk {
    // None if they go between all.
    keyed: Option<Keyed>,
}

impl Model for Talk {
    ghost use Rattle.std.specs.Prelude.{List, Option};
    ghost use Rattle.audit_loads.specs.declared.talk.PortKeys.{PortKeys};

    ghost Value = { Option (List PortKeys) };

    ghost view = { λ talk. talk.keyed };
}

impl Talk {
    /// Between all.
    pub fn of_all() -> Talk
        ensures { result ≡ None }
    {
        Talk { keyed: None }
    }

    /// Between those of these ports that share a partition. Of two that are one port the first counts. The ports are those of so
    /// many nodes; ports of other nodes are looked up more slowly. It can only run out of memory.
    pub fn by_keys(alloc: Global, ports: Vec<PortKeys>, nodes: usize) -> Result<Talk, AllocError>
        ensures { IfOk result (λ talk. talk ≡ Some ports.items) }
    {
        let keyed = Keyed::of(alloc, ports, nodes)?;
        Ok(Talk { keyed: Some(keyed) })
    }

    /// Whether they go from one port to another.
    pub(crate) fn may_talk(&self, source: PortRef, end: PortRef) -> bool
        ensures { result ≡ may_talk self.now source end }
    {
        match &self.keyed {
            Some(keyed) => keyed.share(source, end),
            None => true,
        }
    }
}

/// What these say of a port: the first of them counts.
pub(crate) fn keys_of(ports: &[PortKeys], at: PortRef) -> Option<&PortKeys>
    ensures { option_copied result ≡ find (λ one. is_same_port one.at at) ports.now }
{
    ports.iter().find(|one| one.at == at)
}
