//! What is found of an MLID.

ghost use Rattle.std.specs.Prelude.{◌≡◌};
ghost use Rattle.audit_multicast.specs.Lines.{has_copy, has_cut, has_ring};

use crate::copies::SecondCopy;
use crate::cuts::Cut;
use fabric_parts::PortRef;
use std::marker::Model;

/// The ports of a loop, by which a packet leaves switches one after the other.
#[derive(Drop)]
pub struct Ring {
    ports: Vec<PortRef>,
}

impl Model for Ring {
    ghost use Rattle.std.specs.Prelude.{List};
    ghost use Rattle.fabric_parts.specs.declared.cable.PortRef.{PortRef};

    ghost Value = { List PortRef };

    ghost view = { λ ring. ring.ports.items };
}

impl Ring {
    /// These ports.
    pub fn of(ports: Vec<PortRef>) -> Ring
        ensures { result ≡ ports.items }
    {
        Ring { ports }
    }

    /// The ports.
    pub fn as_slice(&self) -> &[PortRef]
        ensures { result.now ≡ self.now }
    {
        self.ports.as_slice()
    }
}

/// What is found of an MLID.
#[derive(Drop)]
pub struct Found {
    /// The MLID.
    pub mlid: u16,
    /// A loop by its masks, if there is one.
    pub ring: Option<Ring>,
    /// A switch to which a packet comes twice, if there is one.
    pub copy: Option<SecondCopy>,
    /// What a member sends and another does not receive, if there is such.
    pub cut: Option<Cut>,
}

impl Found {
    pub(crate) fn has_ring(&self) -> bool
        ensures { result ≡ has_ring self.now }
    {
        self.ring.is_some()
    }

    pub(crate) fn has_copy(&self) -> bool
        ensures { result ≡ has_copy self.now }
    {
        self.copy.is_some()
    }

    pub(crate) fn has_cut(&self) -> bool
        ensures { result ≡ has_cut self.now }
    {
        self.cut.is_some()
    }
}
