//! The end ports of a fabric, by their GUIDs.

ghost use Rattle.std.specs.Prelude.{◌≡◌, IfOk};
ghost use Rattle.audit_plan.specs.Ends.{KnowsEnds};
ghost use Rattle.audit_plan.specs.Plan.{port_of};

use fabric_parts::PortRef;
use indexmap::IndexMap;
use std::alloc::{AllocError, Global};
use std::marker::Model;

/// An end port, and its GUID. Sums of GUIDs have more than 64 bits here.
#[derive(Clone, Copy, Debug)]
pub struct EndGuid {
    /// The GUID.
    pub guid: u128,
    /// The port, by the place of its node.
    pub port: PortRef,
}

/// A LID, and the GUID of the end port that reports it.
#[derive(Clone, Copy, Debug)]
pub struct LidGuid {
    /// The LID.
    pub lid: u16,
    /// The GUID of the end port.
    pub guid: u64,
}

/// The end ports of a fabric, found by GUID in constant time.
#[derive(Drop)]
pub(crate) struct EndIndex {
    ends: Vec<EndGuid>,
    ports: IndexMap<u128, PortRef>,
}

impl Model for EndIndex {
    ghost use Rattle.std.specs.Prelude.{List};
    ghost use Rattle.audit_plan.specs.declared.ends.EndGuid.{EndGuid};
    ghost use Rattle.audit_plan.specs.Ends.{KnowsEnds};

    ghost Value = { List EndGuid };

    ghost view = { λ index. index.ends.items };

    ghost invariant = { λ index. KnowsEnds index.ports index.ends.items };
}

/// The port of each GUID. Later ones come first, so that of two with one GUID the first counts.
fn ports_by_guid(alloc: Global, ends: &[EndGuid]) -> Result<IndexMap<u128, PortRef>, AllocError>
    ensures { IfOk result (λ ports. KnowsEnds ports ends.now) }
{
    let mut ports = IndexMap::new(alloc);
    for index in (0..ends.len()).rev() {
        let end = ends[index];
        ports.insert(end.guid, end.port)?;
    }
    Ok(ports)
}

impl EndIndex {
    pub(crate) fn of(alloc: Global, ends: Vec<EndGuid>) -> Result<EndIndex, AllocError>
        ensures { IfOk result (λ index. index ≡ ends.items) }
    {
        let ports = ports_by_guid(alloc, &ends)?;
        Ok(EndIndex { ends, ports })
    }

    /// The end port of this GUID.
    pub(crate) fn port_of(&self, guid: u64) -> Option<PortRef>
        ensures { result ≡ port_of self.now guid }
    {
        self.ports.get(&u128::from(guid)).copied()
    }
}
