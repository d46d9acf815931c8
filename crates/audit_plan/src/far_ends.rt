//! Far ends of cables.

ghost use Rattle.std.specs.Prelude.{◌≡◌, IfOk};
ghost use Rattle.audit_plan.specs.FarEnds.{KnowsFarEnds, end_at, ends_of};

use fabric_parts::{Cable, PortRef};
use indexmap::IndexMap;
use std::alloc::{AllocError, Global};
use std::marker::Model;

/// The far ends of the ports of a node, from port 1 on.
#[derive(Drop)]
pub(crate) struct EndList {
    ends: Vec<Option<PortRef>>,
}

impl Model for EndList {
    ghost use Rattle.std.specs.Prelude.{List, Option};
    ghost use Rattle.fabric_parts.specs.declared.cable.PortRef.{PortRef};

    ghost Value = { List (Option PortRef) };

    ghost view = { λ list. list.ends.items };
}

impl EndList {
    pub(crate) fn of(ends: Vec<Option<PortRef>>) -> EndList
        ensures { result ≡ ends.items }
    {
        EndList { ends }
    }

    fn as_slice(&self) -> &[Option<PortRef>]
        ensures { result.now ≡ self.now }
    {
        self.ends.as_slice()
    }
}

fn ends_of(all: &[EndList], place: usize) -> &[Option<PortRef>]
    ensures { result.now ≡ ends_of all.now place }
{
    match all.get(place) {
        Some(ends) => ends.as_slice(),
        None => &[],
    }
}

/// The far end of the port, if the port is among these.
pub(crate) fn end_at(all: &[EndList], here: PortRef) -> Option<Option<PortRef>>
    ensures { result ≡ end_at all.now here }
{
    if here.port == 0 {
        return None;
    }
    ends_of(all, here.node)
        .get(usize::from(here.port - 1))
        .copied()
}

/// The far end of each port that has a cable. Later cables come first, so that of two at one port the first counts.
pub(crate) fn far_ends(
    alloc: Global,
    cables: &[Cable],
) -> Result<IndexMap<PortRef, PortRef>, AllocError>
    ensures { IfOk result (λ far_ends. KnowsFarEnds far_ends cables.now) }
{
    let mut far_ends = IndexMap::new(alloc);
    for index in (0..cables.len()).rev() {
        let cable = cables[index];
        far_ends.insert(cable.second, cable.first)?;
        far_ends.insert(cable.first, cable.second)?;
    }
    Ok(far_ends)
}
