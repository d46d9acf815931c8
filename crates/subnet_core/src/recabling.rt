//! How a fabric under subnet administration is set up again after a cable of it is cut, or mended.

ghost use Rattle.std.specs.Prelude.{◌≡◌, IfErr, OnOk};
ghost use Rattle.fabric_wire.specs.Recabling.{cabling_of};
ghost use Rattle.subnet_core.specs.Served.{Serves};
ghost use Rattle.subnet_core.specs.declared.administering.AnswerFault.{AnswerFault};
ghost use Rattle.subnet_fabric.specs.Laws.{all_keys};
ghost use Rattle.subnet_fabric.specs.Standing.{IsNextCabling};

use crate::administering::AnswerFault;
use crate::administrator::Administrator;
use crate::mlid_ranges::push_received;
use fabric_wire::Fabric;
use pkey_rules::{KeyTable, PARTITIONS};
use std::alloc::Global;
use subnet_model::CableCommand;
use topo_file::Topology;
use updn_routes::Routes;

/// The subnet whose fabric is served.
#[derive(Clone, Copy)]
pub struct Listed<'a> {
    /// Its topology.
    pub topology: &'a Topology,
    /// The P_Key tables of its end ports, in order of LID.
    pub keys: &'a [KeyTable<PARTITIONS>],
}

/// Takes the link between two switches of a fabric that is served down or up, and sets the fabric up again. If the fabric could not
/// be set up then, nothing changes. What is sent to groups then goes by the new routes, to the ports that received it before.
///
/// It can only run out of memory. Then the fabric may have been changed, and may not serve any more.
pub fn recable(
    alloc: Global,
    listed: Listed<'_>,
    fabric: &mut Fabric,
    routes: &mut Routes,
    administrator: &Administrator,
    command: &CableCommand,
) -> Result<(), AnswerFault>
    requires served { Serves listed.topology.now routes.old administrator.now fabric.old }
    requires keys { listed.keys.now ≡ all_keys administrator.now.configuration.ports }
    ensures cabling { OnOk result (IsNextCabling listed.entry.topology.now command.now.cable.first command.now.cable.second command.now.up
        (cabling_of fabric.old) (cabling_of fabric.new)) }
    ensures kept { OnOk result (cabling_of fabric.new ≡ cabling_of fabric.old → (fabric.new ≡ fabric.old) × (routes.new ≡ routes.old)) }
    ensures ruled { OnOk result (routes.new.between.rule ≡ routes.old.between.rule) }
    ensures serves { OnOk result (Serves listed.entry.topology.now routes.new administrator.now fabric.new) }
    ensures no_push { IfErr result (λ fault. fault ≡ AnswerFault.NoMemory) }
{
    let next = match subnet_fabric::recable(
        alloc,
        listed.topology,
        fabric,
        routes,
        listed.keys,
        command,
    ) {
        Ok(Some(next)) => next,
        Ok(None) => return Ok(()),
        Err(_) => return Err(AnswerFault::NoMemory),
    };
    push_received(fabric, &next, &administrator.registry)?;
    *routes = next;
    Ok(())
}
