//! Queries by NodeRecord.

ghost use Rattle.std.specs.Prelude.{◌≡◌, ◌<◌, filter, IfOk, Some};
ghost use Rattle.std.specs.List.{flat_map};
ghost use Rattle.sa_model.specs.Visible.{may_know};
ghost use Rattle.subnet_model.specs.declared.subnet_port.SubnetPort.{SubnetPort as Port};
ghost use Rattle.sa_model.specs.Selected.{Query};
ghost use Rattle.sa_replies.specs.Answer.{get_outcome, table_outcome};
ghost use Rattle.sa_answer.specs.Answering.{Brings};
ghost use Rattle.sa_answer.specs.Asked.{is_reported, node_reported};
ghost use Rattle.sa_answer.specs.Taken.{Walks};
ghost use Rattle.sa_store.specs.Kept.{ports_of};

use crate::outcome::Outcome;
use crate::questions::asks;
use crate::taken::{Stopped, Taken, got_by, table_by};
use mad_layout::{MadStatus, SA_DATA_BYTES};
use sa_records::node_mask::LID;
use sa_records::{NODE_RECORD_BYTES, NODE_RECORD_OFFSET, NodeRecord};
use sa_store::{KeptPort, Store};
use std::alloc::AllocError;
use subnet_model::SubnetPort;

/// A Get by NodeRecord.
pub(crate) fn got(store: &Store, own: &KeptPort, mask: u64, asked: &NodeRecord) -> Outcome
    ensures { let state = store.now.administration.remembered in
        Brings state (get_outcome store.now.configuration.ports own.now.port state (Some (Query.for_nodes mask asked.now))) result }
{
    let nodes = nodes_asked(store, mask, asked);
    let mut taken = Taken::One(None);
    let walked = walk(own.port(), nodes, mask, asked, &mut taken);
    got_by(taken, walked)
}

/// A GetTable by NodeRecord.
pub(crate) fn table(
    store: &Store,
    own: &KeptPort,
    mask: u64,
    asked: &NodeRecord,
) -> Result<Outcome, AllocError>
    ensures { let state = store.now.administration.remembered in IfOk result (Brings state
        (table_outcome store.now.configuration.ports own.now.port state (Some (Query.for_nodes mask asked.now)))) }
{
    let nodes = nodes_asked(store, mask, asked);
    let mut taken = Taken::All(Vec::new(store.alloc()));
    let walked = walk(own.port(), nodes, mask, asked, &mut taken);
    let outcome = table_by(taken, walked, NODE_RECORD_OFFSET)?;
    Ok(outcome)
}

/// The ports whose nodes a request can name: that of the LID that it asks, or all.
fn nodes_asked<'a>(store: &'a Store, mask: u64, asked: &NodeRecord) -> &'a [KeptPort]
    ensures { (own : Port) → filter (is_reported own mask asked.now) (ports_of result.now)
        ≡ filter (is_reported own mask asked.now) store.now.configuration.ports }
{
    if asks(mask, LID) {
        store.of_lid(asked.lid)
    } else {
        store.kept()
    }
}

/// Takes those of these nodes that a port is shown and that agree with a request.
fn walk(
    own: &SubnetPort,
    nodes: &[KeptPort],
    mask: u64,
    asked: &NodeRecord,
    taken: &mut Taken,
) -> Result<(), Stopped>
    ensures { Walks (flat_map (node_reported own.now mask asked.now) nodes.now) taken.old taken.new result }
{
    for node in nodes {
        if is_reported(own, node, mask, asked) {
            taken.take(node.bytes())?;
        }
    }
    Ok(())
}

/// Whether a port is shown a node, which agrees with a request.
fn is_reported(own: &SubnetPort, node: &KeptPort, mask: u64, asked: &NodeRecord) -> bool
    ensures { result ≡ is_reported own.now mask asked.now node.now.port }
{
    node.shown().selected_by(mask, asked) && may_know(own, node.port())
}

/// Whether the node of another port may be known to a port: they share a partition, or it is its own.
fn may_know(own: &SubnetPort, other: &SubnetPort) -> bool
    ensures { result ≡ may_know own.now other.now }
{
    other.guid == own.guid || own.keys.shares(&other.keys)
}
