//! Which channel adapters stand in one list.

ghost use Rattle.std.specs.Prelude.{◌≡◌, count_by, find, length, option_map, IfOk};
ghost use Rattle.std.specs.List.{range_with_len};
ghost use Rattle.fabric_graph.specs.Lists.{drawn_at, has_lists, is_alike, is_beside, is_first, is_in_list, is_listed, listed_attachment};
ghost use Rattle.fabric_graph.specs.Lists.{make_list};
ghost use Rattle.fabric_graph.specs.Lists.{may_be_listed, members, places, attachment_at, attachment_behind, attachment_in, attachment_of, attachments_of};

use crate::nodes::is_manager;
use crate::partitions::partitions_of;
use fabric_parts::{Cable, PortRef, far_end};
use std::alloc::{AllocError, Global};
use std::marker::Model;
use subnet_model::Configuration;
use topo_file::{Node, Topology};

/// How many adapters make a list; fewer are drawn one by one.
const LEAST: usize = 4;

/// Where an adapter is attached that may stand in a list.
#[derive(Drop)]
pub(crate) struct Attachment {
    /// The place of the switch among the nodes.
    pub switch: usize,
    /// Its port there.
    pub port: u8,
    /// The partitions of the adapter, except the default one.
    pub partitions: Vec<usize>,
}

impl Model for Attachment {
    ghost use Rattle.fabric_graph.specs.Lists.{AttachmentState};

    ghost Value = { AttachmentState };

    ghost view = { λ attachment. record { switch = attachment.switch; port = attachment.port; partitions = attachment.partitions.items } };
}

/// The attachments of all nodes, by their places. It can only run out of memory.
pub(crate) fn attachments_of(
    alloc: Global,
    topology: &Topology,
    configuration: &Configuration,
) -> Result<Vec<Option<Attachment>>, AllocError>
    ensures { IfOk result (λ attachments. attachments.items ≡ attachments_of topology.now configuration.now) }
{
    let mut attachments = Vec::new(alloc);
    for place in 0..topology.nodes().len() {
        attachments.push(attachment_at(alloc, topology, configuration, place)?)?;
    }
    Ok(attachments)
}

/// Where the node there is attached, if it may stand in a list.
fn attachment_at(
    alloc: Global,
    topology: &Topology,
    configuration: &Configuration,
    place: usize,
) -> Result<Option<Attachment>, AllocError>
    ensures { IfOk result (λ attachment. attachment ≡ attachment_at topology.now configuration.now place) }
{
    match topology.nodes().get(place) {
        Some(node) => attachment_of(alloc, topology, configuration, place, node),
        None => Ok(None),
    }
}

fn attachment_of(
    alloc: Global,
    topology: &Topology,
    configuration: &Configuration,
    place: usize,
    node: &Node,
) -> Result<Option<Attachment>, AllocError>
    ensures { IfOk result (λ attachment. attachment ≡ attachment_of topology.now configuration.now place node.now) }
{
    if !may_be_listed(topology, node) {
        return Ok(None);
    }
    match far_end(
        topology.cables(),
        PortRef {
            node: place,
            port: 1,
        },
    ) {
        Some(far) => Ok(Some(attachment_behind(alloc, configuration, node, far)?)),
        None => Ok(None),
    }
}

/// Whether the node is an adapter of one port, on which the subnet manager does not run.
fn may_be_listed(topology: &Topology, node: &Node) -> bool
    ensures { result ≡ may_be_listed topology.now node.now }
{
    !node.is_switch() && node.ports == 1 && !is_manager(topology, node)
}

fn attachment_behind(
    alloc: Global,
    configuration: &Configuration,
    node: &Node,
    far: PortRef,
) -> Result<Attachment, AllocError>
    ensures { IfOk result (λ attachment. attachment ≡ attachment_behind configuration.now node.now far) }
{
    Ok(Attachment {
        switch: far.node,
        port: far.port,
        partitions: partitions_of(alloc, configuration, node)?,
    })
}

/// The attachment of the node there, if it has one.
pub(crate) fn attachment_in(attachments: &[Option<Attachment>], place: usize) -> Option<&Attachment>
    ensures { option_map (λ attachment. attachment.now) result ≡ attachment_in attachments.now place }
{
    match attachments.get(place) {
        Some(Some(attachment)) => Some(attachment),
        _ => None,
    }
}

/// Whether the attachment is at this switch, and of these partitions.
fn is_alike(switch: usize, partitions: &[usize], attachment: &Attachment) -> bool
    ensures { result ≡ is_alike switch partitions.now attachment.now }
{
    attachment.switch == switch && attachment.partitions.as_slice() == partitions
}

fn is_beside(attachments: &[Option<Attachment>], attachment: &Attachment, place: usize) -> bool
    ensures { result ≡ is_beside attachments.now attachment.now.switch attachment.now.partitions place }
{
    match attachment_in(attachments, place) {
        Some(other) => is_alike(attachment.switch, attachment.partitions.as_slice(), other),
        None => false,
    }
}

/// The places of all adapters that are attached there and are in these partitions. It can only run out of memory.
#[tactic(auto, unfolding(crate::specs::Lists::members))]
fn members(
    alloc: Global,
    attachments: &[Option<Attachment>],
    attachment: &Attachment,
) -> Result<Vec<usize>, AllocError>
    ensures { IfOk result (λ all. all.items ≡ members attachments.now attachment.now) }
{
    (0..attachments.len())
        .filter(|place| is_beside(attachments, attachment, *place))
        .collect(alloc)
}

/// Whether these adapters are enough for a list.
#[tactic(auto, unfolding(crate::specs::Lists::make_list))]
fn make_list(attachments: &[Option<Attachment>], attachment: &Attachment) -> bool
    ensures { result ≡ make_list attachments.now attachment.now }
{
    count_beside(attachments, attachment) >= LEAST
}

fn count_beside(attachments: &[Option<Attachment>], attachment: &Attachment) -> usize
    ensures { result ≡ count_by (is_beside attachments.now attachment.now.switch attachment.now.partitions) (range_with_len 0 (length attachments.now)) }
{
    (0..attachments.len())
        .filter(|place| is_beside(attachments, attachment, *place))
        .count()
}

/// Whether the list is drawn where this node stands.
#[tactic(auto, unfolding(crate::specs::Lists::is_first))]
fn is_first(attachments: &[Option<Attachment>], attachment: &Attachment, place: usize) -> bool
    ensures { result ≡ is_first attachments.now attachment.now place }
{
    match first_beside(attachments, attachment) {
        Some(first) => first == place,
        None => false,
    }
}

fn first_beside(attachments: &[Option<Attachment>], attachment: &Attachment) -> Option<usize>
    ensures { result ≡ find (is_beside attachments.now attachment.now.switch attachment.now.partitions) (range_with_len 0 (length attachments.now)) }
{
    (0..attachments.len()).find(|place| is_beside(attachments, attachment, *place))
}

/// The attachment of the node there, if it stands in a list.
fn listed_attachment(attachments: &[Option<Attachment>], place: usize) -> Option<&Attachment>
    ensures { option_map (λ attachment. attachment.now) result ≡ listed_attachment attachments.now place }
{
    let attachment = attachment_in(attachments, place)?;
    if make_list(attachments, attachment) {
        Some(attachment)
    } else {
        None
    }
}

fn is_listed(attachments: &[Option<Attachment>], place: usize) -> bool
    ensures { result ≡ is_listed attachments.now place }
{
    listed_attachment(attachments, place).is_some()
}

/// The places of the nodes that are drawn where this one stands: its own, or those of the list of which it is the first.
pub(crate) fn drawn_at(
    alloc: Global,
    attachments: &[Option<Attachment>],
    place: usize,
) -> Result<Vec<usize>, AllocError>
    ensures { IfOk result (λ all. all.items ≡ drawn_at attachments.now place) }
{
    match listed_attachment(attachments, place) {
        Some(attachment) if is_first(attachments, attachment, place) => members(
            alloc,
            attachments,
            attachment,
        ),
        Some(_) => Ok(Vec::new(alloc)),
        None => Vec::from_slice(alloc, &[place]),
    }
}

/// Whether a list shows the cable.
pub(crate) fn is_in_list(attachments: &[Option<Attachment>], cable: &Cable) -> bool
    ensures { result ≡ is_in_list attachments.now cable.now }
{
    is_listed(attachments, cable.first.node) || is_listed(attachments, cable.second.node)
}

/// Whether there is a list.
pub(crate) fn has_lists(attachments: &[Option<Attachment>]) -> bool
    ensures { result ≡ has_lists attachments.now }
{
    (0..attachments.len()).any(|place| is_listed(attachments, place))
}
