//! A discovery of which lines are still to come.

ghost use Rattle.std.specs.Prelude.{◌≡◌, None, false, true, IfOk, option_map};
ghost use Rattle.step_results.specs.Gives.{seen_by};
ghost use Rattle.netdiscover_file.specs.Discovery.{has_taken_guid, header_of, header_encoded, is_of_another, new_node, new_port, node_reported, nothing, place_again, place_here, port_reported};
ghost use Rattle.netdiscover_file.specs.Node.{node_seen, place_of};
ghost use Rattle.netdiscover_file.specs.Port.{is_reported_already, place_of_line};
ghost use Rattle.netdiscover_file.specs.Sound.{has_own, is_port};

use crate::assignment::SwitchGuids;
use crate::comment::quoted_name;
use crate::ends::{NodeId, behind_own, far_end_of, node_id_in, own_end_in, without_external};
use crate::fault::DiscoveryCause;
use crate::kind::NodeKind;
use crate::lids::{node_lid, own_lid};
use crate::node::{NewNode, NodeList, is_switch_at, last_place, port_at, says_same_at};
use crate::port::{GuidList, PortLine, PortList};
use crate::spelling::port_count_in;
use std::alloc::Global;
use std::marker::Model;
use text_words::Words;

/// What the lines so far report.
#[derive(Drop)]
pub(crate) struct Draft {
    pub(crate) nodes: NodeList,
    pub(crate) ports: PortList,
    // Of all ports that were reported: of adapters' and routers' ports, and of switches' ports 0.
    pub(crate) port_guids: GuidList,
    // Of the switch whose header is to come.
    pub(crate) switch_guids: Option<SwitchGuids>,
    // Where the node stands that is printed again, if one is.
    pub(crate) again: Option<usize>,
    pub(crate) initiator: Option<u64>,
}

impl Model for Draft {
    ghost use Rattle.netdiscover_file.specs.Discovery.{DraftState};
    ghost use Rattle.netdiscover_file.specs.Sound.{IsSoundSoFar};

    ghost Value = { DraftState };

    ghost view = { λ draft. record {
      nodes = draft.nodes;
      ports = draft.ports;
      port_guids = draft.port_guids;
      switch_guids = draft.switch_guids;
      again = draft.again;
      initiator = draft.initiator;
    } };

    ghost invariant = { λ draft. IsSoundSoFar draft.nodes draft.ports draft.port_guids };
}

impl Draft {
    #[tactic(auto, using(crate::proofs::SoundLemmas::nothing_sound))]
    pub(crate) fn new(alloc: Global) -> Draft
        ensures { result ≡ nothing }
    {
        Draft {
            nodes: NodeList::new(alloc),
            ports: PortList::new(alloc),
            port_guids: GuidList::new(alloc),
            switch_guids: None,
            again: None,
            initiator: None,
        }
    }

    /// Whether a GUID of the node is another's too.
    fn has_taken_guid(&self, node: &NewNode) -> bool
        ensures { result ≡ has_taken_guid self.now (node_seen node.now) }
    {
        is_of_another(self.switch_guids, node.id)
            || (self.nodes.place_of(node.id.guid).is_some()
                || self.port_guids.is_reported_already(node.port_guid))
    }

    /// The GUID that was reported of port 0 of the node whose header is to come.
    fn coming_port_guid(&self) -> Option<u64>
        ensures { result ≡ option_map (λ guids. guids.port) self.now.switch_guids }
    {
        match self.switch_guids {
            Some(guids) => Some(guids.port),
            None => None,
        }
    }

    /// The node that a header reports, by the words after the first and the comment.
    pub(crate) fn node_reported<'a>(
        &self,
        line: usize,
        kind: NodeKind,
        words: Words<'_>,
        comment: &'a [u8],
    ) -> Result<NewNode<'a>, DiscoveryCause>
        ensures { seen_by node_seen result ≡ node_reported self.now line kind words.entry comment.now }
    {
        header_of(line, kind, self.coming_port_guid(), words, comment)
    }

    /// Judges a node against those before it.
    pub(crate) fn new_node<'a>(&self, node: NewNode<'a>) -> Result<NewNode<'a>, DiscoveryCause>
        ensures value { seen_by node_seen result ≡ new_node self.now (node_seen node.entry) }
        ensures new { IfOk result (λ reported. place_of reported.id.guid self.now.nodes ≡ None) }
        ensures own { IfOk result (λ reported. is_reported_already reported.port_guid self.now.port_guids ≡ false) }
    {
        if self.has_taken_guid(&node) {
            return Err(DiscoveryCause::DuplicateGuid);
        }
        Ok(node)
    }

    /// Where the node stands, if it is printed again in the same words.
    pub(crate) fn place_again(&self, node: &NewNode) -> Option<usize>
        ensures { result ≡ place_again self.now (node_seen node.now) }
    {
        if is_of_another(self.switch_guids, node.id) {
            return None;
        }
        match self.nodes.place_of(node.id.guid) {
            Some(place) if says_same_at(self.nodes.as_slice(), place, node) => Some(place),
            _ => None,
        }
    }

    /// The node of which lines of ports are to come.
    fn place_here(&self) -> Option<usize>
        ensures { result ≡ place_here self.now }
    {
        match self.again {
            Some(place) => Some(place),
            None => last_place(self.nodes.as_slice()),
        }
    }

    /// Judges the line of a port against those before it.
    pub(crate) fn new_port(&self, line: PortLine) -> Result<PortLine, DiscoveryCause>
        ensures value { result ≡ new_port self.now line }
        ensures same { IfOk result (λ reported. reported ≡ line) }
        ensures new { IfOk result (λ reported. place_of_line reported.port self.now.ports ≡ None) }
        ensures own { IfOk result (λ reported. is_reported_already reported.guid self.now.port_guids ≡ false) }
    {
        if self.ports.place_of_line(line.port).is_some() {
            return Err(DiscoveryCause::NoSuchPort);
        }
        if self.port_guids.is_reported_already(line.guid) {
            return Err(DiscoveryCause::DuplicateGuid);
        }
        Ok(line)
    }

    /// What the line of a port reports, by its words and its comment.
    #[tactic(auto, unfolding(crate::specs::Discovery::port_reported))]
    pub(crate) fn port_reported(
        &self,
        line: usize,
        first: &[u8],
        words: Words<'_>,
        comment: &[u8],
    ) -> Result<PortLine, DiscoveryCause>
        ensures value { result ≡ port_reported self.now line first.now words.entry comment.now }
        ensures is_port { IfOk result (λ reported. is_port self.now.nodes reported.port ≡ true) }
        ensures has_own { IfOk result (λ reported. has_own self.now.nodes reported ≡ true) }
    {
        let own = own_end_in(without_external(first))?;
        let rest = behind_own(first, words)?;
        let far = far_end_of(rest)?;
        let nodes = self.nodes.as_slice();
        let place = self.place_here().ok_or(DiscoveryCause::NoSuchPort)?;
        let lid = own_lid(is_switch_at(nodes, place), own.guid, comment)?;
        let port = port_at(nodes, place, own.number).ok_or(DiscoveryCause::NoSuchPort)?;
        Ok(PortLine {
            port,
            guid: own.guid,
            lid,
            far,
            line,
        })
    }
}

/// Whether the line before a header reported the GUIDs of another switch.
fn is_of_another(guids: Option<SwitchGuids>, id: NodeId) -> bool
    ensures { result ≡ is_of_another guids id }
{
    match guids {
        Some(guids) => !(id.kind.is_switch() && guids.node == id.guid),
        None => false,
    }
}

#[tactic(auto, unfolding(crate::specs::Discovery::header_of))]
fn header_of<'a>(
    line: usize,
    kind: NodeKind,
    port_guid: Option<u64>,
    words: Words<'_>,
    comment: &'a [u8],
) -> Result<NewNode<'a>, DiscoveryCause>
    ensures { seen_by node_seen result ≡ header_of line kind port_guid words.entry comment.now }
{
    let mut words = words;
    let (Some(ports), Some(id), None) = (words.next(), words.next(), words.next()) else {
        return Err(DiscoveryCause::Malformed);
    };
    header_encoded(line, kind, port_guid, ports, id, comment)
}

#[tactic(auto, unfolding(crate::specs::Discovery::header_encoded))]
fn header_encoded<'a>(
    line: usize,
    kind: NodeKind,
    port_guid: Option<u64>,
    ports: &[u8],
    id: &[u8],
    comment: &'a [u8],
) -> Result<NewNode<'a>, DiscoveryCause>
    ensures { seen_by node_seen result ≡ header_encoded line kind port_guid ports.now id.now comment.now }
{
    let ports = port_count_in(ports)?;
    let id = node_id_in(id)?;
    let (name, behind) = quoted_name(comment)?;
    let lid = node_lid(kind, behind)?;
    if !id.kind.is_same(kind) {
        return Err(DiscoveryCause::Malformed);
    }
    Ok(NewNode {
        id,
        ports,
        name,
        lid,
        port_guid,
        line,
    })
}
