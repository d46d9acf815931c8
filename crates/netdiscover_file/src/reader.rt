//! The reader of a whole text.

ghost use Rattle.std.specs.Prelude.{◌≡◌, true, IfOk};
ghost use Rattle.step_results.specs.Gives.{LineGives};
ghost use Rattle.step_results.specs.TextGives.{TextGives};
ghost use Rattle.netdiscover_file.specs.Discovery.{after_line, after_words, are_nodes, discovery_of, heads_chassis, heads_node, is_discovery, new_node, new_port, node_reported, port_reported, whole, with_comment};
ghost use Rattle.netdiscover_file.specs.Discovery.{with_header, with_line, with_node, with_port, with_port_line, with_value};
ghost use Rattle.netdiscover_file.specs.Node.{node_seen};
ghost use Rattle.netdiscover_file.specs.Sound.{has_own, is_port, IsSound};

use crate::agreement::first_wrong;
use crate::assignment::{assignment_in, switch_guids_in};
use crate::comment::{comment_of, initiator_in};
use crate::discovery::Discovery;
use crate::draft::Draft;
use crate::fault::{DiscoveryCause, DiscoveryFault};
use crate::kind::{NodeKind, kind_headed};
use crate::node::NewNode;
use crate::port::PortLine;
use std::alloc::Global;
use step_results::LineError;
use text_words::{LineReader, Lines, Words, read_lines};

impl Draft {
    fn take_node(
        &mut self,
        alloc: Global,
        number: usize,
        kind: NodeKind,
        words: Words<'_>,
        comment: &[u8],
    ) -> Result<(), LineError<DiscoveryCause>>
        ensures { LineGives (λ _. self.new) result (with_header self.old (node_reported self.old number kind words.entry comment.now)) }
    {
        let node = self.node_reported(number, kind, words, comment)?;
        let Some(place) = self.place_again(&node) else {
            return self.take_new_node(alloc, node);
        };
        self.switch_guids = None;
        self.again = Some(place);
        Ok(())
    }

    /// Takes a node that is not printed again.
    fn take_new_node(
        &mut self,
        alloc: Global,
        node: NewNode<'_>,
    ) -> Result<(), LineError<DiscoveryCause>>
        ensures { LineGives (λ _. self.new) result (with_node self.old (new_node self.old (node_seen node.entry))) }
    {
        let node = self.new_node(node)?;
        self.port_guids.push(node.port_guid)?;
        self.nodes.push(alloc, &node)?;
        self.switch_guids = None;
        self.again = None;
        Ok(())
    }

    /// Takes the line of a port of a node that is not printed again.
    fn take_new_port(&mut self, line: PortLine) -> Result<(), LineError<DiscoveryCause>>
        requires is_port { is_port self.old.nodes line.port ≡ true }
        requires has_own { has_own self.old.nodes line ≡ true }
        ensures { LineGives (λ _. self.new) result (with_port self.old (new_port self.old line)) }
    {
        let line = self.new_port(line)?;
        self.port_guids.push(line.guid)?;
        self.ports.push(line)?;
        Ok(())
    }

    /// Takes the line of a port of this node, if it is printed again, or else of the last one.
    fn take_line_of(
        &mut self,
        again: Option<usize>,
        line: PortLine,
    ) -> Result<(), LineError<DiscoveryCause>>
        requires is_port { is_port self.old.nodes line.port ≡ true }
        requires has_own { has_own self.old.nodes line ≡ true }
        ensures { LineGives (λ _. self.new) result (with_line self.old again line) }
    {
        if again.is_none() {
            return self.take_new_port(line);
        }
        if !self.ports.is_said_already(line) {
            return Err(LineError::Fault(DiscoveryCause::DuplicateGuid));
        }
        Ok(())
    }

    fn take_port(
        &mut self,
        number: usize,
        first: &[u8],
        words: Words<'_>,
        comment: &[u8],
    ) -> Result<(), LineError<DiscoveryCause>>
        ensures { LineGives (λ _. self.new) result (with_port_line self.old (port_reported self.old number first.now words.entry comment.now)) }
    {
        let line = self.port_reported(number, first, words, comment)?;
        self.take_line_of(self.again, line)
    }

    fn take_value(&mut self, key: &[u8], value: &[u8]) -> Result<(), LineError<DiscoveryCause>>
        ensures { LineGives (λ _. self.new) result (with_value self.old key.now value.now) }
    {
        if key != b"switchguid".as_slice() {
            return Ok(());
        }
        let guids = switch_guids_in(value)?;
        self.switch_guids = Some(guids);
        Ok(())
    }

    fn take_comment(&mut self, comment: &[u8])
        ensures { self.new ≡ with_comment self.old comment.now }
    {
        if self.initiator.is_some() {
            return;
        }
        if let Ok(guid) = initiator_in(comment) {
            self.initiator = Some(guid);
        }
    }

    #[tactic(auto, unfolding(crate::specs::Discovery::after_words))]
    fn take_words(
        &mut self,
        alloc: Global,
        number: usize,
        words: Words<'_>,
        comment: &[u8],
    ) -> Result<(), LineError<DiscoveryCause>>
        ensures { LineGives (λ _. self.new) result (after_words number self.old words.entry comment.now) }
    {
        let mut words = words;
        let Some(first) = words.next() else {
            self.take_comment(comment);
            return Ok(());
        };
        if first.starts_with(b"[") {
            return self.take_port(number, first, words, comment);
        }
        if first == b"Non-Chassis".as_slice() {
            if !are_nodes(words) {
                return Err(LineError::Fault(DiscoveryCause::Malformed));
            }
            return Ok(());
        }
        let kind = kind_headed(first)?;
        self.take_node(alloc, number, kind, words, comment)
    }

    /// The discovery, if all its cables stand at both ends.
    #[tactic(auto, unfolding(crate::specs::Discovery::whole), using(crate::proofs::AgreementLemmas::all_found, crate::proofs::AgreementLemmas::all_lead_back))]
    fn finish(self) -> Result<Discovery, DiscoveryFault>
        ensures { TextGives (λ discovery. discovery) result (whole self) }
    {
        match first_wrong(&self.nodes, &self.ports) {
            Some(line) => Err(DiscoveryFault::At {
                line,
                cause: DiscoveryCause::WrongFarEnd,
            }),
            None => Ok(Discovery {
                nodes: self.nodes,
                ports: self.ports,
                initiator: self.initiator,
            }),
        }
    }
}

impl LineReader for Draft {
    type Cause = DiscoveryCause;

    ghost after_line = { after_line };

    #[tactic(auto, unfolding(crate::specs::Discovery::after_line))]
    fn take_line(
        &mut self,
        alloc: Global,
        number: usize,
        line: &[u8],
    ) -> Result<(), LineError<DiscoveryCause>> {
        if heads_chassis(line) {
            return Ok(());
        }
        if let Some((key, value)) = assignment_in(line) {
            return self.take_value(key, value);
        }
        let words = Words::of(line).ok_or(DiscoveryCause::Malformed)?;
        self.take_words(alloc, number, words, comment_of(line))
    }
}

/// Whether the line heads the nodes of a chassis.
fn heads_chassis(line: &[u8]) -> bool
    ensures { result ≡ heads_chassis line.now }
{
    line.starts_with(b"Chassis ") || line.starts_with(b"Hostname: ")
}

#[tactic(auto, unfolding(crate::specs::Discovery::are_nodes))]
fn are_nodes(words: Words<'_>) -> bool
    ensures { result ≡ are_nodes words.entry }
{
    let mut words = words;
    let (Some(word), None) = (words.next(), words.next()) else {
        return false;
    };
    word == b"Nodes".as_slice()
}

fn heads_node(line: &[u8]) -> bool
    ensures { result ≡ heads_node line.now }
{
    let Some(mut words) = Words::of(line) else {
        return false;
    };
    match words.next() {
        Some(first) => kind_headed(first).is_ok(),
        None => false,
    }
}

/// Whether some line of the text heads a node, as one of `ibnetdiscover` does: its first word is `Switch`, `Ca` or `Rt`, which
/// no line of a topology begins with.
pub fn is_discovery(text: &[u8]) -> bool
    ensures { result ≡ is_discovery text.now }
{
    for line in Lines::new(text) {
        if heads_node(line) {
            return true;
        }
    }
    false
}

/// What a text of `ibnetdiscover` reports, or its first fault with the line.
///
/// Lines are judged in turn, each after those before it; `specs/Discovery.antt` says how. Time is linear
/// in the length of the text, and only names are copied.
///
/// With its option -g `ibnetdiscover` may print a node twice, under two chassis. A node that is printed again in the same words is
/// passed over, with its ports.
#[tactic(auto, unfolding(crate::specs::Discovery::discovery_of))]
pub fn read(alloc: Global, text: &[u8]) -> Result<Discovery, DiscoveryFault>
    // What the text reports, or its first fault.
    ensures exact { TextGives (λ discovery. discovery) result (discovery_of text.now) }
    // No two nodes or ports share a GUID, and each cable has both its ends.
    ensures sound { IfOk result (λ discovery. IsSound discovery) }
{
    let draft = read_lines(alloc, text, Draft::new(alloc))?;
    let discovery = draft.finish()?;
    discovery.known_sound();
    Ok(discovery)
}
