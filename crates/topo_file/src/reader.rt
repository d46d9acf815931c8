//! The reader of a whole topology.

ghost use Rattle.std.specs.Prelude.{◌≡◌, ◌≤◌, true, false, None, length, IfOk};
ghost use Rattle.fabric_parts.specs.declared.limits.TheConstants.{NAME_BYTES};
ghost use Rattle.text_words.specs.Words.{seen as port_seen};
ghost use Rattle.topo_file.specs.Node.{HasGuids, is_one_too_many, is_switch_at, place_of};
ghost use Rattle.topo_file.specs.NewNode.{seen};
ghost use Rattle.topo_file.specs.Sound.{IsSoundWithin, ends_at_ports, is_manager_port};
ghost use Rattle.step_results.specs.Gives.{LineGives, seen_by};
ghost use Rattle.step_results.specs.TextGives.{TextGives};
ghost use Rattle.topo_file.specs.Topology.{name_of, port_of, number_up_to, node_encoded, node_of, cable_encoded, cable_of, root_encoded, root_of, manager_encoded, manager_of, is_root, with_node, with_cable, with_root, with_manager, after_words, after_line, whole, topology_of, topology_within};

use crate::connectivity::is_connected;
use crate::draft::{Draft, Manager};
use crate::fault::{TopoFault, TopologyCause};
use crate::large_topology::LargeTopology;
use crate::node::NewNode;
use crate::topology::Topology;
use fabric_parts::{Cable, Limits, NodeType};
use std::alloc::Global;
use step_results::LineError;
use text_words::{LineReader, PortWord, Words, is_name, number_in, port_in, read_lines};

impl Draft {
    /// The node that a line declares, by the words after the first.
    #[tactic(auto, unfolding(crate::specs::Topology::node_of))]
    fn node_of<'a>(
        &self,
        node_type: NodeType,
        words: Words<'a>,
    ) -> Result<NewNode<'a>, TopologyCause>
        ensures value { seen_by seen result ≡ node_of self.now.limits node_type self.now.nodes words.entry }
        ensures new { IfOk result (λ node. place_of node.name.now self.now.nodes ≡ None) }
        ensures short { IfOk result (λ node. length node.name.now ≤ NAME_BYTES) }
        ensures guids { IfOk result (λ node. HasGuids (seen node)) }
        ensures room { IfOk result (λ node. is_one_too_many self.now.limits self.now.nodes node.node_type node.ports ≡ false) }
    {
        let mut words = words;
        let (Some(name), Some(guid), Some(ports), None) = (
            words.next(),
            words.next(),
            words.next(),
            words.next(),
        ) else {
            return Err(TopologyCause::Malformed);
        };
        self.node_encoded(node_type, name, guid, ports)
    }

    #[tactic(auto, unfolding(crate::specs::Topology::node_encoded))]
    fn node_encoded<'a>(
        &self,
        node_type: NodeType,
        name: &'a [u8],
        guid: &[u8],
        ports: &[u8],
    ) -> Result<NewNode<'a>, TopologyCause>
        ensures value { seen_by seen result ≡ node_encoded self.now.limits node_type self.now.nodes name.now guid.now ports.now }
        ensures new { IfOk result (λ node. place_of node.name.now self.now.nodes ≡ None) }
        ensures short { IfOk result (λ node. length node.name.now ≤ NAME_BYTES) }
        ensures guids { IfOk result (λ node. HasGuids (seen node)) }
        ensures room { IfOk result (λ node. is_one_too_many self.now.limits self.now.nodes node.node_type node.ports ≡ false) }
    {
        let name = name_of(name)?;
        let guid = number_up_to(u64::MAX, guid)?;
        let ports = number_up_to(u64::from(self.limits.ports_of(node_type)), ports)? as u8;
        let node = NewNode {
            name,
            node_type,
            guid,
            ports,
        };
        self.new_node(&node)?;
        Ok(node)
    }

    /// The cable that a line declares, by the words after the first.
    #[tactic(auto, unfolding(crate::specs::Topology::cable_of))]
    fn cable_of(&self, words: Words<'_>) -> Result<Cable, TopologyCause>
        ensures value { result ≡ cable_of self.now.nodes self.now.cables words.entry }
        ensures ends { IfOk result (λ cable. ends_at_ports self.now.nodes cable ≡ true) }
    {
        let mut words = words;
        let (Some(one), Some(other), None) = (words.next(), words.next(), words.next()) else {
            return Err(TopologyCause::Malformed);
        };
        self.cable_encoded(one, other)
    }

    #[tactic(auto, unfolding(crate::specs::Topology::cable_encoded))]
    fn cable_encoded(&self, one: &[u8], other: &[u8]) -> Result<Cable, TopologyCause>
        ensures value { result ≡ cable_encoded self.now.nodes self.now.cables one.now other.now }
        ensures ends { IfOk result (λ cable. ends_at_ports self.now.nodes cable ≡ true) }
    {
        let one = port_of(one)?;
        let other = port_of(other)?;
        let first_node = self.node_named(one.name)?;
        let second_node = self.node_named(other.name)?;
        let first = self.port_at(first_node, one.number)?;
        let second = self.port_at(second_node, other.number)?;
        self.new_cable(first, second)
    }

    /// The root that a line names, by the words after the first.
    #[tactic(auto, unfolding(crate::specs::Topology::root_of))]
    fn root_of(&self, words: Words<'_>) -> Result<usize, TopologyCause>
        ensures value { result ≡ root_of self.now.nodes self.now.roots words.entry }
        ensures switch { IfOk result (λ root. is_switch_at self.now.nodes root ≡ true) }
        ensures own { IfOk result (λ root. is_root self.now.roots root ≡ false) }
    {
        let mut words = words;
        let (Some(word), None) = (words.next(), words.next()) else {
            return Err(TopologyCause::Malformed);
        };
        self.root_encoded(word)
    }

    #[tactic(auto, unfolding(crate::specs::Topology::root_encoded))]
    fn root_encoded(&self, word: &[u8]) -> Result<usize, TopologyCause>
        ensures value { result ≡ root_encoded self.now.nodes self.now.roots word.now }
        ensures switch { IfOk result (λ root. is_switch_at self.now.nodes root ≡ true) }
        ensures own { IfOk result (λ root. is_root self.now.roots root ≡ false) }
    {
        let name = name_of(word)?;
        let place = self.node_named(name)?;
        self.new_root(place)
    }

    /// The port that a line places the subnet manager on, by the words after the first.
    #[tactic(auto, unfolding(crate::specs::Topology::manager_of))]
    fn manager_of(&self, number: usize, words: Words<'_>) -> Result<Manager, TopologyCause>
        ensures value { result ≡ manager_of self.now.nodes self.now.manager number words.entry }
        ensures on_adapter { IfOk result (λ manager. is_manager_port self.now.nodes manager.port ≡ true) }
    {
        let mut words = words;
        let (Some(word), None) = (words.next(), words.next()) else {
            return Err(TopologyCause::Malformed);
        };
        self.manager_encoded(number, word)
    }

    #[tactic(auto, unfolding(crate::specs::Topology::manager_encoded))]
    fn manager_encoded(&self, number: usize, word: &[u8]) -> Result<Manager, TopologyCause>
        ensures value { result ≡ manager_encoded self.now.nodes self.now.manager number word.now }
        ensures on_adapter { IfOk result (λ manager. is_manager_port self.now.nodes manager.port ≡ true) }
    {
        let word = port_of(word)?;
        let node = self.node_named(word.name)?;
        let port = self.port_at(node, word.number)?;
        self.new_manager(number, port)
    }

    fn take_node(
        &mut self,
        alloc: Global,
        node_type: NodeType,
        words: Words<'_>,
    ) -> Result<(), LineError<TopologyCause>>
        ensures { LineGives (λ _. self.new) result (with_node self.old (node_of self.old.limits node_type self.old.nodes words.entry)) }
    {
        let node = self.node_of(node_type, words)?;
        self.nodes.push(alloc, &node)?;
        match node.node_type {
            NodeType::Switch => self.switches += 1,
            NodeType::ChannelAdapter => self.ports += usize::from(node.ports),
        }
        Ok(())
    }

    fn take_cable(&mut self, words: Words<'_>) -> Result<(), LineError<TopologyCause>>
        ensures { LineGives (λ _. self.new) result (with_cable self.old (cable_of self.old.nodes self.old.cables words.entry)) }
    {
        let cable = self.cable_of(words)?;
        self.cables.push(cable)?;
        Ok(())
    }

    fn take_root(&mut self, words: Words<'_>) -> Result<(), LineError<TopologyCause>>
        ensures { LineGives (λ _. self.new) result (with_root self.old (root_of self.old.nodes self.old.roots words.entry)) }
    {
        let root = self.root_of(words)?;
        self.roots.push(root)?;
        Ok(())
    }

    fn take_manager(
        &mut self,
        number: usize,
        words: Words<'_>,
    ) -> Result<(), LineError<TopologyCause>>
        ensures { LineGives (λ _. self.new) result (with_manager self.old (manager_of self.old.nodes self.old.manager number words.entry)) }
    {
        let manager = self.manager_of(number, words)?;
        self.manager = Some(manager);
        Ok(())
    }

    #[tactic(auto, unfolding(crate::specs::Topology::after_words))]
    fn take_words(
        &mut self,
        alloc: Global,
        number: usize,
        words: Words<'_>,
    ) -> Result<(), LineError<TopologyCause>>
        ensures { LineGives (λ _. self.new) result (after_words number self.old words.entry) }
    {
        let mut words = words;
        let Some(first) = words.next() else {
            return Ok(());
        };
        if first == b"switch".as_slice() {
            return self.take_node(alloc, NodeType::Switch, words);
        }
        if first == b"adapter".as_slice() {
            return self.take_node(alloc, NodeType::ChannelAdapter, words);
        }
        if first == b"cable".as_slice() {
            return self.take_cable(words);
        }
        if first == b"root".as_slice() {
            return self.take_root(words);
        }
        if first == b"sm".as_slice() {
            return self.take_manager(number, words);
        }
        Err(LineError::Fault(TopologyCause::Malformed))
    }

    /// The topology, if all lines together describe one.
    #[tactic(auto, unfolding(crate::specs::Topology::whole))]
    fn finish(self, alloc: Global) -> Result<LargeTopology, TopoFault>
        ensures value { TextGives (λ topology. topology) result (whole self) }
        ensures sound { IfOk result (IsSoundWithin self.limits) }
    {
        let Some(manager) = self.manager else {
            return Err(TopoFault::At {
                line: 0,
                cause: TopologyCause::WrongManager,
            });
        };
        if !self.cables.is_cabled(manager.port) {
            return Err(TopoFault::At {
                line: manager.line,
                cause: TopologyCause::ManagerUncabled,
            });
        }
        if !is_connected(alloc, self.nodes.as_slice(), self.cables.as_slice())? {
            return Err(TopoFault::At {
                line: 0,
                cause: TopologyCause::Disconnected,
            });
        }
        Ok(LargeTopology {
            nodes: self.nodes,
            cables: self.cables,
            roots: self.roots,
            sm: manager.port,
        })
    }
}

impl LineReader for Draft {
    type Cause = TopologyCause;

    ghost after_line = { after_line };

    #[tactic(auto, unfolding(crate::specs::Topology::after_line))]
    fn take_line(
        &mut self,
        alloc: Global,
        number: usize,
        line: &[u8],
    ) -> Result<(), LineError<TopologyCause>> {
        let words = Words::of(line).ok_or(TopologyCause::Malformed)?;
        self.take_words(alloc, number, words)
    }
}

fn name_of(word: &[u8]) -> Result<&[u8], TopologyCause>
    ensures value { seen_by (λ name. name.now) result ≡ name_of word.now }
    ensures short { IfOk result (λ name. length name.now ≤ NAME_BYTES) }
{
    if !is_name(word) {
        return Err(TopologyCause::Malformed);
    }
    Ok(word)
}

fn port_of(word: &[u8]) -> Result<PortWord<'_>, TopologyCause>
    ensures { seen_by port_seen result ≡ port_of word.now }
{
    port_in(word).ok_or(TopologyCause::Malformed)
}

/// The number that a word encodes, if it is one from 1 to `top`.
fn number_up_to(top: u64, word: &[u8]) -> Result<u64, TopologyCause>
    ensures value { result ≡ number_up_to top word.now }
    ensures within { IfOk result (λ number. number ≤ top) }
{
    match number_in(word) {
        Some(number) if number >= 1 && number <= u128::from(top) => Ok(number as u64),
        _ => Err(TopologyCause::Malformed),
    }
}

/// The topology that a text describes, or its first fault with the line; a fabric past the limits is a fault.
///
/// Lines are judged in turn, each after those before it; `specs/Topology.antt` says how. Time is
/// linear in the length of the text, and only names are copied.
#[tactic(auto, unfolding(crate::specs::Topology::topology_within))]
pub fn read_within(alloc: Global, text: &[u8], limits: Limits) -> Result<LargeTopology, TopoFault>
    ensures value { TextGives (λ topology. topology) result (topology_within limits text.now) }
    ensures sound { IfOk result (IsSoundWithin limits) }
{
    let draft = read_lines(alloc, text, Draft::new(alloc, limits))?;
    draft.finish(alloc)
}

/// The topology of a simulated fabric that a text describes, or its first fault with the line; see [`read_within`].
pub fn read(alloc: Global, text: &[u8]) -> Result<Topology, TopoFault>
    ensures { TextGives (λ topology. topology) result (topology_of text.now) }
{
    let all = read_within(alloc, text, Limits::Simulated)?;
    Ok(Topology { all })
}
