//! What is known of each end port, from the files.

ghost use Rattle.std.specs.Prelude.{◌≡◌, ◌++◌, IfOk, OnOk};
ghost use Rattle.std.specs.List.{flat_map};
ghost use Rattle.std.specs.Option.{option_copied};
ghost use Rattle.partition_file.specs.Members.{keys_in};
ghost use Rattle.audit_ports.specs.Gathered.{end_port, end_table, enforcement_in, facing_at, facing_by_lid, facing_far, facing_of, facing_of_node, facing_on, far_node};
ghost use Rattle.audit_ports.specs.Gathered.{gathered, gathered_end, is_own, is_there, lid_if_same, moved_by, moved_port, moved_switch, moved_to, node_at, node_in};
ghost use Rattle.audit_ports.specs.Gathered.{or_table, own_table, ports_of_files, ports_with, reply_to, switch_lid, table_at, table_in, unread_port};

use crate::ends::{End, ends_of, switch_guid};
use crate::held::held;
use crate::names::PortIndex;
use crate::opensm::keys_by_opensm;
use crate::port::{AuditedPort, Enforcement, FacingPort, HeldKeys, TrunkLack};
use fabric_parts::PortRef;
use netdiscover_file::{Discovery, FarEnd, Node};
use partition_file::{Partitions, members};
use pkey_rules::EndPort;
use pkeys_file::{Answers, KeyList, NodeReply, Query, QueryKind, Reply};
use std::alloc::{AllocError, Global};
use std::marker::Model;
use topo_file::LargeTopology;

/// The files.
#[derive(Drop)]
pub(crate) struct Files<'a> {
    pub(crate) index: &'a PortIndex,
    /// The SM port.
    pub(crate) manager: PortRef,
    pub(crate) discovery: &'a Discovery,
    pub(crate) answers: &'a Answers,
    pub(crate) partitions: &'a Partitions,
    /// What ports between switches lack.
    pub(crate) lacks: &'a [TrunkLack],
}

impl<'a> Model for Files<'a> {
    ghost use Rattle.audit_ports.specs.Gathered.{FilesState};

    ghost Value = { FilesState };

    ghost view = { λ files. record {
      index = files.index.now;
      manager = files.manager;
      discovery = files.discovery.now;
      answers = files.answers.now;
      partitions = files.partitions.now;
      lacks = files.lacks.now;
    } };
}

fn node_in(reply: Option<&Reply>) -> Option<NodeReply>
    ensures { result ≡ node_in (option_copied reply.entry) }
{
    match reply {
        Some(Reply::Node(reply)) => Some(*reply),
        _ => None,
    }
}

fn table_in(alloc: Global, reply: Option<&Reply>) -> Result<Option<HeldKeys>, AllocError>
    ensures { IfOk result (λ table. table ≡ table_in (option_copied reply.entry)) }
{
    match reply {
        Some(Reply::Keys(words)) => Ok(Some(held(alloc, words.as_slice())?)),
        _ => Ok(None),
    }
}

fn enforcement_in(reply: Option<&Reply>) -> Option<Enforcement>
    ensures { result ≡ enforcement_in (option_copied reply.entry) }
{
    match reply {
        Some(Reply::Port { inbound, outbound }) => Some(Enforcement {
            inbound: *inbound,
            outbound: *outbound,
        }),
        _ => None,
    }
}

fn moved_switch(guid: u64, reply: NodeReply) -> Option<u64>
    ensures { result ≡ moved_switch guid reply }
{
    if reply.guid == guid {
        None
    } else {
        Some(reply.guid)
    }
}

fn moved_port(guid: u64, reply: NodeReply) -> Option<u64>
    ensures { result ≡ moved_port guid reply }
{
    if reply.port_guid == guid {
        None
    } else {
        Some(reply.port_guid)
    }
}

fn moved_by(end: &End, reply: Option<NodeReply>) -> Option<u64>
    ensures { result ≡ moved_by end.now reply }
{
    match reply {
        Some(reply) => {
            if end.is_switch {
                moved_switch(end.node_guid, reply)
            } else {
                moved_port(end.guid, reply)
            }
        }
        None => None,
    }
}

fn is_own(end: &End, reply: NodeReply) -> bool
    ensures { result ≡ is_own end.now reply }
{
    if end.is_switch {
        reply.guid == end.node_guid
    } else {
        reply.port_guid == end.guid
    }
}

fn unread_port(port: PortRef) -> FacingPort
    ensures { result ≡ unread_port port }
{
    FacingPort {
        port,
        enforcement: None,
        table: None,
    }
}

impl<'a> Files<'a> {
    ghost use Rattle.std.specs.Prelude.{◌≡◌, ◌++◌, IfOk, OnOk};

    fn reply_to(&self, kind: QueryKind, lid: u16, port: u8) -> Option<&Reply>
        ensures { option_copied result ≡ reply_to self.now.answers kind lid port }
    {
        let place = self.answers.place_of(Query { kind, lid, port })?;
        self.answers
            .as_slice()
            .get(place)
            .map(|answer| &answer.reply)
    }

    fn node_at(&self, lid: u16) -> Option<NodeReply>
        ensures { result ≡ node_at self.now.answers lid }
    {
        node_in(self.reply_to(QueryKind::NodeInfo, lid, 0))
    }

    fn moved_to(&self, end: &End) -> Option<u64>
        ensures { result ≡ moved_to self.now.answers end.now }
    {
        moved_by(end, self.node_at(end.lid))
    }

    fn is_there(&self, end: &End) -> bool
        ensures { result ≡ is_there self.now.answers end.now }
    {
        match self.node_at(end.lid) {
            Some(reply) => is_own(end, reply),
            None => false,
        }
    }

    fn table_at(&self, alloc: Global, lid: u16, port: u8) -> Result<Option<HeldKeys>, AllocError>
        ensures { IfOk result (λ table. table ≡ table_at self.now.answers lid port) }
    {
        table_in(alloc, self.reply_to(QueryKind::Keys, lid, port))
    }

    fn end_table(&self, alloc: Global, end: &End) -> Result<Option<HeldKeys>, AllocError>
        ensures { IfOk result (λ table. table ≡ end_table self.now.answers end.now) }
    {
        match self.table_at(alloc, end.lid, end.number)? {
            Some(table) => Ok(Some(table)),
            None => self.table_at(alloc, end.lid, 0),
        }
    }

    fn own_table(&self, alloc: Global, end: &End) -> Result<Option<HeldKeys>, AllocError>
        ensures { IfOk result (λ table. table ≡ own_table self.now.answers end.now) }
    {
        if !self.is_there(end) {
            return Ok(None);
        }
        self.end_table(alloc, end)
    }

    fn facing_at(&self, alloc: Global, port: PortRef, lid: u16) -> Result<FacingPort, AllocError>
        ensures { IfOk result (λ facing. facing ≡ facing_at self.now.answers port lid) }
    {
        let enforcement = enforcement_in(self.reply_to(QueryKind::PortInfo, lid, port.port));
        let table = self.table_at(alloc, lid, port.port)?;
        Ok(FacingPort {
            port,
            enforcement,
            table,
        })
    }

    fn lid_if_same(&self, node: &Node, lid: u16) -> Option<u16>
        ensures { result ≡ lid_if_same self.now.answers node.now lid }
    {
        let reply = self.node_at(lid)?;
        if reply.guid == node.id.guid {
            Some(lid)
        } else {
            None
        }
    }

    fn switch_lid(&self, node: &Node) -> Option<u16>
        ensures { result ≡ switch_lid self.now.answers node.now }
    {
        match node.lid {
            Some(lid) => self.lid_if_same(node, lid),
            None => None,
        }
    }

    fn facing_on(
        &self,
        alloc: Global,
        node: &Node,
        number: u8,
        switch: PortRef,
    ) -> Result<FacingPort, AllocError>
        ensures { IfOk result (λ facing. facing ≡ facing_on self.now.answers node.now number switch) }
    {
        let port = PortRef {
            node: switch.node,
            port: number,
        };
        match self.switch_lid(node) {
            Some(lid) => self.facing_at(alloc, port, lid),
            None => Ok(unread_port(port)),
        }
    }

    pub(crate) fn facing_of_node(
        &self,
        alloc: Global,
        number: u8,
        node: &Node,
    ) -> Result<Option<FacingPort>, AllocError>
        ensures { IfOk result (λ facing. facing ≡ facing_of_node self.now number node.now) }
    {
        if !node.id.kind.is_switch() {
            return Ok(None);
        }
        match self.index.named(switch_guid(node)) {
            Some(switch) => Ok(Some(self.facing_on(alloc, node, number, switch)?)),
            None => Ok(None),
        }
    }

    fn far_node(&self, far: &FarEnd) -> Option<&Node>
        ensures { option_copied result ≡ far_node self.now far.now }
    {
        let place = self.discovery.place_of(far.node.guid)?;
        self.discovery.nodes().get(place)
    }

    fn facing_far(&self, alloc: Global, far: &FarEnd) -> Result<Option<FacingPort>, AllocError>
        ensures { IfOk result (λ facing. facing ≡ facing_far self.now far.now) }
    {
        match self.far_node(far) {
            Some(node) => self.facing_of_node(alloc, far.port, node),
            None => Ok(None),
        }
    }

    fn facing_of(&self, alloc: Global, end: &End) -> Result<Option<FacingPort>, AllocError>
        ensures { IfOk result (λ facing. facing ≡ facing_of self.now end.now) }
    {
        match &end.far {
            Some(far) => self.facing_far(alloc, far),
            None => Ok(None),
        }
    }

    pub(crate) fn end_port(&self, port: PortRef, end: &End) -> EndPort
        ensures { result ≡ end_port self.now port end.now }
    {
        EndPort {
            guid: end.guid,
            is_switch: end.is_switch,
            is_sm: port == self.manager,
        }
    }

    #[tactic(auto, unfolding(crate::specs::Gathered::gathered))]
    fn gathered(&self, alloc: Global, end: &End, port: PortRef) -> Result<AuditedPort, AllocError>
        ensures { IfOk result (λ known. known ≡ gathered self.now end.now port) }
    {
        let moved = self.moved_to(end);
        let table = self.own_table(alloc, end)?;
        let end_port = self.end_port(port, end);
        let file = keys_in(alloc, self.partitions, end_port)?;
        let opensms = keys_by_opensm(alloc, self.partitions, &end_port)?;
        let facing = self.facing_of(alloc, end)?;
        let lacks = self.own_lacks(alloc, end, port)?;
        Ok(AuditedPort {
            port,
            guid: end.guid,
            node_guid: end.node_guid,
            lid: end.lid,
            is_manager: end_port.is_sm,
            moved,
            table,
            file,
            opensms,
            facing,
            lacks,
        })
    }

    #[tactic(auto, unfolding(crate::specs::Gathered::gathered_end))]
    fn push_end(
        &self,
        alloc: Global,
        ports: &mut Vec<AuditedPort>,
        end: &End,
    ) -> Result<(), AllocError>
        ensures { OnOk result (ports.new.items ≡ ports.old.items ++ gathered_end self.now end.now) }
    {
        match self.index.named(end.guid) {
            Some(port) => {
                ports.push(self.gathered(alloc, end, port)?)?;
                Ok(())
            }
            None => Ok(()),
        }
    }

    fn ports(&self, alloc: Global) -> Result<Vec<AuditedPort>, AllocError>
        ensures { IfOk result (λ ports. ports.items ≡ ports_with self.now) }
    {
        let ends = ends_of(alloc, self.discovery)?;
        self.ports_at(alloc, &ends)
    }

    fn ports_at(&self, alloc: Global, ends: &[End]) -> Result<Vec<AuditedPort>, AllocError>
        ensures { IfOk result (λ ports. ports.items ≡ flat_map (gathered_end self.now) ends.now) }
    {
        let mut ports = Vec::new(alloc);
        for end in ends {
            self.push_end(alloc, &mut ports, end)?;
        }
        Ok(ports)
    }
}

/// The keys that the partitions give an end port.
fn keys_in(alloc: Global, partitions: &Partitions, port: EndPort) -> Result<KeyList, AllocError>
    ensures { IfOk result (λ keys. keys ≡ keys_in partitions.now port) }
{
    let ports = [port];
    let all = members(alloc, partitions, &ports)?;
    match all.keys() {
        [table] => {
            let keys = table
                .as_slice()
                .iter()
                .map(|key| key.bits())
                .collect(alloc)?;
            Ok(KeyList::of(keys))
        }
        _ => Ok(KeyList::of(Vec::new(alloc))),
    }
}

/// The end ports of a fabric, with what the files say of each. It can only run out of memory.
pub fn ports_of_files(
    alloc: Global,
    plan: &LargeTopology,
    discovery: &Discovery,
    answers: &Answers,
    partitions: &Partitions,
) -> Result<Vec<AuditedPort>, AllocError>
    ensures { IfOk result (λ ports. ports.items ≡ ports_of_files plan.now discovery.now answers.now partitions.now) }
{
    let index = PortIndex::of(alloc, plan.nodes())?;
    let lacks = Files {
        index: &index,
        manager: plan.sm(),
        discovery,
        answers,
        partitions,
        lacks: &[],
    }
    .trunk_lacks(alloc)?;
    let files = Files {
        index: &index,
        manager: plan.sm(),
        discovery,
        answers,
        partitions,
        lacks: &lacks,
    };
    files.ports(alloc)
}
