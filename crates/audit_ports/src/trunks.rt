//! Ports between switches that drop packets, and the bases that they lack.

ghost use Rattle.std.specs.Prelude.{◌≡◌, ◌++◌, OnOk};
ghost use Rattle.std.specs.List.{flat_map};
ghost use Rattle.partition_file.specs.Members.{is_member};
ghost use Rattle.audit_ports.specs.Gathered.{drops, lack_of, lacks_if};

use crate::ends::{End, ends_of};
use crate::gathering::Files;
use crate::held::has_base;
use crate::opensm::are_named;
use crate::port::{Enforcement, FacingPort, TrunkLack, TrunkLacks};
use fabric_parts::PortRef;
use netdiscover_file::PortLine;
use partition_file::Partition;
use pkey_rules::EndPort;
use std::alloc::{AllocError, Global};

fn is_member(port: &EndPort, partition: &Partition) -> bool
    ensures { result ≡ is_member port.now partition.now }
{
    partition
        .items
        .as_slice()
        .iter()
        .any(|item| are_named(port, item.ports))
}

fn drops(enforcement: Enforcement) -> bool
    ensures { result ≡ drops enforcement }
{
    enforcement.inbound || enforcement.outbound
}

#[tactic(auto, unfolding(crate::specs::Gathered::lack_of))]
fn push_lack(
    lacks: &mut Vec<TrunkLack>,
    port: PortRef,
    keys: &[u16],
    base: u16,
) -> Result<(), AllocError>
    ensures { OnOk result (lacks.new.items ≡ lacks.old.items ++ lack_of port keys.now base) }
{
    if has_base(base, keys) {
        return Ok(());
    }
    lacks.push(TrunkLack { port, base })?;
    Ok(())
}

fn push_each_lack(
    lacks: &mut Vec<TrunkLack>,
    port: PortRef,
    keys: &[u16],
    bases: &[u16],
) -> Result<(), AllocError>
    ensures { OnOk result (lacks.new.items ≡ lacks.old.items ++ flat_map (lack_of port keys.now) bases.now) }
{
    for base in bases {
        push_lack(lacks, port, keys, *base)?;
    }
    Ok(())
}

fn push_if_drops(
    lacks: &mut Vec<TrunkLack>,
    trunk: &FacingPort,
    bases: &[u16],
) -> Result<(), AllocError>
    ensures { OnOk result (lacks.new.items
        ≡ lacks.old.items ++ lacks_if trunk.now.port trunk.now.enforcement trunk.now.table bases.now) }
{
    match (trunk.enforcement, &trunk.table) {
        (Some(enforcement), Some(table)) => {
            if !drops(enforcement) {
                return Ok(());
            }
            push_each_lack(lacks, trunk.port, table.keys.as_slice(), bases)
        }
        _ => Ok(()),
    }
}

impl<'a> Files<'a> {
    ghost use Rattle.std.specs.Prelude.{◌≡◌, ◌++◌, IfOk, OnOk};
    ghost use Rattle.std.specs.List.{flat_map, list_any};
    ghost use Rattle.audit_ports.specs.Gathered.{is_member_at, line_lacks, own_lacks, trunk_lacks, trunk_of, used_base, used_bases};

    fn is_member_at(&self, partition: &Partition, end: &End) -> bool
        ensures { result ≡ is_member_at self.now partition.now end.now }
    {
        match self.index.named(end.guid) {
            Some(port) => is_member(&self.end_port(port, end), partition),
            None => false,
        }
    }

    fn is_used(&self, ends: &[End], partition: &Partition) -> bool
        ensures { result ≡ list_any (is_member_at self.now partition.now) ends.now }
    {
        ends.iter().any(|end| self.is_member_at(partition, end))
    }

    #[tactic(auto, unfolding(crate::specs::Gathered::used_base))]
    fn push_base(
        &self,
        bases: &mut Vec<u16>,
        ends: &[End],
        partition: &Partition,
    ) -> Result<(), AllocError>
        ensures { OnOk result (bases.new.items ≡ bases.old.items ++ used_base self.now ends.now partition.now) }
    {
        if self.is_used(ends, partition) {
            bases.push(partition.base)?;
        }
        Ok(())
    }

    fn used_bases(&self, alloc: Global, ends: &[End]) -> Result<Vec<u16>, AllocError>
        ensures { IfOk result (λ bases. bases.items ≡ used_bases self.now ends.now) }
    {
        let mut bases = Vec::new(alloc);
        for partition in self.partitions.as_slice() {
            self.push_base(&mut bases, ends, partition)?;
        }
        Ok(bases)
    }

    fn trunk_of(&self, alloc: Global, line: &PortLine) -> Result<Option<FacingPort>, AllocError>
        ensures { IfOk result (λ trunk. trunk ≡ trunk_of self.now line.now) }
    {
        if !line.far.node.kind.is_switch() {
            return Ok(None);
        }
        match self.discovery.nodes().get(line.port.node) {
            Some(node) => self.facing_of_node(alloc, line.port.port, node),
            None => Ok(None),
        }
    }

    #[tactic(auto, unfolding(crate::specs::Gathered::line_lacks))]
    fn push_line(
        &self,
        alloc: Global,
        lacks: &mut Vec<TrunkLack>,
        bases: &[u16],
        line: &PortLine,
    ) -> Result<(), AllocError>
        ensures { OnOk result (lacks.new.items ≡ lacks.old.items ++ line_lacks self.now bases.now line.now) }
    {
        match self.trunk_of(alloc, line)? {
            Some(trunk) => push_if_drops(lacks, &trunk, bases),
            None => Ok(()),
        }
    }

    fn lacks_with(&self, alloc: Global, bases: &[u16]) -> Result<Vec<TrunkLack>, AllocError>
        ensures { IfOk result (λ lacks. lacks.items ≡ flat_map (line_lacks self.now bases.now) self.now.discovery.ports) }
    {
        let mut lacks = Vec::new(alloc);
        for line in self.discovery.ports() {
            self.push_line(alloc, &mut lacks, bases, line)?;
        }
        Ok(lacks)
    }

    /// What ports between switches lack.
    pub(crate) fn trunk_lacks(&self, alloc: Global) -> Result<Vec<TrunkLack>, AllocError>
        ensures { IfOk result (λ lacks. lacks.items ≡ trunk_lacks self.now) }
    {
        let ends = ends_of(alloc, self.discovery)?;
        let bases = self.used_bases(alloc, &ends)?;
        self.lacks_with(alloc, &bases)
    }

    /// What ports of this switch lack, if the end is a switch's.
    pub(crate) fn own_lacks(
        &self,
        alloc: Global,
        end: &End,
        port: PortRef,
    ) -> Result<TrunkLacks, AllocError>
        ensures { IfOk result (λ lacks. lacks ≡ own_lacks end.now port self.now.lacks) }
    {
        if !end.is_switch {
            return Ok(TrunkLacks::of(Vec::new(alloc)));
        }
        let lacks = self
            .lacks
            .iter()
            .copied()
            .filter(|lack| lack.port.node == port.node)
            .collect(alloc)?;
        Ok(TrunkLacks::of(lacks))
    }
}
