//! Whom a switch port that lacks a base cuts its adapter port off from.

ghost use Rattle.std.specs.Prelude.{◌≡◌, ◌++◌, codes, count_by, IfOk, OnOk};
ghost use Rattle.std.specs.List.{flat_map};
ghost use Rattle.audit_keys.specs.Cuts.{cut_line, cut_lines, lacking, lacking_if, line_unless_none, talks_with};
ghost use Rattle.audit_ports.specs.Names.{port_text};

use crate::differences::{bases_of, enforces};
use crate::standing::{Listing, push_line_of_count, standing};
use audit_ports::{AuditedPort, FacingPort, HeldKeys, of_other_bases, push_port};
use fabric_parts::PortRef;
use std::alloc::{AllocError, Global};
use topo_file::Node;

fn talks_with(base: u16, port: &AuditedPort, other: &AuditedPort) -> bool
    ensures { result ≡ talks_with base port.now other.now }
{
    port.port != other.port
        && standing(base, port)
            .after
            .may_talk(standing(base, other).after)
}

fn talking_count(base: u16, port: &AuditedPort, ports: &[AuditedPort]) -> usize
    ensures { result ≡ count_by (talks_with base port.now) ports.now }
{
    ports
        .iter()
        .filter(|other| talks_with(base, port, *other))
        .count()
}

/// The bases of the adapter port that the switch port lacks.
fn lacking(
    alloc: Global,
    table: &Option<HeldKeys>,
    adapter: &Option<HeldKeys>,
) -> Result<Vec<u16>, AllocError>
    ensures { IfOk result (λ bases. bases.items ≡ lacking table.now adapter.now) }
{
    match (table, adapter) {
        (Some(table), Some(adapter)) => {
            let keys = of_other_bases(alloc, adapter.keys.as_slice(), table.keys.as_slice())?;
            bases_of(alloc, &keys)
        }
        _ => Ok(Vec::new(alloc)),
    }
}

fn lacking_if(
    alloc: Global,
    facing: &FacingPort,
    adapter: &Option<HeldKeys>,
) -> Result<Vec<u16>, AllocError>
    ensures { IfOk result (λ bases. bases.items ≡ lacking_if facing.now.enforcement facing.now.table adapter.now) }
{
    match facing.enforcement {
        Some(enforcement) => {
            if enforces(enforcement) {
                lacking(alloc, &facing.table, adapter)
            } else {
                Ok(Vec::new(alloc))
            }
        }
        None => Ok(Vec::new(alloc)),
    }
}

fn push_unless_none(
    text: &mut Vec<u8>,
    words: &[u8],
    base: u16,
    count: usize,
) -> Result<(), AllocError>
    ensures { OnOk result (text.new.items ≡ text.old.items ++ line_unless_none words.now base count) }
{
    if count == 0 {
        return Ok(());
    }
    push_line_of_count(text, words, base, count as u128)
}

fn cut_words(alloc: Global, nodes: &[Node], switch: PortRef) -> Result<Vec<u8>, AllocError>
    ensures { IfOk result (λ words. words.items ≡ codes "cut " ++ port_text nodes.now switch) }
{
    let mut words = Vec::new(alloc);
    words.extend_from_slice(b"cut ")?;
    push_port(&mut words, nodes, switch)?;
    Ok(words)
}

#[tactic(auto, unfolding(crate::specs::Cuts::cut_line))]
fn push_cut(
    alloc: Global,
    text: &mut Vec<u8>,
    listing: Listing<'_>,
    port: &AuditedPort,
    switch: PortRef,
    base: u16,
) -> Result<(), AllocError>
    ensures { OnOk result (text.new.items ≡ text.old.items ++ cut_line listing.entry.nodes.now listing.entry.ports.now port.now switch base) }
{
    let words = cut_words(alloc, listing.nodes, switch)?;
    push_unless_none(text, &words, base, talking_count(base, port, listing.ports))
}

fn push_each_cut(
    alloc: Global,
    text: &mut Vec<u8>,
    listing: Listing<'_>,
    port: &AuditedPort,
    switch: PortRef,
    bases: &[u16],
) -> Result<(), AllocError>
    ensures { OnOk result (text.new.items
        ≡ text.old.items ++ flat_map (cut_line listing.entry.nodes.now listing.entry.ports.now port.now switch) bases.now) }
{
    for base in bases {
        push_cut(alloc, text, listing, port, switch, *base)?;
    }
    Ok(())
}

#[tactic(auto, unfolding(crate::specs::Cuts::cut_lines))]
fn push_cuts_of(
    alloc: Global,
    text: &mut Vec<u8>,
    listing: Listing<'_>,
    port: &AuditedPort,
) -> Result<(), AllocError>
    ensures { OnOk result (text.new.items
        ≡ text.old.items ++ cut_lines listing.entry.nodes.now listing.entry.ports.now port.now) }
{
    match &port.facing {
        Some(facing) => {
            let bases = lacking_if(alloc, facing, &port.table)?;
            push_each_cut(alloc, text, listing, port, facing.port, &bases)
        }
        None => Ok(()),
    }
}

/// From how many ports each switch port cuts its adapter port off.
pub(crate) fn push_cuts(
    alloc: Global,
    text: &mut Vec<u8>,
    listing: Listing<'_>,
) -> Result<(), AllocError>
    ensures { OnOk result (text.new.items
        ≡ text.old.items ++ flat_map (cut_lines listing.entry.nodes.now listing.entry.ports.now) listing.entry.ports.now) }
{
    for port in listing.ports {
        push_cuts_of(alloc, text, listing, port)?;
    }
    Ok(())
}
