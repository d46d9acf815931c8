//! The entries of linear forwarding tables that change.

ghost use Rattle.std.specs.Prelude.{◌≡◌, ◌++◌, IfOk, OnOk};
ghost use Rattle.std.specs.List.{flat_map};
ghost use Rattle.cable_cuts.specs.Changes.{change_at, changes, changes_at, entry_by};

use fabric_parts::{NO_PORT, NodeType};
use std::alloc::{AllocError, Global};
use subnet_model::SubnetPort;
use updn_routes::Routes;

/// An entry of a linear forwarding table that changes.
#[derive(Clone, Copy, Debug, PartialEq, Eq)]
pub struct Change {
    /// The LID of the switch.
    pub switch: u16,
    /// The LID that the entry is for.
    pub lid: u16,
    /// The port by which the switch sends what is for it, and 255 if there is none.
    pub was: u8,
    /// The same, afterwards.
    pub becomes: u8,
}

/// The entries of these end ports' LIDs that differ if other routes take the place of these: by switches, in the order of the
/// list, and then by LIDs. It can only run out of memory.
pub(crate) fn changes(
    alloc: Global,
    ports: &[SubnetPort],
    routes: &Routes,
    others: &Routes,
) -> Result<Vec<Change>, AllocError>
    ensures { IfOk result (λ all. all.items ≡ changes ports.now (entry_by routes.now) (entry_by others.now)) }
{
    let mut all = Vec::new(alloc);
    for port in ports {
        push_changes_of(&mut all, ports, port, routes, others)?;
    }
    Ok(all)
}

/// The changes at the node of an end port, if it is a switch.
fn push_changes_of(
    all: &mut Vec<Change>,
    ports: &[SubnetPort],
    switch: &SubnetPort,
    routes: &Routes,
    others: &Routes,
) -> Result<(), AllocError>
    ensures { OnOk result (all.new.items
        ≡ all.old.items ++ changes_at ports.now (entry_by routes.now) (entry_by others.now) switch.now) }
{
    match switch.node_type {
        NodeType::Switch => push_changes_at(all, ports, switch, routes, others),
        NodeType::ChannelAdapter => Ok(()),
    }
}

/// The changes at a switch.
fn push_changes_at(
    all: &mut Vec<Change>,
    ports: &[SubnetPort],
    switch: &SubnetPort,
    routes: &Routes,
    others: &Routes,
) -> Result<(), AllocError>
    ensures { OnOk result (all.new.items
        ≡ all.old.items ++ flat_map (change_at (entry_by routes.now) (entry_by others.now) switch.now) ports.now) }
{
    for port in ports {
        push_change(all, switch, port, routes, others)?;
    }
    Ok(())
}

/// The change at a switch for the LID of an end port, if it is one.
fn push_change(
    all: &mut Vec<Change>,
    switch: &SubnetPort,
    port: &SubnetPort,
    routes: &Routes,
    others: &Routes,
) -> Result<(), AllocError>
    ensures { OnOk result (all.new.items
        ≡ all.old.items ++ change_at (entry_by routes.now) (entry_by others.now) switch.now port.now) }
{
    let was = entry_by(routes, switch.guid, port.lid);
    let becomes = entry_by(others, switch.guid, port.lid);
    if was == becomes {
        return Ok(());
    }
    all.push(Change {
        switch: switch.lid,
        lid: port.lid,
        was,
        becomes,
    })?;
    Ok(())
}

/// What the linear forwarding table of the switch of that GUID has for a LID.
fn entry_by(routes: &Routes, guid: u64, lid: u16) -> u8
    ensures { result ≡ entry_by routes.now guid lid }
{
    match routes.graph().place_of(guid) {
        Some(place) => routes.next_hop(place, lid).unwrap_or(NO_PORT),
        None => NO_PORT,
    }
}
