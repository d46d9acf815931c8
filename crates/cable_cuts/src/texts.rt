//! The texts.

ghost use Rattle.std.specs.Prelude.{◌≡◌, ◌==◌, ◌++◌, find, length, true, IfOk, OnOk};
ghost use Rattle.std.specs.List.{flat_map};
ghost use Rattle.std.specs.Option.{option_copied};
ghost use Rattle.cable_cuts.specs.Cables.{can_be_cut};
ghost use Rattle.cable_cuts.specs.Fate.{HaveBroughtUp};
ghost use Rattle.cable_cuts.specs.Texts.{ReportsAll, ReportsOne, change_line, change_lines, count_line, difference_text, end_text, hop_text, keeps, kept, lid_text, lines_of, loss_line, node_text, outcome_text, stop_text, stopped};

use crate::changes::{Change, changes};
use crate::cutting::cut;
use crate::fate::{Cut, Stop};
use crate::loss::{Loss, losses};
use crate::outcome::{Difference, Outcome, outcome_of};
use fabric_parts::{Cable, NO_PORT, PortRef};
use partition_reports::push_port;
use std::alloc::{AllocError, Global};
use subnet_model::{Configuration, SubnetPort};
use text_words::{push_decimal, push_port_name};
use topo_file::{Topology, name_at};
use updn_routes::Routes;

/// A line for each cable between two switches, in the order of the topology, that reports what its loss would do; and behind these a
/// line with how many the fabric keeps without, and how many stop it. These routes brought the fabric up, and these are its end
/// ports. It can only run out of memory.
pub fn cuts_text(
    alloc: Global,
    topology: &Topology,
    configuration: &Configuration,
    routes: &Routes,
) -> Result<Vec<u8>, AllocError>
    requires { HaveBroughtUp topology.now routes.now }
    ensures { IfOk result (λ text. ReportsAll topology.now configuration.now routes.now text.items) }
{
    let losses = losses(alloc, topology, configuration, routes)?;
    lines_of(alloc, topology, configuration.ports(), &losses)
}

/// The line of one cable between two switches, and behind it, if the fabric comes up without it, a line for each entry of a
/// linear forwarding table that differs then: by the LIDs of switches, and then by LIDs. It can only run out of memory.
pub fn cut_text(
    alloc: Global,
    topology: &Topology,
    configuration: &Configuration,
    routes: &Routes,
    cable: Cable,
) -> Result<Vec<u8>, AllocError>
    requires up { HaveBroughtUp topology.now routes.now }
    requires cable { can_be_cut topology.now cable ≡ true }
    ensures { IfOk result (λ text. ReportsOne topology.now configuration.now routes.now cable text.items) }
{
    let fate = cut(alloc, topology, routes, cable)?;
    let outcome = outcome_of(alloc, configuration, routes, &fate)?;
    let ports = configuration.ports();
    let mut text = Vec::new(alloc);
    push_loss_line(&mut text, topology, ports, &cable, &outcome)?;
    push_change_lines(alloc, &mut text, ports, routes, &fate)?;
    Ok(text)
}

/// The line of each loss, and that of their counts.
fn lines_of(
    alloc: Global,
    topology: &Topology,
    ports: &[SubnetPort],
    losses: &[Loss],
) -> Result<Vec<u8>, AllocError>
    ensures { IfOk result (λ text. text.items ≡ lines_of topology.now.nodes ports.now losses.now) }
{
    let mut text = Vec::new(alloc);
    for loss in losses {
        push_loss_line(&mut text, topology, ports, &loss.cable, &loss.outcome)?;
    }
    push_count_line(&mut text, losses)?;
    Ok(text)
}

/// Adds `cut PORT PORT` and what the loss of that cable does.
fn push_loss_line(
    text: &mut Vec<u8>,
    topology: &Topology,
    ports: &[SubnetPort],
    cable: &Cable,
    outcome: &Outcome,
) -> Result<(), AllocError>
    ensures { OnOk result (text.new.items ≡ text.old.items ++ loss_line topology.now.nodes ports.now cable.now outcome.now) }
{
    text.extend_from_slice(b"cut ")?;
    push_end(text, topology, cable.first)?;
    text.extend_from_slice(b" ")?;
    push_end(text, topology, cable.second)?;
    push_outcome(text, ports, outcome)?;
    text.push(b'\n')?;
    Ok(())
}

/// Adds `NODE/NUMBER`, of an end of a cable.
fn push_end(text: &mut Vec<u8>, topology: &Topology, at: PortRef) -> Result<(), AllocError>
    ensures { OnOk result (text.new.items ≡ text.old.items ++ end_text topology.now.nodes at) }
{
    push_port_name(text, name_at(topology.nodes(), at.node), at.port)
}

fn push_outcome(
    text: &mut Vec<u8>,
    ports: &[SubnetPort],
    outcome: &Outcome,
) -> Result<(), AllocError>
    ensures { OnOk result (text.new.items ≡ text.old.items ++ outcome_text ports.now outcome.now) }
{
    match outcome {
        Outcome::Keeps(difference) => {
            text.extend_from_slice(b" keeps ")?;
            push_difference(text, difference)
        }
        Outcome::Stops(stop) => {
            text.extend_from_slice(b" stops ")?;
            push_stop(text, ports, *stop)
        }
    }
}

/// Adds `COUNT entries COUNT masks COUNT switches`.
fn push_difference(text: &mut Vec<u8>, difference: &Difference) -> Result<(), AllocError>
    ensures { OnOk result (text.new.items ≡ text.old.items ++ difference_text difference.now) }
{
    push_decimal(text, difference.entries)?;
    text.extend_from_slice(b" entries ")?;
    push_decimal(text, difference.masks)?;
    text.extend_from_slice(b" masks ")?;
    push_decimal(text, difference.switches)?;
    text.extend_from_slice(b" switches")
}

/// Adds the code of what stops a fabric; behind that of a missing path the switch and the port between which there is none.
fn push_stop(text: &mut Vec<u8>, ports: &[SubnetPort], stop: Stop) -> Result<(), AllocError>
    ensures { OnOk result (text.new.items ≡ text.old.items ++ stop_text ports.now stop) }
{
    match stop {
        Stop::Apart => text.extend_from_slice(b"TF9"),
        Stop::TooFar => text.extend_from_slice(b"SW3"),
        Stop::NoLegalPath { switch, port } => {
            text.extend_from_slice(b"UR1 ")?;
            push_node(text, ports, switch)?;
            text.extend_from_slice(b" ")?;
            push_lid(text, ports, port)
        }
    }
}

/// Adds the name of the node of the end port with that LID.
fn push_node(text: &mut Vec<u8>, ports: &[SubnetPort], lid: u16) -> Result<(), AllocError>
    ensures { OnOk result (text.new.items ≡ text.old.items ++ node_text ports.now lid) }
{
    match with_lid(ports, lid) {
        Some(port) => text.extend_from_slice(port.node_name.as_slice()),
        None => Ok(()),
    }
}

/// Adds `NODE/NUMBER`, of the end port with that LID.
fn push_lid(text: &mut Vec<u8>, ports: &[SubnetPort], lid: u16) -> Result<(), AllocError>
    ensures { OnOk result (text.new.items ≡ text.old.items ++ lid_text ports.now lid) }
{
    match with_lid(ports, lid) {
        Some(port) => push_port(text, port),
        None => Ok(()),
    }
}

/// The end port with that LID.
fn with_lid(ports: &[SubnetPort], lid: u16) -> Option<&SubnetPort>
    ensures { option_copied result ≡ find (λ port. port.lid == lid) ports.now }
{
    ports.iter().find(|port| port.lid == lid)
}

/// Adds `cables COUNT keep COUNT stop COUNT`.
fn push_count_line(text: &mut Vec<u8>, losses: &[Loss]) -> Result<(), AllocError>
    ensures { OnOk result (text.new.items ≡ text.old.items ++ count_line losses.now) }
{
    text.extend_from_slice(b"cables ")?;
    push_decimal(text, losses.len())?;
    text.extend_from_slice(b" keep ")?;
    push_decimal(text, count_of_kept(losses))?;
    text.extend_from_slice(b" stop ")?;
    push_decimal(text, count_of_stopped(losses))?;
    text.push(b'\n')?;
    Ok(())
}

fn count_of_kept(losses: &[Loss]) -> usize
    ensures { result ≡ length (kept losses.now) }
{
    losses.iter().filter(|loss| keeps(&loss.outcome)).count()
}

fn count_of_stopped(losses: &[Loss]) -> usize
    ensures { result ≡ length (stopped losses.now) }
{
    losses.iter().filter(|loss| !keeps(&loss.outcome)).count()
}

fn keeps(outcome: &Outcome) -> bool
    ensures { result ≡ keeps outcome.now }
{
    match outcome {
        Outcome::Keeps(_) => true,
        Outcome::Stops(_) => false,
    }
}

/// Adds a line for each entry that changes, if the fabric comes up.
fn push_change_lines(
    alloc: Global,
    text: &mut Vec<u8>,
    ports: &[SubnetPort],
    routes: &Routes,
    fate: &Cut,
) -> Result<(), AllocError>
    ensures { OnOk result (text.new.items ≡ text.old.items ++ change_lines ports.now routes.now fate.now) }
{
    match fate {
        Cut::Keeps(others) => {
            let changes = changes(alloc, ports, routes, others)?;
            push_changes(text, ports, &changes)
        }
        Cut::Stops(_) => Ok(()),
    }
}

fn push_changes(
    text: &mut Vec<u8>,
    ports: &[SubnetPort],
    changes: &[Change],
) -> Result<(), AllocError>
    ensures { OnOk result (text.new.items ≡ text.old.items ++ flat_map (change_line ports.now) changes.now) }
{
    for change in changes {
        push_change_line(text, ports, change)?;
    }
    Ok(())
}

/// Adds `SWITCH lid LID port PORT becomes PORT`.
fn push_change_line(
    text: &mut Vec<u8>,
    ports: &[SubnetPort],
    change: &Change,
) -> Result<(), AllocError>
    ensures { OnOk result (text.new.items ≡ text.old.items ++ change_line ports.now change.now) }
{
    push_node(text, ports, change.switch)?;
    text.extend_from_slice(b" lid ")?;
    push_decimal(text, usize::from(change.lid))?;
    text.extend_from_slice(b" port ")?;
    push_hop(text, change.was)?;
    text.extend_from_slice(b" becomes ")?;
    push_hop(text, change.becomes)?;
    text.push(b'\n')?;
    Ok(())
}

/// Adds the number of a port, or `none`.
fn push_hop(text: &mut Vec<u8>, number: u8) -> Result<(), AllocError>
    ensures { OnOk result (text.new.items ≡ text.old.items ++ hop_text number) }
{
    if number == NO_PORT {
        text.extend_from_slice(b"none")
    } else {
        push_decimal(text, usize::from(number))
    }
}
