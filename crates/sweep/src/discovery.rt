//! How a fabric is found, node by node.

ghost use Rattle.std.specs.Prelude.{◌≡◌, ◌<◌, ◌==◌, true, false, position, Some, None, IfOk};
ghost use Rattle.std.specs.Option.{ForSome};
ghost use Rattle.fabric_parts.specs.Cable.{port};
ghost use Rattle.fabric_parts.specs.declared.cable.PortRef.{PortRef};
ghost use Rattle.smp_wire.specs.FabricState.{FabricState};
ghost use Rattle.smp_wire.specs.Good.{IsGood};
ghost use Rattle.sweep.specs.Joined.{AllJoined};
ghost use Rattle.sweep.specs.Sweeps.{Adds, Finds, IsSweepable, Noted};
ghost use Rattle.sweep.specs.declared.graph.GraphLink.{GraphLink};
ghost use Rattle.fabric_parts.specs.declared.limits.TheConstants.{SWITCHES};
ghost use Rattle.sweep.specs.declared.path.TheConstants.{PATH_HOPS};
ghost use Rattle.sweep.specs.Steps.{AllAreAsked, LinkIsTurned, PortIsAdded, PortIsAsked, SwitchIsAdded, SwitchIsAsked, SwitchIsMet, SwitchIsPlaced};
ghost use Rattle.sweep.specs.Start.{Starts};
ghost use Rattle.sweep.specs.declared.fault.SweepFault.TheVariants.{NoMemory};

use crate::asking::{has_link, look, name_of};
use crate::fault::SweepFault;
use crate::graph::{Graph, GraphLink, GraphPort, GraphRow, GraphSwitch};
use crate::path::{PATH_HOPS, Path};
use crate::seen::Seen;
use crate::survey::Survey;
use fabric_parts::{NodeType, PortRef, SWITCHES};
use smp_wire::{Session, SmpWire};
use std::alloc::Global;

/// Where a sweep begins.
#[derive(Drop)]
pub(crate) struct Origin {
    /// The GUID of the SM port.
    pub manager: u64,
    /// The switch that its cable leads to.
    pub switch: GraphSwitch,
}

/// A switch that is asked port by port.
#[derive(Drop)]
struct Asked {
    /// Its place among those that were found.
    place: usize,
    /// How many ports it has.
    num_ports: u8,
    /// The path to it.
    path: Path,
}

/// What is at the far end of a link.
#[derive(Drop)]
struct Behind {
    /// What was seen of its node.
    seen: Seen,
    /// The path to it.
    path: Path,
}

/// The SM port, learned by an SMP of no hop, and the switch that its cable leads to.
///
/// `WrongReply` if the first is no port of a channel adapter, or the second no switch.
pub(crate) fn start<W: SmpWire>(session: &mut Session<'_, W>) -> Result<Origin, SweepFault>
    ensures reported { ForSome (W.fabric session.old.wire.now) (λ fabric. IsGood fabric → Starts fabric result) }
    ensures left { ForSome (W.fabric session.old.wire.now) (λ fabric. IsGood fabric → W.fabric session.new.wire.now ≡ Some fabric) }
    ensures same_wire { session.new.wire.ghost_name ≡ session.old.wire.ghost_name }
{
    let here = match look(session, &Path::new()) {
        Ok(seen) => seen,
        Err(fault) => return Err(fault),
    };
    if here.node_type.is_switch() {
        return Err(SweepFault::WrongReply);
    }
    let path = Path::new().then(here.local_port_num);
    let there = match look(session, &path) {
        Ok(seen) => seen,
        Err(fault) => return Err(fault),
    };
    if !there.node_type.is_switch() {
        return Err(SweepFault::WrongReply);
    }
    let name = match name_of(session, &path) {
        Ok(name) => name,
        Err(fault) => return Err(fault),
    };
    Ok(Origin {
        manager: here.port_guid,
        switch: GraphSwitch {
            guid: there.node_guid,
            num_ports: there.num_ports,
            name,
            path,
        },
    })
}

/// Finds a fabric over a wire: learns the SM port, leaves by that port, and goes from switch to
/// switch in the order of their discovery, and on each from port to port.
///
/// It returns over every wire, and what it gives is a graph whose switches are joined. `WrongReply` if replies
/// are none of such a graph.
pub fn sweep<W: SmpWire>(alloc: Global, wire: &mut W) -> Result<Graph, SweepFault>
    ensures joined { IfOk result (λ graph. AllJoined graph.rows) }
    ensures found { ForSome (W.fabric wire.old) (λ fabric. IsSweepable fabric → Finds fabric result) }
    ensures left { ForSome (W.fabric wire.old) (λ fabric. IsGood fabric → W.fabric wire.new ≡ Some fabric) }
{
    let mut session = Session::new(wire);
    let origin = match start(&mut session) {
        Ok(origin) => origin,
        Err(fault) => return Err(fault),
    };
    let mut survey = Survey::new(alloc);
    match survey.add_switch(origin.switch) {
        Ok(_) => {}
        Err(fault) => return Err(fault),
    }
    match visit_all(alloc, &mut session, &mut survey) {
        Ok(()) => {}
        Err(fault) => return Err(fault),
    }
    let graph = match survey.into_graph(alloc, origin.manager) {
        Ok(graph) => graph,
        Err(fault) => return Err(fault),
    };
    if !graph.is_joined() {
        return Err(SweepFault::WrongReply);
    }
    Ok(graph)
}

/// Visits the switches one after the other, those too that are found on the way.
fn visit_all<W: SmpWire>(
    alloc: Global,
    session: &mut Session<'_, W>,
    survey: &mut Survey,
) -> Result<(), SweepFault>
    ensures went { ForSome (W.fabric session.old.wire.now) (λ fabric. AllAreAsked fabric survey.old survey.new result) }
    ensures left { ForSome (W.fabric session.old.wire.now) (λ fabric. IsGood fabric → W.fabric session.new.wire.now ≡ Some fabric) }
    ensures same_wire { session.new.wire.ghost_name ≡ session.old.wire.ghost_name }
{
    for place in 0..SWITCHES {
        let Some((num_ports, path)) = survey.way_to(place) else {
            return Ok(());
        };
        let switch = Asked {
            place,
            num_ports,
            path,
        };
        match visit_switch(alloc, session, survey, &switch) {
            Ok(()) => {}
            Err(fault) => return Err(fault),
        }
    }
    Ok(())
}

/// Asks a switch port by port, and notes its links.
fn visit_switch<W: SmpWire>(
    alloc: Global,
    session: &mut Session<'_, W>,
    survey: &mut Survey,
    switch: &Asked,
) -> Result<(), SweepFault>
    ensures went { ForSome (W.fabric session.old.wire.now)
        (λ fabric. SwitchIsAsked fabric switch.now.place switch.now.num_ports switch.now.path survey.old survey.new result) }
    ensures left { ForSome (W.fabric session.old.wire.now) (λ fabric. IsGood fabric → W.fabric session.new.wire.now ≡ Some fabric) }
    ensures same_wire { session.new.wire.ghost_name ≡ session.old.wire.ghost_name }
{
    let mut row = GraphRow::new(alloc);
    for before in 0..switch.num_ports {
        let here = PortRef {
            node: switch.place,
            port: before + 1,
        };
        match visit_port(session, survey, &mut row, here, &switch.path) {
            Ok(()) => {}
            Err(fault) => return Err(fault),
        }
    }
    match survey.add_row(row) {
        Ok(()) => Ok(()),
        Err(_) => Err(SweepFault::NoMemory),
    }
}

/// Asks one port, and notes what is behind it.
fn visit_port<W: SmpWire>(
    session: &mut Session<'_, W>,
    survey: &mut Survey,
    row: &mut GraphRow,
    here: PortRef,
    path: &Path,
) -> Result<(), SweepFault>
    ensures went { ForSome (W.fabric session.old.wire.now) (λ fabric. PortIsAsked fabric here path.now survey.old survey.new row.old row.new result) }
    ensures left { ForSome (W.fabric session.old.wire.now) (λ fabric. IsGood fabric → W.fabric session.new.wire.now ≡ Some fabric) }
    ensures same_wire { session.new.wire.ghost_name ≡ session.old.wire.ghost_name }
{
    match has_link(session, path, here.port) {
        Ok(true) => {}
        Ok(false) => return Ok(()),
        Err(fault) => return Err(fault),
    }
    if path.len() == PATH_HOPS {
        return turn_round(survey, row, here);
    }
    let path = path.then(here.port);
    let seen = match look(session, &path) {
        Ok(seen) => seen,
        Err(fault) => return Err(fault),
    };
    let behind = Behind { seen, path };
    match behind.seen.node_type {
        NodeType::Switch => meet_switch(session, survey, row, here, &behind),
        NodeType::ChannelAdapter => meet_port(session, survey, here, &behind),
    }
}

/// Notes a link that no SMP can follow, if it was seen from its other end.
fn turn_round(survey: &Survey, row: &mut GraphRow, here: PortRef) -> Result<(), SweepFault>
    ensures went { (fabric : FabricState) → LinkIsTurned fabric here survey.now row.old row.new result }
{
    match survey.seen_from(here) {
        Some(to) => note(row, here, to),
        None => Err(SweepFault::TooManyHops),
    }
}

/// Notes a link.
fn note(row: &mut GraphRow, here: PortRef, to: PortRef) -> Result<(), SweepFault>
    ensures { Noted row.old row.new here to result }
{
    match row.push(GraphLink {
        port: here.port,
        to,
    }) {
        Ok(()) => Ok(()),
        Err(_) => Err(SweepFault::NoMemory),
    }
}

/// Notes the link to a switch, and the switch too if it is new.
fn meet_switch<W: SmpWire>(
    session: &mut Session<'_, W>,
    survey: &mut Survey,
    row: &mut GraphRow,
    here: PortRef,
    behind: &Behind,
) -> Result<(), SweepFault>
    ensures went { ForSome (W.fabric session.old.wire.now)
        (λ fabric. SwitchIsMet fabric here behind.now.path behind.now.seen survey.old survey.new row.old row.new result) }
    ensures left { ForSome (W.fabric session.old.wire.now) (λ fabric. IsGood fabric → W.fabric session.new.wire.now ≡ Some fabric) }
    ensures same_wire { session.new.wire.ghost_name ≡ session.old.wire.ghost_name }
{
    let node = match place_behind(session, survey, behind) {
        Ok(place) => place,
        Err(fault) => return Err(fault),
    };
    if survey.count_at(node) != behind.seen.num_ports {
        return Err(SweepFault::WrongReply);
    }
    let to = PortRef {
        node,
        port: behind.seen.local_port_num,
    };
    note(row, here, to)
}

/// The place of the switch that was seen at the end of a path; it is added if it is new.
fn place_behind<W: SmpWire>(
    session: &mut Session<'_, W>,
    survey: &mut Survey,
    behind: &Behind,
) -> Result<usize, SweepFault>
    ensures went { ForSome (W.fabric session.old.wire.now)
        (λ fabric. SwitchIsPlaced fabric behind.now.path behind.now.seen survey.old survey.new result) }
    ensures left { ForSome (W.fabric session.old.wire.now) (λ fabric. IsGood fabric → W.fabric session.new.wire.now ≡ Some fabric) }
    ensures same_wire { session.new.wire.ghost_name ≡ session.old.wire.ghost_name }
{
    match survey.place_of(behind.seen.node_guid) {
        Some(place) => Ok(place),
        None => find_switch(session, survey, behind),
    }
}

/// Adds a switch that is new, and gives its place.
fn find_switch<W: SmpWire>(
    session: &mut Session<'_, W>,
    survey: &mut Survey,
    behind: &Behind,
) -> Result<usize, SweepFault>
    requires new { position (λ switch. switch.guid == behind.now.seen.node_guid) survey.old.switches ≡ None }
    ensures added { ForSome (W.fabric session.old.wire.now)
        (λ fabric. SwitchIsAdded fabric behind.now.path behind.now.seen survey.old survey.new result) }
    ensures left { ForSome (W.fabric session.old.wire.now) (λ fabric. IsGood fabric → W.fabric session.new.wire.now ≡ Some fabric) }
    ensures same_wire { session.new.wire.ghost_name ≡ session.old.wire.ghost_name }
{
    let name = match name_of(session, &behind.path) {
        Ok(name) => name,
        Err(fault) => return Err(fault),
    };
    survey.add_switch(GraphSwitch {
        guid: behind.seen.node_guid,
        num_ports: behind.seen.num_ports,
        name,
        path: behind.path.copied(),
    })
}

/// Adds a port of a channel adapter.
fn meet_port<W: SmpWire>(
    session: &mut Session<'_, W>,
    survey: &mut Survey,
    here: PortRef,
    behind: &Behind,
) -> Result<(), SweepFault>
    ensures added { ForSome (W.fabric session.old.wire.now)
        (λ fabric. PortIsAdded fabric here behind.now.path behind.now.seen survey.old survey.new result) }
    ensures left { ForSome (W.fabric session.old.wire.now) (λ fabric. IsGood fabric → W.fabric session.new.wire.now ≡ Some fabric) }
    ensures same_wire { session.new.wire.ghost_name ≡ session.old.wire.ghost_name }
{
    let seen = behind.seen;
    let name = match name_of(session, &behind.path) {
        Ok(name) => name,
        Err(fault) => return Err(fault),
    };
    survey.add_port(GraphPort {
        node_guid: seen.node_guid,
        port_guid: seen.port_guid,
        number: seen.local_port_num,
        num_ports: seen.num_ports,
        name,
        at: here,
    })
}
