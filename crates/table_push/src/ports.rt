//! PortInfo of all ports.

ghost use Rattle.std.specs.Prelude.{ℕ, ◌≡◌, ◌≤◌, ◌<◌, ◌==◌, ◌+◌, ◌%◌, ◌^◌, true, List, length, Some, Ok, IfOk};
ghost use Rattle.std.specs.Option.{ForSome};
ghost use Rattle.attr_tables.specs.PortInfo.{port_info};
ghost use Rattle.attr_tables.specs.declared.port_state.PortState.TheVariants.{NoChange};
ghost use Rattle.attr_tables.specs.declared.smp_attribute.SmpAttribute.TheVariants as attribute;
ghost use Rattle.mad_layout.specs.Layout.{Fits, put_all};
ghost use Rattle.smp_wire.specs.Get.{gives_along};
ghost use Rattle.smp_wire.specs.Good.{IsGood, ShowsLinks};
ghost use Rattle.sweep.specs.OfFabric.{IsGraphOf};
ghost use Rattle.table_push.specs.Fault.{all_enforce, all_taken};
ghost use Rattle.table_push.specs.Nodes.{on_port, with_infos};
ghost use Rattle.table_push.specs.Ports.{TakesChange, activated, armed, at_switch, at_switches_before, changed_in, changed_where, with_end_set, enforces, first_state, in_round, ports_pushed, state_asked, with_lid_and_enforcement, with_state};
ghost use Rattle.table_push.specs.Pushes.{Leaves};
ghost use Rattle.table_push.specs.Steps.{SetsUpCable, SetsUpMore, SetsUpRest, TakesAndGives, at_links};

use crate::fault::{PushFault, Taken, all_taken, fault_of};
use crate::setting::set_port_info;
use crate::tops::set_tops;
use attr_tables::{PortInfo, PortState, SmpAttribute};
use fabric_parts::{GID_PREFIX, MANAGER_LID};
use smp_wire::{Session, SmpWire};
use updn_routes::Routes;

/// What is changed of a port; what is none stays.
#[derive(Clone, Copy)]
pub struct PortChange {
    /// The LID of an end port, with which go its prefix, the subnet manager's LID, and LMC 0.
    lid: Option<u16>,
    /// Whether a port of a switch enforces partitions.
    enforcement: Option<bool>,
    /// Whether it becomes Active, because it has a cable.
    active: bool,
}

/// A port becomes Active only while the port at the other end of its cable is Armed or Active, so all ports are set up in
/// two rounds.
#[derive(Clone, Copy)]
pub(crate) enum Round {
    /// All but that a port becomes Active; one that is to become Active becomes Armed.
    Arming,
    /// That.
    Activating,
}

/// Sets up all ports: each end port has its prefix, its LID, LMC 0 and the subnet manager's LID, each port with a cable becomes
/// Active, the ports of switches that channel adapters are attached to enforce partitions and those between switches do not, and
/// LinearFDBTop of each switch is the greatest LID. A port that takes all but that it enforces partitions is no fault:
/// [`push_ports_counting`] counts these.
///
/// Over a wire that stands for the graph's fabric, whose links show, that stands there then, and all else is as it was.
pub fn push_ports<W: SmpWire>(wire: &mut W, routes: &Routes) -> Result<(), PushFault>
    ensures { ForSome (W.fabric wire.old) (λ fabric. IsGraphOf routes.now.graph fabric → IsGood fabric → ShowsLinks fabric
        → Leaves result (W.fabric wire.new) fabric (ports_pushed routes.now fabric)) }
{
    match push_ports_counting(wire, routes) {
        Ok(_) => Ok(()),
        Err(fault) => Err(fault),
    }
}

/// Does what [`push_ports`] does, and returns how many ports of switches do not enforce partitions. Each is one that a channel
/// adapter is attached to, and reports both enforcement bits of PortInfo as 0 after a Set to 1. Only the channel adapter keeps
/// partitions apart there.
///
/// Over a wire that stands for the graph's fabric, whose links show, it is none.
pub fn push_ports_counting<W: SmpWire>(wire: &mut W, routes: &Routes) -> Result<usize, PushFault>
    ensures left { ForSome (W.fabric wire.old) (λ fabric. IsGraphOf routes.now.graph fabric → IsGood fabric → ShowsLinks fabric
        → Leaves result (W.fabric wire.new) fabric (ports_pushed routes.now fabric)) }
    ensures all { ForSome (W.fabric wire.old) (λ fabric. IsGraphOf routes.now.graph fabric → IsGood fabric → ShowsLinks fabric
        → IfOk result (λ count. count ≡ 0)) }
    ensures few { IfOk result (λ count. count ≤ length routes.now.graph.ports) }
{
    let mut session = Session::new(wire);
    let count = match to_ports(&mut session, routes, Round::Arming) {
        Ok(count) => count,
        Err(fault) => return Err(fault),
    };
    match to_ports(&mut session, routes, Round::Activating) {
        Ok(_) => {}
        Err(fault) => return Err(fault),
    }
    match set_tops(&mut session, routes) {
        Ok(()) => Ok(count),
        Err(fault) => Err(fault),
    }
}

/// Does one round at all ports, and returns how many ports of switches before channel adapters do not enforce partitions.
fn to_ports<W: SmpWire>(
    session: &mut Session<'_, W>,
    routes: &Routes,
    round: Round,
) -> Result<usize, PushFault>
    ensures left { ForSome (W.fabric session.old.wire.now) (λ fabric. IsGraphOf routes.now.graph fabric → IsGood fabric → ShowsLinks fabric
        → Leaves (all_enforce result) (W.fabric session.new.wire.now) fabric (with_infos (changed_in round routes.now) fabric)) }
    ensures few { IfOk result (λ count. count ≤ length routes.now.graph.ports) }
    ensures same_wire { session.new.wire.ghost_name ≡ session.old.wire.ghost_name }
{
    match to_switches(session, routes, round) {
        Ok(()) => {}
        Err(fault) => return Err(fault),
    }
    to_cables(session, routes, round)
}

/// Does a round at port 0 of each switch, and at its ports with cables to other switches.
fn to_switches<W: SmpWire>(
    session: &mut Session<'_, W>,
    routes: &Routes,
    round: Round,
) -> Result<(), PushFault>
    ensures left { ForSome (W.fabric session.old.wire.now) (λ fabric. IsGraphOf routes.now.graph fabric → IsGood fabric → ShowsLinks fabric
        → Leaves result (W.fabric session.new.wire.now) fabric
        (with_infos (changed_where round (at_switches_before routes.now.graph (length routes.now.graph.switches)) routes.now) fabric)) }
    ensures same_wire { session.new.wire.ghost_name ≡ session.old.wire.ghost_name }
{
    let graph = routes.graph();
    graph.known_graph();
    for place in 0..graph.switches().len() {
        match to_switch(session, routes, round, place) {
            Ok(()) => {}
            Err(fault) => return Err(fault),
        }
    }
    Ok(())
}

/// Does a round at port 0 of a switch, and at its ports with cables to other switches.
fn to_switch<W: SmpWire>(
    session: &mut Session<'_, W>,
    routes: &Routes,
    round: Round,
    place: usize,
) -> Result<(), PushFault>
    requires { place < length routes.now.graph.switches }
    ensures left { SetsUpMore routes.now round (W.fabric session.old.wire.now) (W.fabric session.new.wire.now)
        (λ guid number. at_switch routes.now.graph guid number place) result }
    ensures same_wire { session.new.wire.ghost_name ≡ session.old.wire.ghost_name }
{
    let graph = routes.graph();
    graph.known_graph();
    let lids = routes.lids();
    lids.known_distinct();
    let switch = &graph.switches()[place];
    let change = PortChange {
        lid: lids.lid_of(switch.guid),
        enforcement: None,
        active: false,
    };
    let path = switch.path.as_slice();
    match set_port(session, path, 0, round, &change) {
        Ok(()) => {}
        Err(fault) => return Err(fault),
    }
    to_links(session, routes, round, place)
}

/// Does a round at the ports of a switch with cables to other switches.
fn to_links<W: SmpWire>(
    session: &mut Session<'_, W>,
    routes: &Routes,
    round: Round,
    place: usize,
) -> Result<(), PushFault>
    requires { place < length routes.now.graph.switches }
    ensures left { SetsUpMore routes.now round (W.fabric session.old.wire.now) (W.fabric session.new.wire.now) (at_links routes.now place) result }
    ensures same_wire { session.new.wire.ghost_name ≡ session.old.wire.ghost_name }
{
    let graph = routes.graph();
    graph.known_graph();
    let path = graph.switches()[place].path.as_slice();
    let links = graph.rows()[place].as_slice();
    let change = PortChange {
        lid: None,
        enforcement: Some(false),
        active: true,
    };
    for index in 0..links.len() {
        match set_port(session, path, links[index].port, round, &change) {
            Ok(()) => {}
            Err(fault) => return Err(fault),
        }
    }
    Ok(())
}

/// Does a round at both ends of each cable between a switch and a channel adapter, and returns how many of these ports of
/// switches do not enforce partitions.
fn to_cables<W: SmpWire>(
    session: &mut Session<'_, W>,
    routes: &Routes,
    round: Round,
) -> Result<usize, PushFault>
    ensures left { SetsUpRest routes.now round (W.fabric session.old.wire.now) (W.fabric session.new.wire.now) (all_enforce result) }
    ensures few { IfOk result (λ count. count ≤ length routes.now.graph.ports) }
    ensures same_wire { session.new.wire.ghost_name ≡ session.old.wire.ghost_name }
{
    let graph = routes.graph();
    graph.known_graph();
    let mut count = 0;
    for place in 0..graph.ports().len() {
        match to_cable(session, routes, round, place) {
            Ok(taken) => count += taken.count(),
            Err(fault) => return Err(fault),
        }
    }
    Ok(count)
}

/// Does a round at a port of a channel adapter, and at the port of a switch that it is attached to. Returns what that port of
/// the switch takes; the port of the channel adapter has to take all.
fn to_cable<W: SmpWire>(
    session: &mut Session<'_, W>,
    routes: &Routes,
    round: Round,
    place: usize,
) -> Result<Taken, PushFault>
    requires { place < length routes.now.graph.ports }
    ensures left { SetsUpCable routes.now round (W.fabric session.old.wire.now) (W.fabric session.new.wire.now) place (all_taken result) }
    ensures same_wire { session.new.wire.ghost_name ≡ session.old.wire.ghost_name }
{
    let graph = routes.graph();
    graph.known_graph();
    let lids = routes.lids();
    lids.known_distinct();
    let port = &graph.ports()[place];
    let switch = &graph.switches()[port.at.node];
    let before = PortChange {
        lid: None,
        enforcement: Some(true),
        active: true,
    };
    let taken = match round_at(
        session,
        switch.path.as_slice(),
        port.at.port,
        round,
        &before,
    ) {
        Ok(taken) => taken,
        Err(fault) => return Err(fault),
    };
    let own = PortChange {
        lid: lids.lid_of(port.port_guid),
        enforcement: None,
        active: true,
    };
    let path = switch.path.then(port.at.port);
    match set_port(session, path.as_slice(), 0, round, &own) {
        Ok(()) => Ok(taken),
        Err(fault) => Err(fault),
    }
}

/// Does a round at a port of the node at the end of a path. The port has to take all.
fn set_port<W: SmpWire>(
    session: &mut Session<'_, W>,
    path: &[u8],
    asked: u8,
    round: Round,
    change: &PortChange,
) -> Result<(), PushFault>
    requires { length path.now ≤ 63 }
    ensures left { ForSome (W.fabric session.old.wire.now) (λ fabric. (guid number : ℕ) → IsGood fabric
        → TakesChange fabric path.now asked guid number change.now
        → Leaves result (W.fabric session.new.wire.now) fabric (with_infos (on_port guid number (in_round round change.now)) fabric)) }
    ensures same_wire { session.new.wire.ghost_name ≡ session.old.wire.ghost_name }
{
    let taken = round_at(session, path, asked, round, change);
    all_taken(taken)
}

/// Does a round at a port of the node at the end of a path, and returns what the port takes. A switch is asked for its port of
/// that number; a port of a channel adapter is asked for port 0, itself.
fn round_at<W: SmpWire>(
    session: &mut Session<'_, W>,
    path: &[u8],
    asked: u8,
    round: Round,
    change: &PortChange,
) -> Result<Taken, PushFault>
    requires { length path.now ≤ 63 }
    ensures left { ForSome (W.fabric session.old.wire.now) (λ fabric. (guid number : ℕ) → IsGood fabric
        → TakesChange fabric path.now asked guid number change.now
        → Leaves (all_taken result) (W.fabric session.new.wire.now) fabric (with_infos (on_port guid number (in_round round change.now)) fabric)) }
    ensures same_wire { session.new.wire.ghost_name ≡ session.old.wire.ghost_name }
{
    match round {
        Round::Arming => arm(session, path, asked, change),
        Round::Activating => match activate(session, path, asked, change) {
            Ok(()) => Ok(Taken::AsSet),
            Err(fault) => Err(fault),
        },
    }
}

/// Changes PortInfo of a port in all but that it becomes Active; one that is to become Active becomes Armed. A port that holds
/// all of that is not set. Returns what the port takes.
fn arm<W: SmpWire>(
    session: &mut Session<'_, W>,
    path: &[u8],
    asked: u8,
    change: &PortChange,
) -> Result<Taken, PushFault>
    requires { length path.now ≤ 63 }
    ensures left { ForSome (W.fabric session.old.wire.now) (λ fabric. (guid number : ℕ) → IsGood fabric
        → TakesChange fabric path.now asked guid number change.now
        → Leaves (all_taken result) (W.fabric session.new.wire.now) fabric (with_infos (on_port guid number (armed change.now)) fabric)) }
    ensures same_wire { session.new.wire.ghost_name ≡ session.old.wire.ghost_name }
{
    let bytes = match held_info(session, path, asked) {
        Ok(bytes) => bytes,
        Err(fault) => return Err(fault),
    };
    let held = PortInfo::read(&bytes);
    let info = change.with_lid_and_enforcement(&held);
    let state = first_state(change.active, held.port_state);
    if is_held(state, &info, &bytes) {
        return Ok(Taken::AsSet);
    }
    let wanted = in_state(state, &info);
    set_info(session, path, asked, &bytes, &wanted)
}

/// Whether a port that holds these bytes has nothing to be set: no state is asked for, and they have all of `info`.
fn is_held(state: PortState, info: &PortInfo, held: &[u8; 64]) -> bool
    requires { Fits (port_info info.now) }
    ensures state { result ≡ true → state ≡ NoChange }
    ensures bytes { result ≡ true → put_all held.now (port_info info.now) ≡ held.now }
{
    match state {
        PortState::NoChange => {
            let mut after = *held;
            info.put_over(&mut after);
            after == *held
        }
        _ => false,
    }
}

/// Makes a port Active that is to be, unless it is. One that has come back to Initialize becomes Armed before.
fn activate<W: SmpWire>(
    session: &mut Session<'_, W>,
    path: &[u8],
    asked: u8,
    change: &PortChange,
) -> Result<(), PushFault>
    requires { length path.now ≤ 63 }
    ensures left { ForSome (W.fabric session.old.wire.now) (λ fabric. (guid number : ℕ) → IsGood fabric
        → TakesChange fabric path.now asked guid number change.now
        → Leaves result (W.fabric session.new.wire.now) fabric (with_infos (on_port guid number (activated change.now)) fabric)) }
    ensures same_wire { session.new.wire.ghost_name ≡ session.old.wire.ghost_name }
{
    if !change.active {
        return Ok(());
    }
    let bytes = match held_info(session, path, asked) {
        Ok(bytes) => bytes,
        Err(fault) => return Err(fault),
    };
    let held = PortInfo::read(&bytes);
    let state = state_asked(held.port_state);
    match state {
        PortState::NoChange => return Ok(()),
        _ => {}
    }
    let first = in_state(state, &held);
    match set_whole_info(session, path, asked, &bytes, &first) {
        Ok(()) => {}
        Err(fault) => return Err(fault),
    }
    match state {
        PortState::Armed => {
            let last = in_state(PortState::Active, &held);
            set_whole_info(session, path, asked, &bytes, &last)
        }
        _ => Ok(()),
    }
}

/// PortInfo of a port, as it is now, with what stands outside our fields.
fn held_info<W: SmpWire>(
    session: &mut Session<'_, W>,
    path: &[u8],
    asked: u8,
) -> Result<[u8; 64], PushFault>
    requires { length path.now ≤ 63 }
    ensures reported { ForSome (W.fabric session.old.wire.now) (λ fabric. (given : List ℕ) → IsGood fabric
        → gives_along fabric path.now attribute.PortInfo asked ≡ Some (Ok given) → result ≡ Ok given) }
    ensures left { ForSome (W.fabric session.old.wire.now) (λ fabric. IsGood fabric → W.fabric session.new.wire.now ≡ Some fabric) }
    ensures same_wire { session.new.wire.ghost_name ≡ session.old.wire.ghost_name }
    ensures counted { session.new.transaction_id ≡ (session.old.transaction_id + 1) % 2 ^ 64 }
{
    match session.get(SmpAttribute::PortInfo, asked as u32, path) {
        Ok(bytes) => Ok(bytes),
        Err(fault) => Err(fault_of(fault)),
    }
}

/// Sets PortInfo of a port to this, and the port has to take all.
fn set_whole_info<W: SmpWire>(
    session: &mut Session<'_, W>,
    path: &[u8],
    asked: u8,
    held: &[u8; 64],
    info: &PortInfo,
) -> Result<(), PushFault>
    requires path { length path.now ≤ 63 }
    requires fits { Fits (port_info info.now) }
    ensures left { ForSome (W.fabric session.old.wire.now) (λ fabric. TakesAndGives fabric (W.fabric session.new.wire.now) path.now attribute.PortInfo asked
        (put_all held.now (port_info info.now)) result) }
    ensures same_wire { session.new.wire.ghost_name ≡ session.old.wire.ghost_name }
{
    let taken = set_info(session, path, asked, held, info);
    all_taken(taken)
}

/// Sets PortInfo of a port to this, and returns what the port takes. What it holds outside our fields, as CapabilityMask2, is
/// set to what it was.
fn set_info<W: SmpWire>(
    session: &mut Session<'_, W>,
    path: &[u8],
    asked: u8,
    held: &[u8; 64],
    info: &PortInfo,
) -> Result<Taken, PushFault>
    requires path { length path.now ≤ 63 }
    requires fits { Fits (port_info info.now) }
    ensures left { ForSome (W.fabric session.old.wire.now) (λ fabric. TakesAndGives fabric (W.fabric session.new.wire.now) path.now attribute.PortInfo asked
        (put_all held.now (port_info info.now)) (all_taken result)) }
    ensures same_wire { session.new.wire.ghost_name ≡ session.old.wire.ghost_name }
{
    let mut wanted = *held;
    info.put_over(&mut wanted);
    set_port_info(session, asked as u32, path, &wanted)
}

/// PortInfo with that state asked for.
fn in_state(state: PortState, info: &PortInfo) -> PortInfo
    requires { Fits (port_info info.now) }
    ensures reported { result ≡ with_state state info.now }
    ensures fits { Fits (port_info result) }
{
    PortInfo {
        port_state: state.code(),
        ..*info
    }
}

impl PortChange {
    /// What a port is set to, in all but its state.
    fn with_lid_and_enforcement(&self, info: &PortInfo) -> PortInfo
        requires { Fits (port_info info.now) }
        ensures reported { result ≡ with_lid_and_enforcement self.now info.now }
        ensures fits { Fits (port_info result) }
    {
        enforces(self.enforcement, &with_end_set(self.lid, info))
    }
}

/// PortInfo of an end port of that LID, and of no other: an LMC that another subnet manager left would give it the LIDs behind
/// its own too.
fn with_end_set(lid: Option<u16>, info: &PortInfo) -> PortInfo
    requires { Fits (port_info info.now) }
    ensures reported { result ≡ with_end_set lid info.now }
    ensures fits { Fits (port_info result) }
{
    match lid {
        Some(lid) => PortInfo {
            gid_prefix: GID_PREFIX,
            lid,
            lmc: 0,
            master_sm_lid: MANAGER_LID,
            ..*info
        },
        None => *info,
    }
}

/// Whether a port of a switch enforces partitions, both ways.
fn enforces(enforcement: Option<bool>, info: &PortInfo) -> PortInfo
    requires { Fits (port_info info.now) }
    ensures reported { result ≡ enforces enforcement info.now }
    ensures fits { Fits (port_info result) }
{
    match enforcement {
        Some(on) => PortInfo {
            partition_enforcement_inbound: on,
            partition_enforcement_outbound: on,
            ..*info
        },
        None => *info,
    }
}

/// The state that a port of this state is asked for in the first round, if it is to become Active, or is to keep its state.
fn first_state(active: bool, state: u8) -> PortState
    ensures { result ≡ first_state active state }
{
    if active && state == PortState::Initialize.code() {
        PortState::Armed
    } else {
        PortState::NoChange
    }
}

/// The state that a port of this state is asked for first in the second round, in which it becomes Active.
fn state_asked(state: u8) -> PortState
    ensures { result ≡ state_asked state }
{
    if state == PortState::Initialize.code() {
        PortState::Armed
    } else if state == PortState::Armed.code() {
        PortState::Active
    } else {
        PortState::NoChange
    }
}
