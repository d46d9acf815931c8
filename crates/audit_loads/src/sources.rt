//! The ports that send: those of hosts that are attached to switches.

ghost use Rattle.std.specs.Prelude.{◌≡◌, ◌<◌, ◌++◌, IfOk, OnOk};
ghost use Rattle.audit_loads.specs.Sources.{attached, entrance, entrances, host_at, host_behind, sends};
ghost use Rattle.audit_loads.specs.Talk.{may_talk};
ghost use Rattle.audit_loads.specs.Walk.{senders};

use crate::talk::Talk;
use audit_net::Net;
use audit_plan::ports_at;
use fabric_parts::PortRef;
use std::alloc::{AllocError, Global};
use std::marker::Model;

/// A switch, and the hosts' ports that are attached to it.
#[derive(Drop)]
pub(crate) struct Entrance {
    place: usize,
    ports: Vec<PortRef>,
}

impl Model for Entrance {
    ghost use Rattle.audit_loads.specs.Sources.{Entrance as EntranceState};

    ghost Value = { EntranceState };

    ghost view = { λ one. record { place = one.place; ports = one.ports.items } };
}

impl Entrance {
    fn of(place: usize, ports: Vec<PortRef>) -> Entrance
        ensures { result ≡ record { place = place; ports = ports.items } }
    {
        Entrance { place, ports }
    }

    /// The place of the switch.
    pub(crate) fn place(&self) -> usize
        ensures { result ≡ self.now.place }
    {
        self.place
    }

    /// How many of the ports send to this one.
    pub(crate) fn senders(&self, talk: &Talk, end: PortRef) -> usize
        ensures { result ≡ senders (may_talk talk.now) end self.now.ports }
    {
        senders(self.ports.as_slice(), talk, end)
    }
}

/// Whether one port sends to another.
fn sends(talk: &Talk, source: PortRef, end: PortRef) -> bool
    ensures { result ≡ sends (may_talk talk.now) source end }
{
    source != end && talk.may_talk(source, end)
}

fn senders(ports: &[PortRef], talk: &Talk, end: PortRef) -> usize
    ensures { result ≡ senders (may_talk talk.now) end ports.now }
{
    ports
        .iter()
        .filter(|source| sends(talk, **source, end))
        .count()
}

/// Adds the port at the other end of the cable, if it is a host's.
fn push_host_at(net: &Net<'_>, ports: &mut Vec<PortRef>, at: PortRef) -> Result<(), AllocError>
    ensures { OnOk result (ports.new.items ≡ ports.old.items ++ host_at net.now at) }
{
    match net.links().far_end(at) {
        Some(there) if net.plan().is_host(there.node) => {
            ports.push(there)?;
            Ok(())
        }
        _ => Ok(()),
    }
}

/// The same at the port behind this number.
fn push_host_behind(
    net: &Net<'_>,
    ports: &mut Vec<PortRef>,
    place: usize,
    before: u8,
) -> Result<(), AllocError>
    requires { before < 255 }
    ensures { OnOk result (ports.new.items ≡ ports.old.items ++ host_behind net.now place before) }
{
    let at = PortRef {
        node: place,
        port: before + 1,
    };
    push_host_at(net, ports, at)
}

pub(crate) fn attached(
    net: &Net<'_>,
    alloc: Global,
    place: usize,
) -> Result<Vec<PortRef>, AllocError>
    ensures { IfOk result (λ ports. ports.items ≡ attached net.now place) }
{
    let mut ports = Vec::new(alloc);
    for before in 0..ports_at(net.plan().nodes(), place) {
        push_host_behind(net, &mut ports, place, before)?;
    }
    Ok(ports)
}

fn entrance_at(net: &Net<'_>, alloc: Global, place: usize) -> Result<Entrance, AllocError>
    ensures { IfOk result (λ one. one ≡ entrance net.now place) }
{
    let ports = attached(net, alloc, place)?;
    Ok(Entrance::of(place, ports))
}

/// Each switch, and the hosts' ports that are attached to it.
pub(crate) fn entrances(net: &Net<'_>, alloc: Global) -> Result<Vec<Entrance>, AllocError>
    ensures { IfOk result (λ all. all.items ≡ entrances net.now) }
{
    let mut all = Vec::new(alloc);
    for place in net.switches() {
        all.push(entrance_at(net, alloc, *place)?)?;
    }
    Ok(all)
}
