//! Where packets go by port masks.

ghost use Rattle.std.specs.Prelude.{◌≡◌, ◌<◌, ◌==◌, ◌&&◌, ◌++◌, not, IfOk, OnOk};
ghost use Rattle.std.specs.List.{list_any};
ghost use Rattle.audit_multicast.specs.Ways.{comes_to, is_set, leaves, outs, turns};
ghost use Rattle.audit_multicast.specs.Scanning.{out_behind};

use audit_loops::is_channel;
use audit_net::Net;
use audit_plan::ports_at;
use fabric_parts::PortRef;
use mft_file::Ports;
use std::alloc::{AllocError, Global};

fn has_port(mask: &[u8], number: u8) -> bool
    ensures { result ≡ list_any (λ other. other == number) mask.now }
{
    mask.iter().any(|other| *other == number)
}

/// Whether the port is in the mask of its switch.
pub(crate) fn is_set(masks: &[Ports], at: PortRef) -> bool
    ensures { result ≡ is_set masks.now at }
{
    match masks.get(at.node) {
        Some(mask) => has_port(mask.as_slice(), at.port),
        None => false,
    }
}

fn leaves(net: &Net<'_>, masks: &[Ports], at: PortRef) -> bool
    ensures { result ≡ leaves net.now masks.now at }
{
    is_set(masks, at) && is_channel(net, at)
}

fn turns(here: PortRef, out: PortRef) -> bool
    ensures { result ≡ turns here out }
{
    here.node == out.node && here.port != out.port
}

/// Whether what leaves by the first port comes to the switch of the second, by another port.
pub(crate) fn comes_to(net: &Net<'_>, first: PortRef, second: PortRef) -> bool
    ensures { result ≡ comes_to net.now first second }
{
    match net.links().far_end(first) {
        Some(there) => turns(there, second),
        None => false,
    }
}

/// Adds the port behind this number, if what comes in by `here` leaves by it.
fn push_out(
    net: &Net<'_>,
    masks: &[Ports],
    here: PortRef,
    ports: &mut Vec<PortRef>,
    before: u8,
) -> Result<(), AllocError>
    requires { before < 255 }
    ensures { OnOk result (ports.new.items ≡ ports.old.items ++ out_behind net.now masks.now here before) }
{
    let out = PortRef {
        node: here.node,
        port: before + 1,
    };
    if here.port != out.port && leaves(net, masks, out) {
        ports.push(out)?;
    }
    Ok(())
}

/// Adds the ports by which what comes in by `here` leaves for another switch.
pub(crate) fn push_outs(
    net: &Net<'_>,
    masks: &[Ports],
    here: PortRef,
    ports: &mut Vec<PortRef>,
) -> Result<(), AllocError>
    ensures { OnOk result (ports.new.items ≡ ports.old.items ++ outs net.now masks.now here) }
{
    for number in 0..ports_at(net.plan().nodes(), here.node) {
        push_out(net, masks, here, ports, number)?;
    }
    Ok(())
}
