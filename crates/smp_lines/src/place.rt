//! Where an SMP goes, and what it asks for, in words.

ghost use Rattle.std.specs.Prelude.{◌≡◌, ◌++◌, flat_map, IfOk, OnOk};
ghost use Rattle.smp_lines.specs.Place.{attribute_text, hop_text, name_of, path_text, place_text, ports_of};

use attr_tables::SmpAttribute;
use mad_layout::{DrSmp, Header, Mad};
use std::alloc::{AllocError, Global};
use text_words::push_decimal;

/// Where a directed-route SMP goes, and what it asks for: `path 0,1,3 PortInfo 2`, with the path as `smpquery -D` takes it, the
/// attribute, and its modifier.
///
/// Source: IBA volume 1, 14.2.1.2.
pub fn place_text(alloc: Global, smp: &Mad) -> Result<Vec<u8>, AllocError>
    ensures { IfOk result (λ text. text.items ≡ place_text smp.now) }
{
    let header = Header::read(smp);
    let mut text = Vec::from_slice(alloc, b"path ")?;
    push_path(&mut text, ports_of(&DrSmp::read(smp)))?;
    text.push(b' ')?;
    push_attribute(&mut text, header.attribute_id)?;
    text.push(b' ')?;
    push_decimal(&mut text, header.attribute_modifier as usize)?;
    Ok(text)
}

/// The ports by which its hops leave.
fn ports_of(route: &DrSmp) -> &[u8]
    ensures { result.now ≡ ports_of route.now }
{
    let end = (usize::from(route.hop_count) + 1).min(64);
    &route.initial_path[1..end]
}

/// Adds a path.
fn push_path(text: &mut Vec<u8>, ports: &[u8]) -> Result<(), AllocError>
    ensures { OnOk result (text.new.items ≡ text.old.items ++ path_text ports.now) }
{
    text.push(b'0')?;
    push_hops(text, ports)
}

fn push_hops(text: &mut Vec<u8>, ports: &[u8]) -> Result<(), AllocError>
    ensures { OnOk result (text.new.items ≡ text.old.items ++ flat_map hop_text ports.now) }
{
    for port in ports {
        push_hop(text, *port)?;
    }
    Ok(())
}

fn push_hop(text: &mut Vec<u8>, port: u8) -> Result<(), AllocError>
    ensures { OnOk result (text.new.items ≡ text.old.items ++ hop_text port) }
{
    text.push(b',')?;
    push_decimal(text, usize::from(port))
}

/// Adds the attribute of this AttributeID.
fn push_attribute(text: &mut Vec<u8>, id: u16) -> Result<(), AllocError>
    ensures { OnOk result (text.new.items ≡ text.old.items ++ attribute_text id) }
{
    match SmpAttribute::from_code(id) {
        Some(attribute) => text.extend_from_slice(name_of(attribute).as_bytes()),
        None => push_decimal(text, usize::from(id)),
    }
}

/// The name of an attribute.
fn name_of(attribute: SmpAttribute) -> &'static str
    ensures { result.now ≡ name_of attribute }
{
    match attribute {
        SmpAttribute::NodeDescription => "NodeDescription",
        SmpAttribute::NodeInfo => "NodeInfo",
        SmpAttribute::SwitchInfo => "SwitchInfo",
        SmpAttribute::PortInfo => "PortInfo",
        SmpAttribute::PKeyTable => "P_KeyTable",
        SmpAttribute::LinearForwardingTable => "LinearForwardingTable",
        SmpAttribute::MulticastForwardingTable => "MulticastForwardingTable",
    }
}
