//! The lines of a report.

ghost use Rattle.std.specs.Prelude.{◌≡◌, ◌≤◌, ◌++◌, [], ◌∷◌, length, map, OnOk, IfOk};
ghost use Rattle.subnet_fabric.specs.Sends.{event_of};
ghost use Rattle.data_packet.specs.declared.payload.TheConstants.{PAYLOAD_BYTES};
ghost use Rattle.subnet_model.specs.Delivery.{port_with_guid};
ghost use Rattle.subnet_core.specs.EventLines.{name_text, trimmed, payload_text, packet_text, outcome_text, line_text, report_text};

use crate::lookup::{PortIndex, places_by_guid};
use data_packet::{PAYLOAD_BYTES, Packet};
use partition_reports::push_port;
use std::alloc::{AllocError, Global};
use subnet_fabric::Event;
use subnet_model::SubnetPort;
use text_words::{digits_of, push_decimal, push_hex};

/// The lines of these events, one each.
pub(crate) fn report_text(
    alloc: Global,
    ports: &[SubnetPort],
    events: &[Event],
) -> Result<Vec<u8>, AllocError>
    ensures { IfOk result (λ text. text.items ≡ report_text ports.now (map event_of events.now)) }
{
    let places = places_by_guid(alloc, ports)?;
    let ports = PortIndex::new(ports, &places);
    let mut text = Vec::new(alloc);
    for event in events {
        push_line(&mut text, &ports, event)?;
    }
    Ok(text)
}

/// A line of a report has fewer bytes.
pub(crate) const LINE_BYTES: usize = 640;

/// Adds the line of an event.
pub(crate) fn push_line(
    text: &mut Vec<u8>,
    ports: &PortIndex<'_>,
    event: &Event,
) -> Result<(), AllocError>
    ensures { OnOk result (text.new.items ≡ text.old.items ++ line_text ports.now (event_of event.now)) }
{
    push_name(text, ports, event.port_guid())?;
    push_outcome(text, event)?;
    text.push(b'\n')?;
    Ok(())
}

fn push_name(text: &mut Vec<u8>, ports: &PortIndex<'_>, guid: u64) -> Result<(), AllocError>
    ensures { OnOk result (text.new.items ≡ text.old.items ++ name_text (port_with_guid ports.now guid)) }
{
    match ports.port_with_guid(guid) {
        Some(port) => push_port(text, port),
        None => Ok(()),
    }
}

fn push_outcome(text: &mut Vec<u8>, event: &Event) -> Result<(), AllocError>
    ensures { OnOk result (text.new.items ≡ text.old.items ++ outcome_text (event_of event.now).what) }
{
    match event {
        Event::Received(delivery) => push_packet(text, delivery.packet()),
        Event::Refused { refusal, .. } => {
            text.extend_from_slice(b" refused ")?;
            text.extend_from_slice(refusal.code().as_bytes())
        }
    }
}

fn push_packet(text: &mut Vec<u8>, packet: &Packet) -> Result<(), AllocError>
    ensures { OnOk result (text.new.items ≡ text.old.items ++ packet_text packet.now) }
{
    text.extend_from_slice(b" recv ")?;
    push_hex(text, &packet.slid.to_be_bytes())?;
    text.extend_from_slice(b" ")?;
    push_hex(text, &packet.dlid.to_be_bytes())?;
    text.extend_from_slice(b" ")?;
    push_hex(text, &packet.p_key.bits().to_be_bytes())?;
    text.extend_from_slice(b" ")?;
    push_hex(text, &packet.destination_qp.number().to_be_bytes()[1..])?;
    text.extend_from_slice(b" ")?;
    push_payload(text, packet.payload.as_slice())
}

fn push_payload(text: &mut Vec<u8>, bytes: &[u8]) -> Result<(), AllocError>
    requires { length bytes.now ≤ PAYLOAD_BYTES }
    ensures { OnOk result (text.new.items ≡ text.old.items ++ payload_text bytes.now) }
{
    let mut digits = [0; 2 * PAYLOAD_BYTES];
    push_decimal(text, bytes.len())?;
    text.extend_from_slice(b":")?;
    text.extend_from_slice(digits_of(trimmed(bytes), &mut digits))
}

/// The bytes without the zero bytes at their end.
fn trimmed(bytes: &[u8]) -> &[u8]
    ensures value { result.now ≡ trimmed bytes.now }
    ensures short { length result.now ≤ length bytes.now }
{
    let mut end = bytes.len();
    while end > 0 && bytes[end - 1] == 0 {
        end -= 1;
    }
    &bytes[..end]
}
