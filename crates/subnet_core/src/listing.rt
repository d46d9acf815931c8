//! What is listed of a subnet, line by line.

ghost use Rattle.std.specs.Prelude.{◌≡◌, ◌++◌, [], ◌∷◌, OnOk, IfOk};
ghost use Rattle.std.specs.List.{flat_map, enumerate_from};
ghost use Rattle.subnet_core.specs.Listing.{listing_text, member_text, partition_text, port_line};

use partition_file::Heading;
use partition_reports::{push_heading_line, push_member_line, push_port};
use std::alloc::{AllocError, Global};
use subnet_model::{Configuration, SubnetPort};
use text_words::{push_guid, push_hex};

/// The lines of the ports and partitions of a subnet.
pub(crate) fn listing_text(
    alloc: Global,
    configuration: &Configuration,
) -> Result<Vec<u8>, AllocError>
    ensures { IfOk result (λ text. text.items ≡ listing_text configuration.now) }
{
    let mut text = Vec::new(alloc);
    push_ports(&mut text, configuration.ports())?;
    push_partitions(&mut text, configuration.partitions(), configuration.ports())?;
    Ok(text)
}

fn push_ports(text: &mut Vec<u8>, ports: &[SubnetPort]) -> Result<(), AllocError>
    ensures { OnOk result (text.new.items ≡ text.old.items ++ flat_map port_line ports.now) }
{
    for port in ports {
        push_port_line(text, port)?;
    }
    Ok(())
}

fn push_port_line(text: &mut Vec<u8>, port: &SubnetPort) -> Result<(), AllocError>
    ensures { OnOk result (text.new.items ≡ text.old.items ++ port_line port.now) }
{
    text.extend_from_slice(b"port ")?;
    push_hex(text, &port.lid.to_be_bytes())?;
    text.extend_from_slice(b" ")?;
    push_guid(text, port.guid)?;
    text.extend_from_slice(b" ")?;
    push_port(text, port)?;
    text.push(b'\n')?;
    Ok(())
}

fn push_partitions(
    text: &mut Vec<u8>,
    headings: &[Heading],
    ports: &[SubnetPort],
) -> Result<(), AllocError>
    ensures { OnOk result (text.new.items
        ≡ text.old.items ++ flat_map (partition_text ports.now) (enumerate_from 0 headings.now)) }
{
    for (number, heading) in headings.iter().enumerate() {
        push_partition(text, number, heading, ports)?;
    }
    Ok(())
}

fn push_partition(
    text: &mut Vec<u8>,
    number: usize,
    heading: &Heading,
    ports: &[SubnetPort],
) -> Result<(), AllocError>
    ensures { OnOk result (text.new.items
        ≡ text.old.items ++ partition_text ports.now (number, heading.now)) }
{
    push_heading_line(text, number, heading)?;
    push_members(text, heading.base, ports)
}

fn push_members(text: &mut Vec<u8>, base: u16, ports: &[SubnetPort]) -> Result<(), AllocError>
    ensures { OnOk result (text.new.items ≡ text.old.items ++ flat_map (member_text base) ports.now) }
{
    for port in ports {
        push_member(text, base, port)?;
    }
    Ok(())
}

fn push_member(text: &mut Vec<u8>, base: u16, port: &SubnetPort) -> Result<(), AllocError>
    ensures { OnOk result (text.new.items ≡ text.old.items ++ member_text base port.now) }
{
    match port.keys.find_base(base) {
        Some(key) => push_member_line(text, port, key),
        None => Ok(()),
    }
}
