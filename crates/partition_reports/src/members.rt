//! Members of partitions.

ghost use Rattle.std.specs.Prelude.{◌≡◌, ◌++◌, OnOk};
ghost use Rattle.std.specs.List.{flat_map};
ghost use Rattle.partition_reports.specs.Changes.{change_of_member_line, member_of, same_member, stays};
ghost use Rattle.partition_reports.specs.FoundChanges.{member_text, members_text, signed};

use crate::changed_ports::Both;
use crate::lines::push_member_line;
use std::alloc::AllocError;
use subnet_model::SubnetPort;

/// What changes of the members of each partition.
pub(crate) fn push_members(
    text: &mut Vec<u8>,
    bases: &[u16],
    ports: &[Both<'_>],
) -> Result<(), AllocError>
    ensures { OnOk result (text.new.items ≡ text.old.items ++ flat_map (members_text ports.now) bases.now) }
{
    for base in bases {
        push_members_of(text, *base, ports)?;
    }
    Ok(())
}

fn push_members_of(text: &mut Vec<u8>, base: u16, ports: &[Both<'_>]) -> Result<(), AllocError>
    ensures { OnOk result (text.new.items ≡ text.old.items ++ members_text ports.now base) }
{
    for port in ports {
        push_member(text, base, port)?;
    }
    Ok(())
}

fn push_member(text: &mut Vec<u8>, base: u16, port: &Both<'_>) -> Result<(), AllocError>
    ensures { OnOk result (text.new.items ≡ text.old.items ++ member_text base port.now) }
{
    if member_stays(base, port) {
        return Ok(());
    }
    push_signed_member(text, b"- ", base, port.before)?;
    push_signed_member(text, b"+ ", base, port.after)
}

fn member_stays(base: u16, port: &Both<'_>) -> bool
    ensures { result ≡ stays same_member (member_of base port.now.before.now) (member_of base port.now.after.now) }
{
    match (
        port.before.keys.find_base(base),
        port.after.keys.find_base(base),
    ) {
        (Some(key), Some(other)) => port.before.guid == port.after.guid && key == other,
        _ => false,
    }
}

fn push_signed_member(
    text: &mut Vec<u8>,
    mark: &[u8],
    base: u16,
    port: &SubnetPort,
) -> Result<(), AllocError>
    ensures { OnOk result (text.new.items ≡ text.old.items ++ signed mark.now change_of_member_line (member_of base port.now)) }
{
    match port.keys.find_base(base) {
        Some(key) => {
            text.extend_from_slice(mark)?;
            push_member_line(text, port, key)
        }
        None => Ok(()),
    }
}
