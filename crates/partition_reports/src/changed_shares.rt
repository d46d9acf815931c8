//! Who may talk to whom.

ghost use Rattle.std.specs.Prelude.{◌≡◌, ◌++◌, OnOk, if◌then◌else◌, Some, None};
ghost use Rattle.std.specs.List.{flat_map};
ghost use Rattle.partition_reports.specs.FoundShares.{AreBases, share_of as share_between};
ghost use Rattle.partition_reports.specs.Shares.{share_line};
ghost use Rattle.partition_reports.specs.Changes.{same_share, stays};
ghost use Rattle.partition_reports.specs.FoundChanges.{pair_text, same_ports, share_text, shares_text, signed};

use crate::bases::bases_of_both;
use crate::changed_ports::Both;
use crate::shares::{may_talk, push_share_line};
use std::alloc::{AllocError, Global};
use subnet_model::SubnetPort;

/// What changes of the shares of each two ports.
pub(crate) fn push_shares(
    alloc: Global,
    text: &mut Vec<u8>,
    ports: &[Both<'_>],
) -> Result<(), AllocError>
    ensures { OnOk result (text.new.items ≡ text.old.items ++ shares_text ports.now) }
{
    for (place, port) in ports.iter().enumerate() {
        push_others(alloc, text, port, &ports[place + 1..])?;
    }
    Ok(())
}

/// Of one port with each of the others.
fn push_others(
    alloc: Global,
    text: &mut Vec<u8>,
    port: &Both<'_>,
    others: &[Both<'_>],
) -> Result<(), AllocError>
    ensures { OnOk result (text.new.items ≡ text.old.items ++ flat_map (pair_text port.now) others.now) }
{
    let bases = bases_of_both(
        alloc,
        port.before.keys.as_slice(),
        port.after.keys.as_slice(),
    )?;
    for other in others {
        push_pair(text, port, other, &bases)?;
    }
    Ok(())
}

/// Of two ports, by the bases of the first one's keys, as they were and as they will be.
fn push_pair(
    text: &mut Vec<u8>,
    port: &Both<'_>,
    other: &Both<'_>,
    bases: &[u16],
) -> Result<(), AllocError>
    requires { AreBases (port.now.before.now.keys ++ port.now.after.now.keys) bases.now }
    ensures { OnOk result (text.new.items ≡ text.old.items ++ pair_text port.now other.now) }
{
    for base in bases {
        push_share(text, port, other, *base)?;
    }
    Ok(())
}

fn push_share(
    text: &mut Vec<u8>,
    port: &Both<'_>,
    other: &Both<'_>,
    base: u16,
) -> Result<(), AllocError>
    ensures { OnOk result (text.new.items ≡ text.old.items ++ share_text port.now other.now base) }
{
    let was = may_talk(port.before, other.before, base);
    let becomes = may_talk(port.after, other.after, base);
    if was && becomes && same_ports(port, other) {
        return Ok(());
    }
    push_signed_share(text, b"- ", port.before, other.before, base, was)?;
    push_signed_share(text, b"+ ", port.after, other.after, base, becomes)
}

fn same_ports(port: &Both<'_>, other: &Both<'_>) -> bool
    ensures { result ≡ same_ports port.now other.now }
{
    port.before.guid == port.after.guid && other.before.guid == other.after.guid
}

fn push_signed_share(
    text: &mut Vec<u8>,
    mark: &[u8],
    port: &SubnetPort,
    other: &SubnetPort,
    base: u16,
    is_reported: bool,
) -> Result<(), AllocError>
    ensures { OnOk result (text.new.items ≡ text.old.items
        ++ signed mark.now share_line (if is_reported then Some (share_between port.now other.now base) else None)) }
{
    if is_reported {
        text.extend_from_slice(mark)?;
        push_share_line(text, port, other, base)
    } else {
        Ok(())
    }
}
