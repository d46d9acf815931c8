//! The lines of shares.

ghost use Rattle.std.specs.Prelude.{◌≡◌, ◌==◌, ◌&&◌, ◌++◌, IfOk, OnOk};
ghost use Rattle.pkey_rules.specs.PKey.{base_of};
ghost use Rattle.std.specs.List.{flat_map};
ghost use Rattle.pkey_rules.specs.KeyTable.{shares_base};
ghost use Rattle.partition_reports.specs.FoundShares.{AreBases, asked_text, base_text, has_match, pair_text, share_of};
ghost use Rattle.partition_reports.specs.Shares.{is_asked, share_line, shares_text};

use crate::bases::bases_of;
use crate::ports::push_port;
use pkey_rules::PKey;
use std::alloc::{AllocError, Global};
use subnet_model::SubnetPort;
use text_words::push_hex;

/// A line for each two of these ports, in their order, and each partition in which their keys match, by rising base; if
/// a GUID is asked for, only those that name its port. It can only run out of memory.
pub fn shares_text(
    alloc: Global,
    ports: &[SubnetPort],
    asked: Option<u64>,
) -> Result<Vec<u8>, AllocError>
    ensures { IfOk result (λ text. text.items ≡ shares_text asked ports.now) }
{
    let mut text = Vec::new(alloc);
    let mut rest = ports;
    while let Some((port, others)) = rest.split_first() {
        push_others(alloc, &mut text, asked, port, others)?;
        rest = others;
    }
    Ok(text)
}

/// The lines of a port with each of the others.
fn push_others(
    alloc: Global,
    text: &mut Vec<u8>,
    asked: Option<u64>,
    port: &SubnetPort,
    others: &[SubnetPort],
) -> Result<(), AllocError>
    ensures { OnOk result (text.new.items ≡ text.old.items ++ flat_map (asked_text asked port.now) others.now) }
{
    let bases = bases_of(alloc, port.keys.as_slice())?;
    for other in others {
        push_if_asked(text, asked, port, other, &bases)?;
    }
    Ok(())
}

/// The lines of two ports, if they are asked for.
fn push_if_asked(
    text: &mut Vec<u8>,
    asked: Option<u64>,
    port: &SubnetPort,
    other: &SubnetPort,
    bases: &[u16],
) -> Result<(), AllocError>
    requires { AreBases port.now.keys bases.now }
    ensures { OnOk result (text.new.items ≡ text.old.items ++ asked_text asked port.now other.now) }
{
    if is_asked(asked, port, other) {
        push_pair(text, port, other, bases)
    } else {
        Ok(())
    }
}

fn is_asked(asked: Option<u64>, port: &SubnetPort, other: &SubnetPort) -> bool
    ensures { result ≡ is_asked asked port.now other.now }
{
    match asked {
        Some(guid) => port.guid == guid || other.guid == guid,
        None => true,
    }
}

/// The lines of two ports, by the bases of the first one's keys.
fn push_pair(
    text: &mut Vec<u8>,
    port: &SubnetPort,
    other: &SubnetPort,
    bases: &[u16],
) -> Result<(), AllocError>
    requires { AreBases port.now.keys bases.now }
    ensures { OnOk result (text.new.items ≡ text.old.items ++ pair_text port.now other.now) }
{
    for base in bases {
        push_base(text, port, other, *base)?;
    }
    Ok(())
}

/// Their line for the partition of that base, if their keys match there.
fn push_base(
    text: &mut Vec<u8>,
    port: &SubnetPort,
    other: &SubnetPort,
    base: u16,
) -> Result<(), AllocError>
    ensures { OnOk result (text.new.items ≡ text.old.items ++ base_text port.now other.now base) }
{
    if may_talk(port, other, base) {
        push_share_line(text, port, other, base)
    } else {
        Ok(())
    }
}

/// Whether the keys of two ports match in the partition of that base.
pub fn may_talk(port: &SubnetPort, other: &SubnetPort, base: u16) -> bool
    ensures { result ≡ shares_base base port.now.keys other.now.keys }
{
    port.keys.as_slice().iter().any(
        |key| -> bool
            ensures { result ≡ ((base_of key.now == base) && has_match base key.now other.entry.now.keys) }
        { key.base() == base && has_match(base, *key, other) },
    )
}

/// Whether the port holds a key of that base that matches this one.
fn has_match(base: u16, key: PKey, port: &SubnetPort) -> bool
    ensures { result ≡ has_match base key port.now.keys }
{
    port.keys
        .as_slice()
        .iter()
        .any(|held| held.base() == base && held.matches(key))
}

/// Adds `share PORT PORT BASE`.
pub fn push_share_line(
    text: &mut Vec<u8>,
    port: &SubnetPort,
    other: &SubnetPort,
    base: u16,
) -> Result<(), AllocError>
    ensures { OnOk result (text.new.items ≡ text.old.items ++ share_line (share_of port.now other.now base)) }
{
    text.extend_from_slice(b"share ")?;
    push_port(text, port)?;
    text.extend_from_slice(b" ")?;
    push_port(text, other)?;
    text.extend_from_slice(b" ")?;
    push_hex(text, &base.to_be_bytes())?;
    text.push(b'\n')?;
    Ok(())
}
