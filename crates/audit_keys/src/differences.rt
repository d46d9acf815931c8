//! How tables differ from the partition file, and those of switch ports from those of the adapter ports that they face.

ghost use Rattle.std.specs.Prelude.{◌≡◌, ◌++◌, Some, map, IfOk, OnOk};
ghost use Rattle.pkey_rules.specs.PKey.{base_of};
ghost use Rattle.std.specs.List.{flat_map, list_any};
ghost use Rattle.audit_keys.specs.Differences.{agrees, all_agree, carries_all, facing_fits_if_read, fits_if_read, keys_follow_if_read, tables_fit_if_read};
ghost use Rattle.audit_keys.specs.Differences.{are_clean, bases_by, bases_with, differences_by, differences_with, each, enforced_by, enforces, enforces_both, is_by_opensm, is_of_key};
ghost use Rattle.audit_keys.specs.Differences.{facing_differences, facing_fits, fits_if_enforced, follows_file, is_clean, lacks_room, noted, noted_if, port_differences, tables_fit};

use audit_ports::{
    AuditedPort, Enforcement, FacingPort, HeldKeys, has_base, have_same_bases, have_same_keys,
    holds, of_other_bases, of_other_membership,
};
use fabric_parts::PortRef;
use pkey_rules::base_of;
use std::alloc::{AllocError, Global};

/// How something differs.
#[derive(Clone, Copy, Debug, PartialEq, Eq)]
pub enum DifferenceKind {
    /// A key stands that the file does not give.
    Extra,
    /// A key that the file gives does not stand.
    Missing,
    /// A key stands with the other membership.
    Membership,
    /// The table has no empty place for the keys that are missing.
    Full,
    /// The switch port enforces nothing.
    Off,
    /// The switch port enforces in one direction alone.
    Half,
    /// The switch port enforces, and lacks a base of the adapter port.
    Lacks,
    /// The switch port has a base that the adapter port has not.
    More,
    /// The switch port was not read.
    UnreadSwitchPort,
}

/// A difference.
#[derive(Clone, Copy, Debug, PartialEq, Eq)]
pub struct Difference {
    /// How it differs.
    pub kind: DifferenceKind,
    /// The port.
    pub port: PortRef,
    /// The key or the base; 0 if there is none.
    pub key: u16,
    /// Whether OpenSM, by its own reading of the file, makes just this of the key's base.
    pub is_opensms: bool,
}

/// Whether OpenSM, which reads these keys in the file for the port, makes just this of the key's base.
fn is_by_opensm(kind: DifferenceKind, opensms: &[u16], key: u16) -> bool
    ensures { result ≡ is_by_opensm kind opensms.now key }
{
    match kind {
        DifferenceKind::Extra | DifferenceKind::Membership => holds(key, opensms),
        DifferenceKind::Missing => !has_base(base_of(key), opensms),
        DifferenceKind::Full
        | DifferenceKind::Off
        | DifferenceKind::Half
        | DifferenceKind::Lacks
        | DifferenceKind::More
        | DifferenceKind::UnreadSwitchPort => false,
    }
}

/// Adds one difference for each of these keys.
fn push_each(
    list: &mut Vec<Difference>,
    kind: DifferenceKind,
    port: PortRef,
    opensms: &[u16],
    keys: &[u16],
) -> Result<(), AllocError>
    ensures { OnOk result (list.new.items ≡ list.old.items ++ each kind port opensms.now keys.now) }
{
    for key in keys {
        list.push(Difference {
            kind,
            port,
            key: *key,
            is_opensms: is_by_opensm(kind, opensms, *key),
        })?;
    }
    Ok(())
}

fn note(list: &mut Vec<Difference>, kind: DifferenceKind, port: PortRef) -> Result<(), AllocError>
    ensures { OnOk result (list.new.items ≡ list.old.items ++ noted kind port) }
{
    list.push(Difference {
        kind,
        port,
        key: 0,
        is_opensms: false,
    })?;
    Ok(())
}

fn note_if(
    list: &mut Vec<Difference>,
    test: bool,
    kind: DifferenceKind,
    port: PortRef,
) -> Result<(), AllocError>
    ensures { OnOk result (list.new.items ≡ list.old.items ++ noted_if test kind port) }
{
    if test {
        return note(list, kind, port);
    }
    Ok(())
}

fn lacks_room(alloc: Global, table: &HeldKeys, file: &[u16]) -> Result<bool, AllocError>
    ensures { IfOk result (λ lacks. lacks ≡ lacks_room table.now file.now) }
{
    let missing = of_other_bases(alloc, file, table.keys.as_slice())?;
    Ok(table.is_full && !missing.is_empty())
}

fn push_differences_of(
    alloc: Global,
    list: &mut Vec<Difference>,
    port: &AuditedPort,
    table: &HeldKeys,
) -> Result<(), AllocError>
    ensures { OnOk result (list.new.items ≡ list.old.items ++ differences_by port.now (Some table.now)) }
{
    let file = port.file.as_slice();
    push_differences_with(
        alloc,
        list,
        port.port,
        table.keys.as_slice(),
        file,
        port.opensms.as_slice(),
    )?;
    let lacks = lacks_room(alloc, table, file)?;
    note_if(list, lacks, DifferenceKind::Full, port.port)
}

#[tactic(auto, unfolding(crate::specs::Differences::differences_with))]
fn push_differences_with(
    alloc: Global,
    list: &mut Vec<Difference>,
    port: PortRef,
    keys: &[u16],
    file: &[u16],
    opensms: &[u16],
) -> Result<(), AllocError>
    ensures { OnOk result (list.new.items ≡ list.old.items ++ differences_with port keys.now file.now opensms.now) }
{
    let extra = of_other_bases(alloc, keys, file)?;
    let missing = of_other_bases(alloc, file, keys)?;
    let changed = of_other_membership(alloc, keys, file)?;
    push_each(list, DifferenceKind::Extra, port, opensms, &extra)?;
    push_each(list, DifferenceKind::Missing, port, opensms, &missing)?;
    push_each(list, DifferenceKind::Membership, port, opensms, &changed)
}

fn push_port_differences(
    alloc: Global,
    list: &mut Vec<Difference>,
    port: &AuditedPort,
) -> Result<(), AllocError>
    ensures { OnOk result (list.new.items ≡ list.old.items ++ port_differences port.now) }
{
    match &port.table {
        Some(table) => push_differences_of(alloc, list, port, table),
        None => Ok(()),
    }
}

/// How the tables of end ports differ from the file.
pub(crate) fn differences(
    alloc: Global,
    ports: &[AuditedPort],
) -> Result<Vec<Difference>, AllocError>
    ensures { IfOk result (λ list. list.items ≡ flat_map port_differences ports.now) }
{
    let mut list = Vec::new(alloc);
    for port in ports {
        push_port_differences(alloc, &mut list, port)?;
    }
    Ok(list)
}

/// Whether packets are dropped in some direction.
pub(crate) fn enforces(enforcement: Enforcement) -> bool
    ensures { result ≡ enforces enforcement }
{
    enforcement.inbound || enforcement.outbound
}

fn enforces_both(enforcement: Enforcement) -> bool
    ensures { result ≡ enforces_both enforcement }
{
    enforcement.inbound && enforcement.outbound
}

pub(crate) fn bases_of(alloc: Global, keys: &[u16]) -> Result<Vec<u16>, AllocError>
    ensures { IfOk result (λ bases. bases.items ≡ map base_of keys.now) }
{
    keys.iter().map(|key| base_of(*key)).collect(alloc)
}

#[tactic(auto, unfolding(crate::specs::Differences::bases_with))]
fn push_bases_with(
    alloc: Global,
    list: &mut Vec<Difference>,
    port: PortRef,
    keys: &[u16],
    adapter: &[u16],
) -> Result<(), AllocError>
    ensures { OnOk result (list.new.items ≡ list.old.items ++ bases_with port keys.now adapter.now) }
{
    let lacking = of_other_bases(alloc, adapter, keys)?;
    let lacking = bases_of(alloc, &lacking)?;
    let more = of_other_bases(alloc, keys, adapter)?;
    let more = bases_of(alloc, &more)?;
    push_each(list, DifferenceKind::Lacks, port, &[], &lacking)?;
    push_each(list, DifferenceKind::More, port, &[], &more)
}

fn push_bases_by(
    alloc: Global,
    list: &mut Vec<Difference>,
    port: PortRef,
    table: &Option<HeldKeys>,
    adapter: &Option<HeldKeys>,
) -> Result<(), AllocError>
    ensures { OnOk result (list.new.items ≡ list.old.items ++ bases_by port table.now adapter.now) }
{
    match (table, adapter) {
        (Some(table), Some(adapter)) => push_bases_with(
            alloc,
            list,
            port,
            table.keys.as_slice(),
            adapter.keys.as_slice(),
        ),
        (Some(_), None) => Ok(()),
        (None, _) => note(list, DifferenceKind::UnreadSwitchPort, port),
    }
}

#[tactic(auto, unfolding(crate::specs::Differences::enforced_by))]
fn push_enforced_by(
    alloc: Global,
    list: &mut Vec<Difference>,
    facing: &FacingPort,
    enforcement: Enforcement,
    adapter: &Option<HeldKeys>,
) -> Result<(), AllocError>
    ensures { OnOk result (list.new.items ≡ list.old.items ++ enforced_by facing.now.port enforcement facing.now.table adapter.now) }
{
    if !enforces(enforcement) {
        return note(list, DifferenceKind::Off, facing.port);
    }
    note_if(
        list,
        !enforces_both(enforcement),
        DifferenceKind::Half,
        facing.port,
    )?;
    push_bases_by(alloc, list, facing.port, &facing.table, adapter)
}

fn push_facing_differences(
    alloc: Global,
    list: &mut Vec<Difference>,
    port: &AuditedPort,
) -> Result<(), AllocError>
    ensures { OnOk result (list.new.items ≡ list.old.items ++ facing_differences port.now) }
{
    match &port.facing {
        Some(facing) => match facing.enforcement {
            Some(enforcement) => push_enforced_by(alloc, list, facing, enforcement, &port.table),
            None => note(list, DifferenceKind::UnreadSwitchPort, facing.port),
        },
        None => Ok(()),
    }
}

/// How switch ports differ from the adapter ports that they face.
pub(crate) fn facing_differences(
    alloc: Global,
    ports: &[AuditedPort],
) -> Result<Vec<Difference>, AllocError>
    ensures { IfOk result (λ list. list.items ≡ flat_map facing_differences ports.now) }
{
    let mut list = Vec::new(alloc);
    for port in ports {
        push_facing_differences(alloc, &mut list, port)?;
    }
    Ok(list)
}

/// Whether a port was read and has the keys of the file.
pub(crate) fn follows_file(port: &AuditedPort) -> bool
    ensures { result ≡ follows_file port.now }
{
    match &port.table {
        Some(table) => have_same_keys(table.keys.as_slice(), port.file.as_slice()),
        None => false,
    }
}

fn tables_fit(table: &Option<HeldKeys>, adapter: &Option<HeldKeys>) -> bool
    ensures { result ≡ tables_fit table.now adapter.now }
{
    match (table, adapter) {
        (Some(table), Some(adapter)) => {
            have_same_bases(table.keys.as_slice(), adapter.keys.as_slice())
        }
        _ => false,
    }
}

fn fits_if_enforced(facing: &FacingPort, adapter: &Option<HeldKeys>) -> bool
    ensures { result ≡ fits_if_enforced facing.now.enforcement facing.now.table adapter.now }
{
    match facing.enforcement {
        Some(enforcement) => !enforces(enforcement) || tables_fit(&facing.table, adapter),
        None => false,
    }
}

fn facing_fits(port: &AuditedPort) -> bool
    ensures { result ≡ facing_fits port.now }
{
    match &port.facing {
        Some(facing) => fits_if_enforced(facing, &port.table),
        None => true,
    }
}

fn carries_all(port: &AuditedPort) -> bool
    ensures { result ≡ carries_all port.now }
{
    port.lacks.as_slice().is_empty()
}

fn is_clean(port: &AuditedPort) -> bool
    ensures { result ≡ is_clean port.now }
{
    follows_file(port) && facing_fits(port) && carries_all(port)
}

/// Whether one of these differences is of a key or of a base.
pub(crate) fn has_key(list: &[Difference]) -> bool
    ensures { result ≡ list_any is_of_key list.now }
{
    list.iter().any(|difference| difference.key != 0)
}

/// Whether all was read, and nothing differs that counts for the status.
pub(crate) fn are_clean(ports: &[AuditedPort]) -> bool
    ensures { result ≡ are_clean ports.now }
{
    ports.iter().all(|port| is_clean(port))
}

fn keys_follow_if_read(table: &Option<HeldKeys>, file: &[u16]) -> bool
    ensures { result ≡ keys_follow_if_read table.now file.now }
{
    match table {
        Some(table) => have_same_keys(table.keys.as_slice(), file),
        None => true,
    }
}

fn tables_fit_if_read(table: &Option<HeldKeys>, adapter: &Option<HeldKeys>) -> bool
    ensures { result ≡ tables_fit_if_read table.now adapter.now }
{
    match (table, adapter) {
        (Some(table), Some(adapter)) => {
            have_same_bases(table.keys.as_slice(), adapter.keys.as_slice())
        }
        _ => true,
    }
}

fn fits_if_read(facing: &FacingPort, adapter: &Option<HeldKeys>) -> bool
    ensures { result ≡ fits_if_read facing.now.enforcement facing.now.table adapter.now }
{
    match facing.enforcement {
        Some(enforcement) => !enforces(enforcement) || tables_fit_if_read(&facing.table, adapter),
        None => true,
    }
}

fn facing_fits_if_read(port: &AuditedPort) -> bool
    ensures { result ≡ facing_fits_if_read port.now.facing port.now.table }
{
    match &port.facing {
        Some(facing) => fits_if_read(facing, &port.table),
        None => true,
    }
}

fn agrees(port: &AuditedPort) -> bool
    ensures { result ≡ agrees port.now }
{
    keys_follow_if_read(&port.table, port.file.as_slice())
        && facing_fits_if_read(port)
        && carries_all(port)
}

/// Whether all that was read is as the file, whatever was not read.
pub(crate) fn all_agree(ports: &[AuditedPort]) -> bool
    ensures { result ≡ all_agree ports.now }
{
    ports.iter().all(|port| agrees(port))
}
