//! Queries by MCMemberRecord, and the record that a join is answered by.

ghost use Rattle.std.specs.Prelude.{◌≡◌, ◌<◌, ◌∷◌, [], length, map};
ghost use Rattle.std.specs.Prelude.{ℕ, Some, find, option_to_list, IfOk};
ghost use Rattle.std.specs.List.{flat_map};
ghost use Rattle.mad_layout.specs.Layout.{Fits};
ghost use Rattle.sa_records.specs.McMemberRecord.{mc_member_record, mc_member_record_bytes};
ghost use Rattle.subnet_model.specs.declared.subnet_port.SubnetPort.{SubnetPort as Port};
ghost use Rattle.sa_model.specs.Refusals.{refusal};
ghost use Rattle.sa_model.specs.Selected.{Query};
ghost use Rattle.sa_model.specs.Shown.{group_record_of};
ghost use Rattle.sa_replies.specs.Answer.{get_outcome, table_outcome};
ghost use Rattle.sa_model.specs.Joining.{has_mgid};
ghost use Rattle.sa_replies.specs.Joins.{group_named, member_bytes, member_record};
ghost use Rattle.sa_answer.specs.Answering.{Brings};
ghost use Rattle.sa_store.specs.Members.{place_with_base};
ghost use Rattle.sa_answer.specs.Taken.{Walks};
ghost use Rattle.sa_answer.specs.Groups.{groups_reported, group_bytes, group_of, groups_agreeing, is_named, is_searched};
ghost use Rattle.sa_answer.specs.Replying.{padded};
ghost use Rattle.sa_store.specs.MlidRange.{with_mlid};

use crate::gid::gid_of;
use crate::outcome::Outcome;
use crate::path::EXACTLY;
use crate::questions::{asks, asks_unknown_mtu, asks_unknown_rate, first_refusal, refused_if};
use crate::taken::{Stopped, Taken, got_by, table_by};
use mad_layout::{MadStatus, SA_DATA_BYTES};
use pkey_rules::{base_of, key_of};
use sa_records::member_mask::{MGID, MLID, P_KEY, SELECTED_MTU, SELECTED_RATE};
use sa_records::{MC_MEMBER_RECORD_BYTES, MC_MEMBER_RECORD_OFFSET, McMemberRecord};
use sa_store::{Group, KeptPort, MlidRange, Store, is_in};
use std::alloc::AllocError;
use subnet_model::SubnetPort;

/// A Get by MCMemberRecord.
pub(crate) fn got(store: &Store, own: &KeptPort, mask: u64, asked: &McMemberRecord) -> Outcome
    ensures { let state = store.now.administration.remembered in
        Brings state (get_outcome store.now.configuration.ports own.now.port state (Some (Query.for_groups mask asked.now))) result }
{
    if let Some(status) = group_refusal(mask, asked) {
        return Err(status);
    }
    let mut taken = Taken::One(None);
    let walked = walk(own.port(), store.partitions(), mask, asked, &mut taken);
    got_by(taken, walked)
}

/// A GetTable by MCMemberRecord.
pub(crate) fn table(
    store: &Store,
    own: &KeptPort,
    mask: u64,
    asked: &McMemberRecord,
) -> Result<Outcome, AllocError>
    ensures { let state = store.now.administration.remembered in IfOk result (Brings state
        (table_outcome store.now.configuration.ports own.now.port state (Some (Query.for_groups mask asked.now)))) }
{
    if let Some(status) = group_refusal(mask, asked) {
        return Ok(Err(status));
    }
    let mut taken = Taken::All(Vec::new(store.alloc()));
    let walked = walk(own.port(), store.partitions(), mask, asked, &mut taken);
    let outcome = table_by(taken, walked, MC_MEMBER_RECORD_OFFSET)?;
    Ok(outcome)
}

/// Why a request by MCMemberRecord is refused.
fn group_refusal(mask: u64, asked: &McMemberRecord) -> Option<MadStatus>
    ensures { (own : Port) → result ≡ refusal own (Query.for_groups mask asked.now) }
{
    first_refusal(&[
        refused_if(
            asks_unknown_mtu(mask, SELECTED_MTU, asked.mtu),
            MadStatus::RequestInvalid,
        ),
        refused_if(
            asks_unknown_rate(mask, SELECTED_RATE, asked.rate),
            MadStatus::RequestInvalid,
        ),
    ])
}

/// Takes the groups of these partitions that a port is shown and that agree with a request.
fn walk(
    own: &SubnetPort,
    partitions: &[MlidRange],
    mask: u64,
    asked: &McMemberRecord,
    taken: &mut Taken,
) -> Result<(), Stopped>
    ensures { Walks (flat_map (groups_reported own.now mask asked.now) partitions.now) taken.old taken.new result }
{
    for partition in partitions {
        walk_partition(own, partition, mask, asked, taken)?;
    }
    Ok(())
}

/// Takes those of one partition.
fn walk_partition(
    own: &SubnetPort,
    partition: &MlidRange,
    mask: u64,
    asked: &McMemberRecord,
    taken: &mut Taken,
) -> Result<(), Stopped>
    ensures { Walks (groups_reported own.now mask asked.now partition.now) taken.old taken.new result }
{
    let slots = partition.as_slice();
    if !is_searched(own, partition, mask, asked) {
        return Ok(());
    }
    for (place, slot) in slots.iter().enumerate() {
        let mlid = partition.mlid_of(place);
        if is_named(slot, mlid, mask, asked) {
            if let Some(shown) = agreeing(slot, partition.base(), mlid, mask, asked) {
                taken.take(&shown)?;
            }
        }
    }
    Ok(())
}

/// Whether a port is in a partition, and a request does not leave that out by a P_Key or an MLID.
fn is_searched(own: &SubnetPort, partition: &MlidRange, mask: u64, asked: &McMemberRecord) -> bool
    ensures { result ≡ is_searched own.now mask asked.now partition.now }
{
    (!asks(mask, P_KEY) || partition.base() == base_of(asked.p_key))
        && (!asks(mask, MLID) || partition.has_mlid(asked.mlid))
        && is_in(own, partition.base())
}

/// Whether there is a group in the slot of an MLID, and a request does not leave it out by the MLID or an MGID: all others are
/// passed over at once.
fn is_named(slot: &Option<Group>, mlid: u16, mask: u64, asked: &McMemberRecord) -> bool
    ensures { result ≡ is_named mask asked.now mlid slot.now }
{
    match slot {
        Some(group) => {
            (!asks(mask, MGID) || group.mgid() == asked.mgid)
                && (!asks(mask, MLID) || mlid == asked.mlid)
        }
        None => false,
    }
}

/// The bytes of the record of the group in the slot of an MLID, if there is one and it agrees with a request.
fn agreeing(
    slot: &Option<Group>,
    base: u16,
    mlid: u16,
    mask: u64,
    asked: &McMemberRecord,
) -> Option<[u8; MC_MEMBER_RECORD_BYTES]>
    requires { base < 0x8000 }
    ensures { option_to_list result ≡ map group_bytes (groups_agreeing mask asked.now base mlid (slot.now ∷ [])) }
{
    let group = slot.as_ref()?;
    let shown = group_record(group, base, mlid);
    if shown.selected_by(mask, asked) {
        Some(bytes_of(&shown))
    } else {
        None
    }
}

/// The record of a group of the partition of a base that has an MLID.
pub(crate) fn group_record(group: &Group, base: u16, mlid: u16) -> McMemberRecord
    requires { base < 0x8000 }
    ensures value { result ≡ group_record_of (group_of base (with_mlid mlid group.now)) }
    ensures fits { Fits (mc_member_record result) }
{
    let parameters = group.parameters();
    McMemberRecord {
        mgid: group.mgid(),
        port_gid: 0,
        q_key: parameters.q_key,
        mlid,
        mtu_selector: EXACTLY,
        mtu: parameters.mtu,
        t_class: parameters.traffic_class,
        p_key: key_of(base, true),
        rate_selector: EXACTLY,
        rate: parameters.rate,
        packet_life_time_selector: EXACTLY,
        packet_life_time: parameters.packet_life_time,
        sl: parameters.service_level,
        flow_label: parameters.flow_label,
        hop_limit: parameters.hop_limit,
        scope: parameters.scope,
        join_state: 0,
        proxy_join: false,
    }
}

/// The bytes of a record.
fn bytes_of(group: &McMemberRecord) -> [u8; MC_MEMBER_RECORD_BYTES]
    requires { Fits (mc_member_record group.now) }
    ensures { result ≡ mc_member_record_bytes group.now }
{
    let mut bytes = [0; MC_MEMBER_RECORD_BYTES];
    group.write(&mut bytes);
    bytes
}

/// The data of a reply with the record of these bytes.
fn data_of(bytes: &[u8; MC_MEMBER_RECORD_BYTES]) -> [u8; SA_DATA_BYTES]
    ensures { result ≡ padded bytes.now }
{
    let mut data = [0; SA_DATA_BYTES];
    data[..MC_MEMBER_RECORD_BYTES].copy_from_slice(bytes);
    data
}

/// The data of the reply to a join: the record of the group of an MGID in the partition of that place, with the GID and the bits of
/// the port of a GUID.
pub(crate) fn member_data(store: &Store, place: usize, port: u64, mgid: u128) -> [u8; SA_DATA_BYTES]
    requires { place < length store.now.administration.remembered.partitions }
    ensures { (own : Port) (base : ℕ) → own.guid ≡ port → place_with_base store.now.administration.remembered.partitions base ≡ Some place
        → result ≡ padded (member_bytes own base (group_named base mgid store.now.administration.remembered.partitions)) }
{
    // That no two partitions have one base is known once it is said.
    store.known();
    member_data_in(store.partition_at(place), port, mgid)
}

/// The same, of the group of that MGID in this partition.
fn member_data_in(partition: &MlidRange, port: u64, mgid: u128) -> [u8; SA_DATA_BYTES]
    ensures { (own : Port) → own.guid ≡ port
        → result ≡ padded (member_bytes own partition.now.base (find (has_mgid mgid) partition.now.groups)) }
{
    match partition.named(mgid) {
        Some((mlid, group)) => data_of(&bytes_of(&member_record(
            port,
            group,
            partition.base(),
            mlid,
        ))),
        None => [0; SA_DATA_BYTES],
    }
}

/// The record of a group of the partition of a base that has an MLID, with the GID and the bits of the port of a GUID.
fn member_record(port: u64, group: &Group, base: u16, mlid: u16) -> McMemberRecord
    requires { base < 0x8000 }
    ensures value { (own : Port) → own.guid ≡ port → result ≡ member_record own base (with_mlid mlid group.now) }
    ensures fits { Fits (mc_member_record result) }
{
    McMemberRecord {
        port_gid: gid_of(port),
        join_state: group.bits_of(port),
        ..group_record(group, base, mlid)
    }
}
