//! Queries by PathRecord.

ghost use Rattle.std.specs.Prelude.{ℕ, ◌≡◌, Option, Some, map, IfOk};
ghost use Rattle.std.specs.List.{flat_map};
ghost use Rattle.mad_layout.specs.Layout.{Fits};
ghost use Rattle.sa_records.specs.PathRecord.{path_record, path_record_bytes};
ghost use Rattle.sa_model.specs.Refusals.{has_foreign_sgid, has_no_sender, refusal, wants_no_path};
ghost use Rattle.sa_model.specs.Selected.{Query, few_paths, paths_wanted};
ghost use Rattle.sa_model.specs.Shown.{path_record_of};
ghost use Rattle.sa_model.specs.Visible.{Path};
ghost use Rattle.subnet_model.specs.declared.subnet_port.SubnetPort.{SubnetPort as Port};
ghost use Rattle.sa_replies.specs.Answer.{get_outcome, table_outcome};
ghost use Rattle.sa_answer.specs.Answering.{Brings};
ghost use Rattle.sa_answer.specs.Asked.{paths_reported};
ghost use Rattle.sa_answer.specs.Taken.{Walks};
ghost use Rattle.sa_store.specs.Kept.{ports_of};
ghost use Rattle.sa_answer.specs.Replying.{path_bytes};

use crate::gid::{gid_of, guid_in};
use crate::outcome::Outcome;
use crate::questions::{asks, asks_unknown_mtu, asks_unknown_rate, first_refusal, refused_if};
use crate::taken::{Stopped, Taken, got_by, table_by};
use attr_tables::{Mtu, Rate};
use mad_layout::MadStatus;
use pkey_rules::PKey;
use sa_records::path_mask::{DGID, DLID, NUMB_PATH, SELECTED_MTU, SELECTED_RATE, SGID, SLID};
use sa_records::{PATH_RECORD_BYTES, PATH_RECORD_OFFSET, PathRecord};
use sa_store::{KeptPort, PACKET_LIFE_TIME, Store};
use std::alloc::AllocError;
use subnet_model::SubnetPort;

/// The selector that says that a value is this very one.
pub(crate) const EXACTLY: u8 = 2;

/// A Get by PathRecord.
pub(crate) fn got(store: &Store, own: &KeptPort, mask: u64, asked: &PathRecord) -> Outcome
    ensures { let state = store.now.administration.remembered in
        Brings state (get_outcome store.now.configuration.ports own.now.port state (Some (Query.for_paths mask asked.now))) result }
{
    if let Some(status) = path_refusal(own.port(), mask, asked) {
        return Err(status);
    }
    let others = destinations_asked(store, mask, asked);
    let mut taken = Taken::One(None);
    let walked = walk(own, others, mask, asked, Some(1), &mut taken);
    got_by(taken, walked)
}

/// A GetTable by PathRecord.
pub(crate) fn table(
    store: &Store,
    own: &KeptPort,
    mask: u64,
    asked: &PathRecord,
) -> Result<Outcome, AllocError>
    ensures { let state = store.now.administration.remembered in IfOk result (Brings state
        (table_outcome store.now.configuration.ports own.now.port state (Some (Query.for_paths mask asked.now)))) }
{
    if let Some(status) = path_refusal(own.port(), mask, asked) {
        return Ok(Err(status));
    }
    let others = destinations_asked(store, mask, asked);
    let mut taken = Taken::All(Vec::new(store.alloc()));
    let most = paths_wanted(mask, asked);
    let walked = walk(own, others, mask, asked, most, &mut taken);
    let outcome = table_by(taken, walked, PATH_RECORD_OFFSET)?;
    Ok(outcome)
}

/// The ports to which a request can name paths: that of the GID or the LID that it asks, or all.
fn destinations_asked<'a>(store: &'a Store, mask: u64, asked: &PathRecord) -> &'a [KeptPort]
    ensures { (most : Option ℕ) (own : Port) → flat_map (few_paths most mask asked.now own) (ports_of result.now)
        ≡ flat_map (few_paths most mask asked.now own) store.now.configuration.ports }
{
    if asks(mask, DGID)
        && let Some(guid) = guid_in(asked.dgid)
    {
        return store.of_guid(guid);
    }
    if asks(mask, DLID) {
        return store.of_lid(asked.dlid);
    }
    store.kept()
}

/// Why a request by PathRecord is refused.
fn path_refusal(own: &SubnetPort, mask: u64, asked: &PathRecord) -> Option<MadStatus>
    ensures { result ≡ refusal own.now (Query.for_paths mask asked.now) }
{
    first_refusal(&[
        refused_if(has_no_sender(mask), MadStatus::InsufficientComponents),
        refused_if(has_foreign_sgid(own, mask, asked), MadStatus::InvalidGid),
        refused_if(wants_no_path(mask, asked), MadStatus::RequestInvalid),
        refused_if(
            asks_unknown_mtu(mask, SELECTED_MTU, asked.mtu),
            MadStatus::RequestInvalid,
        ),
        refused_if(
            asks_unknown_rate(mask, SELECTED_RATE, asked.rate),
            MadStatus::RequestInvalid,
        ),
    ])
}

/// Neither SGID nor SLID is asked.
fn has_no_sender(mask: u64) -> bool
    ensures { result ≡ has_no_sender mask }
{
    !asks(mask, SGID) && !asks(mask, SLID)
}

/// Another port's SGID is asked.
fn has_foreign_sgid(own: &SubnetPort, mask: u64, asked: &PathRecord) -> bool
    ensures { result ≡ has_foreign_sgid own.now mask asked.now }
{
    asks(mask, SGID) && asked.sgid != gid_of(own.guid)
}

/// NumbPath 0 is asked.
fn wants_no_path(mask: u64, asked: &PathRecord) -> bool
    ensures { result ≡ wants_no_path mask asked.now }
{
    asks(mask, NUMB_PATH) && asked.numb_path == 0
}

/// How many paths to one port are wanted at most, if the request says so.
fn paths_wanted(mask: u64, asked: &PathRecord) -> Option<u8>
    ensures { result ≡ paths_wanted (Query.for_paths mask asked.now) }
{
    if asks(mask, NUMB_PATH) {
        Some(asked.numb_path)
    } else {
        None
    }
}

/// Takes the paths to these ports that agree with a request, at most so many to each.
fn walk(
    own: &KeptPort,
    others: &[KeptPort],
    mask: u64,
    asked: &PathRecord,
    most: Option<u8>,
    taken: &mut Taken,
) -> Result<(), Stopped>
    ensures { Walks (flat_map (paths_reported most mask asked.now own.now.port) others.now) taken.old taken.new result }
{
    for other in others {
        walk_to(own, other.port(), mask, asked, most, taken)?;
    }
    Ok(())
}

/// Takes those to one port.
fn walk_to(
    own: &KeptPort,
    other: &SubnetPort,
    mask: u64,
    asked: &PathRecord,
    most: Option<u8>,
    taken: &mut Taken,
) -> Result<(), Stopped>
    ensures { Walks (map path_bytes (few_paths most mask asked.now own.now.port other.now)) taken.old taken.new result }
{
    let mut left = match most {
        Some(most) => most as usize,
        None => own.keys().len(),
    };
    for key in own.keys() {
        if left > 0 && other.keys.accepts(*key) {
            let path = path_record(own.port(), other, *key);
            if path.selected_by(mask, asked) {
                taken.take(&bytes_of(&path))?;
                left -= 1;
            }
        }
    }
    Ok(())
}

/// The path between two ports under a key.
fn path_record(origin: &SubnetPort, destination: &SubnetPort, key: PKey) -> PathRecord
    ensures value { result ≡ path_record_of (record { origin = origin.now; destination = destination.now; key = key }) }
    ensures fits { Fits (path_record result) }
{
    let (sguid, slid) = (origin.guid, origin.lid);
    let (dguid, dlid) = (destination.guid, destination.lid);
    path_between(sguid, slid, dguid, dlid, key.bits())
}

/// The path from the port of one GUID and LID to that of another under the key of these bits.
fn path_between(sguid: u64, slid: u16, dguid: u64, dlid: u16, p_key: u16) -> PathRecord
    ensures value { (path : Path) → path.origin.guid ≡ sguid → path.origin.lid ≡ slid → path.destination.guid ≡ dguid
        → path.destination.lid ≡ dlid → path.key ≡ p_key → result ≡ path_record_of path }
    ensures fits { Fits (path_record result) }
{
    PathRecord {
        service_id: 0,
        dgid: gid_of(dguid),
        sgid: gid_of(sguid),
        dlid,
        slid,
        raw_traffic: false,
        flow_label: 0,
        hop_limit: 0,
        t_class: 0,
        reversible: true,
        numb_path: 0,
        p_key,
        qos_class: 0,
        sl: 0,
        mtu_selector: EXACTLY,
        mtu: Mtu::Bytes2048.code(),
        rate_selector: EXACTLY,
        rate: Rate::Gbps10.code(),
        packet_life_time_selector: EXACTLY,
        packet_life_time: PACKET_LIFE_TIME,
        preference: 0,
    }
}

/// The bytes of a record.
fn bytes_of(path: &PathRecord) -> [u8; PATH_RECORD_BYTES]
    requires { Fits (path_record path.now) }
    ensures { result ≡ path_record_bytes path.now }
{
    let mut bytes = [0; PATH_RECORD_BYTES];
    path.write(&mut bytes);
    bytes
}
