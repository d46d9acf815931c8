//! Queries by ServiceRecord.

ghost use Rattle.std.specs.Prelude.{◌≡◌, ◌<◌, ◌==◌, if◌then◌else◌, map};
ghost use Rattle.std.specs.Prelude.{Some, None, IfOk};
ghost use Rattle.std.specs.List.{flat_map};
ghost use Rattle.pkey_rules.specs.KeyTable.{shares_base};
ghost use Rattle.sa_records.specs.Component.{on, passes};
ghost use Rattle.sa_records.specs.ServiceMask as service_mask;
ghost use Rattle.sa_records.specs.ServiceRecord.{service_record_bytes, service_record_selected};
ghost use Rattle.sa_model.specs.Selected.{Query, services_selected};
ghost use Rattle.sa_model.specs.Shown.{service_record_of};
ghost use Rattle.sa_replies.specs.Answer.{get_outcome, table_outcome};
ghost use Rattle.subnet_model.specs.Delivery.{port_with_guid};
ghost use Rattle.subnet_model.specs.declared.subnet_port.SubnetPort.{SubnetPort};
ghost use Rattle.sa_model.specs.Visible.{visible_services};
ghost use Rattle.sa_answer.specs.Answering.{Brings};
ghost use Rattle.sa_store.specs.Registry.{IsListed};
ghost use Rattle.sa_answer.specs.Taken.{Walks};
ghost use Rattle.sa_answer.specs.Offers.{services_reported, is_offered, offer, offers_of, offers_some, service_bytes, services_offered};
ghost use Rattle.sa_answer.specs.Replying.{padded};

use crate::gid::{gid_of, guid_in};
use crate::outcome::Outcome;
use crate::questions::asks;
use crate::taken::{Stopped, Taken, got_by, table_by};
use mad_layout::SA_DATA_BYTES;
use pkey_rules::key_of;
use sa_records::service_mask::{SERVICE_GID, SERVICE_ID};
use sa_records::{SERVICE_RECORD_BYTES, SERVICE_RECORD_OFFSET, ServiceRecord};
use sa_store::{KeptPort, Service, ServicesOfBase, Store};
use std::alloc::AllocError;
use subnet_model::SubnetPort;

/// A Get by ServiceRecord.
pub(crate) fn got(store: &Store, own: &KeptPort, mask: u64, asked: &ServiceRecord) -> Outcome
    ensures { let state = store.now.administration.remembered in IsListed store.now.configuration.ports own.now.port → Brings state
        (get_outcome store.now.configuration.ports own.now.port state (Some (Query.for_services mask asked.now))) result }
{
    let others = offerers_asked(store, mask, asked);
    let mut taken = Taken::One(None);
    let walked = walk(own, others, mask, asked, &mut taken);
    got_by(taken, walked)
}

/// A GetTable by ServiceRecord.
pub(crate) fn table(
    store: &Store,
    own: &KeptPort,
    mask: u64,
    asked: &ServiceRecord,
) -> Result<Outcome, AllocError>
    ensures { let state = store.now.administration.remembered in IsListed store.now.configuration.ports own.now.port → IfOk result
        (Brings state (table_outcome store.now.configuration.ports own.now.port state (Some (Query.for_services mask asked.now)))) }
{
    let others = offerers_asked(store, mask, asked);
    let mut taken = Taken::All(Vec::new(store.alloc()));
    let walked = walk(own, others, mask, asked, &mut taken);
    let outcome = table_by(taken, walked, SERVICE_RECORD_OFFSET)?;
    Ok(outcome)
}

/// The ports whose services a request can name: that of the GID that it asks, or all.
fn offerers_asked<'a>(store: &'a Store, mask: u64, asked: &ServiceRecord) -> &'a [KeptPort]
    ensures { (own : SubnetPort) → port_with_guid store.now.configuration.ports own.guid ≡ Some own
        → flat_map (services_offered own mask asked.now) result.now ≡ services_selected mask asked.now
        (visible_services store.now.configuration.ports own store.now.administration.remembered.services) }
{
    // What is configured is known once it is said.
    store.known();
    let all = store.kept();
    if asks(mask, SERVICE_GID)
        && let Some(guid) = guid_in(asked.service_gid)
    {
        return store.of_guid(guid);
    }
    all
}

/// Takes the services of these ports that a port is shown and that agree with a request.
fn walk(
    own: &KeptPort,
    others: &[KeptPort],
    mask: u64,
    asked: &ServiceRecord,
    taken: &mut Taken,
) -> Result<(), Stopped>
    ensures { Walks (flat_map (services_reported own.now.port mask asked.now) others.now) taken.old taken.new result }
{
    for other in others {
        walk_port(own, other, mask, asked, taken)?;
    }
    Ok(())
}

/// Takes those of one port.
fn walk_port(
    own: &KeptPort,
    other: &KeptPort,
    mask: u64,
    asked: &ServiceRecord,
    taken: &mut Taken,
) -> Result<(), Stopped>
    ensures { Walks (services_reported own.now.port mask asked.now other.now) taken.old taken.new result }
{
    for place in other.services() {
        if offers_some(own.port(), other.port(), place) {
            walk_base(other.guid(), place, mask, asked, taken)?;
        }
    }
    Ok(())
}

/// Takes those that the port of a GUID has in one base.
fn walk_base(
    guid: u64,
    place: &ServicesOfBase,
    mask: u64,
    asked: &ServiceRecord,
    taken: &mut Taken,
) -> Result<(), Stopped>
    requires { place.now.base < 0x8000 }
    ensures { Walks (map service_bytes (offers_of mask asked.now guid place.now)) taken.old taken.new result }
{
    for service in place.as_slice() {
        if is_of_id(service, mask, asked) {
            if let Some(shown) = agreeing(guid, place.base(), service, mask, asked) {
                taken.take(&bytes_of(&shown))?;
            }
        }
    }
    Ok(())
}

/// Whether there is something in one base of a port, and another one, or itself, is shown it.
fn offers_some(own: &SubnetPort, other: &SubnetPort, place: &ServicesOfBase) -> bool
    ensures { result ≡ offers_some own.now other.now place.now }
{
    !place.as_slice().is_empty() && is_offered(own, other, place.base())
}

/// Whether a port is shown what another one, or itself, offers in the partition of a base.
fn is_offered(own: &SubnetPort, other: &SubnetPort, base: u16) -> bool
    ensures { result ≡ is_offered own.now other.now base }
{
    other.guid == own.guid || shares_base(own, other, base)
}

/// Whether two ports share the partition of a base.
fn shares_base(own: &SubnetPort, other: &SubnetPort, base: u16) -> bool
    ensures { result ≡ shares_base base own.now.keys other.now.keys }
{
    own.keys
        .as_slice()
        .iter()
        .any(|key| key.base() == base && other.keys.accepts(*key))
}

/// Whether a service has the ServiceID that a request asks, if it asks one: all others are passed over at once.
fn is_of_id(service: &Service, mask: u64, asked: &ServiceRecord) -> bool
    ensures { result ≡ passes mask (on service_mask.service_id (service.now.service_id == asked.now.service_id)) }
{
    !asks(mask, SERVICE_ID) || service.service_id() == asked.service_id
}

/// The record of a service, if it agrees with a request.
fn agreeing(
    guid: u64,
    base: u16,
    service: &Service,
    mask: u64,
    asked: &ServiceRecord,
) -> Option<ServiceRecord>
    requires { base < 0x8000 }
    ensures { let shown = service_record_of (offer guid base service.now) in
        result ≡ (if service_record_selected mask shown asked.now then Some shown else None) }
{
    let shown = service_record(guid, base, service);
    if shown.selected_by(mask, asked) {
        Some(shown)
    } else {
        None
    }
}

/// The record of a service that the port of a GUID offers in the partition of a base.
pub(crate) fn service_record(guid: u64, base: u16, service: &Service) -> ServiceRecord
    requires { base < 0x8000 }
    ensures { result ≡ service_record_of (offer guid base service.now) }
{
    ServiceRecord {
        service_id: service.service_id(),
        service_gid: gid_of(guid),
        service_p_key: key_of(base, true),
        service_lease: service.lease(),
        service_key: 0,
        service_name: service.name(),
        service_data: service.numbers(),
    }
}

/// The bytes of a record.
fn bytes_of(service: &ServiceRecord) -> [u8; SERVICE_RECORD_BYTES]
    ensures { result ≡ service_record_bytes service.now }
{
    let mut bytes = [0; SERVICE_RECORD_BYTES];
    service.write(&mut bytes);
    bytes
}

/// The data of a reply with it.
pub(crate) fn data_of(service: &ServiceRecord) -> [u8; SA_DATA_BYTES]
    ensures { result ≡ padded (service_record_bytes service.now) }
{
    let mut data = [0; SA_DATA_BYTES];
    data[..SERVICE_RECORD_BYTES].copy_from_slice(&bytes_of(service));
    data
}
