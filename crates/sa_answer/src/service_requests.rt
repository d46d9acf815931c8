//! Sets and Deletes by ServiceRecord.

ghost use Rattle.std.specs.Prelude.{◌≡◌, ◌<◌, true, Some, IfOk};
ghost use Rattle.pkey_rules.specs.PKey.{base_of};
ghost use Rattle.subnet_model.specs.Delivery.{port_with_guid};
ghost use Rattle.subnet_model.specs.declared.subnet_port.SubnetPort.{SubnetPort};
ghost use Rattle.sa_model.specs.Members.{is_in};
ghost use Rattle.sa_model.specs.Refusals.{first_refusal};
ghost use Rattle.sa_replies.specs.ServiceRequests.{owner_questions, service_asked, service_deleted, service_set};
ghost use Rattle.sa_replies.specs.State.{is_fit_service};
ghost use Rattle.sa_answer.specs.Answering.{BringsChange};
ghost use Rattle.sa_store.specs.Registry.{IsRequester};

use crate::change::{Change, ChangeOutcome};
use crate::gid::gid_of;
use crate::questions::{asks, first_refusal, refused_if};
use crate::service::{data_of, service_record};
use mad_layout::{MadStatus, SA_DATA_BYTES};
use pkey_rules::base_of;
use sa_records::ServiceRecord;
use sa_records::service_mask::{
    SERVICE_GID, SERVICE_ID, SERVICE_LEASE, SERVICE_NAME, SERVICE_P_KEY,
};
use sa_store::{Requester, Service, Store, is_in};
use std::alloc::AllocError;
use subnet_model::SubnetPort;

/// What a request to offer or to withdraw a service has to name.
const REQUIRED: u64 = SERVICE_ID | SERVICE_GID | SERVICE_P_KEY;

/// A Set of a ServiceRecord: the reply is the record as it is shown.
pub(crate) fn service_set(
    store: &mut Store,
    requester: Requester,
    mask: u64,
    asked: &ServiceRecord,
) -> Result<ChangeOutcome, AllocError>
    requires { IsRequester store.old.configuration.ports requester }
    ensures brings { (own : SubnetPort) → port_with_guid store.old.configuration.ports requester.guid ≡ Some own → IfOk result (λ changed.
        BringsChange store.old (service_set own store.old.administration.remembered mask asked.now) changed store.new) }
    ensures configuration { store.new.configuration ≡ store.old.configuration }
{
    if let Some(status) = owner_refusal(store.kept_at(requester).port(), mask, asked) {
        return Ok(Err(status));
    }
    let base = base_of(asked.service_p_key);
    let service = service_asked(mask, asked);
    let data = data_of(&service_record(requester.guid, base, &service));
    if !store.set_service(requester, base, service)? {
        return Ok(Err(MadStatus::NoResources));
    }
    Ok(Ok(Change::of_no_receivers(data)))
}

/// A Delete of a ServiceRecord: the reply has the data of the request.
pub(crate) fn service_deleted(
    store: &mut Store,
    requester: Requester,
    mask: u64,
    asked: &ServiceRecord,
    content: &[u8; SA_DATA_BYTES],
) -> ChangeOutcome
    requires { IsRequester store.old.configuration.ports requester }
    ensures brings { (own : SubnetPort) → port_with_guid store.old.configuration.ports requester.guid ≡ Some own
        → BringsChange store.old (service_deleted own store.old.administration.remembered mask asked.now content.now) result store.new }
    ensures configuration { store.new.configuration ≡ store.old.configuration }
{
    if let Some(status) = owner_refusal(store.kept_at(requester).port(), mask, asked) {
        return Err(status);
    }
    let base = base_of(asked.service_p_key);
    if !store.delete_service(requester, base, asked.service_id) {
        return Err(MadStatus::NoRecords);
    }
    Ok(Change::of_no_receivers(*content))
}

/// Why a port may not set or delete a service.
fn owner_refusal(own: &SubnetPort, mask: u64, asked: &ServiceRecord) -> Option<MadStatus>
    ensures { result ≡ first_refusal (owner_questions own.now mask asked.now) }
{
    first_refusal(&[
        refused_if(!asks(mask, REQUIRED), MadStatus::InsufficientComponents),
        refused_if(asked.service_gid != gid_of(own.guid), MadStatus::InvalidGid),
        refused_if(
            !is_in(own, base_of(asked.service_p_key)),
            MadStatus::RequestInvalid,
        ),
    ])
}

/// The service that a request asks to set: what the mask does not ask is 0.
fn service_asked(mask: u64, asked: &ServiceRecord) -> Service
    ensures value { result ≡ service_asked mask asked.now }
    ensures fit { is_fit_service result ≡ true }
{
    let lease = if asks(mask, SERVICE_LEASE) {
        asked.service_lease
    } else {
        0
    };
    let name = if asks(mask, SERVICE_NAME) {
        asked.service_name
    } else {
        [0; 64]
    };
    Service::new(asked.service_id, lease, name, asked.numbers_asked(mask))
}
