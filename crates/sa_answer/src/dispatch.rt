//! Each request is answered by what it wants.

ghost use Rattle.std.specs.Prelude.{◌≡◌, ◌<◌, Some, IfOk};
ghost use Rattle.subnet_model.specs.Delivery.{port_with_guid};
ghost use Rattle.subnet_model.specs.declared.subnet_port.SubnetPort.{SubnetPort};
ghost use Rattle.sa_replies.specs.Answer.{answered_with, get_outcome, outcome, table_outcome};
ghost use Rattle.sa_answer.specs.Answering.{Brings, Reacts};
ghost use Rattle.sa_answer.specs.Wanted.{query_about};
ghost use Rattle.sa_store.specs.Registry.{IsListed, IsRequester};

use crate::answering::{change_answered, records_answered, refused};
use crate::group_requests::{group_joined, group_left};
use crate::outcome::Outcome;
use crate::reaction::Reaction;
use crate::request::Request;
use crate::service_requests::{service_deleted, service_set};
use crate::wanted::Wanted;
use crate::{mc_member, node, path, service};
use sa_records::{McMemberRecord, NodeRecord, PathRecord, SaAttribute, ServiceRecord};
use sa_store::{KeptPort, Requester, Store};
use std::alloc::AllocError;

/// Answers a request.
pub(crate) fn answered(
    store: &mut Store,
    requester: Requester,
    request: &Request,
) -> Result<Reaction, AllocError>
    requires place { IsRequester store.old.configuration.ports requester }
    requires method { request.now.header.method < 128 }
    ensures configuration { store.new.configuration ≡ store.old.configuration }
    ensures reacts { (own : SubnetPort) → port_with_guid store.old.configuration.ports requester.guid ≡ Some own → IfOk result (λ reaction.
        Reacts (answered_with own request.now store.old.administration
        (outcome store.old.configuration.ports own store.old.administration.remembered request.now)) reaction store.old store.new) }
{
    let alloc = store.alloc();
    let mask = request.component_mask;
    let content = &request.content;
    // What may be remembered of the subnet, and so how long a table can be, is known once it is said.
    store.known();
    match request.wanted() {
        Wanted::Get(attribute) => {
            let outcome = got(store, store.kept_at(requester), attribute, request);
            records_answered(store, requester, request, outcome)
        }
        Wanted::GetTable(attribute) => {
            let outcome = table(store, store.kept_at(requester), attribute, request)?;
            records_answered(store, requester, request, outcome)
        }
        Wanted::Join => {
            let outcome = group_joined(store, requester, mask, &McMemberRecord::read(content))?;
            change_answered(alloc, request, outcome)
        }
        Wanted::Leave => {
            let asked = McMemberRecord::read(content);
            let outcome = group_left(store, requester, mask, &asked, content);
            change_answered(alloc, request, outcome)
        }
        Wanted::SetService => {
            let outcome = service_set(store, requester, mask, &ServiceRecord::read(content))?;
            change_answered(alloc, request, outcome)
        }
        Wanted::DeleteService => {
            let asked = ServiceRecord::read(content);
            let outcome = service_deleted(store, requester, mask, &asked, content);
            change_answered(alloc, request, outcome)
        }
        Wanted::Refused(status) => refused(alloc, request, status),
    }
}

/// What comes of a Get by a record of this kind.
fn got(store: &Store, own: &KeptPort, attribute: SaAttribute, request: &Request) -> Outcome
    ensures { let state = store.now.administration.remembered in IsListed store.now.configuration.ports own.now.port
        → Brings state (get_outcome store.now.configuration.ports own.now.port state (Some (query_about attribute request.now))) result }
{
    let mask = request.component_mask;
    let content = &request.content;
    match attribute {
        SaAttribute::NodeRecord => node::got(store, own, mask, &NodeRecord::read(content)),
        SaAttribute::PathRecord => path::got(store, own, mask, &PathRecord::read(content)),
        SaAttribute::McMemberRecord => {
            mc_member::got(store, own, mask, &McMemberRecord::read(content))
        }
        SaAttribute::ServiceRecord => service::got(store, own, mask, &ServiceRecord::read(content)),
    }
}

/// What comes of a GetTable by a record of this kind.
fn table(
    store: &Store,
    own: &KeptPort,
    attribute: SaAttribute,
    request: &Request,
) -> Result<Outcome, AllocError>
    ensures { let state = store.now.administration.remembered in IsListed store.now.configuration.ports own.now.port
        → IfOk result (Brings state (table_outcome store.now.configuration.ports own.now.port state (Some (query_about attribute request.now)))) }
{
    let mask = request.component_mask;
    let content = &request.content;
    match attribute {
        SaAttribute::NodeRecord => node::table(store, own, mask, &NodeRecord::read(content)),
        SaAttribute::PathRecord => path::table(store, own, mask, &PathRecord::read(content)),
        SaAttribute::McMemberRecord => {
            mc_member::table(store, own, mask, &McMemberRecord::read(content))
        }
        SaAttribute::ServiceRecord => {
            service::table(store, own, mask, &ServiceRecord::read(content))
        }
    }
}
