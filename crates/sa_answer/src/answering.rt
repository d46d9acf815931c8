//! What comes of what ports send to subnet administration.

ghost use Rattle.std.specs.Prelude.{◌≡◌, ◌==◌, ◌&&◌, ◌<◌, true, length, Some, None, Result, Err, option_map};
ghost use Rattle.std.specs.Prelude.{if◌then◌else◌, IfOk, OnErr, IsErr};
ghost use Rattle.mad_layout.specs.Bits.{field};
ghost use Rattle.subnet_model.specs.Delivery.{port_with_guid};
ghost use Rattle.subnet_model.specs.declared.subnet_port.SubnetPort.{SubnetPort};
ghost use Rattle.mad_layout.specs.declared.status.MadStatus.{MadStatus};
ghost use Rattle.sa_replies.specs.Answer.{after_rmpp, answer_to, answered_with, version_refused};
ghost use Rattle.sa_replies.specs.Success.{Success as Brought};
ghost use Rattle.sa_replies.specs.Transfers.{on_rmpp, table_of};
ghost use Rattle.sa_answer.specs.Answering.{Answers, Brings, BringsChange, CanBeReported, Reacts, answer_to_port};
ghost use Rattle.sa_store.specs.Registry.{IsRequester, RegistryState};

use crate::change::ChangeOutcome;
use crate::dispatch::answered;
use crate::outcome::{Outcome, Success};
use crate::reaction::Reaction;
use crate::registry::Registry;
use crate::reply::{refusal_reply, reply, table_header};
use crate::request::Request;
use crate::transfers::{on_rmpp, only};
use mad_layout::{Mad, MadStatus, get_bits};
use rmpp_core::{SA_CLASS, Sender};
use sa_store::{Requester, Store};
use std::alloc::{AllocError, Global};

impl Registry {
    /// Takes what the port of a GUID sends, and answers it. What is no MAD of subnet administration, or comes from no port of
    /// the subnet, is not answered.
    ///
    /// It can only run out of memory, and then for good.
    pub fn handle(&mut self, port: u64, payload: &[u8]) -> Result<Reaction, AllocError>
        ensures reacts { IfOk result (λ reaction.
            Reacts (answer_to_port self.old.configuration.ports port payload.now self.old.administration) reaction self.old self.new) }
        ensures broken { self.old.is_broken ≡ true → IsErr result }
        ensures for_good { OnErr result (self.new.is_broken ≡ true) }
        ensures stays { self.old.is_broken ≡ true → self.new ≡ self.old }
        ensures configuration { self.new.configuration ≡ self.old.configuration }
    {
        if self.store.is_broken() {
            return Err(AllocError);
        }
        match reaction(&mut self.store, port, payload) {
            Ok(reaction) => Ok(reaction),
            Err(error) => {
                self.store.fail();
                Err(error)
            }
        }
    }
}

fn reaction(store: &mut Store, port: u64, payload: &[u8]) -> Result<Reaction, AllocError>
    ensures reacts { IfOk result (λ reaction.
        Reacts (answer_to_port store.old.configuration.ports port payload.now store.old.administration) reaction store.old store.new) }
    ensures configuration { store.new.configuration ≡ store.old.configuration }
{
    let Some(requester) = store.requester(port) else {
        return Ok(Reaction::answered(Vec::new(store.alloc())));
    };
    match sa_mad_of(payload) {
        Some(mad) => {
            let reaction = reaction_to(store, requester, &Request::read(mad))?;
            Ok(reaction)
        }
        None => Ok(Reaction::answered(Vec::new(store.alloc()))),
    }
}

/// Takes a MAD of subnet administration, by the first of these cases that holds: a version that is not ours, a MAD of a
/// transfer, a response, a request.
fn reaction_to(
    store: &mut Store,
    requester: Requester,
    request: &Request,
) -> Result<Reaction, AllocError>
    requires { IsRequester store.old.configuration.ports requester }
    ensures reacts { (own : SubnetPort) → port_with_guid store.old.configuration.ports requester.guid ≡ Some own
        → IfOk result (λ reaction.
        Reacts (answer_to store.old.configuration.ports own request.now store.old.administration) reaction store.old store.new) }
    ensures configuration { store.new.configuration ≡ store.old.configuration }
{
    if !request.has_versions() {
        return Ok(Reaction::answered(version_refused(store, request)?));
    }
    if request.is_active() {
        return Ok(Reaction::answered(after_rmpp(store, requester, request)?));
    }
    if request.is_response() {
        return Ok(Reaction::answered(Vec::new(store.alloc())));
    }
    let reaction = answered(store, requester, request)?;
    Ok(reaction)
}

/// Refuses a request of a version that is not ours.
fn version_refused(store: &Store, request: &Request) -> Result<Vec<Mad>, AllocError>
    ensures { IfOk result (λ mads. mads.items ≡ version_refused request.now) }
{
    if request.is_response() {
        return Ok(Vec::new(store.alloc()));
    }
    only(store.alloc(), refusal_reply(request, MadStatus::BadVersion))
}

/// Answers a MAD of a transfer.
fn after_rmpp(
    store: &mut Store,
    requester: Requester,
    request: &Request,
) -> Result<Vec<Mad>, AllocError>
    requires { IsRequester store.old.configuration.ports requester }
    ensures configuration { store.new.configuration ≡ store.old.configuration }
    ensures answers { (own : SubnetPort) → own.guid ≡ requester.guid → IfOk result (λ mads.
        Answers (after_rmpp own store.old.administration (on_rmpp request.now (table_of own.guid store.old.administration.transfers)))
        mads.items store.old store.new) }
{
    let table = store.replace_table(requester, None);
    let (mads, table) = on_rmpp(store.alloc(), table, request)?;
    store.replace_table(requester, table);
    Ok(mads)
}

/// Answers a query: by one reply, or by the first segment of a table, whose transfer takes the place of one that is in progress to
/// the port.
pub(crate) fn records_answered(
    store: &mut Store,
    requester: Requester,
    request: &Request,
    outcome: Outcome,
) -> Result<Reaction, AllocError>
    requires place { IsRequester store.old.configuration.ports requester }
    requires method { request.now.header.method < 128 }
    requires reported { CanBeReported outcome }
    ensures configuration { store.new.configuration ≡ store.old.configuration }
    ensures reacts { (own : SubnetPort) (brought : Result Brought MadStatus) → own.guid ≡ requester.guid
        → Brings store.old.administration.remembered brought outcome → IfOk result (λ reaction.
        Reacts (answered_with own request.now store.old.administration brought) reaction store.old store.new) }
{
    let alloc = store.alloc();
    match outcome {
        Err(status) => refused(alloc, request, status),
        Ok(Success::Reply(data)) => {
            let replies = only(alloc, reply(request, &data))?;
            Ok(Reaction::answered(replies))
        }
        Ok(Success::Table { spacing, bytes }) => {
            let sender = Sender::open(alloc, table_header(request, spacing), &bytes)?;
            let replies = only(alloc, sender.segment(1))?;
            store.replace_table(requester, Some(sender));
            Ok(Reaction::answered(replies))
        }
    }
}

/// Refuses a request.
pub(crate) fn refused(
    alloc: Global,
    request: &Request,
    status: MadStatus,
) -> Result<Reaction, AllocError>
    requires { request.now.header.method < 128 }
    ensures { (own : SubnetPort) (state : RegistryState) → IfOk result (λ reaction.
        Reacts (answered_with own request.now state.administration (Err status)) reaction state state) }
{
    let replies = only(alloc, refusal_reply(request, status))?;
    Ok(Reaction::answered(replies))
}

/// Answers a Set or a Delete, by one reply.
pub(crate) fn change_answered(
    alloc: Global,
    request: &Request,
    outcome: ChangeOutcome,
) -> Result<Reaction, AllocError>
    requires { request.now.header.method < 128 }
    ensures { (own : SubnetPort) (brought : Result Brought MadStatus) (before after : RegistryState)
        → BringsChange before brought outcome after → IfOk result (λ reaction.
        Reacts (answered_with own request.now before.administration brought) reaction before after) }
{
    match outcome {
        Err(status) => refused(alloc, request, status),
        Ok(change) => {
            let replies = only(alloc, reply(request, &change.data))?;
            Ok(Reaction {
                replies,
                changed: change.numbers,
            })
        }
    }
}

/// The payload as a MAD of subnet administration, if it is one.
fn sa_mad_of(payload: &[u8]) -> Option<&Mad>
    ensures { option_map (λ mad. mad.now) result
        ≡ (if (length payload.now == 256) && (field payload.now 8 8 == 3) then Some payload.now else None) }
{
    let mad: &Mad = payload.try_into().ok()?;
    if get_bits::<8, 8>(mad) == u64::from(SA_CLASS) {
        Some(mad)
    } else {
        None
    }
}
