//! Joins and leaves: Sets and Deletes by MCMemberRecord.

ghost use Rattle.std.specs.Prelude.{◌≡◌, true, Some, IfOk};
ghost use Rattle.subnet_model.specs.Delivery.{port_with_guid};
ghost use Rattle.subnet_model.specs.declared.subnet_port.SubnetPort.{SubnetPort};
ghost use Rattle.sa_replies.specs.Joins.{join_asked, join_outcome, join_refusal, leave_outcome, parameters_asked};
ghost use Rattle.pkey_rules.specs.PKey.{base_of};
ghost use Rattle.sa_store.specs.Members.{place_with_base};
ghost use Rattle.sa_replies.specs.State.{is_fit_group};
ghost use Rattle.sa_answer.specs.Answering.{BringsChange};
ghost use Rattle.sa_store.specs.Registry.{IsRequester};

use crate::change::{Change, ChangeOutcome};
use crate::joins::{group_refusal, join_asked, join_refusal, leave_asked, leave_refusal};
use crate::mc_member::member_data;
use mad_layout::{MadStatus, SA_DATA_BYTES};
use pkey_rules::base_of;
use sa_records::McMemberRecord;
use sa_store::{Join, Requester, Store};
use std::alloc::AllocError;

/// A join: the reply is the record of the group, with the port in it.
pub(crate) fn group_joined(
    store: &mut Store,
    requester: Requester,
    mask: u64,
    asked: &McMemberRecord,
) -> Result<ChangeOutcome, AllocError>
    requires place { IsRequester store.old.configuration.ports requester }
    requires fit { is_fit_group (parameters_asked mask asked.now) ≡ true }
    ensures brings { (own : SubnetPort) → port_with_guid store.old.configuration.ports requester.guid ≡ Some own → IfOk result (λ changed.
        BringsChange store.old (join_outcome store.old.configuration.ports own store.old.administration.remembered mask asked.now)
        changed store.new) }
    ensures configuration { store.new.configuration ≡ store.old.configuration }
{
    if let Some(status) = join_refusal(store.kept_at(requester).port(), mask, asked) {
        return Ok(Err(status));
    }
    let join = join_asked(requester.guid, mask, asked);
    let Some(place) = store.partition_of(base_of(asked.p_key)) else {
        unreachable!()
    };
    if let Some(status) = join_refused(store, place, &join, mask, asked) {
        return Ok(Err(status));
    }
    let numbers = store.join(place, &join)?;
    Ok(Ok(Change {
        data: member_data(store, place, requester.guid, asked.mgid),
        numbers,
    }))
}

/// Why a join is refused by the groups of the partition of its base, which has that place.
fn join_refused(
    store: &Store,
    place: usize,
    join: &Join,
    mask: u64,
    asked: &McMemberRecord,
) -> Option<MadStatus>
    requires place { place_with_base store.now.administration.remembered.partitions (base_of asked.now.p_key) ≡ Some place }
    ensures { (own : SubnetPort) → join.now ≡ join_asked own mask asked.now
        → result ≡ join_refusal store.now.configuration.ports own mask asked.now store.now.administration.remembered.partitions }
{
    // It follows that no two partitions have one base.
    store.known();
    group_refusal(store.partition_at(place), store.may_make(join), mask, asked)
}

/// A leave: the reply has the data of the request.
pub(crate) fn group_left(
    store: &mut Store,
    requester: Requester,
    mask: u64,
    asked: &McMemberRecord,
    content: &[u8; SA_DATA_BYTES],
) -> ChangeOutcome
    requires { IsRequester store.old.configuration.ports requester }
    ensures brings { (own : SubnetPort) → port_with_guid store.old.configuration.ports requester.guid ≡ Some own
        → BringsChange store.old (leave_outcome store.old.configuration.ports own store.old.administration.remembered mask asked.now content.now)
        result store.new }
    ensures configuration { store.new.configuration ≡ store.old.configuration }
{
    let leave = leave_asked(requester.guid, mask, asked);
    let takes = store.takes_some(&leave);
    let own = store.kept_at(requester).port();
    if let Some(status) = leave_refusal(own, mask, asked, takes) {
        return Err(status);
    }
    let numbers = store.leave(&leave);
    Ok(Change {
        data: *content,
        numbers,
    })
}
