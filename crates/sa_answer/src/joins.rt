//! Why a port may not join a multicast group or leave it, and what a group is made of.

ghost use Rattle.std.specs.Prelude.{◌≡◌, ◌<◌, ◌/◌, true, not, Some, None, List};
ghost use Rattle.subnet_model.specs.declared.subnet_port.SubnetPort.{SubnetPort};
ghost use Rattle.sa_model.specs.Joining.{may_create};
ghost use Rattle.sa_model.specs.Refusals.{first_refusal};
ghost use Rattle.pkey_rules.specs.PKey.{base_of};
ghost use Rattle.sa_replies.specs.Joins.{agrees_with, founding_by, is_join_state, is_multicast, join_asked, join_questions};
ghost use Rattle.sa_replies.specs.Joins.{leave_asked, leaving_by};
ghost use Rattle.sa_replies.specs.Joins.{parameters_asked};
ghost use Rattle.sa_replies.specs.State.{is_fit_group};
ghost use Rattle.sa_answer.specs.JoinQuestions.{questions_in};
ghost use Rattle.sa_store.specs.MlidRange.{with_mlid};

use crate::gid::gid_of;
use crate::mc_member::group_record;
use crate::parameters::{life_taken, mtu_taken, parameters_asked, rate_taken};
use crate::questions::{asks, asks_unknown_mtu, asks_unknown_rate, first_refusal, refused_if};
use mad_layout::{JoinState, MadStatus};
use pkey_rules::base_of;
use sa_records::McMemberRecord;
use sa_records::member_mask::{
    FLOW_LABEL, HOP_LIMIT, JOIN_STATE, MGID, P_KEY, PORT_GID, PROXY_JOIN, Q_KEY, SCOPE,
    SELECTED_LIFE_TIME, SELECTED_MTU, SELECTED_RATE, SL, T_CLASS,
};
use sa_store::{Group, Join, Leave, MlidRange, is_in};
use subnet_model::SubnetPort;

/// What a group is asked to agree with: all but what names it, and MLID and ProxyJoin.
const COMPARED: u64 = Q_KEY
    | SELECTED_MTU
    | T_CLASS
    | SELECTED_RATE
    | SELECTED_LIFE_TIME
    | SL
    | FLOW_LABEL
    | HOP_LIMIT
    | SCOPE;

/// Why a join is refused, whatever groups there are.
pub(crate) fn join_refusal(own: &SubnetPort, mask: u64, asked: &McMemberRecord) -> Option<MadStatus>
    ensures { result ≡ first_refusal (join_questions own.now mask asked.now) }
{
    first_refusal(&[
        refused_if(
            !asks(mask, MGID | PORT_GID | P_KEY | JOIN_STATE),
            MadStatus::InsufficientComponents,
        ),
        refused_if(asked.port_gid != gid_of(own.guid), MadStatus::InvalidGid),
        refused_if(!is_multicast(asked.mgid), MadStatus::RequestInvalid),
        refused_if(!is_in(own, base_of(asked.p_key)), MadStatus::RequestInvalid),
        refused_if(!is_join_state(asked.join_state), MadStatus::RequestInvalid),
        refused_if(
            asks(mask, PROXY_JOIN) && asked.proxy_join,
            MadStatus::RequestInvalid,
        ),
        refused_if(
            asks_unknown_mtu(mask, SELECTED_MTU, asked.mtu),
            MadStatus::RequestInvalid,
        ),
        refused_if(
            asks_unknown_rate(mask, SELECTED_RATE, asked.rate),
            MadStatus::RequestInvalid,
        ),
    ])
}

/// Why the groups of the partition refuse a join. `may_make` says whether the port may create a group.
pub(crate) fn group_refusal(
    partition: &MlidRange,
    may_make: bool,
    mask: u64,
    asked: &McMemberRecord,
) -> Option<MadStatus>
    requires { partition.now.base ≡ base_of asked.now.p_key }
    ensures { (ports : List SubnetPort) (own : SubnetPort) → may_create ports (join_asked own mask asked.now) ≡ may_make
        → result ≡ first_refusal (questions_in ports own mask asked.now partition.now) }
{
    match partition.named(asked.mgid) {
        Some((mlid, group)) => first_refusal(&[refused_if(
            !agrees_with(group, partition.base(), mlid, mask, asked),
            MadStatus::RequestInvalid,
        )]),
        None => founding_refusal(may_make, mask, asked, partition.has_free()),
    }
}

/// Whether a group of the partition of a base that has an MLID agrees with what a join asks.
fn agrees_with(group: &Group, base: u16, mlid: u16, mask: u64, asked: &McMemberRecord) -> bool
    requires { base < 0x8000 }
    ensures { result ≡ agrees_with mask asked.now base (with_mlid mlid group.now) }
{
    group_record(group, base, mlid).selected_by(mask & COMPARED, asked)
}

/// Why no group is made for a join to one that is not there: whether the port may make one, and whether an MLID is free, is
/// known already.
fn founding_refusal(
    may_make: bool,
    mask: u64,
    asked: &McMemberRecord,
    has_free: bool,
) -> Option<MadStatus>
    ensures { (ports : List SubnetPort) (own : SubnetPort) → may_create ports (join_asked own mask asked.now) ≡ may_make
        → result ≡ first_refusal (founding_by ports own mask asked.now has_free) }
{
    first_refusal(&[
        refused_if(!may_make, MadStatus::RequestInvalid),
        refused_if(
            !asks(mask, Q_KEY | T_CLASS | SL | FLOW_LABEL),
            MadStatus::InsufficientComponents,
        ),
        refused_if(mtu_taken(mask, asked).is_none(), MadStatus::RequestInvalid),
        refused_if(rate_taken(mask, asked).is_none(), MadStatus::RequestInvalid),
        refused_if(life_taken(mask, asked).is_none(), MadStatus::RequestInvalid),
        refused_if(!has_free, MadStatus::NoResources),
    ])
}

/// Why a leave is refused: whether it takes some bit of a membership is known already.
pub(crate) fn leave_refusal(
    own: &SubnetPort,
    mask: u64,
    asked: &McMemberRecord,
    takes: bool,
) -> Option<MadStatus>
    ensures { result ≡ first_refusal (leaving_by own.now mask asked.now takes) }
{
    first_refusal(&[
        refused_if(
            !asks(mask, MGID | PORT_GID | JOIN_STATE),
            MadStatus::InsufficientComponents,
        ),
        refused_if(asked.port_gid != gid_of(own.guid), MadStatus::InvalidGid),
        refused_if(asked.join_state == 0, MadStatus::RequestInvalid),
        refused_if(
            asks(mask, P_KEY) && !is_in(own, base_of(asked.p_key)),
            MadStatus::RequestInvalid,
        ),
        refused_if(!takes, MadStatus::RequestInvalid),
    ])
}

fn is_multicast(mgid: u128) -> bool
    ensures { result ≡ is_multicast mgid }
{
    mgid >> 120 == 0xff
}

/// Some bit that stands for a way to take part, and no other.
fn is_join_state(bits: u8) -> bool
    ensures { result ≡ is_join_state bits }
{
    1 <= bits && bits < 8
}

/// The join that a port asks.
pub(crate) fn join_asked(port: u64, mask: u64, asked: &McMemberRecord) -> Join
    requires { is_fit_group (parameters_asked mask asked.now) ≡ true }
    ensures { (own : SubnetPort) → own.guid ≡ port → result ≡ join_asked own mask asked.now }
{
    Join::new(
        port,
        base_of(asked.p_key),
        asked.mgid,
        JoinState(asked.join_state),
        parameters_asked(mask, asked),
    )
}

/// The leave that a port asks: in the partition of its P_Key, if it asks one.
pub(crate) fn leave_asked(port: u64, mask: u64, asked: &McMemberRecord) -> Leave
    ensures { (own : SubnetPort) → own.guid ≡ port → result ≡ leave_asked own mask asked.now }
{
    let base = if asks(mask, P_KEY) {
        Some(base_of(asked.p_key))
    } else {
        None
    };
    Leave::new(port, base, asked.mgid, JoinState(asked.join_state))
}
