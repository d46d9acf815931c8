//! Multicast groups, and who takes part in them.

ghost use Rattle.std.specs.Prelude.{◌≡◌, true, []};
ghost use Rattle.partition_file.specs.Sound.{fits};
ghost use Rattle.sa_model.specs.Groups.{Creator as MadeBy, file_parameters};
ghost use Rattle.sa_replies.specs.State.{is_fit_group};
ghost use Rattle.sa_store.specs.MlidRange.{parameters_of};

use mad_layout::JoinState;
use partition_file::BroadcastGroup;
use std::alloc::Global;
use std::marker::Model;

/// Who made a group.
#[derive(Clone, Copy)]
pub(crate) enum Creator {
    /// The port of this GUID.
    Port(u64),
    /// The partition file.
    PartitionFile,
}

/// What is fixed for a group when it is made, as an MCMemberRecord codes it.
///
/// Source: IBA volume 1, 15.2.5.
#[derive(Clone, Copy)]
pub struct GroupParameters {
    /// Q_Key.
    pub q_key: u32,
    /// The code of its MTU.
    pub mtu: u8,
    /// TClass.
    pub traffic_class: u8,
    /// The code of its rate.
    pub rate: u8,
    /// The code of its PacketLifeTime.
    pub packet_life_time: u8,
    /// SL.
    pub service_level: u8,
    /// FlowLabel.
    pub flow_label: u32,
    /// HopLimit.
    pub hop_limit: u8,
    /// Scope.
    pub scope: u8,
}

/// The port of this GUID takes part in a group.
#[derive(Drop)]
pub(crate) struct Membership {
    pub(crate) port: u64,
    pub(crate) join_state: JoinState,
}

impl Model for Membership {
    ghost use Rattle.sa_model.specs.Groups.{Membership};
    ghost use Rattle.sa_replies.specs.Joins.{join_state_of};

    ghost Value = { Membership };

    ghost view = { λ one. record { port = one.port; join_state = join_state_of one.join_state.0 } };
}

/// A group in its slot: all of it except its MLID, which is that of its slot.
#[derive(Drop)]
pub struct Group {
    pub(crate) mgid: u128,
    pub(crate) parameters: GroupParameters,
    pub(crate) creator: Creator,
    pub(crate) memberships: Vec<Membership>,
}

impl Model for Group {
    ghost use Rattle.std.specs.Prelude.{◌≡◌, true};
    ghost use Rattle.sa_replies.specs.State.{is_fit_group};
    ghost use Rattle.sa_store.specs.MlidRange.{SlotGroup, maker_of, parameters_of};

    ghost Value = { SlotGroup };

    ghost view = { λ group. record {
      mgid = group.mgid;
      parameters = parameters_of group.parameters;
      creator = maker_of group.creator;
      memberships = group.memberships.items;
    } };

    ghost invariant = { λ group. is_fit_group (parameters_of group.parameters) ≡ true };
}

/// The code of the PacketLifeTime of every path and group.
pub const PACKET_LIFE_TIME: u8 = 18;

impl Group {
    /// The group that a partition file makes, in which nobody is yet.
    pub(crate) fn of_file(alloc: Global, mgid: u128, group: &BroadcastGroup) -> Group
        requires { fits group.now ≡ true }
        ensures { result ≡ record {
          mgid = mgid;
          parameters = file_parameters group.now;
          creator = MadeBy.PartitionFile;
          memberships = [];
        } }
    {
        Group {
            mgid,
            parameters: GroupParameters {
                q_key: group.q_key,
                mtu: group.mtu,
                traffic_class: 0,
                rate: group.rate,
                packet_life_time: PACKET_LIFE_TIME,
                service_level: group.service_level,
                flow_label: 0,
                hop_limit: 0,
                scope: group.scope,
            },
            creator: Creator::PartitionFile,
            memberships: Vec::new(alloc),
        }
    }

    /// Its MGID.
    pub fn mgid(&self) -> u128
        ensures { result ≡ self.now.mgid }
    {
        self.mgid
    }

    /// What is fixed for it.
    pub fn parameters(&self) -> GroupParameters
        ensures value { parameters_of result ≡ self.now.parameters }
        ensures fit { is_fit_group self.now.parameters ≡ true }
    {
        self.parameters
    }
}
