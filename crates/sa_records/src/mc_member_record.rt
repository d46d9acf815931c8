//! MCMemberRecord.

ghost use Rattle.std.specs.Prelude.{◌≡◌, replicate};
ghost use Rattle.mad_layout.specs.Layout.{Holds, Fits, put_all, Encodes};
ghost use Rattle.sa_records.specs.Asked.{asked_by, bits_of, with_value};
ghost use Rattle.sa_records.specs.McMemberRecord.{group_in, mc_member_record, mc_member_record_asked, mc_member_record_bytes, mc_member_record_selected};

use crate::asked::{component_agrees, flag, is_word, selected, set_asked, set_field};
use crate::component::{agrees, code_satisfies, rate_satisfies, same_base};
use crate::member_mask as mask;
use mad_layout::{JoinState, SA_DATA_BYTES, read_fields, write_fields};

/// How many bytes an MCMemberRecord fills in a table: its 52, and zero bytes up to a multiple of 8.
pub const MC_MEMBER_RECORD_BYTES: usize = 56;

/// AttributeOffset of a table of MCMemberRecords: the same in units of 8 bytes.
pub const MC_MEMBER_RECORD_OFFSET: u16 = (MC_MEMBER_RECORD_BYTES / 8) as u16;

/// A multicast group, and how a port is a member of it, each field as its raw bits.
///
/// Source: IBA volume 1, 15.2.5 (MCMemberRecord).
#[derive(Clone, Copy, Debug, PartialEq, Eq)]
pub struct McMemberRecord {
    /// The GID of the group.
    pub mgid: u128,
    /// The GID of the port that is a member.
    pub port_gid: u128,
    /// The key of the queue pairs of the group.
    pub q_key: u32,
    /// The multicast LID of the group.
    pub mlid: u16,
    /// How the MTU is compared, 2 bits.
    pub mtu_selector: u8,
    /// The code of the longest packet, 6 bits.
    pub mtu: u8,
    /// The class of traffic between subnets.
    pub t_class: u8,
    /// The key of the partition.
    pub p_key: u16,
    /// How the rate is compared, 2 bits.
    pub rate_selector: u8,
    /// The code of the rate, 6 bits.
    pub rate: u8,
    /// How the PacketLifeTime is compared, 2 bits.
    pub packet_life_time_selector: u8,
    /// The code of how long a packet may be on its way, 6 bits.
    pub packet_life_time: u8,
    /// The service level, 4 bits.
    pub sl: u8,
    /// The flow of packets between subnets, 20 bits.
    pub flow_label: u32,
    /// How many routers a packet may pass.
    pub hop_limit: u8,
    /// How far the group reaches, 4 bits.
    pub scope: u8,
    /// How the port is a member, 4 bits. [`McMemberRecord::join_state`] names them.
    pub join_state: u8,
    /// Whether another port joined for this one.
    pub proxy_join: bool,
}

/// MCMemberRecord (IBA volume 1, 15.2.5): field, type, first bit, bits.
macro_rules! mc_member_record_layout {
    ($then:ident!($($context:tt)*)) => {
        $then!($($context)*;
            mgid: u128, 0, 128;
            port_gid: u128, 128, 128;
            q_key: u32, 256, 32;
            mlid: u16, 288, 16;
            mtu_selector: u8, 304, 2;
            mtu: u8, 306, 6;
            t_class: u8, 312, 8;
            p_key: u16, 320, 16;
            rate_selector: u8, 336, 2;
            rate: u8, 338, 6;
            packet_life_time_selector: u8, 344, 2;
            packet_life_time: u8, 346, 6;
            sl: u8, 352, 4;
            flow_label: u32, 356, 20;
            hop_limit: u8, 376, 8;
            scope: u8, 384, 4;
            join_state: u8, 388, 4;
            proxy_join: bool, 392, 1;
        )
    };
}

/// What groups are asked by (IBA volume 1, 15.2.5): word in scripts, bits of the ComponentMask, field, type, bits, and
/// how it constrains.
macro_rules! mc_member_record_components {
    ($then:ident!($($context:tt)*)) => {
        $then!($($context)*;
            b"mgid", mask::MGID, mgid: u128, 128, equal;
            b"portgid", mask::PORT_GID, port_gid: u128, 128, equal;
            b"qkey", mask::Q_KEY, q_key: u32, 32, equal;
            b"mlid", mask::MLID, mlid: u16, 16, equal;
            b"mtusel", mask::MTU_SELECTOR, mtu_selector: u8, 2, alone;
            b"mtu", mask::MTU, mtu: u8, 6, (code mtu_selector mask::SELECTED_MTU);
            b"tclass", mask::T_CLASS, t_class: u8, 8, equal;
            b"pkey", mask::P_KEY, p_key: u16, 16, base;
            b"ratesel", mask::RATE_SELECTOR, rate_selector: u8, 2, alone;
            b"rate", mask::RATE, rate: u8, 6, (rate rate_selector mask::SELECTED_RATE);
            b"lifesel", mask::PACKET_LIFE_TIME_SELECTOR, packet_life_time_selector: u8, 2, alone;
            b"life", mask::PACKET_LIFE_TIME, packet_life_time: u8, 6, (code packet_life_time_selector mask::SELECTED_LIFE_TIME);
            b"sl", mask::SL, sl: u8, 4, equal;
            b"flow", mask::FLOW_LABEL, flow_label: u32, 20, equal;
            b"hop", mask::HOP_LIMIT, hop_limit: u8, 8, equal;
            b"scope", mask::SCOPE, scope: u8, 4, equal;
            b"join", mask::JOIN_STATE, join_state: u8, 4, equal;
            b"proxy", mask::PROXY_JOIN, proxy_join: bool, 1, equal;
        )
    };
}

impl McMemberRecord {
    /// Reads the record that the data of a MAD of subnet administration begin with; bits outside its fields are not
    /// looked at.
    pub fn read(bytes: &[u8; SA_DATA_BYTES]) -> McMemberRecord
        ensures fields { Holds bytes.now (mc_member_record result) }
        ensures fits { Fits (mc_member_record result) }
        ensures value { result ≡ group_in bytes.now }
    {
        Self::fields_of(bytes)
    }

    /// The record that asks by nothing: each of its fields is 0.
    pub fn blank() -> McMemberRecord
        ensures zeros { mc_member_record_bytes result ≡ replicate 56 0 }
        ensures fits { Fits (mc_member_record result) }
    {
        Self::read(&[0; SA_DATA_BYTES])
    }

    /// Writes the record; every bit outside its fields is 0.
    pub fn write(&self, bytes: &mut [u8; MC_MEMBER_RECORD_BYTES])
        requires { Fits (mc_member_record self.now) }
        ensures encodes { Encodes bytes.new (mc_member_record self.now) }
        ensures bytes { bytes.new ≡ mc_member_record_bytes self.now }
    {
        self.put_over_zeros(bytes);
    }

    /// JoinState as a set.
    pub fn join_state(&self) -> JoinState
        ensures { result.0 ≡ self.now.join_state }
    {
        JoinState(self.join_state)
    }

    /// Whether the record agrees with `asked` on every component that the mask names.
    #[tactic(auto, unfolding(crate::specs::McMemberRecord::mc_member_record_selected))]
    pub fn selected_by(&self, mask: u64, asked: &McMemberRecord) -> bool
        ensures { result ≡ mc_member_record_selected mask self.now asked.now }
    {
        mc_member_record_components!(selected!(self asked mask))
    }

    /// Asks by the field of this name: sets its value, and gives the bits of the ComponentMask that name it. None, and
    /// nothing is set, if groups have no such field or the value is wider than it.
    pub fn ask_by(&mut self, field: &[u8], value: u128) -> Option<u64>
        ensures bits { result ≡ bits_of (asked_by field.now value mc_member_record_asked) }
        ensures set { mc_member_record self.new ≡ with_value value (asked_by field.now value mc_member_record_asked)
            (mc_member_record self.old) }
        ensures fits { Fits (mc_member_record self.old) → Fits (mc_member_record self.new) }
    {
        self.set_by(field, value)
    }

    #[tactic(auto, unfolding(crate::specs::Asked::asked_by))]
    fn set_by(&mut self, field: &[u8], value: u128) -> Option<u64>
        ensures bits { result ≡ bits_of (asked_by field.now value mc_member_record_asked) }
        ensures set { mc_member_record self.new ≡ with_value value (asked_by field.now value mc_member_record_asked)
            (mc_member_record self.old) }
    {
        mc_member_record_components!(set_asked!(self field value))
    }

    #[tactic(auto, unfolding(crate::specs::McMemberRecord::group_in))]
    fn fields_of(bytes: &[u8; SA_DATA_BYTES]) -> McMemberRecord
        ensures fields { Holds bytes.now (mc_member_record result) }
        ensures value { result ≡ group_in bytes.now }
    {
        mc_member_record_layout!(read_fields!(McMemberRecord bytes))
    }

    fn put_over_zeros(&self, bytes: &mut [u8; MC_MEMBER_RECORD_BYTES])
        requires { Fits (mc_member_record self.now) }
        ensures { bytes.new ≡ put_all (replicate 56 0) (mc_member_record self.now) }
    {
        *bytes = [0; MC_MEMBER_RECORD_BYTES];
        mc_member_record_layout!(write_fields!(self bytes))
    }
}
