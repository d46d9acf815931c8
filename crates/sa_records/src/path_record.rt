//! PathRecord.

ghost use Rattle.std.specs.Prelude.{◌≡◌, replicate};
ghost use Rattle.mad_layout.specs.Layout.{Holds, Fits, put_all, Encodes};
ghost use Rattle.sa_records.specs.Asked.{asked_by, bits_of, with_value};
ghost use Rattle.sa_records.specs.PathRecord.{path_in, path_record, path_record_asked, path_record_bytes, path_record_selected};

use crate::asked::{component_agrees, flag, is_word, selected, set_asked, set_field};
use crate::component::{agrees, code_satisfies, rate_satisfies, same_base};
use crate::path_mask as mask;
use mad_layout::{SA_DATA_BYTES, read_fields, write_fields};

/// How many bytes a PathRecord fills in a table.
pub const PATH_RECORD_BYTES: usize = 64;

/// AttributeOffset of a table of PathRecords: the same in units of 8 bytes.
pub const PATH_RECORD_OFFSET: u16 = (PATH_RECORD_BYTES / 8) as u16;

/// A path between two ports, each field as its raw bits.
///
/// Source: IBA volume 1, 15.2.5.
#[derive(Clone, Copy, Debug, PartialEq, Eq)]
pub struct PathRecord {
    /// The service that the path is to serve.
    pub service_id: u64,
    /// The GID of the port that the path leads to.
    pub dgid: u128,
    /// The GID of the port that it comes from.
    pub sgid: u128,
    /// The LID of the port that it leads to.
    pub dlid: u16,
    /// The LID of the port that it comes from.
    pub slid: u16,
    /// Whether raw packets go over it.
    pub raw_traffic: bool,
    /// The flow of packets between subnets, 20 bits.
    pub flow_label: u32,
    /// How many routers a packet may pass.
    pub hop_limit: u8,
    /// The class of traffic between subnets.
    pub t_class: u8,
    /// Whether packets can go back by it.
    pub reversible: bool,
    /// How many paths are asked for at most, 7 bits.
    pub numb_path: u8,
    /// The key of the partition.
    pub p_key: u16,
    /// The class of service, 12 bits.
    pub qos_class: u16,
    /// The service level, 4 bits.
    pub sl: u8,
    /// How the MTU is compared, 2 bits.
    pub mtu_selector: u8,
    /// The code of the longest packet, 6 bits.
    pub mtu: u8,
    /// How the rate is compared, 2 bits.
    pub rate_selector: u8,
    /// The code of the rate, 6 bits.
    pub rate: u8,
    /// How the PacketLifeTime is compared, 2 bits.
    pub packet_life_time_selector: u8,
    /// The code of how long a packet may be on its way, 6 bits.
    pub packet_life_time: u8,
    /// Which of several paths is preferred.
    pub preference: u8,
}

/// PathRecord (IBA volume 1, 15.2.5): field, type, first bit, bits.
macro_rules! path_record_layout {
    ($then:ident!($($context:tt)*)) => {
        $then!($($context)*;
            service_id: u64, 0, 64;
            dgid: u128, 64, 128;
            sgid: u128, 192, 128;
            dlid: u16, 320, 16;
            slid: u16, 336, 16;
            raw_traffic: bool, 352, 1;
            flow_label: u32, 356, 20;
            hop_limit: u8, 376, 8;
            t_class: u8, 384, 8;
            reversible: bool, 392, 1;
            numb_path: u8, 393, 7;
            p_key: u16, 400, 16;
            qos_class: u16, 416, 12;
            sl: u8, 428, 4;
            mtu_selector: u8, 432, 2;
            mtu: u8, 434, 6;
            rate_selector: u8, 440, 2;
            rate: u8, 442, 6;
            packet_life_time_selector: u8, 448, 2;
            packet_life_time: u8, 450, 6;
            preference: u8, 456, 8;
        )
    };
}

/// What paths are asked by (IBA volume 1, 15.2.5): word in scripts, bits of the ComponentMask, field, type, bits, and
/// how it constrains.
macro_rules! path_record_components {
    ($then:ident!($($context:tt)*)) => {
        $then!($($context)*;
            b"sid", mask::SERVICE_ID, service_id: u64, 64, alone;
            b"dgid", mask::DGID, dgid: u128, 128, equal;
            b"sgid", mask::SGID, sgid: u128, 128, equal;
            b"dlid", mask::DLID, dlid: u16, 16, equal;
            b"slid", mask::SLID, slid: u16, 16, equal;
            b"raw", mask::RAW_TRAFFIC, raw_traffic: bool, 1, equal;
            b"flow", mask::FLOW_LABEL, flow_label: u32, 20, equal;
            b"hop", mask::HOP_LIMIT, hop_limit: u8, 8, equal;
            b"tclass", mask::T_CLASS, t_class: u8, 8, equal;
            b"rev", mask::REVERSIBLE, reversible: bool, 1, alone;
            b"numb", mask::NUMB_PATH, numb_path: u8, 7, alone;
            b"pkey", mask::P_KEY, p_key: u16, 16, base;
            b"qos", mask::QOS_CLASS, qos_class: u16, 12, equal;
            b"sl", mask::SL, sl: u8, 4, equal;
            b"mtusel", mask::MTU_SELECTOR, mtu_selector: u8, 2, alone;
            b"mtu", mask::MTU, mtu: u8, 6, (code mtu_selector mask::SELECTED_MTU);
            b"ratesel", mask::RATE_SELECTOR, rate_selector: u8, 2, alone;
            b"rate", mask::RATE, rate: u8, 6, (rate rate_selector mask::SELECTED_RATE);
            b"lifesel", mask::PACKET_LIFE_TIME_SELECTOR, packet_life_time_selector: u8, 2, alone;
            b"life", mask::PACKET_LIFE_TIME, packet_life_time: u8, 6, (code packet_life_time_selector mask::SELECTED_LIFE_TIME);
        )
    };
}

impl PathRecord {
    /// Reads the record that the data of a MAD of subnet administration begin with; bits outside its fields are not
    /// looked at.
    pub fn read(bytes: &[u8; SA_DATA_BYTES]) -> PathRecord
        ensures fields { Holds bytes.now (path_record result) }
        ensures fits { Fits (path_record result) }
        ensures value { result ≡ path_in bytes.now }
    {
        Self::fields_of(bytes)
    }

    /// The record that asks by nothing: each of its fields is 0.
    pub fn blank() -> PathRecord
        ensures zeros { path_record_bytes result ≡ replicate 64 0 }
        ensures fits { Fits (path_record result) }
    {
        Self::read(&[0; SA_DATA_BYTES])
    }

    /// Writes the record; every bit outside its fields is 0.
    pub fn write(&self, bytes: &mut [u8; PATH_RECORD_BYTES])
        requires { Fits (path_record self.now) }
        ensures encodes { Encodes bytes.new (path_record self.now) }
        ensures bytes { bytes.new ≡ path_record_bytes self.now }
    {
        self.put_over_zeros(bytes);
    }

    /// Whether the record agrees with `asked` on every component that the mask names.
    #[tactic(auto, unfolding(crate::specs::PathRecord::path_record_selected))]
    pub fn selected_by(&self, mask: u64, asked: &PathRecord) -> bool
        ensures { result ≡ path_record_selected mask self.now asked.now }
    {
        path_record_components!(selected!(self asked mask))
    }

    /// Asks by the field of this name: sets its value, and gives the bits of the ComponentMask that name it. None, and
    /// nothing is set, if paths have no such field or the value is wider than it.
    pub fn ask_by(&mut self, field: &[u8], value: u128) -> Option<u64>
        ensures bits { result ≡ bits_of (asked_by field.now value path_record_asked) }
        ensures set { path_record self.new ≡ with_value value (asked_by field.now value path_record_asked) (path_record self.old) }
        ensures fits { Fits (path_record self.old) → Fits (path_record self.new) }
    {
        self.set_by(field, value)
    }

    #[tactic(auto, unfolding(crate::specs::Asked::asked_by))]
    fn set_by(&mut self, field: &[u8], value: u128) -> Option<u64>
        ensures bits { result ≡ bits_of (asked_by field.now value path_record_asked) }
        ensures set { path_record self.new ≡ with_value value (asked_by field.now value path_record_asked) (path_record self.old) }
    {
        path_record_components!(set_asked!(self field value))
    }

    #[tactic(auto, unfolding(crate::specs::PathRecord::path_in))]
    fn fields_of(bytes: &[u8; SA_DATA_BYTES]) -> PathRecord
        ensures fields { Holds bytes.now (path_record result) }
        ensures value { result ≡ path_in bytes.now }
    {
        path_record_layout!(read_fields!(PathRecord bytes))
    }

    fn put_over_zeros(&self, bytes: &mut [u8; PATH_RECORD_BYTES])
        requires { Fits (path_record self.now) }
        ensures { bytes.new ≡ put_all (replicate 64 0) (path_record self.now) }
    {
        *bytes = [0; PATH_RECORD_BYTES];
        path_record_layout!(write_fields!(self bytes))
    }
}
