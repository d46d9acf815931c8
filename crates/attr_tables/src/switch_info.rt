//! SwitchInfo.

ghost use Rattle.std.specs.Prelude.{◌≡◌, ◌<◌, replicate};
ghost use Rattle.mad_layout.specs.Layout.{Holds, Fits, put_all, Encodes};
ghost use Rattle.attr_tables.specs.SwitchInfo.{switch_info, switch_info_bytes};

use mad_layout::{read_fields, write_fields};

/// What a switch can do and how its forwarding tables are used, each field as its raw bits.
///
/// Source: IBA volume 1, chapter 14.
#[derive(Clone, Copy, Debug, Default, PartialEq, Eq)]
pub struct SwitchInfo {
    /// How many entries the linear forwarding table has.
    pub linear_fdb_cap: u16,
    /// How many entries the random forwarding table has.
    pub random_fdb_cap: u16,
    /// How many entries the multicast forwarding table has.
    pub multicast_fdb_cap: u16,
    /// The greatest LID of the linear forwarding table that is in use.
    pub linear_fdb_top: u16,
    /// Where packets go that the random forwarding table does not know.
    pub default_port: u8,
    /// Where multicast packets go that the table does not know.
    pub default_multicast_primary_port: u8,
    /// Where those go that came in there.
    pub default_multicast_not_primary_port: u8,
    /// How long a packet may stay in the switch, 5 bits.
    pub life_time_value: u8,
    /// Whether the state of some port has changed.
    pub port_state_change: bool,
    /// How many LIDs of each port the random forwarding table can have.
    pub lids_per_port: u16,
    /// How many entries the P_Key table of each switch port has.
    pub partition_enforcement_cap: u16,
    /// Whether switch ports can check keys of what comes in.
    pub inbound_enforcement_cap: bool,
    /// Whether switch ports can check keys of what goes out.
    pub outbound_enforcement_cap: bool,
    /// Whether switch ports can drop raw packets that come in.
    pub filter_raw_inbound_cap: bool,
    /// Whether switch ports can drop raw packets that go out.
    pub filter_raw_outbound_cap: bool,
    /// Whether port 0 is a port like those of a channel adapter.
    pub enhanced_port0: bool,
}

/// SwitchInfo (IBA volume 1, chapter 14): field, type, first bit, bits.
macro_rules! switch_info_layout {
    ($then:ident!($($context:tt)*)) => {
        $then!($($context)*;
            linear_fdb_cap: u16, 0, 16;
            random_fdb_cap: u16, 16, 16;
            multicast_fdb_cap: u16, 32, 16;
            linear_fdb_top: u16, 48, 16;
            default_port: u8, 64, 8;
            default_multicast_primary_port: u8, 72, 8;
            default_multicast_not_primary_port: u8, 80, 8;
            life_time_value: u8, 88, 5;
            port_state_change: bool, 93, 1;
            lids_per_port: u16, 96, 16;
            partition_enforcement_cap: u16, 112, 16;
            inbound_enforcement_cap: bool, 128, 1;
            outbound_enforcement_cap: bool, 129, 1;
            filter_raw_inbound_cap: bool, 130, 1;
            filter_raw_outbound_cap: bool, 131, 1;
            enhanced_port0: bool, 132, 1;
        )
    };
}

impl SwitchInfo {
    /// Reads the attribute; bits outside its fields are not looked at.
    pub fn read(bytes: &[u8; 64]) -> SwitchInfo
        ensures fields { Holds bytes.now (switch_info result) }
        ensures life_time_value { result.life_time_value < 32 }
    {
        switch_info_layout!(read_fields!(SwitchInfo bytes))
    }

    /// Writes the attribute; every bit outside its fields is 0.
    pub fn write(&self, bytes: &mut [u8; 64])
        requires { self.now.life_time_value < 32 }
        ensures encodes { Encodes bytes.new (switch_info self.now) }
        ensures bytes { bytes.new ≡ switch_info_bytes self.now }
    {
        self.put_over_zeros(bytes);
    }

    /// Writes the fields over those that stand there; every bit outside them stays.
    pub fn put_over(&self, bytes: &mut [u8; 64])
        requires { self.now.life_time_value < 32 }
        ensures fields { bytes.new ≡ put_all bytes.old (switch_info self.now) }
        ensures fits { Fits (switch_info self.now) }
    {
        switch_info_layout!(write_fields!(self bytes))
    }

    /// The attribute's bytes.
    pub fn to_bytes(&self) -> [u8; 64]
        requires { self.now.life_time_value < 32 }
        ensures { result ≡ switch_info_bytes self.now }
    {
        let mut bytes = [0; 64];
        self.write(&mut bytes);
        bytes
    }

    fn put_over_zeros(&self, bytes: &mut [u8; 64])
        requires { self.now.life_time_value < 32 }
        ensures fields { bytes.new ≡ put_all (replicate 64 0) (switch_info self.now) }
        ensures fits { Fits (switch_info self.now) }
    {
        *bytes = [0; 64];
        self.put_over(bytes);
    }
}
