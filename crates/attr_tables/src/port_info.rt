//! PortInfo.

ghost use Rattle.std.specs.Prelude.{◌≡◌, Some, IfSome, replicate};
ghost use Rattle.mad_layout.specs.Layout.{Holds, Fits, put_all, Encodes};
ghost use Rattle.attr_tables.specs.Mtu.{mtu_code};
ghost use Rattle.attr_tables.specs.PortInfo.{port_info, port_info_bytes};
ghost use Rattle.attr_tables.specs.PortPhysicalState.{port_physical_state_code};
ghost use Rattle.attr_tables.specs.PortState.{port_state_code};

use crate::mtu::Mtu;
use crate::port_physical_state::PortPhysicalState;
use crate::port_state::PortState;
use mad_layout::{read_fields, write_fields};

/// The state and the limits of a port, each field as its raw bits.
///
/// Source: IBA volume 1, 14.2.5.6.
#[derive(Clone, Copy, Debug, Default, PartialEq, Eq)]
pub struct PortInfo {
    /// The key that a manager shows to change the port.
    pub m_key: u64,
    /// The first half of the port's GIDs.
    pub gid_prefix: u64,
    /// The port's own LID.
    pub lid: u16,
    /// The LID of the subnet manager.
    pub master_sm_lid: u16,
    /// What the port can do, a bit for each.
    pub capability_mask: u32,
    /// A diagnostic code of the device.
    pub diag_code: u16,
    /// How many seconds `m_key` protects, 0 for ever.
    pub m_key_lease_period: u16,
    /// The port that was asked.
    pub local_port_num: u8,
    /// The link widths that are enabled.
    pub link_width_enabled: u8,
    /// The link widths that are supported.
    pub link_width_supported: u8,
    /// The link width in use.
    pub link_width_active: u8,
    /// The link speeds that are supported, 4 bits.
    pub link_speed_supported: u8,
    /// The state of the link, 4 bits. [`PortInfo::port_state`] names it.
    pub port_state: u8,
    /// The state of the physical link, 4 bits. [`PortInfo::port_physical_state`] names it.
    pub port_physical_state: u8,
    /// The physical state that a link which is down goes to, 4 bits.
    pub link_down_default_state: u8,
    /// How far `m_key` protects, 2 bits.
    pub m_key_protect_bits: u8,
    /// How many low bits of a LID the port does not look at, 3 bits.
    pub lmc: u8,
    /// The link speed in use, 4 bits.
    pub link_speed_active: u8,
    /// The link speeds that are enabled, 4 bits.
    pub link_speed_enabled: u8,
    /// The greatest packet that the neighbor takes, 4 bits. [`PortInfo::neighbor_mtu`] names it.
    pub neighbor_mtu: u8,
    /// The service level to the subnet manager, 4 bits.
    pub master_sm_sl: u8,
    /// The virtual lanes that the port can have, 4 bits.
    pub vl_cap: u8,
    /// What a node that starts asks for, 4 bits.
    pub init_type: u8,
    /// How much of the high priority goes out before low priority.
    pub vl_high_limit: u8,
    /// The entries of the arbitration table for high priority.
    pub vl_arbitration_high_cap: u8,
    /// The entries of the arbitration table for low priority.
    pub vl_arbitration_low_cap: u8,
    /// What was done of `init_type`, 4 bits.
    pub init_type_reply: u8,
    /// The greatest packet that the port can take, 4 bits. [`PortInfo::mtu_cap`] names it.
    pub mtu_cap: u8,
    /// After how many dropped packets a lane stalls, 3 bits.
    pub vl_stall_count: u8,
    /// How long a packet may wait at the head of a queue, 5 bits.
    pub hoq_life: u8,
    /// The virtual lanes in use, 4 bits.
    pub operational_vls: u8,
    /// Whether the switch port checks keys of what comes in.
    pub partition_enforcement_inbound: bool,
    /// Whether the switch port checks keys of what goes out.
    pub partition_enforcement_outbound: bool,
    /// Whether the switch port drops raw packets that come in.
    pub filter_raw_inbound: bool,
    /// Whether the switch port drops raw packets that go out.
    pub filter_raw_outbound: bool,
    /// How often a wrong `m_key` came.
    pub m_key_violations: u16,
    /// How often a wrong P_Key came.
    pub p_key_violations: u16,
    /// How often a wrong Q_Key came.
    pub q_key_violations: u16,
    /// How many GUIDs the port can have.
    pub guid_cap: u8,
    /// How long an SMP may take through the subnet, 5 bits.
    pub subnet_time_out: u8,
    /// How long the port may take to answer, 5 bits.
    pub resp_time_value: u8,
    /// How many physical errors bring the link down, 4 bits.
    pub local_phy_errors: u8,
    /// How many overruns bring the link down, 4 bits.
    pub overrun_errors: u8,
    /// The credits that the link can use.
    pub max_credit_hint: u16,
    /// The latency of the link both ways, 24 bits.
    pub link_round_trip_latency: u32,
}

/// PortInfo (IBA volume 1, 14.2.5.6): field, type, first bit, bits.
macro_rules! port_info_layout {
    ($then:ident!($($context:tt)*)) => {
        $then!($($context)*;
            m_key: u64, 0, 64;
            gid_prefix: u64, 64, 64;
            lid: u16, 128, 16;
            master_sm_lid: u16, 144, 16;
            capability_mask: u32, 160, 32;
            diag_code: u16, 192, 16;
            m_key_lease_period: u16, 208, 16;
            local_port_num: u8, 224, 8;
            link_width_enabled: u8, 232, 8;
            link_width_supported: u8, 240, 8;
            link_width_active: u8, 248, 8;
            link_speed_supported: u8, 256, 4;
            port_state: u8, 260, 4;
            port_physical_state: u8, 264, 4;
            link_down_default_state: u8, 268, 4;
            m_key_protect_bits: u8, 272, 2;
            lmc: u8, 277, 3;
            link_speed_active: u8, 280, 4;
            link_speed_enabled: u8, 284, 4;
            neighbor_mtu: u8, 288, 4;
            master_sm_sl: u8, 292, 4;
            vl_cap: u8, 296, 4;
            init_type: u8, 300, 4;
            vl_high_limit: u8, 304, 8;
            vl_arbitration_high_cap: u8, 312, 8;
            vl_arbitration_low_cap: u8, 320, 8;
            init_type_reply: u8, 328, 4;
            mtu_cap: u8, 332, 4;
            vl_stall_count: u8, 336, 3;
            hoq_life: u8, 339, 5;
            operational_vls: u8, 344, 4;
            partition_enforcement_inbound: bool, 348, 1;
            partition_enforcement_outbound: bool, 349, 1;
            filter_raw_inbound: bool, 350, 1;
            filter_raw_outbound: bool, 351, 1;
            m_key_violations: u16, 352, 16;
            p_key_violations: u16, 368, 16;
            q_key_violations: u16, 384, 16;
            guid_cap: u8, 400, 8;
            subnet_time_out: u8, 411, 5;
            resp_time_value: u8, 419, 5;
            local_phy_errors: u8, 424, 4;
            overrun_errors: u8, 428, 4;
            max_credit_hint: u16, 432, 16;
            link_round_trip_latency: u32, 456, 24;
        )
    };
}

impl PortInfo {
    /// Reads the attribute; bits outside its fields are not looked at.
    pub fn read(bytes: &[u8; 64]) -> PortInfo
        ensures fields { Holds bytes.now (port_info result) }
        ensures fits { Fits (port_info result) }
    {
        Self::fields_of(bytes)
    }

    /// Writes the attribute; every bit outside its fields is 0.
    pub fn write(&self, bytes: &mut [u8; 64])
        requires { Fits (port_info self.now) }
        ensures encodes { Encodes bytes.new (port_info self.now) }
        ensures bytes { bytes.new ≡ port_info_bytes self.now }
    {
        self.put_over_zeros(bytes);
    }

    /// Writes the fields over those that stand there; every bit outside them stays, as CapabilityMask2 of later editions.
    pub fn put_over(&self, bytes: &mut [u8; 64])
        requires { Fits (port_info self.now) }
        ensures { bytes.new ≡ put_all bytes.old (port_info self.now) }
    {
        port_info_layout!(write_fields!(self bytes))
    }

    /// The attribute's bytes.
    pub fn to_bytes(&self) -> [u8; 64]
        requires { Fits (port_info self.now) }
        ensures { result ≡ port_info_bytes self.now }
    {
        let mut bytes = [0; 64];
        self.write(&mut bytes);
        bytes
    }

    /// The state of the link, if it is one of those.
    pub fn port_state(&self) -> Option<PortState>
        ensures known { IfSome result (λ one. port_state_code one ≡ self.now.port_state) }
        ensures every { (one : PortState) → port_state_code one ≡ self.now.port_state → result ≡ Some one }
    {
        PortState::from_code(self.port_state)
    }

    /// The state of the physical link, if it is one of those.
    pub fn port_physical_state(&self) -> Option<PortPhysicalState>
        ensures known { IfSome result (λ one. port_physical_state_code one ≡ self.now.port_physical_state) }
        ensures every { (one : PortPhysicalState) → port_physical_state_code one ≡ self.now.port_physical_state → result ≡ Some one }
    {
        PortPhysicalState::from_code(self.port_physical_state)
    }

    /// How long a packet to the neighbor may be, if it is one of those.
    pub fn neighbor_mtu(&self) -> Option<Mtu>
        ensures known { IfSome result (λ one. mtu_code one ≡ self.now.neighbor_mtu) }
        ensures every { (one : Mtu) → mtu_code one ≡ self.now.neighbor_mtu → result ≡ Some one }
    {
        Mtu::from_code(self.neighbor_mtu)
    }

    /// How long a packet the port can take, if it is one of those.
    pub fn mtu_cap(&self) -> Option<Mtu>
        ensures known { IfSome result (λ one. mtu_code one ≡ self.now.mtu_cap) }
        ensures every { (one : Mtu) → mtu_code one ≡ self.now.mtu_cap → result ≡ Some one }
    {
        Mtu::from_code(self.mtu_cap)
    }

    fn fields_of(bytes: &[u8; 64]) -> PortInfo
        ensures { Holds bytes.now (port_info result) }
    {
        port_info_layout!(read_fields!(PortInfo bytes))
    }

    fn put_over_zeros(&self, bytes: &mut [u8; 64])
        requires { Fits (port_info self.now) }
        ensures { bytes.new ≡ put_all (replicate 64 0) (port_info self.now) }
    {
        *bytes = [0; 64];
        self.put_over(bytes);
    }
}
