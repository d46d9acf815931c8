//! What a Set of PortInfo asks for, and what a port makes of it.

ghost use Rattle.std.specs.Prelude.{◌≡◌, IfOk};
ghost use Rattle.mad_layout.specs.Layout.{Fits};
ghost use Rattle.attr_tables.specs.PortInfo.{port_info};
ghost use Rattle.agent_rules.specs.PortSetting.{IsNarrow, port_setting, is_no_change, is_valid, may_follow, taken_over, port_info_after};

use attr_tables::{Mtu, PortInfo, PortState};
use fabric_parts::LAST_UNICAST_LID;
use mad_layout::MadStatus;

/// What a Set of PortInfo asks of a port of a simulated node, each field as its raw bits.
///
/// Source: IBA volume 1, 14.2.5.6.
#[derive(Clone, Copy, Debug, PartialEq, Eq)]
pub struct PortSetting {
    /// The first half of the port's GIDs.
    pub gid_prefix: u64,
    /// The port's LID, or 0.
    pub lid: u16,
    /// The LID of the subnet manager.
    pub master_sm_lid: u16,
    /// The state that the port is to have, or 0 if it stays.
    pub port_state: u8,
    /// How many low bits of the LID are free.
    pub lmc: u8,
    /// How long a packet to the neighbor may be.
    pub neighbor_mtu: u8,
    /// The service level of packets to the subnet manager.
    pub master_sm_sl: u8,
    /// Whether keys of packets that come in are checked.
    pub partition_enforcement_inbound: bool,
    /// Whether keys of packets that go out are checked.
    pub partition_enforcement_outbound: bool,
}

impl PortSetting {
    /// What an attribute of an SMP asks for.
    pub fn read(attribute: &[u8; 64]) -> PortSetting
        ensures value { result ≡ port_setting attribute.now }
        ensures narrow { IsNarrow result }
    {
        let info = PortInfo::read(attribute);
        PortSetting {
            gid_prefix: info.gid_prefix,
            lid: info.lid,
            master_sm_lid: info.master_sm_lid,
            port_state: info.port_state,
            lmc: info.lmc,
            neighbor_mtu: info.neighbor_mtu,
            master_sm_sl: info.master_sm_sl,
            partition_enforcement_inbound: info.partition_enforcement_inbound,
            partition_enforcement_outbound: info.partition_enforcement_outbound,
        }
    }

    /// Whether a port with this information takes the setting.
    #[tactic(auto, unfolding(crate::specs::PortSetting::is_valid))]
    pub fn is_valid(&self, info: &PortInfo) -> bool
        ensures { result ≡ is_valid info.now self.now }
    {
        self.lmc == 0
            && self.neighbor_mtu >= Mtu::Bytes256.code()
            && self.neighbor_mtu <= Mtu::Bytes2048.code()
            && self.lid <= LAST_UNICAST_LID
            && (self.is_no_change() || may_follow(info.port_state, self.port_state))
    }

    /// What a port that takes the setting has then. Only a port that can enforce partitions takes the
    /// two enforcement bits.
    #[tactic(auto, unfolding(crate::specs::PortSetting::taken_over))]
    fn taken_over(&self, info: &PortInfo, enforces: bool) -> PortInfo
        ensures { result ≡ taken_over enforces info.now self.now }
    {
        let port_state = if self.is_no_change() {
            info.port_state
        } else {
            self.port_state
        };
        let (inbound, outbound) = if enforces {
            (
                self.partition_enforcement_inbound,
                self.partition_enforcement_outbound,
            )
        } else {
            (
                info.partition_enforcement_inbound,
                info.partition_enforcement_outbound,
            )
        };
        PortInfo {
            gid_prefix: self.gid_prefix,
            lid: self.lid,
            master_sm_lid: self.master_sm_lid,
            port_state,
            neighbor_mtu: self.neighbor_mtu,
            master_sm_sl: self.master_sm_sl,
            partition_enforcement_inbound: inbound,
            partition_enforcement_outbound: outbound,
            ..*info
        }
    }

    fn is_no_change(&self) -> bool
        ensures { result ≡ is_no_change self.now }
    {
        self.port_state == PortState::NoChange.code()
    }
}

/// Whether a port of this state may be asked for that one: Armed from Initialize, Active from Armed, and
/// either again.
fn may_follow(now: u8, next: u8) -> bool
    ensures { result ≡ may_follow now next }
{
    let armed = PortState::Armed.code();
    let active = PortState::Active.code();
    (next == armed && (now == PortState::Initialize.code() || now == armed))
        || (next == active && (now == armed || now == active))
}

/// What a port has after a Set of its PortInfo, or why the Set is refused.
pub fn port_info_after(
    info: &PortInfo,
    setting: &PortSetting,
    enforces: bool,
) -> Result<PortInfo, MadStatus>
    requires info { Fits (port_info info.now) }
    requires setting { IsNarrow setting.now }
    ensures value { result ≡ port_info_after enforces info.now setting.now }
    ensures fits { IfOk result (λ next. Fits (port_info next)) }
{
    if setting.is_valid(info) {
        Ok(setting.taken_over(info, enforces))
    } else {
        Err(MadStatus::InvalidField)
    }
}
