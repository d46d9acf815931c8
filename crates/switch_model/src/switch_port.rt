//! A port of a switch.

ghost use Rattle.std.specs.Prelude.{◌≡◌};
ghost use Rattle.mad_layout.specs.Layout.{Fits};
ghost use Rattle.attr_tables.specs.PortInfo.{port_info};
ghost use Rattle.switch_model.specs.Forwarding.{port_accepts};
ghost use Rattle.switch_model.specs.SwitchState.{port_at_power_up};

use agent_rules::{PortLink, keys_at_power_up, port_info_at_power_up};
use attr_tables::PortInfo;
use fabric_parts::NodeType;
use pkey_rules::{PARTITIONS, PKey, stored_accepts};

/// What a port of a switch holds.
#[derive(Clone, Copy, Debug, Default, PartialEq, Eq)]
pub struct SwitchPort {
    /// What a subnet manager reads and sets of it.
    pub info: PortInfo,
    /// The words of its P_Key table as they were written.
    pub keys: [u16; PARTITIONS],
}

impl SwitchPort {
    /// The port of that number at power-up.
    pub fn at_power_up(number: u8, link: PortLink) -> SwitchPort
        ensures value { result ≡ port_at_power_up number link }
        ensures fits { Fits (port_info result.info) }
    {
        SwitchPort {
            info: port_info_at_power_up(NodeType::Switch, number, link),
            keys: keys_at_power_up(),
        }
    }

    /// Whether a key of its table matches this one.
    pub fn accepts(&self, p_key: PKey) -> bool
        ensures { result ≡ port_accepts self.now p_key }
    {
        stored_accepts(&self.keys, p_key)
    }
}
